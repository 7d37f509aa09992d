//! Quotients of two numbers that are digits times a power of two.
ghost use Rattle.std.specs.Prelude.{◌≡◌, ℕ, ◌+◌, ◌-◌, ◌*◌, ◌/◌, ◌^◌, ◌<◌, ◌≤◌, MatchOption};
ghost use Rattle.std.specs.Int.{div_ceil};
ghost use Rattle.std.specs.Option.{SomeIff};
ghost use Rattle.mk_scaled.specs.inner.Quotient.{IsQuotient};

/// What answers stay below.
const LIMIT: u128 = 1 << 63;

/// The whole part of a quotient, and whether something is left over.
#[derive(Clone, Copy)]
struct Whole {
    whole: u64,
    rest: bool,
}

/// The floor of the quotient of `number * 2^up` and `by * 2^down`; `None` where it is `2^63` or more.
pub fn floor(number: u128, up: u64, by: u128, down: u64) -> Option<u64>
    requires number_below { number < 2 ^ 124 }
    requires by_positive { 1 ≤ by }
    requires by_below { by < 2 ^ 84 }
    ensures { let floor = number * 2 ^ up / (by * 2 ^ down) in SomeIff result (floor < 2 ^ 63) floor }
{
    match divide(number, up, by, down) {
        Some(quotient) => Some(quotient.whole),
        None => None,
    }
}

/// The ceiling of that quotient; `None` where it is `2^63` or more.
pub fn ceiling(number: u128, up: u64, by: u128, down: u64) -> Option<u64>
    requires number_below { number < 2 ^ 124 }
    requires by_positive { 1 ≤ by }
    requires by_below { by < 2 ^ 84 }
    ensures { let ceiling = div_ceil (number * 2 ^ up) (by * 2 ^ down) in SomeIff result (ceiling < 2 ^ 63) ceiling }
{
    match divide(number, up, by, down) {
        Some(quotient) => rounded_up(quotient),
        None => None,
    }
}

fn rounded_up(quotient: Whole) -> Option<u64>
    requires { quotient.whole < 2 ^ 63 }
    ensures { (number by : ℕ) → IsQuotient quotient.whole quotient.rest number by → 1 ≤ by → SomeIff result (div_ceil number by < 2 ^ 63) (div_ceil number by) }
{
    if !quotient.rest {
        return Some(quotient.whole);
    }
    if quotient.whole + 1 < LIMIT as u64 {
        Some(quotient.whole + 1)
    } else {
        None
    }
}

fn divide(number: u128, up: u64, by: u128, down: u64) -> Option<Whole>
    requires number_below { number < 2 ^ 124 }
    requires by_positive { 1 ≤ by }
    requires by_below { by < 2 ^ 84 }
    ensures { MatchOption result (2 ^ 63 * (by * 2 ^ down) ≤ number * 2 ^ up)
        (λ q. (q.whole < 2 ^ 63) × IsQuotient q.whole q.rest (number * 2 ^ up) (by * 2 ^ down)) }
{
    if up < down {
        divide_lowered(number, by, down - up)
    } else {
        divide_raised(number, by, up - down)
    }
}

/// The quotient of `number` and `by * 2^k`.
fn divide_lowered(number: u128, by: u128, k: u64) -> Option<Whole>
    requires number_below { number < 2 ^ 124 }
    requires by_positive { 1 ≤ by }
    ensures { MatchOption result (2 ^ 63 * (by * 2 ^ k) ≤ number)
        (λ q. (q.whole < 2 ^ 63) × IsQuotient q.whole q.rest number (by * 2 ^ k)) }
{
    if k >= 128 {
        return Some(Whole {
            whole: 0,
            rest: number != 0,
        });
    }
    let whole = (number / by) >> k;
    if whole >= LIMIT {
        return None;
    }
    Some(Whole {
        whole: whole as u64,
        rest: (whole << k) * by != number,
    })
}

/// The quotient of `number * 2^k` and `by`, one bit at a time. It comes to `2^63` after at most 147
/// turns, whatever `k` is.
fn divide_raised(number: u128, by: u128, k: u64) -> Option<Whole>
    requires number_below { number < 2 ^ 124 }
    requires by_positive { 1 ≤ by }
    requires by_below { by < 2 ^ 84 }
    ensures { MatchOption result (2 ^ 63 * by ≤ number * 2 ^ k)
        (λ q. (q.whole < 2 ^ 63) × IsQuotient q.whole q.rest (number * 2 ^ k) by) }
{
    if number == 0 {
        return Some(Whole {
            whole: 0,
            rest: false,
        });
    }
    let mut whole = number / by;
    let mut left = number % by;
    for _turn in 0..k {
        if whole >= LIMIT {
            return None;
        }
        (whole, left) = doubled(whole, left, by);
    }
    if whole >= LIMIT {
        return None;
    }
    Some(Whole {
        whole: whole as u64,
        rest: left != 0,
    })
}

/// The quotient and what is left over of twice the number.
fn doubled(whole: u128, left: u128, by: u128) -> (u128, u128)
    requires whole_below { whole < 2 ^ 63 }
    requires left_below { left < by }
    requires by_below { by < 2 ^ 84 }
    ensures value { result.0 * by + result.1 ≡ 2 * (whole * by + left) }
    ensures left_less { result.1 < by }
{
    let twice = 2 * left;
    if twice >= by {
        (2 * whole + 1, twice - by)
    } else {
        (2 * whole, twice)
    }
}
