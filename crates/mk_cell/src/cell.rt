//! The cell, and products of cells.
ghost use Rattle.std.specs.Prelude.{◌≡◌, ℕ, ◌+◌, ◌-◌, ◌*◌, ◌/◌, ◌^◌, ◌<◌, ◌≤◌};
ghost use Rattle.mk_cell.specs.Cell.{IsCell, IsRounded};

/// What exponents are counted from.
pub(crate) const BIAS: u32 = 10 << 27;

/// A lower end of an exact number: `digits * 2^(exponent - 10 * 2^27)`, with the first of its 64 digits set.
/// Absent has neither digits nor exponent, and stands for 0.
///
/// A table has a *shift* common to its cells, by which exponents are raised; a cell *stands* for an
/// exact whole number under a shift, in a number of steps that each lose at most one part in `2^63`. A
/// lower end below `2^63` is the exact number.
#[derive(Clone, Copy, Debug)]
pub struct Cell {
    pub digits: u64,
    pub exponent: u32,
}

impl Cell {
    ghost use Rattle.mk_cell.specs.Cell.{Stands};

    /// Nothing, which stands for 0.
    pub const ABSENT: Cell = Cell {
        digits: 0,
        exponent: 0,
    };

    /// The whole number `n` under a shift, exactly; 0 is Absent.
    pub fn of_whole(n: u64, shift: u32) -> Cell
        requires { shift ≤ 2 ^ 20 }
        ensures { Stands shift result n 0 }
    {
        if n == 0 {
            return Cell::ABSENT;
        }
        let unused = n.leading_zeros();
        Cell {
            digits: n << unused,
            exponent: BIAS - shift - unused,
        }
    }

    /// The product, rounded down.
    #[inline]
    pub fn times(self, other: Cell) -> Cell
        requires cell { IsCell self.digits self.exponent }
        requires other_cell { IsCell other.digits other.exponent }
        ensures rounded { IsRounded result.digits result.exponent (self.digits * other.digits * 2 ^ (self.exponent + other.exponent)) }
        ensures stands { (j k v w n p : ℕ) → Stands j self v n → Stands k other w p → Stands (j + k) result (v * w) (n + p + 1) }
    {
        let (digits, made_up) = leading_digits(self.digits as u128 * other.digits as u128);
        let exponent = (self.exponent + other.exponent + 64 - made_up).wrapping_sub(BIAS);
        Cell {
            digits,
            exponent: keep(exponent, (digits >> 63) as u32),
        }
    }
}

/// The cell of `total * 2^exponent`, where exponents are counted from twice the bias.
#[inline]
pub(crate) fn rounded(total: u128, exponent: u32) -> Cell
    requires full { 0 < total → 2 ^ 62 ≤ total }
    requires low { 0 < total → 10 * 2 ^ 27 + 1 ≤ exponent }
    requires high { exponent ≤ 27 * 2 ^ 27 }
    ensures rounded { IsRounded result.digits result.exponent (total * 2 ^ exponent) }
    ensures coarser { 2 ^ 63 ≤ total → exponent ≤ result.exponent + 10 * 2 ^ 27 }
{
    if total == 0 {
        return Cell::ABSENT;
    }
    let unused = total.leading_zeros();
    Cell {
        digits: ((total << unused) >> 64) as u64,
        exponent: exponent + 64 - unused - BIAS,
    }
}

/// The first 64 digits of a product of full digits, and the places that had to be made up: 0 or 1.
///
/// It makes no choice, which costs less than one that is guessed wrong every other time. The next digit is added to the doubled
/// ones: where both are read off the product, the compiler makes one shift of all its digits of them, which costs more.
#[inline]
fn leading_digits(product: u128) -> (u64, u32)
    requires { 0 < product → 2 ^ 126 ≤ product }
    ensures digits { result.0 ≡ product / 2 ^ (64 - result.1) }
    ensures full { 0 < product → 2 ^ 63 ≤ result.0 }
    ensures made_up { result.1 ≤ 1 }
{
    let high = (product >> 64) as u64;
    let next = ((product >> 63) & 1) as u64;
    let made_up = !high >> 63;
    let half = high.wrapping_add(high).wrapping_add(next);
    (pick(high, half, made_up), made_up as u32)
}

/// The first number where `choice` is 0, and the second where it is 1.
#[inline]
fn pick(first: u64, second: u64, choice: u64) -> u64
    requires { choice ≤ 1 }
    ensures first { choice ≡ 0 → result ≡ first }
    ensures second { choice ≡ 1 → result ≡ second }
{
    first.wrapping_add(second.wrapping_sub(first) & choice.wrapping_neg())
}

/// The number where `present` is 1, and 0 where it is 0.
#[inline]
fn keep(number: u32, present: u32) -> u32
    requires { present ≤ 1 }
    ensures kept { present ≡ 1 → result ≡ number }
    ensures cleared { present ≡ 0 → result ≡ 0 }
{
    number & present.wrapping_neg()
}
