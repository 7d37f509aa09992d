//! Comparisons of whole units with the quotient of two enclosed numbers.
ghost use Rattle.std.specs.Prelude.{◌≡◌, ℕ, ◌*◌, ◌^◌, ◌<◌, ◌≤◌, MatchBool};
ghost use Rattle.mk_enclose.specs.Enclosure.{Encloses};
ghost use Rattle.mk_judge.specs.Compared.{Says, LeavesOpen};

use crate::comparing::Compared;
use mk_enclose::Enclosure;
use mk_scaled::Scaled;

/// Whether so many units are at most the floor of `num * times / (den * over)`.
fn reaches(num: &Scaled, times: u64, den: &Scaled, over: u64, units: u64) -> bool
    requires positive { 1 ≤ den.now }
    requires times_below { times < 2 ^ 60 }
    requires over_positive { 1 ≤ over }
    requires over_at_most { over ≤ 2 ^ 20 }
    requires few { units ≤ 2 ^ 63 }
    ensures { MatchBool result (units * (den.now * over) ≤ num.now * times) (num.now * times < units * (den.now * over)) }
{
    match num.div_floor(times, den, over) {
        Some(floor) => units <= floor,
        None => true,
    }
}

/// Whether so many units are at least the ceiling of `num * times / (den * over)`.
fn covers(num: &Scaled, times: u64, den: &Scaled, over: u64, units: u64) -> bool
    requires positive { 1 ≤ den.now }
    requires times_below { times < 2 ^ 60 }
    requires over_positive { 1 ≤ over }
    requires over_at_most { over ≤ 2 ^ 20 }
    requires few { units < 2 ^ 63 }
    ensures { MatchBool result (num.now * times ≤ units * (den.now * over)) (units * (den.now * over) < num.now * times) }
{
    match num.div_ceil(times, den, over) {
        Some(ceiling) => ceiling <= units,
        None => false,
    }
}

/// Compares so many units of `den * over` with `num * times`.
pub fn compare_below(
    num: &Enclosure,
    times: u64,
    den: &Enclosure,
    over: u64,
    units: u64,
) -> Compared
    requires times_below { times < 2 ^ 60 }
    requires over_positive { 1 ≤ over }
    requires over_at_most { over ≤ 2 ^ 20 }
    requires few { units ≤ 2 ^ 63 }
    ensures { (v w : ℕ) → Encloses num.now v → Encloses den.now w
        → Says result (units * (w * over)) (v * times) (LeavesOpen num.now den.now (units * (w * over)) (v * times)) }
{
    if reaches(&num.lo(), times, &den.hi(), over, units) {
        Compared::AtMost
    } else if reaches(&num.hi(), times, &den.lo(), over, units) {
        Compared::Unsure
    } else {
        Compared::Above
    }
}

/// Compares `num * times` with so many units of `den * over`.
pub fn compare_above(
    num: &Enclosure,
    times: u64,
    den: &Enclosure,
    over: u64,
    units: u64,
) -> Compared
    requires times_below { times < 2 ^ 60 }
    requires over_positive { 1 ≤ over }
    requires over_at_most { over ≤ 2 ^ 20 }
    requires few { units < 2 ^ 63 }
    ensures { (v w : ℕ) → Encloses num.now v → Encloses den.now w
        → Says result (v * times) (units * (w * over)) (LeavesOpen num.now den.now (v * times) (units * (w * over))) }
{
    if covers(&num.hi(), times, &den.lo(), over, units) {
        Compared::AtMost
    } else if covers(&num.lo(), times, &den.hi(), over, units) {
        Compared::Unsure
    } else {
        Compared::Above
    }
}
