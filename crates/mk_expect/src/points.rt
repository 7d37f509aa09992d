//! Whole points of a tally.
ghost use Rattle.std.specs.Prelude.{◌+◌, ◌*◌, ◌^◌, ◌<◌, ◌≤◌};
ghost use Rattle.mk_net.specs.Bounds.{max_points_per_bit};
ghost use Rattle.mk_expect.specs.Expectation.{above_zero, below_zero};
ghost use Rattle.mk_expect.specs.inner.Tallies.{IsWithin, ArePoints};

use crate::tally::Tally;

/// The parts of a tally in one bit.
pub(crate) const PARTS: u128 = 1 << 54;

/// Whole points on either side of what is gained less what is owed, at so many points a bit: as
/// many as it is at least, and as many as it is at most.
pub(crate) fn points_of(tally: &Tally, points_per_bit: u32) -> (i64, i64)
    requires few_points { points_per_bit ≤ max_points_per_bit }
    requires small { IsWithin tally.now (2 ^ 86) (2 ^ 86) }
    ensures { ArePoints tally.now points_per_bit result.0 result.1 }
{
    let points = points_per_bit as u128;
    let low = points_below(points * tally.least_gained, points * tally.most_owed);
    let high = points_below(points * tally.least_owed, points * tally.most_gained);
    (low, -high)
}

/// The greatest whole number of points that is at most `more` less `less`, in parts of 2^54.
fn points_below(more: u128, less: u128) -> i64
    requires more { more < 2 ^ 106 }
    requires less { less < 2 ^ 106 }
    ensures below { above_zero result * 2 ^ 54 + less ≤ more + below_zero result * 2 ^ 54 }
    ensures greatest { more + below_zero result * 2 ^ 54
        < above_zero result * 2 ^ 54 + less + 2 ^ 54 }
    ensures small { above_zero result + below_zero result ≤ 2 ^ 53 }
{
    if less <= more {
        ((more - less) / PARTS) as i64
    } else {
        -((less - more).div_ceil(PARTS) as i64)
    }
}
