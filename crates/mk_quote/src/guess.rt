//! Guesses at the least share that reaches a bound, for the time of the search alone.
ghost use Rattle.std.specs.Prelude.{◌≤◌, ◌^◌, ◌<◌};
ghost use Rattle.mk_quote.specs.Below.{max_share};

use crate::SideBounds;
use crate::interval::Bound;
use mk_enclose::Factor;
use mk_names::limits::MAX_SHARE;

/// The most units that a guess begins with. A factor of `2^-6` and more bears fewer.
const MOST_UNITS: u128 = (1 << 46) - 1;

impl SideBounds {
    /// A share to begin the search of a bound at: mostly the one that is sought. Any share serves.
    pub(crate) fn guess(&self, bound: Bound) -> u32
        ensures positive { 1 ≤ result }
        ensures at_most { result ≤ max_share }
    {
        match bound {
            Bound::Borne => self.share_for(least_borne(&self.factor)),
            // Units are too many only at prices below one in `2^23`.
            Bound::TooMany => MAX_SHARE,
        }
    }

    /// The least share that comes to so many units, or the nearest from 1 to 999,999.
    fn share_for(&self, units: u64) -> u32
        requires { units < 2 ^ 46 }
        ensures positive { 1 ≤ result }
        ensures at_most { result ≤ max_share }
    {
        // A million over `2^40` is 15,625 over `2^34`: divided by 20 of the bits, and then by 14.
        let share = self
            .part
            .hi()
            .div_ceil(units * 15_625, &self.whole.lo(), 1 << 20);
        match share {
            Some(fine) => fine.div_ceil(1 << 14).clamp(1, MAX_SHARE as u64) as u32,
            None => MAX_SHARE,
        }
    }
}

/// The least units that a factor bears, or the most that a guess begins with.
fn least_borne(factor: &Factor) -> u64
    ensures { result < 2 ^ 46 }
{
    let gain = factor.gain.lo();
    let owed = 40 * (factor.trades as u64 + 1) + factor.taken_out();
    let bits = owed
        .saturating_sub(factor.paid_in() + gain.exponent())
        .min(126);
    (1u128 << bits)
        .div_ceil(gain.mantissa() as u128)
        .min(MOST_UNITS) as u64
}
