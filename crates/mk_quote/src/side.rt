//! One side of a question: the states where its target holds, or those where it does not.
ghost use Rattle.std.specs.Prelude.{◌≡◌, ℕ, ◌+◌, ◌*◌, ◌^◌, ◌<◌, ◌≤◌, ◌↔◌, min, SomeIff, IsTrue};
ghost use Rattle.mk_net.specs.Bounds.{number_limit, max_share};
ghost use Rattle.mk_enclose.specs.Factor.{paid_in, taken_out};
ghost use Rattle.mk_quote.specs.Sides.{ratio_for, Bears, Serves};

use mk_enclose::{Enclosure, Factor};
use mk_names::limits::{MILLION, RATIO_UNIT};

/// The parts that a share is given in.

/// Bounds on one side of a question: on the weight of its states, on the weight of all states where the condition
/// holds, and on the least factor of the user over its states.
#[derive(Clone, Copy, Debug)]
pub struct SideBounds {
    pub part: Enclosure,
    pub whole: Enclosure,
    pub factor: Factor,
}

impl SideBounds {
    /// The units, in parts of `2^40`, that take this side's price to `x` parts in a million: rounded down, by the ends
    /// that give the fewest. None where they are `2^63` or more.
    pub fn ratio(&self, x: u32) -> Option<u64>
        requires { x ≤ max_share }
        ensures { SomeIff result (ratio_for self.now x < number_limit) (ratio_for self.now x) }
    {
        self.whole
            .lo()
            .div_floor(x as u64 * RATIO_UNIT, &self.part.hi(), MILLION as u64)
    }

    /// The same units where one more trade of them leaves the user's factor at least one, judged at the lower end of
    /// its gain. None where they do not, or are `2^63` or more.
    pub fn judge(&self, x: u32) -> Option<u64>
        requires { x ≤ max_share }
        ensures { SomeIff result (Serves self.now x) (ratio_for self.now x) }
    {
        let ratio = self.ratio(x)?;
        if bears(&self.factor, ratio) {
            Some(ratio)
        } else {
            None
        }
    }
}

/// Whether one more trade of so many units leaves a factor at least one, at the lower end of its gain.
///
/// The product of the units and the gain is a whole number times a power of two, and so are the numbers that it is
/// compared with: its logarithm, rounded down, decides without an error.
pub(crate) fn bears(factor: &Factor, ratio: u64) -> bool
    ensures { IsTrue result ↔ Bears factor.now ratio }
{
    let gain = factor.gain.lo();
    let product = ratio as u128 * gain.mantissa() as u128;
    if product == 0 {
        return false;
    }
    let gained = product.ilog2() as u64 + gain.exponent() + factor.paid_in();
    gained >= 40 * (factor.trades as u64 + 1) + factor.taken_out()
}
