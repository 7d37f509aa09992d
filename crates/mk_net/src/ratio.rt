//! The ratio of a trade.

ghost use Rattle.std.specs.Prelude.{◌≡◌, ◌≤◌, false, length, All};
ghost use Rattle.mk_net.specs.Asked.{IsUnits};
ghost use Rattle.mk_net.specs.Bounds.{max_condition};
ghost use Rattle.mk_net.specs.Events.{speaks_of};

use crate::event::Event;
use arrayvec::ArrayVec;

/// A variable, a condition, and by how many units of 2^-40 a trade multiplies the weight of a state where the condition
/// holds: one number for each value of the variable.
#[derive(Debug, Drop)]
pub struct Ratio {
    pub variable: u32,
    pub condition: Event,
    pub factors: ArrayVec<u64, 16>,
    ghost few_pairs: { length condition ≤ max_condition },
    ghost apart: { speaks_of condition variable ≡ false },
    ghost two_factors: { 2 ≤ length factors.items },
    ghost are_units: { All IsUnits factors.items },
}
