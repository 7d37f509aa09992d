//! Both sides of a question.
ghost use Rattle.std.specs.Prelude.{◌≡◌, ℕ, ◌-◌, ◌≤◌, MatchOption, IfSome};
ghost use Rattle.mk_quote.specs.Below.{million, IsWithinRange, max_share};
ghost use Rattle.mk_quote.specs.Sides.{ratio_for};
ghost use Rattle.mk_quote.specs.Bounds.{hit_side, miss_side, Allows, Limit, limits_for, AreFairAndSolvent, AreRightFor};

use crate::SideBounds;
use mk_enclose::{Enclosure, Factor};
use mk_names::limits::MILLION;

/// Bounds on what decides an edit of a question: the weight of the states where its condition and its target hold, of
/// those where the condition holds and the target does not, and of both together; and the user's least factor over the
/// first and over the second.
///
/// The promises hold for all exact numbers that these enclose, where each price is at most one and each enclosure has
/// a grade of at most `2^17`.
#[derive(Clone, Copy, Debug)]
pub struct Bounds {
    pub hit: Enclosure,
    pub miss: Enclosure,
    pub whole: Enclosure,
    pub hit_factor: Factor,
    pub miss_factor: Factor,
}

impl Bounds {
    /// The units that an edit to `x` parts in a million trades for: for the target, and for each other value. None
    /// where they would leave one of the user's factors below one, or are `2^63` or more.
    pub fn judge(&self, x: u32) -> Option<(u64, u64)>
        requires positive { 1 ≤ x }
        requires at_most { x ≤ max_share }
        ensures allows { MatchOption result (¬ Allows self.now x) (λ units. Allows self.now x) }
        ensures hit { IfSome result (λ units. units.0 ≡ ratio_for (hit_side self.now) x) }
        ensures miss { IfSome result (λ units. units.1 ≡ ratio_for (miss_side self.now) (million - x)) }
        ensures fair { IfSome result (λ units. AreFairAndSolvent self.now x units.0 units.1) }
    {
        let hit = self.hit_side().judge(x)?;
        let miss = self.miss_side().judge(MILLION - x)?;
        Some((hit, miss))
    }

    /// The least and the greatest share that `judge` takes. None where it takes none.
    pub fn limits(&self) -> Option<(u32, u32)>
        ensures value { result ≡ limits_for self.now }
        ensures in_range { IsWithinRange result }
        ensures limit { Limit self.now result }
        ensures right { AreRightFor self.now result }
    {
        self.allowed()
    }

    /// The shares that serve both sides: those of the target's side, and the rest of a million of those of the other.
    fn allowed(&self) -> Option<(u32, u32)>
        ensures in_range { IsWithinRange result }
        ensures limit { Limit self.now result }
    {
        let (low, high) = self.hit_side().interval()?;
        let (least, greatest) = self.miss_side().interval()?;
        let low = low.max(MILLION - greatest);
        let high = high.min(MILLION - least);
        if low <= high { Some((low, high)) } else { None }
    }

    /// The side of the target.
    fn hit_side(&self) -> SideBounds
        ensures { result ≡ hit_side self.now }
    {
        SideBounds {
            part: self.hit,
            whole: self.whole,
            factor: self.hit_factor,
        }
    }

    /// The side of the other values.
    fn miss_side(&self) -> SideBounds
        ensures { result ≡ miss_side self.now }
    {
        SideBounds {
            part: self.miss,
            whole: self.whole,
            factor: self.miss_factor,
        }
    }
}
