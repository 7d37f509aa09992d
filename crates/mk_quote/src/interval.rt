//! The shares that serve one side of a question.
ghost use Rattle.std.specs.Prelude.{◌≡◌, ℕ, ◌-◌, ◌<◌, ◌≤◌, ◌↔◌, min};
ghost use Rattle.std.specs.Prelude.{IsTrue, MatchOption, IfSome};
ghost use Rattle.mk_quote.specs.Below.{number_limit, Inside, IsWithinRange, max_share};
ghost use Rattle.mk_quote.specs.Sides.{ratio_for, Serves, interval_for};
ghost use Rattle.mk_quote.specs.inner.Reached.{Reaches, HoldsFirst};

use crate::SideBounds;
use crate::side::bears;
use mk_names::limits::MILLION;

/// The least number of units that cannot be written.
const TOO_MANY: u64 = 1 << 63;

/// What the units for a share can reach: with greater shares they stay there.
#[derive(Clone, Copy, Debug)]
pub enum Bound {
    /// Units that the factor bears.
    Borne,
    /// Units that cannot be written.
    TooMany,
}

/// The shares that may be the least to reach a bound, from `low` to `high`. A million is for none.
#[derive(Clone, Copy)]
pub struct Range {
    pub low: u32,
    pub high: u32,
}

impl SideBounds {
    /// The least and the greatest share, in parts in a million, that `judge` takes: it takes all between them, and no
    /// other from 1 to 999,999. None where it takes none.
    pub fn interval(&self) -> Option<(u32, u32)>
        ensures value { result ≡ interval_for self.now }
        ensures in_range { IsWithinRange result }
        ensures serves { (X : ℕ) → 1 ≤ X → X ≤ max_share → Inside result X ↔ Serves self.now X }
    {
        self.served()
    }

    /// The shares that serve: from the least that the factor bears to the last before those that are too many.
    fn served(&self) -> Option<(u32, u32)>
        ensures in_range { IsWithinRange result }
        ensures serves { (X : ℕ) → 1 ≤ X → X ≤ max_share → Inside result X ↔ Serves self.now X }
    {
        let low = self.first(Bound::Borne);
        let end = self.first(Bound::TooMany);
        if low < end {
            Some((low, end - 1))
        } else {
            None
        }
    }

    /// The units for a share, which may be any number. None exactly outside of the interval.
    pub(crate) fn judge_share(&self, x: u32) -> Option<u64>
        ensures inside { MatchOption result (¬ Inside (interval_for self.now) x) (λ units. Inside (interval_for self.now) x) }
        ensures units { IfSome result (λ units. units ≡ ratio_for self.now x) }
    {
        if x < 1 || x >= MILLION {
            return None;
        }
        self.judge(x)
    }

    /// The least share whose units reach a bound, or a million where none does. It is sought about
    /// a guess, and then by halves.
    fn first(&self, bound: Bound) -> u32
        ensures positive { 1 ≤ result }
        ensures at_most { result ≤ 1000000 }
        ensures first { (X : ℕ) → 1 ≤ X → X ≤ max_share → (result ≤ X) ↔ Reaches self.now bound X }
    {
        let guess = self.guess(bound);
        let all = Range {
            low: 1,
            high: MILLION,
        };
        let mut range = self.narrowed(all, guess, bound);
        range = self.narrowed(range, guess - 1, bound);
        while range.low < range.high {
            range = self.narrowed(range, (range.low + range.high) / 2, bound);
        }
        range.low
    }

    /// What is left of a range once a share was tried. A share outside of it, or its last, tells
    /// nothing new.
    fn narrowed(&self, range: Range, share: u32, bound: Bound) -> Range
        requires { HoldsFirst self.now bound range }
        ensures holds { HoldsFirst self.now bound result }
        ensures shorter { range.low ≤ share → share < range.high
            → result.high - result.low < range.high - range.low }
    {
        if share < range.low || share >= range.high {
            return range;
        }
        if self.reaches(share, bound) {
            Range {
                low: range.low,
                high: share,
            }
        } else {
            Range {
                low: share + 1,
                high: range.high,
            }
        }
    }

    /// Whether the units for a share reach a bound.
    fn reaches(&self, x: u32, bound: Bound) -> bool
        requires { x ≤ max_share }
        ensures { IsTrue result ↔ Reaches self.now bound x }
    {
        let ratio = self.capped_ratio(x);
        match bound {
            Bound::Borne => bears(&self.factor, ratio),
            Bound::TooMany => ratio == TOO_MANY,
        }
    }

    /// The units for a share, or `2^63` where they are more.
    fn capped_ratio(&self, x: u32) -> u64
        requires { x ≤ max_share }
        ensures { result ≡ min number_limit (ratio_for self.now x) }
    {
        self.ratio(x).unwrap_or(TOO_MANY)
    }
}
