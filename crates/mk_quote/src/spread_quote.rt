//! The quote of a whole distribution that a user was given last.
ghost use Rattle.std.specs.Prelude.{◌≡◌, MatchOption, IfSome};
ghost use Rattle.mk_exact.specs.Limits.{Inside};
ghost use Rattle.mk_quote.specs.Values.{value_interval, value_ratio};

use crate::{SideBounds, SpreadBounds, SpreadQuestion};
use arrayvec::ArrayVec;
use mk_names::limits::RATIO_UNIT;

/// For each value of a variable the least and the greatest share, in parts in a million, that an edit may set: `(0, 0)`
/// for one that cannot come.
pub type Intervals = ArrayVec<(u32, u32), 16>;

/// A question of a user about a whole distribution, at a revision of the market, with the side of each value
/// that can come. They decide its intervals, which are searched for only when they are asked for.
#[derive(Debug, Drop)]
pub struct SpreadQuote {
    user: u32,
    question: SpreadQuestion,
    revision: u64,
    sides: ArrayVec<Option<SideBounds>, 16>,
}

impl SpreadQuote {
    ghost use Rattle.std.specs.Prelude.{◌≡◌, ◌≤◌, ◌↔◌, not, length, MatchOption, IfSome, IsTrue, All};
    ghost use Rattle.mk_net.specs.Bounds.{max_values};
    ghost use Rattle.mk_spread.specs.Bounds.{InsideEach};
    ghost use Rattle.mk_spread.specs.Existing.{IsShareInterval};
    ghost use Rattle.mk_quote.specs.Values.{sides_in, intervals_in, ratios_for, has_no_side, impossible_share_in, misses_share_in, AreRightForEach, AreFairForEach};
    ghost use Rattle.mk_quote.specs.Questions.{spread_in};
    ghost use Rattle.mk_quote.specs.Spreads.{user_of, question_of, revision_of, sides_of, intervals_of, IsSpreadFor};

    /// The quote of a question for a user.
    pub fn make(
        user: u32,
        question: SpreadQuestion,
        revision: u64,
        bounds: &SpreadBounds,
    ) -> SpreadQuote
        ensures user { user_of result ≡ user }
        ensures question { question_of result ≡ spread_in question }
        ensures revision { revision_of result ≡ revision }
        ensures sides { sides_of result ≡ sides_in bounds.now }
    {
        let mut sides = ArrayVec::new();
        for value in bounds.parts.as_slice() {
            sides.push(value.map(|value| SideBounds {
                part: value.part,
                whole: bounds.whole,
                factor: value.factor,
            }));
        }
        SpreadQuote {
            user,
            question,
            revision,
            sides,
        }
    }

    /// The user that it was made for.
    pub fn user(&self) -> u32
        ensures { result ≡ user_of self.now }
    {
        self.user
    }

    /// For each value the shares that an edit may set: `(0, 0)` for one that cannot come. None where some value that can
    /// come has none.
    pub fn intervals(&self) -> Option<Intervals>
        ensures value { intervals_in result ≡ intervals_of self.now }
        ensures in_range { IfSome result (λ intervals. All IsShareInterval intervals.items) }
        ensures right { AreRightForEach (sides_of self.now) (intervals_in result) }
    {
        let mut intervals = ArrayVec::new();
        for value in self.sides.as_slice() {
            intervals.push(interval_of(value)?);
        }
        Some(intervals)
    }

    /// Whether it was made for this question, with its condition in the same order, at this revision.
    pub fn is_for(&self, question: &SpreadQuestion, revision: u64) -> bool
        ensures { IsTrue result ↔ IsSpreadFor self.now (spread_in question.now) revision }
    {
        self.revision == revision && self.question.is_same(question)
    }

    /// The units that an edit to these shares, in parts in a million, trades for: one number for each value, and `2^40` for
    /// one that cannot come. Some exactly inside the intervals, so none where there are more or fewer shares than values.
    pub fn judge(&self, xs: &[u32]) -> Option<ArrayVec<u64, 16>>
        ensures inside { MatchOption result (¬ InsideEach (intervals_of self.now) xs.now) (λ units. InsideEach (intervals_of self.now) xs.now) }
        ensures ratios { IfSome result (λ units. units.items ≡ ratios_for (sides_of self.now) xs.now) }
        ensures fair { IfSome result (λ units. AreFairForEach (sides_of self.now) xs.now units.items) }
    {
        if xs.len() != self.sides.len() {
            return None;
        }
        let mut units = ArrayVec::new();
        for index in 0..xs.len() {
            units.push(units_of(&self.sides[index], xs[index])?);
        }
        Some(units)
    }

    /// The first value, from 0, that has a share of at least one part in a million and cannot come.
    pub fn impossible_share(&self, xs: &[u32]) -> Option<u32>
        requires few { length xs.now ≤ max_values }
        ensures { result ≡ impossible_share_in (sides_of self.now) xs.now }
    {
        for index in 0..xs.len() {
            if xs[index] >= 1 && !self.has_side(index) {
                return Some(index as u32);
            }
        }
        None
    }

    /// Whether some value that can come has a share of 0.
    pub fn misses_share(&self, xs: &[u32]) -> bool
        ensures { result ≡ misses_share_in (sides_of self.now) xs.now }
    {
        for index in 0..xs.len() {
            if xs[index] == 0 && self.has_side(index) {
                return true;
            }
        }
        false
    }

    /// Whether a value can come. None beyond the last can.
    fn has_side(&self, value: usize) -> bool
        ensures { result ≡ not (has_no_side (sides_of self.now) value) }
    {
        value < self.sides.len() && self.sides[value].is_some()
    }
}

/// The least and the greatest share of a value: those of its side, and nothing where it has none.
fn interval_of(value: &Option<SideBounds>) -> Option<(u32, u32)>
    ensures { result ≡ value_interval value.now }
{
    match value {
        Some(side) => side.interval(),
        None => Some((0, 0)),
    }
}

/// The units of a value for a share, which may be any number. None exactly outside of its interval.
fn units_of(value: &Option<SideBounds>, x: u32) -> Option<u64>
    ensures inside { MatchOption result (¬ Inside (value_interval value.now) x) (λ units. Inside (value_interval value.now) x) }
    ensures units { IfSome result (λ units. units ≡ value_ratio value.now x) }
{
    match value {
        Some(side) => side.judge_share(x),
        None if x == 0 => Some(RATIO_UNIT),
        None => None,
    }
}
