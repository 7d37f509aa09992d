//! The quote that a user was given last.
ghost use Rattle.std.specs.Prelude.{◌≡◌, ◌↔◌, IsTrue};

use crate::Bounds;
use mk_net::{Event, Question};

/// A question of a user at a revision of the market, with its bounds. They decide its limits, which are searched for only
/// when they are asked for.
#[derive(Clone, Copy, Debug)]
pub struct Quote {
    user: u32,
    question: Question,
    revision: u64,
    bounds: Bounds,
}

impl Quote {
    ghost use Rattle.std.specs.Prelude.{◌≡◌, ◌-◌, ◌≤◌, ◌↔◌, MatchOption, IfSome, IsTrue};
    ghost use Rattle.mk_net.specs.Bounds.{million, max_share};
    ghost use Rattle.mk_exact.specs.Limits.{Inside, IsWithinRange};
    ghost use Rattle.mk_quote.specs.Sides.{ratio_for};
    ghost use Rattle.mk_quote.specs.Bounds.{hit_side, miss_side, AreFairAndSolvent, AreRightFor};
    ghost use Rattle.mk_quote.specs.Quotes.{user_of, question_of, revision_of, bounds_of, limits_of, IsFor};

    /// The quote of a question for a user.
    pub fn make(user: u32, question: Question, revision: u64, bounds: &Bounds) -> Quote
        ensures user { user_of result ≡ user }
        ensures question { question_of result ≡ question }
        ensures revision { revision_of result ≡ revision }
        ensures bounds { bounds_of result ≡ bounds.now }
    {
        Quote {
            user,
            question,
            revision,
            bounds: *bounds,
        }
    }

    /// The user that it was made for.
    pub fn user(&self) -> u32
        ensures { result ≡ user_of self.now }
    {
        self.user
    }

    /// The least and the greatest share, in parts in a million, that an edit may set. None where there is none.
    pub fn limits(&self) -> Option<(u32, u32)>
        ensures value { result ≡ limits_of self.now }
        ensures in_range { IsWithinRange result }
        ensures right { AreRightFor (bounds_of self.now) result }
    {
        self.bounds.limits()
    }

    /// Whether it was made for this question, with its condition in the same order, at this revision.
    pub fn is_for(&self, question: &Question, revision: u64) -> bool
        ensures { IsTrue result ↔ IsFor self.now question.now revision }
    {
        self.revision == revision && are_same(&self.question, question)
    }

    /// The units that an edit to `x` parts in a million trades for: for the target, and for each other value. Some
    /// exactly inside the limits.
    pub fn judge(&self, x: u32) -> Option<(u64, u64)>
        requires positive { 1 ≤ x }
        requires at_most { x ≤ max_share }
        ensures inside { MatchOption result (¬ Inside (limits_of self.now) x) (λ units. Inside (limits_of self.now) x) }
        ensures hit { IfSome result (λ units. units.0 ≡ ratio_for (hit_side (bounds_of self.now)) x) }
        ensures miss { IfSome result (λ units. units.1 ≡ ratio_for (miss_side (bounds_of self.now)) (million - x)) }
        ensures fair { IfSome result (λ units. AreFairAndSolvent (bounds_of self.now) x units.0 units.1) }
    {
        self.bounds.judge(x)
    }
}

/// Whether two questions are the same: the same target, and the same pairs in the same order.
fn are_same(left: &Question, right: &Question) -> bool
    ensures { IsTrue result ↔ (left.now ≡ right.now) }
{
    left.target() == right.target() && have_same_pairs(&left.condition(), &right.condition())
}

/// Whether two events are the same list.
pub(crate) fn have_same_pairs(left: &Event, right: &Event) -> bool
    ensures { IsTrue result ↔ (left.now ≡ right.now) }
{
    left.pairs() == right.pairs()
}
