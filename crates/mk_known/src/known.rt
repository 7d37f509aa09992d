//! What an auditor knows of a market beside its history.

ghost use Rattle.std.specs.Prelude.{◌≡◌, Some, option_map, option_copied};
ghost use Rattle.mk_known.specs.Below.{current_limits, current_bounds, same_pair, same_question};
ghost use Rattle.mk_known.specs.Below.{same_spread, pointwise, spread_in, given_in};
ghost use Rattle.mk_known.specs.inner.Givens.{quote_in};

use mk_engine::Engine;
use mk_market::Market;
use mk_net::{Event, NoMemory, Question};
use mk_quote::SpreadQuestion;
use mk_reply::Intervals;
use mk_semiring::{MinProd, SumProd};
use mk_small::is_small;
use std::alloc::Global;
use std::marker::Model;

/// What was printed to a user last: the limits of an edit of a question, or the bounds of a spread
/// over the values of a variable, and the revision that it was printed at.
#[derive(Debug, Drop)]
pub(crate) enum Given {
    Limits {
        question: Question,
        limits: Option<(u32, u32)>,
        at: u64,
    },
    Bounds {
        question: SpreadQuestion,
        intervals: Option<Intervals>,
        at: u64,
    },
}

impl Given {
    /// The limits that it gives for an edit of this question at this revision.
    pub(crate) fn limits_for(&self, question: &Question, now: u64) -> Option<Option<(u32, u32)>>
        ensures { result ≡ current_limits (Some (quote_in self.now)) question.now now }
    {
        match self {
            Given::Limits {
                question: asked,
                limits,
                at,
            } => {
                if *at == now && is_same(asked, question) {
                    Some(*limits)
                } else {
                    None
                }
            }
            Given::Bounds { .. } => None,
        }
    }

    /// The bounds that it gives for a spread over these values at this revision.
    pub(crate) fn bounds_for(
        &self,
        question: &SpreadQuestion,
        now: u64,
    ) -> Option<&Option<Intervals>>
        ensures { option_map given_in (option_copied result)
            ≡ current_bounds (Some (quote_in self.now)) (spread_in question.now) now }
    {
        match self {
            Given::Bounds {
                question: asked,
                intervals,
                at,
            } => {
                if *at == now && is_same_spread(asked, question) {
                    Some(intervals)
                } else {
                    None
                }
            }
            Given::Limits { .. } => None,
        }
    }
}

/// Whether two questions are the same: the same target, and the same pairs in the same order.
fn is_same(left: &Question, right: &Question) -> bool
    ensures { result ≡ same_question left.now right.now }
{
    left.target() == right.target() && have_same_pairs(&left.condition(), &right.condition())
}

/// Whether two spreads are the same: the same variable, and the same pairs in the same order.
fn is_same_spread(left: &SpreadQuestion, right: &SpreadQuestion) -> bool
    ensures { result ≡ same_spread (spread_in left.now) (spread_in right.now) }
{
    left.variable == right.variable && have_same_pairs(&left.condition, &right.condition)
}

/// Whether two events are the same list.
fn have_same_pairs(left: &Event, right: &Event) -> bool
    ensures { result ≡ pointwise same_pair left.now right.now }
{
    left.pairs() == right.pairs()
}

/// What an auditor knows of a market beside its history: what was printed last to each user, in
/// the order of joining, and whether the history is small.
#[derive(Drop)]
pub struct Known {
    quotes: Vec<Option<Given>>,
    small: bool,
}

impl Model for Known {
    ghost use Rattle.mk_known.specs.Known.{Knowledge};
    ghost use Rattle.mk_known.specs.inner.Givens.{quotes_in};

    ghost Value = { Knowledge };

    ghost view = { λ k. record { quotes = quotes_in k.quotes.items; small = k.small } };
}

impl Known {
    ghost use Rattle.std.specs.Prelude.{◌≡◌, ◌<◌, ◌++◌, ◌∷◌, [], length, slice_set, Some, None};
    ghost use Rattle.std.specs.Prelude.{OnOk, option_map, option_copied};
    ghost use Rattle.mk_rules.specs.Quotes.{last_quote};
    ghost use Rattle.mk_rules.specs.Transcript.{opening};
    ghost use Rattle.mk_known.specs.Known.{IsKnown};

    /// What is known at the opening: nobody is quoted anything.
    pub fn at_opening<P: Engine<SumProd>, A: Engine<MinProd>>(
        alloc: Global,
        market: &Market<P, A>,
    ) -> Known
        requires opening { market.now.standing ≡ opening }
        ensures known { IsKnown market.now.market [] result }
        ensures unquoted { result.quotes ≡ [] }
    {
        Known {
            quotes: Vec::new(alloc),
            small: is_small(market.network(), market.history()),
        }
    }

    /// Whether the history is small.
    pub fn is_small(&self) -> bool
        ensures { result ≡ self.now.small }
    {
        self.small
    }

    /// Whether the history is small from now on.
    pub(crate) fn set_small(&mut self, small: bool)
        ensures quotes { self.new.quotes ≡ self.old.quotes }
        ensures small { self.new.small ≡ small }
    {
        self.small = small;
    }

    /// What was printed to a user last.
    pub(crate) fn last(&self, user: u32) -> Option<&Given>
        ensures { option_map quote_in (option_copied result) ≡ last_quote self.now.quotes user }
    {
        match self.quotes.get(user as usize) {
            Some(given) => given.as_ref(),
            None => None,
        }
    }

    /// The printed limits of an edit of this question by a user, where they are of this revision.
    pub fn limits_for(&self, user: u32, question: &Question, now: u64) -> Option<Option<(u32, u32)>>
        ensures { result ≡ current_limits (last_quote self.now.quotes user) question.now now }
    {
        match self.last(user) {
            Some(given) => given.limits_for(question, now),
            None => None,
        }
    }

    /// The printed bounds of a spread over these values by a user, where they are of this revision.
    pub fn bounds_for(
        &self,
        user: u32,
        question: &SpreadQuestion,
        now: u64,
    ) -> Option<&Option<Intervals>>
        ensures { option_map given_in (option_copied result)
            ≡ current_bounds (last_quote self.now.quotes user) (spread_in question.now) now }
    {
        match self.last(user) {
            Some(given) => given.bounds_for(question, now),
            None => None,
        }
    }

    /// Keeps what was printed to a user.
    pub(crate) fn keep(&mut self, user: u32, given: Given)
        requires { user < length self.old.quotes }
        ensures quotes { self.new.quotes
            ≡ slice_set self.old.quotes user (Some (quote_in given)) }
        ensures small { self.new.small ≡ self.old.small }
    {
        self.quotes[user as usize] = Some(given);
    }

    /// A user joined, to whom nothing was printed.
    pub(crate) fn join(&mut self) -> Result<(), NoMemory>
        ensures quotes { OnOk result (self.new.quotes ≡ self.old.quotes ++ None ∷ []) }
        ensures small { self.new.small ≡ self.old.small }
    {
        self.quotes.push(None)?;
        Ok(())
    }
}
