//! Questions: what is the probability of a value, where a condition holds?

ghost use Rattle.std.specs.Prelude.{◌≡◌, ◌<◌, ◌⊎◌, true, length, IfSome, IfNone};
ghost use Rattle.mk_net.specs.Bounds.{max_condition};
ghost use Rattle.mk_net.specs.Events.{speaks_of, IsEvent, IsQuestion, pairs_asked};

use crate::event::{Event, speaks_of};
use crate::words::Pair;
use mk_names::limits::MAX_CONDITION;
use std::marker::Model;

/// A target pair, and a condition of at most eight pairs that does not speak of the target's variable.
#[derive(Clone, Copy, Debug)]
pub struct Question {
    target: Pair,
    condition: Event,
}

impl Model for Question {
    ghost use Rattle.mk_net.specs.Asked.{Asked};
    ghost use Rattle.mk_net.specs.Events.{IsQuestion};
    ghost use Rattle.mk_net.specs.inner.KeptQuestions.{asked_inverse};

    ghost Value = { Asked };

    ghost view = { λ q. record { target = q.target; condition = q.condition } };

    ghost invariant = { λ q. IsQuestion (record { target = q.target; condition = q.condition }) };

    ghost inverse = { λ asked. record { target = asked.target; condition = asked.condition } };

    ghost inverse_ok = { λ q _. asked_inverse q };
}

impl Question {
    /// The question of a target under a condition. None exactly where the condition has more than eight pairs, or speaks
    /// of the target's variable.
    pub fn make(target: Pair, condition: Event) -> Option<Question>
        ensures some { IfSome result (λ asked. asked ≡ record { target = target; condition = condition }) }
        ensures none { IfNone result ((max_condition < length condition) ⊎ (speaks_of condition target.variable ≡ true)) }
        ensures question { IfSome result (λ asked. IsQuestion asked) }
    {
        let pairs = condition.pairs();
        if pairs.len() > MAX_CONDITION as usize || speaks_of(pairs, target.variable) {
            return None;
        }
        Some(Question { target, condition })
    }

    /// Its target.
    pub fn target(&self) -> Pair
        ensures { result ≡ self.now.target }
    {
        self.target
    }

    /// Its condition.
    pub fn condition(&self) -> Event
        ensures condition { result ≡ self.now.condition }
        ensures question { IsQuestion self.now }
    {
        self.condition
    }

    /// The condition and the target together, the target at the end.
    pub fn event(&self) -> Event
        ensures pairs { result ≡ pairs_asked self.now }
        ensures event { IsEvent (pairs_asked self.now) }
    {
        match self.condition.with(self.target) {
            Some(event) => event,
            None => self.condition,
        }
    }
}
