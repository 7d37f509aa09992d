//! Questions about every value of a variable at once.
ghost use Rattle.std.specs.Prelude.{◌≡◌, ◌≤◌, false, length};
ghost use Rattle.mk_net.specs.Bounds.{max_condition};
ghost use Rattle.mk_net.specs.Events.{speaks_of};

use crate::quote::have_same_pairs;
use mk_net::{Event, Pair, Question};

/// A variable, and a condition of at most eight pairs that does not speak of it.
#[derive(Clone, Copy, Debug)]
pub struct SpreadQuestion {
    pub variable: u32,
    pub condition: Event,
    ghost few_pairs: { length condition ≤ max_condition },
    ghost apart: { speaks_of condition variable ≡ false },
}

impl SpreadQuestion {
    ghost use Rattle.std.specs.Prelude.{◌≡◌, ◌<◌, ◌⊎◌, ◌↔◌, true, length, IfSome, IfNone, IsTrue};
    ghost use Rattle.mk_net.specs.Bounds.{max_condition};
    ghost use Rattle.mk_net.specs.Events.{speaks_of};
    ghost use Rattle.mk_quote.specs.Questions.{spread_in};

    /// The question about a variable under a condition. None exactly where the condition has more than eight pairs, or
    /// speaks of the variable.
    pub fn make(variable: u32, condition: Event) -> Option<SpreadQuestion>
        ensures some { IfSome result (λ question. spread_in question ≡ record { variable = variable; condition = condition }) }
        ensures none { IfNone result ((max_condition < length condition) ⊎ (speaks_of condition variable ≡ true)) }
    {
        let first = Pair { variable, value: 0 };
        let question = Question::make(first, condition)?;
        Some(SpreadQuestion {
            variable,
            condition: question.condition(),
        })
    }
    /// Whether two questions are the same: the same variable, and the same pairs in the same order.
    pub fn is_same(&self, other: &SpreadQuestion) -> bool
        ensures { IsTrue result ↔ (spread_in self.now ≡ spread_in other.now) }
    {
        self.variable == other.variable && have_same_pairs(&self.condition, &other.condition)
    }
}
