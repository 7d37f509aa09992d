//! Beliefs in the other values of a question's variable.

ghost use Rattle.std.specs.Prelude.{◌≡◌, ◌+◌, ◌-◌, slice_index};
ghost use Rattle.mk_engine.specs.Below.{max_values, sizes};
ghost use Rattle.mk_engine.specs.Meaning.{Meaning};
ghost use Rattle.mk_engine.specs.Cases.{pairs_with, CanAskOthers, IsOthersBelief};

use crate::Engine;
use mk_net::{Event, Pair, Question};
use mk_semiring::Semiring;

/// The plus of the beliefs in the other values of a question's variable, of which there are
/// `values`, under its condition, asked in a clique that holds the question. It leaves what the
/// engine stands for as it was.
pub fn belief_of_others<R: Semiring, E: Engine<R>>(
    engine: &mut E,
    at: u32,
    asked: &Question,
    values: u32,
) -> R::Value
    requires { CanAskOthers E.stands_for engine.old at asked.now values }
    ensures kept { (m : Meaning) → E.stands_for engine.old m → E.stands_for engine.new m }
    ensures belief { (m : Meaning) → E.stands_for engine.old m → values ≡ slice_index (sizes m.network) asked.now.target.variable
        → IsOthersBelief R.encloses R.has_grade R.is_exact R.plus_of m asked.now values result }
    ensures graded { (m : Meaning) → E.stands_for engine.old m
        → values ≡ slice_index (sizes m.network) asked.now.target.variable
        → R.has_grade result (E.grade_of m + (max_values - 1)) }
{
    let target = asked.target();
    let mut others = R::absent();
    for value in 0..values {
        if value != target.value {
            let belief = engine.belief(at, &with_value(asked, value));
            others = R::plus(&others, &belief);
        }
    }
    others
}

/// The condition of a question, and a value of its variable.
fn with_value(asked: &Question, value: u32) -> Event
    ensures { result ≡ pairs_with asked.now value }
{
    let pair = Pair {
        variable: asked.target().variable,
        value,
    };
    let Some(event) = asked.condition().with(pair) else {
        unreachable!()
    };
    event
}
