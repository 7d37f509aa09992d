//! Making the ratio of a trade, and the event that it speaks of.

ghost use Rattle.std.specs.Prelude.{◌≡◌, ◌<◌, ◌≤◌, ◌==◌, if◌then◌else◌};
ghost use Rattle.mk_net.specs.Asked.{IsUnits, ratio_pairs, question_ratio};
ghost use Rattle.mk_net.specs.Bounds.{max_values};
ghost use Rattle.mk_net.specs.Events.{IsEvent};
ghost use Rattle.mk_net.specs.Trades.{trade_ratio};

use crate::event::Event;
use crate::question::Question;
use crate::ratio::Ratio;
use crate::words::Pair;
use arrayvec::ArrayVec;

impl Ratio {
    /// The ratio of an edit: `hit` units where the question's target holds, and `miss` where its variable has another of
    /// its `values`.
    #[tactic(auto, using(crate::proofs::UnitsOf::factors_more, crate::proofs::UnitsOf::factors_length, crate::proofs::UnitsOf::factors_are_units))]
    pub fn of_question(question: &Question, values: u32, hit: u64, miss: u64) -> Ratio
        requires two_values { 2 ≤ values }
        requires few_values { values ≤ max_values }
        requires target { question.now.target.value < values }
        requires hit { IsUnits hit }
        requires miss { IsUnits miss }
        ensures { trade_ratio result ≡ question_ratio question.now values hit miss }
    {
        let target = question.target();
        let condition = question.condition();
        let mut factors = ArrayVec::new();
        for value in 0..values {
            factors.push(units_at(value, target.value, hit, miss));
        }
        Ratio {
            variable: target.variable,
            condition,
            factors,
        }
    }

    /// The condition's pairs, and the variable with its first value: an engine that can answer this event can take the
    /// ratio.
    pub fn event(&self) -> Event
        ensures pairs { result ≡ ratio_pairs (trade_ratio self.now) }
        ensures event { IsEvent (ratio_pairs (trade_ratio self.now)) }
    {
        let first = Pair {
            variable: self.variable,
            value: 0,
        };
        self.condition.with(first).unwrap_or(self.condition)
    }
}

/// The units at the place of a value: `hit` at the target's, and `miss` at each other.
fn units_at(value: u32, target: u32, hit: u64, miss: u64) -> u64
    ensures { result ≡ (if value == target then hit else miss) }
{
    if value == target { hit } else { miss }
}
