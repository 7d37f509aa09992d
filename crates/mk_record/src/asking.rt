//! Questions in words, and what they are in the numbers of a network.

ghost use Rattle.std.specs.Prelude.{◌≡◌, ◌≤◌, [], ◌∷◌, ◌++◌, length, if◌then◌else◌, is_none, Some, None, IfOk, IfSome};
ghost use Rattle.mk_record.specs.Below.{max_condition, speaks_of, fault_if, or_else, pair_named};
ghost use Rattle.mk_record.specs.Below.{IsPairOf, IsQuestionOf, IsSpreadOf, spread_in, pairs_of};
ghost use Rattle.mk_record.specs.Below.{names_in, question_named, spread_named, no_variable, twice};
ghost use Rattle.mk_rules.specs.Refusals as rules;
ghost use Rattle.mk_reply.specs.declared.refusal.Refusal.TheVariants.{Unknown};
ghost use Rattle.mk_record.specs.Refused.{refusal_in};
ghost use Rattle.mk_record.specs.inner.Gathered.{IsGathered};

use mk_names::Name;
use mk_net::{Event, Network, Pair, PairText, Question, QuestionText};
use mk_quote::SpreadQuestion;
use mk_reply::Refusal;

/// The numbers of a pair. It is refused where the network does not know the pair.
pub fn known(net: &Network, words: &PairText) -> Result<Pair, Refusal>
    ensures refusal { refusal_in result ≡ rules.unknown net.now (words.now ∷ []) }
    ensures named { IfOk result (λ pair. pair_named net.now words.now ≡ Some pair) }
    ensures pair { IfOk result (λ pair. IsPairOf net.now pair) }
{
    match net.find(words) {
        Some(pair) => Ok(pair),
        None => Err(unknown(words)),
    }
}

/// The refusal of a pair that the network does not know. It is a call of its own, since a refusal has 160 bytes, which every pair
/// would else clear and copy.
#[inline(never)]
fn unknown(words: &PairText) -> Refusal
    ensures { result ≡ Unknown words.now }
{
    Refusal::Unknown { pair: *words }
}

/// The question that the words ask without a condition. None where the network does not know the target.
pub(crate) fn ask_plain(net: &Network, question: &QuestionText) -> Option<Question>
    requires { question.now.condition.items ≡ [] }
    ensures known { IfSome result (λ asked. rules.unknown net.now (pairs_of question.now) ≡ None) }
    ensures named { IfSome result (λ asked. question_named net.now question.now ≡ Some asked) }
    ensures once { IfSome result (λ asked. twice (names_in (pairs_of question.now)) ≡ None) }
{
    let target = net.find(&question.target)?;
    Question::make(target, Event::empty())
}

/// The pairs of a condition before the first whose variable occurs earlier in it, and that variable.
#[derive(Debug, Drop)]
struct Gathered {
    condition: Event,
    repeated: Option<Name>,
}

impl Gathered {
    /// Takes the next pair, where no variable was repeated yet.
    fn take(&mut self, pair: Pair, variable: Name)
        requires { length self.old.condition ≤ max_condition }
        ensures repeated { self.new.repeated ≡ or_else self.old.repeated (fault_if (speaks_of self.old.condition pair.variable) variable) }
        ensures condition { self.new.condition ≡ (if is_none self.new.repeated then self.old.condition ++ pair ∷ [] else self.old.condition) }
    {
        if self.repeated.is_none() {
            match self.condition.with(pair) {
                Some(longer) => self.condition = longer,
                None => self.repeated = Some(variable),
            }
        }
    }
}

/// Looks up each pair of a condition, and gathers them. It is refused for the first that the network does not know.
fn gather(net: &Network, pairs: &[PairText]) -> Result<Gathered, Refusal>
    requires { length pairs.now ≤ max_condition }
    ensures refusal { refusal_in result ≡ rules.unknown net.now pairs.now }
    ensures gathered { IfOk result (λ found. IsGathered net.now pairs.now found.condition found.repeated) }
{
    let mut found = Gathered {
        condition: Event::empty(),
        repeated: None,
    };
    for words in pairs {
        let pair = known(net, words)?;
        found.take(pair, words.variable);
    }
    Ok(found)
}

/// The question that the words ask, in the numbers of the network. It is refused for the first pair that the network does
/// not know, the target first, and else for the first variable that occurs a second time.
pub fn ask(net: &Network, question: &QuestionText) -> Result<Question, Refusal>
    ensures refusal { refusal_in result ≡ or_else (rules.unknown net.now (pairs_of question.now)) (twice (names_in (pairs_of question.now))) }
    ensures named { IfOk result (λ asked. question_named net.now question.now ≡ Some asked) }
    ensures in_range { IfOk result (λ asked. IsQuestionOf net.now asked) }
{
    let target = known(net, &question.target)?;
    let found = gather(net, question.condition.as_slice())?;
    let Some(asked) = Question::make(target, found.condition) else {
        return Err(Refusal::Twice {
            variable: question.target.variable,
        });
    };
    match found.repeated {
        Some(variable) => Err(Refusal::Twice { variable }),
        None => Ok(asked),
    }
}

/// The question about every value of a variable that the words ask, in the numbers of the network. It is refused where the
/// network does not know the variable, then for the first pair of the condition that it does not know, and else for the
/// first variable that occurs a second time.
pub fn ask_spread(
    net: &Network,
    variable: &Name,
    condition: &[PairText],
) -> Result<SpreadQuestion, Refusal>
    requires { length condition.now ≤ max_condition }
    ensures refusal { refusal_in result
        ≡ or_else (no_variable net.now variable.now) (or_else (rules.unknown net.now condition.now) (twice (variable.now ∷ names_in condition.now))) }
    ensures named { IfOk result (λ asked. spread_named net.now variable.now condition.now ≡ Some (spread_in asked)) }
    ensures in_range { IfOk result (λ asked. IsSpreadOf net.now (spread_in asked)) }
{
    let Some(number) = net.find_variable(variable) else {
        return Err(Refusal::NoVariable {
            variable: *variable,
        });
    };
    let found = gather(net, condition)?;
    let Some(asked) = SpreadQuestion::make(number, found.condition) else {
        return Err(Refusal::Twice {
            variable: *variable,
        });
    };
    match found.repeated {
        Some(variable) => Err(Refusal::Twice { variable }),
        None => Ok(asked),
    }
}
