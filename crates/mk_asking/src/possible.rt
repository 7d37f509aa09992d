//! What a command is refused for by what can come.

ghost use Rattle.std.specs.Prelude.{◌≡◌, ◌<◌, ◌∷◌, [], List, length, slice_index, Some, true, not};
ghost use Rattle.mk_asking.specs.Below.{first_of, Variable, sizes, has, holds, Entry, cannot_come};
ghost use Rattle.mk_asking.specs.Below.{GivenTree, Meaning, weights_of, spread_in, IsOpen};
ghost use Rattle.mk_asking.specs.Below.{CanBeResolved};
ghost use Rattle.mk_rules.specs.Refusals as rules;
ghost use Rattle.mk_asking.specs.Stopped.{IsAskedBy, IsConditionBy, IsDecidedBy, IsRefusedFor, MayStop, CanRefuse, CanRefuseCondition, CanRefuseSpread, CanAskOfPair};

use mk_answers::first_impossible;
use mk_engine::Engine;
use mk_names::Name;
use mk_net::{Event, Network, Pair, PairText, QuestionText};
use mk_quote::SpreadQuestion;
use mk_record::{Request, SpreadRequest};
use mk_reply::{Intervals, Refusal};
use mk_semiring::SumProd;

/// Why a question has no quote.
#[derive(Clone, Copy, Debug)]
pub enum Decided {
    /// Its condition cannot come.
    Impossible,
    /// Its target cannot come where its condition holds.
    Never,
    /// Nothing but its target can come where its condition holds.
    Sure,
}

/// Why a spread has no quote.
#[derive(Clone, Copy, Debug)]
pub enum SpreadDecided {
    /// Its condition cannot come.
    Impossible,
    /// This value alone can come where its condition holds.
    Sure(u32),
}

/// Why a spread is no trade.
#[derive(Debug, Drop)]
pub enum Stopped {
    /// It has no quote.
    Decided(SpreadDecided),
    /// This value has a share, and cannot come where the condition holds.
    ImpossibleShare(u32),
    /// Some value without a share can come where the condition holds.
    MissingShare,
    /// The shares are outside of these intervals.
    Outside(Option<Intervals>),
}

impl Stopped {
    ghost use Rattle.std.specs.Prelude.{◌≡◌};
    ghost use Rattle.mk_asking.specs.Stopped.{is_outside};

    /// Whether the shares are outside of intervals.
    pub fn is_outside(&self) -> bool
        ensures { result ≡ is_outside self.now }
    {
        match self {
            Stopped::Outside(_) => true,
            Stopped::Decided(_) | Stopped::ImpossibleShare(_) | Stopped::MissingShare => false,
        }
    }
}

/// The refusal of a question that has no quote, in its words. It leaves what the engine stands for as it was.
pub fn refuse_decided<P: Engine<SumProd>>(
    prices: &mut P,
    question: &QuestionText,
    request: &Request,
    why: Decided,
) -> Refusal
    requires { CanRefuse P.stands_for prices.old question.now request.now why }
    ensures kept { (m : Meaning) → P.stands_for prices.old m → P.stands_for prices.new m }
    ensures refusal { (network : List Variable) (tree : GivenTree) (H : List Entry) → P.stands_for prices.old (weights_of network tree H)
        → IsOpen network tree H → IsAskedBy network question.now request.now.question
        → IsDecidedBy network H request.now.question why
        → first_of (rules.impossible_together network H question.now.condition.items ∷ rules.decided network H question.now ∷ []) ≡ Some result }
{
    match why {
        Decided::Impossible => {
            let condition = request.question.condition();
            refuse_condition(
                prices,
                request.home,
                &condition,
                question.condition.as_slice(),
            )
        }
        Decided::Never => Refusal::Impossible {
            pair: question.target,
        },
        Decided::Sure => Refusal::Sure {
            pair: question.target,
        },
    }
}

/// The refusal of a condition that cannot come, in its words: its first pair with which no possible
/// state is left. It is asked in a clique that holds the condition, and leaves what the engine
/// stands for as it was.
pub fn refuse_condition<P: Engine<SumProd>>(
    prices: &mut P,
    at: u32,
    condition: &Event,
    words: &[PairText],
) -> Refusal
    requires { CanRefuseCondition P.stands_for prices.old at condition.now words.now }
    ensures kept { (m : Meaning) → P.stands_for prices.old m → P.stands_for prices.new m }
    ensures refusal { (network : List Variable) (tree : GivenTree) (H : List Entry) → P.stands_for prices.old (weights_of network tree H)
        → IsOpen network tree H → IsConditionBy network words.now condition.now → cannot_come network H (holds condition.now) ≡ true
        → rules.impossible_together network H words.now ≡ Some result }
{
    match first_impossible(prices, at, condition) {
        Some(place) => Refusal::Impossible { pair: words[place] },
        None => unreachable!(),
    }
}

/// The refusal of a spread that is no trade, in its words. It leaves what the engine stands for as it was.
pub fn refuse_stopped<P: Engine<SumProd>>(
    prices: &mut P,
    net: &Network,
    variable: &Name,
    condition: &[PairText],
    request: &SpreadRequest,
    why: Stopped,
) -> Refusal
    requires { CanRefuseSpread P.stands_for prices.old net.now variable.now condition.now
        request.now why }
    ensures kept { (m : Meaning) → P.stands_for prices.old m → P.stands_for prices.new m }
    ensures refusal { (tree : GivenTree) (H : List Entry) → P.stands_for prices.old (weights_of net.now tree H) → IsOpen net.now tree H
        → MayStop net.now H (spread_in request.now.question) why
        → IsRefusedFor net.now H variable.now condition.now (spread_in request.now.question) why
        result }
{
    match why {
        Stopped::Decided(why) => match why {
            SpreadDecided::Impossible => {
                refuse_condition(prices, request.home, &request.question.condition, condition)
            }
            SpreadDecided::Sure(value) => Refusal::Sure {
                pair: pair_with(net, variable, &request.question, value),
            },
        },
        Stopped::ImpossibleShare(value) => Refusal::Impossible {
            pair: pair_with(net, variable, &request.question, value),
        },
        Stopped::MissingShare => Refusal::Range { number: 0 },
        Stopped::Outside(intervals) => Refusal::Outside { intervals },
    }
}

/// A variable in words with one of its values.
fn pair_with(net: &Network, variable: &Name, asked: &SpreadQuestion, value: u32) -> PairText
    requires variable { asked.now.variable < length net.now }
    requires value { value < slice_index (sizes net.now) asked.now.variable }
    ensures { result ≡ rules.pair_with net.now variable.now (spread_in asked.now) value }
{
    PairText {
        variable: *variable,
        value: net.value_name(asked.variable, value),
    }
}

/// Whether some possible state has a pair of a variable that is not resolved. Where the network has
/// no shares of nothing one has, and no belief is asked. It is asked in the pair's home, and leaves
/// what the engine stands for as it was.
pub fn can_come<P: Engine<SumProd>>(prices: &mut P, net: &Network, home: u32, pair: Pair) -> bool
    requires { CanAskOfPair P.stands_for prices.old net.now home pair }
    ensures kept { (m : Meaning) → P.stands_for prices.old m → P.stands_for prices.new m }
    ensures found { (tree : GivenTree) (H : List Entry) → P.stands_for prices.old (weights_of net.now tree H) → IsOpen net.now tree H
        → CanBeResolved net.now H pair → result ≡ not (cannot_come net.now H (has pair)) }
{
    if net.with_zeros().is_empty() {
        return true;
    }
    let Some(event) = Event::empty().with(pair) else {
        unreachable!()
    };
    first_impossible(prices, home, &event).is_none()
}
