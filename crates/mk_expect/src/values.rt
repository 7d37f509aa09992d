//! What a trade adds, by the values of its variable.
ghost use Rattle.std.specs.Prelude.{◌≡◌, ℕ, ◌+◌, ◌*◌, ◌^◌, ◌<◌, ◌≤◌, List, length};
ghost use Rattle.mk_expect.specs.Below.{Variable, trade_ratio, holds, always, Entry, total};
ghost use Rattle.mk_expect.specs.Below.{GivenTree, Meaning, units_of};
ghost use Rattle.mk_expect.specs.Expectation.{AreBits};
ghost use Rattle.mk_expect.specs.inner.Parts.{unit_bits, event_at, value_gained, value_owed};
ghost use Rattle.mk_expect.specs.inner.Parts.{values_gained, values_owed};
ghost use Rattle.mk_expect.specs.inner.Shares.{IsShare, HasWhole, CanShare, CanTallyAt};
ghost use Rattle.mk_expect.specs.inner.Tallies.{IsTally, IsWithin, IsThin, IsBetween, AreFactors};

use crate::bits::bits_of;
use crate::tally::{Tally, no_tally, sum_of};
use mk_enclose::Enclosure;
use mk_engine::Engine;
use mk_net::{Event, Pair, Ratio};
use mk_semiring::{Held, SumProd};
use mk_tree::Tree;

/// The parts of a whole in which a share is counted.
const PARTS_OF_WHOLE: u64 = 1 << 34;

/// The bits of one whole unit, in parts of 2^20.
const UNIT_BITS: u128 = 40 << 20;

/// Bounds on the share of an event in the whole, in parts of 2^34. It leaves what the engine stands
/// for as it was.
fn share_of<E: Engine<SumProd>>(
    engine: &mut E,
    home: u32,
    event: &Event,
    whole: &Enclosure,
) -> (u64, u64)
    requires { CanShare E.stands_for engine.old home event.now whole.now }
    ensures kept { (m : Meaning) → E.stands_for engine.old m → E.stands_for engine.new m }
    ensures share { (network : List Variable) (tree : GivenTree) (H : List Entry)
        → HasWhole E.stands_for engine.old network tree H whole.now
        → IsShare result (total network H (holds event.now)) (total network H always) }
    ensures in_order { result.0 ≤ result.1 }
    ensures narrow { result.1 ≤ result.0 + 2 }
    ensures small { result.1 ≤ 2 ^ 34 }
{
    match engine.belief(home, event) {
        Held::Absent => (0, 0),
        Held::Present(part) => Enclosure::parts(&part, whole, PARTS_OF_WHOLE),
    }
}

/// The tally of a share at so many bits.
fn tally_of(share: (u64, u64), bits: (u64, u64)) -> Tally
    requires { AreFactors share bits }
    ensures tally { (part whole l : ℕ) → IsShare share part whole → IsBetween l bits
        → IsTally result whole (part * l) 0 (part * unit_bits) }
    ensures within { IsWithin result (2 ^ 60) (2 ^ 60) }
    ensures thin { IsThin result 1 }
{
    Tally {
        least_gained: share.0 as u128 * bits.0 as u128,
        most_gained: share.1 as u128 * bits.1 as u128,
        least_owed: share.0 as u128 * UNIT_BITS,
        most_owed: share.1 as u128 * UNIT_BITS,
    }
}

/// The condition of a trade, and its variable at a value.
fn event_at(ratio: &Ratio, value: u32) -> Event
    ensures { result ≡ event_at (trade_ratio ratio.now) value }
{
    let pair = Pair {
        variable: ratio.variable,
        value,
    };
    let Some(event) = ratio.condition.with(pair) else {
        unreachable!()
    };
    event
}

/// Bounds on the bits of the units of a trade at a value, in parts of 2^20.
fn bits_at(ratio: &Ratio, value: u32) -> (u64, u64)
    requires { value < length ratio.now.factors.items }
    ensures covers { (bits : ℕ → ℕ) → AreBits bits
        → IsBetween (bits (units_of (trade_ratio ratio.now) value)) result }
    ensures in_order { result.0 ≤ result.1 }
    ensures narrow { result.1 ≤ result.0 + 1 }
    ensures small { result.1 ≤ 2 ^ 26 }
{
    bits_of(ratio.factors[value as usize])
}

/// The tally of one value of a trade's variable, asked in a clique that holds the trade. It leaves
/// what the engine stands for as it was.
fn value_tally<E: Engine<SumProd>>(
    engine: &mut E,
    home: u32,
    ratio: &Ratio,
    value: u32,
    whole: &Enclosure,
) -> Tally
    requires asked { CanTallyAt E.stands_for engine.old home (trade_ratio ratio.now) whole.now }
    requires value { value < length ratio.now.factors.items }
    ensures kept { (m : Meaning) → E.stands_for engine.old m → E.stands_for engine.new m }
    ensures tally { (network : List Variable) (tree : GivenTree) (H : List Entry)
        → HasWhole E.stands_for engine.old network tree H whole.now
        → (bits : ℕ → ℕ) → AreBits bits → IsTally result (total network H always)
        (value_gained network H bits (trade_ratio ratio.now) value) 0
        (value_owed network H (trade_ratio ratio.now) value) }
    ensures within { IsWithin result (2 ^ 60) (2 ^ 60) }
    ensures thin { IsThin result 1 }
{
    let event = event_at(ratio, value);
    let share = share_of(engine, home, &event, whole);
    tally_of(share, bits_at(ratio, value))
}

/// The tally of the values of a trade's variable, asked in a clique that holds the trade. It leaves
/// what the engine stands for as it was.
pub(crate) fn values_tally<E: Engine<SumProd>>(
    engine: &mut E,
    home: u32,
    ratio: &Ratio,
    whole: &Enclosure,
) -> Tally
    requires { CanTallyAt E.stands_for engine.old home (trade_ratio ratio.now) whole.now }
    ensures kept { (m : Meaning) → E.stands_for engine.old m → E.stands_for engine.new m }
    ensures tally { (network : List Variable) (tree : GivenTree) (H : List Entry)
        → HasWhole E.stands_for engine.old network tree H whole.now
        → (bits : ℕ → ℕ) → AreBits bits → IsTally result (total network H always)
        (values_gained network H bits (trade_ratio ratio.now) (length ratio.now.factors.items)) 0
        (values_owed network H (trade_ratio ratio.now) (length ratio.now.factors.items)) }
    ensures within { IsWithin result (2 ^ 64) (2 ^ 64) }
    ensures thin { IsThin result 16 }
{
    let mut tally = no_tally();
    for value in 0..ratio.factors.len() {
        tally = sum_of(
            &tally,
            &value_tally(engine, home, ratio, value as u32, whole),
        );
    }
    tally
}
