//! What a trade adds.
ghost use Rattle.std.specs.Prelude.{◌≡◌, ℕ, ◌+◌, ◌*◌, ◌^◌, ◌<◌, ◌≤◌, List, length};
ghost use Rattle.mk_expect.specs.Below.{Variable, trade_ratio, always, Entry, total, Meaning};
ghost use Rattle.mk_expect.specs.Expectation.{AreBits};
ghost use Rattle.mk_expect.specs.inner.Parts.{values_gained, values_owed};
ghost use Rattle.mk_expect.specs.inner.Shares.{HasWhole, CanTally};
ghost use Rattle.mk_expect.specs.inner.Tallies.{IsTally, IsWithin, IsThin, IsNarrow};

use crate::tally::Tally;
use crate::values::values_tally;
use mk_enclose::Enclosure;
use mk_engine::Engine;
use mk_net::Ratio;
use mk_semiring::SumProd;
use mk_tree::Tree;

/// One part of 2^20 of a bit, which the bits of a trade may be above their whole parts.
const ROUNDING: u128 = 1 << 34;

/// The tally of a trade: of the values of its variable, and of the parts of bits that are not
/// whole. It leaves what the engine stands for as it was.
pub(crate) fn trade_tally<E: Engine<SumProd>>(
    engine: &mut E,
    tree: &Tree,
    ratio: &Ratio,
    whole: &Enclosure,
) -> Tally
    requires { CanTally E.stands_for engine.old tree.now (trade_ratio ratio.now) whole.now }
    ensures kept { (m : Meaning) → E.stands_for engine.old m → E.stands_for engine.new m }
    ensures tally { (network : List Variable) (H : List Entry)
        → HasWhole E.stands_for engine.old network tree.now H whole.now
        → (bits : ℕ → ℕ) → AreBits bits → IsTally result (total network H always)
        (values_gained network H bits (trade_ratio ratio.now) (length ratio.now.factors.items))
        (total network H always)
        (values_owed network H (trade_ratio ratio.now) (length ratio.now.factors.items)) }
    ensures within { IsWithin result (2 ^ 65) (2 ^ 65) }
    ensures narrow { IsNarrow result (2 ^ 36) }
{
    let Some(home) = tree.home(&ratio.event()) else {
        unreachable!()
    };
    let tally = values_tally(engine, home, ratio, whole);
    Tally {
        least_gained: tally.least_gained,
        most_gained: tally.most_gained + ROUNDING,
        least_owed: tally.least_owed,
        most_owed: tally.most_owed,
    }
}
