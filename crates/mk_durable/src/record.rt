//! The change that a record of a store holds.

ghost use Rattle.std.specs.Prelude.{◌≡◌, ◌≢◌, List, ℕ, ◌∷◌, ◌++◌, All, MatchOption};
ghost use Rattle.std.specs.Prelude.{Err, OnOk, OnErr};
ghost use Rattle.mk_exact.specs.Market.{Market as FileMarket};
ghost use Rattle.mk_market.specs.Trading.{IsAt};
ghost use Rattle.mk_durable.specs.Recovery.{IsTakenBack, IsUnfit};
ghost use Rattle.mk_durable.specs.Suiting.{SuitsAll};
ghost use Rattle.mk_market.specs.declared.restoring.RestoreFault.TheVariants.{Unfit};

use mk_command::{Words, read_command};
use mk_engine::Engine;
use mk_market::{Market, RestoreFault};
use mk_reply::{Unread, read_reply};
use mk_semiring::{MinProd, SumProd};
use std::alloc::Global;

/// What stands before the first LF, and what stands behind it.
fn split_at_end_of_line(bytes: &[u8]) -> Option<(&[u8], &[u8])>
    ensures { MatchOption result (All (λ b. b ≢ 10) bytes.now)
        (λ parts. All (λ b. b ≢ 10) parts.0.now
        × (bytes.now ≡ parts.0.now ++ 10 ∷ parts.1.now)) }
{
    for (i, byte) in bytes.iter().enumerate() {
        if *byte == b'\n' {
            return Some((&bytes[..i], &bytes[i + 1..]));
        }
    }
    None
}

/// Takes back the change of a record of a store: its command, with its longer words in `words`, and
/// its reply. After a fault the market is as before.
pub fn take_back<P: Engine<SumProd>, A: Engine<MinProd>>(
    alloc: Global,
    market: &mut Market<P, A>,
    bytes: &[u8],
    words: &mut Words,
) -> Result<(), RestoreFault>
    requires prices { SuitsAll P.suits }
    requires assets { SuitsAll A.suits }
    ensures market { (start : FileMarket) → IsAt start market.old → IsAt start market.new }
    ensures taken { OnOk result (IsTakenBack market.old.market market.old.standing bytes.now
        market.new.standing) }
    ensures unfit { result ≡ Err Unfit →
        IsUnfit market.old.market (market.old.standing).history bytes.now }
    ensures same { OnErr result (market.new ≡ market.old) }
{
    let Some((line, text)) = split_at_end_of_line(bytes) else {
        return Err(RestoreFault::Unfit);
    };
    let Ok(command) = read_command(line, words) else {
        return Err(RestoreFault::Unfit);
    };
    match read_reply(alloc, text) {
        Ok(reply) => market.restore(alloc, &command, &reply),
        Err(Unread::Syntax) => Err(RestoreFault::Unfit),
        Err(Unread::Memory) => Err(RestoreFault::Memory),
    }
}
