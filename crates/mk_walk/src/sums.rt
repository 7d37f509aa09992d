//! The total weight of an event.

ghost use Rattle.std.specs.Prelude.{◌≡◌, List, IfOk};
ghost use Rattle.mk_walk.specs.Below.{sizes, IsState, holds, Entry, total};
ghost use Rattle.mk_walk.specs.Walked.{IsHistoryOf, capped, counted_weight};

use crate::states::all_states;
use crate::weight::{WalkTrade, holds, state_weight};
use mk_net::{Network, NoMemory, Pair};
use std::alloc::Global;

/// The weights of the states that have the known pairs and the event, together, or the greatest u128 where they are more.
pub fn total(
    alloc: Global,
    network: &Network,
    trades: &[WalkTrade],
    known: &[Pair],
    event: &[Pair],
) -> Result<u128, NoMemory>
    ensures { IfOk result (λ found. (H : List Entry) → IsHistoryOf H trades.now known.now → found ≡ capped (total network.now H (holds event.now))) }
{
    let states = all_states(alloc, network)?;
    let mut sum: u128 = 0;
    for state in &states {
        sum = sum.saturating_add(counted(network, trades, known, event, state));
    }
    Ok(sum)
}

// The weight of a state that counts, and 0 for another.
fn counted(
    network: &Network,
    trades: &[WalkTrade],
    known: &[Pair],
    event: &[Pair],
    state: &[u32],
) -> u128
    requires { IsState (sizes network.now) state.now }
    ensures { result ≡ capped (counted_weight network.now trades.now known.now event.now state.now) }
{
    if holds(known, state) && holds(event, state) {
        state_weight(network, trades, state)
    } else {
        0
    }
}
