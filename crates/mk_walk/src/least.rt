//! The least gain of a user.

ghost use Rattle.std.specs.Prelude.{◌≡◌, List, IfOk, Option, Some, option_map};
ghost use Rattle.mk_walk.specs.Below.{holds, Entry, least_gain, lesser};
ghost use Rattle.mk_walk.specs.Walked.{IsHistoryOf, capped, counted_gain};

use crate::states::all_states;
use crate::weight::{WalkTrade, holds, state_gain};
use mk_net::{Network, NoMemory, Pair};
use std::alloc::Global;

/// The least gain of a user over the states that have the known pairs and the event, or the greatest u128 where it is
/// more. None where there is no such state.
pub fn least_gain(
    alloc: Global,
    network: &Network,
    trades: &[WalkTrade],
    user: u32,
    known: &[Pair],
    event: &[Pair],
) -> Result<Option<u128>, NoMemory>
    ensures { IfOk result (λ found. (H : List Entry) → IsHistoryOf H trades.now known.now → found ≡ option_map capped (least_gain network.now H user (holds event.now))) }
{
    let states = all_states(alloc, network)?;
    let mut least: Option<u128> = None;
    for state in &states {
        least = lesser_of(least, counted_gain(trades, user, known, event, state));
    }
    Ok(least)
}

// The gain in a state that counts.
fn counted_gain(
    trades: &[WalkTrade],
    user: u32,
    known: &[Pair],
    event: &[Pair],
    state: &[u32],
) -> Option<u128>
    ensures { result ≡ option_map capped (counted_gain trades.now user known.now event.now state.now) }
{
    if holds(known, state) && holds(event, state) {
        Some(state_gain(trades, user, state))
    } else {
        None
    }
}

fn lesser_of(first: Option<u128>, second: Option<u128>) -> Option<u128>
    ensures { result ≡ lesser first second }
{
    match first {
        None => second,
        Some(a) => match second {
            None => first,
            Some(b) => Some(a.min(b)),
        },
    }
}
