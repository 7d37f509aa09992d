//! Whether a history is small: by the weights of all states, one after the other.

ghost use Rattle.std.specs.Prelude.{◌≡◌, ℕ, ◌<◌, ◌≤◌, ◌↔◌, true, length, slice_index};
ghost use Rattle.std.specs.Prelude.{take, drop};
ghost use Rattle.mk_small.specs.Below.{sizes, trade_ratio, IsState, ratio_at, IsProper, IsSmall};
ghost use Rattle.mk_small.specs.Below.{weight, capped, change_of};
ghost use Rattle.mk_small.specs.Walks.{times, behind};

use mk_history::Entry;
use mk_net::{Network, Ratio};
use mk_record::Journal;
use mk_walk::{WalkTrade, state_weight, units_in};

/// What the weights of a small history are less than, together.
const SMALL: u128 = 1 << 63;

/// The most variables that a small history can have.
const MOST_VARIABLES: u32 = 3;

/// Whether the weights of all states together, possible or not, are below `2^63`. Four variables
/// weigh more than that from the start, so at most 4,096 states are walked.
pub fn is_small(net: &Network, history: &Journal) -> bool
    requires proper { IsProper net.now history.now.history }
    ensures { (result ≡ true) ↔ IsSmall net.now history.now.history }
{
    net.variables() <= MOST_VARIABLES && total_behind(net, history, [0; 3], 0) < SMALL
}

/// The weights of the states that begin with the first `done` of these values, together, or the
/// greatest u128 where they are more.
fn total_behind(net: &Network, history: &Journal, front: [u32; 3], done: u32) -> u128
    requires few { length net.now ≤ 3 }
    requires done { done ≤ length net.now }
    requires front { (k : ℕ) → k < done → slice_index front k < slice_index (sizes net.now) k }
    ensures { result ≡ capped (behind (weight net.now history.now.history)
        (drop done (sizes net.now)) (take done front)) }
{
    if done >= net.variables() {
        return weight_of(net, history, &front[..done as usize]);
    }
    let mut sum: u128 = 0;
    for value in 0..net.values(done) {
        let mut longer = front;
        longer[done as usize] = value;
        sum = sum.saturating_add(total_behind(net, history, longer, done + 1));
    }
    sum
}

/// The weight of a state, or the greatest u128 where it is more.
fn weight_of(net: &Network, history: &Journal, state: &[u32]) -> u128
    requires { IsState (sizes net.now) state.now }
    ensures { result ≡ capped (weight net.now history.now.history state.now) }
{
    let none: [WalkTrade; 0] = [];
    let mut weight = state_weight(net, &none, state);
    for number in 0..history.length() {
        let entry = history.entry(number);
        weight = weight.saturating_mul(times(&entry, state) as u128);
    }
    weight
}

/// By how much a change multiplies the weight of a state.
fn times(entry: &Entry<'_>, state: &[u32]) -> u64
    ensures { result ≡ times (change_of entry.now) state.now }
{
    match entry {
        Entry::Trade { ratio, .. } => units_in(ratio, state),
        _ => 1,
    }
}
