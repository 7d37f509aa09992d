//! The weight of one state.

ghost use Rattle.std.specs.Prelude.{◌≡◌, ℕ, ◌<◌, ◌≤◌, List, length, slice_index};
ghost use Rattle.mk_walk.specs.Below.{sizes, variable_at, trade_ratio, IsState, product_by};
ghost use Rattle.mk_walk.specs.Below.{numbers_below, value_at, row_number, entry, initial_weight};
ghost use Rattle.mk_walk.specs.Below.{can_come, holds, units_of, ratio_at, Entry, weight, gain};
ghost use Rattle.mk_walk.specs.Walked.{capped, walked_weight, walked_gain};

use mk_names::limits::RATIO_UNIT;
use mk_net::{Network, Pair, Ratio};

/// A trade, as the walk reads it.
#[derive(Drop)]
pub struct WalkTrade {
    pub user: u32,
    pub ratio: Ratio,
}

fn value_of(state: &[u32], variable: u32) -> u32
    ensures { result ≡ value_at state.now variable }
{
    state.get(variable as usize).copied().unwrap_or(0)
}

/// Whether a state has the value of each pair.
pub(crate) fn holds(pairs: &[Pair], state: &[u32]) -> bool
    ensures { result ≡ holds pairs.now state.now }
{
    for pair in pairs {
        if value_of(state, pair.variable) != pair.value {
            return false;
        }
    }
    true
}

/// The units of a ratio in a state.
pub fn units_in(ratio: &Ratio, state: &[u32]) -> u64
    ensures { result ≡ ratio_at (trade_ratio ratio.now) state.now }
{
    if holds(ratio.condition.pairs(), state) {
        units(ratio, value_of(state, ratio.variable))
    } else {
        RATIO_UNIT
    }
}

fn units(ratio: &Ratio, value: u32) -> u64
    ensures { result ≡ units_of (trade_ratio ratio.now) value }
{
    ratio.factors.get(value as usize).copied().unwrap_or(0)
}

fn row_of(network: &Network, variable: u32, state: &[u32]) -> u32
    requires variable { variable < length network.now }
    requires state { IsState (sizes network.now) state.now }
    ensures number { result ≡ row_number (sizes network.now) (variable_at network.now variable).parents state.now }
    ensures within { result < length (variable_at network.now variable).rows }
{
    let _ = network.variables();
    let mut row: u64 = 0;
    for parent in network.parents(variable) {
        row = row * network.values(*parent) as u64 + value_of(state, *parent) as u64;
    }
    row as u32
}

fn share(network: &Network, variable: u32, state: &[u32]) -> u32
    requires variable { variable < length network.now }
    requires state { IsState (sizes network.now) state.now }
    ensures { result ≡ entry network.now variable state.now }
{
    let row = row_of(network, variable, state);
    network.entry(variable, row, value_of(state, variable))
}

/// The initial weight of a state, or the greatest u128 where it is more.
fn initial(network: &Network, state: &[u32]) -> u128
    requires { IsState (sizes network.now) state.now }
    ensures { result ≡ capped (initial_weight network.now state.now) }
{
    let mut weight: u128 = 1;
    for variable in 0..network.variables() {
        weight = weight.saturating_mul(share(network, variable, state) as u128);
    }
    weight
}

/// Whether a state can come: it picks no share of nothing.
pub(crate) fn can_come(network: &Network, state: &[u32]) -> bool
    requires { IsState (sizes network.now) state.now }
    ensures { result ≡ can_come network.now state.now }
{
    initial(network, state) >= 1
}

/// The weight of a state after these trades, or the greatest u128 where it is more.
pub fn state_weight(network: &Network, trades: &[WalkTrade], state: &[u32]) -> u128
    requires { IsState (sizes network.now) state.now }
    ensures { result ≡ capped (walked_weight network.now trades.now state.now) }
{
    let mut weight = initial(network, state);
    for trade in trades {
        weight = weight.saturating_mul(units_in(&trade.ratio, state) as u128);
    }
    weight
}

/// The gain of a user in a state, or the greatest u128 where it is more.
pub fn state_gain(trades: &[WalkTrade], user: u32, state: &[u32]) -> u128
    ensures { result ≡ capped (walked_gain trades.now user state.now) }
{
    let mut gain: u128 = 1;
    for trade in trades {
        if trade.user == user {
            gain = gain.saturating_mul(units_in(&trade.ratio, state) as u128);
        }
    }
    gain
}
