//! All states of a network.

ghost use Rattle.std.specs.Prelude.{◌≡◌, ℕ, List, ◌∷◌, ◌++◌, map, flat_map, IfOk};
ghost use Rattle.mk_walk.specs.Below.{sizes, states, numbers_below, all_states};
ghost use Rattle.mk_walk.specs.Lists.{lists};

use crate::weight::can_come;
use mk_net::{Network, NoMemory};
use std::alloc::Global;

/// Every state of a network: each list of values that can come, the last variable's value changing fastest.
pub fn all_states(alloc: Global, network: &Network) -> Result<Vec<Vec<u32>>, NoMemory>
    ensures { IfOk result (λ found. lists found.items ≡ all_states network.now) }
{
    let mut states = Vec::new(alloc);
    for values in all_values(alloc, network)? {
        if can_come(network, &values) && states.push(values).is_err() {
            return Err(NoMemory);
        }
    }
    Ok(states)
}

// Every list that gives each variable one of its values.
fn all_values(alloc: Global, network: &Network) -> Result<Vec<Vec<u32>>, NoMemory>
    ensures { IfOk result (λ found. lists found.items ≡ states (sizes network.now)) }
{
    let mut states = Vec::new(alloc);
    if states.push(Vec::new(alloc)).is_err() {
        return Err(NoMemory);
    }
    let variables = network.variables();
    for done in 0..variables {
        states = with_variable(alloc, network.values(variables - 1 - done), &states)?;
    }
    Ok(states)
}

// Each value of a variable before each of these states.
fn with_variable(alloc: Global, values: u32, states: &[Vec<u32>]) -> Result<Vec<Vec<u32>>, NoMemory>
    ensures { IfOk result (λ all. lists all.items ≡ flat_map (λ v. map (λ s. v ∷ s) (lists states.now)) (numbers_below values)) }
{
    let mut all = Vec::new(alloc);
    for value in 0..values {
        add_value(alloc, value, states, &mut all)?;
    }
    Ok(all)
}

// This value before each of these states.
fn add_value(
    alloc: Global,
    value: u32,
    states: &[Vec<u32>],
    all: &mut Vec<Vec<u32>>,
) -> Result<(), NoMemory>
    ensures { IfOk result (λ _. lists all.new.items ≡ lists all.old.items ++ map (λ s. value ∷ s) (lists states.now)) }
{
    for state in states {
        let mut longer = Vec::new(alloc);
        if longer.push(value).is_err() || longer.extend_from_slice(state).is_err() {
            return Err(NoMemory);
        }
        if all.push(longer).is_err() {
            return Err(NoMemory);
        }
    }
    Ok(())
}
