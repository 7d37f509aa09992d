//! What is found.
ghost use Rattle.std.specs.Prelude.{◌≡◌, ℕ, map, IfOk, take};
ghost use Rattle.mk_net.specs.declared.words.Pair.{Pair};
ghost use Rattle.mk_best.specs.inner.Values.{values_in};

use mk_enclose::Enclosure;
use mk_net::{NoMemory, Pair};
use std::alloc::Global;
use std::marker::Model;

/// What is found of a chance: bounds in units of 10^-10, or that what is given cannot come.
#[derive(Clone, Copy, Debug)]
pub enum Chance {
    Price { low: u64, high: u64 },
    Impossible,
}

/// What is found of the best state: bounds of its share in units of 10^-10, what the share of no
/// state is above, an enclosure of its weight and of the best one, and its values; or that what is
/// given cannot come.
#[derive(Debug, Drop)]
pub enum Best {
    Found {
        low: u64,
        high: u64,
        most: u64,
        value: Enclosure,
        state: StateList,
    },
    Impossible,
}

/// A state: one value for each variable, in their order.
#[derive(Debug, Drop)]
pub struct StateList {
    values: Vec<u32>,
}

impl Model for StateList {
    ghost use Rattle.std.specs.Prelude.{ℕ, List};

    ghost Value = { List ℕ };

    ghost view = { λ s. s.values.items };

    ghost invariant = { λ s. Unit {0} };
}

impl StateList {
    /// The values of pairs, in their order.
    pub(crate) fn of(alloc: Global, pairs: &[Pair]) -> Result<StateList, NoMemory>
        ensures { IfOk result (λ state. state ≡ values_in pairs.now) }
    {
        let mut values = Vec::new(alloc);
        for pair in pairs {
            values.push(pair.value)?;
        }
        Ok(StateList { values })
    }

    /// The values, one for each variable.
    pub fn values(&self) -> &[u32]
        ensures { result.now ≡ self.now }
    {
        self.values.as_slice()
    }
}
