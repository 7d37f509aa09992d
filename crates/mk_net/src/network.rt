//! The network of a market's variables.

use crate::addition::Addition;
use crate::draft::Draft;
use crate::fault::NetFault;
use crate::words::{NoMemory, Pair, PairText};
use indexmap::{IndexMap, IndexSet};
use mk_names::Name;
use std::alloc::{AllocError, Global};
use std::marker::Model;

mod build;
mod grow;

/// A variable as it is kept, beside its name.
#[derive(Drop)]
pub struct StoredVariable {
    values: IndexSet<Name>,
    parents: Vec<u32>,
    rows: Vec<Vec<u32>>,
}

/// A copy has the same values, parents and rows.
impl Clone for StoredVariable {
    ghost use Rattle.std.specs.Prelude.{◌≡◌, []};
    ghost use Rattle.mk_net.specs.Stored.{variable_of};

    ghost is_clone = { λ v w. variable_of ([], w) ≡ variable_of ([], v) };

    fn clone(&self) -> Result<StoredVariable, AllocError> {
        let values = self.values.clone()?;
        let parents = self.parents.clone()?;
        let rows = self.rows.clone()?;
        Ok(StoredVariable {
            values,
            parents,
            rows,
        })
    }
}

/// A list of variables, each with its values, its parents among the earlier variables, and a row of shares for each
/// list of the parents' values, in parts per million.
#[derive(Drop)]
pub struct Network {
    variables: IndexMap<Name, StoredVariable>,
    /// The variables that have a share of nothing in some row.
    zeros: Vec<u32>,
}

impl Model for Network {
    ghost use Rattle.std.specs.Prelude.{List};
    ghost use Rattle.mk_net.specs.Network.{Variable};
    ghost use Rattle.mk_net.specs.Stored.{variables_of, IsKept};

    ghost Value = { List Variable };

    ghost view = { λ n. variables_of n.variables.entries };

    ghost invariant = { λ n. IsKept (variables_of n.variables.entries) n.zeros.items };
}

impl Network {
    ghost use Rattle.std.specs.Prelude.{◌≡◌, ◌≢◌, ◌<◌, ◌++◌, ◌∷◌, [], length, position, None, Some};
    ghost use Rattle.std.specs.Prelude.{false, All, IfOk, IfErr, IfSome, slice_index, slice_index_or, ◌≤◌};
    ghost use Rattle.mk_net.specs.Network.{IsNetwork, sizes};
    ghost use Rattle.mk_net.specs.Named.{variable_at, pair_named};
    ghost use Rattle.mk_names.specs.Texts.{same_text};
    ghost use Rattle.mk_net.specs.Drafts.{drafts_of};
    ghost use Rattle.mk_net.specs.Zeros.{with_zeros, HasNoZeros};
    ghost use Rattle.mk_net.specs.Additions.{variable_of_addition, CanExtend};
    ghost use Rattle.mk_net.specs.Checked.{checked_network, first_fault};

    /// The network of a draft, or the draft's first fault.
    pub fn check(alloc: Global, draft: &Draft) -> Result<Network, NetFault>
        ensures network { IfOk result (λ network. network ≡ checked_network (drafts_of draft.now)) }
        ensures faultless { IfOk result (λ network. first_fault draft.now.zeros (drafts_of draft.now) ≡ None) }
        ensures no_zeros { IfOk result (λ network. draft.now.zeros ≡ false → HasNoZeros network) }
        ensures fault { IfErr result (λ fault. fault ≢ NetFault.Memory → first_fault draft.now.zeros (drafts_of draft.now) ≡ Some fault) }
    {
        // No `u32` numbers the last of 2^32 rows: so many are more than can be held.
        if !draft.is_numbered() {
            return Err(NetFault::Memory);
        }
        match draft.first_fault() {
            Some(fault) => Err(fault),
            None => build::network(alloc, draft),
        }
    }

    /// The network with one more variable, put last. It fails where memory is wanting.
    pub fn extended(&self, alloc: Global, addition: &Addition) -> Result<Network, NoMemory>
        requires { CanExtend self.now addition.now }
        ensures longer { IfOk result (λ network. network ≡ self.now
            ++ variable_of_addition addition.now ∷ []) }
        ensures network { IfOk result (λ network. IsNetwork network) }
        ensures no_zeros { IfOk result (λ network. HasNoZeros self.now
            → All (All (λ share. 1 ≤ share)) addition.now.rows.items → HasNoZeros network) }
    {
        let added = grow::stored(alloc, addition)?;
        let mut variables = self.variables.clone()?;
        // The call says that this is a name.
        let _ = addition.variable.bytes();
        variables.insert(addition.variable, added)?;
        let zeros = build::with_zeros(alloc, &variables)?;
        Ok(Network { variables, zeros })
    }

    /// How many variables there are.
    pub fn variables(&self) -> u32
        ensures count { result ≡ length self.now }
        ensures network { IsNetwork self.now }
    {
        self.variables.len() as u32
    }

    /// How many values a variable has.
    pub fn values(&self, variable: u32) -> u32
        requires { variable < length self.now }
        ensures { result ≡ slice_index (sizes self.now) variable }
    {
        self.variables[variable as usize].values.len() as u32
    }

    /// The numbers of a variable's parents.
    pub fn parents(&self, variable: u32) -> &[u32]
        requires { variable < length self.now }
        ensures { result.now ≡ (variable_at self.now variable).parents }
    {
        self.variables[variable as usize].parents.as_slice()
    }

    /// A share of a row, in parts per million. Rows are counted by the parents' values, the last parent's fastest.
    pub fn entry(&self, variable: u32, row: u32, value: u32) -> u32
        requires variable { variable < length self.now }
        requires row { row < length (variable_at self.now variable).rows }
        requires value { value < slice_index (sizes self.now) variable }
        ensures { result ≡ slice_index (slice_index_or (variable_at self.now variable).rows row []) value }
    {
        self.variables[variable as usize].rows[row as usize][value as usize]
    }

    /// The variables that have a share of nothing in some row, in their order.
    pub fn with_zeros(&self) -> &[u32]
        ensures { result.now ≡ with_zeros self.now }
    {
        self.zeros.as_slice()
    }

    /// A variable's name.
    pub fn name(&self, variable: u32) -> Name
        requires { variable < length self.now }
        ensures { result ≡ (variable_at self.now variable).name }
    {
        self.variables.keys().as_slice()[variable as usize]
    }

    /// The name of a variable's value.
    pub fn value_name(&self, variable: u32, value: u32) -> Name
        requires variable { variable < length self.now }
        requires value { value < slice_index (sizes self.now) variable }
        ensures { result ≡ slice_index_or (variable_at self.now variable).values value [] }
    {
        self.variables[variable as usize].values[value as usize]
    }

    /// The number of the variable of a name. None exactly where it is unknown.
    pub fn find_variable(&self, name: &Name) -> Option<u32>
        ensures first { result ≡ position (λ variable. same_text name.now variable.name) self.now }
        ensures within { IfSome result (λ number. number < length self.now) }
    {
        let number = self.variables.get_index_of(name)?;
        Some(number as u32)
    }

    /// The numbers of the variable and the value that two words name. None exactly where either is unknown.
    pub fn find(&self, pair: &PairText) -> Option<Pair>
        ensures { result ≡ pair_named self.now pair.now }
    {
        let (variable, _, stored) = self.variables.get_full(&pair.variable)?;
        let value = stored.values.get_index_of(&pair.value)?;
        Some(Pair {
            variable: variable as u32,
            value: value as u32,
        })
    }
}
