//! The network of a draft without a fault.

ghost use Rattle.std.specs.Prelude.{◌≡◌, ◌==◌, ◌≤◌, true, false, None, length, map, string_bytes, All, IfOk, IfErr};
ghost use Rattle.mk_net.specs.Bounds.{max_variables};
ghost use Rattle.mk_net.specs.Below.{list_all, list_any, is_name};
ghost use Rattle.mk_net.specs.Stored.{variable_of, variables_of};
ghost use Rattle.mk_net.specs.Drafts.{drafts_of, draft_of_variable};
ghost use Rattle.mk_net.specs.Checked.{first_fault, checked_variable, checked_network, number_of, has_double, share, is_share};
ghost use Rattle.mk_net.specs.Zeros.{with_zeros, HasNoZeros};
ghost use Rattle.mk_net.specs.inner.Counted.{HasShares};

use super::{Network, StoredVariable};
use crate::draft::{Draft, VariableDraft};
use crate::fault::NetFault;
use crate::rows::share;
use crate::words::NoMemory;
use indexmap::{IndexMap, IndexSet};
use mk_names::Name;
use std::alloc::Global;

/// The network of a draft.
pub(super) fn network(alloc: Global, draft: &Draft) -> Result<Network, NetFault>
    requires { first_fault draft.now.zeros (drafts_of draft.now) ≡ None }
    ensures network { IfOk result (λ network. network ≡ checked_network (drafts_of draft.now)) }
    ensures no_zeros { IfOk result (λ network. draft.now.zeros ≡ false → HasNoZeros network) }
    ensures memory { IfErr result (λ fault. fault ≡ NetFault.Memory) }
{
    let mut variables = IndexMap::new(alloc);
    'variables: for variable in &draft.variables {
        let stored = stored(alloc, draft, variable)?;
        variables.insert(name(&variable.name), stored)?;
    }
    let zeros = with_zeros(alloc, &variables)?;
    Ok(Network { variables, zeros })
}

/// The variables that have a share of nothing, in their order.
pub(super) fn with_zeros(
    alloc: Global,
    variables: &IndexMap<Name, StoredVariable>,
) -> Result<Vec<u32>, NoMemory>
    requires { length variables.now.entries ≤ max_variables }
    ensures zeros { IfOk result (λ v. v.items ≡ with_zeros (variables_of variables.now.entries)) }
{
    let mut zeros = Vec::new(alloc);
    for number in 0..variables.len() {
        if has_zero(&variables[number].rows) {
            zeros.push(number as u32)?;
        }
    }
    Ok(zeros)
}

/// Whether some row has a share of nothing.
fn has_zero(rows: &[Vec<u32>]) -> bool
    ensures { result ≡ list_any (λ row. list_any (λ share. share == 0) row) (map (λ row. row.items) rows.now) }
{
    rows.iter().any(|row| has_nothing(row))
}

/// Whether some share of a row is nothing.
fn has_nothing(row: &[u32]) -> bool
    ensures { result ≡ list_any (λ share. share == 0) row.now }
{
    row.iter().any(|share| *share == 0)
}

/// A variable of the draft, as it is kept.
fn stored(
    alloc: Global,
    draft: &Draft,
    variable: &VariableDraft,
) -> Result<StoredVariable, NetFault>
    requires few { length draft.now.variables.items ≤ max_variables }
    requires names { list_all is_name (map string_bytes variable.now.values.items) ≡ true }
    requires apart { has_double (map string_bytes variable.now.values.items) ≡ false }
    requires shares { HasShares variable.now }
    ensures variable { IfOk result (λ stored. variable_of (string_bytes variable.now.name, stored)
        ≡ checked_variable (drafts_of draft.now) (draft_of_variable variable.now)) }
    ensures memory { IfErr result (λ fault. fault ≡ NetFault.Memory) }
{
    let values = names(alloc, &variable.values)?;
    let parents = numbers(alloc, draft, &variable.parents)?;
    let rows = rows(alloc, &variable.rows)?;
    Ok(StoredVariable {
        values,
        parents,
        rows,
    })
}

/// The names that the texts are.
fn names(alloc: Global, texts: &[String]) -> Result<IndexSet<Name>, NetFault>
    requires names { list_all is_name (map string_bytes texts.now) ≡ true }
    requires apart { has_double (map string_bytes texts.now) ≡ false }
    ensures names { IfOk result (λ names. names.keys ≡ map string_bytes texts.now) }
    ensures memory { IfErr result (λ fault. fault ≡ NetFault.Memory) }
{
    let mut names = IndexSet::new(alloc);
    'texts: for text in texts {
        names.insert(name(text))?;
    }
    Ok(names)
}

/// The numbers of the variables of these names.
fn numbers(alloc: Global, draft: &Draft, names: &[String]) -> Result<Vec<u32>, NetFault>
    requires { length draft.now.variables.items ≤ max_variables }
    ensures numbers { IfOk result (λ v. v.items ≡ map (number_of (drafts_of draft.now)) (map string_bytes names.now)) }
    ensures memory { IfErr result (λ fault. fault ≡ NetFault.Memory) }
{
    let mut numbers = Vec::new(alloc);
    'names: for name in names {
        numbers.push(draft.number_of(name) as u32)?;
    }
    Ok(numbers)
}

/// Rows of shares.
fn rows(alloc: Global, rows: &[Vec<i64>]) -> Result<Vec<Vec<u32>>, NetFault>
    requires { All (λ row. All (λ e. is_share true e ≡ true) row.items) rows.now }
    ensures rows { IfOk result (λ v. map (λ row. row.items) v.items ≡ map (map share) (map (λ row. row.items) rows.now)) }
    ensures memory { IfErr result (λ fault. fault ≡ NetFault.Memory) }
{
    let mut kept = Vec::new(alloc);
    'rows: for row in rows {
        kept.push(shares(alloc, row)?)?;
    }
    Ok(kept)
}

/// A row of shares.
fn shares(alloc: Global, row: &[i64]) -> Result<Vec<u32>, NetFault>
    requires { All (λ e. is_share true e ≡ true) row.now }
    ensures shares { IfOk result (λ v. v.items ≡ map share row.now) }
    ensures memory { IfErr result (λ fault. fault ≡ NetFault.Memory) }
{
    let mut shares = Vec::new(alloc);
    'columns: for entry in row {
        shares.push(share(*entry))?;
    }
    Ok(shares)
}

/// The name that a text is.
fn name(text: &str) -> Name
    requires { is_name text.now ≡ true }
    ensures { result ≡ text.now }
{
    Name::read(text.as_bytes()).unwrap()
}
