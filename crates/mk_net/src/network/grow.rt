//! The variable that an addition puts behind a network.

ghost use Rattle.std.specs.Prelude.{◌≡◌, ◌≤◌, length, map, All, IfOk};
ghost use Rattle.mk_names.specs.Name.{IsName};
ghost use Rattle.mk_net.specs.Bounds.{max_values, max_parents};
ghost use Rattle.mk_net.specs.Network.{AreDistinct};
ghost use Rattle.mk_net.specs.Stored.{variable_of};
ghost use Rattle.mk_net.specs.Additions.{variable_of_addition};

use super::StoredVariable;
use crate::addition::Addition;
use crate::row::Row;
use crate::words::NoMemory;
use indexmap::IndexSet;
use mk_names::Name;
use std::alloc::Global;

/// The variable of an addition, as it is kept.
pub(super) fn stored(alloc: Global, addition: &Addition) -> Result<StoredVariable, NoMemory>
    requires apart { AreDistinct addition.now.values.items }
    ensures variable { IfOk result (λ stored. variable_of (addition.now.variable, stored)
        ≡ variable_of_addition addition.now) }
    ensures named { IfOk result (λ _. All IsName addition.now.values.items) }
    ensures few_values { IfOk result (λ _. length addition.now.values.items ≤ max_values) }
    ensures few_parents { IfOk result (λ _. length addition.now.parents.items ≤ max_parents) }
{
    let values = names(alloc, addition.values.as_slice())?;
    let parents = addition.parents.as_slice().to_vec(alloc)?;
    let rows = rows(alloc, addition.rows.as_slice())?;
    Ok(StoredVariable {
        values,
        parents,
        rows,
    })
}

/// The names as a set, in their order.
fn names(alloc: Global, names: &[Name]) -> Result<IndexSet<Name>, NoMemory>
    requires apart { AreDistinct names.now }
    ensures names { IfOk result (λ set. set.keys ≡ names.now) }
    ensures named { IfOk result (λ _. All IsName names.now) }
{
    let mut set = IndexSet::new(alloc);
    'names: for name in names {
        // The call says that these are names.
        let _ = name.bytes();
        set.insert(*name)?;
    }
    Ok(set)
}

/// Rows of numbers.
fn rows(alloc: Global, rows: &[Row]) -> Result<Vec<Vec<u32>>, NoMemory>
    ensures rows { IfOk result (λ v. map (λ row. row.items) v.items ≡ rows.now) }
{
    let mut kept = Vec::new(alloc);
    'rows: for row in rows {
        kept.push(row.numbers().to_vec(alloc)?)?;
    }
    Ok(kept)
}
