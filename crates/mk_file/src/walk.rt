//! The walk over a document: each key there and of its kind, or the first that is not.

ghost use Rattle.std.specs.Prelude.{◌≡◌, ◌+◌, ◌≤◌, map, MatchResult};
ghost use Rattle.mk_file.specs.Below.{table_view, draft_of_variable};
ghost use Rattle.mk_file.specs.Walk.{variable_in, variables_in, draft_in};
ghost use Rattle.mk_file.specs.inner.Views.{Gives, draft_of};

use crate::fault::FileFault;
use crate::required::{is_set, required, required_list, whole_or};
use mk_names::Key;
use mk_names::limits::{USUAL_TRANSFERS, USUAL_USERS};
use mk_net::{Draft, VariableDraft};
use std::alloc::Global;
use toml::Table;

/// What a document says, once each key is there and of its kind.
#[derive(Debug, Drop)]
pub struct MarketDraft {
    pub points_per_bit: i64,
    pub max_trades: i64,
    pub max_users: i64,
    pub max_transfers: i64,
    pub draft: Draft,
    pub cliques: Vec<Vec<String>>,
    pub links: Vec<i64>,
}

/// The place of a table, counted from 1. There is none for the table number 2^32 and those behind it.
fn place_of(index: usize) -> Result<u32, FileFault>
    ensures { MatchResult result (λ place. place ≡ index + 1) (λ fault. (fault ≡ FileFault.Memory) × (4294967295 ≤ index)) }
{
    match u32::try_from(index) {
        Ok(index) if index < u32::MAX => Ok(index + 1),
        // No place can tell the number: so many tables are more than can be held.
        _ => Err(FileFault::Memory),
    }
}

/// The variable of one table.
fn read_variable(alloc: Global, table: &Table, index: usize) -> Result<VariableDraft, FileFault>
    ensures { Gives draft_of_variable result (variable_in (index + 1) (table_view table.now)) }
{
    let place = place_of(index)?;
    let name = required(alloc, table, Key::Name, place)?;
    let values = required(alloc, table, Key::Values, place)?;
    let parents = required(alloc, table, Key::Parents, place)?;
    let rows = required_list(alloc, table, Key::Rows, place)?;
    Ok(VariableDraft {
        name,
        values,
        parents,
        rows,
    })
}

/// The variables of the tables, whose places are counted from 1.
fn read_variables(alloc: Global, tables: &[&Table]) -> Result<Vec<VariableDraft>, FileFault>
    ensures { Gives (λ v. map draft_of_variable v.items) result
        (variables_in 1 (map (λ table. table_view table.now) tables.now)) }
{
    let mut variables = Vec::new(alloc);
    'tables: for (index, table) in tables.iter().enumerate() {
        variables.push(read_variable(alloc, table, index)?)?;
    }
    Ok(variables)
}

/// What a document says, or the first of its keys that is missing or of another kind.
pub fn read_draft(alloc: Global, document: &Table) -> Result<MarketDraft, FileFault>
    ensures { Gives draft_of result (draft_in (table_view document.now)) }
{
    let points_per_bit = required(alloc, document, Key::PointsPerBit, 0)?;
    let max_trades = required(alloc, document, Key::MaxTrades, 0)?;
    let max_users = whole_or(document, Key::MaxUsers, 0, USUAL_USERS as i64)?;
    let max_transfers = whole_or(document, Key::MaxTransfers, 0, USUAL_TRANSFERS as i64)?;
    let tables = required_list::<&Table>(alloc, document, Key::Variable, 0)?;
    let cliques = required_list(alloc, document, Key::Cliques, 0)?;
    let links = required(alloc, document, Key::Links, 0)?;
    let zeros = is_set(document, Key::Zeros, 0)?;
    let variables = read_variables(alloc, &tables)?;
    Ok(MarketDraft {
        points_per_bit,
        max_trades,
        max_users,
        max_transfers,
        draft: Draft { variables, zeros },
        cliques,
        links,
    })
}
