//! What the rows of an added question are refused for, first to last.

ghost use Rattle.std.specs.Prelude.{◌≡◌, ◌<◌, ◌≤◌, ◌==◌, [], ◌∷◌, length, sum, not, All};
ghost use Rattle.std.specs.Prelude.{Some, None, IfSome, find, option_map, position};
ghost use Rattle.mk_admission.specs.Below.{flat_map, max_parents, million, first_of, sizes};
ghost use Rattle.mk_admission.specs.Below.{choices, market_of, refusal_in};
ghost use Rattle.mk_reply.specs.declared.refusal.Refusal.TheVariants.{Sum};
ghost use Rattle.mk_rules.specs.Refusals as rules;
ghost use Rattle.mk_rules.specs.Additions as additions;

use crate::adding::numbers;
use mk_addition::AddText;
use mk_file::MarketFile;
use mk_names::limits::{MAX_SHARE, MILLION};
use mk_net::{Network, Row};
use mk_record::{all_in_range, is_million, refuse_if};
use mk_reply::Refusal;

/// There is to be a row for each list of the parents' values, with a number for each value. Each
/// number is to be from 1 to 999,999, or from 0 to a million where the market has shares of
/// nothing, before those of a row are to make a million.
pub(crate) fn has_rows(file: &MarketFile, add: &AddText) -> Result<(), Refusal>
    ensures { refusal_in result ≡ first_of (additions.row_count file.now.net add.now
        ∷ additions.row_width add.now
        ∷ rules.ranges (rules.least_share (market_of file.now))
        (additions.most_share (market_of file.now)) (additions.shares_of add.now)
        ∷ additions.row_sum add.now ∷ []) }
{
    one_row_each(&file.net, add)?;
    are_wide(add)?;
    rows_in_range(file, add.rows.as_slice())?;
    rows_are_whole(add.rows.as_slice())
}

/// There are to be as many rows as the parents have lists of values.
fn one_row_each(net: &Network, add: &AddText) -> Result<(), Refusal>
    ensures { refusal_in result ≡ additions.row_count net.now add.now }
{
    let given = add.rows.len() as u32;
    let parents = numbers(net, &add.parents);
    let lists = lists(net, parents.as_slice());
    refuse_if(given as u64 != lists, Refusal::RowCount { given })
}

/// How many lists of values some variables have together.
fn lists(net: &Network, variables: &[u32]) -> u64
    requires known { All (λ v. v < length net.now) variables.now }
    requires few { length variables.now ≤ max_parents }
    ensures { result ≡ choices (sizes net.now) variables.now }
{
    // The call says that this is a network.
    let _ = net.variables();
    let mut lists = 1;
    for variable in variables {
        lists *= net.values(*variable) as u64;
    }
    lists
}

/// A row is to have as many numbers as there are values.
fn are_wide(add: &AddText) -> Result<(), Refusal>
    ensures { refusal_in result ≡ additions.row_width add.now }
{
    let rows = add.rows.as_slice();
    match first_of_width(rows, add.values.len()) {
        Some(place) => Err(Refusal::RowWidth {
            row: place as u32 + 1,
            given: rows[place].numbers().len() as u32,
        }),
        None => Ok(()),
    }
}

/// The place of the first row that has another number of numbers.
fn first_of_width(rows: &[Row], width: usize) -> Option<usize>
    ensures first { result ≡ position (λ row. not (length row == width)) rows.now }
    ensures within { IfSome result (λ place. place < length rows.now) }
{
    rows.iter().position(|row| row.numbers().len() != width)
}

/// Each number of each row is to be a share.
fn rows_in_range(file: &MarketFile, rows: &[Row]) -> Result<(), Refusal>
    ensures { refusal_in result ≡ rules.ranges (rules.least_share (market_of file.now))
        (additions.most_share (market_of file.now)) (flat_map (λ row. row) rows.now) }
{
    let (least, most) = share_range(file);
    for row in rows {
        all_in_range(row.numbers(), least, most)?;
    }
    Ok(())
}

/// The least and the most that a share of a row may be.
fn share_range(file: &MarketFile) -> (u32, u32)
    ensures least { result.0 ≡ rules.least_share (market_of file.now) }
    ensures most { result.1 ≡ additions.most_share (market_of file.now) }
{
    if file.zeros {
        (0, MILLION)
    } else {
        (1, MAX_SHARE)
    }
}

/// The numbers of each row are to make a million.
fn rows_are_whole(rows: &[Row]) -> Result<(), Refusal>
    requires { All (All (λ n. n ≤ million)) rows.now }
    ensures { refusal_in result ≡ option_map (λ row. Sum (sum row))
        (find (λ row. not (sum row == million)) rows.now) }
{
    for row in rows {
        is_million(row.numbers())?;
    }
    Ok(())
}
