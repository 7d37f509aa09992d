//! Words that some line could have.

ghost use Rattle.std.specs.Prelude.{◌≡◌, ◌<◌, ◌≤◌, ◌↔◌, true, length, All};
ghost use Rattle.mk_net.specs.Bounds.{max_values};
ghost use Rattle.mk_names.specs.Name.{IsName};
ghost use Rattle.mk_text.specs.Numbers.{IsShort};
ghost use Rattle.mk_addition.specs.Adds.{AreBetween, IsAddText};

use mk_addition::AddText;
use mk_names::Name;
use mk_net::Row;

/// The least number with more than nine digits.
const LONG: u32 = 1_000_000_000;

/// Whether a line could have the words of an added question.
pub fn has_text(add: &AddText) -> bool
    ensures { (result ≡ true) ↔ IsAddText add.now }
{
    let _ = add.variable.bytes();
    read_names(add.values.as_slice());
    read_names(add.parents.as_slice());
    read_names(add.clique.as_slice());
    add.values.len() >= 2
        && add.clique.len() >= 1
        && add.rows.len() >= 1
        && add.link < LONG
        && are_rows(add.rows.as_slice())
}

/// Each name is one, whatever it was made of.
fn read_names(names: &[Name])
    ensures { All IsName names.now }
{
    for name in names {
        let _ = name.bytes();
    }
}

/// Whether each of some rows has numbers, all of them short.
fn are_rows(rows: &[Row]) -> bool
    ensures { (result ≡ true) ↔ All (AreBetween 1 max_values IsShort) rows.now }
{
    for row in rows {
        if !is_row(row) {
            return false;
        }
    }
    true
}

fn is_row(row: &Row) -> bool
    ensures { (result ≡ true) ↔ AreBetween 1 max_values IsShort row.now }
{
    let numbers = row.numbers();
    !numbers.is_empty() && are_short(numbers)
}

fn are_short(numbers: &[u32]) -> bool
    ensures { (result ≡ true) ↔ All IsShort numbers.now }
{
    for number in numbers {
        if *number >= LONG {
            return false;
        }
    }
    true
}
