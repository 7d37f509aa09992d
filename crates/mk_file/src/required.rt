//! Keys with values of a kind: those that have to be there, and those that may be absent.

ghost use Rattle.std.specs.Prelude.{◌≡◌, Some, None, IfOk, IfErr, OnErr, false, map, option_map};
ghost use Rattle.mk_file.specs.Below.{get_member, as_integer, as_bool, view};
ghost use Rattle.mk_file.specs.Below.{table_view, key_text};
ghost use Rattle.mk_file.specs.Walk.{required, optional, list_of};
ghost use Rattle.mk_file.specs.inner.Views.{Gives};

use crate::fault::FileFault;
use crate::kinds::{Kind, read_list};
use mk_names::Key;
use std::alloc::Global;
use toml::{Table, Value};

/// The value at a key, if it is there.
fn member<'a>(table: &'a Table, key: Key) -> Option<&'a Value>
    ensures { option_map (λ value. view value.now) result ≡ get_member (key_text key) (table_view table.now) }
{
    table.get(key.text())
}

/// The value at a key that has to be there.
fn value_at<'a>(table: &'a Table, key: Key, place: u32) -> Result<&'a Value, FileFault>
    ensures at_key { IfOk result (λ value. get_member (key_text key) (table_view table.now) ≡ Some (view value.now)) }
    ensures missing { OnErr result (get_member (key_text key) (table_view table.now) ≡ None) }
    ensures fault { IfErr result (λ fault. fault ≡ FileFault.Missing key place) }
{
    match member(table, key) {
        Some(value) => Ok(value),
        None => Err(FileFault::Missing { key, place }),
    }
}

/// The value of a kind at a key.
pub fn required<'a, T: Kind<'a>>(
    alloc: Global,
    table: &'a Table,
    key: Key,
    place: u32,
) -> Result<T, FileFault>
    ensures { Gives T.seen result (required key place T.kind (table_view table.now)) }
{
    let read = T::read(alloc, value_at(table, key, place)?)?;
    read.ok_or(FileFault::WrongType { key, place })
}

/// The list of values of a kind at a key.
pub fn required_list<'a, T: Kind<'a>>(
    alloc: Global,
    table: &'a Table,
    key: Key,
    place: u32,
) -> Result<Vec<T>, FileFault>
    ensures { Gives (λ v. map T.seen v.items) result
        (required key place (list_of T.kind) (table_view table.now)) }
{
    let read = read_list(alloc, value_at(table, key, place)?)?;
    read.ok_or(FileFault::WrongType { key, place })
}

/// The whole number at a key, or another number where the key is absent.
pub fn whole_or(table: &Table, key: Key, place: u32, absent: i64) -> Result<i64, FileFault>
    ensures { Gives (λ z. z) result
        (optional absent key place as_integer (table_view table.now)) }
{
    match member(table, key) {
        Some(value) => value
            .as_integer()
            .ok_or(FileFault::WrongType { key, place }),
        None => Ok(absent),
    }
}

/// Whether the truth value at a key is true. It is false where the key is absent.
pub fn is_set(table: &Table, key: Key, place: u32) -> Result<bool, FileFault>
    ensures { Gives (λ b. b) result (optional false key place as_bool (table_view table.now)) }
{
    match member(table, key) {
        Some(value) => value.as_bool().ok_or(FileFault::WrongType { key, place }),
        None => Ok(false),
    }
}
