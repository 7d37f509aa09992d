//! The kinds of values that a market file holds, as owned copies: `None` where a value is of another kind.

ghost use Rattle.std.specs.Prelude.{◌≡◌, IfOk, map, option_map};
ghost use Rattle.mk_file.specs.Below.{view};
ghost use Rattle.mk_file.specs.Walk.{list_of};

use std::alloc::{AllocError, Global};
use toml::{Table, Value};

/// A kind of value.
pub trait Kind<'a>: Drop {
    ghost use Rattle.std.specs.Prelude.{Option};
    ghost use Rattle.toml.specs.Data.{Data};

    ghost Seen: { Type 0 };

    ghost seen: { Self → Seen };

    ghost kind: { Data → Option Seen };

    /// The value as one of this kind.
    fn read(alloc: Global, value: &'a Value) -> Result<Option<Self>, AllocError>
        ensures { IfOk result (λ read. option_map seen read ≡ kind (view value.now)) };
}

/// A text.
impl<'a> Kind<'a> for String {
    ghost use Rattle.std.specs.Prelude.{ℕ, List, string_bytes};
    ghost use Rattle.toml.specs.Data.{as_str};

    ghost Seen = { List ℕ };

    ghost seen = { λ s. string_bytes s };

    ghost kind = { as_str };

    fn read(alloc: Global, value: &'a Value) -> Result<Option<String>, AllocError> {
        match value.as_str() {
            Some(text) => Ok(Some(String::from_str(alloc, text)?)),
            None => Ok(None),
        }
    }
}

/// A whole number.
impl<'a> Kind<'a> for i64 {
    ghost use Rattle.std.specs.Prelude.{ℤ};
    ghost use Rattle.toml.specs.Data.{as_integer};

    ghost Seen = { ℤ };

    ghost seen = { λ z. z };

    ghost kind = { as_integer };

    fn read(_alloc: Global, value: &'a Value) -> Result<Option<i64>, AllocError> {
        Ok(value.as_integer())
    }
}

/// A table, which stays where it is.
impl<'a> Kind<'a> for &'a Table {
    ghost use Rattle.toml.specs.Data.{Members, as_table};
    ghost use Rattle.toml.specs.View.{table_view};

    ghost Seen = { Members };

    ghost seen = { λ table. table_view table.now };

    ghost kind = { as_table };

    fn read(_alloc: Global, value: &'a Value) -> Result<Option<&'a Table>, AllocError> {
        Ok(value.as_table())
    }
}

/// A list of texts.
impl<'a> Kind<'a> for Vec<String> {
    ghost use Rattle.std.specs.Prelude.{ℕ, List};
    ghost use Rattle.mk_net.specs.Drafts.{texts_of};
    ghost use Rattle.mk_file.specs.Walk.{texts};

    ghost Seen = { List (List ℕ) };

    ghost seen = { texts_of };

    ghost kind = { texts };

    fn read(alloc: Global, value: &'a Value) -> Result<Option<Vec<String>>, AllocError> {
        read_list(alloc, value)
    }
}

/// A list of whole numbers.
impl<'a> Kind<'a> for Vec<i64> {
    ghost use Rattle.std.specs.Prelude.{ℤ, List};
    ghost use Rattle.mk_file.specs.Walk.{wholes};

    ghost Seen = { List ℤ };

    ghost seen = { λ v. v.items };

    ghost kind = { wholes };

    fn read(alloc: Global, value: &'a Value) -> Result<Option<Vec<i64>>, AllocError> {
        read_list(alloc, value)
    }
}

/// A list of values of a kind.
pub fn read_list<'a, T: Kind<'a>>(
    alloc: Global,
    value: &'a Value,
) -> Result<Option<Vec<T>>, AllocError>
    ensures { IfOk result (λ read. option_map (λ v. map T.seen v.items) read ≡ list_of T.kind (view value.now)) }
{
    let Some(items) = value.as_array() else {
        return Ok(None);
    };
    let mut read = Vec::new(alloc);
    'items: for item in items {
        match T::read(alloc, item)? {
            Some(thing) => read.push(thing)?,
            None => return Ok(None),
        }
    }
    Ok(Some(read))
}
