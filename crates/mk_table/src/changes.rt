//! What the cells of a table may become, in place.

ghost use Rattle.std.specs.Prelude.{◌≡◌, length};
ghost use Rattle.mk_passes.specs.Parts.{IsFull};
ghost use Rattle.mk_table.specs.inner.Changes.{Fits, HasMade};

use mk_net::{Network, Pair, Ratio};
use mk_passes::{
    Columns, keep_value, put_cells, times_cells, times_shares, times_supports, times_units,
};
use mk_scope::{Places, Scope};

/// What each cell of a table becomes.
#[derive(Clone, Copy)]
pub(crate) enum Change<'a> {
    /// It times the share that it picks in the rows of a variable.
    Shares {
        net: &'a Network,
        variable: u32,
    },
    /// Absent, where it picks a share of nothing there.
    Supports {
        net: &'a Network,
        variable: u32,
    },
    /// If it is chosen, it times a ratio's units for the value that it gives the ratio's variable.
    Units {
        ratio: &'a Ratio,
        chosen: &'a [u16],
    },
    /// Absent, where it gives the pair's variable another value.
    Kept {
        pair: Pair,
    },
    /// It times the cell of a message that has its values.
    Times {
        places: &'a Places,
        message: Columns<'a>,
    },
    /// The cell of a message that has its values.
    Put {
        places: &'a Places,
        message: Columns<'a>,
    },
}

impl Change<'_> {
    /// Changes the cells of a table over a scope.
    #[inline]
    pub(crate) fn make(self, digits: &mut [u64], exponents: &mut [u32], scope: &Scope)
        requires full { IsFull scope.now digits.old exponents.old }
        requires fits { Fits self scope.now digits.old exponents.old }
        ensures digits { length digits.new ≡ length digits.old }
        ensures exponents { length exponents.new ≡ length exponents.old }
        ensures made { HasMade self.entry scope.now digits.old exponents.old digits.new exponents.new }
    {
        match self {
            Change::Shares { net, variable } => {
                times_shares(digits, exponents, scope, net, variable)
            }
            Change::Supports { net, variable } => {
                times_supports(digits, exponents, scope, net, variable)
            }
            Change::Units { ratio, chosen } => times_units(digits, exponents, scope, ratio, chosen),
            Change::Kept { pair } => keep_value(digits, exponents, scope, pair),
            Change::Times { places, message } => {
                times_cells(digits, exponents, places, message.digits, message.exponents)
            }
            Change::Put { places, message } => {
                put_cells(
                    digits,
                    exponents,
                    places.onto(),
                    message.digits,
                    message.exponents,
                )
            }
        }
    }
}
