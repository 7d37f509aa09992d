//! Variables as a market file gives them, before anything of them is checked.

ghost use Rattle.std.specs.Prelude.{◌≡◌};
ghost use Rattle.mk_net.specs.Drafts.{drafts_of, draft_of_variable};
ghost use Rattle.mk_net.specs.Checked.{count_fault, count_at};

use crate::fault::NetFault;
use crate::order::Kind;
use mk_names::Key;
use mk_names::limits::MAX_VARIABLES;

/// A variable: its words as texts, its rows as whole numbers.
#[derive(Debug, Drop)]
pub struct VariableDraft {
    pub name: String,
    pub values: Vec<String>,
    pub parents: Vec<String>,
    pub rows: Vec<Vec<i64>>,
}

/// The variables of a file, in its order.
#[derive(Debug, Drop)]
pub struct Draft {
    pub variables: Vec<VariableDraft>,
    /// Whether a row may give a value a share of nothing.
    pub zeros: bool,
}

impl Draft {
    /// The first number of variables, values or parents that is outside its limits.
    pub fn count_fault(&self) -> Option<NetFault>
        ensures { result ≡ count_fault (drafts_of self.now) }
    {
        let count = self.variables.len();
        if count < 1 || count > MAX_VARIABLES as usize {
            return Some(NetFault::Count {
                key: Key::Variable,
                place: 0,
                n: count as i64,
            });
        }
        self.first_of(Kind::Counts)
    }
}

impl VariableDraft {
    /// The number of values or of parents that is outside its limits, for the variable of this number.
    pub(crate) fn count_fault(&self, place: u32) -> Option<NetFault>
        ensures { result ≡ count_at place (draft_of_variable self.now) }
    {
        let values = self.values.len();
        if values < 2 || values > 16 {
            return Some(NetFault::Count {
                key: Key::Values,
                place,
                n: values as i64,
            });
        }
        let parents = self.parents.len();
        if parents > 8 {
            return Some(NetFault::Count {
                key: Key::Parents,
                place,
                n: parents as i64,
            });
        }
        None
    }
}
