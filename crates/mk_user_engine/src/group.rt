//! A group of named variables.

ghost use Rattle.std.specs.Prelude.{◌≡◌, ℕ, ◌+◌, ◌*◌, ◌≤◌, ◌||◌, ◌==◌, true, false, List, ◌++◌};
ghost use Rattle.std.specs.Prelude.{All};
ghost use Rattle.std.specs.Prelude.{length};
ghost use Rattle.mk_user_engine.specs.declared.names.Named.{Named};
ghost use Rattle.mk_user_engine.specs.Names.{is_named, IsSize, max_names, max_cells};
ghost use Rattle.mk_user_engine.specs.Grouped.{IsGroup, CanJoin, widened};

use crate::names::{MAX_CELLS, MAX_NAMES, Named};
use arrayvec::ArrayVec;

/// Named variables, and how many assignments they have together.
#[derive(Drop)]
pub(crate) struct Group {
    pub(crate) names: ArrayVec<Named, MAX_NAMES>,
    pub(crate) cells: u32,
}

impl Group {
    /// No variable, and the one assignment of these.
    pub(crate) fn none() -> Group
        ensures group { (sizes : List ℕ) → IsGroup sizes result }
        ensures named { (x : ℕ) → is_named result.names.items x ≡ false }
    {
        Group {
            names: ArrayVec::new(),
            cells: 1,
        }
    }

    /// Names a variable. Refused where there would be too many cells.
    pub(crate) fn name(&mut self, variable: u32, values: u32) -> bool
        requires { (sizes : List ℕ) × IsGroup sizes self.old × IsSize sizes variable values }
        ensures grown { (sizes : List ℕ) → IsGroup sizes self.old → IsSize sizes variable values
            → IsGroup sizes self.new }
        ensures named { result ≡ true → (x : ℕ) → is_named self.new.names.items x
            ≡ (is_named self.old.names.items x || variable == x) }
        ensures left { result ≡ false → self.new ≡ self.old }
    {
        if self.names.len() >= MAX_NAMES || self.cells as u64 * values as u64 > MAX_CELLS as u64 {
            return false;
        }
        self.names.push(Named {
            variable,
            values,
            stride: self.cells,
        });
        self.cells *= values;
        true
    }

    /// Whether it can take in another group.
    pub(crate) fn can_join(&self, other: &Group) -> bool
        requires { (sizes : List ℕ) × IsGroup sizes self.now × IsGroup sizes other.now }
        ensures { result ≡ true → CanJoin self.now other.now }
    {
        self.names.len() + other.names.len() <= MAX_NAMES && self.cells * other.cells <= MAX_CELLS
    }

    /// Takes in the variables of another group.
    pub(crate) fn join(&mut self, other: &Group)
        requires groups { (sizes : List ℕ) × IsGroup sizes self.old × IsGroup sizes other.now }
        requires room { CanJoin self.old other.now }
        ensures grown { (sizes : List ℕ) → IsGroup sizes self.old → IsGroup sizes other.now
            → IsGroup sizes self.new }
        ensures named { (x : ℕ) → is_named self.new.names.items x
            ≡ (is_named self.old.names.items x || is_named other.now.names.items x) }
    {
        append(&mut self.names, &other.names, self.cells);
        self.cells *= other.cells;
    }
}

/// Appends other names, behind those that have so many cells.
fn append(names: &mut ArrayVec<Named, MAX_NAMES>, others: &[Named], cells: u32)
    requires room { length names.old.items + length others.now ≤ max_names }
    requires strides { All (λ (n : Named). cells * n.stride ≤ max_cells) others.now }
    ensures { names.new.items ≡ names.old.items ++ widened cells others.now }
{
    for place in 0..others.len() {
        let named = others[place];
        names.push(Named {
            variable: named.variable,
            values: named.values,
            stride: cells * named.stride,
        });
    }
}
