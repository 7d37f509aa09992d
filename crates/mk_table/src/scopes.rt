//! The scopes of the tables of an engine.

ghost use Rattle.std.specs.Prelude.{◌≡◌, ◌<◌, ◌≤◌, map, length, sum, take, All};
ghost use Rattle.mk_net.specs.Bounds.{max_clique_cells};
ghost use Rattle.mk_scope.specs.Scopes.{IsScope, cells_in};
ghost use Rattle.mk_table.specs.inner.Store.{AreScopes, scope_in};

use mk_scope::Scope;
use std::marker::Model;
use std::rc::Rc;

/// The scopes of the tables of an engine, in order. All engines of a market's tree share them.
#[derive(Drop)]
pub struct Scopes {
    scopes: Vec<Rc<Scope>>,
    cells: usize,
    most: usize,
}

impl Model for Scopes {
    ghost use Rattle.std.specs.Prelude.{List, map};
    ghost use Rattle.mk_scope.specs.Scopes.{ScopeOf};
    ghost use Rattle.mk_table.specs.inner.Store.{AreScopes};

    ghost Value = { List ScopeOf };

    ghost view = { λ s. map (λ scope. scope.value) s.scopes.items };

    ghost invariant = { λ s. AreScopes (map (λ scope. scope.value) s.scopes.items) s.cells s.most };
}

impl Scopes {
    /// The scopes of a list, which are at most 4,096.
    pub fn of(scopes: Vec<Rc<Scope>>) -> Scopes
        requires few { length scopes.items ≤ 4096 }
        ensures { result ≡ map (λ scope. scope.value) scopes.items }
    {
        let (cells, most) = count_all(&scopes);
        Scopes {
            scopes,
            cells,
            most,
        }
    }

    /// How many there are.
    pub(crate) fn count(&self) -> usize
        ensures { result ≡ length self.now }
    {
        self.scopes.len()
    }

    /// How many cells tables over all of them have, and the most cells of one.
    pub(crate) fn cells(&self) -> (usize, usize)
        ensures { AreScopes self.now result.0 result.1 }
    {
        (self.cells, self.most)
    }

    /// A scope.
    #[inline]
    pub(crate) fn scope(&self, k: usize) -> &Scope
        requires { k < length self.now }
        ensures { result.now ≡ scope_in self.now k }
    {
        &self.scopes[k]
    }
}

/// How many cells tables over all scopes have, and the most cells of one.
fn count_all(scopes: &[Rc<Scope>]) -> (usize, usize)
    requires { length scopes.now ≤ 4096 }
    ensures { AreScopes (map (λ scope. scope.value) scopes.now) result.0 result.1 }
{
    let mut cells = 0;
    let mut most = 0;
    for scope in scopes {
        let count = scope.cells();
        cells += count;
        if most < count {
            most = count;
        }
    }
    (cells, most)
}
