//! The variables of a scope that change fastest.

ghost use Rattle.std.specs.Prelude.{◌≡◌, ℕ, List};
ghost use Rattle.mk_scope.specs.Scopes.{ScopeOf};
ghost use Rattle.mk_scope.specs.inner.Strides.{IsTail};

/// The least cells of a run that are worth a pass of their own.
const LEAST_RUN: usize = 16;

/// How many of a scope's last variables may have each of their values, and how many cells they have. These cells lie side by
/// side, and so they do for each value of the variables before: they are a run.
#[derive(Clone, Copy)]
pub(crate) struct Tail {
    pub(crate) variables: usize,
    pub(crate) cells: usize,
}

/// None of the variables: each cell is a run.
pub(crate) fn no_tail() -> Tail
    ensures single { result.cells ≡ 1 }
    ensures tail { (scope : ScopeOf) (values : ℕ → List ℕ) → IsTail scope values result.variables result.cells }
{
    Tail {
        variables: 0,
        cells: 1,
    }
}

/// So many variables with so many cells, or none where the runs would be too short.
pub(crate) fn long_tail(variables: usize, cells: usize) -> Tail
    ensures { (scope : ScopeOf) (values : ℕ → List ℕ) → IsTail scope values variables cells → IsTail scope values result.variables result.cells }
{
    if cells < LEAST_RUN {
        no_tail()
    } else {
        Tail { variables, cells }
    }
}
