//! Engines whose grades follow from the sizes of the tree.

ghost use Rattle.std.specs.Prelude.{◌≤◌};
ghost use Rattle.mk_engine.specs.Meaning.{Meaning, tree_grade};

use crate::Engine;
use mk_semiring::Semiring;

/// An engine whose beliefs have no greater grade than the sizes of the tree give: one for each
/// factor, the cells of all cliques, two for each separator, and the cells of the largest clique.
pub trait TreeGraded<R: Semiring>: Engine<R> {
    ghost within_tree: { (m : Meaning) → Self.grade_of m ≤ tree_grade m };
}
