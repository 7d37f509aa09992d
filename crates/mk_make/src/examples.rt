//! Lines of the smallest sample.

ghost use Rattle.mk_make.specs.Examples.{HasOneClique, HasFiveEdits};

/// The sample of two variables has one clique, and these are the lines of its cliques and links.
pub fn one_clique()
    ensures { HasOneClique }
{}

/// The sample of two variables has five edits, and these are their lines.
pub fn five_edits()
    ensures { HasFiveEdits }
{}
