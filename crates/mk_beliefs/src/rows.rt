//! Initial weights.
ghost use Rattle.mk_beliefs.specs.Laws.{RowsAreLeast, RowsAreSmall, RowsAreFew, RowsOpen, RowsGrow};

/// The belief in no pair at all is the least initial weight of the possible states.
pub fn rows_are_least()
    ensures { RowsAreLeast }
{}

/// Where the initial total is below the limit of numbers, so is the whole sum.
pub fn rows_are_small()
    ensures { RowsAreSmall }
{}

/// There is one factor for each variable, so 256 at most.
pub fn rows_are_few()
    ensures { RowsAreFew }
{}

/// Before any entry nothing is known.
pub fn rows_open()
    ensures { RowsOpen }
{}

/// A resolution is known from then on, and no other entry changes anything.
pub fn rows_grow()
    ensures { RowsGrow }
{}
