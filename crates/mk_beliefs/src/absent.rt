//! What the price engine finds nothing of.
ghost use Rattle.mk_beliefs.specs.Laws.{AbsentIsNever, AbsentIsSure};

/// The belief in an event is absent exactly where it cannot come.
pub fn belief_is_absent()
    ensures { AbsentIsNever }
{}

/// The plus of the beliefs in the other values is absent exactly where none of them can come.
pub fn others_are_absent()
    ensures { AbsentIsSure }
{}
