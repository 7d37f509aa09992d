//! Sums of weights.
ghost use Rattle.mk_beliefs.specs.Laws.{BeliefIsTotal, OthersAreTotal, TargetIsTotal, CasesAreAll};

/// The belief in an event is the total weight where it holds.
pub fn belief_is_total()
    ensures { BeliefIsTotal }
{}

/// The plus of the beliefs in the other values is the total weight of a question's other side.
pub fn others_are_total()
    ensures { OthersAreTotal }
{}

/// The total weight where all pairs of a question hold is that of its target's side.
pub fn target_is_total()
    ensures { TargetIsTotal }
{}

/// The two sides of a question together are its condition.
pub fn cases_are_all()
    ensures { CasesAreAll }
{}
