//! Least gains.
ghost use Rattle.mk_beliefs.specs.Laws.{BeliefIsLeast, OthersAreLeast, TargetIsLeast, AllIsLeast};

/// The belief in an event is the least gain where it holds, and 0 where no possible state has it.
pub fn belief_is_least()
    ensures { BeliefIsLeast }
{}

/// The plus of the beliefs in the other values is the least gain on a question's other side.
pub fn others_are_least()
    ensures { OthersAreLeast }
{}

/// The least gain where all pairs of a question hold is that of its target's side.
pub fn target_is_least()
    ensures { TargetIsLeast }
{}

/// The belief in no pair at all is the least gain of all possible states.
pub fn all_is_least()
    ensures { AllIsLeast }
{}
