//! The joint value over the list of all states, as a tree gives it.
ghost use Rattle.mk_sums.specs.Laws.{StatesNest, KnownAreFactors, JointIsRead};

/// The plus over the list of all states is the nested plus over all variables.
pub fn states_nest()
    ensures { StatesNest }
{}

/// A known pair does what a factor does that is 1 where the pair holds, and absent elsewhere.
pub fn known_are_factors()
    ensures { KnownAreFactors }
{}

/// The joint value over the list of all states is read in any clique that holds the event.
pub fn joint_is_read()
    ensures { JointIsRead }
{}
