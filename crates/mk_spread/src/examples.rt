//! The numbers of a die and of a gate.
ghost use Rattle.mk_spread.specs.Examples.{HasBounds, HasGate};

/// The right bounds of a die for a user with one bit, a fair list within them, and bounds that are wrong.
pub fn example_bounds()
    ensures { HasBounds }
{}

/// The right bounds and a fair list of a gate, one of whose values cannot come, and lists and bounds that are wrong.
pub fn example_gate()
    ensures { HasGate }
{}
