//! Why each group can be reckoned alone.

ghost use Rattle.mk_user_engine.specs.Groups.{GroupsMultiply};
ghost use Rattle.mk_user_engine.specs.Shared.{RatiosAreShared};
ghost use Rattle.mk_user_engine.specs.GroupedNarrow.{BeliefIsShared, GatheredStay};
ghost use Rattle.mk_user_engine.specs.LeastShared.{LeastIsShared};

/// The least product of factors of groups without a common variable is that of the groups' least
/// values.
pub fn groups_multiply()
    ensures { GroupsMultiply }
{}

/// The product of all ratios is that of the groups' products.
pub fn ratios_are_shared()
    ensures { RatiosAreShared }
{}

/// The least product of all ratios is the product of the groups' least products.
pub fn least_is_shared()
    ensures { LeastIsShared }
{}

/// The exact belief in an event is the product of the groups' least products.
pub fn belief_is_shared()
    ensures { BeliefIsShared }
{}

/// A ratio stays in one group.
pub fn gathered_stay()
    ensures { GatheredStay }
{}
