//! What a change of one clique leaves right, and in which order messages are made.
ghost use Rattle.mk_sums.specs.Laws.{ChangeLeaves, LeadsTowards, CollectsInOrder, StaleOnWay};

/// A change in one clique leaves each message right whose sender's side does not have it.
pub fn change_leaves()
    ensures { ChangeLeaves }
{}

/// These messages are the ones that lead towards the changed clique.
pub fn leads_towards()
    ensures { LeadsTowards }
{}

/// What a message towards a clique is made of leads towards that clique.
pub fn collects_in_order()
    ensures { CollectsInOrder }
{}

/// A change of one clique makes as many messages towards another stale as links lie between the two.
pub fn stale_on_way()
    ensures { StaleOnWay }
{}
