//! How many messages a belief makes.

ghost use Rattle.mk_tree_engine.specs.Laws.{OnePerSeparator, StaleBetween};

/// At most one for each separator, from any state.
pub fn one_per_separator()
    ensures { OnePerSeparator }
{}

/// After one change, as many as separators lie between it and the clique that is asked.
pub fn stale_between()
    ensures { StaleBetween }
{}
