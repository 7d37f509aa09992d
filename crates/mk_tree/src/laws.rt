//! What the check of a tree rests on.
ghost use Rattle.mk_tree.specs.Laws.{TestIsConnected};

/// Each clique that holds a variable, but the first of them, is linked to one that holds it exactly where the
/// variable's cliques are connected.
pub fn test_is_connected()
    ensures { TestIsConnected }
{}
