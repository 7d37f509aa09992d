//! What every accepted change keeps.
ghost use Rattle.mk_exact.specs.Laws.{SoundNext, ProperNext, FairPairIsSafe, StateRemains};

/// Beside one network, an acceptable change leads from a sound history to a sound one.
pub fn sound_next()
    ensures { SoundNext }
{}

/// And a change in range from a proper history to a proper one.
pub fn proper_next()
    ensures { ProperNext }
{}

/// A fair and solvent pair, as right limits promise it for each share inside, makes a safe trade.
pub fn fair_pair_is_safe()
    ensures { FairPairIsSafe }
{}

/// Without zeros, after a proper history, pairs that give no variable two values, and no resolved one another value than its
/// own, hold in some possible state. So no question is refused for what cannot come.
pub fn state_remains()
    ensures { StateRemains }
{}
