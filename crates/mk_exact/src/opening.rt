//! The weights of a network's states, and a market that nobody has used yet.
ghost use Rattle.mk_exact.specs.Laws.{WeightsPositive, InitialTotalIsMillions, WeightsBegin, BeginsSound, SingleOpens};

/// The initial weights of all states together are a million for each variable.
pub fn initial_total_is_millions()
    ensures { InitialTotalIsMillions }
{}

/// In a proper history no state's weight falls to nothing.
pub fn weights_positive()
    ensures { WeightsPositive }
{}

/// Before any change the weight of a state is its initial weight.
pub fn weights_begin()
    ensures { WeightsBegin }
{}

/// A market that nobody has used is sound.
pub fn begins_sound()
    ensures { BeginsSound }
{}

/// In an unused market of one question, the shares of its row are the weights of its values.
pub fn single_opens()
    ensures { SingleOpens }
{}
