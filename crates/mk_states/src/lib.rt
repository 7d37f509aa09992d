//! States, their initial weights, and events: what every engine and every law of the exact market speaks of.
//! Nothing here runs in the market; the function below states a law of the definitions in `specs/`.
#![tactic(auto)]

ghost use Rattle.mk_states.specs.Shares.{SharesPositive};

/// Each share of a state that can come is 1 to a million, and its initial weight at least 1.
pub fn shares_positive()
    ensures { SharesPositive }
{}
