//! How large the sums of the meanings are, and how many factors they have.
ghost use Rattle.mk_beliefs.specs.Laws.{WholeIsSum, WeightsAreSmall, GainsAreSmall, FactorsAreFew};

/// The whole sum is that of the weights of all states, possible or not.
pub fn whole_is_sum()
    ensures { WholeIsSum }
{}

/// In the small case the whole sum of the weights is below the limit of numbers.
pub fn weights_are_small()
    ensures { WeightsAreSmall }
{}

/// In the small case that of a user's gains is too.
pub fn gains_are_small()
    ensures { GainsAreSmall }
{}

/// While a market takes trades, no meaning has more factors than an engine may hold.
pub fn factors_are_few()
    ensures { FactorsAreFew }
{}
