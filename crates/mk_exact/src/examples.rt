//! The numbers of five small markets.
ghost use Rattle.std.specs.Prelude.{ℕ};
ghost use Rattle.mk_net.specs.Bounds.{sharpness};
ghost use Rattle.mk_exact.specs.Examples.{AreNetworks, HaveWeights, HavePrices, HasTraded, WasSafe};
ghost use Rattle.mk_exact.specs.Examples.{IsWorth, HasLimits, HasConditioned, HasTwoTraders};
ghost use Rattle.mk_exact.specs.Examples.{AreSharp, HasZeros};

/// The four are networks, and the weights of their states together a power of a million.
pub fn example_networks()
    ensures { AreNetworks }
{}

/// Their weights before any change.
pub fn example_weights()
    ensures { HaveWeights }
{}

/// Their prices before any change.
pub fn example_prices()
    ensures { HavePrices }
{}

/// The weights, the price and the factors after one trade on a coin.
pub fn example_trade()
    ensures { HasTraded }
{}

/// The pair of that trade is fair and solvent, and other pairs are not.
pub fn example_safety()
    ensures { WasSafe }
{}

/// The cash of the trader's factors, and what can be withdrawn.
pub fn example_cash()
    ensures { IsWorth }
{}

/// The right limits before that trade, and limits that are wrong.
pub fn example_limits()
    ensures { HasLimits }
{}

/// The numbers after a trade under a condition.
pub fn example_condition()
    ensures { HasConditioned }
{}

/// The numbers after trades of two users on a chain of three variables.
pub fn example_traders()
    ensures { HasTwoTraders }
{}

/// Intervals after these trades that cover a price and cash, and wider ones that do not.
pub fn example_sharp()
    ensures { (most_trades : ℕ) → AreSharp (sharpness most_trades) }
{}

/// What never and what surely comes in a cup with shares of nothing, and the most that its operator can lose.
pub fn example_zeros()
    ensures { HasZeros }
{}
