//! What is told of every value of a variable.
ghost use Rattle.mk_spread.specs.Told.{PricesExist, PositionExists, PricesFit, PositionFits};
ghost use Rattle.mk_spread.specs.Told.{PricesMakeOne};

/// Each distribution that can be told has prices.
pub fn prices_exist()
    ensures { PricesExist }
{}

/// In a sound market each user has a position in every distribution.
pub fn position_exists()
    ensures { PositionExists }
{}

/// Prices are 2 to 16 intervals within 0 to one.
pub fn prices_fit()
    ensures { PricesFit }
{}

/// A position is 2 to 16 intervals whose ends are below `2^63`, within the bounds of a history.
pub fn position_fits()
    ensures { PositionFits }
{}

/// The low ends of prices are at most one together, and the high ends at least one.
pub fn prices_make_one()
    ensures { PricesMakeOne }
{}
