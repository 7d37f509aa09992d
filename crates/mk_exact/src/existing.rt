//! What exists: an answer to each line that a market can be asked.
ghost use Rattle.mk_exact.specs.Existing.{PriceIsCovered, PriceIsNarrow, CashExists, CashIsCovered};
ghost use Rattle.mk_exact.specs.Existing.{CashIsNarrow, CashIsBounded, MostExists, CoveredIsLess};
ghost use Rattle.mk_exact.specs.Existing.{WithdrawalIsJudged, LimitsExist, InsideIsDecided};
ghost use Rattle.mk_exact.specs.Existing.{LimitsJudge, StateExists, PriceExists, LeastExists};
ghost use Rattle.mk_exact.specs.Existing.{SidesExist, RightLimitsExist, OutcomeExists, BoundsKept};
ghost use Rattle.mk_exact.specs.Existing.{FairPairFits, CashFits, LeastCashFits, BoundExists};
ghost use Rattle.mk_exact.specs.Existing.{BoundFits, PriceCoversMore, CashCoversMore};
ghost use Rattle.mk_exact.specs.Existing.{MostCoversMore};

/// A price of at most one has an interval: its floor and its ceiling.
pub fn price_is_covered()
    ensures { PriceIsCovered }
{}

/// Each interval that covers a price is at most two units wide.
pub fn price_is_narrow()
    ensures { PriceIsNarrow }
{}

/// What covers a price covers it less sharply too.
pub fn price_covers_more()
    ensures { PriceCoversMore }
{}

/// A factor of at least one has its cash.
pub fn cash_exists()
    ensures { CashExists }
{}

/// Its cash has an interval.
pub fn cash_is_covered()
    ensures { CashIsCovered }
{}

/// At up to a million points per bit each such interval is at most one point wide.
pub fn cash_is_narrow()
    ensures { CashIsNarrow }
{}

/// What covers cash covers it less sharply too.
pub fn cash_covers_more()
    ensures { CashCoversMore }
{}

/// The cash of a factor of at most `2^m` is at most `m` times the points per bit.
pub fn cash_is_bounded()
    ensures { CashIsBounded }
{}

/// Some bits are the most that a factor of at least one covers.
pub fn most_exists()
    ensures { MostExists }
{}

/// Bits that are the most are so less sharply too.
pub fn most_covers_more()
    ensures { MostCoversMore }
{}

/// What a factor covers is less than what it does not cover.
pub fn covered_is_less()
    ensures { CoveredIsLess }
{}

/// A withdrawal is covered, or more than the most that is.
pub fn withdrawal_is_judged()
    ensures { WithdrawalIsJudged }
{}

/// Two sides of positive prices have right limits.
pub fn limits_exist()
    ensures { LimitsExist }
{}

/// A share is inside of limits or not.
pub fn inside_is_decided()
    ensures { InsideIsDecided }
{}

/// Right limits judge each share: inside of them a fair and solvent pair takes the price there.
pub fn limits_judge()
    ensures { LimitsJudge }
{}

/// Some state stays possible.
pub fn state_exists()
    ensures { StateExists }
{}

/// Each question that can be asked has an exact price of at most one, and an interval that covers it.
pub fn price_exists()
    ensures { PriceExists }
{}

/// In a proper history each user has a least gain over the possible states, and where it is sound
/// the factor of that is at least one.
pub fn least_exists()
    ensures { LeastExists }
{}

/// In a proper history each question whose price can move has both sides, for each user.
pub fn sides_exist()
    ensures { SidesExist }
{}

/// And right limits.
pub fn right_limits_exist()
    ensures { RightLimitsExist }
{}

/// In a proper history whose variables are all resolved one state is left, and where it is sound each
/// user's factor in it is at least one.
pub fn outcome_exists()
    ensures { OutcomeExists }
{}

/// A change for which there is room keeps a history within a market's bounds.
pub fn bounds_kept()
    ensures { BoundsKept }
{}

/// The units of a fair pair are below `2^63`.
pub fn fair_pair_fits()
    ensures { FairPairFits }
{}

/// Within a market's bounds an interval that covers a user's cash in a state ends below `2^63`.
pub fn cash_fits()
    ensures { CashFits }
{}

/// And so does one that covers the cash of a user's least gain.
pub fn least_cash_fits()
    ensures { LeastCashFits }
{}

/// In a proper history some interval covers the most that the operator can lose.
pub fn bound_exists()
    ensures { BoundExists }
{}

/// At up to a million points per bit each such interval ends below `2^63`.
pub fn bound_fits()
    ensures { BoundFits }
{}
