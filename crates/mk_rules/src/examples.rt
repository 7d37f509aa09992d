//! The rules at work in small markets.
ghost use Rattle.mk_rules.specs.Examples.{AreMarkets, AreRefused, ComeInOrder, AreAnswered, AreCurrent, IsTakenOut, IsWorstPaid, IsResolved, IsPaid, IsJudgedByNewLimits, RunsThrough};
ghost use Rattle.mk_rules.specs.ToldExamples.{ToldInOrder, IsTold};
ghost use Rattle.mk_rules.specs.AddExamples.{AddsInOrder, IsAdded};
ghost use Rattle.mk_rules.specs.SpreadExamples.{AreSpreadsRefused, SpreadsComeInOrder, AreSpreadsCurrent, AreSpreadsAnswered};

use mk_exact::{example_cash, example_limits, example_networks};
use mk_spread::example_bounds;

/// The markets of these examples are markets.
pub fn example_markets()
    ensures { AreMarkets }
{
    example_networks();
}

/// Each refusal where it comes first, and commands that meet none.
pub fn example_refusals()
    ensures { AreRefused }
{}

/// For each two neighbours among a command's refusals, that the first of them comes where both apply.
pub fn example_order()
    ensures { ComeInOrder }
{}

/// Replies that are allowed, and replies that are not.
pub fn example_answers()
    ensures { AreAnswered }
{}

/// When a quote judges an edit.
pub fn example_quotes()
    ensures { AreCurrent }
{}

/// A withdrawal of what the user's least factor covers, and of more.
pub fn example_withdrawal()
    ensures { IsTakenOut }
{}

/// What a user is worth at least.
pub fn example_worst()
    ensures { IsWorstPaid }
{
    example_cash();
}

/// A resolution and the entry that it appends.
pub fn example_resolution()
    ensures { IsResolved }
{}

/// An edit that is judged by limits made for its reply.
pub fn example_judged_afresh()
    ensures { IsJudgedByNewLimits }
{
    example_limits();
}

/// The payments of a settlement, and payments that are not allowed.
pub fn example_settlement()
    ensures { IsPaid }
{
    example_cash();
}

/// A run of seven lines in which a user trades once.
pub fn example_run()
    ensures { RunsThrough }
{
    example_limits();
    example_cash();
}

/// Each refusal of a spread where it comes first, and commands that meet none.
pub fn example_spread_refusals()
    ensures { AreSpreadsRefused }
{}

/// For each two neighbours among the refusals of bounds and of a spread, that the first of them comes where both apply.
pub fn example_spread_order()
    ensures { SpreadsComeInOrder }
{}

/// When a quote judges a spread; one of bounds judges no edit, and one of limits no spread.
pub fn example_spread_quotes()
    ensures { AreSpreadsCurrent }
{}

/// Bounds of a die and spreads over its faces that are allowed, and replies that are not.
pub fn example_spreads()
    ensures { AreSpreadsAnswered }
{
    example_bounds();
}

/// For each two neighbours among the refusals of prices, of a position and of a status, that the
/// first of them comes where both apply.
pub fn example_told_order()
    ensures { ToldInOrder }
{}

/// Prices, positions and a status that are allowed, and replies that are not.
pub fn example_told()
    ensures { IsTold }
{}

/// For each two neighbours among the refusals of an added question, that the first of them comes
/// where both apply.
pub fn example_add_order()
    ensures { AddsInOrder }
{}

/// A question that is added, what it leaves, and replies that are not allowed.
pub fn example_added()
    ensures { IsAdded }
{}
