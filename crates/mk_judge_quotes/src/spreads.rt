//! Judgements of bounds and of trades that are printed for a whole distribution, by bounds of each
//! value.

ghost use Rattle.std.specs.Prelude.{◌≡◌, ℕ, ◌≤◌, ◌↔◌, List, Some, None, All, MatchOption, IsTrue};
ghost use Rattle.std.specs.Prelude.{option_map, option_copied};
ghost use Rattle.mk_judge_quotes.specs.Below.{Entry, AllZip, Inside, Market, InsideEach, sides_in};
ghost use Rattle.mk_judge_quotes.specs.Below.{Judges, HaveTradeRange, given_in, user_number};
ghost use Rattle.mk_judge_quotes.specs.Below.{IsBounds, IsSpreadTrade, IsSpreadJudged, max_share};
ghost use Rattle.mk_judge_quotes.specs.Below.{IsSpreadJudgedAfresh};
ghost use Rattle.arrayvec.specs.ArrayVec.{ArrayVec as TheArrayVec};
ghost use Rattle.mk_net.specs.declared.words.PairText.{PairText};
ghost use Rattle.mk_reply.specs.declared.reply.Reply.TheVariants.{Refused};
ghost use Rattle.mk_reply.specs.declared.refusal.Refusal.TheVariants.{Outside};
ghost use Rattle.mk_judge_quotes.specs.Spreading.{AreEachBounds, AreBoundsLeftOpen};
ghost use Rattle.mk_judge_quotes.specs.Spreading.{IsSpreadLeftOpen};
ghost use Rattle.mk_judge_quotes.specs.inner.Spreading.{IsSpreadTradeLeftOpen, JudgesSpread};
ghost use Rattle.mk_judge_quotes.specs.inner.Spreading.{CanJudgeSpread};
ghost use Rattle.mk_judge_quotes.specs.inner.Spreading.{SaysIntervals, IsSameBox};

use crate::edits::is_inside;
use crate::told::outside_told;
use mk_judge::{Judged, judge_intervals, judge_spread_units};
use mk_quote::SpreadBounds;
use mk_reply::{Intervals, Reply};

/// Judges the bounds that a reply tells at a revision.
pub fn judge_told_bounds(bounds: &SpreadBounds, small: bool, now: u64, reply: &Reply) -> Judged
    requires range { HaveTradeRange (sides_in bounds.now) }
    ensures { (market : Market) (H : List Entry) (name : List ℕ) (v : List ℕ)
        (condition : TheArrayVec PairText)
        → (its : AreEachBounds market H name v condition bounds.now small now)
        → Judges result
        (IsBounds market.network H (user_number H name) its.spread reply.now)
        (AreBoundsLeftOpen market H (user_number H name) its.spread reply.now) }
{
    match reply {
        Reply::Bounded { intervals, at } => {
            if *at == now {
                judge_box(bounds, small, intervals)
            } else {
                Judged::Wrong
            }
        }
        _ => Judged::Wrong,
    }
}

/// Judges the reply to a spread, to these millionths, of a user with these current bounds, if any
/// were printed.
pub fn judge_spread(
    bounds: &SpreadBounds,
    small: bool,
    now: u64,
    quoted: Option<&Option<Intervals>>,
    to: &[u32],
    reply: &Reply,
) -> Judged
    requires range { HaveTradeRange (sides_in bounds.now) }
    requires shares { All (λ X. X ≤ max_share) to.now }
    ensures { (market : Market) (H : List Entry) (name : List ℕ) (v : List ℕ)
        (condition : TheArrayVec PairText)
        → (its : AreEachBounds market H name v condition bounds.now small now)
        → Judges result
        (MatchOption (option_map given_in (option_copied quoted.entry))
        (IsSpreadJudgedAfresh market.network H (user_number H name) its.spread to.now
        reply.now)
        (λ intervals. IsSpreadJudged market.network H (user_number H name) its.spread
        to.now intervals reply.now))
        (IsSpreadLeftOpen market H (user_number H name) its.spread to.now
        (option_map given_in (option_copied quoted.entry)) reply.now) }
{
    match quoted {
        Some(intervals) => judge_by_quote(bounds, small, now, intervals, to, reply),
        None => judge_afresh(bounds, small, now, to, reply),
    }
}

/// Judges it by bounds that were quoted: inside of them by its units, outside by the bounds.
fn judge_by_quote(
    bounds: &SpreadBounds,
    small: bool,
    now: u64,
    intervals: &Option<Intervals>,
    to: &[u32],
    reply: &Reply,
) -> Judged
    requires { CanJudgeSpread bounds.now to.now }
    ensures { JudgesSpread result bounds.now small now
        (λ market H u spread. IsSpreadJudged market.network H u spread to.now
        (given_in intervals.now) reply.now)
        (λ market H u spread. IsSpreadTradeLeftOpen market H u spread to.now reply.now) }
{
    if are_inside(intervals, to) {
        judge_spread_trade(bounds, small, now, to, reply)
    } else {
        judge_same(intervals, reply)
    }
}

/// Judges it without current bounds: by its units, or by bounds that are right.
fn judge_afresh(bounds: &SpreadBounds, small: bool, now: u64, to: &[u32], reply: &Reply) -> Judged
    requires { CanJudgeSpread bounds.now to.now }
    ensures { JudgesSpread result bounds.now small now
        (λ market H u spread. IsSpreadJudgedAfresh market.network H u spread to.now reply.now)
        (λ market H u spread. IsSpreadLeftOpen market H u spread to.now None reply.now) }
{
    match outside_told(reply) {
        Some(intervals) => {
            if are_inside(intervals, to) {
                Judged::Wrong
            } else {
                judge_box(bounds, small, intervals)
            }
        }
        None => judge_spread_trade(bounds, small, now, to, reply),
    }
}

/// Judges a trade to these millionths by the units of each value.
fn judge_spread_trade(
    bounds: &SpreadBounds,
    small: bool,
    now: u64,
    to: &[u32],
    reply: &Reply,
) -> Judged
    requires { CanJudgeSpread bounds.now to.now }
    ensures { JudgesSpread result bounds.now small now
        (λ market H u spread. IsSpreadTrade market.network H u spread to.now reply.now)
        (λ market H u spread. IsSpreadTradeLeftOpen market H u spread to.now reply.now) }
{
    match reply {
        Reply::Spreaded { factors, at } => {
            if *at >= 1 && *at - 1 == now {
                judge_spread_units(bounds, small, to, factors.as_slice())
            } else {
                Judged::Wrong
            }
        }
        _ => Judged::Wrong,
    }
}

/// Judges intervals that are printed, if any are.
fn judge_box(bounds: &SpreadBounds, small: bool, intervals: &Option<Intervals>) -> Judged
    requires range { HaveTradeRange (sides_in bounds.now) }
    ensures { SaysIntervals result bounds.now small (given_in intervals.now) }
{
    match intervals {
        Some(intervals) => judge_intervals(bounds, small, Some(intervals.as_slice())),
        None => judge_intervals(bounds, small, None),
    }
}

/// Judges a refusal by bounds that were quoted: they alone are allowed.
fn judge_same(intervals: &Option<Intervals>, reply: &Reply) -> Judged
    ensures { Judges result (IsSameBox (given_in intervals.now) reply.now) ⊥ }
{
    match outside_told(reply) {
        Some(told) => {
            if are_same(told, intervals) {
                Judged::Allowed
            } else {
                Judged::Wrong
            }
        }
        None => Judged::Wrong,
    }
}

/// Whether two lists of intervals are the same.
fn are_same(left: &Option<Intervals>, right: &Option<Intervals>) -> bool
    ensures { IsTrue result ↔ (given_in left.now ≡ given_in right.now) }
{
    match left {
        Some(left) => match right {
            Some(right) => left.as_slice() == right.as_slice(),
            None => false,
        },
        None => right.is_none(),
    }
}

/// Whether each share lies inside of its interval.
fn are_inside(intervals: &Option<Intervals>, to: &[u32]) -> bool
    ensures { IsTrue result ↔ InsideEach (given_in intervals.now) to.now }
{
    match intervals {
        Some(intervals) => are_all_inside(intervals.as_slice(), to),
        None => false,
    }
}

/// The same where intervals are given.
fn are_all_inside(intervals: &[(u32, u32)], to: &[u32]) -> bool
    ensures { IsTrue result ↔ AllZip (λ interval X. Inside (Some interval) X) intervals.now to.now }
{
    if intervals.len() != to.len() {
        return false;
    }
    for index in 0..to.len() {
        if !is_inside(Some(intervals[index]), to[index]) {
            return false;
        }
    }
    true
}
