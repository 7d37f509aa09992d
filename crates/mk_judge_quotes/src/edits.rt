//! Judgements of limits and of trades that are printed for a question, by bounds of both sides.

ghost use Rattle.std.specs.Prelude.{◌≡◌, ℕ, ◌+◌, ◌-◌, ◌*◌, ◌^◌};
ghost use Rattle.std.specs.Prelude.{◌<◌, ◌≤◌, ◌↔◌, List, None, MatchOption, IsTrue};
ghost use Rattle.mk_net.specs.declared.words.QuestionText.{QuestionText};
ghost use Rattle.mk_judge_quotes.specs.Below.{Entry, Inside, Market, Judges, HasTradeRange};
ghost use Rattle.mk_judge_quotes.specs.Below.{user_number, IsLimits, IsTrade, IsJudged};
ghost use Rattle.mk_judge_quotes.specs.Below.{IsJudgedAfresh, max_share};
ghost use Rattle.mk_quote.specs.Bounds as side;
ghost use Rattle.mk_reply.specs.declared.reply.Reply.TheVariants.{Refused};
ghost use Rattle.mk_reply.specs.declared.refusal.Refusal.TheVariants.{Beyond};
ghost use Rattle.mk_judge_quotes.specs.Editing.{AreEditBounds, AreLimitsLeftOpen};
ghost use Rattle.mk_judge_quotes.specs.Editing.{IsEditLeftOpen};
ghost use Rattle.mk_judge_quotes.specs.inner.Editing.{IsTradeLeftOpen, CanJudgeTrade, JudgesEdit};
ghost use Rattle.mk_judge_quotes.specs.Told.{beyond_told};

use crate::told::beyond_told;
use mk_judge::{Judged, judge_limits, judge_units};
use mk_names::limits::MILLION;
use mk_quote::{Bounds, SideBounds};
use mk_reply::Reply;

/// Judges the limits that a reply tells at a revision.
pub fn judge_told_limits(bounds: &Bounds, small: bool, now: u64, reply: &Reply) -> Judged
    requires hit_range { HasTradeRange bounds.now.hit_factor }
    requires miss_range { HasTradeRange bounds.now.miss_factor }
    ensures { (market : Market) (H : List Entry) (name : List ℕ) (q : QuestionText)
        → (its : AreEditBounds market H name q bounds.now small now)
        → Judges result
        (IsLimits market.network H (user_number H name) its.asked reply.now)
        (AreLimitsLeftOpen market H (user_number H name) its.asked reply.now) }
{
    match reply {
        Reply::Limits { limits, at } => {
            if *at == now {
                judge_limits(bounds, small, *limits)
            } else {
                Judged::Wrong
            }
        }
        _ => Judged::Wrong,
    }
}

/// Judges the reply to an edit, to so many millionths, of a user with these current limits, if
/// any were printed.
pub fn judge_edit(
    bounds: &Bounds,
    small: bool,
    now: u64,
    quoted: Option<Option<(u32, u32)>>,
    to: u32,
    reply: &Reply,
) -> Judged
    requires hit_range { HasTradeRange bounds.now.hit_factor }
    requires miss_range { HasTradeRange bounds.now.miss_factor }
    requires some { 1 ≤ to }
    requires few { to ≤ max_share }
    ensures { (market : Market) (H : List Entry) (name : List ℕ) (q : QuestionText)
        → (its : AreEditBounds market H name q bounds.now small now)
        → Judges result
        (MatchOption quoted
        (IsJudgedAfresh market.network H (user_number H name) its.asked to reply.now)
        (λ limits. IsJudged market.network H (user_number H name) its.asked to limits
        reply.now))
        (IsEditLeftOpen market H (user_number H name) its.asked to quoted reply.now) }
{
    match quoted {
        Some(limits) => judge_by_quote(bounds, small, now, limits, to, reply),
        None => judge_afresh(bounds, small, now, to, reply),
    }
}

/// Judges it by limits that were quoted: inside of them by its units, outside by the limits.
fn judge_by_quote(
    bounds: &Bounds,
    small: bool,
    now: u64,
    limits: Option<(u32, u32)>,
    to: u32,
    reply: &Reply,
) -> Judged
    requires { CanJudgeTrade bounds.now to }
    ensures { JudgesEdit result bounds.now small now
        (λ market H u asked. IsJudged market.network H u asked to limits reply.now)
        (λ market H u asked. IsTradeLeftOpen market H u asked to reply.now) }
{
    if is_inside(limits, to) {
        judge_trade(bounds, small, now, to, reply)
    } else {
        judge_same(limits, reply)
    }
}

/// Judges it without current limits: by its units, or by limits that are right.
fn judge_afresh(bounds: &Bounds, small: bool, now: u64, to: u32, reply: &Reply) -> Judged
    requires { CanJudgeTrade bounds.now to }
    ensures { JudgesEdit result bounds.now small now
        (λ market H u asked. IsJudgedAfresh market.network H u asked to reply.now)
        (λ market H u asked. IsEditLeftOpen market H u asked to None reply.now) }
{
    match beyond_told(reply) {
        Some(limits) => {
            if is_inside(limits, to) {
                Judged::Wrong
            } else {
                judge_limits(bounds, small, limits)
            }
        }
        None => judge_trade(bounds, small, now, to, reply),
    }
}

/// Judges a trade to so many millionths by its units on both sides.
fn judge_trade(bounds: &Bounds, small: bool, now: u64, to: u32, reply: &Reply) -> Judged
    requires { CanJudgeTrade bounds.now to }
    ensures { JudgesEdit result bounds.now small now
        (λ market H u asked. IsTrade market.network H u asked to reply.now)
        (λ market H u asked. IsTradeLeftOpen market H u asked to reply.now) }
{
    match reply {
        Reply::Traded { hit, miss, at } => {
            if *at >= 1 && *at - 1 == now {
                let (hit_side, miss_side) = sides(bounds);
                let of_hit = judge_units(&hit_side, small, to, *hit);
                let of_miss = judge_units(&miss_side, small, MILLION - to, *miss);
                of_hit.and(of_miss)
            } else {
                Judged::Wrong
            }
        }
        _ => Judged::Wrong,
    }
}

/// Judges a refusal by limits that were quoted: they alone are allowed.
fn judge_same(limits: Option<(u32, u32)>, reply: &Reply) -> Judged
    ensures { Judges result (reply.now ≡ Refused (Beyond limits)) ⊥ }
{
    match beyond_told(reply) {
        Some(told) => {
            if told == limits {
                Judged::Allowed
            } else {
                Judged::Wrong
            }
        }
        None => Judged::Wrong,
    }
}

/// Whether a share lies inside of limits.
pub(crate) fn is_inside(limits: Option<(u32, u32)>, to: u32) -> bool
    ensures { IsTrue result ↔ Inside limits to }
{
    match limits {
        Some((low, high)) => low <= to && to <= high,
        None => false,
    }
}

/// The side of the target, and that of the other values.
fn sides(bounds: &Bounds) -> (SideBounds, SideBounds)
    ensures { result ≡ (side.hit_side bounds.now, side.miss_side bounds.now) }
{
    let hit = SideBounds {
        part: bounds.hit,
        whole: bounds.whole,
        factor: bounds.hit_factor,
    };
    let miss = SideBounds {
        part: bounds.miss,
        whole: bounds.whole,
        factor: bounds.miss_factor,
    };
    (hit, miss)
}
