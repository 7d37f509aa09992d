//! Writing a reply.

ghost use Rattle.std.specs.Prelude.{◌≡◌, ◌+◌, ◌*◌, ◌<◌, ◌≤◌, ◌++◌, length, codes, decimal};
ghost use Rattle.mk_net.specs.Bounds.{max_payments};
ghost use Rattle.mk_reply.specs.Below.{MAX_ANSWER_BYTES};
ghost use Rattle.mk_reply.specs.Below.{array_string_len, items_text, price_text, range_text};
ghost use Rattle.mk_reply.specs.Below.{limits_text, intervals_text, pair_text};
ghost use Rattle.mk_reply.specs.Refusals.{refusal_text, given_in};
ghost use Rattle.mk_reply.specs.Replies.{reply_text, at_text, payment_text, of_text};
ghost use Rattle.mk_reply.specs.inner.Kinds.{IsTold};
ghost use Rattle.mk_reply.specs.declared.refusal.Refusal.TheVariants.{Stale};
ghost use Rattle.mk_reply.specs.declared.reply.Reply.TheVariants.{SettledAll};

use crate::payments::Payment;
use crate::refusal::{Intervals, Refusal};
use crate::reply::Reply;
use arrayvec::ArrayString;
use mk_names::Name;
use mk_names::limits::MAX_ANSWER_BYTES;
use mk_net::PairText;
use mk_text::{
    put_all_ends, put_all_prices, put_intervals, put_limits, put_name, put_number, put_pair,
    put_price, put_range, put_units,
};

/// The text of a reply. Each has room, also a settlement with 256 payments.
type Text = ArrayString<MAX_ANSWER_BYTES>;

/// Puts the text of a reply into `out`, in place of what it held.
pub fn print_reply(reply: &Reply, out: &mut ArrayString<MAX_ANSWER_BYTES>)
    ensures text { out.new.bytes ≡ reply_text reply.now }
    ensures room { array_string_len out.new < MAX_ANSWER_BYTES }
{
    out.clear();
    match reply {
        Reply::Joined { user, at } => put_dated(out, "user ", user, *at),
        Reply::Deposited { user, bits, at } => {
            put_named(out, "deposit ", user);
            put_counted(out, " ", *bits as u64);
            put_at(out, *at);
        }
        Reply::Withdrawn { user, bits, at } => {
            put_named(out, "withdraw ", user);
            put_counted(out, " ", *bits as u64);
            put_at(out, *at);
        }
        Reply::Traded { hit, miss, at } => put_trade(out, *hit, *miss, *at),
        Reply::Spreaded { factors, at } => {
            out.push_str("spread ");
            put_units(out, factors.as_slice());
            put_at(out, *at);
        }
        Reply::Resolved { pair, at } => {
            put_paired(out, "resolve ", pair);
            put_at(out, *at);
        }
        Reply::Settled { at, payments } => {
            out.push_str("settle");
            put_at(out, *at);
            put_payments(out, payments.rows());
        }
        Reply::SettledAll { at, users, total } => put_settled(out, *at, *users, *total),
        Reply::Added { variable, at } => put_dated(out, "add ", variable, *at),
        Reply::Refused { why } => {
            out.push_str("refused ");
            put_refusal(out, why);
        }
        _ => put_told(out, reply),
    }
}

// The text of a reply to a question.
fn put_told(out: &mut Text, reply: &Reply)
    requires told { IsTold reply.now }
    requires empty { array_string_len out.old ≡ 0 }
    ensures text { out.new.bytes ≡ out.old.bytes ++ reply_text reply.now }
    ensures room { array_string_len out.new < MAX_ANSWER_BYTES }
{
    match reply {
        Reply::Price { low, high } => put_prices(out, *low, *high),
        Reply::Limits { limits, at } => {
            put_limited(out, "limits ", *limits);
            put_at(out, *at);
        }
        Reply::Bounded { intervals, at } => {
            put_given(out, "bounds ", intervals);
            put_at(out, *at);
        }
        Reply::Worst { low, high } => put_ends(out, "worst ", *low, *high),
        Reply::Paid { payment } => put_paid(out, payment),
        Reply::Bound { low, high } => put_ends(out, "bound ", *low, *high),
        Reply::Prices { intervals } => {
            out.push_str("prices ");
            put_all_prices(out, intervals.as_slice());
        }
        Reply::Position { intervals } => {
            out.push_str("position ");
            put_all_ends(out, intervals.as_slice());
        }
        Reply::Status {
            at,
            users,
            trades,
            most,
            transfers,
            most_transfers,
            open,
            questions,
        } => {
            out.push_str("status");
            put_at(out, *at);
            put_counted(out, " users ", *users as u64);
            put_of(out, " trades ", *trades, *most);
            put_of(out, " transfers ", *transfers, *most_transfers);
            put_of(out, " open ", *open, *questions);
        }
        _ => unreachable!(),
    }
}

fn put_named(out: &mut Text, word: &str, name: &Name)
    requires { array_string_len out.old + length word.now + 32 ≤ MAX_ANSWER_BYTES }
    ensures text { out.new.bytes ≡ out.old.bytes ++ (word.now ++ name.now) }
    ensures growth { array_string_len out.new ≤ array_string_len out.old + length word.now + 32 }
{
    out.push_str(word);
    put_name(out, name);
}

fn put_dated(out: &mut Text, word: &str, name: &Name, at: u64)
    requires { array_string_len out.old + length word.now + 56 ≤ MAX_ANSWER_BYTES }
    ensures text { out.new.bytes ≡ out.old.bytes ++ (word.now ++ (name.now ++ at_text at)) }
    ensures growth { array_string_len out.new ≤ array_string_len out.old + length word.now + 56 }
{
    put_named(out, word, name);
    put_at(out, at);
}

fn put_paired(out: &mut Text, word: &str, pair: &PairText)
    requires { array_string_len out.old + length word.now + 65 ≤ MAX_ANSWER_BYTES }
    ensures text { out.new.bytes ≡ out.old.bytes ++ (word.now ++ pair_text pair.now) }
    ensures growth { array_string_len out.new ≤ array_string_len out.old + length word.now + 65 }
{
    out.push_str(word);
    put_pair(out, pair);
}

fn put_counted(out: &mut Text, word: &str, number: u64)
    requires { array_string_len out.old + length word.now + 20 ≤ MAX_ANSWER_BYTES }
    ensures text { out.new.bytes ≡ out.old.bytes ++ (word.now ++ decimal number) }
    ensures growth { array_string_len out.new ≤ array_string_len out.old + length word.now + 20 }
{
    out.push_str(word);
    put_number(out, number);
}

fn put_of(out: &mut Text, word: &str, number: u32, most: u32)
    requires { array_string_len out.old + length word.now + 44 ≤ MAX_ANSWER_BYTES }
    ensures text { out.new.bytes ≡ out.old.bytes ++ (word.now ++ of_text (number, most)) }
    ensures growth { array_string_len out.new ≤ array_string_len out.old + length word.now + 44 }
{
    put_counted(out, word, number as u64);
    put_counted(out, " of ", most as u64);
}

fn put_ends(out: &mut Text, word: &str, low: u64, high: u64)
    requires { array_string_len out.old + length word.now + 42 ≤ MAX_ANSWER_BYTES }
    ensures text { out.new.bytes ≡ out.old.bytes ++ (word.now ++ range_text low high) }
    ensures growth { array_string_len out.new ≤ array_string_len out.old + length word.now + 42 }
{
    out.push_str(word);
    put_range(out, low, high);
}

fn put_limited(out: &mut Text, word: &str, limits: Option<(u32, u32)>)
    requires { array_string_len out.old + length word.now + 42 ≤ MAX_ANSWER_BYTES }
    ensures text { out.new.bytes ≡ out.old.bytes ++ (word.now ++ limits_text limits) }
    ensures growth { array_string_len out.new ≤ array_string_len out.old + length word.now + 42 }
{
    out.push_str(word);
    put_limits(out, limits);
}

fn put_given(out: &mut Text, word: &str, intervals: &Option<Intervals>)
    requires { array_string_len out.old + length word.now + 688 ≤ MAX_ANSWER_BYTES }
    ensures text { out.new.bytes ≡ out.old.bytes ++ (word.now ++ intervals_text (given_in intervals.now)) }
    ensures growth { array_string_len out.new ≤ array_string_len out.old + length word.now + 688 }
{
    out.push_str(word);
    match intervals {
        None => put_intervals(out, None),
        Some(given) => put_intervals(out, Some(given.as_slice())),
    }
}

fn put_prices(out: &mut Text, low: u64, high: u64)
    requires { array_string_len out.old + 70 ≤ MAX_ANSWER_BYTES }
    ensures text { out.new.bytes ≡ out.old.bytes ++ (codes "price " ++ (price_text low ++ (codes ".." ++ price_text high))) }
    ensures growth { array_string_len out.new ≤ array_string_len out.old + 70 }
{
    out.push_str("price ");
    put_price(out, low);
    out.push_str("..");
    put_price(out, high);
}

fn put_trade(out: &mut Text, hit: u64, miss: u64, at: u64)
    requires { array_string_len out.old + 71 ≤ MAX_ANSWER_BYTES }
    ensures text { out.new.bytes ≡ out.old.bytes ++ (codes "trade " ++ (decimal hit ++ (codes " " ++ (decimal miss ++ at_text at)))) }
    ensures growth { array_string_len out.new ≤ array_string_len out.old + 71 }
{
    put_counted(out, "trade ", hit);
    put_counted(out, " ", miss);
    put_at(out, at);
}

fn put_settled(out: &mut Text, at: u64, users: u32, total: u64)
    requires { array_string_len out.old + 83 ≤ MAX_ANSWER_BYTES }
    ensures text { out.new.bytes ≡ out.old.bytes ++ reply_text (SettledAll at users total) }
    ensures growth { array_string_len out.new ≤ array_string_len out.old + 83 }
{
    out.push_str("settle");
    put_at(out, at);
    put_counted(out, " users ", users as u64);
    put_counted(out, " paid ", total);
}

fn put_at(out: &mut Text, at: u64)
    requires { array_string_len out.old + 24 ≤ MAX_ANSWER_BYTES }
    ensures text { out.new.bytes ≡ out.old.bytes ++ at_text at }
    ensures growth { array_string_len out.new ≤ array_string_len out.old + 24 }
{
    put_counted(out, " at ", at);
}

fn put_payments(out: &mut Text, payments: &[Payment])
    requires few { length payments.now ≤ max_payments }
    requires room { array_string_len out.old + 26368 ≤ MAX_ANSWER_BYTES }
    ensures text { out.new.bytes ≡ out.old.bytes ++ items_text (codes ", ") payment_text payments.now }
    ensures growth { array_string_len out.new ≤ array_string_len out.old + 26368 }
{
    for payment in payments {
        out.push_str(", ");
        put_payment(out, payment);
    }
}

fn put_payment(out: &mut Text, payment: &Payment)
    requires { array_string_len out.old + 101 ≤ MAX_ANSWER_BYTES }
    ensures text { out.new.bytes ≡ out.old.bytes ++ payment_text payment.now }
    ensures growth { array_string_len out.new ≤ array_string_len out.old + 101 }
{
    put_name(out, &payment.user);
    out.push_str(" ");
    put_range(out, payment.low, payment.high);
    put_counted(out, " paid ", payment.paid);
}

fn put_paid(out: &mut Text, payment: &Payment)
    requires { array_string_len out.old + 106 ≤ MAX_ANSWER_BYTES }
    ensures text { out.new.bytes ≡ out.old.bytes ++ (codes "paid " ++ payment_text payment.now) }
    ensures growth { array_string_len out.new ≤ array_string_len out.old + 106 }
{
    out.push_str("paid ");
    put_payment(out, payment);
}

fn put_stale(out: &mut Text, named: u32, now: u64)
    requires { array_string_len out.old + 47 ≤ MAX_ANSWER_BYTES }
    ensures text { out.new.bytes ≡ out.old.bytes ++ refusal_text (Stale named now) }
    ensures growth { array_string_len out.new ≤ array_string_len out.old + 47 }
{
    put_counted(out, "stale ", named as u64);
    put_counted(out, " ", now);
}

fn put_refusal(out: &mut Text, why: &Refusal)
    requires { array_string_len out.old + 696 ≤ MAX_ANSWER_BYTES }
    ensures text { out.new.bytes ≡ out.old.bytes ++ refusal_text why.now }
    ensures growth { array_string_len out.new ≤ array_string_len out.old + 696 }
{
    match why {
        Refusal::Syntax => out.push_str("syntax"),
        Refusal::Long => out.push_str("long"),
        Refusal::Settled => out.push_str("settled"),
        Refusal::Unsettled => out.push_str("unsettled"),
        Refusal::User { user } => put_named(out, "user ", user),
        Refusal::Exists { user } => put_named(out, "exists ", user),
        Refusal::Users { held } => put_counted(out, "users ", *held as u64),
        Refusal::Unknown { pair } => put_paired(out, "name ", pair),
        Refusal::Twice { variable } => put_named(out, "twice ", variable),
        Refusal::Stale { named, now } => put_stale(out, *named, *now),
        Refusal::Resolved { variable } => put_named(out, "resolved ", variable),
        Refusal::Impossible { pair } => put_paired(out, "impossible ", pair),
        Refusal::Wide => out.push_str("wide"),
        Refusal::Range { number } => put_counted(out, "range ", *number as u64),
        Refusal::Full { held } => put_counted(out, "full ", *held as u64),
        Refusal::Beyond { limits } => put_limited(out, "beyond ", *limits),
        Refusal::Short { bits } => put_counted(out, "short ", *bits),
        Refusal::Unresolved { variable } => put_named(out, "open ", variable),
        Refusal::NoVariable { variable } => put_named(out, "variable ", variable),
        Refusal::Numbers { given } => put_counted(out, "numbers ", *given as u64),
        Refusal::Sum { sum } => put_counted(out, "sum ", *sum as u64),
        Refusal::Outside { intervals } => put_given(out, "outside ", intervals),
        Refusal::Sure { pair } => put_paired(out, "sure ", pair),
        Refusal::Variables { held } => put_counted(out, "variables ", *held as u64),
        Refusal::Taken { variable } => put_named(out, "taken ", variable),
        Refusal::ValueTwice { value } => put_named(out, "value ", value),
        Refusal::RowCount { given } => put_counted(out, "rows ", *given as u64),
        Refusal::RowWidth { row, given } => {
            put_counted(out, "width ", *row as u64);
            put_counted(out, " ", *given as u64);
        }
        Refusal::Cells { total } => put_counted(out, "cells ", *total as u64),
        Refusal::Link { number } => put_counted(out, "link ", *number as u64),
        Refusal::Uncovered { variable } => put_named(out, "cover ", variable),
        Refusal::NotRunning { variable } => put_named(out, "running ", variable),
        Refusal::Memory => out.push_str("memory"),
    }
}
