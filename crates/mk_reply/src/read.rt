//! Reading a reply.

ghost use Rattle.std.specs.Prelude.{◌≡◌, ℕ, List, IfOk, IfErr, option_map, [], ◌++◌, codes};
ghost use Rattle.mk_text.specs.Reading.{Finds, behind};
ghost use Rattle.mk_reply.specs.Replies.{IsReply, reply_text, IsUnread, IsCausedBy};
ghost use Rattle.mk_reply.specs.Replies.{BeginsSettlement, BeginsWithRevision};
ghost use Rattle.mk_reply.specs.Reading.{read_long, read_joined, read_moved, read_prices, read_limited, read_traded, read_bounded, read_spreaded, read_worst, read_bound, read_resolved, read_payment, read_payments, read_other, read_form};
ghost use Rattle.mk_reply.specs.Reading.{read_many_users, read_settled_all, read_settled};
ghost use Rattle.mk_reply.specs.Reading.{read_all_prices, read_position, read_added};
ghost use Rattle.mk_reply.specs.Reading.{read_paid, read_later};
ghost use Rattle.mk_reply.specs.Reading.{read_of, read_transfers, read_status};

use crate::payments::{Payment, Payments};
use crate::read_refusal::{long, narrow, refusal};
use crate::reply::Reply;
use crate::unread::Unread;
use mk_names::Name;
use mk_names::limits::{MAX_PAYMENTS, MAX_USERS};
use mk_net::NoMemory;
use mk_text::{Item, Reader, intervals, several};
use std::alloc::Global;

/// The reply of which these bytes are the text. Memory is wanting only behind the word and the
/// revision of a settlement.
pub fn read_reply(alloc: Global, line: &[u8]) -> Result<Reply, Unread>
    ensures found { IfOk result (λ r. IsReply r × (line.now ≡ reply_text r)) }
    ensures unread { IfErr result (IsUnread line.now) }
    ensures cause { IfErr result (IsCausedBy line.now) }
{
    let mut reader = Reader::new(line);
    let Some(reply) = reply(alloc, &mut reader)? else {
        return Err(Unread::Syntax);
    };
    if reader.is_at_end() {
        Ok(reply)
    } else {
        Err(Unread::Syntax)
    }
}

#[tactic(auto, unfolding(crate::specs::Reading::read_form))]
fn reply(alloc: Global, reader: &mut Reader) -> Result<Option<Reply>, NoMemory>
    ensures found { IfOk result (λ found. Finds found reader.new (read_form reader.old)) }
    ensures memory { IfErr result (λ _. (rest : List ℕ) × (reader.old ≡ codes "settle" ++ rest)) }
    ensures begins { IfErr result (λ _. BeginsSettlement reader.old) }
{
    if reader.skip(b"settle") {
        settled(alloc, reader)
    } else {
        Ok(other(reader))
    }
}

/// A reply that is no settlement.
#[tactic(auto, unfolding(crate::specs::Reading::read_other))]
fn other(reader: &mut Reader) -> Option<Reply>
    ensures { Finds result reader.new (read_other reader.old) }
{
    if reader.skip(b"user ") {
        return joined(reader);
    }
    if reader.skip(b"deposit ") {
        let (user, bits, at) = moved(reader)?;
        return Some(Reply::Deposited { user, bits, at });
    }
    if reader.skip(b"withdraw ") {
        let (user, bits, at) = moved(reader)?;
        return Some(Reply::Withdrawn { user, bits, at });
    }
    if reader.skip(b"price ") {
        return prices(reader);
    }
    if reader.skip(b"limits ") {
        return limited(reader);
    }
    if reader.skip(b"trade ") {
        return traded(reader);
    }
    if reader.skip(b"bounds ") {
        return bounded(reader);
    }
    if reader.skip(b"spread ") {
        return spreaded(reader);
    }
    if reader.skip(b"worst ") {
        return worst(reader);
    }
    if reader.skip(b"resolve ") {
        return resolved(reader);
    }
    if reader.skip(b"refused ") {
        let why = refusal(reader)?;
        return Some(Reply::Refused { why });
    }
    later(reader)
}

// The forms that are looked for behind all others.
#[tactic(auto, unfolding(crate::specs::Reading::read_later))]
fn later(reader: &mut Reader) -> Option<Reply>
    ensures { Finds result reader.new (read_later reader.old) }
{
    if reader.skip(b"bound ") {
        return bound(reader);
    }
    if reader.skip(b"paid ") {
        return paid(reader);
    }
    if reader.skip(b"prices ") {
        return all_prices(reader);
    }
    if reader.skip(b"position ") {
        return position(reader);
    }
    if reader.skip(b"status at ") {
        return status(reader);
    }
    if reader.skip(b"add ") {
        return added(reader);
    }
    None
}

/// The revision after a reply.
fn revision(reader: &mut Reader) -> Option<u64>
    ensures { Finds result reader.new (behind (codes " at ") read_long reader.old) }
{
    reader.expect(b" at ")?;
    long(reader)
}

#[tactic(auto, unfolding(crate::specs::Reading::read_joined))]
fn joined(reader: &mut Reader) -> Option<Reply>
    ensures { Finds result reader.new (read_joined reader.old) }
{
    let user = reader.name()?;
    let at = revision(reader)?;
    Some(Reply::Joined { user, at })
}

#[tactic(auto, unfolding(crate::specs::Reading::read_moved))]
fn moved(reader: &mut Reader) -> Option<(Name, u32, u64)>
    ensures { Finds (option_map (λ moved. (moved.0, (moved.1, moved.2))) result) reader.new (read_moved reader.old) }
{
    let user = reader.name()?;
    reader.expect(b" ")?;
    let bits = narrow(reader)?;
    let at = revision(reader)?;
    Some((user, bits, at))
}

#[tactic(auto, unfolding(crate::specs::Reading::read_prices))]
fn prices(reader: &mut Reader) -> Option<Reply>
    ensures { Finds result reader.new (read_prices reader.old) }
{
    let low = reader.price()?;
    reader.expect(b"..")?;
    let high = reader.price()?;
    Some(Reply::Price { low, high })
}

#[tactic(auto, unfolding(crate::specs::Reading::read_limited))]
fn limited(reader: &mut Reader) -> Option<Reply>
    ensures { Finds result reader.new (read_limited reader.old) }
{
    let limits = reader.limits()?;
    let at = revision(reader)?;
    Some(Reply::Limits { limits, at })
}

#[tactic(auto, unfolding(crate::specs::Reading::read_traded))]
fn traded(reader: &mut Reader) -> Option<Reply>
    ensures { Finds result reader.new (read_traded reader.old) }
{
    let hit = u64::next(reader)?;
    reader.expect(b" ")?;
    let miss = u64::next(reader)?;
    let at = revision(reader)?;
    Some(Reply::Traded { hit, miss, at })
}

#[tactic(auto, using(crate::proofs::RefusalLaws::boxed_same), unfolding(crate::specs::Reading::read_bounded))]
fn bounded(reader: &mut Reader) -> Option<Reply>
    ensures { Finds result reader.new (read_bounded reader.old) }
{
    let intervals = intervals(reader)?;
    let at = revision(reader)?;
    Some(Reply::Bounded { intervals, at })
}

#[tactic(auto, unfolding(crate::specs::Reading::read_spreaded))]
fn spreaded(reader: &mut Reader) -> Option<Reply>
    ensures { Finds result reader.new (read_spreaded reader.old) }
{
    let factors = several(reader)?;
    let at = revision(reader)?;
    Some(Reply::Spreaded { factors, at })
}

#[tactic(auto, unfolding(crate::specs::Reading::read_worst))]
fn worst(reader: &mut Reader) -> Option<Reply>
    ensures { Finds result reader.new (read_worst reader.old) }
{
    let (low, high) = reader.range(1 << 63)?;
    Some(Reply::Worst { low, high })
}

#[tactic(auto, unfolding(crate::specs::Reading::read_bound))]
fn bound(reader: &mut Reader) -> Option<Reply>
    ensures { Finds result reader.new (read_bound reader.old) }
{
    let (low, high) = reader.range(1 << 63)?;
    Some(Reply::Bound { low, high })
}

#[tactic(auto, unfolding(crate::specs::Reading::read_paid))]
fn paid(reader: &mut Reader) -> Option<Reply>
    ensures { Finds result reader.new (read_paid reader.old) }
{
    let payment = payment(reader)?;
    Some(Reply::Paid { payment })
}

#[tactic(auto, unfolding(crate::specs::Reading::read_all_prices))]
fn all_prices(reader: &mut Reader) -> Option<Reply>
    ensures { Finds result reader.new (read_all_prices reader.old) }
{
    let intervals = several(reader)?;
    Some(Reply::Prices { intervals })
}

#[tactic(auto, unfolding(crate::specs::Reading::read_position))]
fn position(reader: &mut Reader) -> Option<Reply>
    ensures { Finds result reader.new (read_position reader.old) }
{
    let intervals = several(reader)?;
    Some(Reply::Position { intervals })
}

#[tactic(auto, unfolding(crate::specs::Reading::read_status))]
fn status(reader: &mut Reader) -> Option<Reply>
    ensures { Finds result reader.new (read_status reader.old) }
{
    let at = long(reader)?;
    reader.expect(b" users ")?;
    let users = narrow(reader)?;
    reader.expect(b" trades ")?;
    let (trades, most) = number_of(reader)?;
    let ((transfers, most_transfers), (open, questions)) = transfers(reader)?;
    Some(Reply::Status {
        at,
        users,
        trades,
        most,
        transfers,
        most_transfers,
        open,
        questions,
    })
}

/// What stands behind the trades of a status.
#[tactic(auto, unfolding(crate::specs::Reading::read_transfers))]
fn transfers(reader: &mut Reader) -> Option<((u32, u32), (u32, u32))>
    ensures { Finds result reader.new (read_transfers reader.old) }
{
    reader.expect(b" transfers ")?;
    let transfers = number_of(reader)?;
    reader.expect(b" open ")?;
    let open = number_of(reader)?;
    Some((transfers, open))
}

/// A number, and how many there may be.
#[tactic(auto, unfolding(crate::specs::Reading::read_of))]
fn number_of(reader: &mut Reader) -> Option<(u32, u32)>
    ensures { Finds result reader.new (read_of reader.old) }
{
    let number = narrow(reader)?;
    reader.expect(b" of ")?;
    let most = narrow(reader)?;
    Some((number, most))
}

#[tactic(auto, unfolding(crate::specs::Reading::read_resolved))]
fn resolved(reader: &mut Reader) -> Option<Reply>
    ensures { Finds result reader.new (read_resolved reader.old) }
{
    let pair = reader.pair()?;
    let at = revision(reader)?;
    Some(Reply::Resolved { pair, at })
}

#[tactic(auto, unfolding(crate::specs::Reading::read_added))]
fn added(reader: &mut Reader) -> Option<Reply>
    ensures { Finds result reader.new (read_added reader.old) }
{
    let variable = reader.name()?;
    let at = revision(reader)?;
    Some(Reply::Added { variable, at })
}

#[tactic(auto, unfolding(crate::specs::Reading::read_settled))]
fn settled(alloc: Global, reader: &mut Reader) -> Result<Option<Reply>, NoMemory>
    ensures found { IfOk result (λ found. Finds found reader.new (read_settled reader.old)) }
    ensures begins { IfErr result (λ _. BeginsWithRevision reader.old) }
{
    let Some(at) = revision(reader) else {
        return Ok(None);
    };
    if reader.skip(b" users ") {
        return Ok(settled_all(reader, at));
    }
    let mut payments = Payments::start(alloc)?;
    match read_payments(reader, &mut payments) {
        Some(()) => Ok(Some(Reply::Settled { at, payments })),
        None => Ok(None),
    }
}

/// What stands behind the revision where a settlement does not list its payments.
#[tactic(auto, unfolding(crate::specs::Reading::read_settled_all))]
fn settled_all(reader: &mut Reader, at: u64) -> Option<Reply>
    ensures { Finds result reader.new (read_settled_all at reader.old) }
{
    let users = many_users(reader)?;
    reader.expect(b" paid ")?;
    let total = long(reader)?;
    Some(Reply::SettledAll { at, users, total })
}

/// A number of users who are more than a settlement lists.
#[tactic(auto, unfolding(crate::specs::Reading::read_many_users))]
fn many_users(reader: &mut Reader) -> Option<u32>
    ensures { Finds result reader.new (read_many_users reader.old) }
{
    let users = narrow(reader)?;
    if MAX_PAYMENTS < users && users <= MAX_USERS {
        Some(users)
    } else {
        None
    }
}

fn read_payments(reader: &mut Reader, payments: &mut Payments) -> Option<()>
    requires { payments.old ≡ [] }
    ensures { Finds (option_map (λ _. payments.new) result) reader.new (read_payments reader.old) }
{
    'payments: for _ in 0..256usize {
        if !reader.skip(b", ") {
            return Some(());
        }
        payments.push(payment(reader)?);
    }
    Some(())
}

#[tactic(auto, unfolding(crate::specs::Reading::read_payment))]
fn payment(reader: &mut Reader) -> Option<Payment>
    ensures { Finds result reader.new (read_payment reader.old) }
{
    let user = reader.name()?;
    reader.expect(b" ")?;
    let (low, high) = reader.range(1 << 63)?;
    reader.expect(b" paid ")?;
    let paid = long(reader)?;
    if paid != low {
        return None;
    }
    Some(Payment {
        user,
        low,
        high,
        paid,
    })
}
