//! What a reply tells of the change that it comes back for.

ghost use Rattle.std.specs.Prelude.{◌≡◌, ◌+◌, ◌↔◌, true, length, map, IfSome, IfNone};
ghost use Rattle.mk_exact.specs.History.{revision, users};
ghost use Rattle.mk_reply.specs.declared.reply.Reply.TheVariants.{Joined, Deposited, Withdrawn, Resolved};
ghost use Rattle.mk_reply.specs.declared.reply.Reply.TheVariants.{Traded, Spreaded, Settled, SettledAll, Added};
ghost use Rattle.mk_restore.specs.Restoring.{IsTradeAt, IsSpreadAt, IsListed};
ghost use Rattle.mk_record.specs.Members.{names_of};

use arrayvec::ArrayVec;
use mk_addition::AddText;
use mk_engine::Engine;
use mk_names::Name;
use mk_net::PairText;
use mk_record::{Journal, Users};
use mk_reply::{Payment, Payments, Reply};
use mk_semiring::MinProd;

/// Whether a revision is that behind the next change.
fn is_next(journal: &Journal, at: u64) -> bool
    ensures { (result ≡ true) ↔ (at ≡ revision journal.now.history + 1) }
{
    at > 0 && at - 1 == journal.revision()
}

/// Whether a reply tells that the user joined by the next change.
pub fn tells_join(journal: &Journal, name: &Name, reply: &Reply) -> bool
    ensures { (result ≡ true) ↔ (reply.now ≡ Joined name.now (revision journal.now.history + 1)) }
{
    match reply {
        Reply::Joined { user, at } => user == name && is_next(journal, *at),
        _ => false,
    }
}

/// Whether a reply tells that the user paid in so many bits by the next change.
pub fn tells_deposit(journal: &Journal, name: &Name, bits: u32, reply: &Reply) -> bool
    ensures { (result ≡ true) ↔ (reply.now ≡ Deposited name.now bits
        (revision journal.now.history + 1)) }
{
    match reply {
        Reply::Deposited {
            user,
            bits: told,
            at,
        } if *told == bits => user == name && is_next(journal, *at),
        _ => false,
    }
}

/// Whether a reply tells that the user took out so many bits by the next change.
pub fn tells_withdrawal(journal: &Journal, name: &Name, bits: u32, reply: &Reply) -> bool
    ensures { (result ≡ true) ↔ (reply.now ≡ Withdrawn name.now bits
        (revision journal.now.history + 1)) }
{
    match reply {
        Reply::Withdrawn {
            user,
            bits: told,
            at,
        } if *told == bits => user == name && is_next(journal, *at),
        _ => false,
    }
}

/// Whether a reply tells that a variable was resolved by the next change.
pub fn tells_resolution(journal: &Journal, words: &PairText, reply: &Reply) -> bool
    ensures { (result ≡ true) ↔ (reply.now ≡ Resolved words.now
        (revision journal.now.history + 1)) }
{
    match reply {
        Reply::Resolved { pair, at } => pair == words && is_next(journal, *at),
        _ => false,
    }
}

/// Whether a reply tells that the question of these words was added by the next change.
pub fn tells_addition(journal: &Journal, add: &AddText, reply: &Reply) -> bool
    ensures { (result ≡ true) ↔ (reply.now ≡ Added add.now.variable
        (revision journal.now.history + 1)) }
{
    match reply {
        Reply::Added { variable, at } => *variable == add.variable && is_next(journal, *at),
        _ => false,
    }
}

/// The units of a trade of a question that a reply tells of as the next change, whatever they are.
pub fn told_units(journal: &Journal, reply: &Reply) -> Option<(u64, u64)>
    ensures some { IfSome result (λ units. reply.now ≡
        Traded units.0 units.1 (revision journal.now.history + 1)) }
    ensures none { IfNone result (IsTradeAt (revision journal.now.history + 1) reply.now → ⊥) }
{
    match reply {
        Reply::Traded { hit, miss, at } if is_next(journal, *at) => Some((*hit, *miss)),
        _ => None,
    }
}

/// The factors of a spread over so many shares that a reply tells of as the next change, whatever
/// they are.
pub fn told_factors<'a>(
    journal: &Journal,
    shares: &[u32],
    reply: &'a Reply,
) -> Option<&'a ArrayVec<u64, 16>>
    ensures some { IfSome result (λ factors. reply.now ≡
        Spreaded factors.now (revision journal.now.history + 1)) }
    ensures one_each { IfSome result (λ factors. length factors.now.items ≡ length shares.now) }
    ensures none { IfNone result (IsSpreadAt (revision journal.now.history + 1) shares.now reply.now
        → ⊥) }
{
    match reply {
        Reply::Spreaded { factors, at } if factors.len() == shares.len() && is_next(journal, *at) =>
            Some(factors),
        _ => None,
    }
}

/// The payments of a settlement that a reply tells of as the next change, one for each user in the
/// order of joining, whatever they are.
pub fn told_payments<'a, A: Engine<MinProd>>(
    journal: &Journal,
    users: &Users<A>,
    reply: &'a Reply,
) -> Option<&'a Payments>
    ensures some { IfSome result (λ payments. reply.now ≡
        Settled (revision journal.now.history + 1) payments.now) }
    ensures in_order { IfSome result (λ payments. map (λ p. p.user) payments.now
        ≡ names_of users.now) }
    ensures none { IfNone result (IsListed (revision journal.now.history + 1)
        (names_of users.now) reply.now → ⊥) }
{
    match reply {
        Reply::Settled { at, payments }
            if is_next(journal, *at) && pays_each(users, payments.rows()) => Some(payments),
        _ => None,
    }
}

/// Whether a reply tells of the next change that so many points are paid to all users by rule.
pub fn tells_total(journal: &Journal, total: u64, reply: &Reply) -> bool
    ensures { (result ≡ true) ↔ (reply.now ≡ SettledAll (revision journal.now.history + 1)
        (length (users journal.now.history)) total) }
{
    match reply {
        Reply::SettledAll {
            at,
            users,
            total: told,
        } => is_next(journal, *at) && *users == journal.joined() && *told == total,
        _ => false,
    }
}

/// Whether there is one payment for each user, in the order of joining.
fn pays_each<A: Engine<MinProd>>(users: &Users<A>, payments: &[Payment]) -> bool
    ensures { (result ≡ true) ↔ (map (λ p. p.user) payments.now ≡ names_of users.now) }
{
    if payments.len() != users.count() as usize {
        return false;
    }
    for user in 0..users.count() {
        if payments[user as usize].user != users.name(user) {
            return false;
        }
    }
    true
}
