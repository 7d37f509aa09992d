//! What each command is refused for, first to last.

ghost use Rattle.std.specs.Prelude.{◌≡◌, ◌≤◌, ◌<◌, ℕ, List, [], ◌∷◌, length, true, nat_le, is_none, Some, None, IfOk, IfSome, position};
ghost use Rattle.mk_record.specs.Below.{count_by, pairs_asked, max_transfer_bits, million};
ghost use Rattle.mk_record.specs.Below.{fault_if, first_of, pair_named, variable_named, Variable};
ghost use Rattle.mk_record.specs.Below.{Market, IsPairOf, IsQuestionOf, home, market_of};
ghost use Rattle.mk_exact.specs.History as history;
ghost use Rattle.mk_command.specs.declared.command.Command.TheVariants as command;
ghost use Rattle.mk_rules.specs.Refusals as rules;
ghost use Rattle.mk_record.specs.Members.{names_of};
ghost use Rattle.mk_record.specs.Refused.{refusal_in, IsUser, IsQuestionFor, HasRoomForUser, HasRoomForTransfer, CanBeTraded, CanBeResolved, CanBeSettled};

use crate::asking::{ask, ask_plain, known};
use crate::journal::Journal;
use crate::requests::{EditWish, Request};
use crate::users::Users;
use mk_engine::Engine;
use mk_file::MarketFile;
use mk_names::Name;
use mk_names::limits::{MAX_SHARE, MAX_TRANSFER_BITS};
use mk_net::{Event, Network, Pair, PairText, Question, QuestionText};
use mk_reply::Refusal;
use mk_semiring::MinProd;
use mk_tree::Tree;

/// What `user` is refused for: a settlement, a user of the name, and as many users as a market holds.
pub fn refuse_user<A: Engine<MinProd>>(
    journal: &Journal,
    users: &Users<A>,
    name: &Name,
) -> Result<(), Refusal>
    requires named { names_of users.now ≡ history.users journal.now.history }
    ensures refusal { (market : Market) → journal.now.max_users ≡ market.max_users
        → refusal_in result ≡ rules.first_refusal market journal.now.history (command.User name.now) }
    ensures room { IfOk result (λ _. HasRoomForUser journal.now name.now) }
{
    not_settled(journal)?;
    not_joined(users, name)?;
    room_for_user(journal)
}

/// What `deposit` and `withdraw` are refused for: a settlement, an unknown user, no bits or too many, and as many
/// transfers as a market takes.
pub fn refuse_transfer<A: Engine<MinProd>>(
    journal: &Journal,
    users: &Users<A>,
    name: &Name,
    bits: u32,
) -> Result<u32, Refusal>
    requires named { names_of users.now ≡ history.users journal.now.history }
    ensures deposit { (market : Market) → journal.now.max_transfers ≡ market.max_transfers
        → refusal_in result ≡ rules.first_refusal market journal.now.history (command.Deposit name.now bits) }
    ensures withdrawal { (market : Market) → journal.now.max_transfers ≡ market.max_transfers
        → refusal_in result ≡ rules.first_refusal market journal.now.history (command.Withdraw name.now bits) }
    ensures user { IfOk result (λ user. IsUser journal.now.history name.now user) }
    ensures room { IfOk result (λ _. HasRoomForTransfer journal.now bits) }
{
    not_settled(journal)?;
    let user = find_user(users, name)?;
    in_range(bits, MAX_TRANSFER_BITS)?;
    room_for_transfer(journal)?;
    Ok(user)
}

/// What `price` is refused for by the record: a settlement, a pair that is unknown, a variable that
/// occurs twice, a target that is resolved, a condition that a resolution contradicts, and a
/// question that no clique holds. Else the question has a home.
pub fn refuse_price(
    file: &MarketFile,
    journal: &Journal,
    question: &QuestionText,
) -> Result<(Question, u32), Refusal>
    ensures refusal { refusal_in result ≡ first_of (rules.refusals_by_record (market_of file.now) journal.now.history (command.Price question.now)) }
    ensures question { IfOk result (λ found. IsQuestionFor (market_of file.now) file.now.tree
        journal.now.history question.now found.0) }
    ensures home { IfOk result (λ found. home file.now.tree (pairs_asked found.0) ≡ Some found.1) }
{
    not_settled(journal)?;
    let asked = ask(&file.net, question)?;
    let home = can_be_answered(file, journal, question, &asked)?;
    Ok((asked, home))
}

/// The question of a price without a condition that the record does not refuse, and its home. None
/// says nothing: no step to it can hold a refusal, which would cost more than the step.
pub fn plain_price(
    file: &MarketFile,
    journal: &Journal,
    question: &QuestionText,
) -> Option<(Question, u32)>
    ensures refusal { IfSome result (λ found. first_of
        (rules.refusals_by_record (market_of file.now) journal.now.history
        (command.Price question.now)) ≡ None) }
    ensures question { IfSome result (λ found. IsQuestionFor (market_of file.now) file.now.tree
        journal.now.history question.now found.0) }
    ensures home { IfSome result (λ found. home file.now.tree (pairs_asked found.0) ≡ Some found.1) }
{
    if journal.is_settled() || !question.condition.is_empty() {
        return None;
    }
    let asked = ask_plain(&file.net, question)?;
    if journal.is_resolved(asked.target().variable) {
        return None;
    }
    let home = file.tree.home(&asked.event())?;
    Some((asked, home))
}

/// What `limits` is refused for by the record: as a price, and behind a settlement for an unknown user.
pub fn refuse_limits<A: Engine<MinProd>>(
    file: &MarketFile,
    journal: &Journal,
    users: &Users<A>,
    name: &Name,
    question: &QuestionText,
) -> Result<Request, Refusal>
    requires named { names_of users.now ≡ history.users journal.now.history }
    ensures refusal { refusal_in result ≡ first_of (rules.refusals_by_record (market_of file.now) journal.now.history (command.Limits name.now question.now)) }
    ensures user { IfOk result (λ found. IsUser journal.now.history name.now found.user) }
    ensures question { IfOk result (λ found. IsQuestionFor (market_of file.now) file.now.tree
        journal.now.history question.now found.question) }
    ensures home { IfOk result (λ found. home file.now.tree (pairs_asked found.question) ≡ Some
        found.home) }
{
    not_settled(journal)?;
    let user = find_user(users, name)?;
    let asked = ask(&file.net, question)?;
    let home = can_be_answered(file, journal, question, &asked)?;
    Ok(Request {
        user,
        question: asked,
        home,
    })
}

/// What `edit` is refused for by the record: as `limits`, behind a variable that occurs twice for a
/// revision that is not the present one, and at last for a share outside of 1 to 999,999, and for as many trades as the
/// market takes.
pub fn refuse_edit<A: Engine<MinProd>>(
    file: &MarketFile,
    journal: &Journal,
    users: &Users<A>,
    name: &Name,
    wish: &EditWish,
) -> Result<Request, Refusal>
    requires named { names_of users.now ≡ history.users journal.now.history }
    requires max_trades { journal.now.max_trades ≡ file.now.max_trades }
    ensures refusal { refusal_in result ≡ first_of
        (rules.refusals_by_record (market_of file.now) journal.now.history
        (command.Edit name.now wish.now.question.now wish.now.to wish.now.at)) }
    ensures user { IfOk result (λ found. IsUser journal.now.history name.now found.user) }
    ensures question { IfOk result (λ found. IsQuestionFor (market_of file.now) file.now.tree
        journal.now.history wish.now.question.now found.question) }
    ensures home { IfOk result (λ found. home file.now.tree (pairs_asked found.question) ≡ Some
        found.home) }
    ensures room { IfOk result (λ _. CanBeTraded journal.now wish.now.to) }
{
    not_settled(journal)?;
    let user = find_user(users, name)?;
    let asked = ask(&file.net, wish.question)?;
    not_stale(journal, wish.at)?;
    let home = can_be_answered(file, journal, wish.question, &asked)?;
    in_range(wish.to, MAX_SHARE)?;
    room_for_trade(journal)?;
    Ok(Request {
        user,
        question: asked,
        home,
    })
}

/// What `worst` is refused for: a settlement, and an unknown user.
pub fn refuse_worst<A: Engine<MinProd>>(
    journal: &Journal,
    users: &Users<A>,
    name: &Name,
) -> Result<u32, Refusal>
    requires named { names_of users.now ≡ history.users journal.now.history }
    ensures refusal { (market : Market) → refusal_in result ≡ rules.first_refusal market journal.now.history (command.Worst name.now) }
    ensures user { IfOk result (λ user. IsUser journal.now.history name.now user) }
{
    not_settled(journal)?;
    find_user(users, name)
}

/// What `paid` is refused for: a market that is not settled, and an unknown user.
pub fn refuse_paid<A: Engine<MinProd>>(
    journal: &Journal,
    users: &Users<A>,
    name: &Name,
) -> Result<u32, Refusal>
    requires named { names_of users.now ≡ history.users journal.now.history }
    ensures refusal { (market : Market) → refusal_in result ≡ rules.first_refusal market journal.now.history (command.Paid name.now) }
    ensures user { IfOk result (λ user. IsUser journal.now.history name.now user) }
    ensures settled { IfOk result (λ _. history.is_settled journal.now.history ≡ true) }
{
    is_paid_out(journal)?;
    find_user(users, name)
}

/// What `resolve` is refused for by the record: a settlement, a pair that is unknown, and a variable that is resolved.
pub fn refuse_resolve(
    file: &MarketFile,
    journal: &Journal,
    words: &PairText,
) -> Result<Pair, Refusal>
    ensures refusal { refusal_in result ≡ first_of (rules.refusals_by_record (market_of file.now) journal.now.history (command.Resolve words.now)) }
    ensures named { IfOk result (λ pair. pair_named file.now.net words.now ≡ Some pair) }
    ensures pair { IfOk result (λ pair. CanBeResolved file.now.net journal.now.history pair) }
{
    not_settled(journal)?;
    let pair = known(&file.net, words)?;
    not_resolved(journal, &words.variable, pair.variable)?;
    Ok(pair)
}

/// What `settle` is refused for: a settlement, and the first variable that is not resolved.
pub fn refuse_settle(file: &MarketFile, journal: &Journal) -> Result<(), Refusal>
    ensures refusal { refusal_in result ≡ rules.first_refusal (market_of file.now) journal.now.history command.Settle }
    ensures resolved { IfOk result (λ _. CanBeSettled file.now.net journal.now.history) }
{
    not_settled(journal)?;
    all_resolved(&file.net, journal)
}

/// The home of a question. It is refused by its target, its condition and its cliques, in this
/// order.
fn can_be_answered(
    file: &MarketFile,
    journal: &Journal,
    question: &QuestionText,
    asked: &Question,
) -> Result<u32, Refusal>
    requires named { rules.question_named file.now.net question.now ≡ Some asked.now }
    requires known { rules.unknown file.now.net (rules.pairs_of question.now) ≡ None }
    ensures refusal { refusal_in result ≡ first_of (rules.resolved file.now.net journal.now.history question.now.target.variable
        ∷ rules.impossible file.now.net journal.now.history question.now.condition.items
        ∷ rules.wide_question (market_of file.now) journal.now.history question.now ∷ []) }
    ensures question { IfOk result (λ _. IsQuestionFor (market_of file.now) file.now.tree journal.now.history question.now asked.now) }
    ensures home { IfOk result (λ found. home file.now.tree (pairs_asked asked.now) ≡ Some found) }
{
    not_resolved(journal, &question.target.variable, asked.target().variable)?;
    agrees(journal, &asked.condition(), question.condition.as_slice())?;
    home_in(&file.tree, &asked.event())
}

/// Refuses where a test passes.
pub fn refuse_if(test: bool, why: Refusal) -> Result<(), Refusal>
    ensures { refusal_in result ≡ fault_if test why }
{
    if test { Err(why) } else { Ok(()) }
}

/// Refuses every command behind a settlement.
pub fn not_settled(journal: &Journal) -> Result<(), Refusal>
    ensures { refusal_in result ≡ rules.settled journal.now.history }
{
    refuse_if(journal.is_settled(), Refusal::Settled)
}

/// Nothing was paid before a settlement.
fn is_paid_out(journal: &Journal) -> Result<(), Refusal>
    ensures { refusal_in result ≡ rules.unsettled journal.now.history }
{
    refuse_if(!journal.is_settled(), Refusal::Unsettled)
}

fn not_joined<A: Engine<MinProd>>(users: &Users<A>, name: &Name) -> Result<(), Refusal>
    ensures { (H : List history.Entry) → names_of users.now ≡ history.users H → refusal_in result ≡ rules.exists H name.now }
{
    refuse_if(users.find(name).is_some(), Refusal::Exists { user: *name })
}

fn room_for_user(journal: &Journal) -> Result<(), Refusal>
    ensures { refusal_in result ≡ fault_if (nat_le journal.now.max_users
        (length (history.users journal.now.history))) (Refusal.Users journal.now.max_users) }
{
    refuse_if(
        journal.joined() >= journal.max_users(),
        Refusal::Users {
            held: journal.max_users(),
        },
    )
}

pub(crate) fn find_user<A: Engine<MinProd>>(users: &Users<A>, name: &Name) -> Result<u32, Refusal>
    ensures refusal { (H : List history.Entry) → names_of users.now ≡ history.users H → refusal_in result ≡ rules.no_user H name.now }
    ensures user { (H : List history.Entry) → names_of users.now ≡ history.users H → IfOk result (λ user. IsUser H name.now user) }
{
    users.find(name).ok_or(Refusal::User { user: *name })
}

pub(crate) fn in_range(number: u32, most: u32) -> Result<(), Refusal>
    ensures { refusal_in result ≡ rules.range most number }
{
    refuse_if(number < 1 || number > most, Refusal::Range { number })
}

fn room_for_transfer(journal: &Journal) -> Result<(), Refusal>
    ensures { refusal_in result ≡ rules.full journal.now.max_transfers (count_by history.is_transfer journal.now.history) }
{
    refuse_if(
        journal.transfers() >= journal.max_transfers(),
        Refusal::Full {
            held: journal.max_transfers(),
        },
    )
}

pub(crate) fn room_for_trade(journal: &Journal) -> Result<(), Refusal>
    ensures { refusal_in result ≡ rules.full journal.now.max_trades (length (history.trades journal.now.history)) }
{
    refuse_if(
        journal.trades() >= journal.max_trades(),
        Refusal::Full {
            held: journal.max_trades(),
        },
    )
}

/// A revision that is named is to be the present one.
pub(crate) fn not_stale(journal: &Journal, at: Option<u32>) -> Result<(), Refusal>
    ensures { refusal_in result ≡ rules.stale journal.now.history at }
{
    match at {
        None => Ok(()),
        Some(named) => {
            let now = journal.revision();
            refuse_if(named as u64 != now, Refusal::Stale { named, now })
        }
    }
}

/// A variable of a name is not to be resolved.
pub(crate) fn not_resolved(journal: &Journal, name: &Name, variable: u32) -> Result<(), Refusal>
    ensures { (network : List Variable) (named : Variable) → variable_named network name.now ≡ Some (variable, named)
        → refusal_in result ≡ rules.resolved network journal.now.history name.now }
{
    refuse_if(
        journal.is_resolved(variable),
        Refusal::Resolved { variable: *name },
    )
}

/// No resolution is to contradict a pair of a condition, which the words name.
pub(crate) fn agrees(
    journal: &Journal,
    condition: &Event,
    words: &[PairText],
) -> Result<(), Refusal>
    requires one_each { length condition.now ≡ length words.now }
    ensures { (network : List Variable) → rules.unknown network words.now ≡ None → condition.now ≡ rules.known_pairs network words.now
        → refusal_in result ≡ rules.impossible network journal.now.history words.now }
{
    match first_contradicted(journal, condition.pairs()) {
        Some(place) => Err(Refusal::Impossible { pair: words[place] }),
        None => Ok(()),
    }
}

/// The place of the first pair that a resolution contradicts.
fn first_contradicted(journal: &Journal, pairs: &[Pair]) -> Option<usize>
    ensures first { result ≡ position (rules.contradicts journal.now.history) pairs.now }
    ensures within { IfSome result (λ place. place < length pairs.now) }
{
    pairs.iter().position(|pair| journal.contradicts(*pair))
}

/// The home of the event of a question. It is refused where no clique holds it.
pub(crate) fn home_in(tree: &Tree, event: &Event) -> Result<u32, Refusal>
    ensures refusal { refusal_in result ≡ fault_if (is_none (home tree.now event.now)) Refusal.Wide }
    ensures home { IfOk result (λ found. home tree.now event.now ≡ Some found) }
{
    tree.home(event).ok_or(Refusal::Wide)
}

/// Each variable is to be resolved.
fn all_resolved(net: &Network, journal: &Journal) -> Result<(), Refusal>
    ensures { refusal_in result ≡ rules.unresolved net.now journal.now.history }
{
    for variable in 0..net.variables() {
        if !journal.is_resolved(variable) {
            return Err(Refusal::Unresolved {
                variable: net.name(variable),
            });
        }
    }
    Ok(())
}
