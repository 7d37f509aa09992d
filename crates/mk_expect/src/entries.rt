//! What the entries of a history add.
ghost use Rattle.std.specs.Prelude.{◌≡◌, ℕ, ◌+◌, ◌*◌, ◌^◌, List, ◌==◌, if◌then◌else◌};
ghost use Rattle.mk_expect.specs.Below.{Variable, Meaning, change_of};
ghost use Rattle.mk_exact.specs.History as exact;
ghost use Rattle.mk_expect.specs.Expectation.{AreBits};
ghost use Rattle.mk_expect.specs.inner.Added.{AddsEntry, AddsEntries};
ghost use Rattle.mk_expect.specs.inner.Shares.{HasWhole, CanAdd, CanAddAll};
ghost use Rattle.mk_expect.specs.inner.Tallies.{AddsUp};

use crate::points::PARTS;
use crate::tally::{Tally, no_tally, sum_of};
use crate::trades::trade_tally;
use mk_enclose::Enclosure;
use mk_engine::Engine;
use mk_history::Entry;
use mk_record::Journal;
use mk_semiring::SumProd;
use mk_tree::Tree;

/// The tally of a user's entries, asked of an engine that has the weights after all of them. It
/// leaves what the engine stands for as it was.
pub(crate) fn entries_tally<E: Engine<SumProd>>(
    engine: &mut E,
    tree: &Tree,
    history: &Journal,
    user: u32,
    whole: &Enclosure,
) -> Tally
    requires { CanAddAll E.stands_for engine.old tree.now history.now.history user whole.now }
    ensures { (network : List Variable)
        → HasWhole E.stands_for engine.old network tree.now history.now.history whole.now
        → (bits : ℕ → ℕ) → AreBits bits
        → AddsEntries network history.now.history bits user history.now.history result }
{
    let mut tally = no_tally();
    for number in 0..history.length() {
        let entry = history.entry(number);
        tally = sum_of(&tally, &entry_tally(engine, tree, &entry, user, whole));
    }
    tally
}

/// The tally of one entry. It leaves what the engine stands for as it was.
fn entry_tally<E: Engine<SumProd>>(
    engine: &mut E,
    tree: &Tree,
    entry: &Entry<'_>,
    user: u32,
    whole: &Enclosure,
) -> Tally
    requires { CanAdd E.stands_for engine.old tree.now (change_of entry.now) whole.now }
    ensures kept { (m : Meaning) → E.stands_for engine.old m → E.stands_for engine.new m }
    ensures adds { (network : List Variable) (H : List exact.Entry)
        → HasWhole E.stands_for engine.old network tree.now H whole.now
        → (bits : ℕ → ℕ) → AreBits bits
        → AddsEntry network H bits user (change_of entry.now) result }
{
    match entry {
        Entry::Trade { user: owner, ratio } => {
            if *owner == user {
                trade_tally(engine, tree, ratio, whole)
            } else {
                bits_tally(0, 0)
            }
        }
        Entry::Deposit { user: owner, bits } => bits_tally(own_bits(*owner, user, *bits), 0),
        Entry::Withdraw { user: owner, bits } => bits_tally(0, own_bits(*owner, user, *bits)),
        Entry::Join { .. } | Entry::Resolve { .. } | Entry::Add { .. } | Entry::Settle { .. } =>
            bits_tally(0, 0),
    }
}

/// The bits of a transfer, where its owner is the user.
fn own_bits(owner: u32, user: u32, bits: u32) -> u32
    ensures { result ≡ (if owner == user then bits else 0) }
{
    if owner == user { bits } else { 0 }
}

/// The tally of bits deposited and bits withdrawn.
fn bits_tally(deposited: u32, withdrawn: u32) -> Tally
    ensures { (whole : ℕ) → AddsUp result whole (whole * (deposited * 2 ^ 20))
        (whole * (withdrawn * 2 ^ 20)) deposited withdrawn 0 }
{
    let gained = deposited as u128 * PARTS;
    let owed = withdrawn as u128 * PARTS;
    Tally {
        least_gained: gained,
        most_gained: gained,
        least_owed: owed,
        most_owed: owed,
    }
}
