//! The assets of each user of a history.
ghost use Rattle.std.specs.Prelude.{◌≡◌, ℕ, ◌≤◌, [], length, IfOk};
ghost use Rattle.mk_replay.specs.Below.{deposited, withdrawn, IsTreeOf, GivenTree, Holding, Holds};
ghost use Rattle.mk_replay.specs.Below.{IsPlanned, max_bits, holding_of, change_of};
ghost use Rattle.mk_replay.specs.Each.{HoldAll};
ghost use Rattle.mk_replay.specs.Placed.{IsPlaced};
ghost use Rattle.mk_replay.specs.inner.Taking.{CanAllTake, CanTakeOwn, HasRoomFor, grown_holding, user_of};

use crate::homes::home_of_trade;
use mk_assets::Assets;
use mk_engine::Engine;
use mk_history::Entry;
use mk_net::{Network, NoMemory};
use mk_record::Journal;
use mk_semiring::MinProd;
use mk_tree::Tree;
use std::alloc::Global;

/// The assets of so many users after each entry of a history, from a plan that is there: each user's
/// own trades and transfers. They learn its resolutions when they are asked. Each entry is read once.
/// All memory that they take they give back with them.
pub fn assets_of_each<A: Engine<MinProd>>(
    alloc: Global,
    net: &Network,
    tree: &Tree,
    plan: &A::Plan,
    history: &Journal,
    joined: u32,
) -> Result<Vec<Assets<A>>, NoMemory>
    requires tree { IsTreeOf net.now tree.now }
    requires plan { A.plan_for plan.now net.now tree.now }
    requires history { IsPlaced net.now tree.now history.now.history }
    requires few { (u : ℕ) → deposited history.now.history u ≤ max_bits
        × withdrawn history.now.history u ≤ max_bits }
    ensures count { IfOk result (λ all. length all.items ≡ joined) }
    ensures held { IfOk result (λ all. HoldAll A.stands_for
        (holding_of net.now tree.now history.now.history) all.items) }
{
    let _ = net.variables();
    let mut all = assets_of_none::<A>(alloc, net, plan, joined)?;
    for number in 0..history.length() {
        let entry = history.entry(number);
        take_by_each::<A>(&mut all, tree, &entry);
    }
    Ok(all)
}

/// The assets of so many users before any entry.
fn assets_of_none<A: Engine<MinProd>>(
    alloc: Global,
    net: &Network,
    plan: &A::Plan,
    joined: u32,
) -> Result<Vec<Assets<A>>, NoMemory>
    requires { IsPlanned A.plan_for plan.now net.now }
    ensures count { IfOk result (λ all. length all.items ≡ joined) }
    ensures held { IfOk result (λ all. (tree : GivenTree) → A.plan_for plan.now net.now tree
        → HoldAll A.stands_for (holding_of net.now tree []) all.items) }
{
    let mut all = Vec::new(alloc);
    for _ in 0..joined {
        let assets = Assets::<A>::start(alloc, plan, net)?;
        all.push(assets)?;
    }
    Ok(all)
}

/// The assets of all users take one entry. Only its own user's are looked at, as it changes no others;
/// a user past the end of the list is nobody in it.
fn take_by_each<A: Engine<MinProd>>(all: &mut Vec<Assets<A>>, tree: &Tree, entry: &Entry<'_>)
    requires { CanAllTake A.stands_for all.old.items tree.now (change_of entry.now) }
    ensures count { length all.new.items ≡ length all.old.items }
    ensures held { (holding : ℕ → Holding) → HoldAll A.stands_for holding all.old.items
        → ((u : ℕ) → HasRoomFor u (change_of entry.now) (holding u))
        → HoldAll A.stands_for (λ u. grown_holding u (change_of entry.now) (holding u)) all.new.items }
{
    if let Some(user) = own_user(entry) {
        if let Some(own) = all.get_mut(user as usize) {
            take_own::<A>(own, tree, user, entry);
        }
    }
}

/// The user whose trade, deposit or withdrawal an entry is.
fn own_user(entry: &Entry<'_>) -> Option<u32>
    ensures { result ≡ user_of (change_of entry.now) }
{
    match entry {
        Entry::Trade { user, .. } | Entry::Deposit { user, .. } | Entry::Withdraw { user, .. } =>
            Some(*user),
        Entry::Join { .. } | Entry::Resolve { .. } | Entry::Settle { .. } | Entry::Add { .. } =>
            None,
    }
}

/// A user's assets take one entry: the user's own trade, deposit or withdrawal. Nothing else changes
/// them, and they learn a resolution when they are asked.
fn take_own<A: Engine<MinProd>>(assets: &mut Assets<A>, tree: &Tree, user: u32, entry: &Entry<'_>)
    requires { CanTakeOwn A.stands_for assets.old tree.now user (change_of entry.now) }
    ensures { (h : Holding) → Holds A.stands_for assets.old h
        → HasRoomFor user (change_of entry.now) h
        → Holds A.stands_for assets.new (grown_holding user (change_of entry.now) h) }
{
    match entry {
        Entry::Trade { user: own, ratio } => {
            if *own == user {
                assets.trade(home_of_trade(tree, ratio), ratio);
            }
        }
        Entry::Deposit { user: own, bits } => {
            if *own == user {
                assets.deposit(*bits);
            }
        }
        Entry::Withdraw { user: own, bits } => {
            if *own == user {
                assets.withdraw(*bits);
            }
        }
        Entry::Join { .. } | Entry::Resolve { .. } | Entry::Settle { .. } | Entry::Add { .. } => {}
    }
}
