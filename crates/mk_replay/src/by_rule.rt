//! Payments by rule, from the entries of a history alone.
ghost use Rattle.std.specs.Prelude.{◌≡◌, ◌≤◌, List, [], ◌∷◌, length, map, vec_capacity};
ghost use Rattle.mk_replay.specs.Below.{max_variables, max_points_per_bit, Variable, IsNetwork};
ghost use Rattle.mk_replay.specs.Below.{sizes, trade_ratio, IsState, numbers_below, always, holds};
ghost use Rattle.mk_replay.specs.Below.{ratio_at, users, IsProper, possible_states};
ghost use Rattle.mk_replay.specs.Below.{payment_by_rule, payments_by_rule, due_payment, change_of};
ghost use Rattle.mk_replay.specs.Below.{ends};
ghost use Rattle.mk_exact.specs.History.{Entry as Change};
ghost use Rattle.mk_replay.specs.ByRule.{CanBePaid, AreResolved};
ghost use Rattle.mk_replay.specs.inner.Dues.{no_dues, dues_after, CanTakeDue, value_given};

use arrayvec::ArrayVec;
use mk_cash::Due;
use mk_history::{Entry, Payout};
use mk_names::limits::RATIO_UNIT;
use mk_net::{Pair, Ratio};
use mk_record::Journal;

/// The payments by rule to all users of a history, in the order of joining, in the one state that
/// its resolutions leave.
///
/// It asks no engine, reads each entry once and takes no memory: both lists have room for all
/// users.
pub fn pay_by_rule(
    history: &Journal,
    joined: u32,
    state: &[u32],
    points_per_bit: u32,
    dues: &mut Vec<Due>,
    payments: &mut Vec<Payout>,
)
    requires history { CanBePaid history.now.history state.now }
    requires joined { joined ≡ length (users history.now.history) }
    requires some_points { 1 ≤ points_per_bit }
    requires few_points { points_per_bit ≤ max_points_per_bit }
    requires no_dues { dues.old.items ≡ [] }
    requires due_room { joined ≤ vec_capacity dues.old }
    requires unpaid { payments.old.items ≡ [] }
    requires payment_room { joined ≤ vec_capacity payments.old }
    ensures payments { map ends payments.new.items
        ≡ map (payment_by_rule history.now.history points_per_bit state.now)
        (numbers_below (length (users history.now.history))) }
    ensures by_rule { (network : List Variable)
        → possible_states network history.now.history always ≡ state.now ∷ []
        → map ends payments.new.items
        ≡ payments_by_rule network history.now.history points_per_bit }
    ensures due_capacity { vec_capacity dues.new ≡ vec_capacity dues.old }
    ensures payment_capacity { vec_capacity payments.new ≡ vec_capacity payments.old }
{
    start_dues(joined, dues);
    for number in 0..history.length() {
        let entry = history.entry(number);
        take_entry(&entry, state, dues);
    }
    pay_dues(dues.as_slice(), points_per_bit, payments);
}

/// Nothing is due to so many users.
fn start_dues(joined: u32, dues: &mut Vec<Due>)
    requires none { dues.old.items ≡ [] }
    requires room { joined ≤ vec_capacity dues.old }
    ensures dues { dues.new.items ≡ no_dues joined }
    ensures capacity { vec_capacity dues.new ≡ vec_capacity dues.old }
{
    for _ in 0..joined {
        dues.push_reserved(Due::none());
    }
}

/// What is due after one more entry.
fn take_entry(entry: &Entry<'_>, state: &[u32], dues: &mut Vec<Due>)
    requires { CanTakeDue state.now (change_of entry.now) dues.old.items }
    ensures dues { dues.new.items ≡ dues_after state.now (change_of entry.now) dues.old.items }
    ensures capacity { vec_capacity dues.new ≡ vec_capacity dues.old }
{
    match entry {
        Entry::Deposit { user, bits } => dues[*user as usize].deposit(*bits),
        Entry::Withdraw { user, bits } => dues[*user as usize].withdraw(*bits),
        Entry::Trade { user, ratio } => {
            let units = units_at(ratio, state);
            dues[*user as usize].trade(units);
        }
        Entry::Join { .. } | Entry::Resolve { .. } | Entry::Settle { .. } | Entry::Add { .. } => {}
    }
}

/// The payments of what is due.
fn pay_dues(dues: &[Due], points_per_bit: u32, payments: &mut Vec<Payout>)
    requires some_points { 1 ≤ points_per_bit }
    requires few_points { points_per_bit ≤ max_points_per_bit }
    requires unpaid { payments.old.items ≡ [] }
    requires room { length dues.now ≤ vec_capacity payments.old }
    ensures payments { map ends payments.new.items ≡ map (due_payment points_per_bit) dues.now }
    ensures capacity { vec_capacity payments.new ≡ vec_capacity payments.old }
{
    for due in dues {
        let (low, high) = due.payment(points_per_bit);
        payments.push_reserved(Payout { low, high });
    }
}

/// The units of a ratio in a state.
pub fn units_at(ratio: &Ratio, state: &[u32]) -> u64
    ensures { result ≡ ratio_at (trade_ratio ratio.now) state.now }
{
    if holds(ratio.condition.pairs(), state) {
        let value = state.get(ratio.variable as usize).copied().unwrap_or(0);
        ratio.factors.get(value as usize).copied().unwrap_or(0)
    } else {
        RATIO_UNIT
    }
}

/// Whether a state has the value of each pair.
fn holds(pairs: &[Pair], state: &[u32]) -> bool
    ensures { result ≡ holds pairs.now state.now }
{
    pairs.iter().all(|pair| state.get(pair.variable as usize).copied().unwrap_or(0) == pair.value)
}

/// The state that resolutions leave, which give each of so many variables a value.
pub fn outcome_of(known: &[Pair], variables: u32) -> ArrayVec<u32, 256>
    requires few { variables ≤ max_variables }
    ensures outcome { (network : List Variable) (H : List Change) → IsNetwork network
        → IsProper network H → AreResolved network H known.now variables
        → possible_states network H always ≡ result.items ∷ [] }
    ensures state { (network : List Variable) (H : List Change) → IsNetwork network
        → IsProper network H → AreResolved network H known.now variables
        → IsState (sizes network) result.items }
{
    let mut state = ArrayVec::new();
    for variable in 0..variables {
        state.push(value_given(known, variable));
    }
    state
}

/// The value that the first of the pairs gives a variable, or 0 where none does.
fn value_given(known: &[Pair], variable: u32) -> u32
    ensures { result ≡ value_given known.now variable }
{
    for pair in known {
        if pair.variable == variable {
            return pair.value;
        }
    }
    0
}
