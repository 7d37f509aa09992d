//! The event that ratios may have touched: no ratio touched a cell where it does not hold. Leaving a pair out is always right,
//! since more cells count as touched then.

ghost use Rattle.std.specs.Prelude.{◌≡◌, ◌<◌, ◌⊎◌, [], ◌∷◌, ◌++◌, List, length, Option, Some, true, false};
ghost use Rattle.mk_net.specs.declared.words.Pair.{Pair};
ghost use Rattle.mk_table.specs.Below.{max_pairs, speaks_of, HasEvent, has_variable};
ghost use Rattle.mk_table.specs.Ratios.{has_pair};
ghost use Rattle.mk_table.specs.Tables.{contradicts, contradicts_pair, is_untouched_by};
ghost use Rattle.mk_table.specs.inner.Touched.{IsPart, IsEither, IsBeside, IsWithin, IsEitherWithin};

use mk_net::{Event, Pair};
use mk_scope::Scope;

/// Whether no ratio touched a cell where an event holds.
pub(crate) fn is_untouched_by(touched: &Option<Event>, event: &Event) -> bool
    ensures { result ≡ is_untouched_by touched.now event.now }
{
    match touched {
        Some(pairs) => contradicts(pairs.pairs(), event.pairs()),
        None => true,
    }
}

/// Makes of an event one that holds wherever it or another does: the pairs that both have, or the one that there is. It is
/// changed in place, since an event takes more to copy than a small message does to make.
pub(crate) fn take_either(touched: &mut Option<Event>, other: &Option<Event>)
    ensures { IsEither touched.old other.now touched.new }
{
    if let Some(event) = other {
        match touched {
            Some(kept) => keep_common(kept, event.pairs()),
            None => *touched = Some(*event),
        }
    }
}

/// An event that holds wherever another does beside a pair: none where the pair contradicts it.
pub(crate) fn beside(touched: &Option<Event>, pair: Pair) -> Option<Event>
    ensures { IsBeside pair touched.now result }
{
    match touched {
        Some(event) => {
            if contradicts_pair(event.pairs(), pair) {
                None
            } else {
                Some(*event)
            }
        }
        None => None,
    }
}

/// Puts into a place an event that holds wherever another does: the pairs whose variables a scope has.
pub(crate) fn put_within(touched: &Option<Event>, scope: &Scope, out: &mut Option<Event>)
    ensures { IsWithin scope.now touched.now out.new }
{
    match touched {
        Some(event) => put_pairs(event, scope, out),
        None => *out = None,
    }
}

/// The same for an event that there is. Nothing is written where both hold everywhere, as after a trade without a condition.
#[inline]
fn put_pairs(event: &Event, scope: &Scope, out: &mut Option<Event>)
    ensures { IsWithin scope.now (Some event.now) out.new }
{
    if event.pairs().is_empty() && is_everywhere(out) {
        return;
    }
    *out = Some(pairs_within(event, scope));
}

/// Whether there is an event that holds everywhere.
#[inline]
fn is_everywhere(event: &Option<Event>) -> bool
    ensures { result ≡ true → event.now ≡ Some [] }
{
    match event {
        Some(pairs) => pairs.pairs().is_empty(),
        None => false,
    }
}

/// Puts into a place an event that holds wherever one of two does: the pairs that both have, or those of the one that there
/// is, whose variables a scope has.
#[inline]
pub(crate) fn put_either_within(
    first: &Option<Event>,
    second: &Option<Event>,
    scope: &Scope,
    out: &mut Option<Event>,
)
    ensures { IsEitherWithin scope.now first.now second.now out.new }
{
    match first {
        Some(event) => put_with_within(event, second, scope, out),
        None => put_within(second, scope, out),
    }
}

/// The same for an event that there is.
#[inline]
fn put_with_within(event: &Event, other: &Option<Event>, scope: &Scope, out: &mut Option<Event>)
    ensures { IsEitherWithin scope.now (Some event.now) other.now out.new }
{
    match other {
        Some(pairs) => *out = Some(common_within(event, pairs.pairs(), scope)),
        None => put_pairs(event, scope, out),
    }
}

/// Whether one of the pairs gives the pair's variable another value.
fn contradicts_pair(pairs: &[Pair], pair: Pair) -> bool
    ensures { result ≡ contradicts_pair pairs.now pair }
{
    pairs
        .iter()
        .any(|p| p.variable == pair.variable && p.value != pair.value)
}

/// Whether a pair of the first gives a variable another value than one of the second does.
fn contradicts(first: &[Pair], second: &[Pair]) -> bool
    ensures { result ≡ contradicts first.now second.now }
{
    second.iter().any(|pair| contradicts_pair(first, *pair))
}

/// Whether a pair is one of some.
fn has_pair(pairs: &[Pair], pair: Pair) -> bool
    ensures { result ≡ has_pair pairs.now pair }
{
    pairs
        .iter()
        .any(|p| p.variable == pair.variable && p.value == pair.value)
}

/// Leaves of an event the pairs that are some of others.
#[inline]
fn keep_common(event: &mut Event, others: &[Pair])
    ensures first { IsPart event.new event.old }
    ensures second { IsPart event.new others.now }
    ensures all { (p : Pair) → has_pair event.old p ≡ true → has_pair others.now p ≡ true → has_pair event.new p ≡ true }
{
    if !event.pairs().is_empty() {
        *event = common(event, others);
    }
}

/// The pairs of an event that are some of others.
fn common(event: &Event, others: &[Pair]) -> Event
    ensures first { IsPart result event.now }
    ensures second { IsPart result others.now }
    ensures all { (p : Pair) → has_pair event.now p ≡ true → has_pair others.now p ≡ true → has_pair result p ≡ true }
{
    let mut shared = Event::empty();
    for pair in event.pairs() {
        if has_pair(others, *pair) {
            shared = with_pair(&shared, *pair);
        }
    }
    shared
}

/// The pairs of an event whose variables a scope has.
// It stays out of line, since few events have pairs.
#[inline(never)]
pub(crate) fn pairs_within(event: &Event, scope: &Scope) -> Event
    ensures part { IsPart result event.now }
    ensures there { HasEvent scope.now result }
    ensures all { (p : Pair) → has_pair event.now p ≡ true → has_variable scope.now p.variable ≡ true → has_pair result p ≡ true }
{
    if event.pairs().is_empty() {
        return *event;
    }
    let mut kept = Event::empty();
    for pair in event.pairs() {
        if scope.has(pair.variable) {
            kept = with_pair(&kept, *pair);
        }
    }
    kept
}

/// The pairs of an event that are some of others, and whose variables a scope has.
// It stays out of line, since few events have pairs.
#[inline(never)]
fn common_within(event: &Event, others: &[Pair], scope: &Scope) -> Event
    ensures first { IsPart result event.now }
    ensures second { IsPart result others.now }
    ensures there { HasEvent scope.now result }
    ensures all { (p : Pair) → has_pair event.now p ≡ true → has_pair others.now p ≡ true → has_variable scope.now p.variable ≡ true → has_pair result p ≡ true }
{
    let mut shared = Event::empty();
    for pair in event.pairs() {
        if has_pair(others, *pair) && scope.has(pair.variable) {
            shared = with_pair(&shared, *pair);
        }
    }
    shared
}

/// The event with one pair more, where it has room for it and does not speak of its variable.
fn with_pair(event: &Event, pair: Pair) -> Event
    ensures either { (result ≡ event.now ++ pair ∷ []) ⊎ (result ≡ event.now) }
    ensures added { length event.now < max_pairs → speaks_of event.now pair.variable ≡ false → result ≡ event.now ++ pair ∷ [] }
{
    match event.with(pair) {
        Some(longer) => longer,
        None => *event,
    }
}
