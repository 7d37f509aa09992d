//! What the words of a call ask for.

ghost use Rattle.std.specs.Prelude.{◌≡◌, ◌≤◌, [], ◌∷◌, map, decimal, IfSome};
ghost use Rattle.std.specs.Prelude.{option_map, length};
ghost use Rattle.mk_names.specs.Texts.{same_text};
ghost use Rattle.daggre.specs.Words.{max_sample, asked_of, kept_in, audited_in, size_of};
ghost use Rattle.daggre.specs.inner.Asking.{asked_as, IsSized};

use crate::ask::Ask;
use crate::asks::{ask_of, is_text};
use itoa::Buffer;

/// The greatest number of variables of a sample.
const MAX_SAMPLE: u32 = 256;

/// What the words of a call ask for, with the names that they lend.
#[derive(Drop)]
pub enum Asked<'a> {
    /// To run a market.
    Run { name: &'a str },
    /// To run the sample market of so many variables.
    Sample { size: u32 },
    /// To run a market and then answer what is asked of its last history.
    RunThen { name: &'a str, ask: Ask },
    /// To run a market and keep its changes in a store.
    Keep { name: &'a str, store: &'a str },
    /// To audit a transcript of a market.
    Audit { name: &'a str, transcript: &'a str },
}

/// What the words ask for, if it is something that the program knows.
pub fn read_words<'a>(words: &[&'a str]) -> Option<Asked<'a>>
    ensures asked { option_map asked_as result ≡ asked_of (map (λ w. w.now) words.now) }
    ensures sized { IfSome result IsSized }
{
    match words {
        [word, argument] => asked_by_two(word, argument),
        [word, name, rest @ ..] => asked_by_more(word, name, rest),
        _ => None,
    }
}

/// What three words or more ask for, by those behind the first two.
fn asked_by_more<'a>(word: &str, name: &'a str, rest: &[&'a str]) -> Option<Asked<'a>>
    requires { 1 ≤ length rest.now }
    ensures asked { option_map asked_as result
        ≡ asked_of (word.now ∷ name.now ∷ map (λ w. w.now) rest.now) }
    ensures sized { IfSome result IsSized }
{
    if is_text(word, "keep") {
        return kept_in(name, rest);
    }
    if is_text(word, "audit") {
        return audited_in(name, rest);
    }
    match ask_of(word, rest) {
        Some(ask) => Some(Asked::RunThen { name, ask }),
        None => None,
    }
}

/// To keep changes in a store, where it is the one word behind the market's name.
fn kept_in<'a>(name: &'a str, rest: &[&'a str]) -> Option<Asked<'a>>
    ensures asked { option_map asked_as result ≡ kept_in name.now (map (λ w. w.now) rest.now) }
    ensures sized { IfSome result IsSized }
{
    match rest {
        [store] => Some(Asked::Keep { name, store }),
        _ => None,
    }
}

/// To audit a transcript, where it is the one word behind the market's name.
fn audited_in<'a>(name: &'a str, rest: &[&'a str]) -> Option<Asked<'a>>
    ensures asked { option_map asked_as result ≡ audited_in name.now (map (λ w. w.now) rest.now) }
    ensures sized { IfSome result IsSized }
{
    match rest {
        [transcript] => Some(Asked::Audit { name, transcript }),
        _ => None,
    }
}

/// What two words ask for.
fn asked_by_two<'a>(word: &str, argument: &'a str) -> Option<Asked<'a>>
    ensures asked { option_map asked_as result ≡ asked_of (word.now ∷ argument.now ∷ []) }
    ensures sized { IfSome result IsSized }
{
    if is_text(word, "run") {
        Some(Asked::Run { name: argument })
    } else if is_text(word, "sample") {
        match size_named(argument) {
            Some(size) => Some(Asked::Sample { size }),
            None => None,
        }
    } else {
        match ask_of(word, &[]) {
            Some(ask) => Some(Asked::RunThen {
                name: argument,
                ask,
            }),
            None => None,
        }
    }
}

/// The number of variables that a word gives a sample, if one may have as many.
fn size_named(word: &str) -> Option<u32>
    ensures size { result ≡ size_of word.now }
    ensures within { IfSome result (λ n. (2 ≤ n) × (n ≤ max_sample)) }
{
    for size in 2..MAX_SAMPLE + 1 {
        if is_number(size, word) {
            return Some(size);
        }
    }
    None
}

/// Whether a word is the decimals of a number.
fn is_number(number: u32, word: &str) -> bool
    ensures { result ≡ same_text (decimal number) word.now }
{
    is_text(Buffer::new().format(number), word)
}
