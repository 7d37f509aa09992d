//! The words that ask something of a market's last history.

ghost use Rattle.std.specs.Prelude.{◌≡◌, ◌==◌, map, codes, position, Some, None, if◌then◌else◌};
ghost use Rattle.std.specs.Prelude.{option_map, option_and_then, length, IfSome, ◌<◌};
ghost use Rattle.daggre.specs.Below.{is_name, same_text};
ghost use Rattle.daggre.specs.Words.{pair_of, listed, ask_of, chance_in, best_in, expect_in};
ghost use Rattle.daggre.specs.Words.{chance_around};

use crate::ask::{Ask, MAX_LISTED, PairList};
use mk_names::Name;
use mk_net::PairText;

/// What a word asks, by the words behind the name of the market.
#[tactic(auto, unfolding(crate::specs::Words::ask_of))]
pub fn ask_of(word: &str, words: &[&str]) -> Option<Ask>
    ensures { result ≡ ask_of word.now (map (λ w. w.now) words.now) }
{
    if is_text(word, "chance") {
        chance_in(words)
    } else if is_text(word, "best") {
        best_in(words)
    } else if is_text(word, "expect") {
        expect_in(words)
    } else {
        None
    }
}

/// Whether a word is this text.
pub(crate) fn is_text(word: &str, text: &str) -> bool
    ensures { result ≡ same_text word.now text.now }
{
    word == text
}

/// The chance that some words ask for.
#[tactic(auto, unfolding(crate::specs::Words::chance_in))]
fn chance_in(words: &[&str]) -> Option<Ask>
    ensures { result ≡ chance_in (map (λ w. w.now) words.now) }
{
    match given_place(words) {
        None => chance_of(words, &[], 0),
        Some(place) => chance_of(&words[..place], &words[place + 1..], 1),
    }
}

/// The chance of pairs, where others are given.
fn chance_of(want: &[&str], given: &[&str], least: usize) -> Option<Ask>
    ensures { result ≡ option_and_then (λ want. option_map (Ask.Chance want)
        (listed least (map (λ w. w.now) given.now))) (listed 1 (map (λ w. w.now) want.now)) }
{
    let want = listed(1, want)?;
    let given = listed(least, given)?;
    Some(Ask::Chance { want, given })
}

/// The place of the first word `given`.
fn given_place(words: &[&str]) -> Option<usize>
    ensures place { result ≡ position (λ w. same_text (codes "given") w.now) words.now }
    ensures within { IfSome result (λ place. place < length words.now) }
{
    words.iter().position(|word| is_given(word))
}

fn is_given(word: &str) -> bool
    ensures { result ≡ same_text (codes "given") word.now }
{
    "given" == word
}

/// The best state that some words ask for.
#[tactic(auto, unfolding(crate::specs::Words::best_in))]
fn best_in(words: &[&str]) -> Option<Ask>
    ensures { result ≡ best_in (map (λ w. w.now) words.now) }
{
    let given = listed(0, words)?;
    Some(Ask::Best { given })
}

/// The expectation that one word asks for.
#[tactic(auto, unfolding(crate::specs::Words::expect_in))]
fn expect_in(words: &[&str]) -> Option<Ask>
    ensures { result ≡ expect_in (map (λ w. w.now) words.now) }
{
    match words {
        [word] => {
            let user = name_of(word.as_bytes())?;
            Some(Ask::Expect { user })
        }
        _ => None,
    }
}

/// The pairs that some words write, one each, if there are neither too few words nor too many.
#[tactic(auto, unfolding(crate::specs::Words::listed))]
fn listed(least: usize, words: &[&str]) -> Option<PairList>
    ensures { result ≡ listed least (map (λ w. w.now) words.now) }
{
    if words.len() < least || words.len() > MAX_LISTED {
        return None;
    }
    let mut pairs = PairList::new();
    for word in words {
        let pair = pair_of(word)?;
        pairs.push(pair);
    }
    Some(pairs)
}

/// The pair that a word writes.
#[tactic(auto, unfolding(crate::specs::Words::pair_of))]
fn pair_of(word: &str) -> Option<PairText>
    ensures { result ≡ pair_of word.now }
{
    let bytes = word.as_bytes();
    let place = equals_place(bytes)?;
    let variable = name_of(&bytes[..place])?;
    let value = name_of(&bytes[place + 1..])?;
    Some(PairText { variable, value })
}

/// The place of the first `=`.
fn equals_place(bytes: &[u8]) -> Option<usize>
    ensures place { result ≡ position (λ b. b == 61) bytes.now }
    ensures within { IfSome result (λ place. place < length bytes.now) }
{
    bytes.iter().position(|byte| *byte == b'=')
}

/// The name that some bytes are.
fn name_of(bytes: &[u8]) -> Option<Name>
    ensures { result ≡ (if is_name bytes.now then Some bytes.now else None) }
{
    Name::read(bytes)
}
