//! Numbers as words, and the words of which they are the numbers.

ghost use Rattle.std.specs.Prelude.{◌≡◌, ◌+◌, ◌^◌, ◌<◌, ◌≤◌, ◌++◌, IfSome, Some, decimal};
ghost use Rattle.mk_text.specs.Below.{IsNumeral, digits_value, array_string_len};
ghost use Rattle.mk_text.specs.Numbers.{places};
ghost use Rattle.mk_text.specs.Reading.{number_written};

use crate::writers::put_ten_places;
use arrayvec::ArrayString;
use itoa::Buffer;
use mk_names::limits::PRICE_UNIT;
use std::str;

/// The number below a limit that has these digits, without leading zeros.
pub fn number_of(word: &[u8], limit: u64) -> Option<u64>
    ensures found { result ≡ number_written decimal limit word.now }
    ensures below { IfSome result (λ n. n < limit) }
{
    let number = value_of(word)?;
    if number < limit && Buffer::new().format(number).as_bytes() == word {
        Some(number)
    } else {
        None
    }
}

/// The number below 10^10 that has these digits, with leading zeros up to ten digits.
pub fn ten_places_of(word: &[u8]) -> Option<u64>
    ensures found { result ≡ number_written (places 10) (10 ^ 10) word.now }
    ensures below { IfSome result (λ n. n < 10 ^ 10) }
{
    let number = value_of(word)?;
    if number >= PRICE_UNIT {
        return None;
    }
    let mut written = ArrayString::<10>::new();
    put_ten_places(&mut written, number);
    if written.as_bytes() == word {
        Some(number)
    } else {
        None
    }
}

// The number that has these digits. Nothing is said of other bytes.
fn value_of(word: &[u8]) -> Option<u64>
    ensures { IsNumeral 10 word.now → digits_value 10 word.now < 2 ^ 64 → result ≡ Some (digits_value 10 word.now) }
{
    match str::from_utf8(word) {
        Ok(text) => text.parse::<u64>().ok(),
        Err(_) => None,
    }
}
