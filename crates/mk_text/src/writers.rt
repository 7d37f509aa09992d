//! Writing names, numbers, pairs and questions at the end of a text. Each function asks for the room of the longest text that
//! it writes, and its clause `growth` says how much of that it takes at most.

ghost use Rattle.std.specs.Prelude.{◌≡◌, ◌+◌, ◌^◌, ◌<◌, ◌≤◌, ◌++◌, length, All, IfSome, option_map, codes, decimal, IsUtf8};
ghost use Rattle.mk_net.specs.Bounds.{max_condition};
ghost use Rattle.mk_text.specs.Below.{array_string_len, max_values};
ghost use Rattle.mk_text.specs.Joined.{items_text, spaced, AreSeveral};
ghost use Rattle.mk_text.specs.Numbers.{places, IsShort, price_text, range_text, limits_text, interval_text, intervals_text};
ghost use Rattle.mk_text.specs.Numbers.{prices_text, ends_text};
ghost use Rattle.mk_text.specs.Texts.{pair_text, condition_text, question_text};

use arrayvec::ArrayString;
use itoa::Buffer;
use mk_names::Name;
use mk_names::limits::PRICE_UNIT;
use mk_net::{PairText, QuestionText};
use std::str;

/// Writes a name, of at most 32 bytes.
pub fn put_name<const N: usize>(out: &mut ArrayString<N>, name: &Name)
    requires { array_string_len out.old + 32 ≤ N }
    ensures text { out.new.bytes ≡ out.old.bytes ++ name.now }
    ensures growth { array_string_len out.new ≤ array_string_len out.old + 32 }
{
    match str::from_utf8(name.bytes()) {
        Ok(text) => out.push_str(text),
        Err(_) => unreachable!(),
    }
}

/// Writes a number, in at most 20 digits.
pub fn put_number<const N: usize>(out: &mut ArrayString<N>, number: u64)
    requires { array_string_len out.old + 20 ≤ N }
    ensures text { out.new.bytes ≡ out.old.bytes ++ decimal number }
    ensures growth { array_string_len out.new ≤ array_string_len out.old + 20 }
{
    out.push_str(Buffer::new().format(number));
}

/// Writes a number of at most nine digits.
pub fn put_short<const N: usize>(out: &mut ArrayString<N>, number: u32)
    requires short { number < 10 ^ 9 }
    requires room { array_string_len out.old + 9 ≤ N }
    ensures text { out.new.bytes ≡ out.old.bytes ++ decimal number }
    ensures growth { array_string_len out.new ≤ array_string_len out.old + 9 }
{
    out.push_str(Buffer::new().format(number));
}

/// Writes a number below 10^10 in ten digits, with leading zeros.
pub fn put_ten_places<const N: usize>(out: &mut ArrayString<N>, part: u64)
    requires below { part < 10 ^ 10 }
    requires room { array_string_len out.old + 10 ≤ N }
    ensures text { out.new.bytes ≡ out.old.bytes ++ places 10 part }
    ensures growth { array_string_len out.new ≡ array_string_len out.old + 10 }
{
    // A one in front keeps the zeros behind it.
    let mut buffer = Buffer::new();
    let digits = buffer.format(PRICE_UNIT + part);
    out.push_str(&digits[1..]);
}

/// Writes a pair, in at most 65 bytes.
pub fn put_pair<const N: usize>(out: &mut ArrayString<N>, pair: &PairText)
    requires { array_string_len out.old + 65 ≤ N }
    ensures text { out.new.bytes ≡ out.old.bytes ++ pair_text pair.now }
    ensures growth { array_string_len out.new ≤ array_string_len out.old + 65 }
{
    put_name(out, &pair.variable);
    out.push_str("=");
    put_name(out, &pair.value);
}

/// Writes a condition with the bar before it, in at most 537 bytes, or nothing.
pub fn put_condition<const N: usize>(out: &mut ArrayString<N>, pairs: &[PairText])
    requires few { length pairs.now ≤ max_condition }
    requires room { array_string_len out.old + 537 ≤ N }
    ensures text { out.new.bytes ≡ out.old.bytes ++ condition_text pairs.now }
    ensures growth { array_string_len out.new ≤ array_string_len out.old + 537 }
{
    if let [first, rest @ ..] = pairs {
        out.push_str(" | ");
        put_pair(out, first);
        put_more_pairs(out, rest);
    }
}

fn put_more_pairs<const N: usize>(out: &mut ArrayString<N>, pairs: &[PairText])
    requires few { length pairs.now ≤ 7 }
    requires room { array_string_len out.old + 469 ≤ N }
    ensures text { out.new.bytes ≡ out.old.bytes ++ items_text (codes ", ") pair_text pairs.now }
    ensures growth { array_string_len out.new ≤ array_string_len out.old + 469 }
{
    for pair in pairs {
        out.push_str(", ");
        put_pair(out, pair);
    }
}

/// Writes a question, in at most 602 bytes.
pub fn put_question<const N: usize>(out: &mut ArrayString<N>, question: &QuestionText)
    requires { array_string_len out.old + 602 ≤ N }
    ensures text { out.new.bytes ≡ out.old.bytes ++ question_text question.now }
    ensures growth { array_string_len out.new ≤ array_string_len out.old + 602 }
{
    put_pair(out, &question.target);
    put_condition(out, question.condition.as_slice());
}

/// Writes a price in points, in at most 31 bytes.
pub fn put_price<const N: usize>(out: &mut ArrayString<N>, price: u64)
    requires { array_string_len out.old + 31 ≤ N }
    ensures text { out.new.bytes ≡ out.old.bytes ++ price_text price }
    ensures growth { array_string_len out.new ≤ array_string_len out.old + 31 }
{
    put_number(out, price / PRICE_UNIT);
    out.push_str(".");
    put_ten_places(out, price % PRICE_UNIT);
}

/// Writes two numbers with two points between them, in at most 42 bytes.
pub fn put_range<const N: usize>(out: &mut ArrayString<N>, low: u64, high: u64)
    requires { array_string_len out.old + 42 ≤ N }
    ensures text { out.new.bytes ≡ out.old.bytes ++ range_text low high }
    ensures growth { array_string_len out.new ≤ array_string_len out.old + 42 }
{
    put_number(out, low);
    out.push_str("..");
    put_number(out, high);
}

/// Writes 2 to 16 numbers of at most nine digits with a space between them, in at most 160 bytes.
pub fn put_numbers<const N: usize>(out: &mut ArrayString<N>, numbers: &[u32])
    requires numbers { AreSeveral IsShort numbers.now }
    requires room { array_string_len out.old + 160 ≤ N }
    ensures text { out.new.bytes ≡ out.old.bytes ++ spaced decimal numbers.now }
    ensures growth { array_string_len out.new ≤ array_string_len out.old + 160 }
{
    if let [first, rest @ ..] = numbers {
        put_short(out, *first);
        put_more_numbers(out, rest);
    }
}

fn put_more_numbers<const N: usize>(out: &mut ArrayString<N>, numbers: &[u32])
    requires few { length numbers.now ≤ 15 }
    requires short { All IsShort numbers.now }
    requires room { array_string_len out.old + 150 ≤ N }
    ensures text { out.new.bytes ≡ out.old.bytes ++ items_text (codes " ") decimal numbers.now }
    ensures growth { array_string_len out.new ≤ array_string_len out.old + 150 }
{
    for number in numbers {
        out.push_str(" ");
        put_short(out, *number);
    }
}

/// Writes at most 16 numbers with a space between them, in at most 336 bytes.
pub fn put_units<const N: usize>(out: &mut ArrayString<N>, units: &[u64])
    requires few { length units.now ≤ max_values }
    requires room { array_string_len out.old + 336 ≤ N }
    ensures text { out.new.bytes ≡ out.old.bytes ++ spaced decimal units.now }
    ensures growth { array_string_len out.new ≤ array_string_len out.old + 336 }
{
    if let [first, rest @ ..] = units {
        put_number(out, *first);
        put_more_units(out, rest);
    }
}

fn put_more_units<const N: usize>(out: &mut ArrayString<N>, units: &[u64])
    requires few { length units.now ≤ 15 }
    requires room { array_string_len out.old + 315 ≤ N }
    ensures text { out.new.bytes ≡ out.old.bytes ++ items_text (codes " ") decimal units.now }
    ensures growth { array_string_len out.new ≤ array_string_len out.old + 315 }
{
    for number in units {
        out.push_str(" ");
        put_number(out, *number);
    }
}

/// Writes at most 16 intervals with a space between them, in at most 688 bytes, or `none`.
pub fn put_intervals<const N: usize>(out: &mut ArrayString<N>, intervals: Option<&[(u32, u32)]>)
    requires few { IfSome intervals (λ given. length given.now ≤ max_values) }
    requires room { array_string_len out.old + 688 ≤ N }
    ensures text { out.new.bytes ≡ out.old.bytes ++ intervals_text (option_map (λ given. given.now) intervals.entry) }
    ensures growth { array_string_len out.new ≤ array_string_len out.old + 688 }
{
    match intervals {
        None => out.push_str("none"),
        Some(given) => put_given(out, given),
    }
}

fn put_given<const N: usize>(out: &mut ArrayString<N>, intervals: &[(u32, u32)])
    requires few { length intervals.now ≤ max_values }
    requires room { array_string_len out.old + 688 ≤ N }
    ensures text { out.new.bytes ≡ out.old.bytes ++ spaced interval_text intervals.now }
    ensures growth { array_string_len out.new ≤ array_string_len out.old + 688 }
{
    if let [first, rest @ ..] = intervals {
        put_range(out, first.0 as u64, first.1 as u64);
        put_more_intervals(out, rest);
    }
}

fn put_more_intervals<const N: usize>(out: &mut ArrayString<N>, intervals: &[(u32, u32)])
    requires few { length intervals.now ≤ 15 }
    requires room { array_string_len out.old + 645 ≤ N }
    ensures text { out.new.bytes ≡ out.old.bytes ++ items_text (codes " ") interval_text intervals.now }
    ensures growth { array_string_len out.new ≤ array_string_len out.old + 645 }
{
    for interval in intervals {
        out.push_str(" ");
        put_range(out, interval.0 as u64, interval.1 as u64);
    }
}

/// Writes limits, in at most 42 bytes.
pub fn put_limits<const N: usize>(out: &mut ArrayString<N>, limits: Option<(u32, u32)>)
    requires { array_string_len out.old + 42 ≤ N }
    ensures text { out.new.bytes ≡ out.old.bytes ++ limits_text limits }
    ensures growth { array_string_len out.new ≤ array_string_len out.old + 42 }
{
    match limits {
        Some((low, high)) => put_range(out, low as u64, high as u64),
        None => out.push_str("none"),
    }
}

/// Writes two prices in points with two points between them, in at most 64 bytes.
pub fn put_two_prices<const N: usize>(out: &mut ArrayString<N>, low: u64, high: u64)
    requires { array_string_len out.old + 64 ≤ N }
    ensures text { out.new.bytes ≡ out.old.bytes ++ prices_text (low, high) }
    ensures growth { array_string_len out.new ≤ array_string_len out.old + 64 }
{
    put_price(out, low);
    out.push_str("..");
    put_price(out, high);
}

/// Writes at most 16 times two prices with a space between them, in at most 1,040 bytes.
pub fn put_all_prices<const N: usize>(out: &mut ArrayString<N>, prices: &[(u64, u64)])
    requires few { length prices.now ≤ max_values }
    requires room { array_string_len out.old + 1040 ≤ N }
    ensures text { out.new.bytes ≡ out.old.bytes ++ spaced prices_text prices.now }
    ensures growth { array_string_len out.new ≤ array_string_len out.old + 1040 }
{
    if let [first, rest @ ..] = prices {
        put_two_prices(out, first.0, first.1);
        put_more_prices(out, rest);
    }
}

fn put_more_prices<const N: usize>(out: &mut ArrayString<N>, prices: &[(u64, u64)])
    requires few { length prices.now ≤ 15 }
    requires room { array_string_len out.old + 975 ≤ N }
    ensures text { out.new.bytes ≡ out.old.bytes ++ items_text (codes " ") prices_text prices.now }
    ensures growth { array_string_len out.new ≤ array_string_len out.old + 975 }
{
    for two in prices {
        out.push_str(" ");
        put_two_prices(out, two.0, two.1);
    }
}

/// Writes two numbers with two points between them, in at most 42 bytes, or `none`.
pub fn put_ends<const N: usize>(out: &mut ArrayString<N>, ends: Option<(u64, u64)>)
    requires { array_string_len out.old + 42 ≤ N }
    ensures text { out.new.bytes ≡ out.old.bytes ++ ends_text ends }
    ensures growth { array_string_len out.new ≤ array_string_len out.old + 42 }
{
    match ends {
        Some((low, high)) => put_range(out, low, high),
        None => out.push_str("none"),
    }
}

/// Writes at most 16 of these with a space between them, in at most 688 bytes.
pub fn put_all_ends<const N: usize>(out: &mut ArrayString<N>, ends: &[Option<(u64, u64)>])
    requires few { length ends.now ≤ max_values }
    requires room { array_string_len out.old + 688 ≤ N }
    ensures text { out.new.bytes ≡ out.old.bytes ++ spaced ends_text ends.now }
    ensures growth { array_string_len out.new ≤ array_string_len out.old + 688 }
{
    if let [first, rest @ ..] = ends {
        put_ends(out, *first);
        put_more_ends(out, rest);
    }
}

fn put_more_ends<const N: usize>(out: &mut ArrayString<N>, ends: &[Option<(u64, u64)>])
    requires few { length ends.now ≤ 15 }
    requires room { array_string_len out.old + 645 ≤ N }
    ensures text { out.new.bytes ≡ out.old.bytes ++ items_text (codes " ") ends_text ends.now }
    ensures growth { array_string_len out.new ≤ array_string_len out.old + 645 }
{
    for one in ends {
        out.push_str(" ");
        put_ends(out, *one);
    }
}
