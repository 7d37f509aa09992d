//! Reading names, numbers, pairs and questions from the front of some bytes.

ghost use Rattle.std.specs.Prelude.{◌≡◌, ◌<◌, ◌≤◌, ◌^◌, ◌==◌, true, false, if◌then◌else◌, length};
ghost use Rattle.std.specs.Prelude.{IfSome, Some, None, is_some, option_map, take, drop};
ghost use Rattle.mk_text.specs.Words.{word, word_len, behind_word, after, IsRestOf};
ghost use Rattle.mk_text.specs.Reading.{Finds, read_name, read_number, read_pair, read_condition};
ghost use Rattle.mk_text.specs.Reading.{more_pairs, read_question, read_price, read_range};
ghost use Rattle.mk_text.specs.Reading.{read_two_limits, read_interval, read_limits};
ghost use Rattle.mk_text.specs.Reading.{read_two_prices, read_ends};
ghost use Rattle.arrayvec.specs.ArrayVec.{array_vec_len};

use crate::numbers::{number_of, ten_places_of};
use crate::words::word_len;
use arrayvec::ArrayVec;
use mk_names::Name;
use mk_names::limits::{MILLION, PRICE_UNIT};
use mk_net::{PairText, QuestionText};
use std::marker::Model;

/// The bytes of a text that are not read yet. Reading goes forward alone: where a part is not found, and the answer is
/// `None`, what is left is still an end of what was left before.
#[derive(Drop)]
pub struct Reader<'a> {
    left: &'a [u8],
}

impl<'a> Model for Reader<'a> {
    ghost use Rattle.std.specs.Prelude.{ℕ, List};

    ghost Value = { List ℕ };

    ghost view = { λ r. r.left.now };
}

impl<'a> Reader<'a> {
    /// Nothing of these bytes is read yet.
    pub fn new(bytes: &'a [u8]) -> Reader<'a>
        ensures { result ≡ bytes.now }
    {
        Reader { left: bytes }
    }

    /// Whether nothing is left.
    pub fn is_at_end(&self) -> bool
        ensures { result ≡ (length self.now == 0) }
    {
        self.left.is_empty()
    }

    /// Whether a text is the next.
    pub fn is_before(&self, text: &[u8]) -> bool
        ensures { result ≡ is_some (after text.now self.now) }
    {
        match self.left.strip_prefix(text) {
            Some(_left) => true,
            None => false,
        }
    }

    /// Passes over a text, if it is the next. Otherwise nothing is read.
    pub fn skip(&mut self, text: &[u8]) -> bool
        ensures passed { after text.now self.old ≡ (if result then Some self.new else None) }
        ensures kept { result ≡ false → self.new ≡ self.old }
        ensures rest { IsRestOf self.new self.old }
    {
        if begin_otherwise(self.left, text) {
            return false;
        }
        match self.left.strip_prefix(text) {
            Some(left) => {
                self.left = left;
                true
            }
            None => false,
        }
    }

    /// Passes over a text that has to be the next. Otherwise nothing is read.
    pub fn expect(&mut self, text: &[u8]) -> Option<()>
        ensures passed { after text.now self.old ≡ option_map (λ _. self.new) result }
        ensures kept { result ≡ None → self.new ≡ self.old }
        ensures rest { IsRestOf self.new self.old }
    {
        if self.skip(text) { Some(()) } else { None }
    }

    /// The name that is the next word.
    #[tactic(auto, using(crate::proofs::Rests::rest_of_word), unfolding(crate::specs::Reading::read_name))]
    pub fn name(&mut self) -> Option<Name>
        ensures found { Finds result self.new (read_name self.old) }
        ensures rest { IsRestOf self.new self.old }
    {
        Name::read(self.word())
    }

    /// The number below a limit that is the next word, without leading zeros.
    #[tactic(auto, using(crate::proofs::Rests::rest_of_word), unfolding(crate::specs::Reading::read_number))]
    pub fn number(&mut self, limit: u64) -> Option<u64>
        ensures found { Finds result self.new (read_number limit self.old) }
        ensures below { IfSome result (λ n. n < limit) }
        ensures rest { IsRestOf self.new self.old }
    {
        number_of(self.word(), limit)
    }

    /// A pair of a variable and a value.
    #[tactic(auto, using(crate::proofs::Rests::rest_of_rest), unfolding(crate::specs::Reading::read_pair))]
    pub fn pair(&mut self) -> Option<PairText>
        ensures found { Finds result self.new (read_pair self.old) }
        ensures rest { IsRestOf self.new self.old }
    {
        let variable = self.name()?;
        self.expect(b"=")?;
        let value = self.name()?;
        Some(PairText { variable, value })
    }

    /// A question with its condition, which is written over another.
    #[tactic(auto, using(crate::proofs::Rests::rest_of_rest), unfolding(crate::specs::Reading::read_question))]
    pub fn question(&mut self, question: &mut QuestionText) -> Option<()>
        ensures found { Finds (option_map (λ _. question.new) result) self.new (read_question self.old) }
        ensures rest { IsRestOf self.new self.old }
    {
        question.target = self.pair()?;
        self.condition(&mut question.condition)
    }

    /// A condition of at most eight pairs, which is written over another. It may be empty.
    #[tactic(auto, using(crate::proofs::Rests::rest_of_rest), unfolding(crate::specs::Reading::read_condition))]
    pub fn condition(&mut self, pairs: &mut ArrayVec<PairText, 8>) -> Option<()>
        ensures found { Finds (option_map (λ _. pairs.new.items) result) self.new (read_condition self.old) }
        ensures rest { IsRestOf self.new self.old }
    {
        pairs.clear();
        if !self.skip(b" | ") {
            return Some(());
        }
        pairs.push(self.pair()?);
        self.more_pairs(pairs)
    }

    #[tactic(auto, using(crate::proofs::Rests::rest_of_rest, crate::proofs::Rests::rest_all))]
    fn more_pairs(&mut self, pairs: &mut ArrayVec<PairText, 8>) -> Option<()>
        requires { array_vec_len pairs.old ≤ 1 }
        ensures found { Finds (option_map (λ _. pairs.new.items) result) self.new (more_pairs pairs.old.items self.old) }
        ensures rest { IsRestOf self.new self.old }
    {
        'pairs: for _ in 0..7usize {
            if !self.skip(b", ") {
                return Some(());
            }
            pairs.push(self.pair()?);
        }
        Some(())
    }

    /// A price in its units, of which ten thousand million make one point.
    #[tactic(auto, using(crate::proofs::Rests::rest_of_rest, crate::proofs::Rests::rest_of_word), unfolding(crate::specs::Reading::read_price))]
    pub fn price(&mut self) -> Option<u64>
        ensures found { Finds result self.new (read_price self.old) }
        ensures at_most_one { IfSome result (λ price. price ≤ 10 ^ 10) }
        ensures rest { IsRestOf self.new self.old }
    {
        let whole = self.number(2)?;
        self.expect(b".")?;
        let part = ten_places_of(self.word())?;
        let price = whole * PRICE_UNIT + part;
        if price <= PRICE_UNIT {
            Some(price)
        } else {
            None
        }
    }

    /// Two numbers below a limit with two points between them.
    #[tactic(auto, using(crate::proofs::Rests::rest_of_rest), unfolding(crate::specs::Reading::read_range))]
    pub fn range(&mut self, limit: u64) -> Option<(u64, u64)>
        ensures found { Finds result self.new (read_range limit self.old) }
        ensures below { IfSome result (λ range. (range.0 < limit) × (range.1 < limit)) }
        ensures rest { IsRestOf self.new self.old }
    {
        let low = self.number(limit)?;
        self.expect(b"..")?;
        let high = self.number(limit)?;
        Some((low, high))
    }

    /// An interval within a million, or of nothing alone.
    #[tactic(auto, using(crate::proofs::Rests::rest_of_rest), unfolding(crate::specs::Reading::read_interval))]
    pub fn interval(&mut self) -> Option<(u32, u32)>
        ensures found { Finds result self.new (read_interval self.old) }
        ensures rest { IsRestOf self.new self.old }
    {
        let (low, high) = self.range(MILLION as u64)?;
        if low <= high && (1 <= low || high == 0) {
            Some((low as u32, high as u32))
        } else {
            None
        }
    }

    /// The two ends of limits within a million.
    #[tactic(auto, using(crate::proofs::Rests::rest_of_rest), unfolding(crate::specs::Reading::read_two_limits))]
    fn two_limits(&mut self) -> Option<(u32, u32)>
        ensures found { Finds result self.new (read_two_limits self.old) }
        ensures rest { IsRestOf self.new self.old }
    {
        let (low, high) = self.range(MILLION as u64)?;
        if 1 <= low && low <= high {
            Some((low as u32, high as u32))
        } else {
            None
        }
    }

    /// Limits within a million, or none.
    #[tactic(auto, using(crate::proofs::Rests::rest_of_rest), unfolding(crate::specs::Reading::read_limits))]
    pub fn limits(&mut self) -> Option<Option<(u32, u32)>>
        ensures found { Finds result self.new (read_limits self.old) }
        ensures rest { IsRestOf self.new self.old }
    {
        if self.skip(b"none") {
            return Some(None);
        }
        let limits = self.two_limits()?;
        Some(Some(limits))
    }

    /// Two prices with two points between them.
    #[tactic(auto, using(crate::proofs::Rests::rest_of_rest), unfolding(crate::specs::Reading::read_two_prices))]
    pub fn two_prices(&mut self) -> Option<(u64, u64)>
        ensures found { Finds result self.new (read_two_prices self.old) }
        ensures rest { IsRestOf self.new self.old }
    {
        let least = self.price()?;
        self.expect(b"..")?;
        let most = self.price()?;
        Some((least, most))
    }

    /// Two numbers below 2^63 with two points between them, or none.
    #[tactic(auto, using(crate::proofs::Rests::rest_of_rest), unfolding(crate::specs::Reading::read_ends))]
    pub fn ends(&mut self) -> Option<Option<(u64, u64)>>
        ensures found { Finds result self.new (read_ends self.old) }
        ensures rest { IsRestOf self.new self.old }
    {
        if self.skip(b"none") {
            return Some(None);
        }
        let ends = self.range(1 << 63)?;
        Some(Some(ends))
    }

    /// Passes over the next word, which is the longest run of letters, digits and underscores. It may be empty.
    #[tactic(auto, unfolding(crate::specs::Words::word, crate::specs::Words::behind_word))]
    fn word(&mut self) -> &'a [u8]
        ensures word { result.now ≡ word self.old }
        ensures left { self.new ≡ behind_word self.old }
    {
        let bytes = self.left;
        let size = word_len(bytes);
        self.left = &bytes[size..];
        &bytes[..size]
    }
}

/// Whether the first byte of a text is another than that of some bytes: most texts that are not the next are told by it,
/// without a call.
fn begin_otherwise(bytes: &[u8], text: &[u8]) -> bool
    ensures { result ≡ true → after text.now bytes.now ≡ None }
{
    if bytes.is_empty() || text.is_empty() {
        return false;
    }
    bytes[0] != text[0]
}
