//! Reading several things with a space between them: as many as a variable may have values.

ghost use Rattle.std.specs.Prelude.{◌≡◌, ◌≤◌, option_map};
ghost use Rattle.arrayvec.specs.ArrayVec.{array_vec_len};
ghost use Rattle.mk_text.specs.Words.{IsRestOf};
ghost use Rattle.mk_text.specs.Reading.{Finds, read_several, read_intervals, more_spaced};

use crate::reader::Reader;
use arrayvec::ArrayVec;

/// What a short number is below: it has at most nine digits.
const SHORT_END: u64 = 1_000_000_000;

/// A thing of which a text may have several.
pub trait Item: Copy + Default {
    ghost use Rattle.mk_text.specs.Reading.{Read};

    ghost reads: { Read Self };

    /// The thing that is next.
    fn next(reader: &mut Reader) -> Option<Self>
        ensures found { Finds result reader.new (reads reader.old) }
        ensures rest { IsRestOf reader.new reader.old };
}

/// A number of at most nine digits.
impl Item for u32 {
    ghost use Rattle.mk_text.specs.Reading.{read_short};

    ghost reads = { read_short };

    #[tactic(auto, unfolding(crate::specs::Reading::read_short))]
    fn next(reader: &mut Reader) -> Option<u32> {
        let number = reader.number(SHORT_END)?;
        Some(number as u32)
    }
}

/// The units of a ratio, from 1 to `2^63 - 1`.
impl Item for u64 {
    ghost use Rattle.mk_text.specs.Reading.{read_units};

    ghost reads = { read_units };

    #[tactic(auto, unfolding(crate::specs::Reading::read_units))]
    fn next(reader: &mut Reader) -> Option<u64> {
        let units = reader.number(1 << 63)?;
        if units >= 1 { Some(units) } else { None }
    }
}

/// An interval within a million, or of nothing alone.
impl Item for (u32, u32) {
    ghost use Rattle.mk_text.specs.Reading.{read_interval};

    ghost reads = { read_interval };

    fn next(reader: &mut Reader) -> Option<(u32, u32)> {
        reader.interval()
    }
}

/// Two prices.
impl Item for (u64, u64) {
    ghost use Rattle.mk_text.specs.Reading.{read_two_prices};

    ghost reads = { read_two_prices };

    fn next(reader: &mut Reader) -> Option<(u64, u64)> {
        reader.two_prices()
    }
}

/// Two numbers below `2^63`, or none.
impl Item for Option<(u64, u64)> {
    ghost use Rattle.mk_text.specs.Reading.{read_ends};

    ghost reads = { read_ends };

    fn next(reader: &mut Reader) -> Option<Option<(u64, u64)>> {
        reader.ends()
    }
}

/// 2 to 16 things with a space between them. A revision may stand behind the last.
#[tactic(auto, using(crate::proofs::Rests::rest_of_rest), unfolding(crate::specs::Reading::read_several))]
pub fn several<T: Item>(reader: &mut Reader) -> Option<ArrayVec<T, 16>>
    ensures found { Finds (option_map (λ items. items.items) result) reader.new (read_several T.reads reader.old) }
    ensures rest { IsRestOf reader.new reader.old }
{
    let mut items = ArrayVec::new();
    items.push(T::next(reader)?);
    more(reader, &mut items)?;
    if items.len() < 2 {
        return None;
    }
    Some(items)
}

/// Reads the things behind the first.
#[tactic(auto, using(crate::proofs::Rests::rest_of_rest, crate::proofs::Rests::rest_all))]
fn more<T: Item>(reader: &mut Reader, items: &mut ArrayVec<T, 16>) -> Option<()>
    requires { array_vec_len items.old ≤ 1 }
    ensures found { Finds (option_map (λ _. items.new.items) result) reader.new (more_spaced T.reads items.old.items reader.old) }
    ensures rest { IsRestOf reader.new reader.old }
{
    'items: for _ in 0..15usize {
        if reader.is_before(b" at ") || !reader.skip(b" ") {
            return Some(());
        }
        items.push(T::next(reader)?);
    }
    Some(())
}

/// Intervals for the values of a variable, or none.
#[tactic(auto, using(crate::proofs::Rests::rest_of_rest), unfolding(crate::specs::Reading::read_intervals))]
pub fn intervals(reader: &mut Reader) -> Option<Option<ArrayVec<(u32, u32), 16>>>
    ensures found { Finds (option_map (option_map (λ intervals. intervals.items)) result) reader.new (read_intervals reader.old) }
    ensures rest { IsRestOf reader.new reader.old }
{
    if reader.skip(b"none") {
        return Some(None);
    }
    let intervals = several(reader)?;
    Some(Some(intervals))
}
