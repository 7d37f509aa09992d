//! Reading a row of an added question.

ghost use Rattle.std.specs.Prelude.{◌≡◌, ◌≤◌, length, codes};
ghost use Rattle.mk_text.specs.Words.{IsRestOf};
ghost use Rattle.mk_text.specs.Reading.{Finds, read_short};
ghost use Rattle.mk_addition.specs.Reading.{more, read_row, before_clique};

use mk_net::Row;
use mk_text::{Item, Reader};

/// 1 to 16 numbers of at most nine digits with a space between them. The clique may stand behind.
#[tactic(auto, using(crate::proofs::Ends::rests), unfolding(crate::specs::Reading::read_list))]
pub(crate) fn read_row(reader: &mut Reader) -> Option<Row>
    ensures found { Finds result reader.new (read_row reader.old) }
    ensures rest { IsRestOf reader.new reader.old }
{
    let first = Row::empty().with(u32::next(reader)?)?;
    more_numbers(reader, first)
}

/// Reads the numbers behind the first.
#[tactic(auto, using(crate::proofs::Ends::rests))]
fn more_numbers(reader: &mut Reader, first: Row) -> Option<Row>
    requires { length first ≤ 1 }
    ensures found { Finds result reader.new
        (more before_clique (codes " ") read_short 15 first reader.old) }
    ensures rest { IsRestOf reader.new reader.old }
{
    let mut row = first;
    'numbers: for _ in 1..16usize {
        if reader.is_before(b" in ") || !reader.skip(b" ") {
            return Some(row);
        }
        row = row.with(u32::next(reader)?)?;
    }
    Some(row)
}
