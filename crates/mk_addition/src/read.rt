//! Reading the words of an added question.

ghost use Rattle.std.specs.Prelude.{◌≡◌, ◌≢◌, IfOk, OnErr, option_map};
ghost use Rattle.mk_addition.specs.Below.{IsRestOf, Finds};
ghost use Rattle.mk_addition.specs.Adds.{IsAddText, add_text};
ghost use Rattle.mk_addition.specs.Reading.{read_values, read_parents, read_shares};
ghost use Rattle.mk_addition.specs.Reading.{read_place, read_addition, read_add};
ghost use Rattle.mk_addition.specs.declared.add.AddText.{AddText};

use crate::add::AddText;
use crate::list::read_list;
use arrayvec::ArrayVec;
use mk_names::Name;
use mk_net::{Row, Syntax};
use mk_text::{Item, Reader};

/// The added question of which these bytes are the text, with its words in `words`, where they are
/// written over those of another. Syntax where the bytes are the text of no added question.
pub fn read_add<'a>(line: &[u8], words: &'a mut AddText) -> Result<&'a AddText, Syntax>
    ensures found { IfOk result (λ add. IsAddText add.now × (line.now ≡ add_text add.now)) }
    ensures none { OnErr result ((add : AddText) → IsAddText add → line.now ≢ add_text add) }
{
    let mut reader = Reader::new(line);
    let Some(()) = add(&mut reader, words) else {
        return Err(Syntax);
    };
    if reader.is_at_end() {
        Ok(words)
    } else {
        Err(Syntax)
    }
}

#[tactic(auto, unfolding(crate::specs::Reading::read_add))]
fn add(reader: &mut Reader, words: &mut AddText) -> Option<()>
    ensures { Finds (option_map (λ _. words.new) result) reader.new (read_add reader.old) }
{
    reader.expect(b"add ")?;
    read_addition(reader, words)
}

/// Reads what stands behind the word `add `, and writes it over another's words. None where no such
/// words stand next; nothing is said of what `words` holds then.
#[tactic(auto, using(crate::proofs::Ends::rests), unfolding(crate::specs::Reading::read_addition))]
pub fn read_addition(reader: &mut Reader, words: &mut AddText) -> Option<()>
    ensures found { Finds (option_map (λ _. words.new) result) reader.new
        (read_addition reader.old) }
    ensures rest { IsRestOf reader.new reader.old }
{
    words.variable = reader.name()?;
    reader.expect(b"=")?;
    read_values(reader, &mut words.values)?;
    read_parents(reader, &mut words.parents)?;
    words.link = read_shares(reader, &mut words.rows, &mut words.clique)?;
    Some(())
}

#[tactic(auto, unfolding(crate::specs::Reading::read_values))]
fn read_values(reader: &mut Reader, values: &mut ArrayVec<Name, 16>) -> Option<()>
    ensures found { Finds (option_map (λ _. values.new.items) result) reader.new
        (read_values reader.old) }
    ensures rest { IsRestOf reader.new reader.old }
{
    read_list(reader, b",", values)?;
    if values.len() >= 2 { Some(()) } else { None }
}

#[tactic(auto, using(crate::proofs::Ends::rests), unfolding(crate::specs::Reading::read_parents))]
fn read_parents(reader: &mut Reader, parents: &mut ArrayVec<Name, 8>) -> Option<()>
    ensures found { Finds (option_map (λ _. parents.new.items) result) reader.new
        (read_parents reader.old) }
    ensures rest { IsRestOf reader.new reader.old }
{
    if reader.skip(b" | ") {
        return read_list(reader, b",", parents);
    }
    parents.clear();
    Some(())
}

/// Reads rows and what stands behind them, and gives the number of the linked clique.
#[tactic(auto, using(crate::proofs::Ends::rests), unfolding(crate::specs::Reading::read_shares))]
fn read_shares(
    reader: &mut Reader,
    rows: &mut ArrayVec<Row, 64>,
    clique: &mut ArrayVec<Name, 13>,
) -> Option<u32>
    ensures found { Finds (option_map (λ link. (rows.new.items, (clique.new.items, link))) result)
        reader.new (read_shares reader.old) }
    ensures rest { IsRestOf reader.new reader.old }
{
    reader.expect(b" : ")?;
    read_list(reader, b", ", rows)?;
    reader.expect(b" in ")?;
    read_place(reader, clique)
}

/// Reads the names of a clique, and gives the number of the clique to which it is linked.
#[tactic(auto, using(crate::proofs::Ends::rests), unfolding(crate::specs::Reading::read_place))]
fn read_place(reader: &mut Reader, clique: &mut ArrayVec<Name, 13>) -> Option<u32>
    ensures found { Finds (option_map (λ link. (clique.new.items, link)) result) reader.new
        (read_place reader.old) }
    ensures rest { IsRestOf reader.new reader.old }
{
    read_list(reader, b",", clique)?;
    reader.expect(b" to ")?;
    u32::next(reader)
}
