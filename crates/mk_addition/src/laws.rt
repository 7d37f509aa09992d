//! Laws of the texts of added questions.

ghost use Rattle.std.specs.Prelude.{◌≡◌, ◌≤◌, length, MatchResult};
ghost use Rattle.mk_addition.specs.Below.{MAX_LINE_BYTES};
ghost use Rattle.mk_addition.specs.Adds.{IsAddText, add_text};
ghost use Rattle.mk_addition.specs.declared.add.AddText.{AddText};

use crate::add::AddText;
use crate::print::print_add;
use crate::read::read_add;
use arrayvec::ArrayString;
use mk_net::Syntax;

/// No two added questions share a text.
pub fn one_add_each()
    ensures { (a b : AddText) → IsAddText a → IsAddText b → add_text a ≡ add_text b → a ≡ b }
{}

/// The text of each added question has at most 11,580 bytes.
pub fn longest_add()
    ensures { (a : AddText) → IsAddText a → length (add_text a) ≤ 11580 }
{}

/// What is read of the text of an added question: the same question.
pub fn read_printed<'a>(add: &AddText, words: &'a mut AddText) -> Result<&'a AddText, Syntax>
    requires fits { IsAddText add.now }
    requires short { length (add_text add.now) ≤ MAX_LINE_BYTES }
    ensures { MatchResult result (λ read. read.now ≡ add.now) (λ _. ⊥) }
{
    let mut text = ArrayString::new();
    print_add(add, &mut text);
    read_add(text.as_bytes(), words)
}
