//! How long the text of an added question is.

ghost use Rattle.std.specs.Prelude.{◌≡◌, ◌≤◌, length};
ghost use Rattle.mk_net.specs.Bounds.{max_parents};
ghost use Rattle.mk_addition.specs.Adds.{add_text, parents_text};

use crate::add::AddText;
use crate::list::list_length;
use crate::writable::Writable;
use mk_names::Name;

/// How many bytes the text of an added question has.
pub fn text_length(add: &AddText) -> u32
    ensures { result ≡ length (add_text add.now) }
{
    let variable = "add ".len() + add.variable.text_length() + "=".len();
    let values = list_length(",", add.values.as_slice());
    let parents = parents_length(add.parents.as_slice());
    let rows = " : ".len() + list_length(", ", add.rows.as_slice());
    let clique = " in ".len() + list_length(",", add.clique.as_slice());
    let link = " to ".len() + add.link.text_length();
    (variable + values + parents + rows + clique + link) as u32
}

fn parents_length(parents: &[Name]) -> usize
    requires { length parents.now ≤ max_parents }
    ensures exact { result ≡ length (parents_text parents.now) }
    ensures few { result ≤ 267 }
{
    if parents.is_empty() {
        return 0;
    }
    " | ".len() + list_length(",", parents)
}
