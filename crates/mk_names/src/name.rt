//! Names of users, variables and values.

ghost use Rattle.std.specs.Prelude.{◌≡◌, IfSome, IsSome, IsTrue, ◌↔◌};
ghost use Rattle.mk_names.specs.Below.{partial_equiv_from_equiv, list_all};
ghost use Rattle.std.specs.Hash as fed;
ghost use Rattle.mk_names.specs.Name.{IsName};
ghost use Rattle.mk_names.specs.Name as name;
ghost use Rattle.mk_names.specs.Texts.{same_text};
ghost use Rattle.mk_names.specs.inner.TextLaws.{same_text_equiv, alike_fed};

use std::hash::{Hash, Hasher};
use std::marker::Model;

/// A name: one letter from `a` to `z` and then letters, digits and `_`, at most 32 bytes together.
#[derive(Clone, Copy, Debug)]
pub struct Name {
    bytes: [u8; 32],
    size: u8,
}

impl Model for Name {
    ghost use Rattle.std.specs.Prelude.{ℕ, List, length, take};
    ghost use Rattle.mk_names.specs.inner.Padded.{IsPadded, padded};

    ghost Value = { List ℕ };

    ghost view = { λ n. take n.size n.bytes };

    ghost invariant = { λ n. IsPadded n.bytes n.size };

    ghost inverse = { λ name. record { bytes = padded name; size = length name } };

    ghost use Rattle.std.specs.Prelude.{refl};
    ghost use Rattle.mk_names.specs.inner.PaddedLaws.{padded_inverse};

    ghost inverse_ok = { λ n kept. padded_inverse n (record { bytes = padded (take n.size n.bytes); size = length (take n.size n.bytes) }) refl refl kept };
}

/// The name `a`.
impl Default for Name {
    ghost use Rattle.std.specs.Prelude.{◌≡◌, [], ◌∷◌};

    ghost is_default = { λ name. name ≡ 97 ∷ [] };

    fn default() -> Name {
        let mut bytes = [0; 32];
        bytes[0] = b'a';
        Name { bytes, size: 1 }
    }
}

/// Names are equal where their bytes are.
impl PartialEq for Name {
    ghost eq = { same_text };

    ghost laws = { partial_equiv_from_equiv same_text_equiv };

    fn eq(&self, other: &Name) -> bool {
        self.bytes() == other.bytes()
    }
}

impl Eq for Name {
    ghost laws = { same_text_equiv };
}

impl Hash for Name {
    ghost hash_input = { fed.slice fed.u8 };

    ghost respects_eq = { alike_fed };

    fn hash<H: Hasher>(&self, state: &mut H) {
        self.bytes().hash(state);
    }
}

impl Name {
    /// The name with these bytes. None exactly where they are no name.
    pub fn read(bytes: &[u8]) -> Option<Name>
        ensures some { IsSome result ↔ IsName bytes.now }
        ensures same { IfSome result (λ name. name ≡ bytes.now) }
    {
        if !is_name(bytes) {
            return None;
        }
        let mut kept = [0; 32];
        kept[..bytes.len()].copy_from_slice(bytes);
        Some(Name {
            bytes: kept,
            size: bytes.len() as u8,
        })
    }

    /// Its bytes.
    pub fn bytes(&self) -> &[u8]
        ensures same { result.now ≡ self.now }
        ensures name { IsName self.now }
    {
        &self.bytes[..self.size as usize]
    }
}

/// Whether the bytes are a name.
pub fn is_name(bytes: &[u8]) -> bool
    ensures test { result ≡ name.is_name bytes.now }
    ensures name { IsTrue result ↔ IsName bytes.now }
{
    if bytes.len() > 32 {
        return false;
    }
    begins_with_letter(bytes) && all_name_bytes(bytes)
}

fn all_name_bytes(bytes: &[u8]) -> bool
    ensures { result ≡ list_all name.is_name_byte bytes.now }
{
    bytes.iter().all(|byte| is_name_byte(*byte))
}

fn begins_with_letter(bytes: &[u8]) -> bool
    ensures { result ≡ name.begins_with_letter bytes.now }
{
    match bytes {
        [] => false,
        [first, ..] => is_lowercase(*first),
    }
}

fn is_lowercase(byte: u8) -> bool
    ensures { result ≡ name.is_lowercase byte }
{
    byte.is_ascii_lowercase()
}

fn is_name_byte(byte: u8) -> bool
    ensures { result ≡ name.is_name_byte byte }
{
    is_lowercase(byte) || byte.is_ascii_digit() || byte == b'_'
}
