//! What the front of a store file says of it.

ghost use Rattle.std.specs.Prelude.{◌≡◌, ◌≢◌, ℕ, ◌+◌, ◌^◌, ◌<◌, ◌≤◌, List, ◌∷◌, ◌++◌, length, take, drop, IfNone, IsTrue, ◌↔◌};
ghost use Rattle.mk_journal.specs.Store.{header, begun, foreign_from};
ghost use Rattle.mk_journal.specs.inner.Reading.{IsKind, IsLong};

/// Which of the files without a header a file is.
#[derive(Clone, Copy, Drop)]
pub(crate) enum Unstarted {
    /// It has at most one byte.
    Short,
    /// Its first byte is 0, and no more than a header and a gate stand behind it.
    Cleared,
    /// The header stands behind its closed gate.
    Written,
}

/// What a file is to a market.
#[derive(Clone, Copy, Drop)]
pub(crate) enum Kind {
    /// It has no header yet.
    New(Unstarted),
    /// It has the market's header.
    Own,
    /// From this place on it is another's.
    Alien(u64),
}

// Where bytes differ from a header or end with it, counted from one on.
fn foreign_at(head: &[u8], bytes: &[u8]) -> Option<usize>
    requires { length head.now < 2 ^ 63 }
    ensures value { result ≡ foreign_from 1 head.now bytes.now }
    ensures same { IfNone result (take (length head.now) bytes.now ≡ head.now) }
    ensures longer { IfNone result (length head.now < length bytes.now) }
{
    for (i, h) in head.iter().enumerate() {
        if i >= bytes.len() || bytes[i] != *h {
            return Some(i + 1);
        }
    }
    if bytes.len() <= head.len() {
        return Some(head.len() + 1);
    }
    None
}

// A file of `len` bytes, two or more, that begins with a closed gate: `whole` bytes are a header between two gates.
fn closed_kind(gate: u8, has_header: bool, len: u64, whole: u64) -> Kind
    ensures long { (size count : ℕ) → 1 ≤ count → (IsTrue has_header → size ≤ count) → IsLong result size count }
    ensures kind { (market rest : List ℕ) → gate ≢ 1 → len ≡ length (gate ∷ rest) → 1 < len → whole ≡ length market + 18
        → (IsTrue has_header ↔ (take (length (header market)) rest ≡ header market))
        → IsKind market (gate ∷ rest) result }
{
    if len > whole {
        return Kind::Alien(0);
    }
    if has_header && (gate == 0 || len == whole) {
        return Kind::New(Unstarted::Written);
    }
    if gate == 0 {
        return Kind::New(Unstarted::Cleared);
    }
    Kind::Alien(0)
}

/// What a file of `len` bytes is to a market, by its first bytes, as many as a header between two gates. `body` is the
/// header with a closed first gate behind it.
pub(crate) fn kind_of(front: &[u8], len: u64, body: &[u8]) -> Kind
    requires { 1 ≤ length body.now }
    ensures long { IsLong result (length body.now) (length front.now) }
    ensures kind { (market file : List ℕ) → body.now ≡ begun market → front.now ≡ take (length body.now + 1) file → len ≡ length file
        → IsKind market file result }
{
    let Some((gate, behind)) = front.split_first() else {
        return Kind::New(Unstarted::Short);
    };
    if len <= 1 {
        return Kind::New(Unstarted::Short);
    }
    let header = &body[..body.len() - 1];
    if *gate != 1 {
        return closed_kind(
            *gate,
            behind.starts_with(header),
            len,
            body.len() as u64 + 1,
        );
    }
    match foreign_at(header, behind) {
        Some(at) => Kind::Alien(at as u64),
        None => Kind::Own,
    }
}
