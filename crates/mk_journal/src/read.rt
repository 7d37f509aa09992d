//! The records of a store file.

ghost use Rattle.std.specs.Prelude.{◌≡◌, ◌≢◌, ℕ, ◌+◌, ◌*◌, ◌^◌, ◌<◌, ◌≤◌, List, ◌∷◌, ◌++◌, length, MatchOption, IfOk};
ghost use Rattle.mk_journal.specs.Store.{IsLength, NoRecord, framed};
ghost use Rattle.mk_journal.specs.Opening.{IfGate};
ghost use Rattle.mk_journal.specs.inner.Reading.{IsRead};

use mk_names::limits::MAX_RECORD_BYTES;
use std::alloc::{AllocError, Global};

/// What ends the records of a store.
#[derive(Clone, Copy, Debug, PartialEq, Eq, Drop)]
pub enum End {
    /// The closed gate at this place.
    Gate(u64),
    /// An open gate, and no well-formed record behind it.
    Malformed,
}

/// The records of a store up to their end.
#[derive(Drop)]
pub struct Found {
    pub records: Vec<Vec<u8>>,
    pub end: End,
}

// What stands behind an open gate; none behind a closed one, or where there is no gate.
fn behind_gate(bytes: &[u8]) -> Option<&[u8]>
    ensures { MatchOption result
        (0 < length bytes.now → (gate : ℕ) × (rest : List ℕ) × (gate ≢ 1) × (bytes.now ≡ gate ∷ rest))
        (λ after. bytes.now ≡ 1 ∷ after.now) }
{
    match bytes {
        [1, after @ ..] => Some(after),
        _ => None,
    }
}

// A record and what stands behind it.
fn first_record(bytes: &[u8]) -> Option<(&[u8], &[u8])>
    ensures { MatchOption result (NoRecord bytes.now)
        (λ p. IsLength (length p.0.now) × (0 < length p.1.now) × (bytes.now ≡ framed p.0.now ++ p.1.now)) }
{
    if let [a, b, c, d, rest @ ..] = bytes {
        let len = u32::from_be_bytes([*a, *b, *c, *d]) as usize;
        if 1 <= len && len <= MAX_RECORD_BYTES && len < rest.len() {
            return Some((&rest[..len], &rest[len..]));
        }
    }
    None
}

/// The records at the front of some bytes of a store, which stand from `place` on.
pub(crate) fn read_records(alloc: Global, bytes: &[u8], place: u64) -> Result<Found, AllocError>
    requires { place < 2 ^ 63 }
    ensures records { 0 < length bytes.now → IfOk result (IsRead place bytes.now) }
    ensures near { IfOk result (λ found. IfGate found.end (λ gate. gate ≤ place + 34005 * length found.records.items)) }
{
    let mut records = Vec::new(alloc);
    let mut rest = bytes;
    while let Some(after) = behind_gate(rest) {
        let Some((record, next)) = first_record(after) else {
            return Ok(Found {
                records,
                end: End::Malformed,
            });
        };
        records.push(record.to_vec(alloc)?)?;
        rest = next;
    }
    let gate = place + (bytes.len() - rest.len()) as u64;
    Ok(Found {
        records,
        end: End::Gate(gate),
    })
}
