//! The cutting of one line.

ghost use Rattle.std.specs.Prelude.{◌≡◌, ℕ, ◌+◌, ◌≤◌, List, Option, Contains, length};
ghost use Rattle.mk_io.specs.Stream.{max_line_bytes};
ghost use Rattle.mk_io.specs.Outside.{LeavesRest, prepend_known};
ghost use Rattle.mk_io.specs.inner.Cut.{CutsLine, CountsCutFault, IsWhole};

use crate::outside::Inputs;
use crate::pending::Pending;
use crate::text::Text;
use memchr::memchr;

/// How the bytes of a line ended.
pub enum Cut {
    /// With an LF, which was taken and is counted in the number of bytes.
    Whole(u64),
    /// With the stream, after this number of bytes.
    Last(u64),
    /// With a read that failed.
    Fault,
    /// With a byte for which there was no room.
    Full,
}

/// Takes the bytes of a line up to its LF, of which there may be `room`, and keeps the first of them. A line that was read whole is
/// taken at once.
pub fn cut_line<I: Inputs>(pending: &mut Pending, text: &mut Text, inputs: &mut I, room: u64) -> Cut
    ensures cut { CutsLine result (max_line_bytes + 1) text.new room
        (prepend_known pending.old (I.commands inputs.old)) pending.new (I.commands inputs.new) }
    ensures rest { LeavesRest (I.market inputs.old) (I.market inputs.new) (I.file inputs.old) (I.file inputs.new) }
    ensures cause { CountsCutFault result (I.faults inputs.old) (I.faults inputs.new) }
    ensures unread { Contains pending.old 10 → inputs.new ≡ inputs.old }
    ensures whole { Contains pending.old 10 → length pending.old ≤ room → IsWhole result }
{
    match memchr(b'\n', pending.as_slice()) {
        Some(end) if (end as u64) < room => {
            text.put(&pending.as_slice()[..end]);
            pending.pass(end + 1);
            Cut::Whole(end as u64 + 1)
        }
        _ => cut_by_bytes(pending, text, inputs, room),
    }
}

/// The same, byte by byte.
#[inline(never)]
fn cut_by_bytes<I: Inputs>(pending: &mut Pending, text: &mut Text, inputs: &mut I, room: u64) -> Cut
    ensures cut { CutsLine result (max_line_bytes + 1) text.new room
        (prepend_known pending.old (I.commands inputs.old)) pending.new (I.commands inputs.new) }
    ensures rest { LeavesRest (I.market inputs.old) (I.market inputs.new) (I.file inputs.old) (I.file inputs.new) }
    ensures cause { CountsCutFault result (I.faults inputs.old) (I.faults inputs.new) }
    ensures unread { Contains pending.old 10 → inputs.new ≡ inputs.old }
    ensures whole { Contains pending.old 10 → length pending.old ≤ room → IsWhole result }
{
    text.clear();
    let mut size = 0;
    loop {
        match pending.refill(inputs) {
            Err(_) => return Cut::Fault,
            Ok(false) => return Cut::Last(size),
            Ok(true) => {
                let byte = pending.next_byte();
                if size == room {
                    return Cut::Full;
                }
                size += 1;
                if byte == b'\n' {
                    return Cut::Whole(size);
                }
                text.push(byte);
            }
        }
    }
}
