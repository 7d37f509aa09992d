//! The records of changes, as a keeper takes them.

ghost use Rattle.std.specs.Prelude.{◌≡◌, ℕ, ◌+◌, ◌-◌, ◌^◌, ◌<◌, ◌≤◌, ◌∷◌, ◌++◌};
ghost use Rattle.std.specs.Prelude.{length, take};
ghost use Rattle.mk_session.specs.Below.{MAX_ANSWER_BYTES, MAX_LINE_BYTES, MAX_RECORD_BYTES};
ghost use Rattle.mk_session.specs.inner.Keeping.{TakesChange};

use arrayvec::ArrayVec;
use mk_disk::DiskFailed;
use mk_journal::Keeper;
use mk_names::limits::MAX_RECORD_BYTES;

/// The bytes of a short record. Most have fewer than a hundred, and a room for any would take
/// longer to clear than all else that a change takes.
const SHORT: usize = 1024;

/// Puts a line, LF and the text of a reply into `made`, in place of what it held.
fn put_record<const ROOM: usize>(line: &[u8], reply: &[u8], made: &mut ArrayVec<u8, ROOM>)
    requires { length line.now + 1 + length reply.now ≤ ROOM }
    ensures { made.new.items ≡ line.now ++ 10 ∷ reply.now }
{
    made.clear();
    let Ok(()) = made.try_extend_from_slice(line) else {
        unreachable!()
    };
    made.push(b'\n');
    let Ok(()) = made.try_extend_from_slice(reply) else {
        unreachable!()
    };
}

/// Takes the change that a line made, by the printed line of its reply. Its record has at most so
/// many bytes.
fn take_within<const ROOM: usize, D, J: Keeper<D>>(
    line: &[u8],
    printed: &[u8],
    keeper: &mut J,
    disk: &mut D,
) -> Result<(), DiskFailed>
    requires room { ROOM ≤ MAX_RECORD_BYTES }
    requires within { length line.now + length printed.now ≤ ROOM }
    requires some { 1 ≤ length printed.now }
    requires ready { (n : ℕ) × (n < 2 ^ 40) × J.is_ready keeper.old disk.old n }
    ensures { TakesChange J.is_ready J.faults J.holds J.leaves J.passes result keeper.old keeper.new
        disk.old disk.new (line.now ++ 10 ∷ take (length printed.now - 1) printed.now) }
{
    let mut made = ArrayVec::<u8, ROOM>::new();
    put_record(line, &printed[..printed.len() - 1], &mut made);
    keeper.take(disk, made.as_slice())
}

/// Takes the change that a line made, by the printed line of its reply.
pub fn take_change<D, J: Keeper<D>>(
    line: &[u8],
    printed: &[u8],
    keeper: &mut J,
    disk: &mut D,
) -> Result<(), DiskFailed>
    requires line { length line.now ≤ MAX_LINE_BYTES }
    requires some { 1 ≤ length printed.now }
    requires most { length printed.now ≤ MAX_ANSWER_BYTES }
    requires ready { (n : ℕ) × (n < 2 ^ 40) × J.is_ready keeper.old disk.old n }
    ensures { TakesChange J.is_ready J.faults J.holds J.leaves J.passes result keeper.old keeper.new
        disk.old disk.new (line.now ++ 10 ∷ take (length printed.now - 1) printed.now) }
{
    if line.len() + printed.len() <= SHORT {
        take_within::<SHORT, D, J>(line, printed, keeper, disk)
    } else {
        take_within::<MAX_RECORD_BYTES, D, J>(line, printed, keeper, disk)
    }
}
