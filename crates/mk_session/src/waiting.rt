//! What waits: the lines of the output, so that one write takes many of them, and the changes that
//! they tell. All changes are kept before any of the lines is written, and these before more is
//! read: whoever waits for an answer has it before the run waits for a line.

ghost use Rattle.std.specs.Prelude.{◌≡◌, ℕ, ◌^◌, ◌<◌, ◌≤◌, [], length, true, false, OnOk};
ghost use Rattle.mk_session.specs.Below.{MAX_ANSWER_BYTES};
ghost use Rattle.mk_session.specs.inner.Keeping.{IsTold};

use crate::print::LineBuffer;
use mk_io::{Sink, write_all};
use mk_journal::Keeper;

/// Why what waits was not told.
#[derive(Clone, Copy)]
pub enum TellFault {
    /// The changes could not be kept, and no line was written.
    Disk,
    /// All changes are kept, and the lines could not be written.
    Sink,
}

/// Keeps the changes that wait, and then writes the lines, unless these may wait. Every line behind
/// the ready line is written here.
#[inline(always)]
pub fn write_unless<D, J: Keeper<D>, S: Sink>(
    may_wait: bool,
    waiting: &mut LineBuffer,
    keeper: &mut J,
    out: &mut S,
    disk: &mut D,
) -> Result<(), TellFault>
    requires { (n : ℕ) × (n < 2 ^ 40) × J.is_ready keeper.old disk.old n }
    ensures told { IsTold J.is_ready J.faults J.holds J.leaves J.passes S.written S.faults result
        keeper.old keeper.new disk.old disk.new out.old out.new waiting.old.bytes []
        waiting.new.bytes }
    ensures waits { may_wait ≡ true → waiting.new.bytes ≡ waiting.old.bytes }
    ensures none { may_wait ≡ false → OnOk result (waiting.new.bytes ≡ []) }
{
    if may_wait {
        return Ok(());
    }
    match keeper.keep(disk) {
        Err(_) => Err(TellFault::Disk),
        Ok(()) => match write_all(out, waiting.as_bytes()) {
            Err(_) => Err(TellFault::Sink),
            Ok(()) => {
                waiting.clear();
                Ok(())
            }
        },
    }
}

/// Puts a line behind those that wait, which are kept and written first where there is no room for
/// it.
pub fn put_line<D, J: Keeper<D>, S: Sink>(
    line: &str,
    waiting: &mut LineBuffer,
    keeper: &mut J,
    out: &mut S,
    disk: &mut D,
) -> Result<(), TellFault>
    requires size { length line.now ≤ MAX_ANSWER_BYTES }
    requires ready { (n : ℕ) × (n < 2 ^ 40) × J.is_ready keeper.old disk.old n }
    ensures { IsTold J.is_ready J.faults J.holds J.leaves J.passes S.written S.faults result
        keeper.old keeper.new disk.old disk.new out.old out.new waiting.old.bytes line.now
        waiting.new.bytes }
{
    let fits = line.len() <= waiting.remaining_capacity();
    match write_unless(fits, waiting, keeper, out, disk) {
        Ok(()) => {
            waiting.push_str(line);
            Ok(())
        }
        Err(fault) => Err(fault),
    }
}
