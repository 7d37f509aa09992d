//! The record of one change, and how it is kept.

ghost use Rattle.std.specs.Prelude.{◌≡◌, ◌+◌, ◌<◌, ◌≤◌, ◌^◌, ℕ, List, [], ◌∷◌, ◌++◌, length, OnOk};
ghost use Rattle.mk_durable.specs.Below.{MAX_RECORD_BYTES};
ghost use Rattle.mk_durable.specs.Below.{HasShortNumbers, command_text, reply_text, HasCause};
ghost use Rattle.mk_durable.specs.Below.{IsHeld, IsReady, IsFront, LeavesOnly};

use arrayvec::{ArrayString, ArrayVec};
use mk_command::{Command, print_command};
use mk_disk::{Disk, DiskFailed};
use mk_journal::{Keeper, Store};
use mk_names::limits::{MAX_ANSWER_BYTES, MAX_LINE_BYTES, MAX_RECORD_BYTES};
use mk_reply::{Reply, print_reply};

/// Puts the record of a change into `room`, in place of what it held.
fn put_record(command: &Command, reply: &Reply, room: &mut ArrayVec<u8, MAX_RECORD_BYTES>)
    requires { HasShortNumbers command.now }
    ensures record { room.new.items ≡ command_text command.now ++ 10 ∷ reply_text reply.now }
    ensures size { length room.new.items ≤ MAX_RECORD_BYTES }
{
    let mut line = ArrayString::<MAX_LINE_BYTES>::new();
    let mut text = ArrayString::<MAX_ANSWER_BYTES>::new();
    print_command(command, &mut line);
    print_reply(reply, &mut text);
    room.clear();
    let Ok(()) = room.try_extend_from_slice(line.as_bytes()) else {
        unreachable!()
    };
    room.push(b'\n');
    let Ok(()) = room.try_extend_from_slice(text.as_bytes()) else {
        unreachable!()
    };
}

/// Keeps the record of a change: it stands in the store when the call answers Ok.
pub(crate) fn keep_change<K: Disk>(
    command: &Command,
    reply: &Reply,
    store: &mut Store,
    disk: &mut K,
) -> Result<(), DiskFailed>
    requires numbers { HasShortNumbers command.now }
    requires ready { (n : ℕ) × (n < 2 ^ 39)
        × IsReady (K.is_open disk.old) (K.file disk.old (K.open_name disk.old)) store.old n }
    ensures cause { HasCause (K.faults disk.old) (K.faults disk.new) result }
    ensures ready { (n : ℕ) → n < 2 ^ 39 →
        IsReady (K.is_open disk.old) (K.file disk.old (K.open_name disk.old)) store.old n →
        OnOk result (IsReady (K.is_open disk.new) (K.file disk.new (K.open_name disk.new))
        store.new (n + 1)) }
    ensures kept { (n bytes : List ℕ) (records : List (List ℕ)) → n ≡ K.open_name disk.old →
        IsHeld (K.file disk.old n) (K.may_leave disk.old n) store.old bytes records [] →
        OnOk result (IsHeld (K.file disk.new n) (K.may_leave disk.new n) store.new bytes
        (records ++ (command_text command.now ++ 10 ∷ reply_text reply.now) ∷ []) []) }
    ensures any_moment { (n bytes : List ℕ) (records : List (List ℕ)) → n ≡ K.open_name disk.old →
        IsHeld (K.file disk.old n) (K.may_leave disk.old n) store.old bytes records [] →
        LeavesOnly (K.moment disk.old) (K.moment disk.new) (K.left_since disk.old n)
        (K.left_since disk.new n) (IsFront bytes
        (records ++ (command_text command.now ++ 10 ∷ reply_text reply.now) ∷ [])
        (length records)) }
{
    let mut record = ArrayVec::<u8, MAX_RECORD_BYTES>::new();
    put_record(command, reply, &mut record);
    store.take(disk, record.as_slice())?;
    store.keep(disk)
}
