//! The lines of the output: the text of each stands in a buffer of fixed size, and its LF is put
//! behind.

ghost use Rattle.std.specs.Prelude.{◌≡◌, ◌≢◌, ◌≤◌, ◌++◌, length};
ghost use Rattle.mk_session.specs.Below.{array_string_len, Market, IsAt};
ghost use Rattle.mk_file.specs.declared.fault.FileFault.TheVariants.{Memory};
ghost use Rattle.mk_session.specs.Texts.{head_of, ready_line, resumed_line};
ghost use Rattle.mk_session.specs.Texts.{reply_line, fault_line};

use crate::market::TreeMarket;
use arrayvec::ArrayString;
use mk_file::{FileFault, print_fault};
use mk_names::limits::MAX_ANSWER_BYTES;
use mk_reply::{Reply, print_reply};
use mk_text::put_number;

/// A line of the output, its LF included.
pub type LineBuffer = ArrayString<MAX_ANSWER_BYTES>;

/// Puts what a run writes before its first reply into `line`, in place of what it held: the ready
/// line of its file's market, and how many changes a store gave back, where one did.
pub fn print_head(
    market: &TreeMarket,
    recovered: Option<u64>,
    line: &mut ArrayString<MAX_ANSWER_BYTES>,
)
    ensures { (start : Market) → IsAt start market.now →
        line.new.bytes ≡ head_of start recovered }
{
    print_ready(market, line);
    if let Some(revision) = recovered {
        put_resumed(revision, line);
    }
}

/// Puts the first line of a run of this market into `line`, in place of what it held. It tells what
/// the file has, also where a store gave added questions back.
fn print_ready(market: &TreeMarket, line: &mut ArrayString<MAX_ANSWER_BYTES>)
    ensures bytes { (start : Market) → IsAt start market.now →
        line.new.bytes ≡ ready_line start }
    ensures short { array_string_len line.new ≤ 128 }
{
    line.clear();
    line.push_str("ready ");
    put_number(line, file_variables(market) as u64);
    line.push_str(" ");
    put_number(line, market.points_per_bit() as u64);
    line.push_str("\n");
}

/// How many variables the file of a market has: those that were not added.
fn file_variables(market: &TreeMarket) -> u32
    ensures { (start : Market) → IsAt start market.now → result ≡ length start.network }
{
    // Tells the proof that some question was not added.
    let _ = market.history();
    market.variables() - market.added()
}

/// Puts the number of changes that a store gave back behind the ready line.
fn put_resumed(revision: u64, line: &mut ArrayString<MAX_ANSWER_BYTES>)
    requires { array_string_len line.old ≤ 128 }
    ensures { line.new.bytes ≡ line.old.bytes ++ resumed_line revision }
{
    line.push_str("resumed ");
    put_number(line, revision);
    line.push_str("\n");
}

/// Puts the line of a reply into `line`, in place of what it held.
pub fn print_reply_line(reply: &Reply, line: &mut ArrayString<MAX_ANSWER_BYTES>)
    ensures { line.new.bytes ≡ reply_line reply.now }
{
    print_reply(reply, line);
    line.push_str("\n");
}

/// Puts the line of a refused market file into `line`, in place of what it held. Want of memory has
/// no line.
pub fn print_fault_line(fault: &FileFault, line: &mut ArrayString<MAX_ANSWER_BYTES>)
    requires { fault.now ≢ Memory }
    ensures { line.new.bytes ≡ fault_line fault.now }
{
    print_fault(fault, line);
    line.push_str("\n");
}
