//! A run whose replies are counted.

ghost use Rattle.std.specs.Prelude.{◌≡◌, ◌≢◌, ◌+◌, ◌<◌, ◌≤◌, ◌==◌, ℕ, List, [], ◌∷◌, ◌++◌};
ghost use Rattle.std.specs.Prelude.{Some, None, Ok, Err, Result, OnOk, IfNone, IfSome, MatchResult};
ghost use Rattle.std.specs.Prelude.{false};
ghost use Rattle.mk_tally.specs.Below.{list_all, text, long, max_stream_lines, GoesOn, IsTreeOf};
ghost use Rattle.mk_tally.specs.Below.{file_of, market_of, Market, IsMarket, Standing, opening};
ghost use Rattle.mk_tally.specs.Below.{IsAt, AreReplied, IsSoundAt};
ghost use Rattle.mk_tally.specs.Tally.{TallyEnds};
ghost use Rattle.mk_tally.specs.inner.Counting.{is_want, IsWithin, HasRoom, CountsLine};
ghost use Rattle.mk_tally.specs.inner.Counting.{IsCountedSoFar, counted_as};

use crate::counts::{Tally, TallyFault};
use mk_command::{Words, read_command};
use mk_file::{FileFault, MarketFile, read_market};
use mk_io::{Lines, Next, QuietInputs};
use mk_net::NoMemory;
use mk_reply::{Refusal, Reply};
use mk_session::{TreeMarket, is_blank, open};
use std::alloc::Global;

/// How many bytes of the commands are read at once.
const PIECE: usize = 4096;

/// Counts the replies of the market of this file to these commands, as `mk_session::serve` makes
/// them: one for each line that is not blank.
///
/// `TallyFault::Market` and `TallyFault::TooMany` name what the file or the commands have.
/// `TallyFault::Memory` comes where memory is wanting, also where the market would reply so.
pub fn tally(alloc: Global, file: &[u8], commands: &[u8]) -> Result<Tally, TallyFault>
    ensures { TallyEnds result (file_of file.now) commands.now }
{
    match read_market(alloc, file) {
        Err(FileFault::Memory) => Err(TallyFault::Memory),
        Err(fault) => Err(TallyFault::Market(fault)),
        Ok(file) => tally_file(alloc, file, commands),
    }
}

/// Opens the market of an accepted file, and counts its replies.
fn tally_file(alloc: Global, file: MarketFile, commands: &[u8]) -> Result<Tally, TallyFault>
    requires tree { IsTreeOf file.net file.tree }
    ensures { TallyEnds result (Ok (market_of file)) commands.now }
{
    match open(alloc, file) {
        Ok(mut market) => {
            let counted = count_all(alloc, &mut market, commands);
            // Let go by a call: the end of its scope would let go of each part, and take far longer
            // to prove.
            drop(market);
            counted
        }
        Err(_) => Err(TallyFault::Memory),
    }
}

/// Counts the replies to all commands, of which it takes a copy.
fn count_all(alloc: Global, market: &mut TreeMarket, commands: &[u8]) -> Result<Tally, TallyFault>
    requires is_market { IsMarket market.old.market }
    requires opening { market.old.standing ≡ opening }
    ensures { TallyEnds result (Ok market.old.market) commands.now }
{
    match commands.to_vec(alloc) {
        Ok(commands) => count_replies(alloc, market, commands),
        Err(_) => Err(TallyFault::Memory),
    }
}

/// Counts the replies to all commands.
fn count_replies(
    alloc: Global,
    market: &mut TreeMarket,
    commands: Vec<u8>,
) -> Result<Tally, TallyFault>
    requires is_market { IsMarket market.old.market }
    requires opening { market.old.standing ≡ opening }
    ensures { TallyEnds result (Ok market.old.market) commands.items }
{
    let mut inputs = QuietInputs::new(Vec::new(alloc), commands, PIECE);
    let mut lines = Lines::new();
    let mut tally = Tally::new();
    loop {
        if let Some(ended) = take_count(alloc, market, &mut lines, &mut inputs, &mut tally) {
            return end_count(ended, tally);
        }
    }
}

/// What was counted, unless a fault ends the count.
fn end_count(ended: Result<(), TallyFault>, tally: Tally) -> Result<Tally, TallyFault>
    ensures { result ≡ counted_as ended tally }
{
    match ended {
        Ok(()) => Ok(tally),
        Err(fault) => Err(fault),
    }
}

/// Takes the next line of the commands and counts its reply. None where the run goes on; else how
/// it ends.
fn take_count(
    alloc: Global,
    market: &mut TreeMarket,
    lines: &mut Lines,
    inputs: &mut QuietInputs,
    tally: &mut Tally,
) -> Option<Result<(), TallyFault>>
    requires goes_on { GoesOn lines.old.last }
    requires fits { IsWithin lines.old.given tally.old }
    ensures market { (start : Market) → IsAt start market.old → IsAt start market.new }
    ensures goes_on { IfNone result (GoesOn lines.new.last) }
    ensures counts { IfNone result (lines.new.given ≡ lines.old.given + 1) }
    ensures within { lines.new.given ≤ max_stream_lines }
    ensures fits { IfNone result (IsWithin lines.new.given tally.new) }
    ensures so_far { IfNone result ((start : Market) (all : List ℕ) → IsAt start market.old →
        IsCountedSoFar start all lines.old inputs.old.commands market.old.standing tally.old →
        IsCountedSoFar start all lines.new inputs.new.commands market.new.standing tally.new) }
    ensures ended { IfSome result (λ end. (start : Market) (all : List ℕ) →
        IsAt start market.old →
        IsCountedSoFar start all lines.old inputs.old.commands market.old.standing tally.old →
        TallyEnds (counted_as end tally.new) (Ok start) all) }
{
    match lines.next(inputs) {
        Next::Line => end_where_short(count_text(alloc, market, lines.line(), tally)),
        Next::Long => {
            count_long(tally);
            None
        }
        Next::End => Some(Ok(())),
        Next::TooMany => Some(Err(TallyFault::TooMany)),
        // These inputs count no fault, so no read of them fails.
        Next::ReadFault => unreachable!(),
    }
}

/// The run goes on where a line was counted, and ends where memory was wanting.
fn end_where_short(counted: Result<(), NoMemory>) -> Option<Result<(), TallyFault>>
    ensures { MatchResult counted (λ _. result ≡ None)
        (λ _. result ≡ Some (Err TallyFault.Memory)) }
{
    match counted {
        Ok(()) => None,
        Err(NoMemory) => Some(Err(TallyFault::Memory)),
    }
}

/// Counts the reply to a line that is not too long; a blank one has none. Fails where the reply is
/// want of memory.
fn count_text(
    alloc: Global,
    market: &mut TreeMarket,
    line: &[u8],
    tally: &mut Tally,
) -> Result<(), NoMemory>
    requires room { HasRoom max_stream_lines tally.old }
    ensures market { (start : Market) → IsAt start market.old → IsAt start market.new }
    ensures fits { IsWithin (tally.old.replies + 1) tally.new }
    ensures counted { (start : Market) → IsAt start market.old →
        OnOk result (CountsLine start market.old.standing (text line.now)
        market.new.standing tally.old tally.new) }
{
    if is_blank(line) {
        return Ok(());
    }
    let mut words = Words::default();
    let reply = reply_to(alloc, market, line, &mut words);
    if is_want_of_memory(&reply) {
        return Err(NoMemory);
    }
    tally.add(reply);
    Ok(())
}

/// The reply to a line that is not too long and not blank.
fn reply_to(alloc: Global, market: &mut TreeMarket, line: &[u8], words: &mut Words) -> Reply
    requires { list_all (λ b. b == 32) line.now ≡ false }
    ensures market { (start : Market) → IsAt start market.old → IsAt start market.new }
    ensures replied { (start : Market) → IsAt start market.old →
        IsSoundAt start market.old.standing →
        AreReplied start market.old.standing (text line.now ∷ [])
        market.new.standing (result ∷ []) }
{
    match read_command(line, words) {
        Err(_) => Reply::Refused {
            why: Refusal::Syntax,
        },
        Ok(command) => market.apply(alloc, &command),
    }
}

/// Counts the reply to a line that is too long, which is that of any market.
fn count_long(tally: &mut Tally)
    requires room { HasRoom max_stream_lines tally.old }
    ensures fits { IsWithin (tally.old.replies + 1) tally.new }
    ensures counted { (market : Market) (now : Standing) → CountsLine market now long now tally.old
        tally.new }
{
    tally.add(Reply::Refused { why: Refusal::Long });
}

/// Whether a reply says that memory was wanting.
fn is_want_of_memory(reply: &Reply) -> bool
    ensures { result ≡ is_want reply.now }
{
    matches!(
        reply,
        Reply::Refused {
            why: Refusal::Memory
        }
    )
}
