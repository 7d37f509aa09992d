//! Answering the lines of a stream, one after another.

ghost use Rattle.std.specs.Prelude.{◌≡◌, ℕ, ◌+◌, ◌^◌, ◌<◌, ◌≤◌, ◌==◌, List, [], ◌∷◌, ◌++◌, length};
ghost use Rattle.std.specs.Prelude.{true, false, Option, None, Some, OnOk, OnErr};
ghost use Rattle.std.specs.Prelude.{MatchResult};
ghost use Rattle.mk_session.specs.Below.{list_all, AddsFront, HasCause, text, max_line_bytes};
ghost use Rattle.mk_session.specs.Below.{max_stream_lines, fresh, GoesOn, Market, Standing, IsAt};
ghost use Rattle.mk_session.specs.Below.{command_of};
ghost use Rattle.mk_session.specs.Texts.{head_of, reply_line};
ghost use Rattle.mk_session.specs.Transcript.{Start, started, AreAnswered};
ghost use Rattle.mk_session.specs.Begins.{CanBegin};
ghost use Rattle.mk_session.specs.Outcome.{IsServed, IsRunFrom, HasKeepCauses, EndsRun};
ghost use Rattle.mk_session.specs.Priced.{IsPriced};
ghost use Rattle.mk_session.specs.Left.{LeavesSince, IsLeft};
ghost use Rattle.mk_session.specs.inner.Progress.{AreGathered, IsReady};
ghost use Rattle.mk_session.specs.inner.Progress.{IsBegun, IsEnded, IsSoundAt, IsPrinted};
ghost use Rattle.mk_session.specs.inner.Telling.{HasTellCause, ended_by};
ghost use Rattle.mk_session.specs.inner.Keeping.{IsSpoken, AreSpoken, AreMade, IsTold};
ghost use Rattle.mk_session.specs.inner.Keeping.{HoldsSince, SpeaksAndTells};
ghost use Rattle.mk_session.specs.inner.Turning.{Turns, moment, holding, leaving, ended_at};

use crate::change::take_change;
use crate::market::TreeMarket;
use crate::print::{LineBuffer, print_head, print_reply_line};
use crate::waiting::{TellFault, put_line, write_unless};
use mk_command::{CommandRef, Words, read_command};
use mk_disk::DiskFailed;
use mk_io::{Inputs, Lines, Next, Sink, Status, write_all};
use mk_journal::Keeper;
use mk_reply::{Refusal, Reply};
use std::alloc::Global;

/// Whether a line holds no byte but spaces.
pub fn is_blank(line: &[u8]) -> bool
    ensures { result ≡ list_all (λ b. b == 32) line.now }
{
    line.iter().all(|byte| *byte == b' ')
}

/// Puts the line of the reply to a line that is not too long and not blank into `print`, in place
/// of what it held.
fn print_answer(
    alloc: Global,
    market: &mut TreeMarket,
    line: &[u8],
    words: &mut Words,
    print: &mut LineBuffer,
)
    requires { list_all (λ b. b == 32) line.now ≡ false }
    ensures market { (start : Market) → IsAt start market.old → IsAt start market.new }
    ensures spoken { (start : Market) → IsAt start market.old →
        IsSpoken start market.old.standing (text line.now) market.new.standing print.new.bytes }
    ensures some { 1 ≤ length print.new.bytes }
{
    match read_command(line, words) {
        Err(_) => print_reply_line(
            &Reply::Refused {
                why: Refusal::Syntax,
            },
            print,
        ),
        Ok(command) => print_answer_to(alloc, market, &command, print),
    }
}

/// Puts the line of the price of a question that has no condition, and that nothing refuses, into
/// `print`, in place of what it held. False of any other command, which leaves the market as it
/// was.
///
/// It is the cheapest command, and is tried before all others.
#[inline(always)]
pub fn print_plain_price(
    market: &mut TreeMarket,
    command: &CommandRef,
    print: &mut LineBuffer,
) -> bool
    ensures priced { result ≡ true →
        IsPriced market.old market.new (command_of command.now) print.new.bytes }
    ensures unpriced { result ≡ false → market.new ≡ market.old }
{
    let CommandRef::Price { question } = command else {
        return false;
    };
    match market.plain_price(question) {
        Some((low, high)) => {
            print_reply_line(&Reply::Price { low, high }, print);
            true
        }
        None => false,
    }
}

/// Puts the line of the reply to a command into `print`, in place of what it held.
fn print_answer_to(
    alloc: Global,
    market: &mut TreeMarket,
    command: &CommandRef,
    print: &mut LineBuffer,
)
    ensures { IsPrinted market.old market.new (command_of command.now) print.new.bytes }
{
    if print_plain_price(market, command, print) {
        return;
    }
    print_applied(alloc, market, command, print)
}

/// Puts the line of the reply that the market makes to a command into `print`, in place of what it
/// held. It is a call of its own, since a plain price needs no room for a reply.
#[inline(never)]
fn print_applied(
    alloc: Global,
    market: &mut TreeMarket,
    command: &CommandRef,
    print: &mut LineBuffer,
)
    ensures { IsPrinted market.old market.new (command_of command.now) print.new.bytes }
{
    print_reply_line(&market.apply(alloc, command), print)
}

/// Who keeps the changes of a run, and how many of them a store gave back before.
#[derive(Drop)]
pub struct Kept<J> {
    pub keeper: J,
    /// None where the run begins at the opening of its market.
    pub recovered: Option<u64>,
}

/// Answers all commands from the standing of a market on, behind its ready line, and the line
/// `resumed R` where a store gave R changes back. It ends where they do, or where reading, keeping
/// or writing fails.
///
/// The keeper holds all changes before, and none waits. Each change is taken before its reply
/// waits, and all that were taken are kept before any line is written: so a crash leaves each
/// change whose reply stands in the output. At any moment before, it leaves all that were held.
pub fn serve_from<D, J: Keeper<D> + Drop, I: Inputs, S: Sink>(
    alloc: Global,
    keeping: Kept<J>,
    market: &mut TreeMarket,
    inputs: &mut I,
    out: &mut S,
    disk: &mut D,
) -> Status
    requires ready { (n : ℕ) × (n + max_stream_lines + 1 < 2 ^ 40)
        × J.is_ready keeping.keeper disk.old n }
    ensures market { (start : Market) → IsAt start market.old → IsAt start market.new }
    ensures served { (start : Market) (all : List ℕ) → IsAt start market.old →
        I.commands inputs.old ≡ Some all → CanBegin start market.old.standing →
        IsServed result (started start market.old.standing keeping.recovered) all
        (I.commands inputs.new) (S.written out.old) (S.written out.new) }
    ensures done { result ≡ Status.Done → (start : Market) (all : List ℕ) →
        IsAt start market.old → I.commands inputs.old ≡ Some all →
        CanBegin start market.old.standing →
        IsRunFrom (started start market.old.standing keeping.recovered)
        market.new.standing all (I.commands inputs.new) (S.written out.old) (S.written out.new) }
    ensures left { (start : Market) (all name bytes : List ℕ) (kept : List (List ℕ)) →
        IsAt start market.old → I.commands inputs.old ≡ Some all →
        CanBegin start market.old.standing →
        J.holds keeping.keeper disk.old name bytes kept [] →
        IsLeft (started start market.old.standing keeping.recovered) all
        (S.written out.old) (S.written out.new) kept
        (LeavesSince (J.leaves disk.new name bytes) (J.passes disk.old disk.new name bytes)
        (length kept)) }
    ensures opened { I.market inputs.new ≡ I.market inputs.old }
    ensures causes { HasKeepCauses result (J.faults disk.old) (J.faults disk.new)
        (I.faults inputs.old) (I.faults inputs.new) (S.faults out.old) (S.faults out.new) }
    ensures ends { EndsRun result }
{
    let mut conversation = Conversation::new(keeping.keeper);
    print_head(market, keeping.recovered, &mut conversation.line);
    match write_all(out, conversation.line.as_bytes()) {
        Ok(()) => conversation.keep_lines(alloc, market, inputs, out, disk),
        Err(_) => Status::WriteFault,
    }
}

/// What stands between a market and who talks to it: what was read and not answered, and what was
/// answered and not kept or not written.
#[derive(Drop)]
struct Conversation<J> {
    /// Reads the commands and cuts them into lines.
    lines: Lines,
    /// Where the longer words of a command are put.
    words: Words,
    /// What was printed last: the lines before the first reply, then the line of a reply.
    line: LineBuffer,
    /// The lines of replies that wait to be written.
    waiting: LineBuffer,
    /// Keeps the changes of all lines before these lines are written.
    keeper: J,
}

impl<J> Conversation<J> {
    /// Nothing was read, and nothing waits.
    fn new(keeper: J) -> Conversation<J>
        ensures lines { result.lines ≡ fresh }
        ensures waiting { result.waiting.bytes ≡ [] }
        ensures keeper { result.keeper ≡ keeper }
    {
        Conversation {
            lines: Lines::new(),
            words: Words::default(),
            line: LineBuffer::new(),
            waiting: LineBuffer::new(),
            keeper,
        }
    }

    /// Answers the commands to their end, or until reading, keeping or writing fails. No line is
    /// written before the changes of all lines up to it are kept.
    fn keep_lines<D, I: Inputs, S: Sink>(
        &mut self,
        alloc: Global,
        market: &mut TreeMarket,
        inputs: &mut I,
        out: &mut S,
        disk: &mut D,
    ) -> Status
    where
        J: Keeper<D>,
        requires unread { self.old.lines ≡ fresh }
        requires none_waits { self.old.waiting.bytes ≡ [] }
        requires ready { (n : ℕ) × (n + max_stream_lines + 1 < 2 ^ 40)
            × J.is_ready self.old.keeper disk.old n }
        ensures market { (start : Market) → IsAt start market.old → IsAt start market.new }
        ensures ended { (start : Start) (all : List ℕ) (before : Option (List ℕ)) →
            IsBegun start market.old all (I.commands inputs.old) before (S.written out.old) →
            IsEnded result start market.new.standing all (I.commands inputs.new) before
            (S.written out.new) }
        ensures left { (start : Start) (all name bytes : List ℕ) (before : Option (List ℕ))
            (kept : List (List ℕ)) →
            IsBegun start market.old all (I.commands inputs.old) before (S.written out.old) →
            J.holds self.old.keeper disk.old name bytes kept [] →
            IsLeft start all before (S.written out.new) kept
            (LeavesSince (J.leaves disk.new name bytes) (J.passes disk.old disk.new name bytes)
            (length kept)) }
        ensures opened { I.market inputs.new ≡ I.market inputs.old }
        ensures causes { HasKeepCauses result (J.faults disk.old) (J.faults disk.new)
            (I.faults inputs.old) (I.faults inputs.new) (S.faults out.old) (S.faults out.new) }
        ensures ends { EndsRun result }
    {
        'turns: loop {
            let may_wait = self.lines.holds_line();
            let told = write_unless(may_wait, &mut self.waiting, &mut self.keeper, out, disk);
            if let Some(end) = end_after(told) {
                return end;
            }
            if let Some(end) = self.answer_next(alloc, market, inputs, out, disk) {
                return end;
            }
        }
    }

    /// Takes the next line of the stream and answers it. None where the run goes on; else how it
    /// ends.
    fn answer_next<D, I: Inputs, S: Sink>(
        &mut self,
        alloc: Global,
        market: &mut TreeMarket,
        inputs: &mut I,
        out: &mut S,
        disk: &mut D,
    ) -> Option<Status>
    where
        J: Keeper<D>,
        requires goes_on { GoesOn self.old.lines.last }
        requires none_waits { IsReady self.old.lines self.old.waiting.bytes }
        requires ready { (n : ℕ) × (n + 1 < 2 ^ 40) × J.is_ready self.old.keeper disk.old n }
        ensures market { (start : Market) → IsAt start market.old → IsAt start market.new }
        ensures turn { Turns result (λ start. IsAt start market.old)
            (moment J.faults I.commands I.faults S.written S.faults self.old.lines
            market.old.standing self.old.waiting.bytes disk.old inputs.old out.old)
            (moment J.faults I.commands I.faults S.written S.faults self.new.lines
            market.new.standing self.new.waiting.bytes disk.new inputs.new out.new)
            (J.is_ready self.old.keeper disk.old) (J.is_ready self.new.keeper disk.new)
            (holding J.holds J.passes self.old.keeper disk.old)
            (holding J.holds J.passes self.new.keeper disk.new)
            (leaving J.leaves J.passes disk.new) }
        ensures opened { I.market inputs.new ≡ I.market inputs.old }
    {
        match self.lines.next(inputs) {
            Next::Line => end_after(self.answer_text(alloc, market, out, disk)),
            Next::Long => {
                let long = Reply::Refused { why: Refusal::Long };
                end_after(self.say(&long, out, disk))
            }
            stop => end_by(stop),
        }
    }

    /// Answers a line that is not too long: a blank one has no answer.
    fn answer_text<D, S: Sink>(
        &mut self,
        alloc: Global,
        market: &mut TreeMarket,
        out: &mut S,
        disk: &mut D,
    ) -> Result<(), TellFault>
    where
        J: Keeper<D>,
        requires short { length self.old.lines.line ≤ max_line_bytes }
        requires ready { (n : ℕ) × (n + 1 < 2 ^ 40) × J.is_ready self.old.keeper disk.old n }
        ensures market { (start : Market) → IsAt start market.old → IsAt start market.new }
        ensures lines { self.new.lines ≡ self.old.lines }
        ensures ready { (n : ℕ) → n + 1 < 2 ^ 40 → J.is_ready self.old.keeper disk.old n →
            OnOk result (J.is_ready self.new.keeper disk.new (n + 1)) }
        ensures cause { HasTellCause result (J.faults disk.old) (J.faults disk.new)
            (S.faults out.old) (S.faults out.new) }
        ensures answered { (start : Market) → IsAt start market.old →
            OnOk result (AreGathered start market.old.standing
            (text self.old.lines.line ∷ []) market.new.standing
            (S.written out.old) (S.written out.new) self.old.waiting.bytes self.new.waiting.bytes) }
        ensures front { OnErr result
            (AddsFront (S.written out.old) (S.written out.new) self.old.waiting.bytes) }
        ensures tells { (start : Market) → IsAt start market.old →
            (begun : D) (name bytes : List ℕ) (first least : ℕ)
            (all : List (List ℕ)) → HoldsSince (J.holds self.old.keeper disk.old name bytes)
            (J.passes begun disk.old name bytes) first least all →
            SpeaksAndTells result start market.old.standing
            (text self.old.lines.line ∷ []) market.new.standing (S.written out.old)
            (S.written out.new) self.old.waiting.bytes self.new.waiting.bytes least all
            (HoldsSince (J.holds self.new.keeper disk.new name bytes)
            (J.passes begun disk.new name bytes) first)
            (LeavesSince (J.leaves disk.new name bytes) (J.passes begun disk.new name bytes)
            first) }
    {
        if is_blank(self.lines.line()) {
            return Ok(());
        }
        match self.make_answer(alloc, market, disk) {
            Ok(()) => {
                let line = self.line.as_str();
                put_line(line, &mut self.waiting, &mut self.keeper, out, disk)
            }
            Err(DiskFailed) => Err(TellFault::Disk),
        }
    }

    /// Prints the answer to a line that is neither too long nor blank, and takes the change that
    /// the line made, if it made one.
    fn make_answer<D>(
        &mut self,
        alloc: Global,
        market: &mut TreeMarket,
        disk: &mut D,
    ) -> Result<(), DiskFailed>
    where
        J: Keeper<D>,
        requires busy { list_all (λ b. b == 32) self.old.lines.line ≡ false }
        requires short { length self.old.lines.line ≤ max_line_bytes }
        requires ready { (n : ℕ) × (n < 2 ^ 40) × J.is_ready self.old.keeper disk.old n }
        ensures market { (start : Market) → IsAt start market.old → IsAt start market.new }
        ensures lines { self.new.lines ≡ self.old.lines }
        ensures waiting { self.new.waiting ≡ self.old.waiting }
        ensures ready { (n : ℕ) → n < 2 ^ 40 → J.is_ready self.old.keeper disk.old n →
            OnOk result (J.is_ready self.new.keeper disk.new (n + 1)) }
        ensures cause { HasCause (J.faults disk.old) (J.faults disk.new) result }
        ensures answered { (start : Market) → IsAt start market.old →
            IsSoundAt start market.old.standing →
            AreAnswered start market.old.standing (text self.old.lines.line ∷ [])
            market.new.standing self.new.line.bytes }
        ensures spoken { (start : Market) → IsAt start market.old →
            (begun : D) (name bytes : List ℕ) (first least : ℕ)
            (all : List (List ℕ)) → HoldsSince (J.holds self.old.keeper disk.old name bytes)
            (J.passes begun disk.old name bytes) first least all →
            AreSpoken start market.old.standing (text self.old.lines.line ∷ [])
            market.new.standing (λ output records. (self.new.line.bytes ≡ output) ×
            MatchResult result
            (λ _. HoldsSince (J.holds self.new.keeper disk.new name bytes)
            (J.passes begun disk.new name bytes) first least (all ++ records))
            (λ _. LeavesSince (J.leaves disk.new name bytes) (J.passes begun disk.new name bytes)
            first (all ++ records) least)) }
    {
        let before = market.history().length();
        let words = &mut self.words;
        print_answer(alloc, market, self.lines.line(), words, &mut self.line);
        self.keep_change(market, before, disk)
    }

    /// Takes the change that the line made whose answer is printed, where the history of the market
    /// is not as long as before.
    #[inline(always)]
    fn keep_change<D>(
        &mut self,
        market: &TreeMarket,
        before: u32,
        disk: &mut D,
    ) -> Result<(), DiskFailed>
    where
        J: Keeper<D>,
        requires short { length self.old.lines.line ≤ max_line_bytes }
        requires some { 1 ≤ length self.old.line.bytes }
        requires ready { (n : ℕ) × (n < 2 ^ 40) × J.is_ready self.old.keeper disk.old n }
        ensures lines { self.new.lines ≡ self.old.lines }
        ensures waiting { self.new.waiting ≡ self.old.waiting }
        ensures line { self.new.line ≡ self.old.line }
        ensures ready { (n : ℕ) → n < 2 ^ 40 → J.is_ready self.old.keeper disk.old n →
            OnOk result (J.is_ready self.new.keeper disk.new (n + 1)) }
        ensures cause { HasCause (J.faults disk.old) (J.faults disk.new) result }
        ensures taken { (begun : D) (name bytes : List ℕ) (first least : ℕ)
            (all records : List (List ℕ)) →
            HoldsSince (J.holds self.old.keeper disk.old name bytes)
            (J.passes begun disk.old name bytes) first least all →
            AreMade (length market.now.standing.history) before self.old.lines.line
            self.old.line.bytes records →
            MatchResult result
            (λ _. HoldsSince (J.holds self.new.keeper disk.new name bytes)
            (J.passes begun disk.new name bytes) first least (all ++ records))
            (λ _. LeavesSince (J.leaves disk.new name bytes) (J.passes begun disk.new name bytes)
            first (all ++ records) least) }
    {
        if self.keeper.keeps() {
            if market.history().length() != before {
                let line = self.lines.line();
                let printed = self.line.as_str().as_bytes();
                return take_change(line, printed, &mut self.keeper, disk);
            }
        }
        Ok(())
    }

    /// Puts the line of a reply behind those that wait.
    fn say<D, S: Sink>(&mut self, reply: &Reply, out: &mut S, disk: &mut D) -> Result<(), TellFault>
    where
        J: Keeper<D>,
        requires { (n : ℕ) × (n < 2 ^ 40) × J.is_ready self.old.keeper disk.old n }
        ensures lines { self.new.lines ≡ self.old.lines }
        ensures told { IsTold J.is_ready J.faults J.holds J.leaves J.passes S.written S.faults
            result self.old.keeper self.new.keeper disk.old disk.new out.old out.new
            self.old.waiting.bytes (reply_line reply.now) self.new.waiting.bytes }
    {
        print_reply_line(reply, &mut self.line);
        let line = self.line.as_str();
        put_line(line, &mut self.waiting, &mut self.keeper, out, disk)
    }
}

/// The run goes on where a line was answered, and ends where its reply could not be told.
fn end_after(told: Result<(), TellFault>) -> Option<Status>
    ensures { result ≡ ended_by told }
{
    match told {
        Ok(()) => None,
        Err(TellFault::Disk) => Some(Status::DiskFault),
        Err(TellFault::Sink) => Some(Status::WriteFault),
    }
}

/// How a run ends by an answer that gives no line.
fn end_by(next: Next) -> Option<Status>
    ensures { result ≡ ended_at next }
{
    match next {
        Next::Line | Next::Long => None,
        Next::End => Some(Status::Done),
        Next::ReadFault => Some(Status::ReadFault),
        Next::TooMany => Some(Status::TooMany),
    }
}
