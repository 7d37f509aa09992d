//! The traits of the outside, with the causes of their failures.

ghost use Rattle.std.specs.Prelude.{◌≡◌, ℕ, ◌<◌, List, [], Option, length, OnOk, OnErr};
ghost use Rattle.mk_io.specs.Outside.{HasCause, LeavesRest, Reads, Writes, AddsFront, AddsPart};
ghost use Rattle.mk_io.specs.Outside.{append_known};

/// A read or an opening failed.
#[derive(Clone, Copy, Debug, PartialEq, Eq)]
pub struct InputFailed;

/// A write failed.
#[derive(Clone, Copy, Debug, PartialEq, Eq)]
pub struct SinkFailed;

/// Where market files and commands come from.
///
/// What an implementation tells of its bytes is in its ghost members: the bytes of the file of each name, those left
/// of the opened market, and those left of the commands. A call fails exactly where the count `faults` rose in it.
pub trait Inputs {
    // the names that may be opened
    ghost admits: { List ℕ → Type 0 };
    // the bytes of the file of a name, where they are told
    ghost file: { Self → List ℕ → Option (List ℕ) };
    // the bytes left of the opened market, and of the commands, where they are told
    ghost market: { Self → Option (List ℕ) };

    ghost commands: { Self → Option (List ℕ) };
    // how many calls have failed
    ghost faults: { Self → ℕ };

    /// Opens the market file of a name, so that `read_market` reads it from its beginning.
    fn open_market(&mut self, name: &str) -> Result<(), InputFailed>
        requires { admits name.now }
        ensures cause { HasCause (faults self.old) (faults self.new) result }
        ensures opened { OnOk result (market self.new ≡ file self.old name.now) }
        ensures not_opened { OnErr result (market self.new ≡ market self.old) }
        ensures rest { LeavesRest (commands self.old) (commands self.new) (file self.old) (file self.new) };

    /// Reads the next bytes of the opened market, `Ok(0)` at its end or where none was opened.
    fn read_market(&mut self, buf: &mut [u8]) -> Result<usize, InputFailed>
        requires { 0 < length buf.old }
        ensures cause { HasCause (faults self.old) (faults self.new) result }
        ensures reads { Reads (market self.old) (market self.new) result buf.new }
        ensures rest { LeavesRest (commands self.old) (commands self.new) (file self.old) (file self.new) };

    /// Reads the next bytes of the commands, `Ok(0)` at their end.
    fn read_commands(&mut self, buf: &mut [u8]) -> Result<usize, InputFailed>
        requires { 0 < length buf.old }
        ensures cause { HasCause (faults self.old) (faults self.new) result }
        ensures reads { Reads (commands self.old) (commands self.new) result buf.new }
        ensures rest { LeavesRest (market self.old) (market self.new) (file self.old) (file self.new) };
}

/// Where the output goes.
pub trait Sink {
    // the bytes written, where they are told
    ghost written: { Self → Option (List ℕ) };
    // how many calls have failed
    ghost faults: { Self → ℕ };

    /// Writes the first bytes of a piece, and says how many: at least one, where the piece has one.
    fn write(&mut self, bytes: &[u8]) -> Result<usize, SinkFailed>
        ensures cause { HasCause (faults self.old) (faults self.new) result }
        ensures writes { Writes (written self.old) (written self.new) result bytes.now };
}

/// Writes all of `bytes`. Fails only where a write failed. Then a front of them was written, but not
/// all.
pub fn write_all<S: Sink>(out: &mut S, bytes: &[u8]) -> Result<(), SinkFailed>
    ensures cause { HasCause (S.faults out.old) (S.faults out.new) result }
    ensures whole { OnOk result (S.written out.new ≡ append_known (S.written out.old) bytes.now) }
    ensures front { OnErr result (AddsFront (S.written out.old) (S.written out.new) bytes.now) }
    ensures part { OnErr result (AddsPart (S.written out.old) (S.written out.new) bytes.now) }
{
    let mut done = 0;
    while done < bytes.len() {
        done += out.write(&bytes[done..])?;
    }
    Ok(())
}
