//! The lines of a transcript.

ghost use Rattle.std.specs.Prelude.{◌≢◌, MatchOption, All};
ghost use Rattle.mk_audit.specs.inner.Progress.{IsFirstLine};

/// The first line of some bytes, without its LF, if they have one.
pub(crate) fn first_line(bytes: &[u8]) -> Option<&[u8]>
    ensures { MatchOption result (All (λ b. b ≢ 10) bytes.now)
        (λ line. IsFirstLine line.now bytes.now) }
{
    for (i, byte) in bytes.iter().enumerate() {
        if *byte == b'\n' {
            return Some(&bytes[..i]);
        }
    }
    None
}
