//! How an audit ends.

/// What an audit finds. Lines of the transcript count from 1, the ready line among them.
#[derive(Clone, Copy, Debug, PartialEq, Eq)]
pub enum Verdict {
    /// The whole transcript is allowed; it has so many lines.
    Yes { lines: u64 },
    /// The line of this number is not allowed, is missing, or stands behind the last one.
    No { line: u64 },
    /// The line of this number is too near to what is exact to be decided.
    Unsure { line: u64 },
}

/// Why an audit came to no verdict.
#[derive(Clone, Copy, Debug, PartialEq, Eq)]
pub enum AuditFault {
    /// A read of the commands failed.
    Read,
    /// The commands have more lines or bytes than a stream may have.
    TooMany,
    /// Memory was wanting.
    Memory,
}
