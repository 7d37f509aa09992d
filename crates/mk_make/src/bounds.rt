//! How long the commands of a sample are at most.

ghost use Rattle.mk_make.specs.Bounds.{CommandsAreShort};

/// The commands of every sample of 2 to 256 variables have at most 38 bytes for each of their lines, and so at most 34,694 bytes.
pub fn commands_are_short()
    ensures { CommandsAreShort }
{}
