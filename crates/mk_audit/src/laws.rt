//! What a verdict decides.

ghost use Rattle.mk_audit.specs.Laws.{WrongIsNone, RightFrontIsOne, ReplyIsOneLine};

/// A transcript that is wrong at some line is none that the market allows.
pub fn wrong_is_none()
    ensures { WrongIsNone }
{}

/// The right front of some lines in a transcript is one: its replies, where they lead, and its
/// lines.
pub fn right_front_is_one()
    ensures { RightFrontIsOne }
{}

/// Each reply is one line.
pub fn reply_is_one_line()
    ensures { ReplyIsOneLine }
{}
