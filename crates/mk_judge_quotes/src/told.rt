//! The quotes that replies tell.

ghost use Rattle.std.specs.Prelude.{◌≡◌, option_copied};
ghost use Rattle.mk_judge_quotes.specs.Told.{limits_told, beyond_told, bounds_told, outside_told};

use mk_reply::{Intervals, Refusal, Reply};

/// Limits that are told to who asked for them.
pub fn limits_told(reply: &Reply) -> Option<Option<(u32, u32)>>
    ensures { result ≡ limits_told reply.now }
{
    match reply {
        Reply::Limits { limits, .. } => Some(*limits),
        _ => None,
    }
}

/// Limits that an edit is refused for.
pub fn beyond_told(reply: &Reply) -> Option<Option<(u32, u32)>>
    ensures { result ≡ beyond_told reply.now }
{
    match reply {
        Reply::Refused { why } => match why {
            Refusal::Beyond { limits } => Some(*limits),
            _ => None,
        },
        _ => None,
    }
}

/// Bounds that are told to who asked for them.
pub fn bounds_told(reply: &Reply) -> Option<&Option<Intervals>>
    ensures { option_copied result ≡ bounds_told reply.now }
{
    match reply {
        Reply::Bounded { intervals, .. } => Some(intervals),
        _ => None,
    }
}

/// Bounds that a spread is refused for.
pub fn outside_told(reply: &Reply) -> Option<&Option<Intervals>>
    ensures { option_copied result ≡ outside_told reply.now }
{
    match reply {
        Reply::Refused { why } => match why {
            Refusal::Outside { intervals } => Some(intervals),
            _ => None,
        },
        _ => None,
    }
}
