//! Judgements of printed limits in the small case.
ghost use Rattle.std.specs.Prelude.{◌≡◌, ⊤};
ghost use Rattle.mk_exact.specs.Limits.{Side, AreRight};
ghost use Rattle.mk_quote.specs.Bounds.{EncloseSides, AreAllExact};
ghost use Rattle.mk_judge.specs.Judged.{Judges};

use crate::Judged;
use mk_quote::Bounds;

/// Judges limits that are printed in the small case, where the bounds are exact and one answer
/// alone is right. It is never unclear.
pub fn judge_exact_limits(bounds: &Bounds, limits: Option<(u32, u32)>) -> Judged
    ensures allowed { result ≡ Judged.Allowed → (hit miss : Side)
        → EncloseSides bounds.now hit miss → AreAllExact bounds.now → AreRight ⊤ hit miss limits }
    ensures wrong { result ≡ Judged.Wrong → (hit miss : Side) → EncloseSides bounds.now hit miss
        → AreAllExact bounds.now → AreRight ⊤ hit miss limits → ⊥ }
    ensures clear { result ≡ Judged.Unclear → ⊥ }
{
    judge_same(bounds.limits(), limits)
}

/// Judges printed shares where others alone are right.
pub(crate) fn judge_same(right: Option<(u32, u32)>, printed: Option<(u32, u32)>) -> Judged
    ensures { Judges result (right ≡ printed) ⊥ }
{
    Judged::where_true(right == printed)
}
