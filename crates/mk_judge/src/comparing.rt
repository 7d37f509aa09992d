//! Comparisons of enclosed numbers.
ghost use Rattle.std.specs.Prelude.{ℕ};
ghost use Rattle.mk_enclose.specs.Enclosure.{Encloses};
ghost use Rattle.mk_judge.specs.Compared.{Says, LeavesOpen};

use mk_enclose::Enclosure;

/// How two numbers compare, as far as their enclosures show it.
#[derive(Clone, Copy, Debug, PartialEq, Eq)]
pub enum Compared {
    AtMost,
    Above,
    Unsure,
}

/// Compares two enclosed numbers. It is unsure only where they are near by the steps of both
/// enclosures.
pub fn compare(left: &Enclosure, right: &Enclosure) -> Compared
    ensures { (a b : ℕ) → Encloses left.now a → Encloses right.now b
        → Says result a b (LeavesOpen left.now right.now a b) }
{
    if left.hi() <= right.lo() {
        Compared::AtMost
    } else if right.hi() < left.lo() {
        Compared::Above
    } else {
        Compared::Unsure
    }
}
