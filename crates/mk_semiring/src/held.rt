//! The value that the semirings share.
ghost use Rattle.std.specs.Prelude.{◌≡◌, ℕ, ◌+◌, ◌*◌, ◌^◌, ◌<◌, ◌≤◌, IsTrue};
ghost use Rattle.mk_semiring.specs.Below.{number_limit, widest_grade, Stands, IsOwnOf};
ghost use Rattle.mk_semiring.specs.Held.{HeldEncloses, HasHeldGrade, IsHeldExact, CanTimes};

use mk_cell::Cell;
use mk_enclose::Enclosure;

/// Absent, or a number that is enclosed. Absent encloses the exact Absent alone.
#[derive(Clone, Copy, Debug)]
pub enum Held {
    Absent,
    Present(Enclosure),
}

const _: () = prove!(size_of::<Held>() <= 48);

/// The number `n`, exactly.
pub fn whole(n: u64) -> Held
    requires { 1 ≤ n }
    ensures value { HeldEncloses result n }
    ensures grade { HasHeldGrade result 0 }
    ensures exact { IsHeldExact result }
{
    Held::Present(Enclosure::exact(n))
}

/// The product, which is absent where one of the two is.
#[inline]
pub fn product(a: &Held, b: &Held) -> Held
    requires { CanTimes a.now b.now }
    ensures value { (v w : ℕ) → HeldEncloses a.now v → HeldEncloses b.now w → HeldEncloses result (v * w) }
    ensures grade { (g h : ℕ) → HasHeldGrade a.now g → HasHeldGrade b.now h → HasHeldGrade result (g + h + 1) }
    ensures exact { (v w : ℕ) → HeldEncloses a.now v → HeldEncloses b.now w → IsHeldExact a.now → IsHeldExact b.now → v * w < 2 ^ 63 → IsHeldExact result }
{
    match a {
        Held::Absent => Held::Absent,
        Held::Present(x) => match b {
            Held::Absent => Held::Absent,
            Held::Present(y) => Held::Present(x.mul(y)),
        },
    }
}

/// What a cell stands for in at most three steps for each of the grade. An untouched cell also stands, under no shift, for a
/// number of its own.
pub fn of_cell(cell: Cell, shift: u32, untouched: bool, grade: u32) -> Held
    requires grade_at_least { 1 ≤ grade }
    requires grade_at_most { grade ≤ widest_grade }
    requires stands { (v : ℕ) × Stands shift cell v (3 * grade) }
    requires own { IsTrue untouched → (w : ℕ) × Stands 0 cell w (3 * grade) }
    ensures value { (v : ℕ) → Stands shift cell v (3 * grade) → (IsTrue untouched → IsOwnOf shift cell v (3 * grade)) → HeldEncloses result v }
    ensures grade { HasHeldGrade result grade }
    ensures exact { (v : ℕ) → Stands shift cell v (3 * grade) → v < number_limit → IsHeldExact result }
    ensures own_exact { (w : ℕ) → IsTrue untouched → Stands 0 cell w (3 * grade) → w < number_limit → IsHeldExact result }
{
    if untouched {
        match cell.own_enclosure(shift, grade) {
            Some(enclosure) => Held::Present(enclosure),
            None => Held::Absent,
        }
    } else {
        match cell.enclosure(shift, grade) {
            Some(enclosure) => Held::Present(enclosure),
            None => Held::Absent,
        }
    }
}
