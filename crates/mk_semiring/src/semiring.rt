//! The trait.
ghost use Rattle.std.specs.Prelude.{◌≡◌, ℕ, ◌+◌, ◌*◌, ◌^◌, ◌<◌, ◌≤◌, length, IsTrue};
ghost use Rattle.mk_semiring.specs.Below.{number_limit, Lawful, widest_grade, AllStand, AreCells};
ghost use Rattle.mk_semiring.specs.Below.{Stands, IsOwnOf, plus_below, AreUnrounded, PairsStand};

use mk_cell::Cell;

/// A semiring over whole numbers, and values that enclose them.
///
/// An exact value is a whole number, and 0 stands for Absent. Exact times is the product, and each
/// implementation says what its exact plus is. A value encloses an exact one, with a grade that counts
/// rounding steps; a grade below `2^40` is in range for every call. Whole numbers stay exact while
/// results are below `2^63`.
///
/// A table holds cells in place of values. The plus of cells stands for the exact plus, and a value is
/// made of a cell where a number is asked for.
pub trait Semiring {
    type Value: Copy;

    // The exact plus; 0 is Absent.
    ghost plus_of: { ℕ → ℕ → ℕ };

    ghost encloses: { Self.Value → ℕ → Type 0 };

    ghost has_grade: { Self.Value → ℕ → Type 0 };

    ghost is_exact: { Self.Value → Type 0 };

    ghost can_plus: { Self.Value → Self.Value → Type 0 };

    ghost can_times: { Self.Value → Self.Value → Type 0 };

    /// Absent, which is neutral for plus and absorbs times.
    fn absent() -> Self::Value
        ensures value { encloses result 0 }
        ensures grade { has_grade result 0 }
        ensures exact { is_exact result };

    /// The unit of times.
    fn one() -> Self::Value
        ensures value { encloses result 1 }
        ensures grade { has_grade result 0 }
        ensures exact { is_exact result };

    /// The number `n`, exactly.
    fn of_whole(n: u64) -> Self::Value
        requires { 1 ≤ n }
        ensures value { encloses result n }
        ensures grade { has_grade result 0 }
        ensures exact { is_exact result };

    /// Encloses the exact plus, one grade above the two.
    fn plus(a: &Self::Value, b: &Self::Value) -> Self::Value
        requires { can_plus a.now b.now }
        ensures value { (v w : ℕ) → encloses a.now v → encloses b.now w → encloses result (plus_of v w) }
        ensures grade { (g : ℕ) → has_grade a.now g → has_grade b.now g → has_grade result (g + 1) }
        ensures exact { (v w : ℕ) → encloses a.now v → encloses b.now w → is_exact a.now → is_exact b.now → plus_of v w < 2 ^ 63 → is_exact result };

    /// Encloses the product, one grade above the sum of the two grades.
    fn times(a: &Self::Value, b: &Self::Value) -> Self::Value
        requires { can_times a.now b.now }
        ensures value { (v w : ℕ) → encloses a.now v → encloses b.now w → encloses result (v * w) }
        ensures grade { (g h : ℕ) → has_grade a.now g → has_grade b.now h → has_grade result (g + h + 1) }
        ensures exact { (v w : ℕ) → encloses a.now v → encloses b.now w → is_exact a.now → is_exact b.now → v * w < 2 ^ 63 → is_exact result };

    /// The plus of cells.
    fn over(digits: &[u64], exponents: &[u32]) -> Cell
        requires { AreCells digits.now exponents.now }
        ensures { (k : ℕ) (f : ℕ → ℕ) (n : ℕ) → AllStand k digits.now exponents.now f n
            → Stands k result (plus_below plus_of (length digits.now) f) (n + length digits.now) };

    /// The plus of products of cells, of which the first 64 places are given.
    fn over_products(places: &[u64], exponents: &[u32]) -> Cell
        requires { (a e b d : ℕ → ℕ) × AreUnrounded a e b d places.now exponents.now }
        ensures { (a e b d : ℕ → ℕ) → AreUnrounded a e b d places.now exponents.now
            → (j k : ℕ) (f g : ℕ → ℕ) (n p : ℕ) → PairsStand (length places.now) a e b d j k f g n p
            → Stands (j + k) result (plus_below plus_of (length places.now) (λ c. f c * g c)) (n + p + 2 * length places.now + 1) };

    /// The value of a cell that stands for its number in at most three steps for each of the grade. An untouched cell also
    /// stands, under no shift, for a number of its own: where that is below `2^63` the value is exact, and it encloses the
    /// cell's number where this is the own one times `2^shift`.
    fn of_cell(cell: Cell, shift: u32, untouched: bool, grade: u32) -> Self::Value
        requires grade_at_least { 1 ≤ grade }
        requires grade_at_most { grade ≤ widest_grade }
        requires stands { (v : ℕ) × Stands shift cell v (3 * grade) }
        requires own { IsTrue untouched → (w : ℕ) × Stands 0 cell w (3 * grade) }
        ensures value { (v : ℕ) → Stands shift cell v (3 * grade) → (IsTrue untouched → IsOwnOf shift cell v (3 * grade)) → encloses result v }
        ensures grade { has_grade result grade }
        ensures exact { (v : ℕ) → Stands shift cell v (3 * grade) → v < number_limit → is_exact result }
        ensures own_exact { (w : ℕ) → IsTrue untouched → Stands 0 cell w (3 * grade) → w < number_limit → is_exact result };

    ghost lawful: { Lawful plus_of };

    ghost grade_more: { (x : Self.Value) (g h : ℕ) → has_grade x g → g ≤ h → has_grade x h };

    ghost plus_fits: { (a b : Self.Value) (g : ℕ) → has_grade a g → has_grade b g → g < 2 ^ 40 → can_plus a b };

    ghost times_fits: { (a b : Self.Value) (g h : ℕ) → has_grade a g → has_grade b h → g + h < 2 ^ 40 → can_times a b };
}
