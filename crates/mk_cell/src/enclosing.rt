//! The enclosure of what a cell stands for.
ghost use Rattle.std.specs.Prelude.{◌≡◌, ℕ, ◌+◌, ◌-◌, ◌*◌, ◌^◌, ◌<◌, ◌≤◌, ◌↔◌, IfSome, IsNone};
ghost use Rattle.mk_scaled.specs.Range.{two_to};
ghost use Rattle.mk_enclose.specs.Enclosure.{Encloses, HasGrade, IsExact, lower_of, upper_of, widest_grade};
ghost use Rattle.mk_cell.specs.Cell.{Stands};

use crate::Cell;
use crate::cell::BIAS;
use mk_enclose::Enclosure;
use mk_scaled::Scaled;

impl Cell {
    /// An enclosure of what the cell stands for in at most three steps for each of the grade; `None` for
    /// Absent. A number below `2^63` is enclosed exactly.
    ///
    /// Its upper end lies six last places for each of the grade, and one, above the cell's lower end:
    /// `n` steps stay below `2 n + 1` places.
    pub fn enclosure(self, shift: u32, grade: u32) -> Option<Enclosure>
        requires grade_at_least { 1 ≤ grade }
        requires grade_at_most { grade ≤ widest_grade }
        requires stands { (v : ℕ) × Stands shift self v (3 * grade) }
        ensures absent { (v : ℕ) → Stands shift self v (3 * grade) → (IsNone result ↔ (v ≡ 0)) }
        ensures encloses { (v : ℕ) → Stands shift self v (3 * grade) → IfSome result (λ e. Encloses e v) }
        ensures grade { IfSome result (λ e. HasGrade e grade) }
        ensures bounded { IfSome result (λ e. upper_of e ≤ two_to (192 * (grade + 1))) }
        ensures exact { (v : ℕ) → Stands shift self v (3 * grade) → v < 2 ^ 63 → IfSome result IsExact }
    {
        if self.digits == 0 {
            return None;
        }
        let exponent = self.exponent as u64 + shift as u64;
        if exponent < BIAS as u64 {
            // Below 2^63, so the lower end is the number.
            return Some(Enclosure::exact(self.digits >> (BIAS as u64 - exponent)));
        }
        Some(above(self.digits, exponent - BIAS as u64, grade))
    }

    /// As `enclosure`, of a cell that stands, under no shift, for its number divided by `2^shift`: exact where that
    /// quotient is below `2^63`, however great the number is.
    pub fn own_enclosure(self, shift: u32, grade: u32) -> Option<Enclosure>
        requires grade_at_least { 1 ≤ grade }
        requires grade_at_most { grade ≤ widest_grade }
        requires shifted { (v : ℕ) × Stands shift self v (3 * grade) }
        requires stands { (w : ℕ) × Stands 0 self w (3 * grade) }
        ensures absent { (w : ℕ) → Stands 0 self w (3 * grade) → (IsNone result ↔ (w ≡ 0)) }
        ensures encloses { (w : ℕ) → Stands 0 self w (3 * grade) → IfSome result (λ e. Encloses e (w * 2 ^ shift)) }
        ensures grade { IfSome result (λ e. HasGrade e grade) }
        ensures bounded { IfSome result (λ e. upper_of e ≤ two_to (192 * (grade + 1))) }
        ensures exact { (w : ℕ) → Stands 0 self w (3 * grade) → w < 2 ^ 63 → IfSome result IsExact }
    {
        match self.enclosure(0, grade) {
            Some(own) => Some(multiple(&own, shift)),
            None => None,
        }
    }
}

/// From `digits * 2^exponent` to six places for each of the grade, and one, above it; where that leaves
/// the 64 digits it is rounded up by a place at most.
fn above(digits: u64, exponent: u64, grade: u32) -> Enclosure
    requires full { 2 ^ 63 ≤ digits }
    requires exponent_at_most { exponent ≤ 2 ^ 34 }
    requires grade_at_most { grade ≤ widest_grade }
    ensures lower { lower_of result ≡ digits * 2 ^ exponent }
    ensures reaches { (digits + 6 * grade + 1) * 2 ^ exponent ≤ upper_of result }
    ensures within { upper_of result ≤ (digits + 6 * grade + 2) * 2 ^ exponent }
{
    let lo = Scaled::of_whole(digits).shift(exponent);
    let places = Scaled::of_whole(6 * grade as u64 + 1).shift(exponent);
    Enclosure::between(lo, lo.add_up(&places))
}

/// The numbers that are enclosed, times `2^shift`.
fn multiple(enclosure: &Enclosure, shift: u32) -> Enclosure
    requires { upper_of enclosure.now ≤ two_to (2 ^ 49) }
    ensures lower { lower_of result ≡ lower_of enclosure.now * 2 ^ shift }
    ensures upper { upper_of result ≡ upper_of enclosure.now * 2 ^ shift }
{
    let lo = enclosure.lo().shift(shift as u64);
    let hi = enclosure.hi().shift(shift as u64);
    Enclosure::between(lo, hi)
}
