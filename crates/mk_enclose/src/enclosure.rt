//! The two ends.
ghost use Rattle.std.specs.Prelude.{◌≡◌, ◌≤◌, min, max};

use mk_scaled::Scaled;

/// Two scaled numbers that an exact whole number lies between.
///
/// Its *grade* counts rounding steps: at grade `g` the upper end is at most the lower one times
/// `(1 + 2^-60)^g`. A call is *in range* where the exact result of the upper ends is.
#[derive(Clone, Copy, Debug)]
pub struct Enclosure {
    lo: Scaled,
    hi: Scaled,
    ghost positive: { 1 ≤ lo },
    ghost ordered: { lo ≤ hi },
}

impl Enclosure {
    ghost use Rattle.std.specs.Prelude.{◌≡◌, ℕ, ◌+◌, ◌*◌, ◌/◌, ◌^◌, ◌<◌, min, max};
    ghost use Rattle.std.specs.Int.{div_ceil};
    ghost use Rattle.mk_scaled.specs.Range.{IsInRange};
    ghost use Rattle.mk_scaled.specs.Rounding.{IsGreatestBelow, IsLeastAbove};
    ghost use Rattle.mk_enclose.specs.Enclosure.{lower_of, upper_of, Encloses, HasGrade, IsExact, widest_grade};

    /// The number `n` alone, at grade 0.
    pub fn exact(n: u64) -> Enclosure
        requires { 1 ≤ n }
        ensures lower { lower_of result ≡ n }
        ensures upper { upper_of result ≡ n }
        ensures encloses { Encloses result n }
        ensures grade { HasGrade result 0 }
        ensures exact { IsExact result }
    {
        let number = Scaled::of_whole(n);
        Enclosure {
            lo: number,
            hi: number,
        }
    }

    /// The numbers from `lo` to `hi`.
    pub fn between(lo: Scaled, hi: Scaled) -> Enclosure
        requires positive { 1 ≤ lo }
        requires ordered { lo ≤ hi }
        ensures lower { lower_of result ≡ lo }
        ensures upper { upper_of result ≡ hi }
    {
        Enclosure { lo, hi }
    }

    /// The lower end.
    #[inline]
    pub fn lo(&self) -> Scaled
        ensures value { result ≡ lower_of self.now }
        ensures positive { 1 ≤ result }
        ensures ordered { result ≤ upper_of self.now }
    {
        self.lo
    }

    /// The upper end. A grade below `2^20` leaves it within one part in `2^40` of the lower end.
    #[inline]
    pub fn hi(&self) -> Scaled
        ensures value { result ≡ upper_of self.now }
        ensures ordered { lower_of self.now ≤ result }
        ensures narrow { (g : ℕ) → g ≤ widest_grade → HasGrade self.now g → result * 2 ^ 40 ≤ lower_of self.now * (2 ^ 40 + 1) }
    {
        self.hi
    }

    /// The sum, one grade above the greater one. It stays exact below `2^63`. In range.
    #[inline]
    pub fn add(&self, other: &Enclosure) -> Enclosure
        requires { IsInRange (upper_of self.now + upper_of other.now) }
        ensures lower { IsGreatestBelow (lower_of result) (lower_of self.now + lower_of other.now) }
        ensures upper { IsLeastAbove (upper_of result) (upper_of self.now + upper_of other.now) }
        ensures encloses { (v w : ℕ) → Encloses self.now v → Encloses other.now w → Encloses result (v + w) }
        ensures grade { (g h : ℕ) → HasGrade self.now g → HasGrade other.now h → HasGrade result (max g h + 1) }
        ensures exact { IsExact self.now → IsExact other.now → upper_of self.now + upper_of other.now < 2 ^ 63 → IsExact result }
    {
        Enclosure {
            lo: self.lo.add_down(&other.lo),
            hi: self.hi.add_up(&other.hi),
        }
    }

    /// The product, one grade above the sum of the grades. It stays exact below `2^63`. In range.
    #[inline]
    pub fn mul(&self, other: &Enclosure) -> Enclosure
        requires { IsInRange (upper_of self.now * upper_of other.now) }
        ensures lower { IsGreatestBelow (lower_of result) (lower_of self.now * lower_of other.now) }
        ensures upper { IsLeastAbove (upper_of result) (upper_of self.now * upper_of other.now) }
        ensures encloses { (v w : ℕ) → Encloses self.now v → Encloses other.now w → Encloses result (v * w) }
        ensures grade { (g h : ℕ) → HasGrade self.now g → HasGrade other.now h → HasGrade result (g + h + 1) }
        ensures exact { IsExact self.now → IsExact other.now → upper_of self.now * upper_of other.now < 2 ^ 63 → IsExact result }
    {
        Enclosure {
            lo: self.lo.mul_down(&other.lo),
            hi: self.hi.mul_up(&other.hi),
        }
    }

    /// The lesser number, at the greater grade. Nothing is rounded.
    #[inline]
    pub fn min(&self, other: &Enclosure) -> Enclosure
        ensures lower { lower_of result ≡ min (lower_of self.now) (lower_of other.now) }
        ensures upper { upper_of result ≡ min (upper_of self.now) (upper_of other.now) }
        ensures encloses { (v w : ℕ) → Encloses self.now v → Encloses other.now w → Encloses result (min v w) }
        ensures grade { (g h : ℕ) → HasGrade self.now g → HasGrade other.now h → HasGrade result (max g h) }
        ensures exact { IsExact self.now → IsExact other.now → IsExact result }
    {
        Enclosure {
            lo: lesser(self.lo, other.lo),
            hi: lesser(self.hi, other.hi),
        }
    }

    /// The greater number, at the greater grade. Nothing is rounded.
    #[inline]
    pub fn max(&self, other: &Enclosure) -> Enclosure
        ensures lower { lower_of result ≡ max (lower_of self.now) (lower_of other.now) }
        ensures upper { upper_of result ≡ max (upper_of self.now) (upper_of other.now) }
        ensures encloses { (v w : ℕ) → Encloses self.now v → Encloses other.now w → Encloses result (max v w) }
        ensures grade { (g h : ℕ) → HasGrade self.now g → HasGrade other.now h → HasGrade result (max g h) }
        ensures exact { IsExact self.now → IsExact other.now → IsExact result }
    {
        Enclosure {
            lo: greater(self.lo, other.lo),
            hi: greater(self.hi, other.hi),
        }
    }

    /// The floor of `num * unit / den` at its lowest.
    fn whole_part(num: &Enclosure, den: &Enclosure, unit: u64) -> u64
        requires part { lower_of num.now ≤ upper_of den.now }
        requires unit_at_most { unit ≤ 2 ^ 34 }
        ensures { result ≡ lower_of num.now * unit / upper_of den.now }
    {
        match num.lo.div_floor(unit, &den.hi, 1) {
            Some(floor) => floor,
            None => unreachable!(),
        }
    }

    /// The ceiling of `num * unit / den` at its highest, or `unit` where that is less.
    fn capped_part(num: &Enclosure, den: &Enclosure, unit: u64) -> u64
        requires { unit ≤ 2 ^ 34 }
        ensures { result ≡ min unit (div_ceil (upper_of num.now * unit) (lower_of den.now)) }
    {
        match num.hi.div_ceil(unit, &den.lo, 1) {
            Some(ceiling) => ceiling.min(unit),
            None => unit,
        }
    }

    /// Bounds on `num * unit / den` in whole units, where the enclosed `num` is at most the enclosed
    /// `den`: a floor below it, and a ceiling above it that is at most `unit`.
    ///
    /// At grades below `2^20` the two are at most 2 units apart.
    pub fn parts(num: &Enclosure, den: &Enclosure, unit: u64) -> (u64, u64)
        requires part { lower_of num.now ≤ upper_of den.now }
        requires unit_at_most { unit ≤ 2 ^ 34 }
        ensures low { result.0 ≡ lower_of num.now * unit / upper_of den.now }
        ensures high { result.1 ≡ min unit (div_ceil (upper_of num.now * unit) (lower_of den.now)) }
        ensures below { (v w : ℕ) → Encloses num.now v → Encloses den.now w → result.0 * w ≤ v * unit }
        ensures above { (v w : ℕ) → Encloses num.now v → Encloses den.now w → v ≤ w → v * unit ≤ result.1 * w }
        ensures narrow { (g : ℕ) → g ≤ widest_grade → HasGrade num.now g → HasGrade den.now g → result.1 ≤ result.0 + 2 }
    {
        (
            Self::whole_part(num, den, unit),
            Self::capped_part(num, den, unit),
        )
    }
}

#[inline]
fn lesser(a: Scaled, b: Scaled) -> Scaled
    ensures { result ≡ min a b }
{
    if a < b { a } else { b }
}

#[inline]
fn greater(a: Scaled, b: Scaled) -> Scaled
    ensures { result ≡ max a b }
{
    if a < b { b } else { a }
}
