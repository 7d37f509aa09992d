//! The number itself.
ghost use Rattle.std.specs.Prelude.{◌≡◌, ℕ, ◌+◌, ◌-◌, ◌*◌, ◌/◌, ◌^◌, ◌<◌, ◌≤◌, ◌==◌};
ghost use Rattle.mk_scaled.specs.Below.{comparing, partial_order_from_own_ties, div_ceil, SomeIff};
ghost use Rattle.mk_scaled.specs.Below.{nat_cmp, as_partial_cmp};
ghost use Rattle.std.proofs.Common.{rules};
ghost use Rattle.mk_scaled.specs.ByRule.{rounded_down, rounded_up, power_by, whole_log};
ghost use Rattle.mk_scaled.specs.Form.{mantissa_of, exponent_of, IsStored};
ghost use Rattle.mk_scaled.specs.Near.{IsNear};
ghost use Rattle.mk_scaled.specs.Range.{IsInRange};
ghost use Rattle.mk_scaled.specs.Rounding.{IsGreatestBelow, IsLeastAbove};

use std::cmp::Ordering;
use std::marker::Model;

mod power;
mod quotient;
mod wide;

use wide::Wide;

/// A whole number of at least 1: a mantissa times a power of two, where the exponent is 0 or the
/// mantissa fills its 64 bits.
///
/// Each number has one such form, so numbers are equal exactly where their fields are. Exponents stay
/// below `2^50`. A call is *in range* where its exact result is below `2^(2^50)`.
#[derive(Clone, Copy, Debug)]
pub struct Scaled {
    mantissa: u64,
    exponent: u64,
}

impl Model for Scaled {
    ghost use Rattle.std.specs.Prelude.{ℕ, ◌*◌, ◌^◌};
    ghost use Rattle.mk_scaled.specs.Form.{IsForm};

    ghost Value = { ℕ };

    ghost use Rattle.mk_scaled.specs.inner.Fields.{fields_of};
    ghost use Rattle.mk_scaled.specs.inner.UniqueForm.{mantissa-form, exponent-form};

    ghost view = { λ s. s.mantissa * 2 ^ s.exponent };

    ghost invariant = { λ s. IsForm s.mantissa s.exponent };

    ghost inverse = { fields_of };

    ghost inverse_ok = { λ s f i. record {
      mantissa = mantissa-form s.mantissa s.exponent f i;
      exponent = exponent-form s.mantissa s.exponent f i;
    } };
}

impl PartialEq for Scaled {
    ghost eq = { ◌==◌ };

    ghost laws = { Prim.search (comparing, rules) };

    fn eq(&self, other: &Scaled) -> bool {
        self.key() == other.key()
    }
}

impl Eq for Scaled {
    ghost laws = { Prim.search (comparing, rules) };
}

impl PartialOrd for Scaled {
    ghost partial_cmp = { as_partial_cmp nat_cmp };

    ghost laws = { partial_order_from_own_ties (Prim.search (comparing, rules)) (Prim.search (comparing, rules)) };

    fn partial_cmp(&self, other: &Scaled) -> Option<Ordering> {
        Some(self.cmp(other))
    }
}

impl Ord for Scaled {
    ghost cmp = { nat_cmp };

    ghost total = { Prim.search (comparing, rules) };

    ghost matches_partial_cmp = { Prim.search (comparing, rules) };

    ghost matches_eq = { Prim.search (comparing, rules) };

    fn cmp(&self, other: &Scaled) -> Ordering {
        self.key().cmp(&other.key())
    }
}

impl Scaled {
    /// The whole number `n`, exactly.
    pub fn of_whole(n: u64) -> Scaled
        requires { 1 ≤ n }
        ensures { result ≡ n }
    {
        Scaled {
            mantissa: n,
            exponent: 0,
        }
    }

    /// The mantissa: the 64 highest bits, or the number itself where it is below `2^64`.
    pub fn mantissa(&self) -> u64
        ensures value { result ≡ mantissa_of self.now }
        ensures stored { IsStored self.now }
    {
        self.mantissa
    }

    /// The power of two that the mantissa is multiplied by.
    pub fn exponent(&self) -> u64
        ensures value { result ≡ exponent_of self.now }
        ensures stored { IsStored self.now }
    {
        self.exponent
    }

    /// A word that orders the numbers: the exponent above the mantissa.
    #[inline]
    fn key(&self) -> u128
        ensures value { result ≡ exponent_of self.now * 2 ^ 64 + mantissa_of self.now }
        ensures stored { IsStored self.now }
    {
        ((self.exponent as u128) << 64) + self.mantissa as u128
    }

    /// The sum, rounded down to the nearest representable number. In range.
    #[inline]
    pub fn add_down(&self, other: &Scaled) -> Scaled
        requires { IsInRange (self.now + other.now) }
        ensures { IsGreatestBelow result (self.now + other.now) }
    {
        Wide::sum(self, other).round_down()
    }

    /// The sum, rounded up to the nearest representable number. In range.
    #[inline]
    pub fn add_up(&self, other: &Scaled) -> Scaled
        requires { IsInRange (self.now + other.now) }
        ensures { IsLeastAbove result (self.now + other.now) }
    {
        Wide::sum(self, other).round_up()
    }

    /// The product, rounded down to the nearest representable number. In range.
    #[inline]
    pub fn mul_down(&self, other: &Scaled) -> Scaled
        requires { IsInRange (self.now * other.now) }
        ensures { IsGreatestBelow result (self.now * other.now) }
    {
        Wide::product(self, other).round_down()
    }

    /// The product, rounded up to the nearest representable number. In range.
    #[inline]
    pub fn mul_up(&self, other: &Scaled) -> Scaled
        requires { IsInRange (self.now * other.now) }
        ensures { IsLeastAbove result (self.now * other.now) }
    {
        Wide::product(self, other).round_up()
    }

    /// The product with `2^k`, which is always representable. In range.
    pub fn shift(&self, k: u64) -> Scaled
        requires { IsInRange (self.now * 2 ^ k) }
        ensures { result ≡ self.now * 2 ^ k }
    {
        // Opens the number: what is representable stays so.
        let _form = &self.mantissa;
        Wide::shifted(self, k).round_down()
    }

    /// The floor of `self * times / (den * over)`; `None` where that is `2^63` or more.
    pub fn div_floor(&self, times: u64, den: &Scaled, over: u64) -> Option<u64>
        requires times_below { times < 2 ^ 60 }
        requires over_positive { 1 ≤ over }
        requires over_at_most { over ≤ 2 ^ 20 }
        ensures { let floor = self.now * times / (den.now * over) in SomeIff result (floor < 2 ^ 63) floor }
    {
        quotient::floor(
            self.mantissa as u128 * times as u128,
            self.exponent,
            den.mantissa as u128 * over as u128,
            den.exponent,
        )
    }

    /// The ceiling of `self * times / (den * over)`; `None` where that is `2^63` or more.
    pub fn div_ceil(&self, times: u64, den: &Scaled, over: u64) -> Option<u64>
        requires times_below { times < 2 ^ 60 }
        requires over_positive { 1 ≤ over }
        requires over_at_most { over ≤ 2 ^ 20 }
        ensures { let ceiling = div_ceil (self.now * times) (den.now * over) in SomeIff result (ceiling < 2 ^ 63) ceiling }
    {
        quotient::ceiling(
            self.mantissa as u128 * times as u128,
            self.exponent,
            den.mantissa as u128 * over as u128,
            den.exponent,
        )
    }

    /// A number that is at most the `n`-th power, and at least that divided by `(1 + 2^-60)^(2n)`.
    /// The power is in range.
    pub fn pow_down(&self, n: u32) -> Scaled
        requires positive { 1 ≤ n }
        requires range { IsInRange (self.now ^ n) }
        ensures below { result ≤ self.now ^ n }
        ensures near { IsNear result (self.now ^ n) (2 * n) }
        ensures rule { result ≡ power_by rounded_down self.now n }
    {
        // Opens the number: it is at least 1.
        let _positive = &self.mantissa;
        power::down(self, n)
    }

    /// A number that is at least the `n`-th power, and at most that times `(1 + 2^-60)^(2n)`. The
    /// power is in range.
    pub fn pow_up(&self, n: u32) -> Scaled
        requires positive { 1 ≤ n }
        requires range { IsInRange (self.now ^ n) }
        ensures above { self.now ^ n ≤ result }
        ensures near { IsNear (self.now ^ n) result (2 * n) }
        ensures rule { result ≡ power_by rounded_up self.now n }
    {
        // Opens the number: it is at least 1.
        let _positive = &self.mantissa;
        power::up(self, n)
    }

    /// The greatest `k` with `2^k <= self`.
    pub fn log2_floor(&self) -> u64
        ensures below { 2 ^ result ≤ self.now }
        ensures greatest { self.now < 2 ^ (result + 1) }
        ensures small { result < 2 ^ 52 }
        ensures log { result ≡ whole_log self.now }
    {
        self.exponent + self.mantissa.ilog2() as u64
    }
}
