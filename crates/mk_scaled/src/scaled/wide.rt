//! Results before they are rounded.
ghost use Rattle.std.specs.Prelude.{◌≡◌, ℕ, ◌+◌, ◌*◌, ◌^◌, ◌<◌, ◌≤◌};
ghost use Rattle.mk_scaled.specs.Form.{IsForm, exponent_of};
ghost use Rattle.mk_scaled.specs.Rounding.{IsGreatestBelow, IsLeastAbove};
ghost use Rattle.mk_scaled.specs.inner.Wide.{IsFull, IsNearRange, StandsFor};

use super::Scaled;

/// A sum or a product before it is rounded: `digits` times a power of two, and whether the exact
/// number lies above that, below the next.
#[derive(Clone, Copy)]
pub struct Wide {
    digits: u128,
    exponent: u64,
    rest: bool,
}

/// The same with digits that fit a mantissa.
#[derive(Clone, Copy)]
struct Narrow {
    mantissa: u64,
    exponent: u64,
    rest: bool,
}

impl Wide {
    /// The exact product.
    #[inline]
    pub fn product(a: &Scaled, b: &Scaled) -> Wide
        requires { IsNearRange (a.now * b.now) }
        ensures full { IsFull result.digits result.exponent }
        ensures exact { StandsFor result.digits result.exponent result.rest (a.now * b.now) }
    {
        Wide {
            digits: a.mantissa as u128 * b.mantissa as u128,
            exponent: a.exponent + b.exponent,
            rest: false,
        }
    }

    /// The exact sum.
    #[inline]
    pub fn sum(a: &Scaled, b: &Scaled) -> Wide
        requires { IsNearRange (a.now + b.now) }
        ensures full { IsFull result.digits result.exponent }
        ensures exact { StandsFor result.digits result.exponent result.rest (a.now + b.now) }
    {
        let (high, low) = by_exponent(*a, *b);
        let gap = high.exponent - low.exponent;
        if gap < 64 {
            Wide {
                digits: ((high.mantissa as u128) << gap) + low.mantissa as u128,
                exponent: low.exponent,
                rest: false,
            }
        } else {
            // The lesser number lies wholly below the last digit of the greater one.
            Wide {
                digits: high.mantissa as u128,
                exponent: high.exponent,
                rest: true,
            }
        }
    }

    /// The exact product with `2^k`.
    #[inline]
    pub fn shifted(number: &Scaled, k: u64) -> Wide
        requires { IsNearRange (number.now * 2 ^ k) }
        ensures full { IsFull result.digits result.exponent }
        ensures exact { StandsFor result.digits result.exponent result.rest (number.now * 2 ^ k) }
    {
        let inside = k.min(63);
        Wide {
            digits: (number.mantissa as u128) << inside,
            exponent: number.exponent + (k - inside),
            rest: false,
        }
    }

    #[inline]
    fn narrow(self) -> Narrow
        requires { IsFull self.digits self.exponent }
        ensures form { IsForm result.mantissa result.exponent }
        ensures room { result.exponent + 1 < 2 ^ 50 }
        ensures same { (x : ℕ) → StandsFor self.digits self.exponent self.rest x → StandsFor result.mantissa result.exponent result.rest x }
    {
        let shift = 64u32.saturating_sub(self.digits.leading_zeros());
        Narrow {
            mantissa: (self.digits >> shift) as u64,
            exponent: self.exponent + shift as u64,
            rest: self.rest || self.digits.trailing_zeros() < shift,
        }
    }

    /// The greatest representable number that is not above the exact one.
    #[inline]
    pub fn round_down(self) -> Scaled
        requires { IsFull self.digits self.exponent }
        ensures { (x : ℕ) → StandsFor self.digits self.exponent self.rest x → IsGreatestBelow result x }
    {
        let narrow = self.narrow();
        Scaled {
            mantissa: narrow.mantissa,
            exponent: narrow.exponent,
        }
    }

    /// The least representable number that is not below the exact one.
    #[inline]
    pub fn round_up(self) -> Scaled
        requires { IsFull self.digits self.exponent }
        ensures { (x : ℕ) → StandsFor self.digits self.exponent self.rest x → IsLeastAbove result x }
    {
        let narrow = self.narrow();
        if narrow.rest && narrow.mantissa == u64::MAX {
            return Scaled {
                mantissa: 1 << 63,
                exponent: narrow.exponent + 1,
            };
        }
        Scaled {
            mantissa: narrow.mantissa + narrow.rest as u64,
            exponent: narrow.exponent,
        }
    }
}

/// The two numbers, that with the greater exponent first.
#[inline]
fn by_exponent(a: Scaled, b: Scaled) -> (Scaled, Scaled)
    ensures sum { result.0 + result.1 ≡ a + b }
    ensures order { exponent_of result.1 ≤ exponent_of result.0 }
{
    if a.exponent < b.exponent {
        (b, a)
    } else {
        (a, b)
    }
}
