//! Powers, by squaring.
ghost use Rattle.std.specs.Prelude.{◌≡◌, ℕ, ◌+◌, ◌-◌, ◌*◌, ◌/◌, ◌^◌, ◌<◌, ◌≤◌};
ghost use Rattle.mk_scaled.specs.ByRule.{rounded_down, rounded_up, power_by};
ghost use Rattle.mk_scaled.specs.Near.{IsNear};
ghost use Rattle.mk_scaled.specs.Range.{IsInRange};

use super::{Scaled, Wide};

/// A number just below the power: each of its products is rounded down.
pub fn down(base: &Scaled, n: u32) -> Scaled
    requires base_positive { 1 ≤ base.now }
    requires positive { 1 ≤ n }
    requires range { IsInRange (base.now ^ n) }
    ensures positive { 1 ≤ result }
    ensures below { result ≤ base.now ^ n }
    ensures near { IsNear result (base.now ^ n) (n - 1) }
    ensures rule { result ≡ power_by rounded_down base.now n }
{
    if n == 1 {
        return *base;
    }
    let half = down(base, n / 2);
    let square = half.mul_down(&half);
    if n % 2 == 1 {
        square.mul_down(base)
    } else {
        square
    }
}

/// A number just above the power: each of its products is rounded up, and may be a little above the
/// range of exact results.
pub fn up(base: &Scaled, n: u32) -> Scaled
    requires base_positive { 1 ≤ base.now }
    requires positive { 1 ≤ n }
    requires range { IsInRange (base.now ^ n) }
    ensures positive { 1 ≤ result }
    ensures above { base.now ^ n ≤ result }
    ensures near { IsNear (base.now ^ n) result (n - 1) }
    ensures rule { result ≡ power_by rounded_up base.now n }
{
    if n == 1 {
        return *base;
    }
    let half = up(base, n / 2);
    let square = Wide::product(&half, &half).round_up();
    if n % 2 == 1 {
        Wide::product(&square, base).round_up()
    } else {
        square
    }
}
