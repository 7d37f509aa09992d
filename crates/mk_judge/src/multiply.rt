//! Rounded products that need not be in range.
ghost use Rattle.std.specs.Prelude.{◌*◌, ◌≤◌};
ghost use Rattle.mk_scaled.specs.Near.{IsNear};
ghost use Rattle.mk_judge.specs.inner.Products.{product_of};

use crate::product::Product;
use mk_scaled::Scaled;

/// The product, rounded down.
pub fn product_down(left: &Scaled, right: &Scaled) -> Product
    ensures below { product_of result ≤ left.now * right.now }
    ensures near { IsNear (product_of result) (left.now * right.now) 1 }
{
    let number = Scaled::of_whole(left.mantissa()).mul_down(&Scaled::of_whole(right.mantissa()));
    Product {
        number,
        bits: left.exponent() + right.exponent(),
    }
}

/// The product, rounded up.
pub fn product_up(left: &Scaled, right: &Scaled) -> Product
    ensures above { left.now * right.now ≤ product_of result }
    ensures near { IsNear (left.now * right.now) (product_of result) 1 }
{
    let number = Scaled::of_whole(left.mantissa()).mul_up(&Scaled::of_whole(right.mantissa()));
    Product {
        number,
        bits: left.exponent() + right.exponent(),
    }
}
