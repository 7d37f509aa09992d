//! The least units that leave a factor at least one, where its bounds tell them.
ghost use Rattle.std.specs.Prelude.{◌≡◌, ℕ, ◌+◌, ◌^◌, ◌<◌};
ghost use Rattle.mk_judge.specs.Below.{Fraction, Encloses};
ghost use Rattle.mk_judge.specs.Powers.{StandsBeside};
ghost use Rattle.mk_judge.specs.Cash.{IsHeld};
ghost use Rattle.mk_judge.specs.Units.{HasTradeRange};
ghost use Rattle.mk_judge.specs.inner.Solvency.{FitsLeast, SaysLeast, SaysLeastOf};

use crate::scale::Scale;
use crate::solvency::least_units;
use mk_enclose::{Enclosure, Factor};

/// The least units, or that they are `2^63` or more, or neither.
#[derive(Clone, Copy, Debug)]
pub enum Least {
    Units(u64),
    TooMany,
    Unsure,
}

/// The least units that leave a factor at least one after one more trade.
pub fn least_of(factor: &Factor) -> Least
    requires { HasTradeRange factor.now }
    ensures fits { FitsLeast result }
    ensures least { (q : Fraction) → IsHeld factor.now q → SaysLeast result factor.now q }
{
    let scale = Scale::of_trade(factor);
    if factor.trades == 0 {
        least_between(&Enclosure::exact(1), &scale)
    } else {
        least_between(&factor.gain, &scale)
    }
}

/// The least units, where both ends of the gain give the same.
fn least_between(gain: &Enclosure, scale: &Scale) -> Least
    requires room { scale.now.owed + 40 < 2 ^ 50 }
    ensures fits { FitsLeast result }
    ensures least { (g z w : ℕ) → Encloses gain.now g → StandsBeside scale.now g z w
        → SaysLeastOf result gain.now z w }
{
    match (
        least_units(&gain.lo(), scale),
        least_units(&gain.hi(), scale),
    ) {
        (_, None) => Least::TooMany,
        (None, Some(_)) => Least::Unsure,
        (Some(most), Some(least)) => {
            if least == most {
                Least::Units(least)
            } else {
                Least::Unsure
            }
        }
    }
}
