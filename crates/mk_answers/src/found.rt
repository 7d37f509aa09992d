//! Beliefs and factors that are there.
ghost use Rattle.std.specs.Prelude.{◌≡◌, Some, IsSome};
ghost use Rattle.mk_answers.specs.inner.Found.{IsThere};

use mk_enclose::{Enclosure, Factor};
use mk_semiring::Held;

/// The enclosure of a belief in what is possible.
pub fn enclosure_of(belief: &Held) -> Enclosure
    requires { IsThere belief.now }
    ensures { belief.now ≡ Held.Present result }
{
    match belief {
        Held::Absent => unreachable!(),
        Held::Present(enclosure) => *enclosure,
    }
}

/// The least factor over states of which there are some.
pub fn factor_of(least: Option<Factor>) -> Factor
    requires { IsSome least }
    ensures { least ≡ Some result }
{
    match least {
        None => unreachable!(),
        Some(factor) => factor,
    }
}
