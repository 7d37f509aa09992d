//! Maxima and products.
ghost use Rattle.std.specs.Prelude.{◌≡◌, ℕ, ◌+◌, ◌*◌, ◌^◌, ◌<◌, ◌≤◌, length, max};
ghost use Rattle.mk_semiring.specs.Held.{HeldEncloses, HasHeldGrade, IsHeldExact, CanTimes};
ghost use Rattle.mk_semiring.specs.Held.{held_grade_more, held_times_fits};
ghost use Rattle.mk_semiring.specs.Most.{greatest_lawful};

use crate::{Held, Semiring, held};
use mk_cell::Cell;

/// Maxima and products: plus is the greater number, and Absent is 0, which is below all others.
#[derive(Clone, Copy, Debug)]
pub struct MaxProd;

impl Semiring for MaxProd {
    type Value = Held;

    ghost plus_of = { max };

    ghost encloses = { HeldEncloses };

    ghost has_grade = { HasHeldGrade };

    ghost is_exact = { IsHeldExact };

    ghost can_plus = { λ a b. Unit {0} };

    ghost can_times = { CanTimes };

    ghost lawful = { greatest_lawful };

    ghost grade_more = { held_grade_more };

    ghost plus_fits = { λ a b g h k l. tt };

    ghost times_fits = { held_times_fits };

    fn absent() -> Held {
        Held::Absent
    }

    fn one() -> Held {
        held::whole(1)
    }

    fn of_whole(n: u64) -> Held {
        held::whole(n)
    }

    #[inline]
    fn plus(a: &Held, b: &Held) -> Held {
        match a {
            Held::Absent => *b,
            Held::Present(x) => match b {
                Held::Absent => Held::Present(*x),
                Held::Present(y) => Held::Present(x.max(y)),
            },
        }
    }

    #[inline]
    fn times(a: &Held, b: &Held) -> Held {
        held::product(a, b)
    }

    fn over(digits: &[u64], exponents: &[u32]) -> Cell {
        mk_cell::greatest(digits, exponents)
    }

    fn over_products(places: &[u64], exponents: &[u32]) -> Cell {
        mk_cell::greatest_of_products(places, exponents)
    }

    fn of_cell(cell: Cell, shift: u32, untouched: bool, grade: u32) -> Held {
        held::of_cell(cell, shift, untouched, grade)
    }
}
