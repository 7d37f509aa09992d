//! Sums and products.
ghost use Rattle.std.specs.Prelude.{◌≡◌, ℕ, ◌+◌, ◌*◌, ◌^◌, ◌<◌, ◌≤◌, length};
ghost use Rattle.mk_semiring.specs.Held.{HeldEncloses, HasHeldGrade, IsHeldExact, CanPlus, CanTimes, held_grade_more, held_plus_fits, held_times_fits};
ghost use Rattle.mk_semiring.specs.Lawful.{sum_lawful};

use crate::{Held, Semiring, held};
use mk_cell::Cell;

/// Sums and products.
#[derive(Clone, Copy, Debug)]
pub struct SumProd;

impl Semiring for SumProd {
    type Value = Held;

    ghost plus_of = { ◌+◌ };

    ghost encloses = { HeldEncloses };

    ghost has_grade = { HasHeldGrade };

    ghost is_exact = { IsHeldExact };

    ghost can_plus = { CanPlus };

    ghost can_times = { CanTimes };

    ghost lawful = { sum_lawful };

    ghost grade_more = { held_grade_more };

    ghost plus_fits = { held_plus_fits };

    ghost times_fits = { held_times_fits };

    fn absent() -> Held {
        Held::Absent
    }

    fn one() -> Held {
        held::whole(1)
    }

    fn of_whole(n: u64) -> Held {
        held::whole(n)
    }

    #[inline]
    fn plus(a: &Held, b: &Held) -> Held {
        match a {
            Held::Absent => *b,
            Held::Present(x) => match b {
                Held::Absent => Held::Present(*x),
                Held::Present(y) => Held::Present(x.add(y)),
            },
        }
    }

    #[inline]
    fn times(a: &Held, b: &Held) -> Held {
        held::product(a, b)
    }

    fn over(digits: &[u64], exponents: &[u32]) -> Cell {
        mk_cell::sum(digits, exponents)
    }

    fn over_products(places: &[u64], exponents: &[u32]) -> Cell {
        mk_cell::sum_of_products(places, exponents)
    }

    fn of_cell(cell: Cell, shift: u32, untouched: bool, grade: u32) -> Held {
        held::of_cell(cell, shift, untouched, grade)
    }
}
