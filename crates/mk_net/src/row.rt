//! Rows of a question that is added to a market.

ghost use Rattle.std.specs.Prelude.{◌≡◌, ◌<◌, ◌≤◌, ◌++◌, ◌∷◌, ◌↔◌, [], length, IsSome, IfSome};
ghost use Rattle.mk_net.specs.Below.{partial_equiv_from_equiv, same_text, same_text_equiv};
ghost use Rattle.mk_net.specs.Bounds.{max_values};

use mk_names::limits::MAX_VALUES;
use std::marker::Model;

/// A list of at most sixteen numbers: one for each value of a question, in parts per million.
#[derive(Clone, Copy, Debug)]
pub struct Row {
    numbers: [u32; 16],
    size: u8,
}

impl Model for Row {
    ghost use Rattle.std.specs.Prelude.{ℕ, List, length, take};
    ghost use Rattle.mk_net.specs.inner.KeptRows.{IsKeptRow, padded_row};

    ghost Value = { List ℕ };

    ghost view = { λ r. take r.size r.numbers };

    ghost invariant = { λ r. IsKeptRow r.numbers r.size };

    ghost inverse = { λ row. record { numbers = padded_row row; size = length row } };

    ghost use Rattle.std.specs.Prelude.{refl};
    ghost use Rattle.mk_net.specs.inner.KeptRows.{row_inverse};

    ghost inverse_ok = { λ r kept. row_inverse r
        (record {
          numbers = padded_row (take r.size r.numbers);
          size =
              length (take r.size r.numbers);
        }) refl refl kept };
}

/// The row with no numbers.
impl Default for Row {
    ghost use Rattle.std.specs.Prelude.{◌≡◌, []};

    ghost is_default = { λ row. row ≡ [] };

    fn default() -> Row {
        Row::empty()
    }
}

/// Rows are equal where their numbers are.
impl PartialEq for Row {
    ghost eq = { same_text };

    ghost laws = { partial_equiv_from_equiv same_text_equiv };

    fn eq(&self, other: &Row) -> bool {
        self.numbers() == other.numbers()
    }
}

impl Eq for Row {
    ghost laws = { same_text_equiv };
}

impl Row {
    /// The row with no numbers.
    pub fn empty() -> Row
        ensures { result ≡ [] }
    {
        Row {
            numbers: [0; 16],
            size: 0,
        }
    }

    /// The row with one number more, at the end. None exactly where sixteen are held.
    pub fn with(&self, number: u32) -> Option<Row>
        ensures room { IsSome result ↔ (length self.now < max_values) }
        ensures longer { IfSome result (λ row. row ≡ self.now ++ number ∷ []) }
    {
        if self.size as u32 >= MAX_VALUES {
            return None;
        }
        let mut longer = *self;
        longer.numbers[self.size as usize] = number;
        longer.size = self.size + 1;
        Some(longer)
    }

    /// Its numbers, in the order in which they were added.
    pub fn numbers(&self) -> &[u32]
        ensures numbers { result.now ≡ self.now }
        ensures few { length self.now ≤ max_values }
    {
        &self.numbers[..self.size as usize]
    }
}
