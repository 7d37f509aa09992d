//! Events: lists of pairs that a state can have.

ghost use Rattle.std.specs.Prelude.{◌≡◌, ◌++◌, ◌∷◌, [], ◌⊎◌, true, length, IfSome, IfNone};
ghost use Rattle.mk_net.specs.Bounds.{max_pairs};
ghost use Rattle.mk_net.specs.Events.{speaks_of, IsEvent};

use crate::words::Pair;
use mk_names::limits::MAX_PAIRS;
use std::marker::Model;

/// A list of at most nine pairs, none of which speaks of another's variable.
#[derive(Clone, Copy, Debug)]
pub struct Event {
    pairs: [Pair; 9],
    size: u8,
}

impl Model for Event {
    ghost use Rattle.std.specs.Prelude.{ℕ, List, length, take};
    ghost use Rattle.mk_net.specs.declared.words.Pair.{Pair};
    ghost use Rattle.mk_net.specs.inner.KeptEvents.{IsKeptEvent, padded_event};

    ghost Value = { List Pair };

    ghost view = { λ e. take e.size e.pairs };

    ghost invariant = { λ e. IsKeptEvent e.pairs e.size };

    ghost inverse = { λ event. record { pairs = padded_event event; size = length event } };

    ghost use Rattle.std.specs.Prelude.{refl};
    ghost use Rattle.mk_net.specs.inner.KeptEvents.{kept_inverse};

    ghost inverse_ok = { λ e kept. kept_inverse e (record { pairs = padded_event (take e.size e.pairs); size = length (take e.size e.pairs) }) refl refl kept };
}

impl Event {
    /// The event that every state has.
    pub fn empty() -> Event
        ensures { result ≡ [] }
    {
        Event {
            pairs: [Pair::default(); 9],
            size: 0,
        }
    }

    /// The event with one pair more, at the end. None exactly where nine are held, or one of them speaks of the pair's
    /// variable.
    pub fn with(&self, pair: Pair) -> Option<Event>
        ensures some { IfSome result (λ event. event ≡ self.now ++ pair ∷ []) }
        ensures none { IfNone result ((length self.now ≡ max_pairs) ⊎ (speaks_of self.now pair.variable ≡ true)) }
        ensures event { IfSome result (λ event. IsEvent event) }
    {
        if self.size as u32 >= MAX_PAIRS || speaks_of(self.pairs(), pair.variable) {
            return None;
        }
        let mut longer = *self;
        longer.pairs[self.size as usize] = pair;
        longer.size = self.size + 1;
        Some(longer)
    }

    /// Its pairs, in the order in which they were added.
    pub fn pairs(&self) -> &[Pair]
        ensures pairs { result.now ≡ self.now }
        ensures event { IsEvent self.now }
    {
        &self.pairs[..self.size as usize]
    }
}

/// Whether one of the pairs gives the variable a value.
pub fn speaks_of(pairs: &[Pair], variable: u32) -> bool
    ensures { result ≡ speaks_of pairs.now variable }
{
    pairs.iter().any(|pair| variable == pair.variable)
}
