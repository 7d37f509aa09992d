//! What can be asked of the last history of a run.

use arrayvec::ArrayVec;
use mk_names::Name;
use mk_net::PairText;
use std::marker::Model;

/// The most pairs of a list.
pub(crate) const MAX_LISTED: usize = 64;

/// What is asked of a market's last history.
#[derive(Drop)]
pub enum Ask {
    /// The chance of pairs, where others are given.
    Chance { want: PairList, given: PairList },
    /// A best state of those that meet the given pairs.
    Best { given: PairList },
    /// The cash that a user may expect to have.
    Expect { user: Name },
}

/// At most 64 pairs as they are written.
#[derive(Drop)]
pub struct PairList {
    pairs: ArrayVec<PairText, 64>,
}

impl Model for PairList {
    ghost use Rattle.std.specs.Prelude.{List};
    ghost use Rattle.mk_net.specs.declared.words.PairText.{PairText};

    ghost Value = { List PairText };

    ghost view = { λ p. p.pairs.items };
}

impl PairList {
    ghost use Rattle.std.specs.Prelude.{◌≡◌, ◌≤◌, ◌<◌, ◌++◌, ◌∷◌, [], length};
    ghost use Rattle.daggre.specs.Words.{max_listed};

    /// No pair.
    pub fn new() -> PairList
        ensures { result ≡ [] }
    {
        PairList {
            pairs: ArrayVec::new(),
        }
    }

    /// Puts a pair behind the others.
    pub fn push(&mut self, pair: PairText)
        requires { length self.old < max_listed }
        ensures { self.new ≡ self.old ++ pair ∷ [] }
    {
        self.pairs.push(pair);
    }

    /// The pairs, in order.
    pub fn pairs(&self) -> &[PairText]
        ensures same { result.now ≡ self.now }
        ensures few { length self.now ≤ max_listed }
    {
        self.pairs.as_slice()
    }
}
