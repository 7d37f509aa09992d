//! A kept change, read.

ghost use Rattle.std.specs.Prelude.{◌≡◌, ◌<◌, ◌≤◌, ◌+◌, [], ◌∷◌, ◌++◌, length, take, get_or};
ghost use Rattle.mk_history.specs.Below.{max_condition, max_values, AreApart, trade_ratio};
ghost use Rattle.mk_history.specs.Entries.{change_of};
ghost use Rattle.mk_history.specs.inner.Kept.{IsKeptTrade, ratio_kept};

use crate::change::{Change, KeptTrade};
use crate::entry::Entry;
use crate::history::History;
use arrayvec::ArrayVec;
use mk_net::{Event, Pair, Ratio};

impl History {
    /// The change of a number, counted from 0.
    pub fn entry(&self, k: u32) -> Entry<'_>
        requires { k < length self.now.history }
        ensures same { change_of result ≡ get_or self.now.history k (change_of result) }
        ensures next { take (k + 1) self.now.history
            ≡ take k self.now.history ++ change_of result ∷ [] }
    {
        self.read(k)
    }

    /// The change of a number, as it is kept, read.
    fn read(&self, k: u32) -> Entry<'_>
        requires { k < length self.now.history }
        ensures { change_of result ≡ get_or self.now.history k (change_of result) }
    {
        match self.changes[k as usize] {
            Change::Join { name } => Entry::Join {
                user: self.names[name as usize],
            },
            Change::Deposit { user, bits } => Entry::Deposit { user, bits },
            Change::Withdraw { user, bits } => Entry::Withdraw { user, bits },
            Change::Trade { trade } => Entry::Trade {
                user: trade.user,
                ratio: ratio(trade, &self.pairs, &self.factors),
            },
            Change::Resolve { pair } => Entry::Resolve { pair },
            Change::Settle => Entry::Settle {
                payments: self.payments.as_slice(),
            },
            Change::Add { question } => Entry::Add {
                question: &self.questions[question as usize],
            },
        }
    }
}

/// The ratio of a kept trade.
fn ratio(trade: KeptTrade, pairs: &[Pair], factors: &[u64]) -> Ratio
    requires { IsKeptTrade pairs.now factors.now trade }
    ensures { trade_ratio result ≡ ratio_kept pairs.now factors.now trade }
{
    let first_pair = trade.first_pair as usize;
    let first_factor = trade.first_factor as usize;
    Ratio {
        variable: trade.variable,
        condition: event(&pairs[first_pair..first_pair + trade.pairs as usize]),
        factors: factor_list(&factors[first_factor..first_factor + trade.factors as usize]),
    }
}

/// The event of pairs that are one.
fn event(pairs: &[Pair]) -> Event
    requires few { length pairs.now ≤ max_condition }
    requires apart { AreApart pairs.now }
    ensures { result ≡ pairs.now }
{
    let mut event = Event::empty();
    for pair in pairs {
        event = match event.with(*pair) {
            Some(longer) => longer,
            None => unreachable!(),
        };
    }
    event
}

/// A list of factors that there may be.
fn factor_list(factors: &[u64]) -> ArrayVec<u64, 16>
    requires { length factors.now ≤ max_values }
    ensures { result.items ≡ factors.now }
{
    let mut list = ArrayVec::new();
    match list.try_extend_from_slice(factors) {
        Ok(()) => list,
        Err(_) => unreachable!(),
    }
}
