//! The accepted changes of a market, in their order.

ghost use Rattle.std.specs.Prelude.{◌≡◌, ◌<◌, ◌≤◌, ◌+◌, [], ◌∷◌, ◌++◌, false, length, map, IfOk};
ghost use Rattle.std.specs.Prelude.{vec_len, vec_capacity};
ghost use Rattle.mk_history.specs.Below.{count_by, max_variables, max_users, max_transfers};
ghost use Rattle.mk_history.specs.Below.{max_market_trades, trade_ratio, Join, Deposit, Withdraw};
ghost use Rattle.mk_history.specs.Below.{Trade, Resolve, Settle, Add, users, resolutions};
ghost use Rattle.mk_history.specs.Below.{additions, is_transfer, is_settled};
ghost use Rattle.mk_exact.specs.History.{trades as trades_in};
ghost use Rattle.mk_history.specs.Entries.{ends, addition_of};
ghost use Rattle.mk_history.specs.Histories.{max_additions};
ghost use Rattle.mk_history.specs.inner.Kept.{alone};
ghost use Rattle.mk_history.specs.inner.Counted.{HasPlaceAlone};

use crate::change::{Change, KeptTrade};
use crate::entry::{AddedQuestion, Payout};
use mk_names::Name;
use mk_names::limits::{MAX_CONDITION, MAX_VALUES, MAX_VARIABLES};
use mk_net::{NoMemory, Pair, Ratio};
use std::alloc::Global;
use std::marker::Model;

/// The most questions that are added to a market, which has one at least when it opens.
const MAX_ADDITIONS: usize = MAX_VARIABLES as usize - 1;

/// The most trades, users and transfers of a market: a transfer is a deposit or a withdrawal.
#[derive(Clone, Copy, Debug)]
pub struct Limits {
    pub trades: u32,
    pub users: u32,
    pub transfers: u32,
}

/// The accepted changes in order. All memory is taken at the start.
#[derive(Drop)]
pub struct History {
    pub(crate) changes: Vec<Change>,
    pub(crate) names: Vec<Name>,
    pub(crate) pairs: Vec<Pair>,
    pub(crate) factors: Vec<u64>,
    pub(crate) payments: Vec<Payout>,
    pub(crate) questions: Vec<Box<AddedQuestion>>,
    limits: Limits,
}

impl Model for History {
    ghost use Rattle.mk_history.specs.Histories.{HistoryOf};

    ghost Value = { HistoryOf };

    ghost use Rattle.mk_history.specs.inner.Stored.{history_of, IsStored};

    ghost view = { history_of };

    ghost invariant = { IsStored };
}

impl History {
    /// The history of a market of these limits, without a change.
    pub fn start(alloc: Global, limits: Limits) -> Result<History, NoMemory>
        requires trades { limits.trades ≤ max_market_trades }
        requires users { limits.users ≤ max_users }
        requires transfers { limits.transfers ≤ max_transfers }
        ensures { IfOk result (λ started. started ≡ record {
          history = [];
          max_trades = limits.trades;
          max_users = limits.users;
          max_transfers = limits.transfers;
        }) }
    {
        let trades = limits.trades as usize;
        let users = limits.users as usize;
        let most = trades
            + limits.transfers as usize
            + users
            + MAX_VARIABLES as usize
            + MAX_ADDITIONS
            + 1;
        Ok(History {
            changes: Vec::with_capacity(alloc, most)?,
            names: Vec::with_capacity(alloc, users)?,
            pairs: Vec::with_capacity(alloc, MAX_CONDITION as usize * trades)?,
            factors: Vec::with_capacity(alloc, MAX_VALUES as usize * trades)?,
            payments: Vec::new(alloc),
            questions: Vec::with_capacity(alloc, MAX_ADDITIONS)?,
            limits,
        })
    }

    /// How many changes there are.
    pub fn length(&self) -> u32
        ensures { result ≡ length self.now.history }
    {
        self.changes.len() as u32
    }

    /// Adds a user who joined.
    pub fn join(&mut self, user: Name)
        requires { length (users self.old.history) < self.old.max_users }
        ensures history { self.new.history ≡ self.old.history ++ Join user ∷ [] }
        ensures limit { self.new.max_trades ≡ self.old.max_trades }
        ensures users { self.new.max_users ≡ self.old.max_users }
        ensures transfers { self.new.max_transfers ≡ self.old.max_transfers }
    {
        let name = self.names.len() as u32;
        self.names.push_reserved(user);
        self.changes.push_reserved(Change::Join { name });
    }

    /// Adds a deposit.
    pub fn deposit(&mut self, user: u32, bits: u32)
        requires { count_by is_transfer self.old.history < self.old.max_transfers }
        ensures history { self.new.history ≡ self.old.history ++ Deposit user bits ∷ [] }
        ensures limit { self.new.max_trades ≡ self.old.max_trades }
        ensures users { self.new.max_users ≡ self.old.max_users }
        ensures transfers { self.new.max_transfers ≡ self.old.max_transfers }
    {
        self.push(Change::Deposit { user, bits });
    }

    /// Adds a withdrawal.
    pub fn withdraw(&mut self, user: u32, bits: u32)
        requires { count_by is_transfer self.old.history < self.old.max_transfers }
        ensures history { self.new.history ≡ self.old.history ++ Withdraw user bits ∷ [] }
        ensures limit { self.new.max_trades ≡ self.old.max_trades }
        ensures users { self.new.max_users ≡ self.old.max_users }
        ensures transfers { self.new.max_transfers ≡ self.old.max_transfers }
    {
        self.push(Change::Withdraw { user, bits });
    }

    /// Adds a change that names nothing beside it.
    fn push(&mut self, change: Change)
        requires { HasPlaceAlone self.old change }
        ensures history { self.new.history ≡ self.old.history ++ alone change ∷ [] }
        ensures limit { self.new.max_trades ≡ self.old.max_trades }
        ensures users { self.new.max_users ≡ self.old.max_users }
        ensures transfers { self.new.max_transfers ≡ self.old.max_transfers }
    {
        self.changes.push_reserved(change);
    }

    /// Adds a trade.
    pub fn trade(&mut self, user: u32, ratio: &Ratio)
        requires { length (trades_in self.old.history) < self.old.max_trades }
        ensures history { self.new.history
            ≡ self.old.history ++ Trade user (trade_ratio ratio.now) ∷ [] }
        ensures limit { self.new.max_trades ≡ self.old.max_trades }
        ensures users { self.new.max_users ≡ self.old.max_users }
        ensures transfers { self.new.max_transfers ≡ self.old.max_transfers }
    {
        let trade = KeptTrade {
            user,
            variable: ratio.variable,
            first_pair: self.pairs.len() as u32,
            first_factor: self.factors.len() as u32,
            pairs: ratio.condition.pairs().len() as u8,
            factors: ratio.factors.len() as u8,
        };
        append(&mut self.pairs, ratio.condition.pairs());
        append(&mut self.factors, ratio.factors.as_slice());
        self.changes.push_reserved(Change::Trade { trade });
    }

    /// Adds a resolution.
    pub fn resolve(&mut self, pair: Pair)
        requires { length (resolutions self.old.history) < max_variables }
        ensures history { self.new.history ≡ self.old.history ++ Resolve pair ∷ [] }
        ensures limit { self.new.max_trades ≡ self.old.max_trades }
        ensures users { self.new.max_users ≡ self.old.max_users }
        ensures transfers { self.new.max_transfers ≡ self.old.max_transfers }
    {
        self.push(Change::Resolve { pair });
    }

    /// Adds the settlement, and what it pays.
    pub fn settle(&mut self, payments: Vec<Payout>)
        requires { is_settled self.old.history ≡ false }
        ensures history { self.new.history
            ≡ self.old.history ++ Settle (map ends payments.items) ∷ [] }
        ensures limit { self.new.max_trades ≡ self.old.max_trades }
        ensures users { self.new.max_users ≡ self.old.max_users }
        ensures transfers { self.new.max_transfers ≡ self.old.max_transfers }
    {
        self.payments = payments;
        self.changes.push_reserved(Change::Settle);
    }

    /// Adds a question.
    pub fn add(&mut self, question: Box<AddedQuestion>)
        requires { length (additions self.old.history) < max_additions }
        ensures history { self.new.history
            ≡ self.old.history ++ Add (addition_of question.value) ∷ [] }
        ensures limit { self.new.max_trades ≡ self.old.max_trades }
        ensures users { self.new.max_users ≡ self.old.max_users }
        ensures transfers { self.new.max_transfers ≡ self.old.max_transfers }
    {
        let number = self.questions.len() as u32;
        self.questions.push_reserved(question);
        self.changes.push_reserved(Change::Add { question: number });
    }
}

/// Puts a slice behind what a list holds, which has room for it.
fn append<T: Copy>(list: &mut Vec<T>, more: &[T])
    requires { vec_len list.old + length more.now ≤ vec_capacity list.old }
    ensures items { list.new.items ≡ list.old.items ++ more.now }
    ensures capacity { vec_capacity list.new ≡ vec_capacity list.old }
{
    for item in more {
        list.push_reserved(*item);
    }
}
