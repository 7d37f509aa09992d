//! The accepted changes of a market.

ghost use Rattle.std.specs.Prelude.{◌≡◌, ◌+◌, ◌<◌, ◌≤◌, [], ◌∷◌, ◌++◌, false, length, map, IfOk};
ghost use Rattle.std.specs.Prelude.{take, get_or};
ghost use Rattle.mk_record.specs.Below.{count_by, max_variables, max_users, max_transfers};
ghost use Rattle.mk_record.specs.Below.{max_market_trades, trade_ratio, Join, Deposit, Withdraw};
ghost use Rattle.mk_record.specs.Below.{Trade, Resolve, Settle, Add, users, resolutions, additions};
ghost use Rattle.mk_record.specs.Below.{is_transfer, revision, is_settled, change_of, ends};
ghost use Rattle.mk_record.specs.Below.{addition_of, max_additions};
ghost use Rattle.mk_exact.specs.History.{trades as trades_in};
ghost use Rattle.mk_rules.specs.Refusals as rules;

use mk_history::{AddedQuestion, Entry, History, Limits, Payout};
use mk_names::Name;
use mk_names::limits::MAX_VARIABLES;
use mk_net::{NoMemory, Pair, Ratio};
use std::alloc::Global;
use std::marker::Model;

/// The accepted changes in order, with what is counted of them. All memory is taken at the start.
#[derive(Drop)]
pub struct Journal {
    accepted: History,
    known: Vec<Pair>,
    limits: Limits,
    joined: u32,
    trades: u32,
    transfers: u32,
    added: u32,
    settled: bool,
}

impl Model for Journal {
    ghost use Rattle.std.specs.Prelude.{vec_capacity};
    ghost use Rattle.mk_record.specs.Journals.{JournalOf};
    ghost use Rattle.mk_record.specs.inner.Counted.{IsCounted, HasRoom, HasLimits};

    ghost Value = { JournalOf };

    ghost view = { λ j. record {
      history = j.accepted.history;
      max_trades = j.limits.trades;
      max_users = j.limits.users;
      max_transfers = j.limits.transfers;
    } };

    ghost invariant = { λ j. IsCounted j.accepted.history j.limits j.known.items
        j.joined j.trades j.transfers j.added j.settled
        × HasLimits j.accepted j.limits × HasRoom (vec_capacity j.known) };
}

impl Journal {
    /// The journal of a market of these limits, without an entry.
    pub fn start(alloc: Global, limits: Limits) -> Result<Journal, NoMemory>
        requires trades { limits.trades ≤ max_market_trades }
        requires users { limits.users ≤ max_users }
        requires transfers { limits.transfers ≤ max_transfers }
        ensures { IfOk result (λ journal. journal ≡ record {
          history = [];
          max_trades = limits.trades;
          max_users = limits.users;
          max_transfers = limits.transfers;
        }) }
    {
        let accepted = History::start(alloc, limits)?;
        let known = Vec::with_capacity(alloc, MAX_VARIABLES as usize)?;
        Ok(Journal {
            accepted,
            known,
            limits,
            joined: 0,
            trades: 0,
            transfers: 0,
            added: 0,
            settled: false,
        })
    }

    /// How many changes were accepted.
    pub fn length(&self) -> u32
        ensures { result ≡ length self.now.history }
    {
        self.accepted.length()
    }

    /// The change of a number, counted from 0.
    pub fn entry(&self, k: u32) -> Entry<'_>
        requires { k < length self.now.history }
        ensures same { change_of result ≡ get_or self.now.history k (change_of result) }
        ensures next { take (k + 1) self.now.history
            ≡ take k self.now.history ++ change_of result ∷ [] }
    {
        self.accepted.entry(k)
    }

    /// The revision of the market: how many changes were accepted.
    pub fn revision(&self) -> u64
        ensures { result ≡ revision self.now.history }
    {
        self.accepted.length() as u64
    }

    /// The most trades that the market takes.
    pub fn max_trades(&self) -> u32
        ensures same { result ≡ self.now.max_trades }
        ensures few { result ≤ max_market_trades }
    {
        self.limits.trades
    }

    /// The most users that the market takes.
    pub fn max_users(&self) -> u32
        ensures same { result ≡ self.now.max_users }
        ensures few { result ≤ max_users }
    {
        self.limits.users
    }

    /// The most deposits and withdrawals that the market takes.
    pub fn max_transfers(&self) -> u32
        ensures same { result ≡ self.now.max_transfers }
        ensures few { result ≤ max_transfers }
    {
        self.limits.transfers
    }

    /// How many users joined.
    pub fn joined(&self) -> u32
        ensures count { result ≡ length (users self.now.history) }
        ensures few { result ≤ self.now.max_users }
    {
        self.joined
    }

    /// How many trades there were.
    pub fn trades(&self) -> u32
        ensures count { result ≡ length (trades_in self.now.history) }
        ensures few { result ≤ self.now.max_trades }
    {
        self.trades
    }

    /// How many deposits and withdrawals there were.
    pub fn transfers(&self) -> u32
        ensures count { result ≡ count_by is_transfer self.now.history }
        ensures few { result ≤ self.now.max_transfers }
    {
        self.transfers
    }

    /// How many questions were added.
    pub fn added(&self) -> u32
        ensures count { result ≡ length (additions self.now.history) }
        ensures few { result ≤ max_additions }
    {
        self.added
    }

    /// Whether the market was settled.
    pub fn is_settled(&self) -> bool
        ensures { result ≡ is_settled self.now.history }
    {
        self.settled
    }

    /// The pairs that are known, in the order of their resolution.
    pub fn known(&self) -> &[Pair]
        ensures same { result.now ≡ resolutions self.now.history }
        ensures few { length result.now ≤ max_variables }
    {
        self.known.as_slice()
    }

    /// Whether a variable is resolved.
    pub fn is_resolved(&self, variable: u32) -> bool
        ensures { result ≡ rules.is_resolved self.now.history variable }
    {
        self.known.iter().any(|pair| variable == pair.variable)
    }

    /// Whether a resolution gave the pair's variable another value.
    pub fn contradicts(&self, pair: Pair) -> bool
        ensures { result ≡ rules.contradicts self.now.history pair }
    {
        self.known.iter().any(|known| known.variable == pair.variable && known.value != pair.value)
    }

    /// Adds a user who joined.
    pub fn join(&mut self, user: Name)
        requires { length (users self.old.history) < self.old.max_users }
        ensures history { self.new.history ≡ self.old.history ++ Join user ∷ [] }
        ensures limit { self.new.max_trades ≡ self.old.max_trades }
        ensures users { self.new.max_users ≡ self.old.max_users }
        ensures transfers { self.new.max_transfers ≡ self.old.max_transfers }
    {
        self.accepted.join(user);
        self.joined += 1;
    }

    /// Adds a deposit.
    pub fn deposit(&mut self, user: u32, bits: u32)
        requires { count_by is_transfer self.old.history < self.old.max_transfers }
        ensures history { self.new.history ≡ self.old.history ++ Deposit user bits ∷ [] }
        ensures limit { self.new.max_trades ≡ self.old.max_trades }
        ensures users { self.new.max_users ≡ self.old.max_users }
        ensures transfers { self.new.max_transfers ≡ self.old.max_transfers }
    {
        self.accepted.deposit(user, bits);
        self.transfers += 1;
    }

    /// Adds a withdrawal.
    pub fn withdraw(&mut self, user: u32, bits: u32)
        requires { count_by is_transfer self.old.history < self.old.max_transfers }
        ensures history { self.new.history ≡ self.old.history ++ Withdraw user bits ∷ [] }
        ensures limit { self.new.max_trades ≡ self.old.max_trades }
        ensures users { self.new.max_users ≡ self.old.max_users }
        ensures transfers { self.new.max_transfers ≡ self.old.max_transfers }
    {
        self.accepted.withdraw(user, bits);
        self.transfers += 1;
    }

    /// Adds a trade.
    pub fn trade(&mut self, user: u32, ratio: Ratio)
        requires { length (trades_in self.old.history) < self.old.max_trades }
        ensures history { self.new.history ≡ self.old.history ++ Trade user (trade_ratio ratio) ∷ [] }
        ensures limit { self.new.max_trades ≡ self.old.max_trades }
        ensures users { self.new.max_users ≡ self.old.max_users }
        ensures transfers { self.new.max_transfers ≡ self.old.max_transfers }
    {
        self.accepted.trade(user, &ratio);
        self.trades += 1;
    }

    /// Adds a resolution.
    pub fn resolve(&mut self, pair: Pair)
        requires { length (resolutions self.old.history) < max_variables }
        ensures history { self.new.history ≡ self.old.history ++ Resolve pair ∷ [] }
        ensures limit { self.new.max_trades ≡ self.old.max_trades }
        ensures users { self.new.max_users ≡ self.old.max_users }
        ensures transfers { self.new.max_transfers ≡ self.old.max_transfers }
    {
        self.accepted.resolve(pair);
        self.known.push_reserved(pair);
    }

    /// Adds the settlement, and what it pays.
    pub fn settle(&mut self, payments: Vec<Payout>)
        requires { is_settled self.old.history ≡ false }
        ensures history { self.new.history ≡ self.old.history ++ Settle (map ends payments.items) ∷ [] }
        ensures limit { self.new.max_trades ≡ self.old.max_trades }
        ensures users { self.new.max_users ≡ self.old.max_users }
        ensures transfers { self.new.max_transfers ≡ self.old.max_transfers }
    {
        self.accepted.settle(payments);
        self.settled = true;
    }

    /// Adds a question.
    pub fn add(&mut self, question: Box<AddedQuestion>)
        requires { length (additions self.old.history) < max_additions }
        ensures history { self.new.history
            ≡ self.old.history ++ Add (addition_of question.value) ∷ [] }
        ensures limit { self.new.max_trades ≡ self.old.max_trades }
        ensures users { self.new.max_users ≡ self.old.max_users }
        ensures transfers { self.new.max_transfers ≡ self.old.max_transfers }
    {
        self.accepted.add(question);
        self.added += 1;
    }
}
