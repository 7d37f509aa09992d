//! The points that went in and out, user by user.
ghost use Rattle.std.specs.Prelude.{◌≡◌, ◌+◌, ◌<◌, ◌≤◌, [], ◌∷◌, ◌++◌, length, slice_set, IfOk};
ghost use Rattle.mk_net.specs.Bounds.{max_users, number_limit};

use mk_net::NoMemory;
use std::alloc::Global;
use std::marker::Model;

/// What one user deposited, withdrew and was paid, in points, and the high end of the payment.
#[derive(Clone, Copy, Debug, PartialEq, Eq)]
pub struct Account {
    pub deposited: u64,
    pub withdrawn: u64,
    pub paid: u64,
    pub high: u64,
}

/// One account for each user, in the order of joining. All memory is taken at the start.
#[derive(Drop)]
pub struct Ledger {
    accounts: Vec<Account>,
    room: u32,
}

impl Model for Ledger {
    ghost use Rattle.std.specs.Prelude.{◌≤◌, vec_capacity};
    ghost use Rattle.mk_cash.specs.Accounts.{LedgerOf};

    ghost Value = { LedgerOf };

    ghost view = { λ l. record { accounts = l.accounts.items; room = l.room } };

    ghost invariant = { λ l. l.room ≤ vec_capacity l.accounts };
}

impl Ledger {
    ghost use Rattle.mk_cash.specs.Accounts.{account_of, empty_account};

    /// A ledger of nobody, with room for so many users.
    pub fn start(alloc: Global, users: u32) -> Result<Ledger, NoMemory>
        requires some_users { 1 ≤ users }
        requires few_users { users ≤ max_users }
        ensures { IfOk result (λ ledger. ledger ≡ record { accounts = []; room = users }) }
    {
        let accounts = Vec::with_capacity(alloc, users as usize)?;
        Ok(Ledger {
            accounts,
            room: users,
        })
    }

    /// Opens an empty account for the next user.
    pub fn join(&mut self)
        requires { length self.old.accounts < self.old.room }
        ensures { self.new ≡
            record self.old { accounts = self.old.accounts ++ empty_account ∷ [] } }
    {
        self.accounts.push_reserved(Account {
            deposited: 0,
            withdrawn: 0,
            paid: 0,
            high: 0,
        });
    }

    /// The points that a user deposited.
    pub fn deposited(&self, user: u32) -> u64
        requires { user < length self.now.accounts }
        ensures { result ≡ (account_of self.now.accounts user).deposited }
    {
        self.accounts[user as usize].deposited
    }

    /// The points that a user withdrew.
    pub fn withdrawn(&self, user: u32) -> u64
        requires { user < length self.now.accounts }
        ensures { result ≡ (account_of self.now.accounts user).withdrawn }
    {
        self.accounts[user as usize].withdrawn
    }

    /// The points that a user was paid.
    pub fn paid(&self, user: u32) -> u64
        requires { user < length self.now.accounts }
        ensures { result ≡ (account_of self.now.accounts user).paid }
    {
        self.accounts[user as usize].paid
    }

    /// The high end of what a user was paid.
    pub fn high(&self, user: u32) -> u64
        requires { user < length self.now.accounts }
        ensures { result ≡ (account_of self.now.accounts user).high }
    {
        self.accounts[user as usize].high
    }

    /// Adds to the points that a user deposited.
    pub fn deposit(&mut self, user: u32, points: u64)
        requires joined { user < length self.old.accounts }
        requires fits { (account_of self.old.accounts user).deposited + points < number_limit }
        ensures { let before = account_of self.old.accounts user in
            let after = record before { deposited = before.deposited + points } in
            self.new ≡ record self.old { accounts = slice_set self.old.accounts user after } }
    {
        let account = &mut self.accounts[user as usize];
        account.deposited += points;
    }

    /// Adds to the points that a user withdrew.
    pub fn withdraw(&mut self, user: u32, points: u64)
        requires joined { user < length self.old.accounts }
        requires fits { (account_of self.old.accounts user).withdrawn + points < number_limit }
        ensures { let before = account_of self.old.accounts user in
            let after = record before { withdrawn = before.withdrawn + points } in
            self.new ≡ record self.old { accounts = slice_set self.old.accounts user after } }
    {
        let account = &mut self.accounts[user as usize];
        account.withdrawn += points;
    }

    /// Adds the low end of a payment to the points that a user was paid, and keeps its high end.
    pub fn pay(&mut self, user: u32, low: u64, high: u64)
        requires joined { user < length self.old.accounts }
        requires low_fits { (account_of self.old.accounts user).paid + low < number_limit }
        requires high_fits { high < number_limit }
        ensures { let before = account_of self.old.accounts user in
            let after = record before { paid = before.paid + low; high = high } in
            self.new ≡ record self.old { accounts = slice_set self.old.accounts user after } }
    {
        let account = &mut self.accounts[user as usize];
        account.paid += low;
        account.high = high;
    }
}
