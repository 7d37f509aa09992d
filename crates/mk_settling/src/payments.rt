//! Payments of a settlement.

ghost use Rattle.std.specs.Prelude.{◌≡◌, ◌<◌, ◌≤◌, ℕ, [], length, map, All};
ghost use Rattle.mk_settling.specs.Below.{max_users, max_payments, number_limit, payments_by_rule};
ghost use Rattle.mk_settling.specs.Below.{account_of, market_of, ends_of, IsSafe, ends, names_of};
ghost use Rattle.mk_settling.specs.Below.{CanBeSettled};
ghost use Rattle.mk_exact.specs.History.{users as users_of};
ghost use Rattle.mk_settling.specs.Paying.{ArePaid, CanBeEntered, IsEntered};

use mk_cash::Ledger;
use mk_engine::Engine;
use mk_file::MarketFile;
use mk_history::Payout;
use mk_names::limits::MAX_PAYMENTS;
use mk_record::{Journal, Users};
use mk_replay::{Till, outcome_of};
use mk_reply::{Payment, Payments};
use mk_semiring::MinProd;

/// Tells the payment to each user, in the order of joining.
pub fn tell<A: Engine<MinProd>>(users: &Users<A>, rows: &[Payout], payments: &mut Payments)
    requires one_each { length rows.now ≡ length users.now }
    requires few { length rows.now ≤ max_payments }
    requires untold { payments.old ≡ [] }
    ensures in_order { map (λ p. p.user) payments.new ≡ names_of users.now }
    ensures ends { map ends_of payments.new ≡ map ends rows.now }
    ensures low_ends { All (λ p. p.paid ≡ p.low) payments.new }
{
    let mut user = 0;
    for row in rows {
        payments.push(Payment {
            user: users.name(user),
            low: row.low,
            high: row.high,
            paid: row.low,
        });
        user += 1;
    }
}

/// Puts the two ends of payments into a till.
pub fn list(till: &mut Till, payments: &[Payment])
    requires none { till.old.payments ≡ [] }
    requires room { length payments.now ≤ till.old.room }
    ensures { till.new ≡ record till.old { payments = map ends_of payments.now } }
{
    for payment in payments {
        till.push(payment.low, payment.high);
    }
}

/// Puts the payments by rule to all users into a till, in place of those that were there.
pub fn pay_all_by_rule(file: &MarketFile, journal: &Journal, till: &mut Till)
    requires safe { IsSafe (market_of file.now) journal.now.history }
    requires can { CanBeSettled file.now.net journal.now.history }
    requires room { length (users_of journal.now.history) ≤ till.old.room }
    ensures { till.new ≡ record till.old {
      payments =
          payments_by_rule file.now.net journal.now.history file.now.points_per_bit;
    } }
{
    let state = outcome_of(journal.known(), file.net.variables());
    till.pay_by_rule(
        journal,
        journal.joined(),
        state.as_slice(),
        file.points_per_bit,
    );
}

/// Enters the payments of a till: each is booked in an account, and the journal has the settlement.
pub fn enter(ledger: &mut Ledger, journal: &mut Journal, till: Till)
    requires { CanBeEntered journal.old.history ledger.old.accounts till.payments }
    ensures { IsEntered ledger.old ledger.new journal.old journal.new till.payments }
{
    book(ledger, till.rows());
    journal.settle(till.into_payments());
}

/// Books payments, one for each account, to which nothing was paid.
fn book(ledger: &mut Ledger, payments: &[Payout])
    requires few { length payments.now ≤ max_users }
    requires one_each { length payments.now ≡ length ledger.old.accounts }
    requires unpaid { (u : ℕ) → u < length ledger.old.accounts → (account_of ledger.old.accounts u).paid ≡ 0 }
    requires lows_fit { All (λ p. p.low < number_limit) payments.now }
    requires fit { All (λ p. p.high < number_limit) payments.now }
    ensures entered { ArePaid ledger.old.accounts ledger.new.accounts (map ends payments.now) }
    ensures room { ledger.new.room ≡ ledger.old.room }
{
    let mut user = 0;
    for payment in payments {
        ledger.pay(user, payment.low, payment.high);
        user += 1;
    }
}
