//! Room for the payments of a settlement.

ghost use Rattle.std.specs.Prelude.{◌≡◌, ◌<◌, ◌≤◌, [], ◌∷◌, ◌++◌, map, length, IfOk};
ghost use Rattle.mk_replay.specs.Below.{max_users, max_points_per_bit, number_limit, numbers_below};
ghost use Rattle.mk_replay.specs.Below.{users, payment_by_rule, paid_in_all, ends};
ghost use Rattle.mk_replay.specs.ByRule.{CanBePaid};
ghost use Rattle.mk_replay.specs.Tills.{room_for};

use crate::by_rule::pay_by_rule;
use mk_cash::Due;
use mk_history::Payout;
use mk_net::NoMemory;
use mk_record::Journal;
use std::alloc::Global;
use std::marker::Model;

/// Payments, with room for one to each user that a market takes, and for what each is due by rule.
/// All memory is taken at the start; what is not written yet is storage that nobody holds.
#[derive(Drop)]
pub struct Till {
    dues: Vec<Due>,
    payments: Vec<Payout>,
    room: u32,
}

impl Model for Till {
    ghost use Rattle.std.specs.Prelude.{◌≤◌, map, length, vec_capacity};
    ghost use Rattle.mk_history.specs.Entries.{ends};
    ghost use Rattle.mk_replay.specs.Tills.{TillOf};

    ghost Value = { TillOf };

    ghost view = { λ t. record { room = t.room; payments = map ends t.payments.items } };

    ghost invariant = { λ t. (t.room ≤ vec_capacity t.dues)
        × (t.room ≤ vec_capacity t.payments) × (length t.payments.items ≤ t.room) };
}

impl Till {
    /// No payment yet, with room for so many users.
    pub fn start(alloc: Global, users: u32) -> Result<Till, NoMemory>
        requires { users ≤ max_users }
        ensures { IfOk result (λ till. till ≡ room_for users) }
    {
        let dues = Vec::with_capacity(alloc, users as usize)?;
        let payments = Vec::with_capacity(alloc, users as usize)?;
        Ok(Till {
            dues,
            payments,
            room: users,
        })
    }

    /// Puts a payment behind those before.
    pub fn push(&mut self, low: u64, high: u64)
        requires { length self.old.payments < self.old.room }
        ensures { self.new ≡ record self.old { payments = self.old.payments ++ (low, high) ∷ [] } }
    {
        self.payments.push_reserved(Payout { low, high });
    }

    /// Forgets the payments.
    pub fn clear(&mut self)
        ensures { self.new ≡ record self.old { payments = [] } }
    {
        self.payments.clear();
    }

    /// Puts in the payments by rule to all users of a history, in the state that its resolutions
    /// leave, in place of those that were there. It asks no engine, reads each entry once and takes no
    /// memory.
    pub fn pay_by_rule(
        &mut self,
        history: &Journal,
        joined: u32,
        state: &[u32],
        points_per_bit: u32,
    )
        requires can { CanBePaid history.now.history state.now }
        requires joined { joined ≡ length (users history.now.history) }
        requires some_points { 1 ≤ points_per_bit }
        requires few_points { points_per_bit ≤ max_points_per_bit }
        requires room { joined ≤ self.old.room }
        ensures { self.new ≡ record self.old {
          payments =
              map (payment_by_rule history.now.history points_per_bit state.now)
              (numbers_below (length (users history.now.history)));
        } }
    {
        self.dues.clear();
        self.payments.clear();
        pay_by_rule(
            history,
            joined,
            state,
            points_per_bit,
            &mut self.dues,
            &mut self.payments,
        );
    }

    /// What is paid in all: the low ends together.
    pub fn total(&self) -> u64
        requires { paid_in_all self.now.payments < number_limit }
        ensures { result ≡ paid_in_all self.now.payments }
    {
        let mut total = 0;
        for payment in self.payments.as_slice() {
            total += payment.low;
        }
        total
    }

    /// The payments in their order.
    pub fn rows(&self) -> &[Payout]
        ensures same { map ends result.now ≡ self.now.payments }
        ensures few { length result.now ≤ self.now.room }
    {
        self.payments.as_slice()
    }

    /// The payments, as the history keeps them.
    pub fn into_payments(self) -> Vec<Payout>
        ensures { map ends result.items ≡ self.payments }
    {
        self.payments
    }
}
