//! What a user is due by rule, in one state.
ghost use Rattle.std.specs.Prelude.{◌≡◌, ◌+◌, ◌*◌, ◌<◌, ◌≤◌};
ghost use Rattle.mk_net.specs.Bounds.{max_market_trades, max_points_per_bit, number_limit};
ghost use Rattle.mk_cash.specs.Dues.{max_due_bits, no_due, due_traded, due_deposited};
ghost use Rattle.mk_cash.specs.Dues.{due_withdrawn, due_payment};

use mk_scaled::Scaled;
use std::marker::Model;

/// What a user is due by rule in one state: the gain of the user's trades, rounded down and rounded
/// up at each product, how many trades there are, and the bits that were paid in and taken out.
///
/// It has a fixed size, however many trades there are: a payment is reckoned with one of these for
/// each user, from one pass over a history.
#[derive(Clone, Copy, Debug)]
pub struct Due {
    low: Scaled,
    high: Scaled,
    trades: u32,
    deposited: u64,
    withdrawn: u64,
}

impl Model for Due {
    ghost use Rattle.mk_cash.specs.Dues.{DueOf, IsDue};
    ghost use Rattle.mk_cash.specs.inner.Dues.{due_of};

    ghost Value = { DueOf };

    ghost view = { due_of };

    ghost invariant = { λ d. IsDue (due_of d) };

    ghost inverse = { λ d. record {
      low = d.low;
      high = d.high;
      trades = d.trades;
      deposited = d.deposited;
      withdrawn = d.withdrawn;
    } };
}

impl Due {
    /// What a user is due who holds no trade and transferred nothing.
    pub fn none() -> Due
        ensures { result ≡ no_due }
    {
        Due {
            low: Scaled::of_whole(1),
            high: Scaled::of_whole(1),
            trades: 0,
            deposited: 0,
            withdrawn: 0,
        }
    }

    /// One trade more, by how many units it multiplies the weight of the state.
    pub fn trade(&mut self, units: u64)
        requires some_units { 1 ≤ units }
        requires units_fit { units < number_limit }
        requires room { self.old.trades < max_market_trades }
        ensures { self.new ≡ due_traded units self.old }
    {
        let ratio = Scaled::of_whole(units);
        self.low = self.low.mul_down(&ratio);
        self.high = self.high.mul_up(&ratio);
        self.trades += 1;
    }

    /// Bits that the user paid in.
    pub fn deposit(&mut self, bits: u32)
        requires { self.old.deposited + bits ≤ max_due_bits }
        ensures { self.new ≡ due_deposited bits self.old }
    {
        self.deposited += bits as u64;
    }

    /// Bits that the user took out.
    pub fn withdraw(&mut self, bits: u32)
        requires { self.old.withdrawn + bits ≤ max_due_bits }
        ensures { self.new ≡ due_withdrawn bits self.old }
    {
        self.withdrawn += bits as u64;
    }

    /// The two ends of the payment by rule.
    pub fn payment(&self, points_per_bit: u32) -> (u64, u64)
        requires some_points { 1 ≤ points_per_bit }
        requires few_points { points_per_bit ≤ max_points_per_bit }
        ensures value { result ≡ due_payment points_per_bit self.now }
        ensures low_fits { result.0 < number_limit }
        ensures high_fits { result.1 < number_limit }
    {
        let low = self.low.pow_down(points_per_bit).log2_floor();
        let high = self.high.pow_up(points_per_bit).log2_floor();
        let gained = points_per_bit as u64 * self.deposited;
        let owed = points_per_bit as u64 * (self.withdrawn + 40 * self.trades as u64);
        (
            (low + gained).saturating_sub(owed),
            (high + gained).saturating_sub(owed),
        )
    }
}
