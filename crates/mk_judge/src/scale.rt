//! The powers of two beside a power.
ghost use Rattle.std.specs.Prelude.{◌^◌, ◌<◌};

use mk_enclose::Factor;

/// The powers of two that the power of a gain is multiplied by, and divided by.
#[derive(Clone, Copy, Debug)]
pub struct Scale {
    pub gained: u64,
    pub owed: u64,
    ghost few_gained: { gained < 2 ^ 50 },
    ghost few_owed: { owed < 2 ^ 50 },
}

impl Scale {
    ghost use Rattle.std.specs.Prelude.{◌≡◌, ◌+◌, ◌*◌};
    ghost use Rattle.mk_enclose.specs.Factor.{paid_in, taken_out};
    ghost use Rattle.mk_judge.specs.Powers.{HasCashRange};
    ghost use Rattle.mk_judge.specs.Units.{HasTradeRange};

    /// Those of a factor's power.
    pub fn of(factor: &Factor, power: u32) -> Scale
        requires { HasCashRange factor.now power }
        ensures gained { result.gained ≡ power * paid_in factor.now.net }
        ensures owed { result.owed ≡ power * (40 * factor.now.trades + taken_out factor.now.net) }
    {
        Scale {
            gained: power as u64 * factor.paid_in(),
            owed: power as u64 * (40 * factor.trades as u64 + factor.taken_out()),
        }
    }

    /// Those of a factor itself, before one more trade.
    pub fn of_trade(factor: &Factor) -> Scale
        requires { HasTradeRange factor.now }
        ensures gained { result.gained ≡ paid_in factor.now.net }
        ensures owed { result.owed ≡ 40 * factor.now.trades + taken_out factor.now.net }
    {
        Scale {
            gained: factor.paid_in(),
            owed: 40 * factor.trades as u64 + factor.taken_out(),
        }
    }
}
