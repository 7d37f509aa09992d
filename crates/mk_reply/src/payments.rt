//! The payments of a settlement.

ghost use Rattle.std.specs.Prelude.{◌≡◌, ◌<◌, ◌≤◌, [], ◌∷◌, ◌++◌, length, IfOk};
ghost use Rattle.std.specs.Cmp.Lexicographic.{pointwise, lists_per};
ghost use Rattle.mk_net.specs.Bounds.{max_payments};

use mk_names::Name;
use mk_names::limits::MAX_PAYMENTS;
use mk_net::NoMemory;
use std::alloc::Global;
use std::marker::Model;

/// What a user is paid at the end: the low end of the interval that holds the cash of the user's factor, in points.
#[derive(Clone, Copy, Debug, Default, PartialEq, Eq)]
pub struct Payment {
    pub user: Name,
    pub low: u64,
    pub high: u64,
    pub paid: u64,
}

/// The payments of a settlement, in the order of joining. All memory is taken at the start.
#[derive(Debug, Drop)]
pub struct Payments {
    rows: Vec<Payment>,
}

impl Model for Payments {
    ghost use Rattle.std.specs.Prelude.{List, ◌≤◌, length, vec_capacity};
    ghost use Rattle.mk_net.specs.Bounds.{max_payments};
    ghost use Rattle.mk_reply.specs.declared.payments.Payment.{Payment};

    ghost Value = { List Payment };

    ghost view = { λ p. p.rows.items };

    ghost invariant = { λ p. (max_payments ≤ vec_capacity p.rows) × (length p.rows.items ≤ max_payments) };
}

impl Payments {
    /// No payment yet, with room for as many as a settlement lists.
    pub fn start(alloc: Global) -> Result<Payments, NoMemory>
        ensures { IfOk result (λ payments. payments ≡ []) }
    {
        let rows = Vec::with_capacity(alloc, MAX_PAYMENTS as usize)?;
        Ok(Payments { rows })
    }

    /// Puts a payment behind those before.
    pub fn push(&mut self, payment: Payment)
        requires { length self.old < max_payments }
        ensures { self.new ≡ self.old ++ payment ∷ [] }
    {
        self.rows.push_reserved(payment);
    }

    /// The payments in their order.
    pub fn rows(&self) -> &[Payment]
        ensures same { result.now ≡ self.now }
        ensures few { length self.now ≤ max_payments }
    {
        self.rows.as_slice()
    }
}

/// Payments are equal where their rows are.
impl PartialEq for Payments {
    ghost eq = { pointwise ⟦<Payment as PartialEq>⟧.eq };

    ghost use Rattle.mk_reply.specs.contracts.payments.PaymentPartialEq.TheImpl.Laws.{laws-law};

    ghost laws = { lists_per laws-law };

    fn eq(&self, other: &Payments) -> bool {
        self.rows() == other.rows()
    }
}
