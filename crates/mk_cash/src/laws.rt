//! What payments by rule are worth. Nothing here runs in the market.
ghost use Rattle.mk_cash.specs.Laws.{PaymentByRuleCovers, PaymentByRuleFits};
ghost use Rattle.mk_cash.specs.Laws.{PaymentByRuleIsBetween, PaymentsByRuleFit};

/// In the one possible state of a sound history each user's payment by rule covers the cash of the
/// user's factor.
pub fn payment_by_rule_covers()
    ensures { PaymentByRuleCovers }
{}

/// However many trades there are, the cash of the user's factor lies between the two ends.
pub fn payment_by_rule_is_between()
    ensures { PaymentByRuleIsBetween }
{}

/// Both ends of a payment by rule are below `2^63`.
pub fn payment_by_rule_fits()
    ensures { PaymentByRuleFits }
{}

/// What all users are paid by rule is below `2^63`.
pub fn payments_by_rule_fit()
    ensures { PaymentsByRuleFit }
{}
