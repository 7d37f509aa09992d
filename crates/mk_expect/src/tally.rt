//! What is added up of a user's entries.
ghost use Rattle.std.specs.Prelude.{◌≡◌, ◌^◌};
ghost use Rattle.mk_expect.specs.inner.Tallies.{no_tally, tally_sum, IsWithin};

/// Bounds on what a user's entries are expected to gain and to owe, in parts of 2^54 of a bit.
#[derive(Clone, Copy, Debug)]
pub(crate) struct Tally {
    pub least_gained: u128,
    pub most_gained: u128,
    pub least_owed: u128,
    pub most_owed: u128,
}

/// The tally of nothing.
pub(crate) fn no_tally() -> Tally
    ensures { result ≡ no_tally }
{
    Tally {
        least_gained: 0,
        most_gained: 0,
        least_owed: 0,
        most_owed: 0,
    }
}

/// The tally of two parts together.
pub(crate) fn sum_of(a: &Tally, b: &Tally) -> Tally
    requires one { IsWithin a.now (2 ^ 100) (2 ^ 100) }
    requires other { IsWithin b.now (2 ^ 100) (2 ^ 100) }
    ensures { result ≡ tally_sum a.now b.now }
{
    Tally {
        least_gained: a.least_gained + b.least_gained,
        most_gained: a.most_gained + b.most_gained,
        least_owed: a.least_owed + b.least_owed,
        most_owed: a.most_owed + b.most_owed,
    }
}
