//! Accepted changes, as they are read.

use arrayvec::ArrayVec;
use mk_names::Name;
use mk_net::{Addition, Pair, Ratio};

/// A question that was added: the variable that was put behind all others, the variables of its
/// clique, in rising order, and the number of the clique to which that is linked.
#[derive(Debug, Drop)]
pub struct AddedQuestion {
    pub addition: Addition,
    pub clique: ArrayVec<u32, 13>,
    pub link: u32,
}

/// What a user is paid: the low end of an interval that holds the user's cash, in points.
#[derive(Clone, Copy, Debug)]
pub struct Payout {
    pub low: u64,
    pub high: u64,
}

/// An accepted change of a market, as a history gives it: its longer parts are lent. Users are
/// numbered by their joining, from 0, and a settlement pays them in this order.
#[derive(Debug, Drop)]
pub enum Entry<'a> {
    Join { user: Name },
    Deposit { user: u32, bits: u32 },
    Withdraw { user: u32, bits: u32 },
    Trade { user: u32, ratio: Ratio },
    Resolve { pair: Pair },
    Settle { payments: &'a [Payout] },
    Add { question: &'a AddedQuestion },
}
