//! Accepted changes, as a history keeps them.

use mk_net::Pair;

/// A trade: where its condition's pairs and its factors begin among those of all trades, and how
/// many there are of each.
#[derive(Clone, Copy, Debug)]
pub(crate) struct KeptTrade {
    pub(crate) user: u32,
    pub(crate) variable: u32,
    pub(crate) first_pair: u32,
    pub(crate) first_factor: u32,
    pub(crate) pairs: u8,
    pub(crate) factors: u8,
}

/// An accepted change. What takes more room lies in a list beside it, and stands here by its number
/// there; the payments of a settlement are those of the history.
#[derive(Clone, Copy, Debug)]
pub(crate) enum Change {
    Join { name: u32 },
    Deposit { user: u32, bits: u32 },
    Withdraw { user: u32, bits: u32 },
    Trade { trade: KeptTrade },
    Resolve { pair: Pair },
    Settle,
    Add { question: u32 },
}

const _: () = prove!(size_of::<Change>() <= 24);
