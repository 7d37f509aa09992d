//! The answers to lines that are not blank.

use crate::payments::{Payment, Payments};
use crate::refusal::{Intervals, Refusal};
use arrayvec::ArrayVec;
use mk_names::Name;
use mk_net::PairText;

/// For each value of a variable, the two ends of an interval.
pub type Spans = ArrayVec<(u64, u64), 16>;

/// The answer to a line. `at` is the revision after it.
#[derive(Debug, Drop, PartialEq)]
pub enum Reply {
    /// A user joined.
    Joined {
        user: Name,
        at: u64,
    },
    /// A user paid in so many bits.
    Deposited {
        user: Name,
        bits: u32,
        at: u64,
    },
    /// A user took out so many bits.
    Withdrawn {
        user: Name,
        bits: u32,
        at: u64,
    },
    /// An interval that holds a price, in units of 10^-10.
    Price {
        low: u64,
        high: u64,
    },
    /// The limits of a user's edit in millionths, if there are any.
    Limits {
        limits: Option<(u32, u32)>,
        at: u64,
    },
    /// A trade was made; its ratios, 2^40 being one.
    Traded {
        hit: u64,
        miss: u64,
        at: u64,
    },
    /// The bounds of a user's spread: an interval in millionths for each value, if there are any.
    Bounded {
        intervals: Option<Intervals>,
        at: u64,
    },
    /// A trade of a whole distribution was made; its ratio for each value, 2^40 being one.
    Spreaded {
        factors: ArrayVec<u64, 16>,
        at: u64,
    },
    /// An interval that holds what a user is paid at least, in points.
    Worst {
        low: u64,
        high: u64,
    },
    /// What a user is paid, where the market is settled.
    Paid {
        payment: Payment,
    },
    /// A variable was resolved.
    Resolved {
        pair: PairText,
        at: u64,
    },
    /// The market was settled, and each user is paid, in the order of joining.
    Settled {
        at: u64,
        payments: Payments,
    },
    /// The market was settled, and more users are paid than a reply lists: so many, and so much
    /// together.
    SettledAll {
        at: u64,
        users: u32,
        total: u64,
    },
    /// An interval that holds the most that the operator can lose, in points.
    Bound {
        low: u64,
        high: u64,
    },
    /// For each value of a variable, an interval that holds its price, in units of 10^-10.
    Prices {
        intervals: Spans,
    },
    /// For each value of a variable, an interval that holds what a user is paid at least where the
    /// value comes, in points, or none where it cannot come.
    Position {
        intervals: ArrayVec<Option<(u64, u64)>, 16>,
    },
    /// How many users there are; how many trades, of how many at most; how many deposits and
    /// withdrawals together, of how many at most; how many variables are not resolved, of how many.
    Status {
        at: u64,
        users: u32,
        trades: u32,
        most: u32,
        transfers: u32,
        most_transfers: u32,
        open: u32,
        questions: u32,
    },
    /// The variable was added behind the others.
    Added {
        variable: Name,
        at: u64,
    },
    /// The line is refused.
    Refused {
        why: Refusal,
    },
}

const _: () = prove!(size_of::<Reply>() <= 400);
