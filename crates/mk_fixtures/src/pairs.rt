//! Pairs of the variables of small networks.

use mk_net::Pair;

/// The pair of a variable and a value, by their numbers.
macro_rules! pair {
    ($variable:expr, $value:expr) => {
        Pair {
            variable: $variable,
            value: $value,
        }
    };
}

/// The sides of a coin.
pub const HEADS: Pair = pair!(0, 0);

pub const TAILS: Pair = pair!(0, 1);

/// The first values of four variables.
pub const A: Pair = pair!(0, 0);

pub const B: Pair = pair!(1, 0);

pub const C: Pair = pair!(2, 0);

pub const D: Pair = pair!(3, 0);

/// The second values of three variables.
pub const NOT_A: Pair = pair!(0, 1);

pub const NOT_B: Pair = pair!(1, 1);

pub const NOT_C: Pair = pair!(2, 1);
