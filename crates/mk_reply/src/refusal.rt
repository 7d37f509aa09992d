//! Why a line is refused.

use arrayvec::ArrayVec;
use mk_names::Name;
use mk_net::PairText;

/// For each value of a variable, the least and the greatest millionths to which its price may be moved.
pub type Intervals = ArrayVec<(u32, u32), 16>;

/// Why a line is refused.
#[derive(Debug, Drop, PartialEq, Eq)]
pub enum Refusal {
    /// The line is the text of no command.
    Syntax,
    /// The line has more than 1,024 bytes.
    Long,
    /// The market is settled.
    Settled,
    /// The market is not settled yet.
    Unsettled,
    /// The user has not joined.
    User { user: Name },
    /// The user has joined already.
    Exists { user: Name },
    /// As many users as a market holds have joined.
    Users { held: u32 },
    /// The pair's variable, or its value, is unknown.
    Unknown { pair: PairText },
    /// The variable occurs twice.
    Twice { variable: Name },
    /// The revision that was named is not the present one.
    Stale { named: u32, now: u64 },
    /// The variable is resolved.
    Resolved { variable: Name },
    /// The pair contradicts a resolution, or cannot come with the pairs before it.
    Impossible { pair: PairText },
    /// No clique holds the question.
    Wide,
    /// The number is outside its limits.
    Range { number: u32 },
    /// As many trades, or as many deposits and withdrawals, as the market takes are held.
    Full { held: u32 },
    /// The number is outside the limits that judge this edit.
    Beyond { limits: Option<(u32, u32)> },
    /// The user can withdraw no more than these bits.
    Short { bits: u64 },
    /// The variable is not resolved yet.
    Unresolved { variable: Name },
    /// The variable is unknown.
    NoVariable { variable: Name },
    /// So many numbers are given, and the variable has another number of values.
    Numbers { given: u32 },
    /// The sum of the numbers is not a million.
    Sum { sum: u32 },
    /// The numbers are outside the bounds that judge this spread.
    Outside { intervals: Option<Intervals> },
    /// No other value of the pair's variable than this one can come.
    Sure { pair: PairText },
    /// As many variables as a market holds are held.
    Variables { held: u32 },
    /// A variable has this name already.
    Taken { variable: Name },
    /// The value is given twice for the added variable.
    ValueTwice { value: Name },
    /// So many rows are given, and the added variable's parents have another number of lists of
    /// values.
    RowCount { given: u32 },
    /// The row, counted from 1, gives so many numbers, and the added variable has another number of
    /// values.
    RowWidth { row: u32, given: u32 },
    /// All cliques have so many cells with the new one: these are too many, or those of the new one
    /// are.
    Cells { total: u32 },
    /// The number of the clique to which the new clique is linked is that of no clique.
    Link { number: u32 },
    /// The new clique does not hold this variable, which is the added one or a parent of it.
    Uncovered { variable: Name },
    /// The new clique holds this variable, and the clique to which it is linked does not.
    NotRunning { variable: Name },
    /// Memory was wanting.
    Memory,
}

const _: () = prove!(size_of::<Refusal>() <= 160);
