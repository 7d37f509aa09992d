//! How much there may be of each thing in a market, in its lines and in its store, and the parts in
//! which shares, prices and ratios are counted. Definitions read the limits from here; they write
//! the parts of a price, and those of a ratio, as powers.

/// The most variables of a network.
pub const MAX_VARIABLES: u32 = 256;
/// The most values of a variable.
pub const MAX_VALUES: u32 = 16;
/// The most parents of a variable.
pub const MAX_PARENTS: u32 = 8;
/// The most pairs of a condition.
pub const MAX_CONDITION: u32 = 8;
/// The most pairs of an event: a condition and a target.
pub const MAX_PAIRS: u32 = MAX_CONDITION + 1;
/// The most cliques of a market.
pub const MAX_CLIQUES: u32 = 256;
/// The most cells of a clique.
pub const MAX_CLIQUE_CELLS: u32 = 4_096;
/// The most cells of all cliques.
pub const MAX_CELLS: u32 = 32_768;
/// The most users that a market file may ask for.
pub const MAX_USERS: u32 = 65_536;
/// The most trades that a market file may ask for.
pub const MAX_MARKET_TRADES: u32 = 1_000_000;
/// The most transfers that a market file may ask for.
pub const MAX_TRANSFERS: u32 = 1_000_000;
/// The most bits of one transfer.
pub const MAX_TRANSFER_BITS: u32 = 1_000;
/// The users of a market whose file does not say how many.
pub const USUAL_USERS: u32 = 256;
/// The transfers of a market whose file does not say how many.
pub const USUAL_TRANSFERS: u32 = 65_536;
/// The most trades of a market whose printed numbers are sharpest.
pub const USUAL_TRADES: u32 = 65_536;
/// The most payments that the reply to a settlement lists.
pub const MAX_PAYMENTS: u32 = 256;
/// The most points that a bit is worth.
pub const MAX_POINTS_PER_BIT: u32 = 1_000_000;
/// Shares and prices that are asked for are parts of this.
pub const MILLION: u32 = 1_000_000;
/// The greatest share, and price, that is asked for.
pub const MAX_SHARE: u32 = MILLION - 1;
/// The parts of a printed price: ten places.
pub const PRICE_UNIT: u64 = 10_000_000_000;
/// The places of a ratio behind its point, in bits.
pub const RATIO_PLACES: u32 = 40;
/// The parts of a ratio.
pub const RATIO_UNIT: u64 = 1 << RATIO_PLACES;
/// The most bytes of a line of commands, without its LF, and the room in which one is printed.
pub const MAX_LINE_BYTES: usize = 1_024;
/// The most bytes of a line of the output, with its LF: a reply, or what is wrong with a file.
pub const MAX_ANSWER_BYTES: usize = 32_768;
/// The most bytes of a record of a store: a command, LF and the text of its reply.
pub const MAX_RECORD_BYTES: usize = 34_000;
