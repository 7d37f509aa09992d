//! What a user was quoted last.

use mk_quote::{Quote, SpreadQuote};

/// A user's last quote: the limits of an edit of a question, or the bounds of a spread over the values of a variable.
#[derive(Debug, Drop)]
pub enum LastQuote {
    Limits { quote: Quote },
    Bounds { quote: SpreadQuote },
}
