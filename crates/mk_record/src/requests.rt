//! Commands about a question: what they wish for in words, and what the refusals found of them in
//! numbers.

use mk_names::Name;
use mk_net::{PairText, Question, QuestionText};
use mk_quote::SpreadQuestion;

/// A user's question that the record does not refuse, and its home: the clique in which it is
/// asked, and in which a trade of it is placed.
#[derive(Clone, Copy, Debug)]
pub struct Request {
    pub user: u32,
    pub question: Question,
    pub home: u32,
}

/// The same of a question about every value of a variable.
#[derive(Clone, Copy, Debug)]
pub struct SpreadRequest {
    pub user: u32,
    pub question: SpreadQuestion,
    pub home: u32,
}

/// An edit in words: a question, the millionths to which it is to be moved, and the revision that
/// its user has seen.
#[derive(Clone, Copy, Debug)]
pub struct EditWish<'a> {
    pub question: &'a QuestionText,
    pub to: u32,
    pub at: Option<u32>,
}

/// A spread in words: a variable, a condition, the millionths of each value, and the revision that
/// its user has seen.
#[derive(Clone, Copy, Debug)]
pub struct SpreadWish<'a> {
    pub variable: &'a Name,
    pub condition: &'a [PairText],
    pub to: &'a [u32],
    pub at: Option<u32>,
}
