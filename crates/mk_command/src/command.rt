//! The commands of a market's users.

ghost use Rattle.std.specs.Prelude.{◌≡◌};
ghost use Rattle.mk_command.specs.Commands.{command_of};
ghost use Rattle.mk_command.specs.inner.Kinds.{IsOfValues, IsSpread};

use arrayvec::ArrayVec;
use mk_addition::AddText;
use mk_names::Name;
use mk_net::{PairText, QuestionText};

/// A line of the command stream.
#[derive(Debug, Drop, PartialEq, Eq)]
pub enum Command {
    /// `user U`: U joins.
    User {
        user: Name,
    },
    /// `deposit U K`: U pays in K bits.
    Deposit {
        user: Name,
        bits: u32,
    },
    /// `withdraw U K`: U takes out K bits.
    Withdraw {
        user: Name,
        bits: u32,
    },
    /// `price Q`: what is the price of the target, where the condition holds?
    Price {
        question: QuestionText,
    },
    /// `limits U Q`: to which prices may U move it?
    Limits {
        user: Name,
        question: QuestionText,
    },
    /// `edit U Q to X` or `edit U Q to X at R`: U moves it to X millionths, having seen the
    /// revision R.
    Edit {
        user: Name,
        question: QuestionText,
        to: u32,
        at: Option<u32>,
    },
    /// `bounds U V`, perhaps under a condition: to which prices may U move each value of V?
    Bounds {
        user: Name,
        variable: Name,
        condition: ArrayVec<PairText, 8>,
    },
    /// `spread U V to X..` or `spread U V to X.. at R`, perhaps under a condition: U moves the
    /// values of V, in their order, to these millionths, having seen the revision R.
    Spread {
        user: Name,
        variable: Name,
        condition: ArrayVec<PairText, 8>,
        to: ArrayVec<u32, 16>,
        at: Option<u32>,
    },
    /// `worst U`: what is U paid at least?
    Worst {
        user: Name,
    },
    /// `paid U`: what is U paid, where the market is settled?
    Paid {
        user: Name,
    },
    /// `resolve V=v`: V turned out as v.
    Resolve {
        pair: PairText,
    },
    /// `settle`: each user is paid.
    Settle,
    /// `bound`: what can the operator lose at most?
    Bound,
    /// `prices V`, perhaps under a condition: what is the price of each value of V?
    Prices {
        variable: Name,
        condition: ArrayVec<PairText, 8>,
    },
    /// `position U V`, perhaps under a condition: what is U sure of by each value of V?
    Position {
        user: Name,
        variable: Name,
        condition: ArrayVec<PairText, 8>,
    },
    /// `status`: how far is the market, and how full?
    Status,
    /// `add V=v.. : ROWS in C.. to K`, perhaps with parents: the question V is added, and its
    /// clique C is linked to clique K.
    Add {
        addition: AddText,
    },
}

const _: () = prove!(size_of::<Command>() <= 5700);

/// The longer words of a line, which are read in place: each line is written over those of another.
#[derive(Default, Drop)]
pub struct Words {
    pub(crate) question: QuestionText,
    pub(crate) shares: ArrayVec<u32, 16>,
    pub(crate) addition: AddText,
}

/// A command whose question, or condition and shares, or addition, are lent: what `Command` is,
/// passed on without a copy of these. `command_of` in the definitions says which command it is.
#[derive(Debug, Drop, PartialEq, Eq)]
pub enum CommandRef<'a> {
    /// `user U`.
    User {
        user: Name,
    },
    /// `deposit U K`.
    Deposit {
        user: Name,
        bits: u32,
    },
    /// `withdraw U K`.
    Withdraw {
        user: Name,
        bits: u32,
    },
    /// `price Q`.
    Price {
        question: &'a QuestionText,
    },
    /// `limits U Q`.
    Limits {
        user: Name,
        question: &'a QuestionText,
    },
    /// `edit U Q to X`, perhaps `at R`.
    Edit {
        user: Name,
        question: &'a QuestionText,
        to: u32,
        at: Option<u32>,
    },
    /// `bounds U V`, perhaps under a condition.
    Bounds {
        user: Name,
        variable: Name,
        condition: &'a ArrayVec<PairText, 8>,
    },
    /// `spread U V to X..`, perhaps under a condition, perhaps `at R`.
    Spread {
        user: Name,
        variable: Name,
        condition: &'a ArrayVec<PairText, 8>,
        to: &'a ArrayVec<u32, 16>,
        at: Option<u32>,
    },
    /// `worst U`.
    Worst {
        user: Name,
    },
    /// `paid U`.
    Paid {
        user: Name,
    },
    /// `resolve V=v`.
    Resolve {
        pair: PairText,
    },
    /// `settle`.
    Settle,
    /// `bound`.
    Bound,
    /// `prices V`, perhaps under a condition.
    Prices {
        variable: Name,
        condition: &'a ArrayVec<PairText, 8>,
    },
    /// `position U V`, perhaps under a condition.
    Position {
        user: Name,
        variable: Name,
        condition: &'a ArrayVec<PairText, 8>,
    },
    /// `status`.
    Status,
    /// `add V=v.. : ROWS in C.. to K`, perhaps with parents.
    Add {
        addition: &'a AddText,
    },
}

const _: () = prove!(size_of::<CommandRef>() <= 112);

impl Command {
    /// The same command, with its longer words lent.
    #[tactic(auto, unfolding(crate::specs::Commands::command_of))]
    pub fn lend(&self) -> CommandRef<'_>
        ensures { command_of result ≡ self.now }
    {
        match self {
            Command::User { user } => CommandRef::User { user: *user },
            Command::Deposit { user, bits } => CommandRef::Deposit {
                user: *user,
                bits: *bits,
            },
            Command::Withdraw { user, bits } => CommandRef::Withdraw {
                user: *user,
                bits: *bits,
            },
            Command::Price { question } => CommandRef::Price { question },
            Command::Limits { user, question } => CommandRef::Limits {
                user: *user,
                question,
            },
            Command::Edit {
                user,
                question,
                to,
                at,
            } => CommandRef::Edit {
                user: *user,
                question,
                to: *to,
                at: *at,
            },
            Command::Worst { user } => CommandRef::Worst { user: *user },
            Command::Paid { user } => CommandRef::Paid { user: *user },
            Command::Resolve { pair } => CommandRef::Resolve { pair: *pair },
            Command::Settle => CommandRef::Settle,
            Command::Bound => CommandRef::Bound,
            Command::Status => CommandRef::Status,
            Command::Add { addition } => CommandRef::Add { addition },
            Command::Bounds { .. }
            | Command::Spread { .. }
            | Command::Prices { .. }
            | Command::Position { .. } => self.lend_values(),
        }
    }

    /// The same, of a command that speaks of every value of a variable.
    #[tactic(auto, unfolding(crate::specs::Commands::command_of))]
    fn lend_values(&self) -> CommandRef<'_>
        requires { IsOfValues self.now }
        ensures { command_of result ≡ self.now }
    {
        match self {
            Command::Bounds {
                user,
                variable,
                condition,
            } => CommandRef::Bounds {
                user: *user,
                variable: *variable,
                condition,
            },
            Command::Spread { .. } => self.lend_spread(),
            Command::Prices {
                variable,
                condition,
            } => CommandRef::Prices {
                variable: *variable,
                condition,
            },
            Command::Position {
                user,
                variable,
                condition,
            } => CommandRef::Position {
                user: *user,
                variable: *variable,
                condition,
            },
            _ => unreachable!(),
        }
    }

    /// The same, of an edit of every value of a variable.
    #[tactic(auto, unfolding(crate::specs::Commands::command_of))]
    fn lend_spread(&self) -> CommandRef<'_>
        requires { IsSpread self.now }
        ensures { command_of result ≡ self.now }
    {
        match self {
            Command::Spread {
                user,
                variable,
                condition,
                to,
                at,
            } => CommandRef::Spread {
                user: *user,
                variable: *variable,
                condition,
                to,
                at: *at,
            },
            _ => unreachable!(),
        }
    }
}
