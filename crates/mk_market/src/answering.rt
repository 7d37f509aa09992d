//! Answers to commands.

use crate::market::Market;
use mk_command::CommandRef;
use mk_engine::Engine;
use mk_reply::Reply;
use mk_semiring::{MinProd, SumProd};
use std::alloc::Global;

impl<P: Engine<SumProd>, A: Engine<MinProd>> Market<P, A> {
    ghost use Rattle.mk_command.specs.Commands.{command_of};
    ghost use Rattle.mk_market.specs.Suited.{SuitsNext};
    ghost use Rattle.mk_market.specs.Trading.{IsAnswered};

    /// Answers a command. Only a user who joins, and a question that is added, take memory, all of
    /// it before anything changes. Both engines have to suit the market with that question. Every
    /// other command leaves the assets of each user whom it does not name.
    #[inline(never)]
    #[tactic(auto, unfolding(mk_command::specs::Commands::command_of))]
    pub fn apply(&mut self, alloc: Global, command: &CommandRef) -> Reply
        requires prices { SuitsNext P.suits self.old (command_of command.now) }
        requires assets { SuitsNext A.suits self.old (command_of command.now) }
        ensures { IsAnswered self.old self.new (command_of command.now) result }
    {
        match command {
            CommandRef::User { user } => self.answer_user(alloc, user),
            CommandRef::Deposit { user, bits } => self.answer_deposit(user, *bits),
            CommandRef::Withdraw { user, bits } => self.answer_withdraw(user, *bits),
            CommandRef::Price { question } => self.answer_price(question),
            CommandRef::Limits { user, question } => self.answer_limits(user, question),
            CommandRef::Edit {
                user,
                question,
                to,
                at,
            } => self.answer_edit(user, question, *to, *at),
            CommandRef::Bounds {
                user,
                variable,
                condition,
            } => self.answer_bounds(user, variable, condition),
            CommandRef::Spread {
                user,
                variable,
                condition,
                to,
                at,
            } => self.answer_spread(user, variable, condition, to, *at),
            CommandRef::Worst { user } => self.answer_worst(user),
            CommandRef::Paid { user } => self.paid(user),
            CommandRef::Resolve { pair } => self.answer_resolve(pair),
            CommandRef::Settle => self.answer_settle(),
            CommandRef::Bound => self.answer_bound(),
            CommandRef::Prices {
                variable,
                condition,
            } => self.answer_prices(variable, condition),
            CommandRef::Position {
                user,
                variable,
                condition,
            } => self.answer_position(user, variable, condition),
            CommandRef::Status => self.status(),
            CommandRef::Add { addition } => self.answer_add(alloc, addition),
        }
    }
}
