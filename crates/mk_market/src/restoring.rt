//! Taking back the changes that a store gives.

use crate::market::Market;
use mk_command::CommandRef;
use mk_engine::Engine;
use mk_record::{EditWish, SpreadWish};
use mk_reply::{Refusal, Reply};
use mk_semiring::{MinProd, SumProd};
use std::alloc::Global;

/// Why a change is not taken back.
#[derive(Clone, Copy, Debug, PartialEq, Eq)]
pub enum RestoreFault {
    /// The command and its reply do not fit the changes before them.
    Unfit,
    /// Memory was wanting.
    Memory,
}

impl From<Refusal> for RestoreFault {
    ghost use Rattle.std.specs.Prelude.{◌≡◌};
    ghost use Rattle.mk_market.specs.declared.restoring.RestoreFault.TheVariants.{Unfit};

    ghost from_gives = { λ _ e. e ≡ Unfit };

    fn from(_: Refusal) -> RestoreFault {
        RestoreFault::Unfit
    }
}

impl<P: Engine<SumProd>, A: Engine<MinProd>> Market<P, A> {
    ghost use Rattle.std.specs.Prelude.{◌≡◌, Err, IfOk, OnOk, OnErr};
    ghost use Rattle.mk_command.specs.Commands.{command_of};
    ghost use Rattle.mk_reply.specs.Replies.{IsReply};
    ghost use Rattle.mk_rules.specs.Transcript.{OfCommand, after, market_after};
    ghost use Rattle.mk_restore.specs.Restoring.{IsFit};
    ghost use Rattle.mk_market.specs.Points.{ArePaidBy};
    ghost use Rattle.mk_market.specs.Suited.{SuitsNext};
    ghost use Rattle.mk_market.specs.declared.restoring.RestoreFault.TheVariants.{Unfit};
    ghost use Rattle.mk_market.specs.inner.Restored.{IsTried};

    /// Takes back a change that a store gives: a command with the reply that it had. Units and
    /// payments are taken as they are, and no belief is asked but whether a resolution leaves a
    /// possible state. Only a user who joins, and a question that is added, take memory; both engines
    /// have to suit the market with that question. After a fault the market is as before.
    #[tactic(auto, unfolding(mk_command::specs::Commands::command_of))]
    pub fn restore(
        &mut self,
        alloc: Global,
        command: &CommandRef,
        reply: &Reply,
    ) -> Result<(), RestoreFault>
        requires told { IsReply reply.now }
        requires prices { SuitsNext P.suits self.old (command_of command.now) }
        requires assets { SuitsNext A.suits self.old (command_of command.now) }
        ensures market { OnOk result (self.new.market ≡
            market_after self.old.market self.old.standing (OfCommand (command_of command.now))
            reply.now) }
        ensures fits { IfOk result (λ _. IsFit self.old.market (self.old.standing).history
            (command_of command.now) reply.now) }
        ensures unfit { result ≡ Err Unfit → IsFit self.old.market (self.old.standing).history
            (command_of command.now) reply.now → ⊥ }
        ensures next { OnOk result (self.new.standing ≡
            after self.old.market self.old.standing (OfCommand (command_of command.now))
            reply.now) }
        ensures paid { OnOk result (ArePaidBy reply.now self.old.accounts self.new.accounts) }
        ensures same { OnErr result (self.new ≡ self.old) }
    {
        self.take_back(alloc, command, reply)
    }

    /// Takes back a change, as its command does it.
    #[tactic(auto, unfolding(mk_command::specs::Commands::command_of))]
    fn take_back(
        &mut self,
        alloc: Global,
        command: &CommandRef,
        reply: &Reply,
    ) -> Result<(), RestoreFault>
        requires told { IsReply reply.now }
        requires prices { SuitsNext P.suits self.old (command_of command.now) }
        requires assets { SuitsNext A.suits self.old (command_of command.now) }
        ensures { IsTried self.old self.new (command_of command.now) reply.now result }
    {
        match command {
            CommandRef::User { user } => self.restore_user(alloc, user, reply),
            CommandRef::Deposit { user, bits } => self.restore_deposit(user, *bits, reply),
            CommandRef::Withdraw { user, bits } => self.restore_withdrawal(user, *bits, reply),
            CommandRef::Edit {
                user,
                question,
                to,
                at,
            } => {
                let wish = EditWish {
                    question,
                    to: *to,
                    at: *at,
                };
                self.restore_edit(user, &wish, reply)
            }
            CommandRef::Spread {
                user,
                variable,
                condition,
                to,
                at,
            } => {
                let wish = SpreadWish {
                    variable,
                    condition: condition.as_slice(),
                    to: to.as_slice(),
                    at: *at,
                };
                self.restore_spread(user, &wish, reply)
            }
            CommandRef::Resolve { pair } => self.restore_resolution(pair, reply),
            CommandRef::Settle => self.restore_settlement(reply),
            CommandRef::Add { addition } => self.restore_add(alloc, addition, reply),
            _ => Err(RestoreFault::Unfit),
        }
    }
}
