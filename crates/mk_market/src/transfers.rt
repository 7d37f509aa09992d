//! Joining, deposits and withdrawals.

use crate::market::Market;
use crate::restoring::RestoreFault;
use mk_answers::{least_of, most_bits};
use mk_asking::learn;
use mk_assets::Assets;
use mk_engine::Engine;
use mk_names::Name;
use mk_record::{refuse_transfer, refuse_user};
use mk_reply::{Refusal, Reply};
use mk_semiring::{MinProd, SumProd};
use mk_told::{tells_deposit, tells_join, tells_withdrawal};
use std::alloc::Global;

impl<P: Engine<SumProd>, A: Engine<MinProd>> Market<P, A> {
    ghost use Rattle.mk_command.specs.declared.command.Command.TheVariants.{User, Deposit, Withdraw};
    ghost use Rattle.mk_market.specs.Trading.{IsAnswered};
    ghost use Rattle.mk_market.specs.inner.Answering.{IsAnsweredBy};
    ghost use Rattle.mk_market.specs.inner.Restored.{IsFoundAgain, IsTried};
    ghost use Rattle.mk_reply.specs.declared.reply.Reply.TheVariants as reply;

    /// Answers a user who joins.
    pub(crate) fn answer_user(&mut self, alloc: Global, name: &Name) -> Reply
        ensures { IsAnswered self.old self.new (User name.now) result }
    {
        match self.user(alloc, name) {
            Ok(at) => Reply::Joined { user: *name, at },
            Err(why) => Reply::Refused { why },
        }
    }

    /// A user joins. All memory is taken before anything changes. It gives the revision.
    fn user(&mut self, alloc: Global, name: &Name) -> Result<u64, Refusal>
        ensures { IsAnsweredBy self.old self.new (User name.now) result
            (λ at. reply.Joined name.now at) }
    {
        refuse_user(&self.journal, &self.users, name)?;
        let Ok(assets) = Assets::start(alloc, &self.plan, &self.file.net) else {
            return Err(Refusal::Memory);
        };
        let Ok(()) = self.users.join(*name, assets) else {
            return Err(Refusal::Memory);
        };
        let _ = name.bytes();
        self.ledger.join();
        self.journal.join(*name);
        Ok(self.journal.revision())
    }

    /// A user joins again. All memory is taken before anything changes.
    pub(crate) fn restore_user(
        &mut self,
        alloc: Global,
        name: &Name,
        reply: &Reply,
    ) -> Result<(), RestoreFault>
        ensures { IsTried self.old self.new (User name.now) reply.now result }
    {
        if !tells_join(&self.journal, name, reply) {
            return Err(RestoreFault::Unfit);
        }
        refuse_user(&self.journal, &self.users, name)?;
        let Ok(assets) = Assets::start(alloc, &self.plan, &self.file.net) else {
            return Err(RestoreFault::Memory);
        };
        let Ok(()) = self.users.join(*name, assets) else {
            return Err(RestoreFault::Memory);
        };
        let _ = name.bytes();
        self.ledger.join();
        self.journal.join(*name);
        Ok(())
    }

    /// Answers a deposit.
    pub(crate) fn answer_deposit(&mut self, name: &Name, bits: u32) -> Reply
        ensures { IsAnswered self.old self.new (Deposit name.now bits) result }
    {
        match self.deposit(name, bits) {
            Ok(at) => Reply::Deposited {
                user: *name,
                bits,
                at,
            },
            Err(why) => Reply::Refused { why },
        }
    }

    /// A user pays in so many bits. It gives the revision.
    fn deposit(&mut self, name: &Name, bits: u32) -> Result<u64, Refusal>
        ensures answered { IsAnsweredBy self.old self.new (Deposit name.now bits)
            result (λ at. reply.Deposited name.now bits at) }
        ensures again { IsFoundAgain self.old self.new (Deposit name.now bits)
            result (λ at. reply.Deposited name.now bits at) }
    {
        let user = refuse_transfer(&self.journal, &self.users, name, bits)?;
        self.users.assets(user).deposit(bits);
        self.ledger
            .deposit(user, self.file.points_per_bit as u64 * bits as u64);
        self.journal.deposit(user, bits);
        Ok(self.journal.revision())
    }

    /// A user pays in again.
    pub(crate) fn restore_deposit(
        &mut self,
        name: &Name,
        bits: u32,
        reply: &Reply,
    ) -> Result<(), RestoreFault>
        ensures { IsTried self.old self.new (Deposit name.now bits) reply.now result }
    {
        if !tells_deposit(&self.journal, name, bits, reply) {
            return Err(RestoreFault::Unfit);
        }
        self.deposit(name, bits)?;
        Ok(())
    }

    /// Answers a withdrawal.
    pub(crate) fn answer_withdraw(&mut self, name: &Name, bits: u32) -> Reply
        ensures { IsAnswered self.old self.new (Withdraw name.now bits) result }
    {
        match self.withdraw(name, bits) {
            Ok(at) => Reply::Withdrawn {
                user: *name,
                bits,
                at,
            },
            Err(why) => Reply::Refused { why },
        }
    }

    /// A user takes out so many bits, as far as the user's least factor covers them. It gives the revision.
    fn withdraw(&mut self, name: &Name, bits: u32) -> Result<u64, Refusal>
        ensures { IsAnsweredBy self.old self.new (Withdraw name.now bits)
            result (λ at. reply.Withdrawn name.now bits at) }
    {
        let user = refuse_transfer(&self.journal, &self.users, name, bits)?;
        learn(&mut self.users, &self.file, &self.journal, user);
        let assets = self.users.assets(user);
        let most = most_bits(&least_of(assets));
        if bits as u64 > most {
            return Err(Refusal::Short { bits: most });
        }
        assets.withdraw(bits);
        self.ledger
            .withdraw(user, self.file.points_per_bit as u64 * bits as u64);
        self.journal.withdraw(user, bits);
        Ok(self.journal.revision())
    }

    /// A user takes out again, covered or not.
    pub(crate) fn restore_withdrawal(
        &mut self,
        name: &Name,
        bits: u32,
        reply: &Reply,
    ) -> Result<(), RestoreFault>
        ensures { IsTried self.old self.new (Withdraw name.now bits) reply.now result }
    {
        if !tells_withdrawal(&self.journal, name, bits, reply) {
            return Err(RestoreFault::Unfit);
        }
        let user = refuse_transfer(&self.journal, &self.users, name, bits)?;
        self.users.assets(user).withdraw(bits);
        self.ledger
            .withdraw(user, self.file.points_per_bit as u64 * bits as u64);
        self.journal.withdraw(user, bits);
        Ok(())
    }
}
