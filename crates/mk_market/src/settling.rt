//! The settlement, and what it paid.

use crate::market::Market;
use crate::restoring::RestoreFault;
use mk_engine::Engine;
use mk_names::Name;
use mk_names::limits::MAX_PAYMENTS;
use mk_record::{refuse_paid, refuse_settle};
use mk_reply::{Payment, Reply};
use mk_semiring::{MinProd, SumProd};
use mk_settling::{enter, list, pay_all_by_rule, tell};
use mk_told::{tells_total, told_payments};

impl<P: Engine<SumProd>, A: Engine<MinProd>> Market<P, A> {
    ghost use Rattle.std.specs.Prelude.{◌≡◌, ◌<◌, ◌≤◌, length, None};
    ghost use Rattle.mk_net.specs.Bounds.{max_payments};
    ghost use Rattle.mk_exact.specs.History.{users};
    ghost use Rattle.mk_exact.specs.ByRule.{payments_by_rule, paid_in_all};
    ghost use Rattle.mk_command.specs.declared.command.Command.TheVariants.{Settle, Paid};
    ghost use Rattle.mk_rules.specs.Refusals.{first_refusal};
    ghost use Rattle.mk_record.specs.Refused.{CanBeSettled};
    ghost use Rattle.mk_reply.specs.Replies.{IsReply};
    ghost use Rattle.mk_market.specs.Trading.{IsAnswered};
    ghost use Rattle.mk_market.specs.inner.Restored.{IsTried};

    /// Answers that the market is to be settled.
    pub(crate) fn answer_settle(&mut self) -> Reply
        ensures { IsAnswered self.old self.new Settle result }
    {
        if let Err(why) = refuse_settle(&self.file, &self.journal) {
            return Reply::Refused { why };
        }
        if self.users.count() > MAX_PAYMENTS {
            self.settle_by_rule()
        } else {
            self.settle_listed()
        }
    }

    /// The points that all users together are paid by rule, where the market can be settled and more
    /// users joined than a settlement may list payments to. The auditor asks it.
    pub fn total_by_rule(&mut self) -> u64
        requires unrefused { None ≡ first_refusal self.old.market (self.old.standing).history Settle }
        ensures same { self.new ≡ self.old }
        ensures total { result ≡ paid_in_all (payments_by_rule self.old.market.network
            (self.old.standing).history self.old.market.points_per_bit) }
    {
        let Some(till) = &mut self.till else {
            unreachable!()
        };
        pay_all_by_rule(&self.file, &self.journal, till);
        let total = till.total();
        till.clear();
        total
    }

    /// Each user is paid by rule, and the reply lists the payments.
    fn settle_listed(&mut self) -> Reply
        requires can { CanBeSettled (self.old.market).network (self.old.standing).history }
        requires unrefused { None ≡ first_refusal self.old.market (self.old.standing).history Settle }
        requires few { length (users (self.old.standing).history) ≤ max_payments }
        ensures { IsAnswered self.old self.new Settle result }
    {
        let (Some(mut payments), Some(mut till)) = (self.payments.take(), self.till.take()) else {
            unreachable!()
        };
        pay_all_by_rule(&self.file, &self.journal, &mut till);
        tell(&self.users, till.rows(), &mut payments);
        enter(&mut self.ledger, &mut self.journal, till);
        Reply::Settled {
            at: self.journal.revision(),
            payments,
        }
    }

    /// Each user is paid by rule, and the reply tells what all are paid.
    fn settle_by_rule(&mut self) -> Reply
        requires can { CanBeSettled (self.old.market).network (self.old.standing).history }
        requires unrefused { None ≡ first_refusal self.old.market (self.old.standing).history Settle }
        requires many { max_payments < length (users (self.old.standing).history) }
        ensures { IsAnswered self.old self.new Settle result }
    {
        let Some(mut till) = self.till.take() else {
            unreachable!()
        };
        pay_all_by_rule(&self.file, &self.journal, &mut till);
        let total = till.total();
        enter(&mut self.ledger, &mut self.journal, till);
        Reply::SettledAll {
            at: self.journal.revision(),
            users: self.journal.joined(),
            total,
        }
    }

    /// Each user is paid what the reply tells, or by rule where it lists no payments.
    pub(crate) fn restore_settlement(&mut self, reply: &Reply) -> Result<(), RestoreFault>
        requires { IsReply reply.now }
        ensures { IsTried self.old self.new Settle reply.now result }
    {
        refuse_settle(&self.file, &self.journal)?;
        if self.users.count() > MAX_PAYMENTS {
            self.restore_by_rule(reply)
        } else {
            self.restore_listed(reply)
        }
    }

    /// Each user is paid what the reply tells.
    fn restore_listed(&mut self, reply: &Reply) -> Result<(), RestoreFault>
        requires told { IsReply reply.now }
        requires can { CanBeSettled (self.old.market).network (self.old.standing).history }
        requires unrefused { None ≡ first_refusal self.old.market (self.old.standing).history Settle }
        requires few { length (users (self.old.standing).history) ≤ max_payments }
        ensures { IsTried self.old self.new Settle reply.now result }
    {
        let Some(payments) = told_payments(&self.journal, &self.users, reply) else {
            return Err(RestoreFault::Unfit);
        };
        let Some(mut till) = self.till.take() else {
            unreachable!()
        };
        list(&mut till, payments.rows());
        enter(&mut self.ledger, &mut self.journal, till);
        Ok(())
    }

    /// Each user is paid by rule, where the reply tells what all are paid by it.
    fn restore_by_rule(&mut self, reply: &Reply) -> Result<(), RestoreFault>
        requires can { CanBeSettled (self.old.market).network (self.old.standing).history }
        requires unrefused { None ≡ first_refusal self.old.market (self.old.standing).history Settle }
        requires many { max_payments < length (users (self.old.standing).history) }
        ensures { IsTried self.old self.new Settle reply.now result }
    {
        let Some(mut till) = self.till.take() else {
            unreachable!()
        };
        pay_all_by_rule(&self.file, &self.journal, &mut till);
        if !tells_total(&self.journal, till.total(), reply) {
            till.clear();
            self.till = Some(till);
            return Err(RestoreFault::Unfit);
        }
        enter(&mut self.ledger, &mut self.journal, till);
        Ok(())
    }

    /// What the settlement paid a user, as `apply` answers it.
    pub fn paid(&self, name: &Name) -> Reply
        ensures { IsAnswered self.now self.now (Paid name.now) result }
    {
        let user = match refuse_paid(&self.journal, &self.users, name) {
            Ok(user) => user,
            Err(why) => return Reply::Refused { why },
        };
        let low = self.ledger.paid(user);
        Reply::Paid {
            payment: Payment {
                user: *name,
                low,
                high: self.ledger.high(user),
                paid: low,
            },
        }
    }
}
