//! Adding a question.

use crate::market::Market;
use crate::restoring::RestoreFault;
use mk_addition::AddText;
use mk_admission::refuse_add;
use mk_engine::Engine;
use mk_net::NoMemory;
use mk_parts::parts_with;
use mk_reply::{Refusal, Reply};
use mk_semiring::{MinProd, SumProd};
use mk_told::{has_text, tells_addition};
use std::alloc::Global;

impl<P: Engine<SumProd>, A: Engine<MinProd>> Market<P, A> {
    ghost use Rattle.std.specs.Prelude.{◌≡◌, OnOk, OnErr, None};
    ghost use Rattle.mk_addition.specs.Adds.{IsAddText};
    ghost use Rattle.mk_command.specs.declared.command.Command.TheVariants.{Add};
    ghost use Rattle.mk_reply.specs.declared.reply.Reply.TheVariants as reply;
    ghost use Rattle.mk_rules.specs.Refusals.{first_refusal};
    ghost use Rattle.mk_market.specs.Suited.{SuitsNext};
    ghost use Rattle.mk_market.specs.Trading.{IsAnswered};
    ghost use Rattle.mk_market.specs.inner.Adding.{HasGrown};
    ghost use Rattle.mk_market.specs.inner.Answering.{IsAnsweredBy};
    ghost use Rattle.mk_market.specs.inner.Restored.{IsTried};

    /// Answers a question that is to be added.
    pub(crate) fn answer_add(&mut self, alloc: Global, add: &AddText) -> Reply
        requires prices { SuitsNext P.suits self.old (Add add.now) }
        requires assets { SuitsNext A.suits self.old (Add add.now) }
        ensures { IsAnswered self.old self.new (Add add.now) result }
    {
        match self.add(alloc, add) {
            Ok(at) => Reply::Added {
                variable: add.variable,
                at,
            },
            Err(why) => Reply::Refused { why },
        }
    }

    /// Adds a question and gives the revision. Words that no line could have count as no memory.
    fn add(&mut self, alloc: Global, add: &AddText) -> Result<u64, Refusal>
        requires prices { SuitsNext P.suits self.old (Add add.now) }
        requires assets { SuitsNext A.suits self.old (Add add.now) }
        ensures { IsAnsweredBy self.old self.new (Add add.now) result
            (λ at. reply.Added add.now.variable at) }
    {
        refuse_add(&self.file, &self.journal, add)?;
        if !has_text(add) {
            return Err(Refusal::Memory);
        }
        let Ok(()) = self.grow(alloc, add) else {
            return Err(Refusal::Memory);
        };
        Ok(self.journal.revision())
    }

    /// A question is added again.
    pub(crate) fn restore_add(
        &mut self,
        alloc: Global,
        add: &AddText,
        reply: &Reply,
    ) -> Result<(), RestoreFault>
        requires prices { SuitsNext P.suits self.old (Add add.now) }
        requires assets { SuitsNext A.suits self.old (Add add.now) }
        ensures { IsTried self.old self.new (Add add.now) reply.now result }
    {
        if !has_text(add) || !tells_addition(&self.journal, add, reply) {
            return Err(RestoreFault::Unfit);
        }
        refuse_add(&self.file, &self.journal, add)?;
        let Ok(()) = self.grow(alloc, add) else {
            return Err(RestoreFault::Memory);
        };
        Ok(())
    }

    /// Puts a question that nothing refuses behind all others, and its clique behind all cliques.
    /// All memory is taken before anything changes.
    pub(crate) fn grow(&mut self, alloc: Global, add: &AddText) -> Result<(), NoMemory>
        requires text { IsAddText add.now }
        requires unrefused { first_refusal self.old.market (self.old.standing).history
            (Add add.now) ≡ None }
        requires prices { SuitsNext P.suits self.old (Add add.now) }
        requires assets { SuitsNext A.suits self.old (Add add.now) }
        ensures ok { OnOk result (HasGrown self.old self.new add.now) }
        ensures err { OnErr result (self.new ≡ self.old) }
    {
        let joined = self.users.count();
        let parts = parts_with::<P, A>(alloc, &self.file, &self.journal, joined, add)?;
        self.file = parts.file;
        self.prices = parts.prices;
        self.rows = parts.rows;
        self.plan = parts.plan;
        self.users.renew(parts.assets);
        self.journal.add(parts.question);
        Ok(())
    }
}
