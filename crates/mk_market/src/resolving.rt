//! Resolutions.

use crate::market::Market;
use crate::restoring::RestoreFault;
use mk_asking::{can_come, home_of};
use mk_engine::Engine;
use mk_net::PairText;
use mk_record::refuse_resolve;
use mk_reply::{Refusal, Reply};
use mk_semiring::{MinProd, SumProd};
use mk_told::tells_resolution;

impl<P: Engine<SumProd>, A: Engine<MinProd>> Market<P, A> {
    ghost use Rattle.mk_command.specs.declared.command.Command.TheVariants.{Resolve};
    ghost use Rattle.mk_market.specs.Trading.{IsAnswered};
    ghost use Rattle.mk_market.specs.inner.Answering.{IsAnsweredBy};
    ghost use Rattle.mk_market.specs.inner.Restored.{IsFoundAgain, IsTried};
    ghost use Rattle.mk_reply.specs.declared.reply.Reply.TheVariants as reply;

    /// Answers that a variable has a value.
    pub(crate) fn answer_resolve(&mut self, words: &PairText) -> Reply
        ensures { IsAnswered self.old self.new (Resolve words.now) result }
    {
        match self.resolve(words) {
            Ok(at) => Reply::Resolved { pair: *words, at },
            Err(why) => Reply::Refused { why },
        }
    }

    /// A variable has a value from now on. The engines of prices and of initial weights learn it, and
    /// a user's assets when they are asked. It gives the revision.
    fn resolve(&mut self, words: &PairText) -> Result<u64, Refusal>
        ensures answered { IsAnsweredBy self.old self.new (Resolve words.now)
            result (λ at. reply.Resolved words.now at) }
        ensures again { IsFoundAgain self.old self.new (Resolve words.now)
            result (λ at. reply.Resolved words.now at) }
    {
        let pair = refuse_resolve(&self.file, &self.journal, words)?;
        let home = home_of(&self.file, pair);
        if !can_come(&mut self.prices, &self.file.net, home, pair) {
            return Err(Refusal::Impossible { pair: *words });
        }
        self.prices.know(home, pair);
        self.rows.know(home, pair);
        self.journal.resolve(pair);
        Ok(self.journal.revision())
    }

    /// A variable has a value again.
    pub(crate) fn restore_resolution(
        &mut self,
        words: &PairText,
        reply: &Reply,
    ) -> Result<(), RestoreFault>
        ensures { IsTried self.old self.new (Resolve words.now) reply.now result }
    {
        if !tells_resolution(&self.journal, words, reply) {
            return Err(RestoreFault::Unfit);
        }
        self.resolve(words)?;
        Ok(())
    }
}
