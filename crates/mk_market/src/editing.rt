//! Edits of questions, and their limits.

use crate::market::Market;
use crate::restoring::RestoreFault;
use mk_asking::{fresh_quote, present_quote, ratio_of_edit, refuse_decided, trade};
use mk_engine::Engine;
use mk_names::Name;
use mk_net::QuestionText;
use mk_record::{EditWish, LastQuote, refuse_edit, refuse_limits};
use mk_reply::{Refusal, Reply};
use mk_semiring::{MinProd, SumProd};
use mk_told::told_units;

impl<P: Engine<SumProd>, A: Engine<MinProd>> Market<P, A> {
    ghost use Rattle.mk_command.specs.declared.command.Command.TheVariants.{Limits, Edit};
    ghost use Rattle.mk_market.specs.Trading.{IsAnswered};
    ghost use Rattle.mk_market.specs.inner.Answering.{IsAnsweredBy};
    ghost use Rattle.mk_market.specs.inner.Restored.{IsTried};
    ghost use Rattle.mk_reply.specs.declared.reply.Reply.TheVariants as reply;
    ghost use Rattle.mk_reply.specs.Replies.{IsReply};

    /// Answers to which shares a user may move a question.
    pub(crate) fn answer_limits(&mut self, name: &Name, question: &QuestionText) -> Reply
        ensures { IsAnswered self.old self.new (Limits name.now question.now) result }
    {
        match self.limits(name, question) {
            Ok((limits, at)) => Reply::Limits { limits, at },
            Err(why) => Reply::Refused { why },
        }
    }

    /// The shares to which a user may move a question, if there are any, and the revision. They are
    /// the user's last quote.
    fn limits(
        &mut self,
        name: &Name,
        question: &QuestionText,
    ) -> Result<(Option<(u32, u32)>, u64), Refusal>
        ensures { IsAnsweredBy self.old self.new (Limits name.now question.now)
            result (λ found. reply.Limits found.0 found.1) }
    {
        let request = refuse_limits(&self.file, &self.journal, &self.users, name, question)?;
        let quote = match fresh_quote(
            &self.file,
            &mut self.prices,
            &mut self.users,
            &self.journal,
            &request,
        ) {
            Ok(quote) => quote,
            Err(why) => return Err(refuse_decided(&mut self.prices, question, &request, why)),
        };
        self.users
            .set_quote(request.user, LastQuote::Limits { quote });
        Ok((quote.limits(), self.journal.revision()))
    }

    /// Answers a user who moves the price of a question.
    pub(crate) fn answer_edit(
        &mut self,
        name: &Name,
        question: &QuestionText,
        to: u32,
        at: Option<u32>,
    ) -> Reply
        ensures { IsAnswered self.old self.new (Edit name.now question.now to at) result }
    {
        match self.edit(name, question, to, at) {
            Ok(((hit, miss), at)) => Reply::Traded { hit, miss, at },
            Err(why) => Reply::Refused { why },
        }
    }

    /// A user moves the price of a question to so many millionths, having seen a revision. It is judged by the user's
    /// last quote where that is of this question and of the present revision, and else by one made anew, which a refusal
    /// leaves as the last. It gives the units of the trade, and the revision.
    fn edit(
        &mut self,
        name: &Name,
        question: &QuestionText,
        to: u32,
        at: Option<u32>,
    ) -> Result<((u64, u64), u64), Refusal>
        ensures { IsAnsweredBy self.old self.new (Edit name.now question.now to at)
            result (λ traded. reply.Traded (traded.0).0 (traded.0).1 traded.1) }
    {
        let wish = EditWish { question, to, at };
        let request = refuse_edit(&self.file, &self.journal, &self.users, name, &wish)?;
        let quote = match present_quote(
            &self.file,
            &mut self.prices,
            &mut self.users,
            &self.journal,
            &request,
        ) {
            Ok(quote) => quote,
            Err(why) => return Err(refuse_decided(&mut self.prices, question, &request, why)),
        };
        let Some(units) = quote.judge(to) else {
            self.users
                .set_quote(request.user, LastQuote::Limits { quote });
            return Err(Refusal::Beyond {
                limits: quote.limits(),
            });
        };
        let ratio = ratio_of_edit(&self.file.net, &request.question, units);
        trade(
            &mut self.prices,
            &mut self.users,
            &mut self.journal,
            request.user,
            request.home,
            ratio,
        );
        Ok((units, self.journal.revision()))
    }

    /// A user trades by an edit again, of the units that the reply tells.
    pub(crate) fn restore_edit(
        &mut self,
        name: &Name,
        wish: &EditWish,
        reply: &Reply,
    ) -> Result<(), RestoreFault>
        requires { IsReply reply.now }
        ensures { IsTried self.old self.new
            (Edit name.now wish.now.question.now wish.now.to wish.now.at) reply.now result }
    {
        let Some(units) = told_units(&self.journal, reply) else {
            return Err(RestoreFault::Unfit);
        };
        let request = refuse_edit(&self.file, &self.journal, &self.users, name, wish)?;
        let ratio = ratio_of_edit(&self.file.net, &request.question, units);
        trade(
            &mut self.prices,
            &mut self.users,
            &mut self.journal,
            request.user,
            request.home,
            ratio,
        );
        Ok(())
    }
}
