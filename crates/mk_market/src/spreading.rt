//! Spreads over the values of a variable, and their bounds.

use crate::market::Market;
use crate::restoring::RestoreFault;
use arrayvec::ArrayVec;
use mk_asking::{
    Stopped, fresh_spread_quote, judge_spread, ratio_of_spread, refuse_stopped, trade,
};
use mk_engine::Engine;
use mk_names::Name;
use mk_net::PairText;
use mk_record::{LastQuote, SpreadWish, refuse_bounds, refuse_spread};
use mk_reply::{Intervals, Refusal, Reply};
use mk_semiring::{MinProd, SumProd};
use mk_told::told_factors;

impl<P: Engine<SumProd>, A: Engine<MinProd>> Market<P, A> {
    ghost use Rattle.mk_command.specs.declared.command.Command.TheVariants.{Bounds, Spread};
    ghost use Rattle.mk_market.specs.Trading.{IsAnswered};
    ghost use Rattle.mk_market.specs.inner.Answering.{IsAnsweredBy};
    ghost use Rattle.mk_market.specs.inner.Restored.{IsTried};
    ghost use Rattle.mk_reply.specs.declared.reply.Reply.TheVariants as reply;
    ghost use Rattle.mk_reply.specs.Replies.{IsReply};
    ghost use Rattle.std.specs.Prelude.{◌≡◌, ◌≤◌, ℕ, length};
    ghost use Rattle.arrayvec.specs.ArrayVec.{ArrayVec as Several};
    ghost use Rattle.mk_net.specs.Bounds.{max_condition, max_values};
    ghost use Rattle.mk_net.specs.declared.words.PairText.{PairText as Words};

    /// Answers to which shares a user may move each value of a variable.
    pub(crate) fn answer_bounds(
        &mut self,
        name: &Name,
        variable: &Name,
        condition: &ArrayVec<PairText, 8>,
    ) -> Reply
        ensures { IsAnswered self.old self.new (Bounds name.now variable.now condition.now) result }
    {
        match self.bounds(name, variable, condition) {
            Ok((intervals, at)) => Reply::Bounded { intervals, at },
            Err(why) => Reply::Refused { why },
        }
    }

    /// The shares to which a user may move each value of a variable, if there are any, and the
    /// revision. They are the user's last quote.
    fn bounds(
        &mut self,
        name: &Name,
        variable: &Name,
        condition: &ArrayVec<PairText, 8>,
    ) -> Result<(Option<Intervals>, u64), Refusal>
        ensures { IsAnsweredBy self.old self.new (Bounds name.now variable.now condition.now)
            result (λ found. reply.Bounded found.0 found.1) }
    {
        let request = refuse_bounds(
            &self.file,
            &self.journal,
            &self.users,
            name,
            variable,
            condition.as_slice(),
        )?;
        let quote = match fresh_spread_quote(
            &self.file,
            &mut self.prices,
            &mut self.users,
            &self.journal,
            &request,
        ) {
            Ok(quote) => quote,
            Err(why) => return Err(refuse_stopped(
                &mut self.prices,
                &self.file.net,
                variable,
                condition.as_slice(),
                &request,
                Stopped::Decided(why),
            )),
        };
        let intervals = quote.intervals();
        self.users
            .set_quote(request.user, LastQuote::Bounds { quote });
        Ok((intervals, self.journal.revision()))
    }

    /// Answers a user who moves the values of a variable.
    pub(crate) fn answer_spread(
        &mut self,
        name: &Name,
        variable: &Name,
        condition: &ArrayVec<PairText, 8>,
        to: &ArrayVec<u32, 16>,
        at: Option<u32>,
    ) -> Reply
        ensures { IsAnswered self.old self.new
            (Spread name.now variable.now condition.now to.now at) result }
    {
        match self.spread(name, variable, condition, to, at) {
            Ok((factors, at)) => Reply::Spreaded { factors, at },
            Err(why) => Reply::Refused { why },
        }
    }

    /// A user moves the values of a variable to so many millionths each, having seen a revision. They are judged by the
    /// user's last quote where that is of this spread and of the present revision, and else by one made anew, which a
    /// refusal leaves as the last. It gives the factors of the trade, and the revision.
    fn spread(
        &mut self,
        name: &Name,
        variable: &Name,
        condition: &ArrayVec<PairText, 8>,
        to: &ArrayVec<u32, 16>,
        at: Option<u32>,
    ) -> Result<(ArrayVec<u64, 16>, u64), Refusal>
        ensures { IsAnsweredBy self.old self.new
            (Spread name.now variable.now condition.now to.now at)
            result (λ traded. reply.Spreaded traded.0 traded.1) }
    {
        let wish = SpreadWish {
            variable,
            condition: condition.as_slice(),
            to: to.as_slice(),
            at,
        };
        let request = refuse_spread(&self.file, &self.journal, &self.users, name, &wish)?;
        let factors = match judge_spread(
            &self.file,
            &mut self.prices,
            &mut self.users,
            &self.journal,
            &request,
            to.as_slice(),
        ) {
            Ok(factors) => factors,
            Err(why) => return Err(refuse_stopped(
                &mut self.prices,
                &self.file.net,
                variable,
                condition.as_slice(),
                &request,
                why,
            )),
        };
        let ratio = ratio_of_spread(&request.question, factors.as_slice());
        trade(
            &mut self.prices,
            &mut self.users,
            &mut self.journal,
            request.user,
            request.home,
            ratio,
        );
        Ok((factors, self.journal.revision()))
    }

    /// A user trades by a spread again, of the factors that the reply tells.
    pub(crate) fn restore_spread(
        &mut self,
        name: &Name,
        wish: &SpreadWish,
        reply: &Reply,
    ) -> Result<(), RestoreFault>
        requires few_pairs { length wish.now.condition.now ≤ max_condition }
        requires few_shares { length wish.now.to.now ≤ max_values }
        requires told { IsReply reply.now }
        ensures { (condition : Several Words) (to : Several ℕ)
            → condition.items ≡ wish.now.condition.now → to.items ≡ wish.now.to.now
            → IsTried self.old self.new (Spread name.now wish.now.variable.now condition to
            wish.now.at) reply.now result }
    {
        let Some(factors) = told_factors(&self.journal, wish.to, reply) else {
            return Err(RestoreFault::Unfit);
        };
        let request = refuse_spread(&self.file, &self.journal, &self.users, name, wish)?;
        let ratio = ratio_of_spread(&request.question, factors.as_slice());
        trade(
            &mut self.prices,
            &mut self.users,
            &mut self.journal,
            request.user,
            request.home,
            ratio,
        );
        Ok(())
    }
}
