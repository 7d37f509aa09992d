//! What a market tells of every value of a variable, and of itself.

use crate::market::Market;
use arrayvec::ArrayVec;
use mk_answers::{position_of, prices_of};
use mk_asking::{learn, open_questions, refuse_condition};
use mk_engine::Engine;
use mk_names::Name;
use mk_net::PairText;
use mk_record::{not_settled, refuse_bounds, refuse_prices};
use mk_reply::{Refusal, Reply, Spans};
use mk_semiring::{MinProd, SumProd};

impl<P: Engine<SumProd>, A: Engine<MinProd>> Market<P, A> {
    ghost use Rattle.mk_command.specs.declared.command.Command.TheVariants.{Prices, Position};
    ghost use Rattle.mk_command.specs.declared.command.Command.TheVariants.{Status};
    ghost use Rattle.mk_market.specs.Trading.{IsAnswered};
    ghost use Rattle.mk_market.specs.inner.Answering.{IsAnsweredBy};
    ghost use Rattle.mk_reply.specs.declared.reply.Reply.TheVariants as reply;

    /// Answers what the values of a variable are worth.
    pub(crate) fn answer_prices(
        &mut self,
        variable: &Name,
        condition: &ArrayVec<PairText, 8>,
    ) -> Reply
        ensures { IsAnswered self.old self.new (Prices variable.now condition.now) result }
    {
        match self.prices(variable, condition) {
            Ok(intervals) => Reply::Prices { intervals },
            Err(why) => Reply::Refused { why },
        }
    }

    /// The prices of all values of a variable, in units of 10^-10.
    fn prices(
        &mut self,
        variable: &Name,
        condition: &ArrayVec<PairText, 8>,
    ) -> Result<Spans, Refusal>
        ensures { IsAnsweredBy self.old self.new (Prices variable.now condition.now)
            result (λ intervals. reply.Prices intervals) }
    {
        let words = condition.as_slice();
        let (asked, home) = refuse_prices(&self.file, &self.journal, variable, words)?;
        match prices_of(&mut self.prices, &self.file.net, home, &asked) {
            Some(intervals) => Ok(intervals),
            None => Err(refuse_condition(&mut self.prices, home, &asked.condition, words)),
        }
    }

    /// Answers what a user is sure of.
    pub(crate) fn answer_position(
        &mut self,
        name: &Name,
        variable: &Name,
        condition: &ArrayVec<PairText, 8>,
    ) -> Reply
        ensures { IsAnswered self.old self.new (Position name.now variable.now condition.now)
            result }
    {
        match self.position(name, variable, condition) {
            Ok(intervals) => Reply::Position { intervals },
            Err(why) => Reply::Refused { why },
        }
    }

    /// What a user is sure of where each value of a variable comes, in points.
    fn position(
        &mut self,
        name: &Name,
        variable: &Name,
        condition: &ArrayVec<PairText, 8>,
    ) -> Result<ArrayVec<Option<(u64, u64)>, 16>, Refusal>
        ensures { IsAnsweredBy self.old self.new (Position name.now variable.now condition.now)
            result (λ intervals. reply.Position intervals) }
    {
        let words = condition.as_slice();
        let request = refuse_bounds(
            &self.file,
            &self.journal,
            &self.users,
            name,
            variable,
            words,
        )?;
        learn(&mut self.users, &self.file, &self.journal, request.user);
        match position_of(
            self.users.assets(request.user),
            &self.file.net,
            request.home,
            &request.question,
            self.file.points_per_bit,
        ) {
            Some(intervals) => Ok(intervals),
            None => Err(refuse_condition(
                &mut self.prices,
                request.home,
                &request.question.condition,
                words,
            )),
        }
    }

    /// How far the market is, and what is left of its limits, as `apply` answers it.
    pub fn status(&self) -> Reply
        ensures { IsAnswered self.now self.now Status result }
    {
        if let Err(why) = not_settled(&self.journal) {
            return Reply::Refused { why };
        }
        let questions = self.file.net.variables();
        Reply::Status {
            at: self.journal.revision(),
            users: self.journal.joined(),
            trades: self.journal.trades(),
            most: self.journal.max_trades(),
            transfers: self.journal.transfers(),
            most_transfers: self.journal.max_transfers(),
            open: open_questions(&self.journal, questions),
            questions,
        }
    }
}
