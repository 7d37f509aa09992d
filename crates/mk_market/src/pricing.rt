//! What a question is worth, what a user is worth at least, and what the operator can lose at most.

use crate::market::Market;
use mk_answers::{bound_of, least_of, price_of};
use mk_asking::{learn, refuse_condition};
use mk_cash::cash;
use mk_engine::Engine;
use mk_names::Name;
use mk_net::QuestionText;
use mk_record::{not_settled, plain_price, refuse_price, refuse_worst};
use mk_reply::{Refusal, Reply};
use mk_semiring::{MinProd, SumProd};

impl<P: Engine<SumProd>, A: Engine<MinProd>> Market<P, A> {
    ghost use Rattle.mk_command.specs.declared.command.Command.TheVariants.{Price, Worst, Bound};
    ghost use Rattle.mk_market.specs.Trading.{IsAnswered};
    ghost use Rattle.mk_market.specs.inner.Answering.{IsAnsweredBy};
    ghost use Rattle.std.specs.Prelude.{◌≡◌, IfSome, IfNone};
    ghost use Rattle.mk_reply.specs.declared.reply.Reply.TheVariants as reply;

    /// The price of a question without a condition that nothing refuses, in units of 10^-10, as
    /// `apply` answers it. None leaves all as it was, and says nothing. It makes no reply, so it
    /// costs less.
    #[inline(never)]
    pub fn plain_price(&mut self, question: &QuestionText) -> Option<(u64, u64)>
        ensures priced { IfSome result (λ price. IsAnswered self.old self.new (Price question.now) (reply.Price price.0 price.1)) }
        ensures unpriced { IfNone result (self.new ≡ self.old) }
    {
        let (asked, home) = plain_price(&self.file, &self.journal, question)?;
        price_of(&mut self.prices, &self.file.net, home, &asked)
    }

    /// Answers what a question is worth.
    pub(crate) fn answer_price(&mut self, question: &QuestionText) -> Reply
        ensures { IsAnswered self.old self.new (Price question.now) result }
    {
        match self.price(question) {
            Ok((low, high)) => Reply::Price { low, high },
            Err(why) => Reply::Refused { why },
        }
    }

    /// The price of a question, in units of 10^-10.
    fn price(&mut self, question: &QuestionText) -> Result<(u64, u64), Refusal>
        ensures { IsAnsweredBy self.old self.new (Price question.now)
            result (λ price. reply.Price price.0 price.1) }
    {
        let (asked, home) = refuse_price(&self.file, &self.journal, question)?;
        match price_of(&mut self.prices, &self.file.net, home, &asked) {
            Some(price) => Ok(price),
            None => Err(refuse_condition(
                &mut self.prices,
                home,
                &asked.condition(),
                question.condition.as_slice(),
            )),
        }
    }

    /// Answers what a user is paid at least.
    pub(crate) fn answer_worst(&mut self, name: &Name) -> Reply
        ensures { IsAnswered self.old self.new (Worst name.now) result }
    {
        match self.worst(name) {
            Ok((low, high)) => Reply::Worst { low, high },
            Err(why) => Reply::Refused { why },
        }
    }

    /// What a user is paid at least, whatever comes, in points.
    fn worst(&mut self, name: &Name) -> Result<(u64, u64), Refusal>
        ensures { IsAnsweredBy self.old self.new (Worst name.now)
            result (λ ends. reply.Worst ends.0 ends.1) }
    {
        let user = refuse_worst(&self.journal, &self.users, name)?;
        learn(&mut self.users, &self.file, &self.journal, user);
        let factor = least_of(self.users.assets(user));
        Ok(cash(&factor, self.file.points_per_bit))
    }

    /// Answers what the operator can lose at most.
    pub(crate) fn answer_bound(&mut self) -> Reply
        ensures { IsAnswered self.old self.new Bound result }
    {
        match self.bound() {
            Ok((low, high)) => Reply::Bound { low, high },
            Err(why) => Reply::Refused { why },
        }
    }

    /// What the operator can lose at most, in points.
    fn bound(&mut self) -> Result<(u64, u64), Refusal>
        ensures { IsAnsweredBy self.old self.new Bound result
            (λ ends. reply.Bound ends.0 ends.1) }
    {
        not_settled(&self.journal)?;
        Ok(bound_of(&mut self.rows, &self.file.net, self.file.points_per_bit))
    }
}
