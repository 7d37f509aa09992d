//! Enclosures of the exact numbers that an auditor holds against printed prices, points and bits.
//!
//! Each call asks the beliefs that the command asks, in the same order, refuses what the command is
//! refused for, and leaves the market as it stood: what a user owns may learn what is known.

ghost use Rattle.std.specs.Prelude.{◌≡◌, ◌<◌, ◌≤◌, length};
ghost use Rattle.mk_command.specs.declared.command.Command.TheVariants as command;
ghost use Rattle.mk_evidence.specs.Below.{users, always, market_of, spread_in, IsLeastFactorOf};
ghost use Rattle.mk_evidence.specs.Below.{AreSureFactors, IsOnlyAsked};
ghost use Rattle.mk_evidence.specs.Grades.{all_cells, evidence_grade};
ghost use Rattle.mk_evidence.specs.inner.Finding.{AreAsked, CanAskEach};
ghost use Rattle.mk_evidence.specs.Evidence.{IsAskedFor, IsPriceEvidence, ArePricesEvidence};
ghost use Rattle.mk_evidence.specs.Evidence.{IsWorstEvidence, IsPositionEvidence};
ghost use Rattle.mk_evidence.specs.Evidence.{IsPaymentEvidence, IsBoundEvidence};

use arrayvec::ArrayVec;
use mk_answers::{
    least_of, least_weight_of, price_bounds_of, sure_factors_of, value_price_bounds_of,
};
use mk_asking::{learn, refuse_condition};
use mk_enclose::{Enclosure, Factor};
use mk_engine::{Engine, TreeGraded};
use mk_file::MarketFile;
use mk_judge::PriceBounds;
use mk_market::Market;
use mk_names::Name;
use mk_net::{PairText, QuestionText};
use mk_record::{
    Journal, SpreadRequest, Users, not_settled, refuse_bounds, refuse_price, refuse_prices,
    refuse_transfer, refuse_worst,
};
use mk_reply::Refusal;
use mk_semiring::{MinProd, SumProd};

/// The bounds of a question's price.
pub fn price_evidence<P: TreeGraded<SumProd>, A: TreeGraded<MinProd>>(
    market: &mut Market<P, A>,
    question: &QuestionText,
) -> Result<PriceBounds, Refusal>
    ensures same { market.new ≡ market.old }
    ensures evidence { IsAskedFor market.old.market (market.old.standing).history
        (command.Price question.now) result
        (IsPriceEvidence market.old.market (market.old.standing).history question.now) }
{
    let (asked, home) = refuse_price(&market.file, &market.journal, question)?;
    match price_bounds_of(&mut market.prices, &market.file.net, home, &asked) {
        Some(bounds) => Ok(bounds),
        None => Err(refuse_condition(
            &mut market.prices,
            home,
            &asked.condition(),
            question.condition.as_slice(),
        )),
    }
}

/// The bounds of the prices of all values of a variable, in order: Some of each.
pub fn prices_evidence<P: TreeGraded<SumProd>, A: TreeGraded<MinProd>>(
    market: &mut Market<P, A>,
    variable: &Name,
    condition: &ArrayVec<PairText, 8>,
) -> Result<ArrayVec<Option<PriceBounds>, 16>, Refusal>
    ensures same { market.new ≡ market.old }
    ensures evidence { IsAskedFor market.old.market (market.old.standing).history
        (command.Prices variable.now condition.now) result
        (ArePricesEvidence market.old.market (market.old.standing).history variable.now
        condition.now) }
{
    let words = condition.as_slice();
    let (asked, home) = refuse_prices(&market.file, &market.journal, variable, words)?;
    match value_price_bounds_of(&mut market.prices, &market.file.net, home, &asked) {
        Some(bounds) => Ok(bounds),
        None => Err(refuse_condition(&mut market.prices, home, &asked.condition, words)),
    }
}

/// A user's least factor, by which `worst` is answered.
pub fn worst_evidence<P: TreeGraded<SumProd>, A: TreeGraded<MinProd>>(
    market: &mut Market<P, A>,
    name: &Name,
) -> Result<Factor, Refusal>
    ensures same { IsOnlyAsked market.old market.new }
    ensures evidence { IsAskedFor market.old.market (market.old.standing).history
        (command.Worst name.now) result
        (IsWorstEvidence market.old.market (market.old.standing).history name.now) }
{
    let user = refuse_worst(&market.journal, &market.users, name)?;
    Ok(user_factor(market, user))
}

/// The same factor, by which so many bits are taken out or are too many.
pub fn withdrawal_evidence<P: TreeGraded<SumProd>, A: TreeGraded<MinProd>>(
    market: &mut Market<P, A>,
    name: &Name,
    bits: u32,
) -> Result<Factor, Refusal>
    ensures same { IsOnlyAsked market.old market.new }
    ensures evidence { IsAskedFor market.old.market (market.old.standing).history
        (command.Withdraw name.now bits) result
        (IsWorstEvidence market.old.market (market.old.standing).history name.now) }
{
    let user = refuse_transfer(&market.journal, &market.users, name, bits)?;
    Ok(user_factor(market, user))
}

/// A user's least factor where each value of a variable comes, in order; none for a value that
/// cannot come.
pub fn position_evidence<P: TreeGraded<SumProd>, A: TreeGraded<MinProd>>(
    market: &mut Market<P, A>,
    name: &Name,
    variable: &Name,
    condition: &ArrayVec<PairText, 8>,
) -> Result<ArrayVec<Option<Factor>, 16>, Refusal>
    ensures same { IsOnlyAsked market.old market.new }
    ensures evidence { IsAskedFor market.old.market (market.old.standing).history
        (command.Position name.now variable.now condition.now) result
        (IsPositionEvidence market.old.market (market.old.standing).history name.now variable.now
        condition.now) }
{
    let words = condition.as_slice();
    let request = refuse_bounds(
        &market.file,
        &market.journal,
        &market.users,
        name,
        variable,
        words,
    )?;
    match sure_factors(&market.file, &mut market.users, &market.journal, &request) {
        Some(factors) => Ok(factors),
        None => Err(refuse_condition(
            &mut market.prices,
            request.home,
            &request.question.condition,
            words,
        )),
    }
}

/// A user's least factor where each value of a variable comes, or none where the condition cannot
/// come. The user's assets learn what is known.
fn sure_factors<A: TreeGraded<MinProd>>(
    file: &MarketFile,
    members: &mut Users<A>,
    journal: &Journal,
    request: &SpreadRequest,
) -> Option<ArrayVec<Option<Factor>, 16>>
    requires { CanAskEach A.stands_for file.now journal.now.history members.old request.now }
    ensures users { AreAsked A.stands_for file.now journal.now.history members.old members.new }
    ensures factors { AreSureFactors (evidence_grade (market_of file.now) journal.now.history)
        file.now.net journal.now.history request.now.user (spread_in request.now.question) result }
{
    learn(members, file, journal, request.user);
    sure_factors_of(
        members.assets(request.user),
        &file.net,
        request.home,
        &request.question,
    )
}

/// How many users joined.
pub fn joined<P: Engine<SumProd>, A: Engine<MinProd>>(market: &Market<P, A>) -> u32
    ensures { result ≡ length (users (market.now.standing).history) }
{
    market.journal.joined()
}

/// The factor of a user, by number, in the one state that is left, by which a settlement pays
/// it.
pub fn payment_evidence<P: TreeGraded<SumProd>, A: TreeGraded<MinProd>>(
    market: &mut Market<P, A>,
    user: u32,
) -> Factor
    requires { user < length (users (market.old.standing).history) }
    ensures same { IsOnlyAsked market.old market.new }
    ensures evidence { IsPaymentEvidence market.old.market (market.old.standing).history user
        result }
{
    user_factor(market, user)
}

/// A user's least factor. The market stays as it stood, and the user's assets learn what is known.
fn user_factor<P: TreeGraded<SumProd>, A: TreeGraded<MinProd>>(
    market: &mut Market<P, A>,
    user: u32,
) -> Factor
    requires { user < length (users (market.old.standing).history) }
    ensures same { IsOnlyAsked market.old market.new }
    ensures least { IsLeastFactorOf
        (evidence_grade market.old.market (market.old.standing).history)
        (market.old.market).network (market.old.standing).history user always result }
{
    learn(&mut market.users, &market.file, &market.journal, user);
    least_of(market.users.assets(user))
}

/// The least initial weight of the possible states, by which `bound` is answered. A market has no
/// fewer cells than variables.
pub fn bound_evidence<P: TreeGraded<SumProd>, A: TreeGraded<MinProd>>(
    market: &mut Market<P, A>,
) -> Result<Enclosure, Refusal>
    ensures same { market.new ≡ market.old }
    ensures evidence { IsAskedFor market.old.market (market.old.standing).history command.Bound
        result (IsBoundEvidence market.old.market (market.old.standing).history) }
    ensures cells { length market.old.market.network
        ≤ all_cells market.old.market (market.old.standing).history }
{
    not_settled(&market.journal)?;
    Ok(least_weight_of(&mut market.rows, &market.file.net))
}
