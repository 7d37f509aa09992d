//! Trades.

ghost use Rattle.std.specs.Prelude.{◌≡◌, ◌≤◌, ◌++◌, ◌∷◌, [], List, All, length};
ghost use Rattle.mk_asking.specs.Below.{IsUnits, Variable, IsNetwork, trade_ratio, Trade};
ghost use Rattle.mk_asking.specs.Below.{IsQuestionOf, ratio_in, AreOfValues, spread_ratio};
ghost use Rattle.mk_asking.specs.Below.{GivenTree, Meaning, RatioOf, with_factor, spread_in};
ghost use Rattle.mk_asking.specs.Below.{names_of, quotes_of};
ghost use Rattle.mk_asking.specs.Apart.{OwnApart};
ghost use Rattle.mk_asking.specs.Keeping.{AreHeld, TakesAsMuch};
ghost use Rattle.mk_asking.specs.Quoting.{CanBeMade};

use arrayvec::ArrayVec;
use mk_engine::Engine;
use mk_net::{Network, Question, Ratio};
use mk_quote::SpreadQuestion;
use mk_record::{Journal, Users};
use mk_semiring::{MinProd, SumProd};

/// The ratio of an edit: so many units for the target of its question, and so many for each other value.
pub fn ratio_of_edit(net: &Network, asked: &Question, units: (u64, u64)) -> Ratio
    requires legal { IsNetwork net.now }
    requires asked { IsQuestionOf net.now asked.now }
    requires hit { IsUnits (units.0) }
    requires miss { IsUnits (units.1) }
    ensures { trade_ratio result ≡ ratio_in net.now asked.now (units.0) (units.1) }
{
    let values = net.values(asked.target().variable);
    Ratio::of_question(asked, values, units.0, units.1)
}

/// The ratio of a spread: so many units for each value of its variable.
pub fn ratio_of_spread(asked: &SpreadQuestion, units: &[u64]) -> Ratio
    requires of_values { AreOfValues units.now }
    requires units { All IsUnits units.now }
    ensures { trade_ratio result ≡ spread_ratio (spread_in asked.now) units.now }
{
    let mut factors = ArrayVec::new();
    for one in units {
        factors.push(*one);
    }
    Ratio {
        variable: asked.variable,
        condition: asked.condition,
        factors,
    }
}

/// A user trades by a ratio, whose home this is. The engine of prices and the user's assets take
/// it, and the journal an entry.
pub fn trade<P: Engine<SumProd>, A: Engine<MinProd>>(
    prices: &mut P,
    users: &mut Users<A>,
    journal: &mut Journal,
    user: u32,
    home: u32,
    ratio: Ratio,
)
    requires { CanBeMade P.stands_for A.stands_for prices.old users.old journal.old user home
        (trade_ratio ratio) }
    ensures history { journal.new.history ≡ journal.old.history ++ Trade user (trade_ratio ratio) ∷ [] }
    ensures limits { TakesAsMuch journal.old journal.new }
    ensures prices { (m : Meaning) → P.stands_for prices.old m → P.stands_for prices.new (with_factor (RatioOf (trade_ratio ratio)) m) }
    ensures held { (network : List Variable) (tree : GivenTree) → AreHeld A.stands_for network tree journal.old.history users.old
        → AreHeld A.stands_for network tree (journal.old.history ++ Trade user (trade_ratio ratio) ∷ []) users.new }
    ensures names { names_of users.new ≡ names_of users.old }
    ensures apart { OwnApart user users.old users.new }
    ensures quotes { quotes_of users.new ≡ quotes_of users.old }
{
    prices.multiply(home, &ratio);
    users.assets(user).trade(home, &ratio);
    journal.trade(user, ratio);
}
