//! The least that a user owns, whatever comes.
ghost use Rattle.std.specs.Prelude.{◌≡◌, ℕ, ◌≤◌, List, length, Some};
ghost use Rattle.mk_answers.specs.Below.{max_points_per_bit, sharpness, Variable, Covers, IsMost};
ghost use Rattle.mk_answers.specs.Below.{always, Fraction, HoldsNoTrade, IsAtLeastOne, factor_with};
ghost use Rattle.mk_answers.specs.Below.{least_gain, Entry, trades, IsSmall, GivenTree, Encloses};
ghost use Rattle.mk_answers.specs.Below.{HasPowersInRange, gains_of, Holding, Owns};
ghost use Rattle.mk_answers.specs.Open.{IsOpen, IsFactorFor, holding_of};
ghost use Rattle.mk_answers.specs.Calls.{CanFindWorst};
ghost use Rattle.mk_answers.specs.Evidence.{IsLeastFactorOf};

use crate::found::factor_of;
use mk_assets::Assets;
use mk_enclose::Factor;
use mk_engine::Engine;
use mk_net::Event;
use mk_semiring::MinProd;
use mk_tree::ROOT;

/// The least factor of a user over all possible states: of one who holds no trade the gain is one.
/// It leaves what the assets stand for as it was.
pub fn least_of<A: Engine<MinProd>>(assets: &mut Assets<A>) -> Factor
    requires { CanFindWorst A.stands_for assets.old }
    ensures kept { (h : Holding) → Owns A.stands_for assets.old h → Owns A.stands_for assets.new h }
    ensures least { (network : List Variable) (tree : GivenTree) (H : List Entry)
        (most_trades u g : ℕ) → Owns A.stands_for assets.old (holding_of network tree H u)
        → IsOpen network tree H → length (trades H) ≤ most_trades
        → least_gain network H u always ≡ Some g
        → IsFactorFor result most_trades (IsSmall network H) (factor_with H u g) }
    ensures idle { (network : List Variable) (tree : GivenTree) (H : List Entry) (u : ℕ)
        → Owns A.stands_for assets.old (holding_of network tree H u) → IsOpen network tree H
        → HoldsNoTrade H u → Encloses result.gain 1 }
    ensures range { (b : ℕ) → b ≤ max_points_per_bit → HasPowersInRange result b }
    ensures judged { (network : List Variable) (tree : GivenTree) (H : List Entry) (u most : ℕ)
        → Owns A.stands_for assets.old (holding_of network tree H u) → IsOpen network tree H
        → A.grade_of (gains_of network tree H u) ≤ most
        → IsLeastFactorOf most network H u always result }
{
    factor_of(assets.least(ROOT, &Event::empty()))
}

/// The most bits that can be taken from a factor of at least one: the greatest number in the small
/// case and where the gain is one. Else it may be one less where the factor is less than a part in
/// 2^43 - 1 above a whole power of two, or one in 2^40 - 1 in a market of more than 65,536 trades.
pub fn most_bits(factor: &Factor) -> u64
    ensures most { (network : List Variable) (H : List Entry) (most_trades : ℕ) (q : Fraction)
        → IsFactorFor factor.now most_trades (IsSmall network H) q → IsAtLeastOne q
        → IsMost (IsSmall network H) (Encloses factor.now.gain 1) (sharpness most_trades) q result }
    ensures covered { (network : List Variable) (H : List Entry) (most_trades : ℕ) (q : Fraction)
        (bits : ℕ) → IsFactorFor factor.now most_trades (IsSmall network H) q → IsAtLeastOne q
        → bits ≤ result → Covers q bits }
{
    factor.whole_bits()
}
