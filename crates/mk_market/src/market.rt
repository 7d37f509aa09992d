//! The market in use.

use mk_cash::Ledger;
use mk_engine::Engine;
use mk_file::MarketFile;
use mk_names::Name;
use mk_net::Network;
use mk_record::{Journal, Users};
use mk_replay::Till;
use mk_reply::Payments;
use mk_semiring::{MinProd, SumProd};
use mk_tree::Tree;
use std::marker::Model;

/// A market in use: its file with what was added to it, an engine with the weights of all states and
/// one with their initial weights, the plan from which users' engines start, the users with their
/// assets and last quotes, the ledger of their points, the journal of accepted changes, and room for
/// the payments of the settlement: for those that its reply lists, and for one for each user.
///
/// What its answers are made of is open to a crate above that asks more (`mk_evidence`): whoever
/// writes to a part proves the market kept. A call that lends an engine could not, since it would
/// have to answer for whatever its caller leaves there.
#[derive(Drop)]
pub struct Market<P: Engine<SumProd>, A: Engine<MinProd>> {
    pub file: MarketFile,
    pub prices: P,
    pub rows: A,
    pub(crate) plan: A::Plan,
    pub users: Users<A>,
    pub(crate) ledger: Ledger,
    pub journal: Journal,
    pub(crate) payments: Option<Payments>,
    pub(crate) till: Option<Till>,
}

impl<P: Engine<SumProd>, A: Engine<MinProd>> Model for Market<P, A> {
    ghost use Rattle.mk_market.specs.Trading.{Trading};
    ghost use Rattle.mk_market.specs.inner.Keeping.{IsKept, standing_of};
    ghost use Rattle.mk_file.specs.MarketOf.{market_of};
    ghost use Rattle.mk_assets.specs.declared.assets.Assets.{Assets};
    ghost use Rattle.mk_record.specs.Members.{assets_of};

    ghost Value = { Trading (Assets A A.Plan) };

    ghost view = { λ m. record { market = market_of m.file; standing = standing_of m.journal m.users; accounts = m.ledger.accounts; assets = assets_of m.users } };

    ghost invariant = { λ m. IsKept P.stands_for A.stands_for A.plan_for m.file m.prices m.rows m.plan m.users m.ledger m.journal m.payments m.till };
}

impl<P: Engine<SumProd>, A: Engine<MinProd>> Market<P, A> {
    ghost use Rattle.std.specs.Prelude.{◌≡◌, ◌≤◌, ◌<◌, length, position, IfSome};
    ghost use Rattle.mk_net.specs.Bounds.{max_variables, max_points_per_bit};
    ghost use Rattle.mk_exact.specs.History.{additions, users};
    ghost use Rattle.mk_names.specs.Texts.{same_text};
    ghost use Rattle.mk_tree.specs.Checked.{IsTreeOf};
    ghost use Rattle.mk_restore.specs.Laws.{IsSafe};
    ghost use Rattle.mk_market.specs.Points.{AreAccounts};
    ghost use Rattle.mk_market.specs.Homes.{HaveHomes};

    /// How many variables the market has.
    pub fn variables(&self) -> u32
        ensures count { result ≡ length (self.now.market).network }
        ensures some { 1 ≤ result }
        ensures few { result ≤ max_variables }
    {
        self.file.net.variables()
    }

    /// The points of one bit.
    pub fn points_per_bit(&self) -> u32
        ensures points { result ≡ (self.now.market).points_per_bit }
        ensures some { 1 ≤ result }
        ensures few { result ≤ max_points_per_bit }
    {
        self.file.points_per_bit
    }

    /// The trades that the market takes.
    pub fn max_trades(&self) -> u32
        ensures { result ≡ (self.now.market).max_trades }
    {
        self.file.max_trades
    }

    /// How many questions were added since the opening.
    pub fn added(&self) -> u32
        ensures { result ≡ length (additions (self.now.standing).history) }
    {
        self.journal.added()
    }

    /// The accepted changes, in order. Whatever gave them, a market's safety rests on them.
    pub fn history(&self) -> &Journal
        ensures same { result.now.history ≡ (self.now.standing).history }
        ensures safe { IsSafe self.now.market (self.now.standing).history }
    {
        &self.journal
    }

    /// What each user deposited, withdrew and was paid.
    pub fn ledger(&self) -> &Ledger
        ensures same { result.now.accounts ≡ self.now.accounts }
        ensures accounts { AreAccounts self.now.market (self.now.standing).history result.now.accounts }
    {
        &self.ledger
    }

    /// The network of its variables, with those that were added behind the others.
    pub fn network(&self) -> &Network
        ensures { result.now ≡ (self.now.market).network }
    {
        &self.file.net
    }

    /// The tree of its cliques, with those that were added behind the others. A clique holds the
    /// variables of each trade together.
    #[tactic(auto, using(crate::proofs::Homes::safe_has_homes))]
    pub fn tree(&self) -> &Tree
        ensures tree { IsTreeOf (self.now.market).network result.now }
        ensures homes { HaveHomes result.now (self.now.standing).history }
    {
        &self.file.tree
    }

    /// The number of the user of a name, from 0 in the order of joining. None exactly where nobody
    /// who joined has it.
    pub fn user_number(&self, name: &Name) -> Option<u32>
        ensures place { result ≡ position (same_text name.now) (users (self.now.standing).history) }
        ensures joined { IfSome result (λ user. user < length (users (self.now.standing).history)) }
    {
        self.users.find(name)
    }
}
