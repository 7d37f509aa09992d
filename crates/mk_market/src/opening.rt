//! The opening of a market.

use crate::market::Market;
use mk_cash::Ledger;
use mk_engine::Engine;
use mk_file::MarketFile;
use mk_history::Limits;
use mk_net::NoMemory;
use mk_parts::weighed;
use mk_record::{Journal, Users};
use mk_replay::Till;
use mk_reply::Payments;
use mk_semiring::{MinProd, SumProd};
use std::alloc::Global;

impl<P: Engine<SumProd>, A: Engine<MinProd>> Market<P, A> {
    ghost use Rattle.std.specs.Prelude.{◌≡◌, [], IfOk};
    ghost use Rattle.mk_tree.specs.Checked.{IsTreeOf};
    ghost use Rattle.mk_file.specs.MarketOf.{market_of};
    ghost use Rattle.mk_rules.specs.Standings.{IsMarket};
    ghost use Rattle.mk_rules.specs.Transcript.{opening};

    /// The market of a file, before any command. All memory but that of a user and of an added
    /// question is taken here.
    pub fn start(alloc: Global, file: MarketFile) -> Result<Market<P, A>, NoMemory>
        requires tree { IsTreeOf file.net file.tree }
        requires prices { P.suits file.net file.tree }
        requires assets { A.suits file.net file.tree }
        ensures opened { IfOk result (λ market. market ≡ record
            { market = market_of file; standing = opening; accounts = []; assets = [] }) }
        ensures is_market { IfOk result (λ _. IsMarket (market_of file)) }
    {
        let prices = P::plan(alloc, &file.net, &file.tree)?;
        let assets = A::plan(alloc, &file.net, &file.tree)?;
        Self::with_plans(alloc, file, &prices, assets)
    }

    /// The same over plans that are there: that of the engine of all weights, and that from which users' engines start. Where both
    /// engines have one kind of plan, one is enough.
    pub fn with_plans(
        alloc: Global,
        file: MarketFile,
        prices: &P::Plan,
        assets: A::Plan,
    ) -> Result<Market<P, A>, NoMemory>
        requires tree { IsTreeOf file.net file.tree }
        requires prices { P.plan_for prices.now file.net file.tree }
        requires assets { A.plan_for assets file.net file.tree }
        ensures opened { IfOk result (λ market. market ≡ record
            { market = market_of file; standing = opening; accounts = []; assets = [] }) }
        ensures is_market { IfOk result (λ _. IsMarket (market_of file)) }
    {
        let prices = weighed::<SumProd, P>(alloc, &file, prices)?;
        let rows = weighed::<MinProd, A>(alloc, &file, &assets)?;
        let ledger = Ledger::start(alloc, file.max_users)?;
        let limits = Limits {
            trades: file.max_trades,
            users: file.max_users,
            transfers: file.max_transfers,
        };
        let journal = Journal::start(alloc, limits)?;
        let payments = Payments::start(alloc)?;
        let till = Till::start(alloc, file.max_users)?;
        Ok(Market {
            file,
            prices,
            rows,
            plan: assets,
            users: Users::none(alloc),
            ledger,
            journal,
            payments: Some(payments),
            till: Some(till),
        })
    }
}
