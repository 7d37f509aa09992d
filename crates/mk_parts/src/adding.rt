//! The parts of a market with a question more.

ghost use Rattle.std.specs.Prelude.{◌≡◌, ◌≤◌, ℕ, length, IfOk};
ghost use Rattle.mk_parts.specs.Below.{GivenTree, IsTreeOf, weights_of, addition_of, IsPlaced};
ghost use Rattle.mk_parts.specs.Below.{longer_network};
ghost use Rattle.mk_rules.specs.Additions as rules;
ghost use Rattle.mk_parts.specs.Adding.{CanFollow, CanRegrow, IsLonger, AreRegrown};

use mk_addition::AddText;
use mk_admission::{added_question, clique_set};
use mk_assets::Assets;
use mk_engine::Engine;
use mk_file::MarketFile;
use mk_history::AddedQuestion;
use mk_names::limits::{MAX_CLIQUES, MAX_VARIABLES};
use mk_net::NoMemory;
use mk_record::Journal;
use mk_replay::{assets_of_each, engine_after, rows_after};
use mk_semiring::{MinProd, SumProd};
use std::alloc::Global;

/// What a market becomes by one question more: its file, the engines over the longer network and
/// tree, the plan of users' engines, each user's assets, and the question as the journal keeps it.
#[derive(Drop)]
pub struct Regrown<P: Engine<SumProd>, A: Engine<MinProd>> {
    pub file: MarketFile,
    pub prices: P,
    pub rows: A,
    pub plan: A::Plan,
    pub assets: Vec<Assets<A>>,
    pub question: Box<AddedQuestion>,
}

/// The most cliques of a tree: those of a file, and one for each question that is added.
const MAX_TREE_CLIQUES: u32 = MAX_CLIQUES + MAX_VARIABLES - 1;

/// The parts of a market with a question that nothing refuses: engines, and each user's assets, are
/// made anew of the journal's entries. It takes all memory that the question needs.
pub fn parts_with<P: Engine<SumProd>, A: Engine<MinProd>>(
    alloc: Global,
    file: &MarketFile,
    journal: &Journal,
    joined: u32,
    add: &AddText,
) -> Result<Regrown<P, A>, NoMemory>
    requires can { CanRegrow file.now journal.now joined add.now }
    requires prices { (tree : GivenTree) → IsTreeOf (longer_network file.now.net add.now) tree
        → P.suits (longer_network file.now.net add.now) tree }
    requires assets { (tree : GivenTree) → IsTreeOf (longer_network file.now.net add.now) tree
        → A.suits (longer_network file.now.net add.now) tree }
    ensures { IfOk result (λ parts. AreRegrown P.stands_for A.stands_for A.plan_for file.now
        journal.now.history (rules.addition_of file.now.net add.now) parts) }
{
    let question = Box::new(alloc, added_question(&file.net, add))?;
    let file = longer_file(alloc, file, &question)?;
    let prices = priced::<P>(alloc, &file, journal)?;
    let plan = A::plan(alloc, &file.net, &file.tree)?;
    let known = journal.known();
    let rows = rows_after::<MinProd, A>(alloc, &file.net, &file.tree, &plan, known)?;
    let assets = assets_of_each::<A>(alloc, &file.net, &file.tree, &plan, journal, joined)?;
    Ok(Regrown {
        file,
        prices,
        rows,
        plan,
        assets,
        question,
    })
}

/// The file of a market with a question behind all others, and its clique behind all cliques. No
/// file that is read has so many cliques that there is no room.
fn longer_file(
    alloc: Global,
    file: &MarketFile,
    question: &AddedQuestion,
) -> Result<MarketFile, NoMemory>
    requires { CanFollow file.now (addition_of question.now) }
    ensures { IfOk result (λ longer. IsLonger file.now (addition_of question.now) longer) }
{
    if file.tree.cliques() >= MAX_TREE_CLIQUES {
        return Err(NoMemory);
    }
    let net = file.net.extended(alloc, &question.addition)?;
    let clique = clique_set(question.clique.as_slice());
    let tree = file.tree.with_clique(alloc, &net, &clique, question.link)?;
    Ok(MarketFile {
        net,
        tree,
        points_per_bit: file.points_per_bit,
        max_trades: file.max_trades,
        max_users: file.max_users,
        max_transfers: file.max_transfers,
        zeros: file.zeros,
    })
}

/// The engine of prices behind a journal's entries.
fn priced<P: Engine<SumProd>>(
    alloc: Global,
    file: &MarketFile,
    journal: &Journal,
) -> Result<P, NoMemory>
    requires tree { IsTreeOf file.now.net file.now.tree }
    requires suits { P.suits file.now.net file.now.tree }
    requires placed { IsPlaced file.now.net file.now.tree journal.now.history }
    ensures { IfOk result (λ prices. P.stands_for prices
        (weights_of file.now.net file.now.tree journal.now.history)) }
{
    let plan = P::plan(alloc, &file.net, &file.tree)?;
    engine_after::<SumProd, P>(alloc, &file.net, &file.tree, &plan, journal)
}
