//! The market that a draft gives.

ghost use Rattle.std.specs.Prelude.{◌≡◌, ◌≢◌, None, Some, Ok, IfOk, IfErr};
ghost use Rattle.mk_file.specs.Below.{drafts_of, checked_network, first_fault, IsTreeOf};
ghost use Rattle.mk_file.specs.Below.{tree_fault};
ghost use Rattle.mk_file.specs.Counts.{counts_fault};
ghost use Rattle.mk_file.specs.Cliques.{given_tree};
ghost use Rattle.mk_file.specs.inner.Known.{trees_fault};
ghost use Rattle.mk_file.specs.File.{of_draft};
ghost use Rattle.mk_file.specs.inner.Views.{Gives, draft_of};
ghost use Rattle.mk_file.specs.MarketOf.{market_of};

use crate::cliques::{read_cliques, read_links};
use crate::counts::check_counts;
use crate::fault::FileFault;
use crate::market_file::MarketFile;
use crate::walk::MarketDraft;
use mk_net::Network;
use mk_tree::Tree;
use std::alloc::Global;

/// The tree of a draft over its checked network, or the first fault of its cliques, its links and its tree.
fn read_tree(alloc: Global, net: &Network, draft: &MarketDraft) -> Result<Tree, FileFault>
    requires counted { counts_fault (draft_of draft.now) ≡ None }
    requires checked { net.now ≡ checked_network (drafts_of draft.now.draft) }
    requires faultless { first_fault draft.now.draft.zeros (drafts_of draft.now.draft) ≡ None }
    ensures given { IfOk result (λ tree. tree ≡ given_tree (draft_of draft.now)) }
    ensures tree { IfOk result (λ tree. IsTreeOf net.now tree) }
    ensures passes { IfOk result (λ tree. tree_fault net.now tree ≡ None) }
    ensures whole { IfOk result (λ _. trees_fault (draft_of draft.now) ≡ None) }
    ensures fault { IfErr result (λ fault. fault ≢ FileFault.Memory → trees_fault (draft_of draft.now) ≡ Some fault) }
{
    let cliques = read_cliques(alloc, net, &draft.cliques)?;
    let links = read_links(alloc, &draft.links)?;
    Ok(Tree::from_cliques(alloc, net, &cliques, &links)?)
}

/// The market of a draft, or the draft's first fault.
pub fn accept(alloc: Global, draft: &MarketDraft) -> Result<MarketFile, FileFault>
    ensures market { Gives market_of result (of_draft (Ok (draft_of draft.now))) }
    ensures tree { IfOk result (λ file. IsTreeOf file.net file.tree) }
{
    check_counts(draft)?;
    let net = Network::check(alloc, &draft.draft)?;
    let tree = read_tree(alloc, &net, draft)?;
    Ok(MarketFile {
        net,
        tree,
        points_per_bit: draft.points_per_bit as u32,
        max_trades: draft.max_trades as u32,
        max_users: draft.max_users as u32,
        max_transfers: draft.max_transfers as u32,
        zeros: draft.draft.zeros,
    })
}
