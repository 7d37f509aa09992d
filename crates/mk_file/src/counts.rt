//! The numbers of a market file.

ghost use Rattle.std.specs.Prelude.{◌≡◌, ◌<◌, ◌≤◌, ◌^◌, length, map, None, Some, IfOk, IfErr};
ghost use Rattle.mk_file.specs.Below.{texts_of, first_in};
ghost use Rattle.mk_file.specs.Counts as counts;
ghost use Rattle.mk_net.specs.Bounds.{max_cliques};
ghost use Rattle.mk_file.specs.inner.Views.{draft_of};

use crate::fault::FileFault;
use crate::walk::MarketDraft;
use mk_names::Key;
use mk_names::limits::{
    MAX_CLIQUES, MAX_MARKET_TRADES, MAX_POINTS_PER_BIT, MAX_TRANSFERS, MAX_USERS, MAX_VARIABLES,
};

/// The fault of a whole number that is not from 1 to a limit.
fn whole_fault(key: Key, high: u32, n: i64) -> Option<FileFault>
    ensures { result ≡ counts.whole_fault key 1 high n }
{
    match u32::try_from(n) {
        Ok(number) if 1 <= number && number <= high => None,
        _ => Some(FileFault::Count { key, place: 0, n }),
    }
}

/// The fault of a number of items that is not from 1 to `most`.
fn items_fault(key: Key, most: u32, place: u32, n: usize) -> Option<FileFault>
    requires { n < 2 ^ 63 }
    ensures { result ≡ counts.items_fault key 1 most place n }
{
    if n < 1 || n > most as usize {
        return Some(FileFault::Count {
            key,
            place,
            n: n as i64,
        });
    }
    None
}

/// The fault where there is not one link fewer than cliques.
fn links_fault(cliques: &[Vec<String>], links: &[i64]) -> Option<FileFault>
    ensures { result ≡ counts.links_fault (map texts_of cliques.now) links.now }
{
    if links.len() + 1 != cliques.len() {
        return Some(FileFault::Count {
            key: Key::Links,
            place: 0,
            n: links.len() as i64,
        });
    }
    None
}

/// The fault of the first clique that names no variable, or more than a network has.
fn names_fault(cliques: &[Vec<String>]) -> Option<FileFault>
    requires { length cliques.now ≤ max_cliques }
    ensures { result ≡ first_in counts.names_at 1 (map texts_of cliques.now) }
{
    let mut place = 0;
    'cliques: for names in cliques {
        place += 1;
        if let Some(fault) = items_fault(Key::Cliques, MAX_VARIABLES, place, names.len()) {
            return Some(fault);
        }
    }
    None
}

/// Goes on where there is no fault.
fn stop_at(fault: Option<FileFault>) -> Result<(), FileFault>
    ensures passes { IfOk result (λ _. fault ≡ None) }
    ensures stops { IfErr result (λ stop. fault ≡ Some stop) }
{
    match fault {
        Some(fault) => Err(fault),
        None => Ok(()),
    }
}

/// Goes on where each of the four whole numbers is within its limits.
fn check_wholes(draft: &MarketDraft) -> Result<(), FileFault>
    ensures passes { IfOk result (λ _. counts.wholes_fault (draft_of draft.now) ≡ None) }
    ensures stops { IfErr result (λ stop. counts.wholes_fault (draft_of draft.now) ≡ Some stop) }
{
    stop_at(whole_fault(Key::PointsPerBit, MAX_POINTS_PER_BIT, draft.points_per_bit))?;
    stop_at(whole_fault(Key::MaxTrades, MAX_MARKET_TRADES, draft.max_trades))?;
    stop_at(whole_fault(Key::MaxUsers, MAX_USERS, draft.max_users))?;
    stop_at(whole_fault(Key::MaxTransfers, MAX_TRANSFERS, draft.max_transfers))
}

/// Goes on where each number is within its limits: those of the top, then those of the variables, then those of the
/// cliques.
pub fn check_counts(draft: &MarketDraft) -> Result<(), FileFault>
    ensures passes { IfOk result (λ _. counts.counts_fault (draft_of draft.now) ≡ None) }
    ensures stops { IfErr result (λ stop. counts.counts_fault (draft_of draft.now) ≡ Some stop) }
{
    check_wholes(draft)?;
    stop_at(items_fault(Key::Variable, MAX_VARIABLES, 0, draft.draft.variables.len()))?;
    stop_at(items_fault(Key::Cliques, MAX_CLIQUES, 0, draft.cliques.len()))?;
    stop_at(links_fault(&draft.cliques, &draft.links))?;
    stop_at(draft.draft.count_fault().map(FileFault::from))?;
    stop_at(names_fault(&draft.cliques))
}
