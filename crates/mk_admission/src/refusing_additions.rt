//! What `add` is refused for, first to last.

ghost use Rattle.std.specs.Prelude.{◌≡◌, ◌*◌, ◌<◌, ◌≤◌, ◌&&◌, [], ◌∷◌, length, not};
ghost use Rattle.std.specs.Prelude.{is_none, None, IfSome, position};
ghost use Rattle.mk_admission.specs.Below.{max_values, max_clique_cells, first_of, variable_named};
ghost use Rattle.mk_admission.specs.Below.{sizes, choices, same_text, IsTreeOf, members, market_of};
ghost use Rattle.mk_admission.specs.Below.{refusal_in};
ghost use Rattle.mk_command.specs.declared.command.Command.TheVariants as command;
ghost use Rattle.mk_rules.specs.Refusals as rules;
ghost use Rattle.mk_rules.specs.Additions as additions;
ghost use Rattle.mk_admission.specs.inner.Placed.{IsPlacedIn};

use crate::adding::shared;
use crate::refusing_rows::has_rows;
use mk_addition::AddText;
use mk_file::MarketFile;
use mk_names::Name;
use mk_names::limits::{MAX_CELLS, MAX_CLIQUE_CELLS, MAX_VARIABLES};
use mk_net::Network;
use mk_record::{Journal, not_settled, refuse_if};
use mk_reply::Refusal;
use mk_sets::VarSet;
use mk_tree::clique_cells;

/// What `add` is refused for: a settlement; as many variables as a market holds; a name that is
/// taken, a value that occurs twice, a name that nothing has, a name that occurs twice; a clique
/// that is linked to none, or holds too little or what the other does not; rows of another number
/// or width, their numbers and sums; and too many cells.
pub fn refuse_add(file: &MarketFile, journal: &Journal, add: &AddText) -> Result<(), Refusal>
    requires tree { IsTreeOf file.now.net file.now.tree }
    ensures refusal { refusal_in result ≡ rules.first_refusal (market_of file.now)
        journal.now.history (command.Add add.now) }
{
    not_settled(journal)?;
    can_be_named(&file.net, add)?;
    can_be_placed(file, add)?;
    has_rows(file, add)?;
    has_few_cells(file, add)
}

/// The added variable is to have a place and a name of its own, and what it names is to be known,
/// each once.
fn can_be_named(net: &Network, add: &AddText) -> Result<(), Refusal>
    ensures { refusal_in result ≡ first_of (additions.variables_full net.now
        ∷ additions.taken net.now add.now.variable ∷ rules.value_twice add.now.values.items
        ∷ additions.nobody_named net.now [] add.now.parents.items
        ∷ additions.nobody_named net.now (add.now.variable ∷ []) add.now.clique.items
        ∷ rules.twice add.now.parents.items ∷ rules.twice add.now.clique.items ∷ []) }
{
    let (parents, clique) = (add.parents.as_slice(), add.clique.as_slice());
    let own = [add.variable];
    refuse_if(
        net.variables() >= MAX_VARIABLES,
        Refusal::Variables {
            held: MAX_VARIABLES,
        },
    )?;
    not_taken(net, &add.variable)?;
    no_value_twice(add.values.as_slice())?;
    all_named(net, &[], parents)?;
    all_named(net, &own, clique)?;
    no_name_twice(parents)?;
    no_name_twice(clique)
}

fn not_taken(net: &Network, name: &Name) -> Result<(), Refusal>
    ensures { refusal_in result ≡ additions.taken net.now name.now }
{
    refuse_if(
        net.find_variable(name).is_some(),
        Refusal::Taken { variable: *name },
    )
}

fn no_value_twice(values: &[Name]) -> Result<(), Refusal>
    ensures { refusal_in result ≡ rules.value_twice values.now }
{
    match first_repeat(values) {
        Some(value) => Err(Refusal::ValueTwice { value }),
        None => Ok(()),
    }
}

fn no_name_twice(names: &[Name]) -> Result<(), Refusal>
    ensures { refusal_in result ≡ rules.twice names.now }
{
    match first_repeat(names) {
        Some(variable) => Err(Refusal::Twice { variable }),
        None => Ok(()),
    }
}

/// The first name that stands a second time.
fn first_repeat(names: &[Name]) -> Option<Name>
    ensures { result ≡ rules.first_repeat [] names.now }
{
    for place in 0..names.len() {
        if is_among(&names[..place], &names[place]) {
            return Some(names[place]);
        }
    }
    None
}

/// Each name is to be a variable's, or one of those besides.
fn all_named(net: &Network, besides: &[Name], names: &[Name]) -> Result<(), Refusal>
    ensures { refusal_in result ≡ additions.nobody_named net.now besides.now names.now }
{
    match first_unnamed(net, besides, names) {
        Some(place) => Err(Refusal::NoVariable {
            variable: names[place],
        }),
        None => Ok(()),
    }
}

/// The place of the first name that no variable has, and that is none of those besides.
fn first_unnamed(net: &Network, besides: &[Name], names: &[Name]) -> Option<usize>
    ensures first { result ≡ position (λ name. is_none (variable_named net.now name)
        && not (additions.is_among besides.now name)) names.now }
    ensures within { IfSome result (λ place. place < length names.now) }
{
    names
        .iter()
        .position(|name| is_unknown(net, name) && !is_among(besides, name))
}

fn is_unknown(net: &Network, name: &Name) -> bool
    ensures { result ≡ is_none (variable_named net.now name.now) }
{
    net.find_variable(name).is_none()
}

fn is_among(names: &[Name], name: &Name) -> bool
    ensures { result ≡ additions.is_among names.now name.now }
{
    names.iter().any(|other| name == other)
}

/// Its clique is to be linked to one that there is, to hold the variable and its parents, and
/// nothing else that the other does not hold.
fn can_be_placed(file: &MarketFile, add: &AddText) -> Result<(), Refusal>
    ensures { refusal_in result ≡ first_of (additions.no_link (market_of file.now).cliques
        add.now.link ∷ additions.uncovered add.now
        ∷ additions.not_running (market_of file.now) add.now ∷ []) }
{
    let link = add.link;
    refuse_if(
        link < 1 || link > file.tree.cliques(),
        Refusal::Link { number: link },
    )?;
    is_covered(add)?;
    is_running(file, add)
}

/// The clique is to hold the variable and its parents.
fn is_covered(add: &AddText) -> Result<(), Refusal>
    ensures { refusal_in result ≡ additions.uncovered add.now }
{
    let (clique, parents) = (add.clique.as_slice(), add.parents.as_slice());
    if !is_among(clique, &add.variable) {
        return Err(Refusal::Uncovered {
            variable: add.variable,
        });
    }
    match first_missing(clique, parents) {
        Some(place) => Err(Refusal::Uncovered {
            variable: parents[place],
        }),
        None => Ok(()),
    }
}

/// The place of the first name that is none of the others.
fn first_missing(others: &[Name], names: &[Name]) -> Option<usize>
    ensures first { result ≡ position (λ name. not (additions.is_among others.now name)) names.now }
    ensures within { IfSome result (λ place. place < length names.now) }
{
    names.iter().position(|name| !is_among(others, name))
}

/// The linked clique is to hold each other variable of its clique.
fn is_running(file: &MarketFile, add: &AddText) -> Result<(), Refusal>
    requires first { 1 ≤ add.now.link }
    requires last { add.now.link ≤ length file.now.tree.cliques }
    ensures { refusal_in result ≡ additions.not_running (market_of file.now) add.now }
{
    let names = add.clique.as_slice();
    let linked = file.tree.clique(add.link);
    match first_outside(&file.net, &linked, &add.variable, names) {
        Some(place) => Err(Refusal::NotRunning {
            variable: names[place],
        }),
        None => Ok(()),
    }
}

/// The place of the first name but one whose variable is not in a set.
fn first_outside(net: &Network, set: &VarSet, own: &Name, names: &[Name]) -> Option<usize>
    ensures first { result ≡ position (λ name. not (same_text name own.now)
        && not (additions.holds_named net.now (members net.now set.now) name)) names.now }
    ensures within { IfSome result (λ place. place < length names.now) }
{
    names
        .iter()
        .position(|name| name != own && !holds(net, set, name))
}

/// Whether the variable of a name is in a set.
fn holds(net: &Network, set: &VarSet, name: &Name) -> bool
    ensures { result ≡ additions.holds_named net.now (members net.now set.now) name.now }
{
    match net.find_variable(name) {
        Some(number) => set.has(number),
        None => false,
    }
}

/// Its clique is to have few cells, and all cliques together.
fn has_few_cells(file: &MarketFile, add: &AddText) -> Result<(), Refusal>
    requires tree { IsTreeOf file.now.net file.now.tree }
    requires placed { IsPlacedIn (market_of file.now) add.now }
    ensures { refusal_in result ≡ additions.too_large (market_of file.now) add.now }
{
    let own = own_cells(file, add);
    let total = file.tree.cells(&file.net) + own;
    refuse_if(
        total > MAX_CELLS || own > MAX_CLIQUE_CELLS,
        Refusal::Cells { total },
    )
}

/// How many cells its clique has. The other variables have no more than the linked clique.
fn own_cells(file: &MarketFile, add: &AddText) -> u32
    requires tree { IsTreeOf file.now.net file.now.tree }
    requires placed { IsPlacedIn (market_of file.now) add.now }
    ensures cells { result ≡ choices (sizes (additions.longer_network file.now.net add.now))
        (additions.added_clique file.now.net add.now) }
    ensures few { result ≤ max_clique_cells * max_values }
{
    // The call says that this is a network.
    let _ = file.net.variables();
    let others = shared(&file.net, add);
    let cells = clique_cells(&file.net, &others).unwrap();
    cells * add.values.len() as u32
}
