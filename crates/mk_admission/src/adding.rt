//! Added questions in words, and what they are in the numbers of a network.

ghost use Rattle.std.specs.Prelude.{◌≡◌, ℕ, ◌<◌, ◌==◌, true, None, length, All};
ghost use Rattle.mk_admission.specs.Below.{list_any, is_member, max_variables, members};
ghost use Rattle.mk_admission.specs.Below.{addition_of};
ghost use Rattle.mk_rules.specs.Additions as rules;

use arrayvec::ArrayVec;
use mk_addition::AddText;
use mk_history::AddedQuestion;
use mk_names::Name;
use mk_net::{Addition, Network};
use mk_sets::VarSet;

/// What a question adds to a network, where no variable has its name and its clique holds it.
pub fn added_question(net: &Network, add: &AddText) -> AddedQuestion
    requires untaken { rules.taken net.now add.now.variable ≡ None }
    requires covered { rules.is_among add.now.clique.items add.now.variable ≡ true }
    ensures { addition_of result ≡ rules.addition_of net.now add.now }
{
    AddedQuestion {
        addition: Addition {
            variable: add.variable,
            values: ArrayVec::try_from(add.values.as_slice()).unwrap(),
            parents: numbers(net, &add.parents),
            rows: ArrayVec::try_from(add.rows.as_slice()).unwrap(),
        },
        clique: clique(net, add),
        link: add.link,
    }
}

/// The clique of a question: the other variables in rising order, and then the added one.
fn clique(net: &Network, add: &AddText) -> ArrayVec<u32, 13>
    requires untaken { rules.taken net.now add.now.variable ≡ None }
    requires covered { rules.is_among add.now.clique.items add.now.variable ≡ true }
    ensures { result.items ≡ rules.added_clique net.now add.now }
{
    // The call says that the clique has at most thirteen names.
    let _ = add.clique.len();
    let others = shared(net, add);
    let mut clique = in_order(net, &others);
    clique.push(net.variables());
    clique
}

/// The set of the variables that its clique names, and that the network knows.
pub(crate) fn shared(net: &Network, add: &AddText) -> VarSet
    ensures { (x : ℕ) → is_member result x
        ≡ list_any (λ v. v == x) (rules.numbers_named net.now add.now.clique.items) }
{
    // The call says that this is a network.
    let _ = net.variables();
    let named = numbers(net, &add.clique);
    clique_set(named.as_slice())
}

/// The variables of a set in rising order.
fn in_order(net: &Network, set: &VarSet) -> ArrayVec<u32, 13>
    requires { length (members net.now set.now) < 13 }
    ensures { result.items ≡ members net.now set.now }
{
    let mut variables = ArrayVec::new();
    for variable in 0..net.variables() {
        if set.has(variable) {
            variables.push(variable);
        }
    }
    variables
}

/// The set of some variables.
pub fn clique_set(clique: &[u32]) -> VarSet
    requires { All (λ v. v < max_variables) clique.now }
    ensures { (x : ℕ) → is_member result x ≡ list_any (λ v. v == x) clique.now }
{
    let mut set = VarSet::empty();
    for variable in clique {
        set = set.with(*variable);
    }
    set
}

/// The numbers of those of some names that the network knows, in the same order.
pub(crate) fn numbers<const N: usize>(net: &Network, names: &ArrayVec<Name, N>) -> ArrayVec<u32, N>
    ensures { result.items ≡ rules.numbers_named net.now names.now.items }
{
    let mut numbers = ArrayVec::new();
    for name in names.as_slice() {
        if let Some(number) = net.find_variable(name) {
            numbers.push(number);
        }
    }
    numbers
}
