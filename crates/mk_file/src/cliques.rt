//! The cliques and links of a market file.

ghost use Rattle.std.specs.Prelude.{◌≡◌, ◌≢◌, ◌-◌, ◌<◌, ◌≤◌, length, map, position, nat_abs, string_bytes, All, None, Some, IfSome, IfErr, IfOk, not, is_none};
ghost use Rattle.mk_net.specs.Bounds.{max_cliques};
ghost use Rattle.mk_file.specs.Below.{IsName, same_text, texts_of, first_in};
ghost use Rattle.mk_file.specs.Counts.{is_whole_within};
ghost use Rattle.mk_file.specs.Cliques.{link_at};
ghost use Rattle.mk_file.specs.inner.Known.{is_bad_clique, clique_in, set_in, IsSetOf};

use crate::fault::FileFault;
use mk_names::Name;
use mk_net::Network;
use mk_sets::VarSet;
use std::alloc::Global;

/// The number of the variable of a name. None exactly where it is unknown.
fn number_of(net: &Network, name: &str) -> Option<u32>
    requires { All (λ v. IsName v.name) net.now }
    ensures first { result ≡ position (λ v. same_text name.now v.name) net.now }
    ensures within { IfSome result (λ number. number < length net.now) }
{
    let name = Name::read(name.as_bytes())?;
    net.find_variable(&name)
}

/// The variables that a clique names. None exactly where a name is unknown, or stands twice.
fn read_clique(net: &Network, names: &[String]) -> Option<VarSet>
    requires { All (λ v. IsName v.name) net.now }
    ensures none { is_none result ≡ is_bad_clique net.now (map (λ s. string_bytes s) names.now) }
    ensures set { IfSome result (λ set. set ≡ set_in net.now (map (λ s. string_bytes s) names.now)) }
    ensures within { IfSome result (λ set. IsSetOf net.now set) }
{
    // The call says that a network has at most 256 variables, which is what a set can hold.
    let _ = net.variables();
    let mut set = VarSet::empty();
    'names: for name in names {
        let number = number_of(net, name.as_str())?;
        if set.has(number) {
            return None;
        }
        set = set.with(number);
    }
    Some(set)
}

/// The variables of each clique, or the fault of the first that has an unknown name, or one twice.
pub fn read_cliques(
    alloc: Global,
    net: &Network,
    cliques: &[Vec<String>],
) -> Result<Vec<VarSet>, FileFault>
    requires names { All (λ v. IsName v.name) net.now }
    requires few { length cliques.now ≤ max_cliques }
    ensures faultless { IfOk result (λ _. first_in (clique_in net.now) 1 (map texts_of cliques.now) ≡ None) }
    ensures sets { IfOk result (λ read. read.items ≡ map (set_in net.now) (map texts_of cliques.now)) }
    ensures within { IfOk result (λ read. All (λ set. IsSetOf net.now set) read.items) }
    ensures fault { IfErr result (λ fault. fault ≢ FileFault.Memory → first_in (clique_in net.now) 1 (map texts_of cliques.now) ≡ Some fault) }
{
    let mut read = Vec::new(alloc);
    let mut clique = 0;
    'cliques: for names in cliques {
        clique += 1;
        match read_clique(net, names) {
            Some(set) => read.push(set)?,
            None => return Err(FileFault::Clique { clique }),
        }
    }
    Ok(read)
}

/// A link of a clique to an earlier one. None exactly where there is no such clique.
fn read_link(clique: u32, link: i64) -> Option<u32>
    ensures none { is_none result ≡ not (is_whole_within 1 (clique - 1) link) }
    ensures some { IfSome result (λ earlier. earlier ≡ nat_abs link) }
{
    match u32::try_from(link) {
        Ok(link) if 1 <= link && link < clique => Some(link),
        _ => None,
    }
}

/// The links, or the fault of the first that does not lead to an earlier clique.
pub fn read_links(alloc: Global, links: &[i64]) -> Result<Vec<u32>, FileFault>
    requires { length links.now < max_cliques }
    ensures faultless { IfOk result (λ _. first_in link_at 2 links.now ≡ None) }
    ensures links { IfOk result (λ read. read.items ≡ map nat_abs links.now) }
    ensures fault { IfErr result (λ fault. fault ≢ FileFault.Memory → first_in link_at 2 links.now ≡ Some fault) }
{
    let mut read = Vec::new(alloc);
    let mut clique = 1;
    'links: for link in links {
        clique += 1;
        match read_link(clique, *link) {
            Some(link) => read.push(link)?,
            None => return Err(FileFault::Link { clique }),
        }
    }
    Ok(read)
}
