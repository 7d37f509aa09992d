//! The market file of the sample, written at the end of a text.

ghost use Rattle.std.specs.Prelude.{◌≡◌, ℕ, ◌-◌, ◌<◌, ◌≤◌, ◌++◌, OnOk};
ghost use Rattle.mk_net.specs.Bounds.{max_variables};
ghost use Rattle.mk_make.specs.Sample.{clique_of, cliques_line, links_line, file_head, dependence_lines, variable_part, sample_file};

use crate::words::{put_comma, put_number, put_quoted, put_text};
use mk_net::NoMemory;

/// Writes the file of a market of `n` variables.
#[tactic(auto, using(crate::proofs::GrowingLemmas::lines_more), unfolding(crate::specs::Sample::sample_file))]
pub fn put_file(out: &mut Vec<u8>, n: u32) -> Result<(), NoMemory>
    requires least { 2 ≤ n }
    requires most { n ≤ max_variables }
    ensures { OnOk result (out.new.items ≡ out.old.items ++ sample_file n) }
{
    put_head(out, n)?;
    for variable in 1..n + 1 {
        put_part(out, variable)?;
    }
    Ok(())
}

#[tactic(auto, unfolding(crate::specs::Sample::file_head))]
fn put_head(out: &mut Vec<u8>, n: u32) -> Result<(), NoMemory>
    requires least { 2 ≤ n }
    requires most { n ≤ max_variables }
    ensures { OnOk result (out.new.items ≡ out.old.items ++ file_head n) }
{
    put_text(out, "points_per_bit = 100\nmax_trades = 1000\n")?;
    put_cliques(out, n)?;
    put_links(out, n)
}

#[tactic(auto, using(crate::proofs::GrowingLemmas::items_more), unfolding(crate::specs::Sample::cliques_line))]
fn put_cliques(out: &mut Vec<u8>, n: u32) -> Result<(), NoMemory>
    requires least { 2 ≤ n }
    requires most { n ≤ max_variables }
    ensures { OnOk result (out.new.items ≡ out.old.items ++ cliques_line n) }
{
    put_text(out, "cliques = [")?;
    for variable in 1..n {
        put_comma(out, variable)?;
        put_clique(out, variable)?;
    }
    put_text(out, "]\n")
}

#[tactic(auto, unfolding(crate::specs::Sample::clique_of))]
fn put_clique(out: &mut Vec<u8>, variable: u32) -> Result<(), NoMemory>
    requires { variable < max_variables }
    ensures { OnOk result (out.new.items ≡ out.old.items ++ clique_of variable) }
{
    put_text(out, "[")?;
    put_quoted(out, variable)?;
    put_text(out, ", ")?;
    put_quoted(out, variable + 1)?;
    put_text(out, "]")
}

#[tactic(auto, using(crate::proofs::GrowingLemmas::items_more), unfolding(crate::specs::Sample::links_line))]
fn put_links(out: &mut Vec<u8>, n: u32) -> Result<(), NoMemory>
    requires { 2 ≤ n }
    ensures { OnOk result (out.new.items ≡ out.old.items ++ links_line n) }
{
    put_text(out, "links = [")?;
    for clique in 1..n - 1 {
        put_comma(out, clique)?;
        put_number(out, clique)?;
    }
    put_text(out, "]\n")
}

#[tactic(auto, unfolding(crate::specs::Sample::variable_part))]
fn put_part(out: &mut Vec<u8>, variable: u32) -> Result<(), NoMemory>
    requires { 1 ≤ variable }
    ensures { OnOk result (out.new.items ≡ out.old.items ++ variable_part variable) }
{
    put_text(out, "\n[[variable]]\nname = ")?;
    put_quoted(out, variable)?;
    put_text(out, "\nvalues = [\"no\", \"yes\"]\n")?;
    put_dependence(out, variable)
}

#[tactic(auto, unfolding(crate::specs::Sample::dependence_lines))]
fn put_dependence(out: &mut Vec<u8>, variable: u32) -> Result<(), NoMemory>
    requires { 1 ≤ variable }
    ensures { OnOk result (out.new.items ≡ out.old.items ++ dependence_lines variable) }
{
    if variable == 1 {
        put_text(out, "parents = []\nrows = [[400000, 600000]]\n")
    } else {
        put_text(out, "parents = [")?;
        put_quoted(out, variable - 1)?;
        put_text(out, "]\nrows = [[700000, 300000], [200000, 800000]]\n")
    }
}
