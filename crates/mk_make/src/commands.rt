//! The commands of the sample, written at the end of a text.

ghost use Rattle.std.specs.Prelude.{◌≡◌, ◌≤◌, ◌++◌, OnOk};
ghost use Rattle.std.specs.List.{flat_map};
ghost use Rattle.mk_net.specs.Bounds.{max_variables};
ghost use Rattle.mk_make.specs.Lines.{numbers_to};
ghost use Rattle.mk_make.specs.Sample.{join_line, deposit_line, question_of, edit_line, resolve_line, sample_commands};
ghost use Rattle.mk_make.specs.inner.Kinds.{HasVariables, line_text};

use crate::words::{put_number, put_pair, put_text, put_user, value_at};
use mk_net::NoMemory;

/// How many users there are.
const USERS: u32 = 8;

/// The lines of which there is one for each number from 1 on.
#[derive(Clone, Copy)]
enum Line {
    Join,
    Deposit,
    Edit { variables: u32 },
    Resolution,
}

/// Writes the commands to a market of `n` variables.
#[tactic(auto, unfolding(crate::specs::Sample::sample_commands))]
pub fn put_commands(out: &mut Vec<u8>, n: u32) -> Result<(), NoMemory>
    requires least { 2 ≤ n }
    requires most { n ≤ max_variables }
    ensures { OnOk result (out.new.items ≡ out.old.items ++ sample_commands n) }
{
    put_lines(out, Line::Join, USERS)?;
    put_lines(out, Line::Deposit, USERS)?;
    put_lines(out, Line::Edit { variables: n }, 5 * n / 2)?;
    put_lines(out, Line::Resolution, n)?;
    put_text(out, "settle\n")
}

/// Writes a line for each number from 1 to `count`.
#[tactic(auto, using(crate::proofs::GrowingLemmas::lines_more))]
fn put_lines(out: &mut Vec<u8>, line: Line, count: u32) -> Result<(), NoMemory>
    requires some { HasVariables line }
    requires most { count ≤ 640 }
    ensures { OnOk result (out.new.items ≡ out.old.items ++ flat_map (line_text line) (numbers_to count)) }
{
    for number in 1..count + 1 {
        put_line(out, line, number)?;
    }
    Ok(())
}

fn put_line(out: &mut Vec<u8>, line: Line, number: u32) -> Result<(), NoMemory>
    requires some { HasVariables line }
    requires first { 1 ≤ number }
    requires last { number ≤ 640 }
    ensures { OnOk result (out.new.items ≡ out.old.items ++ line_text line number) }
{
    match line {
        Line::Join => put_join(out, number),
        Line::Deposit => put_deposit(out, number),
        Line::Edit { variables } => put_edit(out, variables, number),
        Line::Resolution => put_resolution(out, number),
    }
}

#[tactic(auto, unfolding(crate::specs::Sample::join_line))]
fn put_join(out: &mut Vec<u8>, user: u32) -> Result<(), NoMemory>
    ensures { OnOk result (out.new.items ≡ out.old.items ++ join_line user) }
{
    put_text(out, "user ")?;
    put_user(out, user)?;
    put_text(out, "\n")
}

#[tactic(auto, unfolding(crate::specs::Sample::deposit_line))]
fn put_deposit(out: &mut Vec<u8>, user: u32) -> Result<(), NoMemory>
    ensures { OnOk result (out.new.items ≡ out.old.items ++ deposit_line user) }
{
    put_text(out, "deposit ")?;
    put_user(out, user)?;
    put_text(out, " 200\n")
}

#[tactic(auto, unfolding(crate::specs::Sample::edit_line))]
fn put_edit(out: &mut Vec<u8>, n: u32, number: u32) -> Result<(), NoMemory>
    requires some { 1 ≤ n }
    requires first { 1 ≤ number }
    requires last { number ≤ 640 }
    ensures { OnOk result (out.new.items ≡ out.old.items ++ edit_line n number) }
{
    put_text(out, "edit ")?;
    put_user(out, (number - 1) % USERS + 1)?;
    put_text(out, " ")?;
    put_question(out, 7 * number % n + 1, number)?;
    put_text(out, " to ")?;
    put_number(out, 200_000 + 37_123 * number % 600_001)?;
    put_text(out, "\n")
}

#[tactic(auto, unfolding(crate::specs::Sample::question_of))]
fn put_question(out: &mut Vec<u8>, variable: u32, number: u32) -> Result<(), NoMemory>
    requires { 1 ≤ variable }
    ensures { OnOk result (out.new.items ≡ out.old.items ++ question_of variable number) }
{
    if variable == 1 {
        put_pair(out, variable, "yes")
    } else {
        put_pair(out, variable, "yes")?;
        put_text(out, " | ")?;
        put_pair(out, variable - 1, value_at(number))
    }
}

#[tactic(auto, unfolding(crate::specs::Sample::resolve_line))]
fn put_resolution(out: &mut Vec<u8>, variable: u32) -> Result<(), NoMemory>
    ensures { OnOk result (out.new.items ≡ out.old.items ++ resolve_line variable) }
{
    put_text(out, "resolve ")?;
    put_pair(out, variable, value_at(variable))?;
    put_text(out, "\n")
}
