//! Writing a command.

ghost use Rattle.std.specs.Prelude.{◌≡◌, ◌≤◌, ◌<◌, ◌+◌, ◌^◌, ◌++◌, length, codes, decimal, IfSome};
ghost use Rattle.mk_net.specs.Bounds.{max_condition};
ghost use Rattle.mk_command.specs.Below.{MAX_LINE_BYTES};
ghost use Rattle.mk_command.specs.Below.{array_string_len, IsShort, ◌&◌, spaced, AreSeveral};
ghost use Rattle.mk_command.specs.Below.{condition_text, question_text};
ghost use Rattle.mk_command.specs.Commands.{HasShortNumbers, command_text, at_text};
ghost use Rattle.mk_command.specs.inner.Kinds.{IsOfValues};

use crate::command::Command;
use arrayvec::ArrayString;
use mk_addition::print_add;
use mk_names::Name;
use mk_names::limits::MAX_LINE_BYTES;
use mk_net::{PairText, QuestionText};
use mk_text::{put_condition, put_name, put_numbers, put_pair, put_question, put_short};

/// Puts the text of a command into `out`, in place of what it held. Its numbers must be below 10^9,
/// and the text of an added question must have at most 1,024 bytes, which
/// `mk_addition::text_length` tells.
pub fn print_command(command: &Command, out: &mut ArrayString<MAX_LINE_BYTES>)
    requires { HasShortNumbers command.now }
    ensures { out.new.bytes ≡ command_text command.now }
{
    out.clear();
    match command {
        Command::User { user } => put_user(out, "user ", user),
        Command::Deposit { user, bits } => put_transfer(out, "deposit ", user, *bits),
        Command::Withdraw { user, bits } => put_transfer(out, "withdraw ", user, *bits),
        Command::Price { question } => {
            out.push_str("price ");
            put_question(out, question);
        }
        Command::Limits { user, question } => {
            put_user(out, "limits ", user);
            put_asked(out, question);
        }
        Command::Edit {
            user,
            question,
            to,
            at,
        } => {
            put_user(out, "edit ", user);
            put_asked(out, question);
            put_move(out, *to, *at);
        }
        Command::Worst { user } => put_user(out, "worst ", user),
        Command::Paid { user } => put_user(out, "paid ", user),
        Command::Resolve { pair } => {
            out.push_str("resolve ");
            put_pair(out, pair);
        }
        Command::Settle => out.push_str("settle"),
        Command::Bound => out.push_str("bound"),
        Command::Status => out.push_str("status"),
        Command::Add { addition } => print_add(addition, out),
        _ => put_of_values(out, command),
    }
}

// The text of a command that speaks of every value of a variable.
fn put_of_values(out: &mut ArrayString<MAX_LINE_BYTES>, command: &Command)
    requires values { IsOfValues command.now }
    requires numbers { HasShortNumbers command.now }
    requires empty { array_string_len out.old ≡ 0 }
    ensures { out.new.bytes ≡ out.old.bytes ++ command_text command.now }
{
    match command {
        Command::Bounds {
            user,
            variable,
            condition,
        } => put_values_asked(out, "bounds ", user, variable, condition.as_slice()),
        Command::Spread {
            user,
            variable,
            condition,
            ..
        } => put_values_asked(out, "spread ", user, variable, condition.as_slice()),
        Command::Prices {
            variable,
            condition,
        } => {
            out.push_str("prices ");
            put_name(out, variable);
            put_condition(out, condition.as_slice());
        }
        Command::Position {
            user,
            variable,
            condition,
        } => put_values_asked(out, "position ", user, variable, condition.as_slice()),
        _ => unreachable!(),
    }
    if let Command::Spread { to, at, .. } = command {
        put_moves(out, to.as_slice(), *at);
    }
}

fn put_user(out: &mut ArrayString<MAX_LINE_BYTES>, word: &str, user: &Name)
    requires { array_string_len out.old + length word.now + 32 ≤ MAX_LINE_BYTES }
    ensures text { out.new.bytes ≡ out.old.bytes ++ (word.now ++ user.now) }
    ensures growth { array_string_len out.new ≤ array_string_len out.old + length word.now + 32 }
{
    out.push_str(word);
    put_name(out, user);
}

fn put_transfer(out: &mut ArrayString<MAX_LINE_BYTES>, word: &str, user: &Name, bits: u32)
    requires short { IsShort bits }
    requires room { array_string_len out.old + length word.now + 42 ≤ MAX_LINE_BYTES }
    ensures { out.new.bytes ≡ out.old.bytes ++ (word.now & user.now & codes " " & decimal bits) }
{
    put_user(out, word, user);
    out.push_str(" ");
    put_short(out, bits);
}

fn put_asked(out: &mut ArrayString<MAX_LINE_BYTES>, question: &QuestionText)
    requires { array_string_len out.old + 603 ≤ MAX_LINE_BYTES }
    ensures text { out.new.bytes ≡ out.old.bytes ++ (codes " " ++ question_text question.now) }
    ensures growth { array_string_len out.new ≤ array_string_len out.old + 603 }
{
    out.push_str(" ");
    put_question(out, question);
}

fn put_values_asked(
    out: &mut ArrayString<MAX_LINE_BYTES>,
    word: &str,
    user: &Name,
    variable: &Name,
    condition: &[PairText],
)
    requires few { length condition.now ≤ max_condition }
    requires room { array_string_len out.old + length word.now + 602 ≤ MAX_LINE_BYTES }
    ensures text { out.new.bytes ≡ out.old.bytes
        ++ (word.now & user.now & codes " " & variable.now & condition_text condition.now) }
    ensures growth { array_string_len out.new ≤ array_string_len out.old + length word.now + 602 }
{
    put_user(out, word, user);
    out.push_str(" ");
    put_name(out, variable);
    put_condition(out, condition);
}

fn put_move(out: &mut ArrayString<MAX_LINE_BYTES>, to: u32, at: Option<u32>)
    requires short { IsShort to × IfSome at IsShort }
    requires room { array_string_len out.old + 26 ≤ MAX_LINE_BYTES }
    ensures { out.new.bytes ≡ out.old.bytes ++ (codes " to " ++ (decimal to ++ at_text at)) }
{
    out.push_str(" to ");
    put_short(out, to);
    put_at(out, at);
}

fn put_moves(out: &mut ArrayString<MAX_LINE_BYTES>, to: &[u32], at: Option<u32>)
    requires numbers { AreSeveral IsShort to.now }
    requires short { IfSome at IsShort }
    requires room { array_string_len out.old + 177 ≤ MAX_LINE_BYTES }
    ensures { out.new.bytes ≡ out.old.bytes ++ (codes " to " ++ (spaced decimal to.now ++ at_text at)) }
{
    out.push_str(" to ");
    put_numbers(out, to);
    put_at(out, at);
}

fn put_at(out: &mut ArrayString<MAX_LINE_BYTES>, at: Option<u32>)
    requires short { IfSome at IsShort }
    requires room { array_string_len out.old + 13 ≤ MAX_LINE_BYTES }
    ensures { out.new.bytes ≡ out.old.bytes ++ at_text at }
{
    if let Some(at) = at {
        out.push_str(" at ");
        put_short(out, at);
    }
}
