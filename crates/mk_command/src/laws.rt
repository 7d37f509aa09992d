//! Laws of the texts of commands.

ghost use Rattle.std.specs.Prelude.{◌≡◌, ◌≢◌, ◌<◌, ◌≤◌, length, MatchResult};
ghost use Rattle.mk_command.specs.Below.{MAX_LINE_BYTES};
ghost use Rattle.mk_addition.specs.declared.add.AddText.{AddText};
ghost use Rattle.mk_command.specs.Commands.{IsCommand, command_of, command_text};
ghost use Rattle.mk_command.specs.declared.command.Command.{Command};
ghost use Rattle.mk_command.specs.declared.command.Command.TheVariants.{Add};

use crate::command::{Command, CommandRef, Words};
use crate::print::print_command;
use crate::read::read_command;
use arrayvec::ArrayString;
use mk_net::Syntax;

/// No two commands share a text.
pub fn one_command_each()
    ensures { (c d : Command) → IsCommand c → IsCommand d → command_text c ≡ command_text d →
        c ≡ d }
{}

/// The text of each command has at most 1,024 bytes, and fewer where it adds no question.
pub fn short_commands()
    ensures most { (c : Command) → IsCommand c → length (command_text c) ≤ MAX_LINE_BYTES }
    ensures others { (c : Command) → IsCommand c → ((a : AddText) → c ≢ Add a) →
        length (command_text c) < MAX_LINE_BYTES }
{}

/// What is read of the text of a command: the same command.
pub fn read_printed<'a>(command: &Command, words: &'a mut Words) -> Result<CommandRef<'a>, Syntax>
    requires { IsCommand command.now }
    ensures { MatchResult result (λ c. command_of c ≡ command.now) (λ _. ⊥) }
{
    let mut text = ArrayString::new();
    print_command(command, &mut text);
    read_command(text.as_bytes(), words)
}
