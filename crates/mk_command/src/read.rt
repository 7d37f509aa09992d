//! Reading a line of the command stream.

ghost use Rattle.std.specs.Prelude.{◌≡◌, ◌≢◌, ◌<◌, ◌^◌, IfOk, OnErr, option_map};
ghost use Rattle.mk_text.specs.Reading.{Finds, read_short};
ghost use Rattle.mk_command.specs.Commands.{IsCommand, command_of, command_text};
ghost use Rattle.mk_command.specs.inner.Reading.{read_user, read_deposit, read_withdraw};
ghost use Rattle.mk_command.specs.inner.Reading.{read_price, read_limits, read_edit, read_at};
ghost use Rattle.mk_command.specs.inner.Reading.{read_bounds, read_spread, read_worst, read_paid};
ghost use Rattle.mk_command.specs.inner.Reading.{read_resolve, read_prices, read_position};
ghost use Rattle.mk_command.specs.inner.Reading.{read_add, read_other, read_form};
ghost use Rattle.mk_command.specs.declared.command.Command.{Command};

use crate::command::{CommandRef, Words};
use mk_addition::{read_addition, text_length};
use mk_names::limits::MAX_LINE_BYTES;
use mk_net::Syntax;
use mk_text::{Item, Reader, several};

/// The command of which these bytes are the text, with its longer words in `words`, where they are
/// written over those of another line. Syntax where the bytes are the text of no command.
// It and its forms are calls of their own: within one another, each line would clear and move the
// words of every form.
#[inline(never)]
pub fn read_command<'a>(line: &[u8], words: &'a mut Words) -> Result<CommandRef<'a>, Syntax>
    ensures found { IfOk result (λ c. IsCommand (command_of c) × (line.now ≡ command_text (command_of c))) }
    ensures none { OnErr result ((c : Command) → IsCommand c → line.now ≢ command_text c) }
{
    let mut reader = Reader::new(line);
    let Some(command) = command(&mut reader, words) else {
        return Err(Syntax);
    };
    if reader.is_at_end() {
        Ok(command)
    } else {
        Err(Syntax)
    }
}

#[tactic(auto, unfolding(crate::specs::inner::Reading::read_form, crate::specs::Commands::command_of))]
fn command<'a>(reader: &mut Reader, words: &'a mut Words) -> Option<CommandRef<'a>>
    ensures { Finds (option_map command_of result) reader.new (read_form reader.old) }
{
    if reader.skip(b"user ") {
        return user(reader);
    }
    if reader.skip(b"deposit ") {
        return deposit(reader);
    }
    if reader.skip(b"withdraw ") {
        return withdraw(reader);
    }
    if reader.skip(b"price ") {
        return price(reader, words);
    }
    if reader.skip(b"limits ") {
        return limits(reader, words);
    }
    if reader.skip(b"edit ") {
        return edit(reader, words);
    }
    if reader.skip(b"bounds ") {
        return bounds(reader, words);
    }
    if reader.skip(b"spread ") {
        return spread(reader, words);
    }
    if reader.skip(b"worst ") {
        return worst(reader);
    }
    if reader.skip(b"resolve ") {
        return resolve(reader);
    }
    other(reader, words)
}

// The forms that are looked for behind all others.
#[tactic(auto, unfolding(crate::specs::inner::Reading::read_other, crate::specs::Commands::command_of))]
fn other<'a>(reader: &mut Reader, words: &'a mut Words) -> Option<CommandRef<'a>>
    ensures { Finds (option_map command_of result) reader.new (read_other reader.old) }
{
    if reader.skip(b"settle") {
        return Some(CommandRef::Settle);
    }
    if reader.skip(b"bound") {
        return Some(CommandRef::Bound);
    }
    if reader.skip(b"paid ") {
        return paid(reader);
    }
    if reader.skip(b"prices ") {
        return prices(reader, words);
    }
    if reader.skip(b"position ") {
        return position(reader, words);
    }
    if reader.skip(b"status") {
        return Some(CommandRef::Status);
    }
    if reader.skip(b"add ") {
        return add(reader, words);
    }
    None
}

#[inline(never)]
#[tactic(auto, unfolding(crate::specs::inner::Reading::read_user, crate::specs::Commands::command_of))]
fn user<'a>(reader: &mut Reader) -> Option<CommandRef<'a>>
    ensures { Finds (option_map command_of result) reader.new (read_user reader.old) }
{
    let user = reader.name()?;
    Some(CommandRef::User { user })
}

#[inline(never)]
#[tactic(auto, unfolding(crate::specs::inner::Reading::read_deposit, crate::specs::Commands::command_of))]
fn deposit<'a>(reader: &mut Reader) -> Option<CommandRef<'a>>
    ensures { Finds (option_map command_of result) reader.new (read_deposit reader.old) }
{
    let user = reader.name()?;
    reader.expect(b" ")?;
    let bits = short(reader)?;
    Some(CommandRef::Deposit { user, bits })
}

#[inline(never)]
#[tactic(auto, unfolding(crate::specs::inner::Reading::read_withdraw, crate::specs::Commands::command_of))]
fn withdraw<'a>(reader: &mut Reader) -> Option<CommandRef<'a>>
    ensures { Finds (option_map command_of result) reader.new (read_withdraw reader.old) }
{
    let user = reader.name()?;
    reader.expect(b" ")?;
    let bits = short(reader)?;
    Some(CommandRef::Withdraw { user, bits })
}

#[inline(never)]
#[tactic(auto, unfolding(crate::specs::inner::Reading::read_price, crate::specs::Commands::command_of))]
fn price<'a>(reader: &mut Reader, words: &'a mut Words) -> Option<CommandRef<'a>>
    ensures { Finds (option_map command_of result) reader.new (read_price reader.old) }
{
    reader.question(&mut words.question)?;
    let question = &words.question;
    Some(CommandRef::Price { question })
}

#[inline(never)]
#[tactic(auto, unfolding(crate::specs::inner::Reading::read_limits, crate::specs::Commands::command_of))]
fn limits<'a>(reader: &mut Reader, words: &'a mut Words) -> Option<CommandRef<'a>>
    ensures { Finds (option_map command_of result) reader.new (read_limits reader.old) }
{
    let user = reader.name()?;
    reader.expect(b" ")?;
    reader.question(&mut words.question)?;
    let question = &words.question;
    Some(CommandRef::Limits { user, question })
}

#[inline(never)]
#[tactic(auto, unfolding(crate::specs::inner::Reading::read_edit, crate::specs::Commands::command_of))]
fn edit<'a>(reader: &mut Reader, words: &'a mut Words) -> Option<CommandRef<'a>>
    ensures { Finds (option_map command_of result) reader.new (read_edit reader.old) }
{
    let user = reader.name()?;
    reader.expect(b" ")?;
    reader.question(&mut words.question)?;
    let question = &words.question;
    reader.expect(b" to ")?;
    let to = short(reader)?;
    let at = revision(reader)?;
    Some(CommandRef::Edit {
        user,
        question,
        to,
        at,
    })
}

#[inline(never)]
#[tactic(auto, unfolding(crate::specs::inner::Reading::read_bounds, crate::specs::Commands::command_of))]
fn bounds<'a>(reader: &mut Reader, words: &'a mut Words) -> Option<CommandRef<'a>>
    ensures { Finds (option_map command_of result) reader.new (read_bounds reader.old) }
{
    let user = reader.name()?;
    reader.expect(b" ")?;
    let variable = reader.name()?;
    reader.condition(&mut words.question.condition)?;
    let condition = &words.question.condition;
    Some(CommandRef::Bounds {
        user,
        variable,
        condition,
    })
}

#[inline(never)]
#[tactic(auto, unfolding(crate::specs::inner::Reading::read_spread, crate::specs::Commands::command_of))]
fn spread<'a>(reader: &mut Reader, words: &'a mut Words) -> Option<CommandRef<'a>>
    ensures { Finds (option_map command_of result) reader.new (read_spread reader.old) }
{
    let user = reader.name()?;
    reader.expect(b" ")?;
    let variable = reader.name()?;
    reader.condition(&mut words.question.condition)?;
    reader.expect(b" to ")?;
    words.shares = several(reader)?;
    let condition = &words.question.condition;
    let to = &words.shares;
    let at = revision(reader)?;
    Some(CommandRef::Spread {
        user,
        variable,
        condition,
        to,
        at,
    })
}

#[tactic(auto, unfolding(crate::specs::inner::Reading::read_at))]
fn revision(reader: &mut Reader) -> Option<Option<u32>>
    ensures { Finds result reader.new (read_at reader.old) }
{
    if !reader.skip(b" at ") {
        return Some(None);
    }
    let at = short(reader)?;
    Some(Some(at))
}

#[inline(never)]
#[tactic(auto, unfolding(crate::specs::inner::Reading::read_worst, crate::specs::Commands::command_of))]
fn worst<'a>(reader: &mut Reader) -> Option<CommandRef<'a>>
    ensures { Finds (option_map command_of result) reader.new (read_worst reader.old) }
{
    let user = reader.name()?;
    Some(CommandRef::Worst { user })
}

#[inline(never)]
#[tactic(auto, unfolding(crate::specs::inner::Reading::read_paid, crate::specs::Commands::command_of))]
fn paid<'a>(reader: &mut Reader) -> Option<CommandRef<'a>>
    ensures { Finds (option_map command_of result) reader.new (read_paid reader.old) }
{
    let user = reader.name()?;
    Some(CommandRef::Paid { user })
}

#[inline(never)]
#[tactic(auto, unfolding(crate::specs::inner::Reading::read_resolve, crate::specs::Commands::command_of))]
fn resolve<'a>(reader: &mut Reader) -> Option<CommandRef<'a>>
    ensures { Finds (option_map command_of result) reader.new (read_resolve reader.old) }
{
    let pair = reader.pair()?;
    Some(CommandRef::Resolve { pair })
}

#[inline(never)]
#[tactic(auto, unfolding(crate::specs::inner::Reading::read_prices, crate::specs::Commands::command_of))]
fn prices<'a>(reader: &mut Reader, words: &'a mut Words) -> Option<CommandRef<'a>>
    ensures { Finds (option_map command_of result) reader.new (read_prices reader.old) }
{
    let variable = reader.name()?;
    reader.condition(&mut words.question.condition)?;
    let condition = &words.question.condition;
    Some(CommandRef::Prices {
        variable,
        condition,
    })
}

#[inline(never)]
#[tactic(auto, unfolding(crate::specs::inner::Reading::read_position, crate::specs::Commands::command_of))]
fn position<'a>(reader: &mut Reader, words: &'a mut Words) -> Option<CommandRef<'a>>
    ensures { Finds (option_map command_of result) reader.new (read_position reader.old) }
{
    let user = reader.name()?;
    reader.expect(b" ")?;
    let variable = reader.name()?;
    reader.condition(&mut words.question.condition)?;
    let condition = &words.question.condition;
    Some(CommandRef::Position {
        user,
        variable,
        condition,
    })
}

// A line has no more than 1,024 bytes, and so has the text of an added question.
#[inline(never)]
#[tactic(auto, unfolding(crate::specs::inner::Reading::read_add, crate::specs::Commands::command_of))]
fn add<'a>(reader: &mut Reader, words: &'a mut Words) -> Option<CommandRef<'a>>
    ensures { Finds (option_map command_of result) reader.new (read_add reader.old) }
{
    read_addition(reader, &mut words.addition)?;
    let addition = &words.addition;
    if text_length(addition) > MAX_LINE_BYTES as u32 {
        return None;
    }
    Some(CommandRef::Add { addition })
}

/// A number of at most nine digits.
fn short(reader: &mut Reader) -> Option<u32>
    ensures { Finds result reader.new (read_short reader.old) }
{
    u32::next(reader)
}
