//! Reading a refusal.

ghost use Rattle.std.specs.Prelude.{◌≡◌, ◌^◌, ◌<◌, IfSome};
ghost use Rattle.mk_text.specs.Reading.{Finds};
ghost use Rattle.mk_reply.specs.Reading.{read_long, read_narrow, read_users_limit, read_held};
ghost use Rattle.mk_reply.specs.Reading.{read_refusal, read_named, read_paired, read_numbered};
ghost use Rattle.mk_reply.specs.Reading.{read_stale, read_width};
ghost use Rattle.mk_reply.specs.Reading.{read_spread_out, read_not_added, read_miscounted};

use crate::refusal::Refusal;
use mk_names::limits::{MAX_USERS, MAX_VARIABLES};
use mk_text::{Item, Reader, intervals};

/// What follows the word `refused`.
#[tactic(auto, unfolding(crate::specs::Reading::read_refusal))]
pub fn refusal(reader: &mut Reader) -> Option<Refusal>
    ensures { Finds result reader.new (read_refusal reader.old) }
{
    if reader.skip(b"syntax") {
        return Some(Refusal::Syntax);
    }
    if reader.skip(b"long") {
        return Some(Refusal::Long);
    }
    if reader.skip(b"settled") {
        return Some(Refusal::Settled);
    }
    if reader.skip(b"unsettled") {
        return Some(Refusal::Unsettled);
    }
    if reader.skip(b"wide") {
        return Some(Refusal::Wide);
    }
    if reader.skip(b"memory") {
        return Some(Refusal::Memory);
    }
    named(reader)
}

// The refusals that name a user or a variable.
#[tactic(auto, unfolding(crate::specs::Reading::read_named))]
fn named(reader: &mut Reader) -> Option<Refusal>
    ensures { Finds result reader.new (read_named reader.old) }
{
    if reader.skip(b"user ") {
        let user = reader.name()?;
        return Some(Refusal::User { user });
    }
    if reader.skip(b"exists ") {
        let user = reader.name()?;
        return Some(Refusal::Exists { user });
    }
    if reader.skip(b"twice ") {
        let variable = reader.name()?;
        return Some(Refusal::Twice { variable });
    }
    if reader.skip(b"resolved ") {
        let variable = reader.name()?;
        return Some(Refusal::Resolved { variable });
    }
    if reader.skip(b"open ") {
        let variable = reader.name()?;
        return Some(Refusal::Unresolved { variable });
    }
    if reader.skip(b"variable ") {
        let variable = reader.name()?;
        return Some(Refusal::NoVariable { variable });
    }
    paired(reader)
}

// The refusals that name a pair.
#[tactic(auto, unfolding(crate::specs::Reading::read_paired))]
fn paired(reader: &mut Reader) -> Option<Refusal>
    ensures { Finds result reader.new (read_paired reader.old) }
{
    if reader.skip(b"name ") {
        let pair = reader.pair()?;
        return Some(Refusal::Unknown { pair });
    }
    if reader.skip(b"impossible ") {
        let pair = reader.pair()?;
        return Some(Refusal::Impossible { pair });
    }
    if reader.skip(b"sure ") {
        let pair = reader.pair()?;
        return Some(Refusal::Sure { pair });
    }
    numbered(reader)
}

// The refusals that give a number.
#[tactic(auto, unfolding(crate::specs::Reading::read_numbered))]
fn numbered(reader: &mut Reader) -> Option<Refusal>
    ensures { Finds result reader.new (read_numbered reader.old) }
{
    if reader.skip(b"users ") {
        let held = users_limit(reader)?;
        return Some(Refusal::Users { held });
    }
    if reader.skip(b"stale ") {
        return stale(reader);
    }
    if reader.skip(b"range ") {
        let number = narrow(reader)?;
        return Some(Refusal::Range { number });
    }
    if reader.skip(b"full ") {
        let held = narrow(reader)?;
        return Some(Refusal::Full { held });
    }
    if reader.skip(b"beyond ") {
        let limits = reader.limits()?;
        return Some(Refusal::Beyond { limits });
    }
    if reader.skip(b"short ") {
        let bits = long(reader)?;
        return Some(Refusal::Short { bits });
    }
    spread_out(reader)
}

// The refusals of a whole distribution.
#[tactic(auto, using(crate::proofs::RefusalLaws::boxed_same), unfolding(crate::specs::Reading::read_spread_out))]
fn spread_out(reader: &mut Reader) -> Option<Refusal>
    ensures { Finds result reader.new (read_spread_out reader.old) }
{
    if reader.skip(b"numbers ") {
        let given = u32::next(reader)?;
        return Some(Refusal::Numbers { given });
    }
    if reader.skip(b"sum ") {
        let sum = u32::next(reader)?;
        return Some(Refusal::Sum { sum });
    }
    if reader.skip(b"outside ") {
        let intervals = intervals(reader)?;
        return Some(Refusal::Outside { intervals });
    }
    not_added(reader)
}

// The refusals of an added question that give a name.
#[tactic(auto, unfolding(crate::specs::Reading::read_not_added))]
fn not_added(reader: &mut Reader) -> Option<Refusal>
    ensures { Finds result reader.new (read_not_added reader.old) }
{
    if reader.skip(b"taken ") {
        let variable = reader.name()?;
        return Some(Refusal::Taken { variable });
    }
    if reader.skip(b"value ") {
        let value = reader.name()?;
        return Some(Refusal::ValueTwice { value });
    }
    if reader.skip(b"cover ") {
        let variable = reader.name()?;
        return Some(Refusal::Uncovered { variable });
    }
    if reader.skip(b"running ") {
        let variable = reader.name()?;
        return Some(Refusal::NotRunning { variable });
    }
    miscounted(reader)
}

// The refusals of an added question that give numbers.
#[tactic(auto, unfolding(crate::specs::Reading::read_miscounted))]
fn miscounted(reader: &mut Reader) -> Option<Refusal>
    ensures { Finds result reader.new (read_miscounted reader.old) }
{
    if reader.skip(b"variables ") {
        let held = held(reader)?;
        return Some(Refusal::Variables { held });
    }
    if reader.skip(b"rows ") {
        let given = u32::next(reader)?;
        return Some(Refusal::RowCount { given });
    }
    if reader.skip(b"width ") {
        return width(reader);
    }
    if reader.skip(b"cells ") {
        let total = u32::next(reader)?;
        return Some(Refusal::Cells { total });
    }
    if reader.skip(b"link ") {
        let number = u32::next(reader)?;
        return Some(Refusal::Link { number });
    }
    None
}

#[tactic(auto, unfolding(crate::specs::Reading::read_width))]
fn width(reader: &mut Reader) -> Option<Refusal>
    ensures { Finds result reader.new (read_width reader.old) }
{
    let row = u32::next(reader)?;
    reader.expect(b" ")?;
    let given = u32::next(reader)?;
    Some(Refusal::RowWidth { row, given })
}

#[tactic(auto, unfolding(crate::specs::Reading::read_stale))]
fn stale(reader: &mut Reader) -> Option<Refusal>
    ensures { Finds result reader.new (read_stale reader.old) }
{
    let named = narrow(reader)?;
    reader.expect(b" ")?;
    let now = long(reader)?;
    Some(Refusal::Stale { named, now })
}

// The number of users that a market may hold at most.
#[tactic(auto, unfolding(crate::specs::Reading::read_users_limit))]
fn users_limit(reader: &mut Reader) -> Option<u32>
    ensures { Finds result reader.new (read_users_limit reader.old) }
{
    let held = narrow(reader)?;
    if 1 <= held && held <= MAX_USERS {
        Some(held)
    } else {
        None
    }
}

// The number of variables that a market holds at most.
#[tactic(auto, unfolding(crate::specs::Reading::read_held))]
fn held(reader: &mut Reader) -> Option<u32>
    ensures { Finds result reader.new (read_held reader.old) }
{
    let held = narrow(reader)?;
    if held == MAX_VARIABLES {
        Some(held)
    } else {
        None
    }
}

/// A number below 2^63.
#[tactic(auto, unfolding(crate::specs::Reading::read_long))]
pub fn long(reader: &mut Reader) -> Option<u64>
    ensures { Finds result reader.new (read_long reader.old) }
{
    reader.number(1 << 63)
}

/// A number below 2^32.
#[tactic(auto, unfolding(crate::specs::Reading::read_narrow))]
pub fn narrow(reader: &mut Reader) -> Option<u32>
    ensures { Finds result reader.new (read_narrow reader.old) }
{
    let number = reader.number(1 << 32)?;
    Some(number as u32)
}
