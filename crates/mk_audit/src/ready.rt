//! The ready line of a market, with which its transcript begins.

ghost use Rattle.std.specs.Prelude.{◌≡◌, ◌≤◌, ◌++◌, drop, length, IfSome, MatchOption};
ghost use Rattle.mk_session.specs.Texts.{ready_line};
ghost use Rattle.mk_session.specs.Outcome.{IsFrontOf};

use arrayvec::ArrayString;
use mk_session::TreeMarket;
use mk_text::put_number;

/// How many bytes the ready line of a market has, where a transcript begins with it.
pub(crate) fn behind_ready_line(market: &TreeMarket, transcript: &[u8]) -> Option<usize>
    ensures within { IfSome result (λ place. place ≤ length transcript.now) }
    ensures begins { MatchOption result
        (¬ IsFrontOf transcript.now (ready_line market.now.market))
        (λ place. transcript.now ≡ ready_line market.now.market ++ drop place transcript.now) }
{
    let mut line = ArrayString::new();
    print_ready(market, &mut line);
    if transcript.starts_with(line.as_bytes()) {
        Some(line.len())
    } else {
        None
    }
}

/// Puts the ready line of a market into `line`, in place of what it held.
fn print_ready(market: &TreeMarket, line: &mut ArrayString<64>)
    ensures { line.new.bytes ≡ ready_line market.now.market }
{
    line.clear();
    line.push_str("ready ");
    put_number(line, market.variables() as u64);
    line.push_str(" ");
    put_number(line, market.points_per_bit() as u64);
    line.push_str("\n");
}
