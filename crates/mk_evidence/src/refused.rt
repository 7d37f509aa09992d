//! What a command would be refused for, where no enclosure is asked for beside it.

ghost use Rattle.std.specs.Prelude.{◌≡◌, IfOk};
ghost use Rattle.mk_command.specs.declared.command.Command.TheVariants as command;
ghost use Rattle.mk_evidence.specs.Below.{HasOutcome, first_refusal, refusal_in};

use mk_addition::AddText;
use mk_admission::refuse_add;
use mk_asking::can_come;
use mk_engine::Engine;
use mk_market::{Market, home_of};
use mk_names::Name;
use mk_net::PairText;
use mk_record::{refuse_resolve, refuse_settle, refuse_transfer, refuse_user};
use mk_reply::Refusal;
use mk_semiring::{MinProd, SumProd};

/// What `user` would be refused for, but for want of memory.
pub fn refused_join<P: Engine<SumProd>, A: Engine<MinProd>>(
    market: &Market<P, A>,
    name: &Name,
) -> Result<(), Refusal>
    ensures { refusal_in result ≡ first_refusal market.now.market (market.now.standing).history
        (command.User name.now) }
{
    refuse_user(&market.journal, &market.users, name)
}

/// What `deposit` would be refused for.
pub fn refused_deposit<P: Engine<SumProd>, A: Engine<MinProd>>(
    market: &Market<P, A>,
    name: &Name,
    bits: u32,
) -> Result<(), Refusal>
    ensures { refusal_in result ≡ first_refusal market.now.market (market.now.standing).history
        (command.Deposit name.now bits) }
{
    refuse_transfer(&market.journal, &market.users, name, bits)?;
    Ok(())
}

/// What `resolve` would be refused for. The market stays as it was.
pub fn refused_resolution<P: Engine<SumProd>, A: Engine<MinProd>>(
    market: &mut Market<P, A>,
    words: &PairText,
) -> Result<(), Refusal>
    ensures same { market.new ≡ market.old }
    ensures refusal { refusal_in result ≡ first_refusal market.old.market
        (market.old.standing).history (command.Resolve words.now) }
{
    let pair = refuse_resolve(&market.file, &market.journal, words)?;
    let home = home_of(&market.file, pair);
    if !can_come(&mut market.prices, &market.file.net, home, pair) {
        return Err(Refusal::Impossible { pair: *words });
    }
    Ok(())
}

/// What `settle` would be refused for. Where nothing refuses it one state is left.
pub fn refused_settlement<P: Engine<SumProd>, A: Engine<MinProd>>(
    market: &Market<P, A>,
) -> Result<(), Refusal>
    ensures refusal { refusal_in result ≡ first_refusal market.now.market
        (market.now.standing).history command.Settle }
    ensures outcome { IfOk result (λ _. HasOutcome
        market.now.market.network
        (market.now.standing).history) }
{
    refuse_settle(&market.file, &market.journal)
}

/// What `add` would be refused for, but for want of memory.
pub fn refused_addition<P: Engine<SumProd>, A: Engine<MinProd>>(
    market: &Market<P, A>,
    add: &AddText,
) -> Result<(), Refusal>
    ensures { refusal_in result ≡ first_refusal market.now.market (market.now.standing).history
        (command.Add add.now) }
{
    refuse_add(&market.file, &market.journal, add)
}
