//! Taking back the records of a store, one after another.

ghost use Rattle.std.specs.Prelude.{◌≡◌, IfErr, OnOk};
ghost use Rattle.mk_durable.specs.Below.{IsAt, contents};
ghost use Rattle.mk_exact.specs.Market.{Market as FileMarket};
ghost use Rattle.mk_durable.specs.Recovery.{AreTakenBack, unquoted};
ghost use Rattle.mk_durable.specs.Resuming.{fault_at, IsRecordFault};
ghost use Rattle.mk_durable.specs.Suiting.{SuitsAll};

use crate::fault::RecordFault;
use crate::record::take_back;
use mk_command::Words;
use mk_engine::Engine;
use mk_market::{Market, RestoreFault};
use mk_semiring::{MinProd, SumProd};
use std::alloc::Global;

/// The fault of the record of this number.
fn fault_of(fault: RestoreFault, number: u64) -> RecordFault
    ensures { result ≡ fault_at fault number }
{
    match fault {
        RestoreFault::Unfit => RecordFault::Unfit { number },
        RestoreFault::Memory => RecordFault::Memory,
    }
}

/// Takes back the changes of all records, in their order. After a fault those before the record at
/// fault are taken back.
pub fn restore_all<P: Engine<SumProd>, A: Engine<MinProd>>(
    alloc: Global,
    market: &mut Market<P, A>,
    records: &[Vec<u8>],
) -> Result<(), RecordFault>
    requires prices { SuitsAll P.suits }
    requires assets { SuitsAll A.suits }
    requires quotes { market.old.standing ≡ unquoted (market.old.standing).history }
    ensures market { (start : FileMarket) → IsAt start market.old → IsAt start market.new }
    ensures quotes { market.new.standing ≡ unquoted (market.new.standing).history }
    ensures taken { (start : FileMarket) → IsAt start market.old →
        OnOk result (AreTakenBack start (market.old.standing).history
        (contents records.now) (market.new.standing).history) }
    ensures fault { (start : FileMarket) → IsAt start market.old →
        IfErr result (IsRecordFault start (market.old.standing).history (contents records.now)) }
{
    let mut words = Words::default();
    for (i, record) in records.iter().enumerate() {
        if let Err(fault) = take_back(alloc, market, record, &mut words) {
            return Err(fault_of(fault, i as u64 + 1));
        }
    }
    Ok(())
}
