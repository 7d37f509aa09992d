//! A market whose accepted changes stand in a store before their replies are told.

ghost use Rattle.std.specs.Prelude.{◌≡◌, ◌≢◌, ◌⊎◌, ◌↔◌, ◌+◌, ◌<◌, ◌≤◌, ◌^◌, ℕ, List, [], ◌++◌};
ghost use Rattle.std.specs.Prelude.{length, Some, Err, true, false, is_err, IsTrue};
ghost use Rattle.std.specs.Prelude.{IfErr, IfOk, OnOk, OnErr};
ghost use Rattle.mk_durable.specs.Below.{HasShortNumbers, HasCause, revision, IsMarket, IsTreeOf};
ghost use Rattle.mk_durable.specs.Below.{market_of, max_file_bytes, IsAt, IsUnstarted, StandsFor};
ghost use Rattle.mk_durable.specs.Below.{IsHeld, IsReady, IsFront, LeavesOnly, SuitsNext};
ghost use Rattle.mk_disk.specs.Disk.{Rose};
ghost use Rattle.mk_durable.specs.Recovery.{unquoted};
ghost use Rattle.mk_durable.specs.Resuming.{IsCounted, IsRefused, IfForeign, IsResumed};
ghost use Rattle.mk_durable.specs.Suiting.{SuitsAll};
ghost use Rattle.mk_durable.specs.Applying.{records_made, IsApplied};
ghost use Rattle.mk_durable.specs.declared.durable.DurableFault.TheVariants.{Disk, Closed};

use crate::change::keep_change;
use crate::fault::ResumeFault;
use crate::opening::resume;
use mk_command::Command;
use mk_disk::{Disk, DiskFailed};
use mk_engine::Engine;
use mk_file::MarketFile;
use mk_journal::{Group, Store, header_of};
use mk_market::Market;
use mk_reply::Reply;
use mk_semiring::{MinProd, SumProd};
use std::alloc::Global;
use std::marker::Model;

/// Why a durable market gives no reply.
#[derive(Clone, Copy, Debug, PartialEq, Eq)]
pub enum DurableFault {
    /// A call of the disk failed: the change may stand in the store or not.
    Disk,
    /// In an earlier call one did.
    Closed,
}

/// A market, and the store that its accepted changes are kept in. The disk is an argument of each
/// call.
#[derive(Drop)]
pub struct Durable<P: Engine<SumProd>, A: Engine<MinProd>> {
    market: Market<P, A>,
    store: Store,
    closed: bool,
}

impl<P: Engine<SumProd>, A: Engine<MinProd>> Model for Durable<P, A> {
    ghost use Rattle.mk_rules.specs.Standings.{IsMarket};
    ghost use Rattle.mk_assets.specs.declared.assets.Assets.{Assets};
    ghost use Rattle.mk_durable.specs.Applying.{DurableOf};

    ghost Value = { DurableOf (Assets A A.Plan) };

    ghost view = { λ d. record { trading = d.market; store = d.store; closed = d.closed } };

    ghost invariant = { λ d. IsMarket d.market.market };
}

/// Answers a command, and keeps the change that it makes, if it makes one.
fn answer_and_keep<P: Engine<SumProd>, A: Engine<MinProd>, K: Disk>(
    alloc: Global,
    market: &mut Market<P, A>,
    store: &mut Store,
    disk: &mut K,
    command: &Command,
) -> Result<Reply, DiskFailed>
    requires numbers { HasShortNumbers command.now }
    requires prices { SuitsNext P.suits market.old command.now }
    requires assets { SuitsNext A.suits market.old command.now }
    requires ready { IsReady (K.is_open disk.old) (K.file disk.old (K.open_name disk.old))
        store.old (revision (market.old.standing).history) }
    ensures cause { HasCause (K.faults disk.old) (K.faults disk.new) result }
    ensures ready { OnOk result (IsReady (K.is_open disk.new)
        (K.file disk.new (K.open_name disk.new)) store.new
        (revision (market.new.standing).history)) }
    ensures is_market { IsMarket market.new.market }
    ensures applied { IsApplied market.old market.new command.now
        (λ reply. IfOk result (λ told. told ≡ reply)) }
    ensures kept { (n bytes : List ℕ) (records : List (List ℕ)) → n ≡ K.open_name disk.old →
        IsHeld (K.file disk.old n) (K.may_leave disk.old n) store.old bytes records [] →
        IsApplied market.old market.new command.now
        (λ reply. IfOk result (λ told. told ≡ reply)
        × OnOk result (IsHeld (K.file disk.new n) (K.may_leave disk.new n) store.new bytes
        (records ++ records_made market.old command.now reply) [])
        × LeavesOnly (K.moment disk.old) (K.moment disk.new) (K.left_since disk.old n)
        (K.left_since disk.new n) (IsFront bytes
        (records ++ records_made market.old command.now reply) (length records))) }
{
    let before = market.history().length();
    let reply = market.apply(alloc, &command.lend());
    if market.history().length() == before {
        return Ok(reply);
    }
    keep_change(command, &reply, store, disk)?;
    Ok(reply)
}

impl<P: Engine<SumProd>, A: Engine<MinProd>> Durable<P, A> {
    /// Opens the store of a market file, which is these bytes, on the open file of a disk, and
    /// takes back all changes that it holds.
    pub fn open<K: Disk>(
        alloc: Global,
        file: MarketFile,
        bytes: &[u8],
        disk: &mut K,
    ) -> Result<Durable<P, A>, ResumeFault>
        requires tree { IsTreeOf file.net file.tree }
        requires prices { SuitsAll P.suits }
        requires assets { SuitsAll A.suits }
        requires size { length bytes.now ≤ max_file_bytes }
        requires is_open { IsTrue (K.is_open disk.old) }
        ensures ok { OnOk result (K.faults disk.new ≡ K.faults disk.old) }
        ensures fault { IfErr result (IsCounted (K.faults disk.old) (K.faults disk.new)) }
        ensures stays_name { K.open_name disk.new ≡ K.open_name disk.old }
        ensures market { IfOk result (λ it. IsAt (market_of file) it.trading) }
        ensures open { IfOk result (λ it. it.closed ≡ false) }
        ensures quotes { IfOk result
            (λ it. it.trading.standing ≡ unquoted it.trading.standing.history) }
        ensures ready { IfOk result (λ it. IsReady (K.is_open disk.new)
            (K.file disk.new (K.open_name disk.new)) it.store
            (revision it.trading.standing.history)) }
        ensures resumed { (n f : List ℕ) → n ≡ K.open_name disk.old → K.file disk.old n ≡ Some f →
            IfOk result (λ it. IsResumed (market_of file) bytes.now f it.trading.standing.history
            (K.file disk.new n) (K.may_leave disk.new n) it.store
            (revision it.trading.standing.history)) }
        ensures refused { (n f : List ℕ) → n ≡ K.open_name disk.old → K.file disk.old n ≡ Some f →
            IfErr result (IsRefused (market_of file) bytes.now f) }
        ensures unwritten { (n : List ℕ) →
            IfErr result (λ why. IfForeign why (K.file disk.new n ≡ K.file disk.old n)) }
        ensures any_moment { (n f : List ℕ) → n ≡ K.open_name disk.old →
            K.file disk.old n ≡ Some f → LeavesOnly (K.moment disk.old) (K.moment disk.new)
            (K.left_since disk.old n) (K.left_since disk.new n) (λ c. K.may_leave disk.old n c
            ⊎ (IsUnstarted bytes.now f × StandsFor bytes.now [] c)) }
    {
        let header = header_of(alloc, bytes)?;
        let group = Group::start(alloc)?;
        let mut market = Market::start(alloc, file)?;
        let resumed = resume(alloc, &mut market, &header, group, disk)?;
        // Its clause says that this is a market, as each durable one is.
        let _ = market.history();
        Ok(Durable {
            market,
            store: resumed.store,
            closed: false,
        })
    }

    /// Answers a command. The change of an accepted one stands in the store when the reply comes.
    /// After `Disk` it may stand there or not, and every later call answers `Closed`.
    pub fn apply<K: Disk>(
        &mut self,
        alloc: Global,
        disk: &mut K,
        command: &Command,
    ) -> Result<Reply, DurableFault>
        requires numbers { HasShortNumbers command.now }
        requires prices { SuitsNext P.suits self.old.trading command.now }
        requires assets { SuitsNext A.suits self.old.trading command.now }
        requires ready { self.old.closed ≡ false → IsReady (K.is_open disk.old)
            (K.file disk.old (K.open_name disk.old)) self.old.store
            (revision self.old.trading.standing.history) }
        ensures ready { self.new.closed ≡ false → IsReady (K.is_open disk.new)
            (K.file disk.new (K.open_name disk.new)) self.new.store
            (revision self.new.trading.standing.history) }
        ensures closed { (result ≡ Err Closed) ↔ (self.old.closed ≡ true) }
        ensures closes { self.new.closed ≡ is_err result }
        ensures cause { result ≡ Err Disk → Rose (K.faults disk.old) (K.faults disk.new) }
        ensures no_fault { result ≢ Err Disk → K.faults disk.new ≡ K.faults disk.old }
        ensures unchanged { self.old.closed ≡ true → self.new ≡ self.old }
        ensures applied { self.old.closed ≡ false → IsApplied self.old.trading self.new.trading
            command.now (λ reply. IfOk result (λ told. told ≡ reply)) }
        ensures kept { (n bytes : List ℕ) (records : List (List ℕ)) →
            n ≡ K.open_name disk.old → self.old.closed ≡ false →
            IsHeld (K.file disk.old n) (K.may_leave disk.old n) self.old.store bytes records [] →
            IsApplied self.old.trading self.new.trading command.now
            (λ reply. IfOk result (λ told. told ≡ reply)
            × OnOk result (IsHeld (K.file disk.new n) (K.may_leave disk.new n) self.new.store bytes
            (records ++ records_made self.old.trading command.now reply) [])
            × LeavesOnly (K.moment disk.old) (K.moment disk.new) (K.left_since disk.old n)
            (K.left_since disk.new n) (IsFront bytes
            (records ++ records_made self.old.trading command.now reply) (length records))) }
    {
        if self.closed {
            return Err(DurableFault::Closed);
        }
        match answer_and_keep(alloc, &mut self.market, &mut self.store, disk, command) {
            Ok(reply) => Ok(reply),
            Err(_) => {
                self.closed = true;
                Err(DurableFault::Disk)
            }
        }
    }

    /// The market.
    pub fn market(&self) -> &Market<P, A>
        ensures { result.now ≡ self.now.trading }
    {
        &self.market
    }
}
