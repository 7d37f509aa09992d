//! The opening of a store for a market, with the changes that it gives back.

ghost use Rattle.std.specs.Prelude.{◌≡◌, ◌⊎◌, ◌+◌, ◌^◌, ◌<◌, ◌≤◌, ℕ, List, [], length};
ghost use Rattle.std.specs.Prelude.{Some, IsTrue, IfErr, IfOk, OnOk};
ghost use Rattle.mk_durable.specs.Below.{begun, IsUnstarted, StandsFor, LeavesOnly, IsReady};
ghost use Rattle.mk_durable.specs.Below.{additions, revision, opening, IsAt};
ghost use Rattle.mk_durable.specs.Recovery.{unquoted};
ghost use Rattle.mk_durable.specs.Resuming.{IsCounted, IsRefused, IfForeign, IsResumed};
ghost use Rattle.mk_durable.specs.Suiting.{SuitsAll};

use crate::fault::{ResumeFault, StoreFault};
use crate::restoring::restore_all;
use mk_disk::Disk;
use mk_engine::Engine;
use mk_journal::{End, Group, Store, open_store};
use mk_market::Market;
use mk_semiring::{MinProd, SumProd};
use std::alloc::Global;

/// A store that is open, and how many changes it gave back.
#[derive(Drop)]
pub struct Resumed {
    pub store: Store,
    pub count: u64,
}

/// Opens the store of a market on the open file, one that a crash may have left, and takes back all
/// changes that it holds. The market stands at its opening, and `header` is what `header_of` gives
/// for its file. A file without a header gets one.
///
/// The call may crash too: at any moment, and so behind it, each image is one from before the call,
/// or stands for no record as the file did. Where neither `Disk` nor `Memory` comes, a refusal
/// comes exactly where the file gives no history back: `refuses_none_given` and `one_fault` are
/// laws.
pub fn resume<P: Engine<SumProd>, A: Engine<MinProd>, K: Disk>(
    alloc: Global,
    market: &mut Market<P, A>,
    header: &[u8],
    group: Group,
    disk: &mut K,
) -> Result<Resumed, ResumeFault>
    requires prices { SuitsAll P.suits }
    requires assets { SuitsAll A.suits }
    requires opening { market.old.standing ≡ opening }
    requires none_waits { group ≡ [] }
    requires is_open { IsTrue (K.is_open disk.old) }
    requires some { 0 < length header.now }
    requires size { length header.now ≤ 2 ^ 23 }
    ensures later { K.faults disk.old ≤ K.faults disk.new }
    ensures ok { OnOk result (K.faults disk.new ≡ K.faults disk.old) }
    ensures fault { IfErr result (IsCounted (K.faults disk.old) (K.faults disk.new)) }
    ensures stays { K.is_open disk.new ≡ K.is_open disk.old }
    ensures stays_name { K.open_name disk.new ≡ K.open_name disk.old }
    ensures market { IsAt market.old.market market.new }
    ensures quotes { market.new.standing ≡ unquoted (market.new.standing).history }
    ensures resumed { (n bytes f : List ℕ) → n ≡ K.open_name disk.old →
        header.now ≡ begun bytes → K.file disk.old n ≡ Some f →
        IfOk result (λ it. IsResumed market.old.market bytes f (market.new.standing).history
        (K.file disk.new n) (K.may_leave disk.new n) it.store it.count) }
    ensures count { IfOk result (λ it. it.count ≡ revision (market.new.standing).history) }
    ensures few { IfOk result (λ it.
        it.count ≤ 2065793 + length (additions (market.new.standing).history)) }
    ensures few_added { OnOk result (length (additions (market.new.standing).history) ≤ 255) }
    ensures ready { IfOk result (λ it. IsReady (K.is_open disk.new)
        (K.file disk.new (K.open_name disk.new)) it.store it.count) }
    ensures refused { (n bytes f : List ℕ) → n ≡ K.open_name disk.old →
        header.now ≡ begun bytes → K.file disk.old n ≡ Some f →
        IfErr result (IsRefused market.old.market bytes f) }
    ensures unwritten { (n : List ℕ) →
        IfErr result (λ why. IfForeign why (K.file disk.new n ≡ K.file disk.old n)) }
    ensures images { (n bytes f c : List ℕ) → n ≡ K.open_name disk.old →
        header.now ≡ begun bytes → K.file disk.old n ≡ Some f → K.may_leave disk.new n c →
        K.may_leave disk.old n c ⊎ (IsUnstarted bytes f × StandsFor bytes [] c) }
    ensures any_moment { (n bytes f : List ℕ) → n ≡ K.open_name disk.old →
        header.now ≡ begun bytes → K.file disk.old n ≡ Some f →
        LeavesOnly (K.moment disk.old) (K.moment disk.new)
        (K.left_since disk.old n) (K.left_since disk.new n)
        (λ c. K.may_leave disk.old n c ⊎ (IsUnstarted bytes f × StandsFor bytes [] c)) }
{
    let found = open_store(alloc, disk, header)?;
    restore_all(alloc, market, &found.records)?;
    let count = market.history().revision();
    match found.end {
        End::Gate(gate) => Ok(Resumed {
            store: Store::new(gate, group),
            count,
        }),
        End::Malformed => Err(ResumeFault::Refused(StoreFault::Unfit { number: count + 1 })),
    }
}
