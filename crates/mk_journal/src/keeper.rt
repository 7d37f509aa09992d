//! What keeps the accepted changes of a run.

ghost use Rattle.std.specs.Prelude.{◌≡◌, ℕ, ◌+◌, ◌*◌, ◌^◌, ◌<◌, ◌≤◌, List, [], ◌∷◌, ◌++◌, length, IsTrue, IfSome, OnOk, OnErr};
ghost use Rattle.std.specs.Prelude.{false};
ghost use Rattle.mk_names.specs.declared.limits.TheConstants.{MAX_RECORD_BYTES};
ghost use Rattle.mk_disk.specs.Disk.{HasCause};
ghost use Rattle.mk_journal.specs.Store.{IsLength, AreRecords, opened};
ghost use Rattle.mk_journal.specs.Kept.{IsSettled};
ghost use Rattle.mk_journal.specs.Market.{IsFront};
ghost use Rattle.mk_journal.specs.Keepers.{Holds, StoreOf};

use crate::group::Group;
use mk_disk::{Disk, DiskFailed};
use std::marker::Model;

/// Keeps the accepted changes of a run on a disk, or nowhere.
///
/// Each change is taken before its reply is told, and what was taken is kept before any reply is written. The disk is an
/// argument of each call. Whatever a call answers, a crash at any moment of it leaves only files that stand for the first
/// of the changes that were held before it, with all that were kept.
pub trait Keeper<D> {
    // it can go on, and took at most so many changes
    ghost is_ready: { Self → D → ℕ → Type 0 };
    // in the store of a name and of a market these changes are kept, and these wait
    ghost holds: { Self → D → List ℕ → List ℕ → List (List ℕ) → List (List ℕ) → Type 0 };
    // a crash now leaves only files that stand for the first of these changes, at least so many
    ghost leaves: { D → List ℕ → List ℕ → List (List ℕ) → ℕ → Type 0 };
    // and so does a crash at any moment from one disk to the other
    ghost passes: { D → D → List ℕ → List ℕ → List (List ℕ) → ℕ → Type 0 };
    // how many calls of the disk have failed
    ghost faults: { D → ℕ };

    /// Whether it keeps changes at all. Where it does not, none has to be taken.
    fn keeps(&self) -> bool
        ensures { result ≡ false → (disk : D) (name market change : List ℕ)
            (kept waiting : List (List ℕ)) → holds self.now disk name market kept waiting
            → holds self.now disk name market kept (waiting ++ change ∷ []) };

    /// Takes a change, which then waits or is kept. Those that wait are kept first where there is no room for it.
    fn take(&mut self, disk: &mut D, change: &[u8]) -> Result<(), DiskFailed>
        requires size { IsLength (length change.now) }
        requires ready { (n : ℕ) × (n < 2 ^ 40) × is_ready self.old disk.old n }
        ensures cause { HasCause (faults disk.old) (faults disk.new) result }
        ensures ready { (n : ℕ) → n < 2 ^ 40 → is_ready self.old disk.old n → OnOk result (is_ready self.new disk.new (n + 1)) }
        ensures taken { (name market : List ℕ) (kept waiting : List (List ℕ)) → holds self.old disk.old name market kept waiting
            → OnOk result (Holds (holds self.new disk.new name market) (length kept) (kept ++ (waiting ++ change.now ∷ []))) }
        ensures any_moment { (name market : List ℕ) (kept waiting : List (List ℕ)) → holds self.old disk.old name market kept waiting
            → passes disk.old disk.new name market (kept ++ waiting) (length kept) };

    /// Keeps all that waits.
    fn keep(&mut self, disk: &mut D) -> Result<(), DiskFailed>
        requires ready { (n : ℕ) × (n < 2 ^ 40) × is_ready self.old disk.old n }
        ensures cause { HasCause (faults disk.old) (faults disk.new) result }
        ensures ready { (n : ℕ) → n < 2 ^ 40 → is_ready self.old disk.old n → OnOk result (is_ready self.new disk.new n) }
        ensures kept { (name market : List ℕ) (kept waiting : List (List ℕ)) → holds self.old disk.old name market kept waiting
            → OnOk result (holds self.new disk.new name market (kept ++ waiting) []) }
        ensures any_moment { (name market : List ℕ) (kept waiting : List (List ℕ)) → holds self.old disk.old name market kept waiting
            → passes disk.old disk.new name market (kept ++ waiting) (length kept) };

    // it is ready after a change that it was not told
    ghost ready_after: { (keeper : Self) (disk : D) (count : ℕ) → is_ready keeper disk count → is_ready keeper disk (count + 1) };

    // what is held, a crash leaves: now, and at the one moment of no call
    ghost held_is_left: { (keeper : Self) (disk : D) (name market : List ℕ) (kept waiting : List (List ℕ)) → holds keeper disk name market kept waiting
        → leaves disk name market (kept ++ waiting) (length kept) };

    ghost held_passes: { (keeper : Self) (disk : D) (name market : List ℕ) (kept waiting : List (List ℕ)) → holds keeper disk name market kept waiting
        → passes disk disk name market (kept ++ waiting) (length kept) };

    // the last moment of a call is now, and one call goes on where another ended
    ghost last_is_left: { (before now : D) (name market : List ℕ) (all : List (List ℕ)) (least : ℕ) → passes before now name market all least
        → leaves now name market all least };

    ghost then_passes: { (before mid now : D) (name market : List ℕ) (all : List (List ℕ)) (least : ℕ) → passes before mid name market all least → passes mid now name market all least
        → passes before now name market all least };

    // so many are left where more are, and the first of a list are the first of a longer one
    ghost fewer_are_left: { (disk : D) (name market : List ℕ) (all more : List (List ℕ)) (least fewer : ℕ) → fewer ≤ least → leaves disk name market all least
        → leaves disk name market (all ++ more) fewer };

    ghost fewer_pass: { (before now : D) (name market : List ℕ) (all more : List (List ℕ)) (least fewer : ℕ) → fewer ≤ least → passes before now name market all least
        → passes before now name market (all ++ more) fewer };
}

/// Keeps nothing: what a run without a store does.
#[derive(Clone, Copy, Debug, PartialEq, Eq)]
pub struct NoStore;

impl Keeper<()> for NoStore {
    ghost is_ready = { λ _ _ _. Unit {0} };

    ghost holds = { λ _ _ _ _ _ _. Unit {0} };

    ghost leaves = { λ _ _ _ _ _. Unit {0} };

    ghost passes = { λ _ _ _ _ _ _. Unit {0} };

    ghost faults = { λ _. 0 };

    ghost ready_after = { λ _ _ _ _. tt };

    ghost held_is_left = { λ _ _ _ _ _ _ _. tt };

    ghost held_passes = { λ _ _ _ _ _ _ _. tt };

    ghost last_is_left = { λ _ _ _ _ _ _ _. tt };

    ghost then_passes = { λ _ _ _ _ _ _ _ _ _. tt };

    ghost fewer_are_left = { λ _ _ _ _ _ _ _ _ _. tt };

    ghost fewer_pass = { λ _ _ _ _ _ _ _ _ _ _. tt };

    fn keeps(&self) -> bool {
        false
    }

    fn take(&mut self, _disk: &mut (), _change: &[u8]) -> Result<(), DiskFailed> {
        Ok(())
    }

    fn keep(&mut self, _disk: &mut ()) -> Result<(), DiskFailed> {
        Ok(())
    }
}

/// The changes that wait for a store, and the place of its closed gate.
#[derive(Drop)]
pub struct Store {
    gate: u64,
    group: Group,
}

impl Model for Store {
    ghost use Rattle.mk_journal.specs.Keepers.{StoreOf};
    ghost use Rattle.std.specs.Prelude.{◌+◌, ◌≤◌, length};

    ghost Value = { StoreOf };

    ghost view = { λ s. record { gate = s.gate; waiting = s.group } };

    ghost invariant = { λ s. length s.group + 1 ≤ 102400 };
}

impl Store {
    ghost use Rattle.std.specs.Prelude.{◌≡◌, ℕ, ◌+◌, ◌^◌, ◌<◌, ◌≤◌, List, [], ◌++◌, length, IsTrue, IfSome, OnOk, OnErr};
    ghost use Rattle.mk_disk.specs.Disk.{HasCause};
    ghost use Rattle.mk_journal.specs.Keepers.{Holds, IsHeld, IsReady};
    ghost use Rattle.mk_journal.specs.Market.{IsFront};
    ghost use Rattle.mk_journal.specs.Moments.{LeavesOnly};

    /// The store that has its closed gate at `gate`, and nothing waits for it.
    pub fn new(gate: u64, group: Group) -> Store
        requires { group ≡ [] }
        ensures { result ≡ record { gate = gate; waiting = [] } }
    {
        Store { gate, group }
    }

    // Keeps all that waits.
    fn commit<K: Disk>(&mut self, disk: &mut K) -> Result<(), DiskFailed>
        requires ready { (n : ℕ) × (n < 2 ^ 40) × IsReady (K.is_open disk.old) (K.file disk.old (K.open_name disk.old)) self.old n }
        ensures cause { HasCause (K.faults disk.old) (K.faults disk.new) result }
        ensures stays_name { K.open_name disk.new ≡ K.open_name disk.old }
        ensures ready { (n : ℕ) → n < 2 ^ 40 → IsReady (K.is_open disk.old) (K.file disk.old (K.open_name disk.old)) self.old n
            → OnOk result (IsReady (K.is_open disk.new) (K.file disk.new (K.open_name disk.old)) self.new n) }
        ensures none { OnOk result (self.new.waiting ≡ []) }
        ensures kept { (name market : List ℕ) (kept waiting : List (List ℕ)) → name ≡ K.open_name disk.old
            → IsHeld (K.file disk.old name) (K.may_leave disk.old name) self.old market kept waiting
            → OnOk result (IsHeld (K.file disk.new name) (K.may_leave disk.new name) self.new market (kept ++ waiting) []) }
        ensures any_moment { (name market : List ℕ) (kept waiting : List (List ℕ)) → name ≡ K.open_name disk.old
            → IsHeld (K.file disk.old name) (K.may_leave disk.old name) self.old market kept waiting
            → LeavesOnly (K.moment disk.old) (K.moment disk.new) (K.left_since disk.old name) (K.left_since disk.new name) (IsFront market (kept ++ waiting) (length kept)) }
    {
        self.gate = self.group.commit(disk, self.gate)?;
        Ok(())
    }

    // Keeps what waits, unless there is room for a change of so many bytes.
    fn make_room<K: Disk>(&mut self, disk: &mut K, size: usize) -> Result<(), DiskFailed>
        requires size { size ≤ MAX_RECORD_BYTES }
        requires ready { (n : ℕ) × (n < 2 ^ 40) × IsReady (K.is_open disk.old) (K.file disk.old (K.open_name disk.old)) self.old n }
        ensures cause { HasCause (K.faults disk.old) (K.faults disk.new) result }
        ensures stays_name { K.open_name disk.new ≡ K.open_name disk.old }
        ensures ready { (n : ℕ) → n < 2 ^ 40 → IsReady (K.is_open disk.old) (K.file disk.old (K.open_name disk.old)) self.old n
            → OnOk result (IsReady (K.is_open disk.new) (K.file disk.new (K.open_name disk.old)) self.new n) }
        ensures room { OnOk result (length self.new.waiting + size + 6 ≤ 102400) }
        ensures held { (name market : List ℕ) (kept waiting : List (List ℕ)) → name ≡ K.open_name disk.old
            → IsHeld (K.file disk.old name) (K.may_leave disk.old name) self.old market kept waiting
            → OnOk result (Holds (IsHeld (K.file disk.new name) (K.may_leave disk.new name) self.new market) (length kept) (kept ++ waiting)) }
        ensures any_moment { (name market : List ℕ) (kept waiting : List (List ℕ)) → name ≡ K.open_name disk.old
            → IsHeld (K.file disk.old name) (K.may_leave disk.old name) self.old market kept waiting
            → LeavesOnly (K.moment disk.old) (K.moment disk.new) (K.left_since disk.old name) (K.left_since disk.new name) (IsFront market (kept ++ waiting) (length kept)) }
    {
        if self.group.has_room(size) {
            return Ok(());
        }
        self.commit(disk)
    }
}

impl<K: Disk> Keeper<K> for Store {
    ghost use Rattle.std.specs.Prelude.{◌≡◌, ℕ, ◌+◌, ◌*◌, ◌^◌, ◌<◌, ◌≤◌, List, length, IsTrue, IfSome};
    ghost use Rattle.mk_journal.specs.Keepers.{IsHeld, IsReady};
    ghost use Rattle.mk_journal.specs.Market.{IsFront};
    ghost use Rattle.mk_journal.specs.Moments.{LeavesOnly};
    ghost use Rattle.mk_journal.specs.inner.MomentLaws.{started, then, weaken};
    ghost use Rattle.mk_journal.specs.inner.HeldLaws.{held_left, front_fewer, ready_later};

    ghost is_ready = { λ s d n. IsReady (K.is_open d) (K.file d (K.open_name d)) s n };

    ghost holds = { λ s d name market kept waiting. (name ≡ K.open_name d) × IsHeld (K.file d name) (K.may_leave d name) s market kept waiting };

    ghost leaves = { λ d name market all least. (c : List ℕ) → K.may_leave d name c → IsFront market all least c };

    ghost passes = { λ before now name market all least. LeavesOnly (K.moment before) (K.moment now) (K.left_since before name) (K.left_since now name) (IsFront market all least) };

    ghost faults = { λ d. K.faults d };

    ghost ready_after = { λ s d n ready. ready_later ready };

    ghost held_is_left = { λ s d name market kept waiting held c left. held_left held.1 c left };

    ghost held_passes = { λ s d name market kept waiting held. started (λ c left. held_left held.1 c (K.only_now d name c left)) };

    ghost last_is_left = { λ before now name market all least moments c left. moments.each c (K.counts_now now name (K.moment before) c moments.later left) };

    ghost then_passes = { λ before mid now name market all least first second. then first second };

    ghost fewer_are_left = { λ d name market all more least fewer less left c is. front_fewer more less (left c is) };

    ghost fewer_pass = { λ before now name market all more least fewer less moments. weaken (λ c is. front_fewer more less is) moments };

    fn keeps(&self) -> bool {
        true
    }

    fn take(&mut self, disk: &mut K, change: &[u8]) -> Result<(), DiskFailed> {
        self.make_room(disk, change.len())?;
        self.group.put(change);
        Ok(())
    }

    fn keep(&mut self, disk: &mut K) -> Result<(), DiskFailed> {
        self.commit(disk)
    }
}
