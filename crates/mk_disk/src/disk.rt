//! The trait of a disk, with what a crash may leave of its files.

ghost use Rattle.std.specs.Prelude.{◌≡◌, ◌≢◌, ℕ, ◌<◌, ◌≤◌, List, Option, Some, Bool, is_some, option_map, length, IsTrue, IfOk, OnOk, OnErr, IfSome};
ghost use Rattle.mk_disk.specs.Disk.{HasCause, overwritten, Torn, Only, Follows, NoMore, Elapses, Fills};

/// A call of a disk failed.
#[derive(Clone, Copy, Debug, PartialEq, Eq)]
pub struct DiskFailed;

/// A disk of named files, of which one is open.
///
/// What an implementation tells is in its ghost members: what a read gives of the file of each name, which images of
/// it a crash now may leave, and which a crash at some moment since a given one might have left. An absent file counts
/// as an empty one. A call fails only where the count `faults` rose in it, and else leaves that count as it was.
pub trait Disk {
    // the names that may be opened
    ghost admits: { List ℕ → Type 0 };
    // whether a file is open, and its name
    ghost is_open: { Self → Bool };

    ghost open_name: { Self → List ℕ };
    // what a read gives of the file of a name, where this is told
    ghost file: { Self → List ℕ → Option (List ℕ) };
    // what a crash now may leave of the file of a name
    ghost may_leave: { Self → List ℕ → List ℕ → Type 0 };
    // the moment, as a number that does not fall
    ghost moment: { Self → ℕ };
    // what a crash at some moment from that one on might have left of the file of a name
    ghost left_since: { Self → List ℕ → ℕ → List ℕ → Type 0 };
    // how many calls have failed
    ghost faults: { Self → ℕ };

    /// Makes the file of a name the open one, an empty one where there is none.
    fn open(&mut self, name: &str) -> Result<(), DiskFailed>
        requires { admits name.now }
        ensures cause { HasCause (faults self.old) (faults self.new) result }
        ensures opened { OnOk result (IsTrue (is_open self.new)) }
        ensures opened_name { OnOk result (open_name self.new ≡ name.now) }
        ensures not_opened { OnErr result (is_open self.new ≡ is_open self.old) }
        ensures not_opened_name { OnErr result (open_name self.new ≡ open_name self.old) }
        ensures files { (n : List ℕ) → file self.new n ≡ file self.old n }
        ensures images { (n : List ℕ) → NoMore (may_leave self.old n) (may_leave self.new n) }
        ensures time { (n : List ℕ) → Elapses (moment self.old) (moment self.new) (left_since self.old n) (left_since self.new n) (may_leave self.new n) };

    /// The length of the open file.
    fn length(&mut self) -> Result<u64, DiskFailed>
        requires { IsTrue (is_open self.old) }
        ensures cause { HasCause (faults self.old) (faults self.new) result }
        ensures amount { IfOk result (λ len. IfSome (file self.old (open_name self.old)) (λ f. len ≡ length f)) }
        ensures stays { is_open self.new ≡ is_open self.old }
        ensures stays_name { open_name self.new ≡ open_name self.old }
        ensures files { (n : List ℕ) → file self.new n ≡ file self.old n }
        ensures images { (n : List ℕ) → NoMore (may_leave self.old n) (may_leave self.new n) }
        ensures time { (n : List ℕ) → Elapses (moment self.old) (moment self.new) (left_since self.old n) (left_since self.new n) (may_leave self.new n) };

    /// Reads the bytes of the open file from a place on, as many as have room and are there, and says how many.
    fn read_at(&mut self, at: u64, buf: &mut [u8]) -> Result<usize, DiskFailed>
        requires { IsTrue (is_open self.old) }
        ensures cause { HasCause (faults self.old) (faults self.new) result }
        ensures bound { IfOk result (λ count. count ≤ length buf.new) }
        ensures reads { IfOk result (λ count. IfSome (file self.old (open_name self.old)) (λ f. Fills f at count buf.new)) }
        ensures stays { is_open self.new ≡ is_open self.old }
        ensures stays_name { open_name self.new ≡ open_name self.old }
        ensures files { (n : List ℕ) → file self.new n ≡ file self.old n }
        ensures images { (n : List ℕ) → NoMore (may_leave self.old n) (may_leave self.new n) }
        ensures time { (n : List ℕ) → Elapses (moment self.old) (moment self.new) (left_since self.old n) (left_since self.new n) (may_leave self.new n) };

    /// Writes over the bytes of the open file from a place on, and past its end. Until a sync, a crash may leave any
    /// bytes in the range. A write that fails may leave what a crash within it could.
    fn write_at(&mut self, at: u64, bytes: &[u8]) -> Result<(), DiskFailed>
        requires is_open { IsTrue (is_open self.old) }
        requires place { IfSome (file self.old (open_name self.old)) (λ f. at ≤ length f) }
        requires some { 0 < length bytes.now }
        ensures cause { HasCause (faults self.old) (faults self.new) result }
        ensures written { OnOk result (file self.new (open_name self.old) ≡ option_map (overwritten at bytes.now) (file self.old (open_name self.old))) }
        ensures told { is_some (file self.new (open_name self.old)) ≡ is_some (file self.old (open_name self.old)) }
        ensures torn { Follows (Torn at (length bytes.now)) (may_leave self.old (open_name self.old)) (may_leave self.new (open_name self.old)) }
        ensures stays { is_open self.new ≡ is_open self.old }
        ensures stays_name { open_name self.new ≡ open_name self.old }
        ensures others { (n : List ℕ) → n ≢ open_name self.old → file self.new n ≡ file self.old n }
        ensures other_images { (n : List ℕ) → n ≢ open_name self.old → NoMore (may_leave self.old n) (may_leave self.new n) }
        ensures time { (n : List ℕ) → Elapses (moment self.old) (moment self.new) (left_since self.old n) (left_since self.new n) (may_leave self.new n) };

    /// Makes the bytes of the open file durable: after it, a crash leaves what a read gives.
    fn sync(&mut self) -> Result<(), DiskFailed>
        requires { IsTrue (is_open self.old) }
        ensures cause { HasCause (faults self.old) (faults self.new) result }
        ensures durable { OnOk result (IfSome (file self.old (open_name self.old)) (λ f. Only f (may_leave self.new (open_name self.old)))) }
        ensures stays { is_open self.new ≡ is_open self.old }
        ensures stays_name { open_name self.new ≡ open_name self.old }
        ensures files { (n : List ℕ) → file self.new n ≡ file self.old n }
        ensures images { (n : List ℕ) → NoMore (may_leave self.old n) (may_leave self.new n) }
        ensures time { (n : List ℕ) → Elapses (moment self.old) (moment self.new) (left_since self.old n) (left_since self.new n) (may_leave self.new n) };

    // what a read gives is one of the images
    ghost is_image: { (disk : Self) (n f : List ℕ) → file disk n ≡ Some f → may_leave disk n f };
    // this moment is one of those since an earlier one
    ghost counts_now: { (disk : Self) (n : List ℕ) (t : ℕ) (c : List ℕ) → t ≤ moment disk → may_leave disk n c → left_since disk n t c };
    // since this moment there is no other
    ghost only_now: { (disk : Self) (n c : List ℕ) → left_since disk n (moment disk) c → may_leave disk n c };
}
