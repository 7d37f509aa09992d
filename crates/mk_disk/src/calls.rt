//! The count of a disk's calls, and the calls that are to fail.

ghost use Rattle.std.specs.Prelude.{◌≡◌, ◌≤◌, ◌↔◌, IsTrue};
ghost use Rattle.mk_disk.specs.Disk.{Rose};
ghost use Rattle.mk_disk.specs.Memory.{counted, failed, starved, uncalled, IsFailing};

use std::marker::Model;

/// The calls so far.
#[derive(Drop)]
pub struct Calls {
    failing: Vec<u64>,
    count: u64,
    faults: u64,
    wanting: u64,
}

impl Model for Calls {
    ghost use Rattle.mk_disk.specs.Memory.{Called};

    ghost Value = { Called };

    ghost view = { λ c. record { failing = c.failing.items; count = c.count; faults = c.faults; wanting = c.wanting } };
}

impl Calls {
    /// No calls, of which those with these numbers are to fail.
    pub fn new(failing: Vec<u64>) -> Calls
        ensures { result ≡ uncalled failing.items }
    {
        Calls {
            failing,
            count: 0,
            faults: 0,
            wanting: 0,
        }
    }

    /// How many there were.
    pub fn count(&self) -> u64
        ensures { result ≡ self.now.count }
    {
        self.count
    }

    /// Counts a call, and says whether it is to fail.
    pub fn begin(&mut self) -> bool
        ensures counts { self.new ≡ counted self.old }
        ensures fails { IsTrue result ↔ IsFailing self.old }
    {
        self.count = self.count.saturating_add(1);
        self.failing.contains(&self.count)
    }

    /// Counts the failure of a call that was to fail.
    pub fn fail(&mut self)
        ensures counts { self.new ≡ failed self.old }
        ensures later { self.old.faults ≤ self.new.faults }
        ensures rose { Rose self.old.faults self.new.faults }
    {
        self.faults = self.faults.saturating_add(1);
    }

    /// Counts the failure of a call for want of memory.
    pub fn starve(&mut self)
        ensures counts { self.new ≡ starved self.old }
        ensures later { self.old.faults ≤ self.new.faults }
        ensures rose { Rose self.old.faults self.new.faults }
    {
        self.fail();
        self.wanting = self.wanting.saturating_add(1);
    }
}
