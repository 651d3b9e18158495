//! A disk in memory.
ghost use Rattle.std.specs.Prelude.{◌≡◌, ◌↔◌, ◌≤◌, ◌+◌, ℕ, [], None, Some, length, take, drop, option_map, is_ok, if◌then◌else◌, IsErr, IfOk, IfSome, OnOk, OnErr};
ghost use Rattle.disk_model.specs.Causes.{HasCause};
ghost use Rattle.disk_model.specs.Changes.{written, Torn, PartlyCut};
ghost use Rattle.disk_model.specs.Told.{KeepsAll, KeepsOthers, Follows, IsSettled, Steps, LeavesOne};
ghost use Rattle.disk_model.specs.Pending.{Wrote, CutTo, reads, settled, after_change, after_sync, after_power_loss};
ghost use Rattle.disk_model.specs.Time.{Elapses};
ghost use Rattle.disk_model.specs.Memory.{content_of, left_of, moment_of, since_of, FailsNext, HasFailed, after_look, after_fault, after_success, after_starving, after_revival};

use crate::area::Area;
use crate::calls::Calls;
use crate::disk::{Disk, DiskFailed};
use crate::held::Held;
use std::alloc::{AllocError, Global};
use std::marker::Model;

/// Four areas in memory, a list of the calls that are to fail, and a number of calls after which each
/// one fails.
///
/// It keeps what was there for good when it was made or last lost power and all that was done since, so that it can lose power:
/// what is left is fixed by a number. A sync copies no bytes. Calls of `len`, `read_at`, `write_at`, `cut` and `sync` are counted
/// together, from 1 on, up to 2^64 - 1, where the count stands still. A call that fails changes nothing but the counts.
#[derive(Debug, Drop)]
pub struct MemoryDisk {
    alloc: Global,
    held: Held,
    calls: Calls,
}

impl Model for MemoryDisk {
    ghost use Rattle.disk_model.specs.Memory.{DiskState};

    ghost Value = { DiskState };

    ghost view = { λ s. record { held = s.held; calls = s.calls } };
}

impl MemoryDisk {
    /// Four empty areas. A call fails only where it is out of memory. It takes no memory
    /// itself.
    pub fn new(alloc: Global) -> MemoryDisk
        ensures { result ≡ record {
          held = settled (record { pages = []; log_a = []; log_b = []; super_area = [] });
          calls = record { made = 0; fails = []; stop_after = None; faults = 0; starved = 0 };
        } }
    {
        MemoryDisk::failing(alloc, Vec::new(alloc), None)
    }

    /// Four empty areas. The calls of these numbers fail, and each call after so many. It takes no
    /// memory.
    pub fn failing(alloc: Global, fails: Vec<u64>, stop_after: Option<u64>) -> MemoryDisk
        ensures { result ≡ record {
          held = settled (record { pages = []; log_a = []; log_b = []; super_area = [] });
          calls = record { made = 0; fails = fails.items; stop_after = stop_after; faults = 0; starved = 0 };
        } }
    {
        MemoryDisk {
            alloc,
            held: Held::new(alloc),
            calls: Calls::new(fails, stop_after),
        }
    }

    /// The area as it reads.
    pub fn bytes(&self, area: Area) -> &[u8]
        ensures { result.now ≡ reads self.now.held area }
    {
        self.held.bytes(area)
    }

    /// A disk with the same content, pending calls, counts and failures.
    pub fn copy(&self) -> Result<MemoryDisk, AllocError>
        ensures { IfOk result (λ copy. copy ≡ self.now) }
    {
        Ok(MemoryDisk {
            alloc: self.alloc,
            held: self.held.copy()?,
            calls: self.calls.copy(self.alloc)?,
        })
    }

    /// Takes away the list of failing calls and the number after which all fail, and nothing else.
    pub fn revive(&mut self)
        ensures { self.new ≡ record self.old { calls = after_revival self.old.calls } }
    {
        self.calls.revive();
    }

    /// How many calls failed because they found no memory, up to 2^64 - 1.
    pub fn starved(&self) -> u64
        ensures { result ≡ self.now.calls.starved }
    {
        self.calls.starved()
    }
}

impl Disk for MemoryDisk {
    ghost use Rattle.disk_model.specs.Stays.{reads_stay, told_all, counts, only};

    ghost content = { content_of };

    ghost may_leave = { left_of };

    ghost faults = { λ s. s.calls.faults };

    ghost reads_may_stay = { reads_stay };

    ghost told_together = { told_all };

    ghost moment = { moment_of };

    ghost left_since = { since_of };

    ghost counts_now = { counts };

    ghost only_now = { only };

    /// How many bytes the area has, or fails where this call is on the list or past the stop.
    fn len(&mut self, area: Area) -> Result<u64, DiskFailed>
        ensures len { IfOk result (λ n. IfSome (content_of self.old area) (λ c. n ≡ length c)) }
        ensures keeps { KeepsAll content_of left_of self.old self.new }
        ensures cause { HasCause self.old.calls.faults self.new.calls.faults result }
        ensures time { Elapses left_of moment_of since_of self.old self.new }

        // Which calls fail, and that nothing but the counts changes.
        ensures fails { IsErr result ↔ FailsNext self.old.calls }
        ensures after { self.new ≡ (if is_ok result then after_look self.old else after_fault self.old) }
    {
        self.calls.begin()?;
        Ok(self.held.bytes(area).len() as u64)
    }

    /// Reads, or fails where this call is on the list or past the stop. The buffer then stays.
    fn read_at(&mut self, area: Area, at: u64, into: &mut [u8]) -> Result<(), DiskFailed>
        requires { IfSome (content_of self.old area) (λ c. at + length into.old ≤ length c) }
        ensures bytes { OnOk result (IfSome (content_of self.old area) (λ c. into.new ≡ take (length into.old) (drop at c))) }
        ensures keeps { KeepsAll content_of left_of self.old self.new }
        ensures cause { HasCause self.old.calls.faults self.new.calls.faults result }
        ensures time { Elapses left_of moment_of since_of self.old self.new }

        // Which calls fail, and that nothing but the counts changes.
        ensures fails { IsErr result ↔ FailsNext self.old.calls }
        ensures after { self.new ≡ (if is_ok result then after_look self.old else after_fault self.old) }
        ensures buffer { OnErr result (into.new ≡ into.old) }
    {
        self.calls.begin()?;
        let at = at as usize;
        into.copy_from_slice(&self.held.bytes(area)[at..at + into.len()]);
        Ok(())
    }

    /// Writes, or fails where this call is on the list or past the stop or there is no memory. A
    /// failed write changes nothing. Zero bytes fill the gap where the offset is past the end.
    fn write_at(&mut self, area: Area, at: u64, bytes: &[u8]) -> Result<(), DiskFailed>
        ensures bytes { OnOk result (content_of self.new area ≡ option_map (written at bytes.now) (content_of self.old area)) }
        ensures torn { OnErr result (Steps (Torn at (length bytes.now)) (content_of self.old area) (content_of self.new area)) }
        ensures left { Follows content_of left_of (Torn at (length bytes.now)) self.old self.new area }
        ensures keeps { KeepsOthers content_of left_of self.old self.new area }
        ensures cause { HasCause self.old.calls.faults self.new.calls.faults result }
        ensures time { Elapses left_of moment_of since_of self.old self.new }

        // What a write does, and which fail.
        ensures after { OnOk result (self.new ≡ after_success self.old (after_change self.old.held area (Wrote at bytes.now))) }
        ensures listed { FailsNext self.old.calls → IsErr result × (self.new ≡ after_fault self.old) }
        ensures unlisted { OnErr result (HasFailed self.old self.new) }
    {
        self.calls.begin()?;
        match self.held.write(area, at, bytes) {
            Ok(()) => Ok(()),
            Err(AllocError) => Err(self.calls.starve()),
        }
    }

    /// Cuts, or fails where this call is on the list or past the stop or there is no memory. A failed
    /// cut changes nothing, and so does one to more than the length.
    fn cut(&mut self, area: Area, len: u64) -> Result<(), DiskFailed>
        ensures bytes { OnOk result (content_of self.new area ≡ option_map (take len) (content_of self.old area)) }
        ensures torn { OnErr result (Steps (PartlyCut len) (content_of self.old area) (content_of self.new area)) }
        ensures left { Follows content_of left_of (PartlyCut len) self.old self.new area }
        ensures keeps { KeepsOthers content_of left_of self.old self.new area }
        ensures cause { HasCause self.old.calls.faults self.new.calls.faults result }
        ensures time { Elapses left_of moment_of since_of self.old self.new }

        // What a cut does, and which fail.
        ensures after { OnOk result (self.new ≡ after_success self.old (after_change self.old.held area (CutTo len))) }
        ensures listed { FailsNext self.old.calls → IsErr result × (self.new ≡ after_fault self.old) }
        ensures unlisted { OnErr result (HasFailed self.old self.new) }
    {
        self.calls.begin()?;
        match self.held.cut(area, len) {
            Ok(()) => Ok(()),
            Err(AllocError) => Err(self.calls.starve()),
        }
    }

    /// Makes what the area reads last, or fails where this call is on the list or past the stop or
    /// there is no memory. A failed sync changes nothing.
    fn sync(&mut self, area: Area) -> Result<(), DiskFailed>
        ensures lasts { OnOk result (IsSettled content_of left_of self.new area) }
        ensures keeps { KeepsAll content_of left_of self.old self.new }
        ensures cause { HasCause self.old.calls.faults self.new.calls.faults result }
        ensures time { Elapses left_of moment_of since_of self.old self.new }

        // What a sync does, and which fail.
        ensures after { OnOk result (self.new ≡ after_success self.old (after_sync self.old.held area)) }
        ensures listed { FailsNext self.old.calls → IsErr result × (self.new ≡ after_fault self.old) }
        ensures unlisted { OnErr result (HasFailed self.old self.new) }
    {
        self.calls.begin()?;
        match self.held.sync(area) {
            Ok(()) => Ok(()),
            Err(AllocError) => Err(self.calls.starve()),
        }
    }

    /// Loses power. Of the writes and cuts that no sync made last, over all areas in the order of their
    /// calls, pick 0 leaves none and pick 1 all. Each other pick k leaves the first j, where j is k - 2
    /// modulo one more than their number, and the next one torn: a write leaves the first half of its
    /// bytes, rounded down, and k modulo 256 in the place of the others, and a cut isn't done. A write
    /// that then begins past the end of its area fills the gap with zero bytes.
    ///
    /// It fails only where it is out of memory. It isn't counted among the calls.
    fn lose_power(&mut self, pick: u32) -> Result<(), DiskFailed>
        ensures leaves { OnOk result (LeavesOne content_of left_of self.old self.new) }
        ensures keeps { OnErr result (KeepsAll content_of left_of self.old self.new) }
        ensures cause { HasCause self.old.calls.faults self.new.calls.faults result }

        // What is left, and that nothing but the counts changes at a failure.
        ensures after { self.new ≡ (if is_ok result
            then record self.old { held = after_power_loss self.old.held pick }
            else record self.old { calls = after_starving self.old.calls }) }
    {
        match self.held.lose_power(pick) {
            Ok(()) => Ok(()),
            Err(AllocError) => Err(self.calls.starve()),
        }
    }

    /// How many calls failed, up to 2^64 - 1.
    fn faults(&self) -> u64
        ensures { result ≡ self.now.calls.faults }
    {
        self.calls.faults()
    }
}
