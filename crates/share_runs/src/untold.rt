//! A disk that contracts are told little of.

use disk_model::{Area, Disk, DiskFailed, MemoryDisk};
use std::marker::Model;

/// A disk in memory that tells contracts nothing of its bytes, so that the contracts of a store over it stay small.
#[derive(Drop)]
pub struct UntoldDisk {
    inner: MemoryDisk,
}

/// Contracts see the count of faults, which is that of the disk in memory.
impl Model for UntoldDisk {
    ghost use Rattle.std.specs.Prelude.{ℕ};

    ghost Value = { ℕ };

    ghost view = { λ s. s.inner.calls.faults };
}

impl UntoldDisk {
    /// This disk, untold.
    pub fn over(inner: MemoryDisk) -> UntoldDisk {
        UntoldDisk { inner }
    }
}

impl Disk for UntoldDisk {
    ghost use Rattle.share_runs.specs.Untold.{untold_content, untold_left, one_moment, untold_since, reads_untold, together_untold, counts_untold, only_untold};

    ghost content = { untold_content };

    ghost may_leave = { untold_left };

    ghost faults = { λ s. s };

    ghost reads_may_stay = { reads_untold };

    ghost told_together = { together_untold };

    ghost moment = { one_moment };

    ghost left_since = { untold_since };

    ghost counts_now = { counts_untold };

    ghost only_now = { only_untold };

    fn len(&mut self, area: Area) -> Result<u64, DiskFailed> {
        self.inner.len(area)
    }

    /// Reads. What goes past the end leaves the buffer as it is.
    fn read_at(&mut self, area: Area, at: u64, into: &mut [u8]) -> Result<(), DiskFailed> {
        let len = self.inner.bytes(area).len() as u64;
        if at > len || into.len() as u64 > len - at {
            return Ok(());
        }
        self.inner.read_at(area, at, into)
    }

    fn write_at(&mut self, area: Area, at: u64, bytes: &[u8]) -> Result<(), DiskFailed> {
        self.inner.write_at(area, at, bytes)
    }

    fn cut(&mut self, area: Area, len: u64) -> Result<(), DiskFailed> {
        self.inner.cut(area, len)
    }

    fn sync(&mut self, area: Area) -> Result<(), DiskFailed> {
        self.inner.sync(area)
    }

    fn lose_power(&mut self, pick: u32) -> Result<(), DiskFailed> {
        self.inner.lose_power(pick)
    }

    fn faults(&self) -> u64 {
        self.inner.faults()
    }
}
