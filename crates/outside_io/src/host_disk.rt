//! The disk of the operating system. This is the edge to the system: no contract says which bytes it
//! keeps.
ghost use Rattle.std.specs.Prelude.{◌≡◌, ◌≤◌, false, is_ok, if◌then◌else◌, IsOk, IsErr, IsTrue, IfOk};
ghost use Rattle.disk_model.specs.Causes.{HasCause, Rose};
ghost use Rattle.outside_io.specs.HostDisk.{after_fault, after_failed_sync};

use crate::host_files::HostFiles;
use disk_model::{Area, Disk, DiskFailed};
use std::alloc::{AllocError, Global};
use std::fs::{File, Files, TryLockError};
use std::io;
use std::marker::Model;
use thiserror::Error;

/// What [`HostDisk::locked`] answers in place of a disk.
#[derive(Debug, Drop, Error)]
pub enum LockRefusal {
    /// Another disk has the lock, of another program or of this one.
    #[error("another program has opened the store")]
    InUse,
    /// The operating system failed a call: `brahma.super` or its folder can't be opened, the folder
    /// can't be synced, the file can't be locked, the run can't be marked, or a file can't be made anew.
    #[error("the store can't be had: {0}")]
    Failed(io::Error),
    /// Out of memory. Nothing was asked of the operating system.
    #[error("out of memory")]
    Memory,
}

impl From<TryLockError> for LockRefusal {
    fn from(error: TryLockError) -> LockRefusal {
        match error {
            TryLockError::WouldBlock => LockRefusal::InUse,
            TryLockError::Error(error) => LockRefusal::Failed(error),
        }
    }
}

/// The disk of the operating system: the files `brahma.pages`, `brahma.loga`, `brahma.logb` and
/// `brahma.super` of a folder, with a count of the calls that failed. It tells contracts nothing of
/// their bytes.
///
/// A file that isn't there is made, empty, at the first call on its area. Its folder is synced then, so
/// that its name lasts. A call on an area whose file can't be opened fails, and the next one tries again.
/// Each is a plain file: a folder, a device or a link isn't opened. None has the descriptor of a standard
/// stream, also where one was closed when the program started.
///
/// A write or a cut fails where the file no longer lies under its name, or has another length than it is to have. So does a sync of a
/// file that was not written since the last one. The byte that commits a batch in a log area goes in without that test: the write of the
/// batch made it.
/// After a sync that failed each later sync fails: the operating system may have dropped what it could
/// not write, and tells of it only once. A later program could read it from the system's memory all the
/// same. So a disk with the lock leaves a mark, the file `brahma.open`, which [`HostDisk::end_run`] takes
/// away where no call failed; and where the mark of an earlier run is found, all files are made anew.
#[derive(Drop)]
pub struct HostDisk<R: Files<File = File>> {
    files: HostFiles<R>,
    faults: u64,
    sync_failed: bool,
}

impl<R: Files<File = File>> Model for HostDisk<R> {
    ghost use Rattle.outside_io.specs.HostDisk.{HostState};

    ghost Value = { HostState };

    ghost view = { λ s. record { faults = s.faults; sync_failed = s.sync_failed } };
}

impl<R: Files<File = File> + Drop> HostDisk<R> {
    /// The disk of this folder, `.` for the current one. It asks nothing of the operating system, takes no
    /// lock, and is not kept away by one. Its calls take no memory.
    pub fn new(alloc: Global, files: R, folder: &str) -> Result<HostDisk<R>, AllocError>
        ensures { IfOk result (λ disk. disk ≡ record { faults = 0; sync_failed = false }) }
    {
        Ok(HostDisk {
            files: HostFiles::new(alloc, files, folder)?,
            faults: 0,
            sync_failed: false,
        })
    }

    /// The disk of this folder, `.` for the current one, with the lock of `brahma.super`, which is made,
    /// empty, where it isn't there. It has the lock until it is dropped or the program ends.
    ///
    /// Where the last run with the lock did not come to [`HostDisk::end_run`], or a call failed in it, each file
    /// is made anew first, by way of the name `brahma.new`: a new file with the same bytes is made to last, and
    /// then gets the name of the old one. Else only the names in the folder are made to last.
    ///
    /// It is refused where another disk has the lock ([`LockRefusal::InUse`]), where the operating system
    /// fails a call ([`LockRefusal::Failed`]), and out of memory ([`LockRefusal::Memory`]).
    pub fn locked(alloc: Global, files: R, folder: &str) -> Result<HostDisk<R>, LockRefusal>
        ensures { IfOk result (λ disk. disk ≡ record { faults = 0; sync_failed = false }) }
    {
        let mut disk = HostDisk::new(alloc, files, folder).map_err(|_| LockRefusal::Memory)?;
        disk.files.lock().map_err(LockRefusal::from)?;
        disk.files.begin().map_err(LockRefusal::Failed)?;
        Ok(disk)
    }

    /// Tells that the run ends, as the last thing that is done with this disk. Where no call of it failed, and it has the lock, the
    /// mark of the run is taken away; else the next run with the lock makes all files anew.
    pub fn end_run(&self) {
        if self.faults == 0 {
            self.files.end();
        }
    }

    /// Why the first call failed, where one did: what the operating system answered, or `InvalidInput` where a file is no plain one
    /// or is shorter than what was asked, `InvalidData` where somebody else changed its length, and `NotFound` where it no longer
    /// lies under its name. It is for a message alone.
    pub fn reason(&self) -> Option<io::Error> {
        self.files.reason()
    }

    /// What was answered, with a failure counted.
    #[inline(always)]
    fn counted<T: Drop>(&mut self, answer: Result<T, DiskFailed>) -> Result<T, DiskFailed>
        ensures told { is_ok result ≡ is_ok answer }
        ensures cause { HasCause self.old.faults self.new.faults result }
        ensures counted { self.new ≡ (if is_ok result then self.old else after_fault self.old) }
    {
        match answer {
            Ok(value) => Ok(value),
            Err(failed) => Err(self.counting(failed)),
        }
    }

    /// One failure more.
    fn counting(&mut self, failed: DiskFailed) -> DiskFailed
        ensures cause { Rose self.old.faults self.new.faults × (self.old.faults ≤ self.new.faults) }
        ensures counted { self.new ≡ after_fault self.old }
    {
        self.faults = self.faults.saturating_add(1);
        failed
    }
}

impl<R: Files<File = File> + Drop + Send> Disk for HostDisk<R> {
    ghost use Rattle.outside_io.specs.HostDisk.{untold_content, untold_left, one_moment, untold_since, reads_untold, together_untold, counts_untold, only_untold};

    ghost content = { untold_content };

    ghost may_leave = { untold_left };

    ghost faults = { λ s. s.faults };

    ghost reads_may_stay = { reads_untold };

    ghost told_together = { together_untold };

    ghost moment = { one_moment };

    ghost left_since = { untold_since };

    ghost counts_now = { counts_untold };

    ghost only_now = { only_untold };

    /// How many bytes the area has. [`DiskFailed`] comes where the operating system fails a call.
    fn len(&mut self, area: Area) -> Result<u64, DiskFailed>
        ensures cause { HasCause self.old.faults self.new.faults result }
        ensures counted { self.new ≡ (if is_ok result then self.old else after_fault self.old) }
    {
        let answer = self.files.len(area);
        self.counted(answer)
    }

    /// Reads. [`DiskFailed`] comes where the operating system fails a call, and where the read ends past
    /// the end of the area. A read that is interrupted or gives only some bytes is gone on with.
    fn read_at(&mut self, area: Area, at: u64, into: &mut [u8]) -> Result<(), DiskFailed>
        ensures cause { HasCause self.old.faults self.new.faults result }
        ensures counted { self.new ≡ (if is_ok result then self.old else after_fault self.old) }
    {
        let answer = self.files.read_at(area, at, into);
        self.counted(answer)
    }

    /// Writes. [`DiskFailed`] comes where the operating system fails a call, and where the write begins
    /// past the end of the area. A write that is interrupted or takes only some bytes is gone on with.
    fn write_at(&mut self, area: Area, at: u64, bytes: &[u8]) -> Result<(), DiskFailed>
        ensures cause { HasCause self.old.faults self.new.faults result }
        ensures counted { self.new ≡ (if is_ok result then self.old else after_fault self.old) }
    {
        let answer = self.files.write_at(area, at, bytes);
        self.counted(answer)
    }

    /// Cuts. [`DiskFailed`] comes where the operating system fails a call, and where the area is shorter
    /// than that.
    fn cut(&mut self, area: Area, len: u64) -> Result<(), DiskFailed>
        ensures cause { HasCause self.old.faults self.new.faults result }
        ensures counted { self.new ≡ (if is_ok result then self.old else after_fault self.old) }
    {
        let answer = self.files.cut(area, len);
        self.counted(answer)
    }

    /// Makes what the area reads last. [`DiskFailed`] comes where the operating system fails a call, and
    /// after a sync of any area that failed.
    fn sync(&mut self, area: Area) -> Result<(), DiskFailed>
        ensures cause { HasCause self.old.faults self.new.faults result }
        ensures counted { self.new ≡ (if is_ok result then self.old else after_failed_sync self.old) }
        ensures none_after_failure { IsTrue self.old.sync_failed → IsErr result }
    {
        if self.sync_failed {
            let failed = self.files.fail();
            return Err(self.counting(failed));
        }
        match self.files.sync(area) {
            Ok(()) => Ok(()),
            Err(failed) => {
                self.sync_failed = true;
                Err(self.counting(failed))
            }
        }
    }

    /// Does nothing. [`DiskFailed`] never comes.
    fn lose_power(&mut self, _pick: u32) -> Result<(), DiskFailed>
        ensures cause { HasCause self.old.faults self.new.faults result }
        ensures succeeds { IsOk result }
        ensures stays { self.new ≡ self.old }
    {
        Ok(())
    }

    /// How many calls failed, up to 2^64 - 1.
    fn faults(&self) -> u64
        ensures { result ≡ self.now.faults }
    {
        self.faults
    }
}
