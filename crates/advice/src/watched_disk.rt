//! A disk of which is known what it failed, and how far it has come.
ghost use Rattle.std.specs.Prelude.{◌≡◌};

use crate::progress::{KIBIBYTE, MEBIBYTE, passed};
use disk_model::{Area, Disk, DiskFailed};
use std::fmt;
use std::marker::Model;

/// After how many syncs of the disk a line is told.
const SYNCS_OF_A_LINE: u64 = 200;

/// After how many bytes that were read a line is told.
const READ_OF_A_LINE: u64 = 64 * MEBIBYTE;

/// After how many bytes that were written into the pages a line is told.
const WRITTEN_OF_A_LINE: u64 = 128 * KIBIBYTE;

/// What a call of the disk was to do.
#[derive(Clone, Copy)]
pub enum Act {
    Measure,
    Read,
    Write,
    Cut,
    Sync,
}

impl fmt::Display for Act {
    fn fmt<W: fmt::Write>(&self, f: &mut fmt::Formatter<W>) -> fmt::Result {
        f.write_str(match self {
            Act::Measure => "a look at the length",
            Act::Read => "a read",
            Act::Write => "a write",
            Act::Cut => "a cut",
            Act::Sync => "a sync",
        })
    }
}

/// A call that the disk failed.
#[derive(Clone, Copy)]
pub struct FailedAct {
    /// What it was to do.
    pub act: Act,
    /// In which area.
    pub area: Area,
}

/// How much was done since the command began.
#[derive(Drop)]
struct Done {
    syncs: u64,
    read: u64,
    written: u64,
}

/// A disk that keeps which call it failed first, and tells how far a command has come, where somebody is there to read it: a line
/// for each 200 syncs, for each 64 MiB that were read, and for each 128 KiB that were written into the pages. To contracts it is
/// the disk under it, in each word; of the lines they tell nothing, and one that can't be written is left out.
#[derive(Drop)]
pub struct WatchedDisk<D: Disk, P: Eprint + Drop + Send> {
    disk: D,
    done: Done,
    failed: Option<FailedAct>,
    reader: Option<P>,
}

impl<D: Disk, P: Eprint + Drop + Send> Model for WatchedDisk<D, P> {
    ghost Value = { D };

    ghost view = { λ p. p.disk };
}

impl<D: Disk, P: Eprint + Drop + Send> WatchedDisk<D, P> {
    /// This disk, of which the reader is told, if there is one.
    pub fn over(disk: D, reader: Option<P>) -> WatchedDisk<D, P>
        ensures { result ≡ disk }
    {
        WatchedDisk {
            disk,
            done: Done {
                syncs: 0,
                read: 0,
                written: 0,
            },
            failed: None,
            reader,
        }
    }

    /// The disk under it.
    pub fn disk(&self) -> &D
        ensures { result.now ≡ self.now }
    {
        &self.disk
    }

    /// The call that it failed first, if it failed one.
    pub fn failed(&self) -> Option<FailedAct> {
        self.failed
    }
}

/// Counts a sync, and tells the reader, if there is one, where their number gets a line.
fn count_sync<P: Eprint>(done: &mut Done, reader: &Option<P>) {
    if let (Some(now), Some(reader)) = (passed(&mut done.syncs, 1, SYNCS_OF_A_LINE), reader) {
        let _ = eprintln!(reader; "brahma: {now} syncs");
    }
}

/// Counts bytes that were read, and tells the reader, if there is one, where their number gets a line.
fn count_read<P: Eprint>(done: &mut Done, count: u64, reader: &Option<P>) {
    if let (Some(now), Some(reader)) = (passed(&mut done.read, count, READ_OF_A_LINE), reader) {
        let mebibytes = now / MEBIBYTE;
        let _ = eprintln!(reader; "brahma: {mebibytes} MiB of the files read");
    }
}

/// Counts bytes that were written into the pages, and tells the reader, if there is one, where their number gets a line.
fn count_written<P: Eprint>(done: &mut Done, area: Area, count: u64, reader: &Option<P>) {
    if !matches!(area, Area::Pages) {
        return;
    }
    if let (Some(now), Some(reader)) = (
        passed(&mut done.written, count, WRITTEN_OF_A_LINE),
        reader,
    ) {
        let kibibytes = now / KIBIBYTE;
        let _ = eprintln!(reader; "brahma: {kibibytes} KiB of pages written");
    }
}

/// Keeps which call failed, where none did before.
fn note<T>(
    failed: &mut Option<FailedAct>,
    answer: Result<T, DiskFailed>,
    act: Act,
    area: Area,
) -> Result<T, DiskFailed>
    ensures { result ≡ answer }
{
    if answer.is_err() && failed.is_none() {
        *failed = Some(FailedAct { act, area });
    }
    answer
}

impl<D: Disk, P: Eprint + Drop + Send> Disk for WatchedDisk<D, P> {
    ghost content = { D.content };

    ghost may_leave = { D.may_leave };

    ghost faults = { D.faults };

    ghost reads_may_stay = { D.reads_may_stay };

    ghost told_together = { D.told_together };

    ghost moment = { D.moment };

    ghost left_since = { D.left_since };

    ghost counts_now = { D.counts_now };

    ghost only_now = { D.only_now };

    fn len(&mut self, area: Area) -> Result<u64, DiskFailed> {
        let answer = self.disk.len(area);
        note(&mut self.failed, answer, Act::Measure, area)
    }

    fn read_at(&mut self, area: Area, at: u64, into: &mut [u8]) -> Result<(), DiskFailed> {
        let answer = self.disk.read_at(area, at, into);
        count_read(&mut self.done, into.len() as u64, &self.reader);
        note(&mut self.failed, answer, Act::Read, area)
    }

    fn write_at(&mut self, area: Area, at: u64, bytes: &[u8]) -> Result<(), DiskFailed> {
        let answer = self.disk.write_at(area, at, bytes);
        count_written(&mut self.done, area, bytes.len() as u64, &self.reader);
        note(&mut self.failed, answer, Act::Write, area)
    }

    fn cut(&mut self, area: Area, len: u64) -> Result<(), DiskFailed> {
        let answer = self.disk.cut(area, len);
        note(&mut self.failed, answer, Act::Cut, area)
    }

    fn sync(&mut self, area: Area) -> Result<(), DiskFailed> {
        let answer = self.disk.sync(area);
        count_sync(&mut self.done, &self.reader);
        note(&mut self.failed, answer, Act::Sync, area)
    }

    fn lose_power(&mut self, pick: u32) -> Result<(), DiskFailed> {
        self.disk.lose_power(pick)
    }

    fn faults(&self) -> u64 {
        self.disk.faults()
    }
}
