//! New stores on disks in memory.
ghost use Rattle.std.specs.Prelude.{◌≡◌, ◌+◌, [], None, IfOk};
ghost use Rattle.shared_store.specs.Passes.{IsClient};
ghost use Rattle.share_bench.specs.Clients.{HasGiven, IsClientOf};

use anyhow::{Result, anyhow};
use core_store::Limits;
use disk_model::{Disk, MemoryDisk};
use framed_journal::FramedJournal;
use journal_opening::open;
use restart_store::init;
use script_lines::SLOTS;
use shared_store::{Pass, Store};
use std::alloc::Global;

/// A journal with its log in memory, and its pages.
pub(crate) type MemoryJournal = FramedJournal<SLOTS, MemoryDisk>;

/// A store in memory, which threads share.
pub(crate) type MemoryStore = Store<SLOTS, MemoryDisk>;

/// A client's part of it.
pub(crate) type MemoryPass = Pass<SLOTS, MemoryDisk>;

/// The pages of a store: room for the root and for eight objects of each of four clients.
const PAGES: u16 = 5;

/// The limits of the program `brahma`.
const LIMITS: Limits = Limits {
    trace: 1_048_576,
    log: 1_071_644_672,
};

/// A disk in memory with a new store.
fn new_disk(alloc: Global) -> Result<MemoryDisk> {
    let mut disk = MemoryDisk::new(alloc);
    init::<_, SLOTS>(&mut disk, PAGES)?;
    Ok(disk)
}

// What makes a store is written for any disk, which keeps its proof short.

/// The journal of the store that the disk holds.
fn journal_on<D: Disk>(alloc: Global, disk: D) -> Result<FramedJournal<SLOTS, D>>
    ensures { IfOk result (λ j. (j.failed ≡ None) × (j.journal.notes ≡ [])) }
{
    match open::<D, SLOTS>(alloc, disk, LIMITS) {
        Ok(journal) => Ok(journal),
        Err((refusal, _)) => Err(refusal.into()),
    }
}

/// The store over this journal, with its first pass.
fn store_over<D: Disk>(
    alloc: Global,
    journal: FramedJournal<SLOTS, D>,
) -> Result<(Store<SLOTS, D>, Pass<SLOTS, D>)>
    requires { (journal.failed ≡ None) × (journal.journal.notes ≡ []) }
    ensures { IfOk result (λ r. HasGiven r.0 r.1 1) }
{
    let (logged, frames) = journal.into_parts();
    match Store::new(alloc, logged, frames) {
        Ok(both) => Ok(both),
        Err(_) => Err(anyhow!("out of memory")),
    }
}

/// The journal of a new store.
pub(crate) fn new_journal(alloc: Global) -> Result<MemoryJournal>
    ensures { IfOk result (λ j. (j.failed ≡ None) × (j.journal.notes ≡ [])) }
{
    match new_disk(alloc) {
        Ok(disk) => journal_on(alloc, disk),
        Err(error) => Err(error),
    }
}

/// A new store, with its first pass.
pub(crate) fn new_store(alloc: Global) -> Result<(MemoryStore, MemoryPass)>
    ensures { IfOk result (λ r. HasGiven r.0 r.1 1) }
{
    match new_journal(alloc) {
        Ok(journal) => store_over(alloc, journal),
        Err(error) => Err(error),
    }
}

/// A pass for the client of this number, after those of the clients before it.
pub(crate) fn share_next<D: Disk>(
    store: &Store<SLOTS, D>,
    main: &mut Pass<SLOTS, D>,
    number: u8,
) -> Pass<SLOTS, D>
    requires given { HasGiven store.now main.old number }
    requires client { IsClient number }
    ensures given { HasGiven store.now main.new (number + 1) }
    ensures of { IsClientOf store.now result }
{
    store.share(main, number)
}
