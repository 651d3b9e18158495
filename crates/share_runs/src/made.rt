//! Stores for the runs, and what they are closed with.
ghost use Rattle.std.specs.Prelude.{◌≡◌, ◌≤◌, [], None, IfOk};
ghost use Rattle.framed_journal.specs.Holding.{AreFramesOf};
ghost use Rattle.latch_table.specs.Holds.{IsAlone};
ghost use Rattle.latch_table.specs.Views.{first_station};

use core_store::{Frame, Limits, Note, Notes};
use disk_model::{Disk, MemoryDisk};
use framed_journal::FramedJournal;
use journal_opening::open;
use logged_journal::LoggedJournal;
use plain_model::Entry;
use restart_store::init;
use script_lines::SLOTS;
use shared_store::{Pass, Store};
use std::alloc::{AllocError, Global};

// Each call with a large contract is made in a function of its own, whose clauses are what the next call asks for.

/// A disk in memory with a new store of so many pages.
pub(crate) fn disk_on(alloc: Global, pages: u16) -> Result<MemoryDisk, AllocError>
    requires { (1 ≤ pages) × (pages ≤ 1024) }
{
    let mut disk = MemoryDisk::new(alloc);
    match init::<_, SLOTS>(&mut disk, pages) {
        Ok(()) => Ok(disk),
        Err(_) => Err(AllocError),
    }
}

/// The journal of the store that the disk holds.
fn journal_on<D: Disk>(alloc: Global, disk: D) -> Result<FramedJournal<SLOTS, D>, AllocError>
    ensures { IfOk result (λ j. (j.failed ≡ None) × (j.journal.notes ≡ [])) }
{
    match open::<D, SLOTS>(alloc, disk, Limits::GREATEST) {
        Ok(journal) => Ok(journal),
        Err(_) => Err(AllocError),
    }
}

/// The store over this journal, with its first pass.
fn store_over<D: Disk>(
    alloc: Global,
    journal: FramedJournal<SLOTS, D>,
) -> Result<(Store<SLOTS, D>, Pass<SLOTS, D>), AllocError>
    requires { (journal.failed ≡ None) × (journal.journal.notes ≡ []) }
    ensures pages { IfOk result (λ r. 1 ≤ r.0.pages) }
    ensures of { IfOk result (λ r. r.1.table ≡ r.0.table) }
    ensures first { IfOk result (λ r. r.1.view.station ≡ first_station) }
{
    let (logged, frames) = journal.into_parts();
    match Store::new(alloc, logged, frames) {
        Ok(both) => Ok(both),
        Err(_) => Err(AllocError),
    }
}

/// The store that the disk holds, with its first pass.
pub(crate) fn store_on<D: Disk>(
    alloc: Global,
    disk: D,
) -> Result<(Store<SLOTS, D>, Pass<SLOTS, D>), AllocError>
    ensures pages { IfOk result (λ r. 1 ≤ r.0.pages) }
    ensures of { IfOk result (λ r. r.1.table ≡ r.0.table) }
    ensures first { IfOk result (λ r. r.1.view.station ≡ first_station) }
{
    let journal = journal_on(alloc, disk)?;
    store_over(alloc, journal)
}

/// Closes the store.
pub(crate) fn close<D: Disk>(
    store: Store<SLOTS, D>,
    pass: Pass<SLOTS, D>,
) -> (LoggedJournal<SLOTS, D>, Vec<Frame<SLOTS>>)
    requires of { pass.table ≡ store.table }
    requires alone { IsAlone pass.view }
{
    store.close(pass)
}

/// The notes of the journal.
fn notes_of<D: Disk>(logged: &LoggedJournal<SLOTS, D>) -> &Notes {
    logged.journal().history()
}

/// How many entries the history has.
pub(crate) fn entries_in<D: Disk>(logged: &LoggedJournal<SLOTS, D>) -> usize {
    notes_of(logged).len()
}

/// Whether the note is of a call of this client.
fn is_of(note: &Note, client: u8) -> bool {
    match note.entry {
        Entry::Call { pass, .. } => pass == client,
        _ => false,
    }
}

/// How many entries are calls of this client.
pub(crate) fn calls_of<D: Disk>(logged: &LoggedJournal<SLOTS, D>, client: u8) -> usize {
    let notes = notes_of(logged);
    // No more are counted than there are.
    let _ = notes.len();
    notes.iter().filter(|note| is_of(note, client)).count()
}

/// How many objects are stored.
pub(crate) fn objects_in<D: Disk>(logged: &LoggedJournal<SLOTS, D>) -> Result<usize, AllocError> {
    let stored = logged.journal().stored()?;
    Ok(stored.items().len())
}
