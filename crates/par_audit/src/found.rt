//! The count of all pointers and the marking, side by side.
ghost use Rattle.std.specs.Prelude.{◌≡◌, ◌+◌, ◌/◌, ◌<◌, ◌≤◌, length, map, IfOk};
ghost use Rattle.cell_page.specs.Format.{IsSlotCount};
ghost use Rattle.cell_page.specs.Stored.{cell_of};
ghost use Rattle.par_audit.specs.Garbage.{IsUnreached};
ghost use Rattle.par_audit.specs.Tables.{AreTablesOf};

use crate::marking::mark;
use crate::tables::{Tables, count_by_pieces};
use cell_page::Cell;
use plain_model::Memory;
use std::alloc::Global;
use std::thread::{Threads, join};

/// How few cells are worth a thread of their own.
const LEAST_PIECE: usize = 4096;

/// How many workers count, where so many of them mark meanwhile: each has enough cells to be worth its thread.
pub(crate) fn counters_of(workers: usize, markers: usize, cells: usize) -> usize
    requires some { markers < workers }
    requires fits { workers ≤ 1024 }
    ensures { (0 < result) × (result ≤ 1024) }
{
    (workers - markers).min(cells / LEAST_PIECE).max(1)
}

/// What was counted, and what was marked.
#[derive(Drop)]
pub struct Found {
    /// How many pointers lead to each id.
    pub tables: Tables,
    /// The marks of the objects that the root doesn't reach, in words with the marks of 64 ids each.
    pub unreached: Vec<u64>,
}

/// Counts in this thread and marks in another one meanwhile, with so many workers each. So nothing waits for the other thread to
/// begin.
fn find_beside<const SLOTS: usize>(
    rt: &(impl Threads + Sync),
    alloc: Global,
    cells: &[Cell<SLOTS>],
    counters: usize,
    markers: usize,
) -> Result<Found, Memory>
    requires slots { IsSlotCount SLOTS }
    requires few { length cells.now ≤ 16777216 }
    requires counters { (0 < counters) × (counters ≤ 1024) }
    requires markers { (0 < markers) × (markers ≤ 1024) }
    ensures tables { IfOk result (λ f. AreTablesOf (map cell_of cells.now) (length cells.now) f.tables) }
    ensures len { IfOk result (λ f. length f.unreached.items ≡ length cells.now / 64 + 1) }
    ensures unreached { IfOk result (λ f. IsUnreached (map cell_of cells.now) f.unreached.items) }
{
    let counting = move || -> Result<Tables, Memory>
        requires { IsSlotCount SLOTS × (length cells.now ≤ 16777216) × (0 < counters) × (counters ≤ 1024) }
        ensures { IfOk result (AreTablesOf (map cell_of cells.entry.now) (length cells.entry.now)) }
    { count_by_pieces(rt, alloc, cells, counters) };
    let marking = move || -> Result<Vec<u64>, Memory>
        requires { IsSlotCount SLOTS × (length cells.now ≤ 16777216) × (0 < markers) × (markers ≤ 1024) }
        ensures { IfOk result (λ words. (length words.items ≡ length cells.entry.now / 64 + 1) × IsUnreached (map cell_of cells.entry.now) words.items) }
    { mark(rt, alloc, cells, markers) };
    let (unreached, tables) = join(rt, marking, counting);
    Ok(Found {
        tables: tables?,
        unreached: unreached?,
    })
}

/// Counts all pointers by their targets, and marks the objects that the root doesn't reach, with so many workers. `Memory` is its only
/// error.
pub fn find<const SLOTS: usize>(
    rt: &(impl Threads + Sync),
    alloc: Global,
    cells: &[Cell<SLOTS>],
    workers: usize,
) -> Result<Found, Memory>
    requires slots { IsSlotCount SLOTS }
    requires few { length cells.now ≤ 16777216 }
    requires some { 0 < workers }
    requires fits { workers ≤ 1024 }
    ensures tables { IfOk result (λ f. AreTablesOf (map cell_of cells.now) (length cells.now) f.tables) }
    ensures len { IfOk result (λ f. length f.unreached.items ≡ length cells.now / 64 + 1) }
    ensures unreached { IfOk result (λ f. IsUnreached (map cell_of cells.now) f.unreached.items) }
{
    let markers = workers / 2;
    if markers > 0 {
        let counters = counters_of(workers, markers, cells.len());
        return find_beside(rt, alloc, cells, counters, markers);
    }
    let tables = count_by_pieces(rt, alloc, cells, workers)?;
    let unreached = mark(rt, alloc, cells, workers)?;
    Ok(Found { tables, unreached })
}
