//! The parallel audit of frames against the history that made them.
ghost use Rattle.std.specs.Prelude.{◌≡◌, ◌+◌, ◌*◌, ◌<◌, ◌≤◌, length, map, IfOk};
ghost use Rattle.std.specs.List.{range_with_len};
ghost use Rattle.cell_model.specs.Records.{AllFit};
ghost use Rattle.cell_page.specs.Format.{IsSlotCount};
ghost use Rattle.cell_page.specs.Stored.{cell_of};
ghost use Rattle.core_store.specs.JournalView.{logged_in, cells_after_notes};
ghost use Rattle.core_store.specs.Opening.{store_of};
ghost use Rattle.auditor.specs.Recount.{ArePages, live_in, zero_in, differences_of, ids_of};
ghost use Rattle.par_audit.specs.Garbage.{IsGarbage};

use crate::found::counters_of;
use crate::recounting::{garbage_by_pieces, report_beside_garbage, report_by_pieces};
use auditor::{Report, replayed};
use cell_page::{CELLS_OF_PAGE, Cell};
use core_store::{Frame, Notes};
use plain_model::Memory;
use rayon::current_num_threads;
use std::alloc::Global;
use std::thread::Threads;

/// The most threads that one audit has work for. Each needs two tables of all ids.
const MOST_WORKERS: usize = 32;

/// What a parallel audit found.
#[derive(Debug, Drop)]
pub struct Wide {
    /// What the plain audit reports.
    pub report: Report,
    /// How many live objects the root doesn't reach.
    pub garbage: u32,
}

/// How many threads are given work at once: one for each piece, but no more than there are processors.
fn workers_for(rt: &(impl Threads + Sync), pieces: u16) -> usize
    requires { 0 < pieces }
    ensures some { 0 < result }
    ensures few { result ≤ 32 }
{
    if pieces == 1 {
        return 1;
    }
    (pieces as usize)
        .min(current_num_threads(rt))
        .min(MOST_WORKERS)
}

/// Counts all pointers again and marks what the root reaches, with so many threads. It tells what it found beside what the
/// frames keep, and how many live objects the root doesn't reach. `Memory` is its only error.
pub fn recount_by_pieces<const SLOTS: usize>(
    rt: &(impl Threads + Sync),
    alloc: Global,
    cells: &[Cell<SLOTS>],
    frames: &[Frame<SLOTS>],
    workers: usize,
) -> Result<Wide, Memory>
    requires size { IsSlotCount SLOTS }
    requires few { length frames.now ≤ 1024 }
    requires ids { length cells.now ≡ 8 * length frames.now + 1 }
    requires pages { ArePages frames.now }
    requires some { 0 < workers }
    requires fits { workers ≤ 1024 }
    ensures live { IfOk result (λ w. w.report.live ≡ live_in (map cell_of cells.now)) }
    ensures zero { IfOk result (λ w. w.report.zero ≡ zero_in (map cell_of cells.now) (ids_of (length frames.now))) }
    ensures differences { IfOk result (λ w. w.report.differences ≡ differences_of (map cell_of cells.now) frames.now) }
    ensures garbage { IfOk result (λ w. IsGarbage (map cell_of cells.now) (ids_of (length frames.now)) w.garbage) }
{
    let ids = (CELLS_OF_PAGE * frames.len()) as u32;
    let markers = workers / 2;
    if markers == 0 {
        let report = report_by_pieces(rt, alloc, cells, frames, workers)?;
        let garbage = garbage_by_pieces(rt, alloc, cells, ids, workers)?;
        return Ok(Wide { report, garbage });
    }
    let counters = counters_of(workers, markers, cells.len());
    let (report, garbage) = report_beside_garbage(
        rt, alloc, cells, frames, ids, counters, markers,
    )?;
    Ok(Wide { report, garbage })
}

/// Audits as `auditor::audit` does, and counts what is garbage, by so many pieces in several threads. Neither depends on how
/// many pieces or threads there are.
///
/// `pieces` is from 1 to 1,024. `Memory` is the only error, and nothing else happens then.
pub fn par_audit<const SLOTS: usize>(
    rt: &(impl Threads + Sync),
    alloc: Global,
    opening: &[Cell<SLOTS>],
    trace: &Notes,
    frames: &[Frame<SLOTS>],
    pieces: u16,
) -> Result<Wide, Memory>
    requires size { IsSlotCount SLOTS }
    requires few { length frames.now ≤ 1024 }
    requires ids { length opening.now ≡ 8 * length frames.now }
    requires fits { AllFit SLOTS (store_of opening.now) (logged_in trace.now.list) }
    requires pages { ArePages frames.now }
    requires some { 0 < pieces }
    requires cut { pieces ≤ 1024 }
    ensures live { IfOk result (λ w. w.report.live ≡ live_in (cells_after_notes SLOTS (store_of opening.now) trace.now.list)) }
    ensures zero { IfOk result (λ w. w.report.zero ≡ zero_in (cells_after_notes SLOTS (store_of opening.now) trace.now.list) (ids_of (length frames.now))) }
    ensures differences { IfOk result (λ w. w.report.differences ≡ differences_of (cells_after_notes SLOTS (store_of opening.now) trace.now.list) frames.now) }
    ensures garbage { IfOk result (λ w. IsGarbage (cells_after_notes SLOTS (store_of opening.now) trace.now.list) (ids_of (length frames.now)) w.garbage) }
{
    let cells = replayed(alloc, opening, trace)?;
    recount_by_pieces(rt, alloc, cells.as_slice(), frames, workers_for(rt, pieces))
}
