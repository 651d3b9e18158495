//! The report of an audit and its count of garbage, side by side.
ghost use Rattle.std.specs.Prelude.{◌≡◌, ◌+◌, ◌*◌, ◌<◌, ◌≤◌, length, map, IfOk};
ghost use Rattle.std.specs.List.{range_with_len};
ghost use Rattle.cell_page.specs.Format.{IsSlotCount};
ghost use Rattle.cell_page.specs.Stored.{cell_of};
ghost use Rattle.auditor.specs.Recount.{ArePages};
ghost use Rattle.par_audit.specs.Garbage.{IsGarbage};
ghost use Rattle.par_audit.specs.Reports.{IsReport};

use crate::garbage::garbage_in;
use crate::marking::mark;
use crate::tables::count_by_pieces;
use auditor::{Report, report_on};
use cell_page::Cell;
use core_store::Frame;
use plain_model::Memory;
use std::alloc::Global;
use std::thread::{Threads, join};

/// Counts all pointers again, with so many workers, and tells what it found beside what the frames keep. `Memory` is its only error.
pub(crate) fn report_by_pieces<const SLOTS: usize>(
    rt: &(impl Threads + Sync),
    alloc: Global,
    cells: &[Cell<SLOTS>],
    frames: &[Frame<SLOTS>],
    counters: usize,
) -> Result<Report, Memory>
    requires size { IsSlotCount SLOTS }
    requires few { length frames.now ≤ 1024 }
    requires ids { length cells.now ≡ 8 * length frames.now + 1 }
    requires pages { ArePages frames.now }
    requires some { 0 < counters }
    requires fits { counters ≤ 1024 }
    ensures { IfOk result (IsReport (map cell_of cells.now) frames.now) }
{
    let tables = count_by_pieces(rt, alloc, cells, counters)?;
    report_on(
        alloc,
        cells,
        tables.zeros.as_slice(),
        tables.ones.as_slice(),
        frames,
    )
}

/// Counts the objects of so many ids, from 1 on, that the root doesn't reach, with so many workers. `Memory` is its only error.
pub(crate) fn garbage_by_pieces<const SLOTS: usize>(
    rt: &(impl Threads + Sync),
    alloc: Global,
    cells: &[Cell<SLOTS>],
    ids: u32,
    markers: usize,
) -> Result<u32, Memory>
    requires size { IsSlotCount SLOTS }
    requires few { length cells.now ≤ 16777216 }
    requires ids { length cells.now ≡ ids + 1 }
    requires some { 0 < markers }
    requires fits { markers ≤ 1024 }
    ensures { IfOk result (IsGarbage (map cell_of cells.now) (range_with_len 1 ids)) }
{
    let unreached = mark(rt, alloc, cells, markers)?;
    Ok(garbage_in(unreached.as_slice(), ids))
}

/// Reports in this thread, and counts garbage in another one meanwhile, with so many workers each. So nothing waits for the other
/// thread to begin. `Memory` is its only error.
pub(crate) fn report_beside_garbage<const SLOTS: usize>(
    rt: &(impl Threads + Sync),
    alloc: Global,
    cells: &[Cell<SLOTS>],
    frames: &[Frame<SLOTS>],
    ids: u32,
    counters: usize,
    markers: usize,
) -> Result<(Report, u32), Memory>
    requires size { IsSlotCount SLOTS }
    requires few { length frames.now ≤ 1024 }
    requires ids { length cells.now ≡ 8 * length frames.now + 1 }
    requires all { ids ≡ 8 * length frames.now }
    requires pages { ArePages frames.now }
    requires counters { (0 < counters) × (counters ≤ 1024) }
    requires markers { (0 < markers) × (markers ≤ 1024) }
    ensures report { IfOk result (λ found. IsReport (map cell_of cells.now) frames.now found.0) }
    ensures garbage { IfOk result (λ found. IsGarbage (map cell_of cells.now) (range_with_len 1 ids) found.1) }
{
    let marking = move || -> Result<u32, Memory>
        requires { IsSlotCount SLOTS × (length cells.now ≤ 16777216) × (length cells.now ≡ ids + 1) × (0 < markers) × (markers ≤ 1024) }
        ensures { IfOk result (IsGarbage (map cell_of cells.entry.now) (range_with_len 1 ids)) }
    { garbage_by_pieces(rt, alloc, cells, ids, markers) };
    let counting = move || -> Result<Report, Memory>
        requires { IsSlotCount SLOTS × (length frames.now ≤ 1024) × (length cells.now ≡ 8 * length frames.now + 1) × ArePages frames.now × (0 < counters) × (counters ≤ 1024) }
        ensures { IfOk result (IsReport (map cell_of cells.entry.now) frames.entry.now) }
    { report_by_pieces(rt, alloc, cells, frames, counters) };
    let (garbage, report) = join(rt, marking, counting);
    Ok((report?, garbage?))
}
