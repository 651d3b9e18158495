//! The audit of frames against the history that made them.
ghost use Rattle.std.specs.Prelude.{◌≡◌, ◌<◌, ◌≤◌, ◌+◌, ◌*◌, ◌-◌, ℕ, ◌++◌, cond, true, false, length, map, slice_index, IfOk};
ghost use Rattle.std.specs.List.{range_with_len};
ghost use Rattle.cell_model.specs.Records.{AllFit};
ghost use Rattle.cell_page.specs.Format.{IsSlotCount};
ghost use Rattle.cell_page.specs.Stored.{cell_of};
ghost use Rattle.core_store.specs.JournalView.{logged_in, cells_after_notes};
ghost use Rattle.core_store.specs.Opening.{store_of};
ghost use Rattle.auditor.specs.Recount.{AreCounted, ArePages, strong_found, weak_found, found_at, kept_at, joined, difference_between, differences_of, is_zero, live_in, zero_in, ids_of};

use crate::counts::count_all;
use crate::difference::{Difference, Differences};
use crate::replay::{get, replayed};
use crate::report::Report;
use cell_page::{CELLS_OF_PAGE, Cell, ROOT};
use core_store::{Frame, Notes};
use plain_model::Memory;
use std::alloc::Global;

/// How many pointers lead to an id: the strong ones, that of the root's own among them, and the weak ones.
#[derive(Clone, Copy)]
struct Strengths {
    strong: u32,
    weak: u32,
}

/// Two counts in one number.
fn joined(strong: u32, weak: u32) -> u64
    ensures { result ≡ joined strong weak }
{
    strong as u64 * 4_294_967_296 + weak as u64
}

/// One if so, else none.
fn one_if(so: bool) -> u32
    ensures value { result ≡ cond so 1 0 }
    ensures few { result ≤ 1 }
{
    if so { 1 } else { 0 }
}

/// How many cells are live.
fn live_in<const SLOTS: usize>(cells: &[Cell<SLOTS>]) -> u32
    requires { length cells.now ≤ 8193 }
    ensures { result ≡ live_in (map cell_of cells.now) }
{
    let mut count = 0;
    for cell in cells {
        count += one_if(cell.live);
    }
    count
}

/// What the tables have for an id: how many pointers have the bit 0, and how many the bit 1.
fn found<const SLOTS: usize>(
    cells: &[Cell<SLOTS>],
    zeros: &[u32],
    ones: &[u32],
    id: u32,
) -> Strengths
    requires size { IsSlotCount SLOTS }
    requires zeros { AreCounted (map cell_of cells.now) false zeros.now }
    requires ones { AreCounted (map cell_of cells.now) true ones.now }
    requires small { (k : ℕ) → k < length cells.now → (slice_index zeros.now k ≤ 1000000) × (slice_index ones.now k ≤ 1000000) }
    requires within { id < length cells.now }
    ensures strong { result.strong ≡ strong_found (map cell_of cells.now) id }
    ensures weak { result.weak ≡ weak_found (map cell_of cells.now) id }
{
    let own = if id == ROOT { 1 } else { 0 };
    let zero = zeros[id as usize];
    let one = ones[id as usize];
    if get(cells, id).bit {
        return Strengths {
            strong: one + own,
            weak: zero,
        };
    }
    Strengths {
        strong: zero + own,
        weak: one,
    }
}

/// What the id's frame keeps.
fn kept<const SLOTS: usize>(frames: &[Frame<SLOTS>], id: u32) -> u64
    requires pages { ArePages frames.now }
    requires above { 0 < id }
    requires within { id ≤ 8 * length frames.now }
    ensures { result ≡ kept_at frames.now id }
{
    let frame = &frames[(id as usize - 1) / CELLS_OF_PAGE];
    let cell = frame.page.cell(id);
    joined(cell.strong, cell.weak)
}

/// Whether the id's cell is live and no strong pointer leads to it.
fn is_zero<const SLOTS: usize>(cells: &[Cell<SLOTS>], zeros: &[u32], ones: &[u32], id: u32) -> bool
    requires size { IsSlotCount SLOTS }
    requires zeros { AreCounted (map cell_of cells.now) false zeros.now }
    requires ones { AreCounted (map cell_of cells.now) true ones.now }
    requires small { (k : ℕ) → k < length cells.now → (slice_index zeros.now k ≤ 1000000) × (slice_index ones.now k ≤ 1000000) }
    requires within { id < length cells.now }
    ensures { result ≡ is_zero (map cell_of cells.now) id }
{
    let found = found(cells, zeros, ones, id);
    get(cells, id).live && found.strong == 0
}

/// How many live cells no strong pointer leads to.
fn zero_in<const SLOTS: usize>(cells: &[Cell<SLOTS>], zeros: &[u32], ones: &[u32], ids: u32) -> u32
    requires size { IsSlotCount SLOTS }
    requires zeros { AreCounted (map cell_of cells.now) false zeros.now }
    requires ones { AreCounted (map cell_of cells.now) true ones.now }
    requires small { (k : ℕ) → k < length cells.now → (slice_index zeros.now k ≤ 1000000) × (slice_index ones.now k ≤ 1000000) }
    requires few { ids ≤ 8192 }
    requires within { length cells.now ≡ ids + 1 }
    ensures { result ≡ zero_in (map cell_of cells.now) (range_with_len 1 ids) }
{
    let mut count = 0;
    for i in 0..ids {
        count += one_if(is_zero(cells, zeros, ones, i + 1));
    }
    count
}

/// Appends the difference, if there is one.
fn list_if_other(list: &mut Vec<Difference>, id: u32, kept: u64, found: u64) -> Result<(), Memory>
    ensures { IfOk result (λ _. list.new.items ≡ list.old.items ++ difference_between id kept found) }
{
    if kept != found {
        list.push(Difference { id, kept, found })?;
    }
    Ok(())
}

/// The ids whose kept counts differ from what was found.
fn find_differences<const SLOTS: usize>(
    alloc: Global,
    cells: &[Cell<SLOTS>],
    zeros: &[u32],
    ones: &[u32],
    frames: &[Frame<SLOTS>],
) -> Result<Vec<Difference>, Memory>
    requires size { IsSlotCount SLOTS }
    requires zeros { AreCounted (map cell_of cells.now) false zeros.now }
    requires ones { AreCounted (map cell_of cells.now) true ones.now }
    requires small { (k : ℕ) → k < length cells.now → (slice_index zeros.now k ≤ 1000000) × (slice_index ones.now k ≤ 1000000) }
    requires few { length frames.now ≤ 1024 }
    requires within { length cells.now ≡ 8 * length frames.now + 1 }
    requires pages { ArePages frames.now }
    ensures { IfOk result (λ list. list.items ≡ differences_of (map cell_of cells.now) frames.now) }
{
    let mut list = Vec::new(alloc);
    for i in 0..(CELLS_OF_PAGE * frames.len()) as u32 {
        let id = i + 1;
        let found = found(cells, zeros, ones, id);
        let found = joined(found.strong, found.weak);
        let kept = kept(frames, id);
        list_if_other(&mut list, id, kept, found)?;
    }
    Ok(list)
}

/// Tells what the counts say, which are those of all pointers by their bit, beside what the frames keep.
pub fn report_on<const SLOTS: usize>(
    alloc: Global,
    cells: &[Cell<SLOTS>],
    zeros: &[u32],
    ones: &[u32],
    frames: &[Frame<SLOTS>],
) -> Result<Report, Memory>
    requires size { IsSlotCount SLOTS }
    requires zeros { AreCounted (map cell_of cells.now) false zeros.now }
    requires ones { AreCounted (map cell_of cells.now) true ones.now }
    requires small { (k : ℕ) → k < length cells.now → (slice_index zeros.now k ≤ 1000000) × (slice_index ones.now k ≤ 1000000) }
    requires few { length frames.now ≤ 1024 }
    requires ids { length cells.now ≡ 8 * length frames.now + 1 }
    requires pages { ArePages frames.now }
    ensures live { IfOk result (λ r. r.live ≡ live_in (map cell_of cells.now)) }
    ensures zero { IfOk result (λ r. r.zero ≡ zero_in (map cell_of cells.now) (ids_of (length frames.now))) }
    ensures differences { IfOk result (λ r. r.differences ≡ differences_of (map cell_of cells.now) frames.now) }
{
    let list = find_differences(alloc, cells, zeros, ones, frames)?;
    let ids = (CELLS_OF_PAGE * frames.len()) as u32;
    Ok(Report {
        live: live_in(cells),
        zero: zero_in(cells, zeros, ones, ids),
        differences: Differences::from(list),
    })
}

/// Counts all pointers again, and tells what it found beside what the frames keep.
pub fn recount<const SLOTS: usize>(
    alloc: Global,
    cells: &[Cell<SLOTS>],
    frames: &[Frame<SLOTS>],
) -> Result<Report, Memory>
    requires size { IsSlotCount SLOTS }
    requires few { length frames.now ≤ 1024 }
    requires ids { length cells.now ≡ 8 * length frames.now + 1 }
    requires pages { ArePages frames.now }
    ensures live { IfOk result (λ r. r.live ≡ live_in (map cell_of cells.now)) }
    ensures zero { IfOk result (λ r. r.zero ≡ zero_in (map cell_of cells.now) (ids_of (length frames.now))) }
    ensures differences { IfOk result (λ r. r.differences ≡ differences_of (map cell_of cells.now) frames.now) }
{
    let zeros = count_all(alloc, cells, false)?;
    let ones = count_all(alloc, cells, true)?;
    report_on(alloc, cells, zeros.as_slice(), ones.as_slice(), frames)
}

/// Replays the notes' records over the opening cells, counts the pointers to each id again, and tells each id whose
/// counts in its frame differ from what it found. It trusts no count, neither of a cell nor of a record.
pub fn audit<const SLOTS: usize>(
    alloc: Global,
    opening: &[Cell<SLOTS>],
    trace: &Notes,
    frames: &[Frame<SLOTS>],
) -> Result<Report, Memory>
    requires size { IsSlotCount SLOTS }
    requires few { length frames.now ≤ 1024 }
    requires ids { length opening.now ≡ 8 * length frames.now }
    requires fits { AllFit SLOTS (store_of opening.now) (logged_in trace.now.list) }
    requires pages { ArePages frames.now }
    ensures live { IfOk result (λ r. r.live ≡ live_in (cells_after_notes SLOTS (store_of opening.now) trace.now.list)) }
    ensures zero { IfOk result (λ r. r.zero ≡ zero_in (cells_after_notes SLOTS (store_of opening.now) trace.now.list) (ids_of (length frames.now))) }
    ensures differences { IfOk result (λ r. r.differences ≡ differences_of (cells_after_notes SLOTS (store_of opening.now) trace.now.list) frames.now) }
{
    let cells = replayed(alloc, opening, trace)?;
    recount(alloc, cells.as_slice(), frames)
}
