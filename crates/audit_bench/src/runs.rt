//! Audits and markings, timed.
ghost use Rattle.std.specs.Prelude.{◌≡◌, ◌≤◌, ◌+◌, ◌*◌, length};
ghost use Rattle.auditor.specs.Recount.{ArePages};

use crate::made::{SLOTS, cells_alone, store_made};
use crate::order::{How, Order, Store, Work};
use crate::plain::{counts_of, garbage_of, marks_of};
use crate::tally::{Beginning, Tally};
use anyhow::Result;
use auditor::recount;
use cell_page::Cell;
use core_store::Frame;
use par_audit::{find, garbage_in, mark, recount_by_pieces};
use std::rt::{Clock, CpuClock};
use std::thread::Threads;

/// How many ids there are where cells stand alone.
const IDS: u32 = 524_288;

/// The last number, or 0.
fn last_of(numbers: &[u32]) -> u32 {
    match numbers.last() {
        Some(last) => *last,
        None => 0,
    }
}

/// The audit of a store, after the replay of its log, and its marking. How many objects no strong pointer leads to, and how
/// many the root doesn't reach.
fn audit_pages<R: Threads + AllocGlobal + Sync>(
    rt: &R,
    cells: &[Cell<SLOTS>],
    frames: &[Frame<SLOTS>],
    how: How,
) -> Result<u32>
    requires few { length frames.now ≤ 1024 }
    requires ids { length cells.now ≡ 8 * length frames.now + 1 }
    requires pages { ArePages frames.now }
{
    match how.pieces() {
        None => {
            let report = recount(rt.alloc(), cells, frames)?;
            let marks = marks_of(rt.alloc(), cells)?;
            Ok(
                report
                    .zero
                    .saturating_add(garbage_of(cells, marks.as_slice())),
            )
        }
        Some(pieces) => {
            let wide = recount_by_pieces(rt, rt.alloc(), cells, frames, pieces)?;
            Ok(wide.report.zero.saturating_add(wide.garbage))
        }
    }
}

/// The count of all pointers and the marking, of cells alone. How many pointers lead to the last id, and how many objects the
/// root doesn't reach.
fn audit_cells<R: Threads + AllocGlobal + Sync>(
    rt: &R,
    cells: &[Cell<SLOTS>],
    ids: u32,
    how: How,
) -> Result<u32>
    requires few { length cells.now ≤ 16777216 }
    requires ids { length cells.now ≡ ids + 1 }
{
    match how.pieces() {
        None => {
            let zeros = counts_of(rt.alloc(), cells, false)?;
            let ones = counts_of(rt.alloc(), cells, true)?;
            let marks = marks_of(rt.alloc(), cells)?;
            let garbage = garbage_of(cells, marks.as_slice());
            let pointers = last_of(zeros.as_slice()).saturating_add(last_of(ones.as_slice()));
            Ok(pointers.saturating_add(garbage))
        }
        Some(pieces) => {
            let found = find(rt, rt.alloc(), cells, pieces)?;
            let garbage = garbage_in(found.unreached.as_slice(), ids);
            let zeros = last_of(found.tables.zeros.as_slice());
            let ones = last_of(found.tables.ones.as_slice());
            Ok(zeros.saturating_add(ones).saturating_add(garbage))
        }
    }
}

/// Whether the last place of a table is marked, as a number.
fn last_mark(table: &[bool]) -> u32 {
    match table.last() {
        Some(last) => u32::from(*last),
        None => 0,
    }
}

/// Whether the last word has a mark, as a number. In both stores the last id alone has its mark there.
fn last_word(words: &[u64]) -> u32 {
    match words.last() {
        Some(last) => u32::from(*last != 0),
        None => 0,
    }
}

/// The marking. Whether the root reaches the last id, as a number.
fn mark_cells<R: Threads + AllocGlobal + Sync>(
    rt: &R,
    cells: &[Cell<SLOTS>],
    how: How,
) -> Result<u32>
    requires { length cells.now ≤ 16777216 }
{
    match how.pieces() {
        None => Ok(last_mark(marks_of(rt.alloc(), cells)?.as_slice())),
        Some(pieces) => {
            let unreached = mark(rt, rt.alloc(), cells, pieces)?;
            Ok(1u32.saturating_sub(last_word(unreached.as_slice())))
        }
    }
}

/// Does once what is to be measured, on a store.
fn do_on_pages<R: Threads + AllocGlobal + Sync>(
    rt: &R,
    cells: &[Cell<SLOTS>],
    frames: &[Frame<SLOTS>],
    order: Order,
) -> Result<u32>
    requires few { length frames.now ≤ 1024 }
    requires ids { length cells.now ≡ 8 * length frames.now + 1 }
    requires pages { ArePages frames.now }
{
    match order.work {
        Work::Audit => audit_pages(rt, cells, frames, order.how),
        Work::Marks => mark_cells(rt, cells, order.how),
    }
}

/// Does once what is to be measured, on cells alone.
fn do_on_cells<R: Threads + AllocGlobal + Sync>(
    rt: &R,
    cells: &[Cell<SLOTS>],
    ids: u32,
    order: Order,
) -> Result<u32>
    requires few { length cells.now ≤ 16777216 }
    requires ids { length cells.now ≡ ids + 1 }
{
    match order.work {
        Work::Audit => audit_cells(rt, cells, ids, order.how),
        Work::Marks => mark_cells(rt, cells, order.how),
    }
}

/// Measures what is asked of a store, 300 times.
fn run_on_pages<R: Threads + Clock + CpuClock + AllocGlobal + Sync>(
    rt: &R,
    order: Order,
) -> Result<Tally> {
    let made = store_made(rt.alloc(), order.graph)?;
    let mut tally = Tally::new();
    'times: for _ in 0..300 {
        let beginning = Beginning::now(rt)?;
        let found = do_on_pages(rt, made.cells.as_slice(), made.frames.as_slice(), order)?;
        tally.add(rt, beginning, found)?;
    }
    Ok(tally)
}

/// Measures what is asked of cells alone, ten times.
fn run_on_cells<R: Threads + Clock + CpuClock + AllocGlobal + Sync>(
    rt: &R,
    order: Order,
) -> Result<Tally> {
    let cells = cells_alone(rt.alloc(), order.graph, IDS)?;
    let mut tally = Tally::new();
    'times: for _ in 0..10 {
        let beginning = Beginning::now(rt)?;
        let found = do_on_cells(rt, cells.as_slice(), IDS, order)?;
        tally.add(rt, beginning, found)?;
    }
    Ok(tally)
}

/// Measures what is asked.
pub(crate) fn run<R: Threads + Clock + CpuClock + AllocGlobal + Sync>(
    rt: &R,
    order: Order,
) -> Result<Tally> {
    match order.store {
        Store::Pages => run_on_pages(rt, order),
        Store::Cells => run_on_cells(rt, order),
    }
}
