//! The count and the marking by one thread, as if there were no pieces.
ghost use Rattle.std.specs.Prelude.{◌≡◌, ◌≤◌, length, slice_index, IfOk};

use crate::made::SLOTS;
use auditor::count_cell;
use cell_page::{Cell, ROOT};
use plain_model::Memory;
use std::alloc::Global;

/// Counts the pointers of the cells that have this bit, each at its target.
fn count_all(counts: &mut [u32], cells: &[Cell<SLOTS>], bit: bool)
    requires few { length cells.now ≤ 16777216 }
    requires none { (id : _) → slice_index counts.old id ≡ 0 }
{
    for cell in cells {
        count_cell(counts, cell, bit);
    }
}

/// For each id how many pointers of live cells lead to it that have this bit.
pub(crate) fn counts_of(alloc: Global, cells: &[Cell<SLOTS>], bit: bool) -> Result<Vec<u32>, Memory>
    requires { length cells.now ≤ 16777216 }
{
    let mut counts = vec![in alloc; 0u32; cells.len()]?;
    count_all(counts.as_mut_slice(), cells, bit);
    Ok(counts)
}

/// Marks and lists an object that isn't marked yet.
#[inline(always)]
fn visit(
    cells: &[Cell<SLOTS>],
    marks: &mut [bool],
    listed: &mut Vec<u32>,
    id: u32,
) -> Result<(), Memory>
    requires { length marks.old ≡ length cells.now }
    ensures marks { length marks.new ≡ length marks.old }
    ensures listed { length listed.old.items ≤ length listed.new.items }
{
    let at = id as usize;
    if at == 0 || at >= cells.len() || marks[at] || !cells[at].live {
        return Ok(());
    }
    marks[at] = true;
    listed.push(id)?;
    Ok(())
}

/// Visits what the object of an id names.
#[inline(always)]
fn follow(
    cells: &[Cell<SLOTS>],
    marks: &mut [bool],
    listed: &mut Vec<u32>,
    id: u32,
) -> Result<(), Memory>
    requires { length marks.old ≡ length cells.now }
    ensures marks { length marks.new ≡ length marks.old }
    ensures listed { length listed.old.items ≤ length listed.new.items }
{
    if let Some(cell) = cells.get(id as usize) {
        for target in &cell.slots {
            visit(cells, marks, listed, *target)?;
        }
    }
    Ok(())
}

/// Marks what the root reaches, one object after another.
fn mark_all(alloc: Global, cells: &[Cell<SLOTS>], marks: &mut [bool]) -> Result<(), Memory>
    requires { length marks.old ≡ length cells.now }
    ensures { length marks.new ≡ length marks.old }
{
    let mut listed = Vec::new(alloc);
    visit(cells, marks, &mut listed, ROOT)?;
    let mut next = 0;
    while next < listed.len() {
        let id = listed[next];
        follow(cells, marks, &mut listed, id)?;
        next += 1;
    }
    Ok(())
}

/// Marks what the root reaches.
pub(crate) fn marks_of(alloc: Global, cells: &[Cell<SLOTS>]) -> Result<Vec<bool>, Memory>
    ensures { IfOk result (λ marks. length marks.items ≡ length cells.now) }
{
    let mut marks = vec![in alloc; false; cells.len()]?;
    mark_all(alloc, cells, marks.as_mut_slice())?;
    Ok(marks)
}

/// One if so, else none.
fn one_if(so: bool) -> u32 {
    if so { 1 } else { 0 }
}

/// How many live cells have no mark.
pub(crate) fn garbage_of(cells: &[Cell<SLOTS>], marks: &[bool]) -> u32
    requires { length marks.now ≡ length cells.now }
{
    let mut count = 0u32;
    for id in 0..cells.len() {
        count = count.saturating_add(one_if(cells[id].live && !marks[id]));
    }
    count
}
