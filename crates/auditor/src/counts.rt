//! The count of all pointers.
ghost use Rattle.std.specs.Prelude.{◌≡◌, ◌<◌, ◌≤◌, ◌+◌, ℕ, length, map, slice_index, IfOk};
ghost use Rattle.cell_model.specs.Cells.{same, pointer_in, hits, aims_in};
ghost use Rattle.cell_page.specs.Format.{IsSlotCount};
ghost use Rattle.cell_page.specs.Stored.{cell_of};
ghost use Rattle.auditor.specs.Recount.{AreCounted};

use cell_page::Cell;
use plain_model::Memory;
use std::alloc::Global;

/// Whether two bits are equal.
fn is_same(bit: bool, other: bool) -> bool
    ensures { result ≡ same bit other }
{
    if bit { other } else { !other }
}

/// How many numbers there are.
fn len_of(numbers: &[u32]) -> usize
    ensures { result ≡ length numbers.now }
{
    numbers.len()
}

/// Each cell has so many slots.
pub(crate) fn know_slots<const SLOTS: usize>(cell: &Cell<SLOTS>)
    ensures { length cell.now.slots ≡ SLOTS }
{
    let _ = len_of(&cell.slots);
}

/// Counts the pointer of a slot, if it has this bit, at its target. Null pointers are counted at index 0, which is no id.
fn count_slot<const SLOTS: usize>(counts: &mut [u32], cell: &Cell<SLOTS>, slot: u8, bit: bool)
    requires size { IsSlotCount SLOTS }
    requires within { slot < SLOTS }
    requires room { (id : ℕ) → id < length counts.old → slice_index counts.old id < 4294967295 }
    ensures len { length counts.new ≡ length counts.old }
    ensures each { (id : ℕ) → id < length counts.old → slice_index counts.new id ≡ slice_index counts.old id + hits id bit (pointer_in (cell_of cell.now) slot) }
{
    let target = cell.slots[slot as usize] as usize;
    if target < counts.len() {
        if is_same(cell.pointer_bit(slot), bit) {
            counts[target] += 1;
        }
    }
}

/// Counts the pointers of a live cell that have this bit, each at its target.
pub fn count_cell<const SLOTS: usize>(counts: &mut [u32], cell: &Cell<SLOTS>, bit: bool)
    requires size { IsSlotCount SLOTS }
    requires room { (id : ℕ) → id < length counts.old → slice_index counts.old id ≤ 4000000000 }
    ensures len { length counts.new ≡ length counts.old }
    ensures each { (id : ℕ) → id < length counts.old → slice_index counts.new id ≡ slice_index counts.old id + aims_in id bit (cell_of cell.now) }
    ensures few { (id : ℕ) → aims_in id bit (cell_of cell.now) ≤ 14 }
{
    know_slots(cell);
    if cell.live {
        for slot in 0..SLOTS {
            count_slot(counts, cell, slot as u8, bit);
        }
    }
}

/// Counts the pointers of all live cells that have this bit, each at its target.
fn count_cells<const SLOTS: usize>(counts: &mut [u32], cells: &[Cell<SLOTS>], bit: bool)
    requires size { IsSlotCount SLOTS }
    requires few { length cells.now ≤ 8193 }
    requires len { length counts.old ≡ length cells.now }
    requires none { (id : ℕ) → slice_index counts.old id ≡ 0 }
    ensures counted { AreCounted (map cell_of cells.now) bit counts.new }
    ensures small { (id : ℕ) → id < length cells.now → slice_index counts.new id ≤ 1000000 }
{
    for cell in cells {
        count_cell(counts, cell, bit);
    }
}

/// For each id how many pointers of live cells lead to it that have this bit.
pub(crate) fn count_all<const SLOTS: usize>(
    alloc: Global,
    cells: &[Cell<SLOTS>],
    bit: bool,
) -> Result<Vec<u32>, Memory>
    requires size { IsSlotCount SLOTS }
    requires few { length cells.now ≤ 8193 }
    ensures counted { IfOk result (λ counts. AreCounted (map cell_of cells.now) bit counts.items) }
    ensures small { IfOk result (λ counts. (id : ℕ) → id < length cells.now → slice_index counts.items id ≤ 1000000) }
{
    let mut counts = vec![in alloc; 0u32; cells.len()]?;
    count_cells(counts.as_mut_slice(), cells, bit);
    Ok(counts)
}
