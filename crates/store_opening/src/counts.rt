//! The third rule: counts are exact.
ghost use Rattle.std.specs.Prelude.{◌≡◌, ◌↔◌, ℕ, ◌+◌, ◌<◌, ◌≤◌, true, false, length, slice_index, IfOk, IfSome, IfNone};
ghost use Rattle.cell_model.specs.Cells.{same, hits, aims_in, pointer_in, is_live, own_strong, IsExactAt};
ghost use Rattle.cell_page.specs.Format.{IsSlotCount};
ghost use Rattle.cell_page.specs.Stored.{cell_of};
ghost use Rattle.restart_laws.specs.Rules.{BreaksRule};
ghost use Rattle.store_opening.specs.Kept.{IsKept, IsLeast, AreCounted};

use cell_page::{Cell, ROOT};
use log_replay::{Memory, Replay};
use std::alloc::Global;

/// Whether two bits are equal.
fn is_same(bit: bool, other: bool) -> bool
    ensures { result ≡ same bit other }
{
    if bit { other } else { !other }
}

/// Counts the pointer of a slot, if it has this bit, at its target. Null pointers are counted at index 0, which is no id.
fn count_slot<const SLOTS: usize>(counts: &mut [u32], cell: &Cell<SLOTS>, slot: u8, bit: bool)
    requires size { IsSlotCount SLOTS }
    requires within { slot < SLOTS }
    requires room { (id : ℕ) → id < length counts.old → slice_index counts.old id < 4294967295 }
    ensures len { length counts.new ≡ length counts.old }
    ensures each { (id : ℕ) → id < length counts.old → slice_index counts.new id ≡ slice_index counts.old id + hits id bit (pointer_in (cell_of cell.now) slot) }
{
    let target = cell.slots[slot as usize] as usize;
    if target < counts.len() {
        if is_same(cell.pointer_bit(slot), bit) {
            counts[target] += 1;
        }
    }
}

/// Counts the pointers of a live cell that have this bit, each at its target.
fn count_cell<const SLOTS: usize>(counts: &mut [u32], cell: &Cell<SLOTS>, bit: bool)
    requires size { IsSlotCount SLOTS }
    requires slotted { length cell.now.slots ≡ SLOTS }
    requires room { (id : ℕ) → id < length counts.old → slice_index counts.old id ≤ 1000000 }
    ensures len { length counts.new ≡ length counts.old }
    ensures each { (id : ℕ) → id < length counts.old → slice_index counts.new id ≡ slice_index counts.old id + aims_in id bit (cell_of cell.now) }
    ensures few { (id : ℕ) → aims_in id bit (cell_of cell.now) ≤ 14 }
{
    if cell.live {
        for slot in 0..SLOTS {
            count_slot(counts, cell, slot as u8, bit);
        }
    }
}

/// Counts the pointers of all live cells that have this bit, each at its target.
fn count_cells<const SLOTS: usize>(counts: &mut [u32], replay: &Replay<SLOTS>, bit: bool)
    requires len { length counts.old ≡ length replay.now.cells }
    requires none { (id : ℕ) → slice_index counts.old id ≡ 0 }
    ensures counted { AreCounted replay.now.cells bit counts.new }
    ensures small { (id : ℕ) → id < length replay.now.cells → slice_index counts.new id ≤ 1000000 }
{
    let end = replay.last_id() + 1;
    for id in 1..end {
        count_cell(counts, replay.cell(id), bit);
    }
}

/// For each id how many pointers of live cells lead to it that have this bit.
fn count_all<const SLOTS: usize>(
    alloc: Global,
    replay: &Replay<SLOTS>,
    bit: bool,
) -> Result<Vec<u32>, Memory>
    ensures counted { IfOk result (λ counts. AreCounted replay.now.cells bit counts.items) }
    ensures small { IfOk result (λ counts. (id : ℕ) → id < length replay.now.cells → slice_index counts.items id ≤ 1000000) }
{
    let mut counts = vec![in alloc; 0u32; replay.last_id() as usize + 1]?;
    count_cells(counts.as_mut_slice(), replay, bit);
    Ok(counts)
}

/// What the strong count of an object has besides the pointers in slots.
fn own_strong(id: u32) -> u32
    ensures { result ≡ own_strong id }
{
    if id == ROOT { 1 } else { 0 }
}

/// Whether the object is live, and a count of it isn't the number of the pointers that it counts.
fn miscounts<const SLOTS: usize>(
    replay: &Replay<SLOTS>,
    clear: &[u32],
    set: &[u32],
    id: u32,
) -> bool
    requires size { IsSlotCount SLOTS }
    requires above { 0 < id }
    requires within { id < length replay.now.cells }
    requires clear { AreCounted replay.now.cells false clear.now }
    requires set { AreCounted replay.now.cells true set.now }
    requires clear_few { (x : ℕ) → x < length replay.now.cells → slice_index clear.now x ≤ 1000000 }
    requires set_few { (x : ℕ) → x < length replay.now.cells → slice_index set.now x ≤ 1000000 }
    ensures broken { result ≡ true → BreaksRule replay.now.cells 3 id }
    ensures kept { result ≡ false → is_live replay.now.cells id ≡ true → IsExactAt replay.now.cells id }
{
    let cell = replay.cell(id);
    if !cell.live {
        return false;
    }
    let own = own_strong(id);
    let set = set[id as usize];
    let clear = clear[id as usize];
    if cell.bit {
        return cell.strong != set + own || cell.weak != clear;
    }
    cell.strong != clear + own || cell.weak != set
}

/// The least object a count of which isn't exact.
pub(crate) fn first_miscounted<const SLOTS: usize>(
    alloc: Global,
    replay: &Replay<SLOTS>,
) -> Result<Option<u32>, Memory>
    ensures some { IfOk result (λ found. IfSome found (IsLeast replay.now.cells 3)) }
    ensures none { IfOk result (λ found. IfNone found (IsKept replay.now.cells 3)) }
{
    let clear = count_all(alloc, replay, false)?;
    let set = count_all(alloc, replay, true)?;
    let end = replay.last_id() + 1;
    for id in 1..end {
        if miscounts(replay, &clear, &set, id) {
            return Ok(Some(id));
        }
    }
    Ok(None)
}
