//! The replay of records over cells. What their counts say is of no account.
//!
//! The cell of id n stands at index n, and at index 0, which is no id, a free one.
ghost use Rattle.std.specs.Prelude.{◌≡◌, ◌≢◌, ◌<◌, ◌≤◌, ◌+◌, ◌++◌, ◌∷◌, [], ℕ, List, length, map, true, false, not, IfOk, slice_set, option_map};
ghost use Rattle.std.specs.Option.{option_map_or};
ghost use Rattle.cell_model.specs.Cells.{Cell as StoredCell, blank_cell, cell_at, pointer_in, pointer_at, edit, relink, pays, other_strength, switched};
ghost use Rattle.cell_model.specs.Records.{AllFit, after_record};
ghost use Rattle.cell_page.specs.Format.{IsSlotCount};
ghost use Rattle.cell_page.specs.Stored.{cell_of};
ghost use Rattle.log_record.specs.Records.{record_of, after_cell_record, FitsCells};
ghost use Rattle.core_store.specs.JournalView.{logged_in, cells_after_notes};
ghost use Rattle.core_store.specs.Opening.{store_of};
ghost use Rattle.auditor.specs.Replay.{SameButCounts, switched_over, Replays, ReplaysNote};

use crate::counts::know_slots;
use cell_page::Cell;
use core_store::{Note, Notes};
use log_record::{CellRecord, PAYLOAD_PLACE};
use plain_model::Memory;
use std::alloc::Global;

/// The cell of an id; a free one where there is none.
pub(crate) fn get<const SLOTS: usize>(cells: &[Cell<SLOTS>], id: u32) -> Cell<SLOTS>
    requires { IsSlotCount SLOTS }
    ensures cell { id < length cells.now → cell_of result ≡ cell_at (map cell_of cells.now) id }
    ensures count { length result.slots ≡ SLOTS }
{
    if (id as usize) < cells.len() {
        let cell = cells[id as usize];
        know_slots(&cell);
        return cell;
    }
    Cell::free(id)
}

/// Puts a cell in the place of an id.
fn put<const SLOTS: usize>(cells: &mut [Cell<SLOTS>], id: u32, cell: Cell<SLOTS>)
    ensures exact { map cell_of cells.new ≡ edit (map cell_of cells.old) id (λ _. cell_of cell.entry) }
    ensures len { length cells.new ≡ length cells.old }
{
    if id != 0 && (id as usize) < cells.len() {
        cells[id as usize] = cell;
    }
}

/// Lays a pointer in a slot, where there is such a slot.
fn lay<const SLOTS: usize>(cell: &mut Cell<SLOTS>, slot: u8, target: u32, bit: bool)
    requires size { IsSlotCount SLOTS }
    requires count { length cell.old.slots ≡ SLOTS }
    ensures { cell_of cell.new ≡ relink slot (record { target = target; bit = bit }) (cell_of cell.old) }
{
    if (slot as usize) < SLOTS {
        cell.set_pointer(slot, target, bit);
    }
}

/// Changes the bit of the pointer in a slot, where there is such a slot.
fn switch<const SLOTS: usize>(cell: &mut Cell<SLOTS>, slot: u8)
    requires size { IsSlotCount SLOTS }
    requires count { length cell.old.slots ≡ SLOTS }
    ensures model { cell_of cell.new ≡ relink slot (other_strength (pointer_in (cell_of cell.old) slot)) (cell_of cell.old) }
    ensures count { length cell.new.slots ≡ length cell.old.slots }
{
    if (slot as usize) < SLOTS {
        let target = cell.slots[slot as usize];
        let bit = cell.pointer_bit(slot);
        cell.set_pointer(slot, target, !bit);
    }
}

/// Changes the bit of a slot's pointer where it leads to this id.
fn switch_if<const SLOTS: usize>(cell: &mut Cell<SLOTS>, id: u32, slot: u8)
    requires size { IsSlotCount SLOTS }
    requires within { slot < SLOTS }
    requires count { length cell.old.slots ≡ SLOTS }
    ensures model { cell_of cell.new ≡ relink slot (switched id (pointer_in (cell_of cell.old) slot)) (cell_of cell.old) }
    ensures count { length cell.new.slots ≡ length cell.old.slots }
{
    if cell.slots[slot as usize] == id {
        switch(cell, slot);
    }
}

/// Changes the bits of the pointers to this id.
fn switch_all<const SLOTS: usize>(cell: &mut Cell<SLOTS>, id: u32)
    requires size { IsSlotCount SLOTS }
    requires count { length cell.old.slots ≡ SLOTS }
    ensures { cell_of cell.new ≡ record (cell_of cell.old) { pointers = map (switched id) (cell_of cell.old).pointers } }
{
    for slot in 0..SLOTS {
        switch_if(cell, id, slot as u8);
    }
}

/// The change of a slot.
fn redo_slot<const SLOTS: usize>(
    cells: &mut [Cell<SLOTS>],
    id: u32,
    slot: u8,
    target: u32,
    bit: bool,
)
    requires { IsSlotCount SLOTS }
    ensures exact { map cell_of cells.new ≡ edit (map cell_of cells.old) id (relink slot (record { target = target; bit = bit })) }
    ensures len { length cells.new ≡ length cells.old }
{
    let mut cell = get(cells, id);
    lay(&mut cell, slot, target, bit);
    put(cells, id, cell);
}

/// The change of a payload.
fn redo_pay<const SLOTS: usize>(cells: &mut [Cell<SLOTS>], id: u32, value: u64)
    requires { IsSlotCount SLOTS }
    ensures exact { map cell_of cells.new ≡ edit (map cell_of cells.old) id (pays value) }
    ensures len { length cells.new ≡ length cells.old }
{
    let mut cell = get(cells, id);
    cell.payload = value;
    put(cells, id, cell);
}

/// The change of the strength of a slot's pointer.
fn redo_switch<const SLOTS: usize>(cells: &mut [Cell<SLOTS>], id: u32, slot: u8)
    requires { IsSlotCount SLOTS }
    ensures exact { map cell_of cells.new ≡ edit (map cell_of cells.old) id (relink slot (other_strength (pointer_at (map cell_of cells.old) id slot))) }
    ensures len { length cells.new ≡ length cells.old }
{
    let mut cell = get(cells, id);
    switch(&mut cell, slot);
    put(cells, id, cell);
}

/// The flip of an object's target bit.
fn redo_flip<const SLOTS: usize>(cells: &mut [Cell<SLOTS>], id: u32)
    requires { IsSlotCount SLOTS }
    ensures exact { map cell_of cells.new ≡ edit (map cell_of cells.old) id (switched_over id) }
    ensures len { length cells.new ≡ length cells.old }
{
    let mut cell = get(cells, id);
    switch_all(&mut cell, id);
    cell.bit = !cell.bit;
    put(cells, id, cell);
}

/// The undo of a write.
fn redo_undo<const SLOTS: usize>(cells: &mut [Cell<SLOTS>], id: u32, place: u8, to: u64, bit: bool)
    requires size { IsSlotCount SLOTS }
    requires few { length cells.old ≤ 8193 }
    ensures payload { place ≡ 255 → map cell_of cells.new ≡ edit (map cell_of cells.old) id (pays to) }
    ensures slot { place ≢ 255 → to < 8193 → map cell_of cells.new ≡ edit (map cell_of cells.old) id (relink place (record { target = to; bit = bit })) }
    ensures len { length cells.new ≡ length cells.old }
{
    if place == PAYLOAD_PLACE {
        redo_pay(cells, id, to);
    } else if to < 8193 {
        redo_slot(cells, id, place, to as u32, bit);
    }
}

/// Changes the cells as the record says, all but their counts.
fn redo<const SLOTS: usize>(cells: &mut [Cell<SLOTS>], logged: &CellRecord)
    requires size { IsSlotCount SLOTS }
    requires few { length cells.old ≤ 8193 }
    ensures exact { Replays SLOTS (map cell_of cells.old) logged.now (map cell_of cells.new) }
    ensures len { length cells.new ≡ length cells.old }
{
    match *logged {
        CellRecord::Begin { .. } | CellRecord::Commit { .. } | CellRecord::AbortEnd { .. } => {}
        CellRecord::Make { id, .. } => put(cells, id, Cell::new_object(id)),
        CellRecord::Store {
            id,
            slot,
            new_target,
            new_bit,
            ..
        } => redo_slot(cells, id, slot, new_target, new_bit),
        CellRecord::Pay { id, new_value, .. } => redo_pay(cells, id, new_value),
        CellRecord::Undo {
            id,
            place,
            to,
            to_bit,
            ..
        } => redo_undo(cells, id, place, to, to_bit),
        CellRecord::Weaken { id, slot, .. } => redo_switch(cells, id, slot),
        CellRecord::Strengthen { id, slot, .. } => redo_switch(cells, id, slot),
        CellRecord::Flip { id } => redo_flip(cells, id),
        CellRecord::CutDead { id, slot, .. } => redo_slot(cells, id, slot, 0, false),
        CellRecord::Free { id } => put(cells, id, Cell::free(id)),
    }
}

/// Changes the cells as the note's record says, if it has one.
fn redo_note<const SLOTS: usize>(cells: &mut [Cell<SLOTS>], note: &Note)
    requires size { IsSlotCount SLOTS }
    requires few { length cells.old ≤ 8193 }
    ensures exact { ReplaysNote SLOTS (map cell_of cells.old) note.now.logged (map cell_of cells.new) }
    ensures len { length cells.new ≡ length cells.old }
{
    if let Some(logged) = &note.logged {
        redo(cells, logged);
    }
}

/// A copy of the cells, after a free one.
fn copied<const SLOTS: usize>(
    alloc: Global,
    opening: &[Cell<SLOTS>],
) -> Result<Vec<Cell<SLOTS>>, Memory>
    requires { IsSlotCount SLOTS }
    ensures { IfOk result (λ cells. map cell_of cells.items ≡ store_of opening.now) }
{
    let mut cells = Vec::new(alloc);
    cells.push(Cell::free(0))?;
    for cell in opening {
        cells.push(*cell)?;
    }
    Ok(cells)
}

/// Changes the cells as the notes' records say.
fn redo_all<const SLOTS: usize>(cells: &mut [Cell<SLOTS>], trace: &Notes)
    requires size { IsSlotCount SLOTS }
    requires few { length cells.old ≤ 8193 }
    requires fits { AllFit SLOTS (map cell_of cells.old) (logged_in trace.now.list) }
    ensures { SameButCounts (map cell_of cells.new) (cells_after_notes SLOTS (map cell_of cells.old) trace.now.list) }
{
    for note in trace.iter() {
        redo_note(cells, &note);
    }
}

/// The cells after the notes, all but their counts, which are of no account.
pub fn replayed<const SLOTS: usize>(
    alloc: Global,
    opening: &[Cell<SLOTS>],
    trace: &Notes,
) -> Result<Vec<Cell<SLOTS>>, Memory>
    requires size { IsSlotCount SLOTS }
    requires few { length opening.now ≤ 8192 }
    requires fits { AllFit SLOTS (store_of opening.now) (logged_in trace.now.list) }
    ensures cells { IfOk result (λ cells. SameButCounts (map cell_of cells.items) (cells_after_notes SLOTS (store_of opening.now) trace.now.list)) }
    ensures len { IfOk result (λ cells. length cells.items ≡ length opening.now + 1) }
{
    let mut cells = copied(alloc, opening)?;
    redo_all(cells.as_mut_slice(), trace);
    Ok(cells)
}
