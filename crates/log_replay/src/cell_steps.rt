//! What a record does to one cell, by the record and that cell alone.

ghost use Rattle.std.specs.Prelude.{◌≡◌, ◌≢◌, ◌<◌, true, false, length};
ghost use Rattle.cell_model.specs.Cells.{relink, pays, flipped, blank_cell};
ghost use Rattle.restart_laws.specs.Local.{Holds, CanLose, CanGain, FitsAt, counts_less, counts_more, turns};
ghost use Rattle.cell_page.specs.Format.{IsSlotCount, IsCell};
ghost use Rattle.cell_page.specs.Stored.{cell_of};
ghost use Rattle.log_record.specs.Spelling.{HasCellSpelling};
ghost use Rattle.log_record.specs.Records.{record_of};
ghost use Rattle.log_replay.specs.Steps.{IsPart, IsStep, CanPay, CanBeFlipped, CanFree, moving, shifting};

use crate::cell_tests::{can_flip, can_free, holds};
use cell_page::Cell;
use log_record::{CellRecord, PAYLOAD_PLACE};
use strength_counts::flip_cell;

/// A slot of the object held one target and gets another pointer.
#[derive(Drop)]
pub(crate) struct Relink {
    pub(crate) id: u32,
    pub(crate) slot: u8,
    pub(crate) from: u32,
    pub(crate) to: u32,
    pub(crate) to_bit: bool,
}

/// The slot of this object, which has to hold the target, gets another pointer. Tells whether it holds that.
#[inline(always)]
fn relinks<const SLOTS: usize>(cell: &mut Cell<SLOTS>, change: &Relink) -> bool
    requires slotted { length cell.old.slots ≡ SLOTS }
    requires count { IsSlotCount SLOTS }
    requires rules { IsCell cell.old.id cell.old }
    requires within { change.now.slot < SLOTS }
    requires null { change.now.to ≡ 0 → change.now.to_bit ≡ false }
    ensures yes { result ≡ true → IsPart change.now.id (Holds change.now.slot change.now.from) (relink change.now.slot (record { target = change.now.to; bit = change.now.to_bit })) cell.old cell.new }
    ensures unless { result ≡ false → (cell.old.id ≡ change.now.id → Holds change.now.slot change.now.from (cell_of cell.old)) → ⊥ }
{
    if cell.id != change.id {
        return true;
    }
    if !holds(cell, change.slot, change.from) {
        return false;
    }
    cell.set_pointer(change.slot, change.to, change.to_bit);
    true
}

/// The pointer of this object's slot, which has to hold the target, gets the other bit. Tells whether it holds that.
#[inline(always)]
fn turns_slot<const SLOTS: usize>(cell: &mut Cell<SLOTS>, id: u32, slot: u8, target: u32) -> bool
    requires slotted { length cell.old.slots ≡ SLOTS }
    requires count { IsSlotCount SLOTS }
    requires rules { IsCell cell.old.id cell.old }
    requires within { slot < SLOTS }
    requires target { target ≢ 0 }
    ensures yes { result ≡ true → IsPart id (Holds slot target) (turns slot) cell.old cell.new }
    ensures unless { result ≡ false → (cell.old.id ≡ id → Holds slot target (cell_of cell.old)) → ⊥ }
{
    if cell.id != id {
        return true;
    }
    if !holds(cell, slot, target) {
        return false;
    }
    let bit = cell.pointer_bit(slot);
    cell.set_pointer(slot, target, !bit);
    true
}

/// This object loses one pointer of the strength. Tells whether it can.
#[inline(always)]
fn loses<const SLOTS: usize>(cell: &mut Cell<SLOTS>, id: u32, strong: bool) -> bool
    requires rules { IsCell cell.old.id cell.old }
    ensures yes { result ≡ true → IsPart id (CanLose strong) (counts_less strong) cell.old cell.new }
    ensures unless { result ≡ false → (cell.old.id ≡ id → CanLose strong (cell_of cell.old)) → ⊥ }
{
    if cell.id != id {
        return true;
    }
    if !cell.live {
        return false;
    }
    if strong {
        if cell.strong == 0 {
            return false;
        }
        cell.strong -= 1;
    } else {
        if cell.weak == 0 {
            return false;
        }
        cell.weak -= 1;
    }
    true
}

/// This object gets one pointer more of the strength. Tells whether it can.
#[inline(always)]
fn gains<const SLOTS: usize>(cell: &mut Cell<SLOTS>, id: u32, strong: bool) -> bool
    requires rules { IsCell cell.old.id cell.old }
    ensures yes { result ≡ true → IsPart id (CanGain strong) (counts_more strong) cell.old cell.new }
    ensures unless { result ≡ false → (cell.old.id ≡ id → CanGain strong (cell_of cell.old)) → ⊥ }
{
    if cell.id != id {
        return true;
    }
    if !cell.live {
        return false;
    }
    if strong {
        if cell.strong == u32::MAX {
            return false;
        }
        cell.strong += 1;
    } else {
        if cell.weak == u32::MAX {
            return false;
        }
        cell.weak += 1;
    }
    true
}

/// The payload of this object, which has to be the old value, becomes the new one. Tells whether it is that.
#[inline(always)]
fn pays_from<const SLOTS: usize>(cell: &mut Cell<SLOTS>, id: u32, old: u64, new: u64) -> bool
    requires rules { IsCell cell.old.id cell.old }
    ensures yes { result ≡ true → IsPart id (CanPay old) (pays new) cell.old cell.new }
    ensures unless { result ≡ false → (cell.old.id ≡ id → CanPay old (cell_of cell.old)) → ⊥ }
{
    if cell.id != id {
        return true;
    }
    if !cell.live || cell.payload != old {
        return false;
    }
    cell.payload = new;
    true
}

/// This cell, which has to be free, holds a new object. Tells whether it is free.
#[inline(always)]
fn makes<const SLOTS: usize>(cell: &mut Cell<SLOTS>, id: u32) -> bool
    requires count { IsSlotCount SLOTS }
    requires rules { IsCell cell.old.id cell.old }
    ensures yes { result ≡ true → IsPart id (λ c. c.live ≡ false) (λ _. blank_cell true SLOTS) cell.old cell.new }
    ensures unless { result ≡ false → (cell.old.id ≡ id → cell.old.live ≡ false) → ⊥ }
{
    if cell.id != id {
        return true;
    }
    if cell.live {
        return false;
    }
    *cell = Cell::new_object(id);
    true
}

/// This object, which nothing names and which names nothing, is deleted. Tells whether it is such a one.
#[inline(always)]
fn frees<const SLOTS: usize>(cell: &mut Cell<SLOTS>, id: u32) -> bool
    requires count { IsSlotCount SLOTS }
    requires rules { IsCell cell.old.id cell.old }
    ensures yes { result ≡ true → IsPart id (CanFree id) (λ _. blank_cell false SLOTS) cell.old cell.new }
    ensures unless { result ≡ false → (cell.old.id ≡ id → CanFree id (cell_of cell.old)) → ⊥ }
{
    if cell.id != id {
        return true;
    }
    if !can_free(cell, id) {
        return false;
    }
    *cell = Cell::free(id);
    true
}

/// The target bit of the cell is flipped.
fn with_flip<const SLOTS: usize>(cell: &mut Cell<SLOTS>)
    requires count { IsSlotCount SLOTS }
    requires above { 0 < cell.old.id }
    requires rules { IsCell cell.old.id cell.old }
    requires can { CanBeFlipped cell.old.id (cell_of cell.old) }
    ensures model { cell_of cell.new ≡ flipped cell.old.id (cell_of cell.old) }
    ensures same { cell.new.id ≡ cell.old.id }
    ensures rules { IsCell cell.old.id cell.new }
{
    flip_cell(cell);
}

/// The target bit of this object, to which no strong pointer leads, is flipped. Tells whether it is such a one.
fn flips<const SLOTS: usize>(cell: &mut Cell<SLOTS>, id: u32) -> bool
    requires count { IsSlotCount SLOTS }
    requires above { 0 < cell.old.id }
    requires rules { IsCell cell.old.id cell.old }
    ensures yes { result ≡ true → IsPart id (CanBeFlipped id) (flipped id) cell.old cell.new }
    ensures unless { result ≡ false → (cell.old.id ≡ id → CanBeFlipped id (cell_of cell.old)) → ⊥ }
{
    if cell.id != id {
        return true;
    }
    if !can_flip(cell, id) {
        return false;
    }
    with_flip(cell);
    true
}

/// A slot gets another pointer, its old target loses one, and its new target, if any, gets one. Tells whether that fits.
#[inline(always)]
fn moves<const SLOTS: usize>(
    cell: &mut Cell<SLOTS>,
    change: &Relink,
    from_strong: bool,
    to_strong: bool,
) -> bool
    requires slotted { length cell.old.slots ≡ SLOTS }
    requires count { IsSlotCount SLOTS }
    requires above { 0 < cell.old.id }
    requires rules { IsCell cell.old.id cell.old }
    requires within { change.now.slot < SLOTS }
    requires null { change.now.to ≡ 0 → change.now.to_bit ≡ false }
    ensures yes { result ≡ true → IsStep (moving change.now from_strong to_strong) cell.old cell.new }
    ensures unless { result ≡ false → FitsAt (moving change.now from_strong to_strong) cell.old.id (cell_of cell.old) → ⊥ }
{
    if !relinks(cell, change) {
        return false;
    }
    if !loses(cell, change.from, from_strong) {
        return false;
    }
    gains(cell, change.to, to_strong)
}

/// The pointer of a slot changes its strength, and its target counts it so. Tells whether that fits.
#[inline(always)]
fn shifts<const SLOTS: usize>(
    cell: &mut Cell<SLOTS>,
    id: u32,
    slot: u8,
    target: u32,
    to_strong: bool,
) -> bool
    requires slotted { length cell.old.slots ≡ SLOTS }
    requires count { IsSlotCount SLOTS }
    requires rules { IsCell cell.old.id cell.old }
    requires within { slot < SLOTS }
    requires target { target ≢ 0 }
    ensures yes { result ≡ true → IsStep (shifting id slot target to_strong) cell.old cell.new }
    ensures unless { result ≡ false → FitsAt (shifting id slot target to_strong) cell.old.id (cell_of cell.old) → ⊥ }
{
    if !turns_slot(cell, id, slot, target) {
        return false;
    }
    if !loses(cell, target, !to_strong) {
        return false;
    }
    gains(cell, target, to_strong)
}

/// Does the record to the cell. Tells whether it fits the cell; where it doesn't, the cell is left as something else.
#[inline(always)]
pub(crate) fn step<const SLOTS: usize>(r: &CellRecord, cell: &mut Cell<SLOTS>) -> bool
    requires slotted { length cell.old.slots ≡ SLOTS }
    requires count { IsSlotCount SLOTS }
    requires above { 0 < cell.old.id }
    requires rules { IsCell cell.old.id cell.old }
    requires spelled { HasCellSpelling SLOTS r.now }
    ensures yes { result ≡ true → IsStep (record_of r.now) cell.old cell.new }
    ensures unless { result ≡ false → FitsAt (record_of r.now) cell.old.id (cell_of cell.old) → ⊥ }
{
    match *r {
        CellRecord::Begin { .. } | CellRecord::Commit { .. } | CellRecord::AbortEnd { .. } => true,
        CellRecord::Make { id, .. } => makes(cell, id),
        CellRecord::Store {
            id,
            slot,
            old_target,
            old_strong,
            new_target,
            new_bit,
            new_strong,
            ..
        } => {
            let change = Relink {
                id,
                slot,
                from: old_target,
                to: new_target,
                to_bit: new_bit,
            };
            moves(cell, &change, old_strong, new_strong)
        }
        CellRecord::Pay {
            id,
            old_value,
            new_value,
            ..
        } => pays_from(cell, id, old_value, new_value),
        CellRecord::Undo {
            id,
            place,
            from,
            from_strong,
            to,
            to_bit,
            ..
        } => {
            if place == PAYLOAD_PLACE {
                return pays_from(cell, id, from, to);
            }
            let change = Relink {
                id,
                slot: place,
                from: from as u32,
                to: to as u32,
                to_bit,
            };
            moves(cell, &change, from_strong, false)
        }
        CellRecord::Weaken { id, slot, target } => shifts(cell, id, slot, target, false),
        CellRecord::Strengthen { id, slot, target } => shifts(cell, id, slot, target, true),
        CellRecord::Flip { id } => flips(cell, id),
        CellRecord::CutDead {
            id,
            slot,
            target,
            was_strong,
        } => {
            let change = Relink {
                id,
                slot,
                from: target,
                to: 0,
                to_bit: false,
            };
            moves(cell, &change, was_strong, false)
        }
        CellRecord::Free { id } => frees(cell, id),
    }
}
