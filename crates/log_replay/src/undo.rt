//! Whether what a write changed can be undone, and the record of its undo.

ghost use Rattle.std.specs.Prelude.{◌≡◌, ◌≢◌, ◌↔◌, ◌<◌, ◌≤◌, ◌-◌, true, length};
ghost use Rattle.plain_model.specs.declared.write.Place.TheVariants.{Slot, Payload};
ghost use Rattle.cell_model.specs.Cells.{is_live, pointer_at};
ghost use Rattle.cell_page.specs.Format.{IsSlotCount};
ghost use Rattle.restart_laws.specs.Restored.{CanBeUndone, undo_of, is_counted_strong, weak_bit};
ghost use Rattle.log_record.specs.Spelling.{HasCellSpelling, IsPass};
ghost use Rattle.log_record.specs.Records.{record_of};
ghost use Rattle.log_replay.specs.Placed.{IsStoreChange};
ghost use Rattle.log_replay.specs.Replays.{IsWithin, NotesNothing};
ghost use Rattle.log_replay.specs.Steps.{change_by};

use crate::cell_tests::target_in;
use crate::pages::Pages;
use crate::transaction::Write;
use log_record::{CellRecord, PAYLOAD_PLACE};
use plain_model::Place;

/// Whether the id is 0 for null, or that of a live object.
fn can_stand<const SLOTS: usize>(pages: &Pages<SLOTS>, id: u32) -> bool
    requires count { IsSlotCount SLOTS }
    requires within { id < length pages.now }
    ensures { (result ≡ true) ↔ (id ≢ 0 → is_live pages.now id ≡ true) }
{
    id == 0 || pages.get(id).live
}

/// Whether a slot holds what a write left there, and what stood there before can stand there again.
fn can_undo_slot<const SLOTS: usize>(
    pages: &Pages<SLOTS>,
    id: u32,
    slot: u8,
    old: u32,
    new: u32,
) -> bool
    requires count { IsSlotCount SLOTS }
    requires above { 0 < id }
    requires within { id < length pages.now }
    requires slot { slot < SLOTS }
    requires old { old < length pages.now }
    ensures { (result ≡ true) ↔ CanBeUndone pages.now (record { id = id; place = Slot slot; old = old; new = new }) }
{
    let is_old = can_stand(pages, old);
    let cell = pages.get(id);
    let held = target_in(cell, slot);
    cell.live && held == new && is_old
}

/// Whether the payload is what a write left there.
fn can_undo_payload<const SLOTS: usize>(pages: &Pages<SLOTS>, id: u32, old: u64, new: u64) -> bool
    requires count { IsSlotCount SLOTS }
    requires above { 0 < id }
    requires within { id < length pages.now }
    ensures { (result ≡ true) ↔ CanBeUndone pages.now (record { id = id; place = Payload; old = old; new = new }) }
{
    let cell = pages.get(id);
    cell.live && cell.payload == new
}

/// Whether a write can be undone.
pub(crate) fn can_undo<const SLOTS: usize>(pages: &Pages<SLOTS>, write: &Write) -> bool
    requires count { IsSlotCount SLOTS }
    requires few { length pages.now ≤ 8193 }
    requires placed { IsStoreChange SLOTS (length pages.now - 1) (change_by write.now) }
    ensures { (result ≡ true) ↔ CanBeUndone pages.now (change_by write.now) }
{
    match write.place {
        Place::Slot(slot) => can_undo_slot(
            pages,
            write.id,
            slot,
            write.old as u32,
            write.new as u32,
        ),
        Place::Payload => can_undo_payload(pages, write.id, write.old, write.new),
        Place::Whole => false,
    }
}

/// Whether the pointer to this target in a slot, which may be null, is strong.
fn is_strong<const SLOTS: usize>(pages: &Pages<SLOTS>, id: u32, slot: u8, target: u32) -> bool
    requires count { IsSlotCount SLOTS }
    requires above { 0 < id }
    requires within { id < length pages.now }
    requires slot { slot < SLOTS }
    requires target { target < length pages.now }
    requires held { (pointer_at pages.now id slot).target ≡ target }
    ensures { result ≡ is_counted_strong pages.now (pointer_at pages.now id slot) }
{
    let bit = pages.get(id).pointer_bit(slot);
    target != 0 && pages.get(target).bit == bit
}

/// The bit with which a pointer to this target, which may be null, is weak.
fn weak_bit<const SLOTS: usize>(pages: &Pages<SLOTS>, target: u32) -> bool
    requires count { IsSlotCount SLOTS }
    requires within { target < length pages.now }
    ensures { result ≡ weak_bit pages.now target }
{
    target != 0 && !pages.get(target).bit
}

/// The record of the undo of a write to a slot.
fn undo_of_slot<const SLOTS: usize>(
    pages: &Pages<SLOTS>,
    pass: u8,
    id: u32,
    slot: u8,
    old: u32,
    new: u32,
) -> CellRecord
    requires count { IsSlotCount SLOTS }
    requires client { IsPass pass }
    requires above { 0 < id }
    requires within { id < length pages.now }
    requires slot { slot < SLOTS }
    requires old { old < length pages.now }
    requires new { new < length pages.now }
    requires left { (pointer_at pages.now id slot).target ≡ new }
    ensures undo { record_of result ≡ undo_of pages.now pass (record { id = id; place = Slot slot; old = old; new = new }) }
    ensures spelled { HasCellSpelling SLOTS result }
    ensures within { IsWithin (length pages.now - 1) result }
    ensures nothing { NotesNothing result }
{
    CellRecord::Undo {
        pass,
        id,
        place: slot,
        from: new as u64,
        from_strong: is_strong(pages, id, slot, new),
        to: old as u64,
        to_bit: weak_bit(pages, old),
    }
}

/// The record of the undo of a write, which can be undone.
pub(crate) fn undo_record<const SLOTS: usize>(
    pages: &Pages<SLOTS>,
    pass: u8,
    write: &Write,
) -> CellRecord
    requires count { IsSlotCount SLOTS }
    requires few { length pages.now ≤ 8193 }
    requires client { IsPass pass }
    requires placed { IsStoreChange SLOTS (length pages.now - 1) (change_by write.now) }
    requires can { CanBeUndone pages.now (change_by write.now) }
    ensures undo { record_of result ≡ undo_of pages.now pass (change_by write.now) }
    ensures spelled { HasCellSpelling SLOTS result }
    ensures within { IsWithin (length pages.now - 1) result }
    ensures nothing { NotesNothing result }
{
    if let Place::Slot(slot) = write.place {
        return undo_of_slot(
            pages,
            pass,
            write.id,
            slot,
            write.old as u32,
            write.new as u32,
        );
    }
    CellRecord::Undo {
        pass,
        id: write.id,
        place: PAYLOAD_PLACE,
        from: write.new,
        from_strong: false,
        to: write.old,
        to_bit: false,
    }
}
