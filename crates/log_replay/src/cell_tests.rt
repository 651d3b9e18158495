//! What is asked of one cell before a record changes it.

ghost use Rattle.std.specs.Prelude.{◌≡◌, ◌↔◌, ◌<◌, ◌==◌, true, length, count_by};
ghost use Rattle.std.specs.List.{list_all};
ghost use Rattle.cell_model.specs.Cells.{pointer_in, self_pointers};
ghost use Rattle.cell_model.specs.Records.{HasNoPointer};
ghost use Rattle.restart_laws.specs.Local.{Holds};
ghost use Rattle.cell_page.specs.Stored.{cell_of};
ghost use Rattle.log_replay.specs.Steps.{CanBeFlipped, CanFree};

use cell_page::{Cell, ROOT};

/// The target of a slot.
#[inline(always)]
pub(crate) fn target_in<const SLOTS: usize>(cell: &Cell<SLOTS>, slot: u8) -> u32
    requires slotted { length cell.now.slots ≡ SLOTS }
    requires within { slot < SLOTS }
    ensures value { result ≡ (pointer_in (cell_of cell.now) slot).target }
    ensures within { slot < length (cell_of cell.now).pointers }
{
    cell.slots[slot as usize]
}

/// Whether a slot of the cell, which is live, holds the target.
#[inline(always)]
pub(crate) fn holds<const SLOTS: usize>(cell: &Cell<SLOTS>, slot: u8, target: u32) -> bool
    requires slotted { length cell.now.slots ≡ SLOTS }
    requires within { slot < SLOTS }
    ensures { (result ≡ true) ↔ Holds slot target (cell_of cell.now) }
{
    let held = target_in(cell, slot);
    cell.live && held == target
}

/// Whether all slots are null.
fn are_null(slots: &[u32]) -> bool
    ensures { result ≡ list_all (λ target. target == 0) slots.now }
{
    slots.iter().all(|target| *target == 0)
}

/// Whether all slots of the cell are null.
fn names_nothing<const SLOTS: usize>(cell: &Cell<SLOTS>) -> bool
    ensures { (result ≡ true) ↔ HasNoPointer (cell_of cell.now) }
{
    are_null(&cell.slots)
}

/// How many slots name the id.
fn names(slots: &[u32], id: u32) -> usize
    ensures { result ≡ count_by (λ target. target == id) slots.now }
{
    slots.iter().filter(|target| **target == id).count()
}

/// How many slots of the cell name the id.
fn pointers_to<const SLOTS: usize>(cell: &Cell<SLOTS>, id: u32) -> usize
    ensures { result ≡ self_pointers id (cell_of cell.now) }
{
    names(&cell.slots, id)
}

/// Whether the object of the id, which is in the cell, can be deleted.
#[inline(always)]
pub(crate) fn can_free<const SLOTS: usize>(cell: &Cell<SLOTS>, id: u32) -> bool
    ensures { (result ≡ true) ↔ CanFree id (cell_of cell.now) }
{
    let is_empty = names_nothing(cell);
    cell.live && id != ROOT && is_empty && cell.strong == 0 && cell.weak == 0
}

/// Whether the target bit of the id's cell can be flipped.
pub(crate) fn can_flip<const SLOTS: usize>(cell: &Cell<SLOTS>, id: u32) -> bool
    ensures { (result ≡ true) ↔ CanBeFlipped id (cell_of cell.now) }
{
    let own = pointers_to(cell, id);
    cell.live && cell.strong == 0 && own <= cell.weak as usize
}
