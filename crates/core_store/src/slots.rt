//! The change of a slot, with the strengths of what it held and holds and the counts of its targets.

ghost use Rattle.std.specs.Prelude.{◌≡◌, ◌≢◌, ℕ, ◌<◌, ◌≤◌, ◌==◌, List, [], ◌∷◌, ◌&&◌, true, false, not, length, Some};
ghost use Rattle.cell_model.specs.Cells.{Cell as StoredCell, same, cell_at, pointer_at, is_live, edit, relink, gains, loses, relinked, other_strength, pays};
ghost use Rattle.cell_page.specs.Format.{IsSlotCount, IsCell};
ghost use Rattle.cell_page.specs.Stored.{cell_of};
ghost use Rattle.core_store.specs.Frames.{pages_held, Agree};
ghost use Rattle.core_store.specs.Logged.{object_and_targets};
ghost use Rattle.core_store.specs.Work.{IsWork, HasSmallTargets};
ghost use Rattle.core_store.specs.Changes.{is_counted_strong, is_laid_strong, bit_for, stored_change, restored_change};
ghost use Rattle.core_store.specs.Slots.{HoldsPagesOf, IsReadyToWeaken, WeakensSlot, IsReadyToStrengthen, StrengthensSlot, IsReadyToFlip, FlipsCell, IsReadyToChange, IsReadyToEdit, IsReadyToLose, IsReadyToGain, IsChanged, Changes, HasPlace, pointer_of, turned};

use crate::three::Three;
use cell_page::Cell;
use strength_counts::{flip_cell, takes_strong};

/// How a slot changed: the id that it held, or 0, and whether that pointer was strong; the pointer bit that it has now,
/// and whether what it holds is strong.
#[derive(Clone, Copy, PartialEq, Eq, Debug)]
pub(crate) struct SlotChange {
    pub(crate) old_target: u32,
    pub(crate) old_strong: bool,
    pub(crate) new_bit: bool,
    pub(crate) new_strong: bool,
}

/// What a slot holds: the id that it names, or 0, and its pointer bit.
#[derive(Clone, Copy)]
struct Pointer {
    target: u32,
    bit: bool,
}

/// What the slot of an object holds.
fn held_pointer<const SLOTS: usize>(held: &Three<SLOTS>, id: u32, slot: u8) -> Pointer
    requires size { IsSlotCount SLOTS }
    requires ready { IsReadyToEdit held.now id }
    requires within { slot < SLOTS }
    ensures stored { (cells : List StoredCell) → Agree cells held.now → pointer_at cells id slot ≡ pointer_of result }
    ensures null { result.target ≡ 0 → result.bit ≡ false }
{
    let cell = held.cell(id);
    Pointer {
        target: cell.slots[slot as usize],
        bit: cell.pointer_bit(slot),
    }
}

/// Puts a cell back, and marks whether no strong pointer leads to it.
fn put_back<const SLOTS: usize>(held: &mut Three<SLOTS>, zeros: &mut Vec<bool>, cell: Cell<SLOTS>)
    requires place { HasPlace held.old zeros.old.items cell.id }
    requires rules { IsCell cell.id cell }
    requires agrees { (all : List StoredCell) × Agree all held.old }
    ensures changed { (all : List StoredCell) → Agree all held.old → IsChanged all (edit all cell.entry.id (λ _. cell_of cell.entry)) held.old held.new zeros.old.items zeros.new.items }
    ensures pages { pages_held held.new ≡ pages_held held.old }
    ensures marks { length zeros.new.items ≡ length zeros.old.items }
{
    let id = cell.id;
    let zero = cell.strong == 0;
    held.put_cell(cell);
    zeros[id as usize] = zero;
}

/// Lays a pointer in a slot, and lets the counts be.
#[inline(always)]
fn relink<const SLOTS: usize>(held: &mut Three<SLOTS>, id: u32, slot: u8, to: Pointer)
    requires size { IsSlotCount SLOTS }
    requires ready { IsReadyToEdit held.old id }
    requires within { slot < SLOTS }
    requires null { to.target ≡ 0 → to.bit ≡ false }
    ensures stored { (cells : List StoredCell) → Agree cells held.old → Agree (edit cells id (relink slot (pointer_of to))) held.new }
    ensures pages { pages_held held.new ≡ pages_held held.old }
{
    held.set_pointer(id, slot, to.target, to.bit);
}

/// The target counts one pointer with this bit less. Tells whether it was strong.
#[inline(always)]
fn lower<const SLOTS: usize>(
    held: &mut Three<SLOTS>,
    zeros: &mut Vec<bool>,
    target: u32,
    bit: bool,
) -> bool
    requires size { IsSlotCount SLOTS }
    requires ready { IsReadyToLose held.old zeros.old.items target bit }
    ensures strong { (cells : List StoredCell) → Agree cells held.old → result ≡ same (cell_at cells target).bit bit }
    ensures changed { (cells : List StoredCell) → Agree cells held.old → IsChanged cells (edit cells target (loses bit)) held.old held.new zeros.old.items zeros.new.items }
    ensures pages { pages_held held.new ≡ pages_held held.old }
    ensures marks { length zeros.new.items ≡ length zeros.old.items }
{
    let lost = held.lose(target, bit);
    zeros[target as usize] = lost.none_left;
    lost.strong
}

/// The target counts one pointer with this bit more.
#[inline(always)]
fn raise<const SLOTS: usize>(held: &mut Three<SLOTS>, zeros: &mut Vec<bool>, target: u32, bit: bool)
    requires size { IsSlotCount SLOTS }
    requires ready { IsReadyToGain held.old zeros.old.items target bit }
    ensures changed { (cells : List StoredCell) → Agree cells held.old → IsChanged cells (edit cells target (gains bit)) held.old held.new zeros.old.items zeros.new.items }
    ensures pages { pages_held held.new ≡ pages_held held.old }
    ensures marks { length zeros.new.items ≡ length zeros.old.items }
{
    zeros[target as usize] = held.gain(target, bit);
}

/// The target counts one pointer with the other bit in place of one with this bit.
#[inline(always)]
fn turn<const SLOTS: usize>(held: &mut Three<SLOTS>, zeros: &mut Vec<bool>, target: u32, bit: bool)
    requires size { IsSlotCount SLOTS }
    requires some { IsReadyToLose held.old zeros.old.items target bit }
    requires room { IsReadyToGain held.old zeros.old.items target (not bit) }
    ensures changed { (cells : List StoredCell) → Agree cells held.old → IsChanged cells (edit cells target (turned bit)) held.old held.new zeros.old.items zeros.new.items }
    ensures pages { pages_held held.new ≡ pages_held held.old }
{
    zeros[target as usize] = held.turn(target, bit);
}

/// What the slot held counts its pointer no more. Tells whether that was a strong one.
#[inline(always)]
fn let_go<const SLOTS: usize>(held: &mut Three<SLOTS>, zeros: &mut Vec<bool>, from: Pointer) -> bool
    requires size { IsSlotCount SLOTS }
    requires agrees { (cells : List StoredCell) × Agree cells held.old }
    requires ready { from.target ≢ 0 → IsReadyToLose held.old zeros.old.items from.target from.bit }
    ensures strong { (cells : List StoredCell) → Agree cells held.old → result ≡ is_counted_strong cells (pointer_of from) }
    ensures changed { (cells : List StoredCell) → Agree cells held.old → IsChanged cells (edit cells from.target (loses from.bit)) held.old held.new zeros.old.items zeros.new.items }
    ensures pages { pages_held held.new ≡ pages_held held.old }
    ensures marks { length zeros.new.items ≡ length zeros.old.items }
{
    from.target != 0 && lower(held, zeros, from.target, from.bit)
}

/// Lays a pointer in the slot, which its target counts.
#[inline(always)]
fn lay<const SLOTS: usize>(
    held: &mut Three<SLOTS>,
    zeros: &mut Vec<bool>,
    id: u32,
    slot: u8,
    to: Pointer,
)
    requires size { IsSlotCount SLOTS }
    requires ready { IsReadyToEdit held.old id }
    requires within { slot < SLOTS }
    requires null { to.target ≡ 0 → to.bit ≡ false }
    requires room { to.target ≢ 0 → IsReadyToGain held.old zeros.old.items to.target to.bit }
    ensures changed { (cells : List StoredCell) → Agree cells held.old → IsChanged cells (edit (edit cells id (relink slot (pointer_of to))) to.target (gains to.bit)) held.old held.new zeros.old.items zeros.new.items }
    ensures pages { pages_held held.new ≡ pages_held held.old }
{
    relink(held, id, slot, to);
    if to.target != 0 {
        raise(held, zeros, to.target, to.bit);
    }
}

/// A new pointer from the object to the target, and whether it is strong by the rule of new pointers.
fn new_pointer<const SLOTS: usize>(held: &Three<SLOTS>, id: u32, target: u32) -> (Pointer, bool)
    requires agrees { (cells : List StoredCell) × Agree cells held.now }
    requires ready { target ≢ 0 → IsReadyToEdit held.now target }
    ensures target { result.0.target ≡ target }
    ensures bit { (cells : List StoredCell) → Agree cells held.now → result.0.bit ≡ bit_for cells target result.1 }
    ensures strong { (cells : List StoredCell) → Agree cells held.now → result.1 ≡ is_laid_strong cells id target }
    ensures null { target ≡ 0 → result.0.bit ≡ false }
{
    if target == 0 {
        return (Pointer { target, bit: false }, false);
    }
    let cell = held.cell(target);
    let strong = id != target && takes_strong(cell);
    let bit = cell.bit == strong;
    (Pointer { target, bit }, strong)
}

/// A new weak pointer to the target.
fn weak_pointer<const SLOTS: usize>(held: &Three<SLOTS>, target: u32) -> Pointer
    requires ready { target ≢ 0 → IsReadyToEdit held.now target }
    ensures target { result.target ≡ target }
    ensures bit { (cells : List StoredCell) → Agree cells held.now → result.bit ≡ bit_for cells target false }
    ensures null { target ≡ 0 → result.bit ≡ false }
{
    Pointer {
        target,
        bit: target != 0 && !held.cell(target).bit,
    }
}

/// Gives the slot's pointer, which isn't null, its other strength.
#[inline(always)]
fn switch<const SLOTS: usize>(
    held: &mut Three<SLOTS>,
    zeros: &mut Vec<bool>,
    id: u32,
    slot: u8,
    from: Pointer,
)
    requires size { IsSlotCount SLOTS }
    requires ready { IsReadyToChange held.old zeros.old.items id slot 0 }
    requires from { (cells : List StoredCell) → Agree cells held.old → pointer_at cells id slot ≡ pointer_of from }
    requires some { from.target ≢ 0 }
    ensures changed { (cells : List StoredCell) → Agree cells held.old → IsChanged cells (relinked cells id slot (other_strength (pointer_at cells id slot))) held.old held.new zeros.old.items zeros.new.items }
    ensures pages { pages_held held.new ≡ pages_held held.old }
{
    let to = Pointer {
        bit: !from.bit,
        ..from
    };
    relink(held, id, slot, to);
    turn(held, zeros, from.target, from.bit);
}

/// Removes what the slot holds, and lays a pointer to the target, strong by the rule of new pointers.
pub(crate) fn store<const SLOTS: usize>(
    held: &mut Three<SLOTS>,
    zeros: &mut Vec<bool>,
    id: u32,
    slot: u8,
    target: u32,
) -> SlotChange
    requires size { IsSlotCount SLOTS }
    requires ready { IsReadyToChange held.old zeros.old.items id slot target }
    ensures changes { Changes held.old held.new zeros.old.items zeros.new.items id slot target (λ cells. stored_change cells id slot target) result }
    ensures pages { pages_held held.new ≡ pages_held held.old }
{
    let from = held_pointer(held, id, slot);
    let old_strong = let_go(held, zeros, from);
    let (to, new_strong) = new_pointer(held, id, target);
    lay(held, zeros, id, slot, to);
    SlotChange {
        old_target: from.target,
        old_strong,
        new_bit: to.bit,
        new_strong,
    }
}

/// Removes what the slot holds, and lays a weak pointer to the target.
pub(crate) fn restore<const SLOTS: usize>(
    held: &mut Three<SLOTS>,
    zeros: &mut Vec<bool>,
    id: u32,
    slot: u8,
    target: u32,
) -> SlotChange
    requires size { IsSlotCount SLOTS }
    requires ready { IsReadyToChange held.old zeros.old.items id slot target }
    ensures changes { Changes held.old held.new zeros.old.items zeros.new.items id slot target (λ cells. restored_change cells id slot target) result }
    ensures pages { pages_held held.new ≡ pages_held held.old }
{
    let from = held_pointer(held, id, slot);
    let old_strong = let_go(held, zeros, from);
    let to = weak_pointer(held, target);
    lay(held, zeros, id, slot, to);
    SlotChange {
        old_target: from.target,
        old_strong,
        new_bit: to.bit,
        new_strong: false,
    }
}

/// Makes the slot's strong pointer weak, and gives its target.
#[inline(always)]
pub(crate) fn weaken<const SLOTS: usize>(
    held: &mut Three<SLOTS>,
    zeros: &mut Vec<bool>,
    id: u32,
    slot: u8,
) -> u32
    requires size { IsSlotCount SLOTS }
    requires ready { IsReadyToWeaken held.old zeros.old.items id slot }
    ensures weakens { WeakensSlot held.old held.new zeros.old.items zeros.new.items id slot result }
    ensures pages { pages_held held.new ≡ pages_held held.old }
{
    let from = held_pointer(held, id, slot);
    switch(held, zeros, id, slot, from);
    from.target
}

/// Makes the slot's weak pointer strong.
pub(crate) fn strengthen<const SLOTS: usize>(
    held: &mut Three<SLOTS>,
    zeros: &mut Vec<bool>,
    id: u32,
    slot: u8,
)
    requires size { IsSlotCount SLOTS }
    requires ready { IsReadyToStrengthen held.old zeros.old.items id slot }
    ensures strengthens { StrengthensSlot held.old held.new zeros.old.items zeros.new.items id slot }
    ensures pages { pages_held held.new ≡ pages_held held.old }
{
    let from = held_pointer(held, id, slot);
    switch(held, zeros, id, slot, from);
}

/// Flips an object: its pointers to itself stay weak, and all others to it become strong.
pub(crate) fn flip<const SLOTS: usize>(held: &mut Three<SLOTS>, zeros: &mut Vec<bool>, id: u32)
    requires size { IsSlotCount SLOTS }
    requires ready { IsReadyToFlip held.old zeros.old.items id }
    ensures flips { FlipsCell held.old held.new zeros.old.items zeros.new.items id }
    ensures pages { pages_held held.new ≡ pages_held held.old }
{
    let mut cell = *held.cell(id);
    flip_cell(&mut cell);
    put_back(held, zeros, cell);
}

/// Whether the slot holds a strong pointer to this object.
pub(crate) fn leads_to<const SLOTS: usize>(
    held: &Three<SLOTS>,
    id: u32,
    slot: u8,
    target: u32,
) -> bool
    requires size { IsSlotCount SLOTS }
    requires work { IsWork SLOTS (record { id = id; change = Some (slot, 0) }) }
    requires pages { (cells : List StoredCell) × Agree cells held.now × HasSmallTargets cells × HoldsPagesOf held.now (object_and_targets cells id slot 0) }
    ensures { (cells : List StoredCell) → Agree cells held.now → result ≡ (((pointer_at cells id slot).target == target) && is_counted_strong cells (pointer_at cells id slot)) }
{
    held.cell(id).slots[slot as usize] == target && is_strong(held, id, slot)
}

/// Whether the slot holds a strong pointer.
#[inline(always)]
pub(crate) fn is_strong<const SLOTS: usize>(held: &Three<SLOTS>, id: u32, slot: u8) -> bool
    requires size { IsSlotCount SLOTS }
    requires work { IsWork SLOTS (record { id = id; change = Some (slot, 0) }) }
    requires pages { (cells : List StoredCell) × Agree cells held.now × HasSmallTargets cells × HoldsPagesOf held.now (object_and_targets cells id slot 0) }
    ensures { (cells : List StoredCell) → Agree cells held.now → result ≡ is_counted_strong cells (pointer_at cells id slot) }
{
    is_strong_in(held, held.cell(id), slot)
}

/// Whether the slot of this cell, which is one of the held ones, holds a strong pointer.
#[inline(always)]
fn is_strong_in<const SLOTS: usize>(held: &Three<SLOTS>, cell: &Cell<SLOTS>, slot: u8) -> bool
    requires size { IsSlotCount SLOTS }
    requires work { IsWork SLOTS (record { id = cell.now.id; change = Some (slot, 0) }) }
    requires pages { (cells : List StoredCell) × Agree cells held.now × HasSmallTargets cells × HoldsPagesOf held.now (object_and_targets cells cell.now.id slot 0) }
    requires stored { (cells : List StoredCell) → Agree cells held.now → cell_of cell.now ≡ cell_at cells cell.now.id }
    ensures { (cells : List StoredCell) → Agree cells held.now → result ≡ is_counted_strong cells (pointer_at cells cell.now.id slot) }
{
    let target = cell.slots[slot as usize];
    target != 0 && held.cell(target).bit == cell.pointer_bit(slot)
}

/// The first slot of the object from this one on that holds a strong pointer, or the number of slots.
#[inline(always)]
pub(crate) fn first_strong<const SLOTS: usize>(held: &Three<SLOTS>, id: u32, from: u8) -> u8
    requires size { IsSlotCount SLOTS }
    requires work { IsWork SLOTS (record { id = id; change = None }) }
    requires within { from ≤ SLOTS }
    requires pages { (cells : List StoredCell) × Agree cells held.now × HasSmallTargets cells × ((slot : ℕ) → slot < SLOTS → HoldsPagesOf held.now (object_and_targets cells id slot 0)) }
    ensures behind { from ≤ result }
    ensures within { result ≤ SLOTS }
    ensures weak { (cells : List StoredCell) → Agree cells held.now → (slot : ℕ) → from ≤ slot → slot < result → is_counted_strong cells (pointer_at cells id slot) ≡ false }
    ensures strong { result < SLOTS → (cells : List StoredCell) → Agree cells held.now → is_counted_strong cells (pointer_at cells id result) ≡ true }
{
    let cell = held.cell(id);
    for place in from as usize..SLOTS {
        if is_strong_in(held, cell, place as u8) {
            return place as u8;
        }
    }
    SLOTS as u8
}

/// Whether the slot isn't null.
pub(crate) fn is_pointer<const SLOTS: usize>(held: &Three<SLOTS>, id: u32, slot: u8) -> bool
    requires work { IsWork SLOTS (record { id = id; change = Some (slot, 0) }) }
    requires pages { (cells : List StoredCell) × Agree cells held.now × HoldsPagesOf held.now (id ∷ []) }
    ensures { (cells : List StoredCell) → Agree cells held.now → result ≡ not ((pointer_at cells id slot).target == 0) }
{
    held.cell(id).slots[slot as usize] != 0
}

/// Sets the payload of an object, and gives the one before.
pub(crate) fn pay<const SLOTS: usize>(held: &mut Three<SLOTS>, id: u32, value: u64) -> u64
    requires { IsReadyToEdit held.old id }
    ensures old { (cells : List StoredCell) → Agree cells held.old → result ≡ (cell_at cells id).payload }
    ensures stored { (cells : List StoredCell) → Agree cells held.old → is_live cells id ≡ true → Agree (edit cells id (pays value)) held.new }
    ensures pages { pages_held held.new ≡ pages_held held.old }
{
    let mut cell = *held.cell(id);
    let old = cell.payload;
    cell.payload = value;
    held.put_cell(cell);
    old
}
