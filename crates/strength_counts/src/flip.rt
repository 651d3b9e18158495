//! The flip of a target bit, which exchanges strong and weak for all pointers to an object.

ghost use Rattle.std.specs.Prelude.{◌≡◌, ◌<◌, ◌≤◌, ◌==◌, ℕ, true, length, map, count_by};
ghost use Rattle.cell_model.specs.Cells.{relink, pointer_in, self_pointers, switched, flipped};
ghost use Rattle.cell_page.specs.Format.{IsSlotCount, IsCell};
ghost use Rattle.cell_page.specs.Stored.{cell_of};

use cell_page::Cell;

/// How many slots name the id.
fn names(slots: &[u32], id: u32) -> u32
    requires { length slots.now ≤ 14 }
    ensures { result ≡ count_by (λ target. target == id) slots.now }
{
    slots.iter().filter(|target| **target == id).count() as u32
}

/// Changes the bit of a slot's pointer where it leads to the object itself.
fn switch_own<const SLOTS: usize>(cell: &mut Cell<SLOTS>, slot: u8)
    requires size { IsSlotCount SLOTS }
    requires within { slot < SLOTS }
    requires live { cell.old.live ≡ true }
    requires above { 0 < cell.old.id }
    requires rules { IsCell cell.old.id cell.old }
    ensures model { cell_of cell.new ≡ relink slot (switched cell.old.id (pointer_in (cell_of cell.old) slot)) (cell_of cell.old) }
    ensures id { cell.new.id ≡ cell.old.id }
    ensures rules { IsCell cell.old.id cell.new }
{
    let id = cell.id;
    if cell.slots[slot as usize] == id {
        let bit = cell.pointer_bit(slot);
        cell.set_pointer(slot, id, !bit);
    }
}

/// Changes the bits of the pointers to the object itself.
fn switch_all_own<const SLOTS: usize>(cell: &mut Cell<SLOTS>)
    requires size { IsSlotCount SLOTS }
    requires count { length cell.old.slots ≡ SLOTS }
    requires live { cell.old.live ≡ true }
    requires above { 0 < cell.old.id }
    requires rules { IsCell cell.old.id cell.old }
    ensures model { cell_of cell.new ≡ record (cell_of cell.old) { pointers = map (switched cell.old.id) (cell_of cell.old).pointers } }
    ensures id { cell.new.id ≡ cell.old.id }
    ensures rules { IsCell cell.old.id cell.new }
{
    for slot in 0..SLOTS {
        switch_own(cell, slot as u8);
    }
}

/// Flips the target bit. Pointers of other objects exchange their strengths, and those of its own keep theirs.
pub fn flip_cell<const SLOTS: usize>(cell: &mut Cell<SLOTS>)
    requires size { IsSlotCount SLOTS }
    requires live { cell.old.live ≡ true }
    requires above { 0 < cell.old.id }
    requires rules { IsCell cell.old.id cell.old }
    requires own { self_pointers cell.old.id (cell_of cell.old) ≤ cell.old.weak }
    ensures model { cell_of cell.new ≡ flipped cell.old.id (cell_of cell.old) }
    ensures id { cell.new.id ≡ cell.old.id }
    ensures rules { IsCell cell.old.id cell.new }
{
    let own = names(&cell.slots, cell.id);
    switch_all_own(cell);
    cell.bit = !cell.bit;
    cell.strong = cell.weak - own;
    cell.weak = own;
}
