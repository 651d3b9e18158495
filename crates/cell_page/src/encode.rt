//! Pages as bytes.

ghost use Rattle.std.specs.Prelude.{◌≡◌, ◌+◌, ◌*◌, ◌≤◌, ◌++◌, ℕ, length, take};
ghost use Rattle.std.specs.Int.{w32, to_be_bytes};
ghost use Rattle.std.specs.List.{flat_map};
ghost use Rattle.cell_page.specs.Format.{IsSlotCount, IsPage, AreTyped, fields_size, cell_size, page_size, field_bytes, cell_bytes, page_bytes};

use crate::bytes::{put_u8, put_u16, put_u32, put_u64, put_zeros};
use crate::cell::Cell;
use crate::layout::{CELLS_OF_PAGE, SLOTS_AT, cell_len};
use crate::page::Page;

/// Writes the slots of a cell, at their offset.
fn encode_slots(into: &mut [u8], slots: &[u32])
    requires count { length slots.now ≤ 14 }
    requires room { 24 + 4 * length slots.now ≤ length into.old }
    ensures { take (24 + 4 * length slots.now) into.new ≡ take 24 into.old ++ flat_map (to_be_bytes w32) slots.now }
{
    for (slot, target) in slots.iter().enumerate() {
        put_u32(into, SLOTS_AT + 4 * slot, *target);
    }
}

/// Writes the fields of a cell.
fn encode_fields<const SLOTS: usize>(into: &mut [u8], cell: &Cell<SLOTS>)
    requires count { IsSlotCount SLOTS }
    requires room { fields_size SLOTS ≤ length into.old }
    ensures { take (fields_size SLOTS) into.new ≡ field_bytes cell.now }
{
    put_u8(into, 0, cell.live as u8);
    put_u8(into, 1, cell.bit as u8);
    put_u16(into, 2, cell.bits);
    put_u32(into, 4, cell.id);
    put_u32(into, 8, cell.strong);
    put_u32(into, 12, cell.weak);
    put_u64(into, 16, cell.payload);
    encode_slots(into, &cell.slots);
}

/// Writes a cell: its fields, and zero bytes after them.
fn encode_cell<const SLOTS: usize>(into: &mut [u8], cell: &Cell<SLOTS>)
    requires count { IsSlotCount SLOTS }
    requires len { length into.old ≡ cell_size SLOTS }
    ensures { into.new ≡ cell_bytes cell.now }
{
    encode_fields(into, cell);
    put_zeros(into, SLOTS_AT + 4 * SLOTS);
}

impl<const SLOTS: usize> Page<SLOTS> {
    /// How many bytes a page takes: 512 at six slots, 1,024 at fourteen.
    pub fn encoded_len() -> usize
        requires { IsSlotCount SLOTS }
        ensures { result ≡ page_size SLOTS }
    {
        CELLS_OF_PAGE * cell_len::<SLOTS>()
    }

    /// Writes the one spelling of the page, over bytes of just its length.
    pub fn encode(&self, into: &mut [u8])
        requires count { IsSlotCount SLOTS }
        requires len { length into.old ≡ page_size SLOTS }
        requires spelled { (page : ℕ) × IsPage page self.now }
        ensures spelling { into.new ≡ page_bytes self.now }
        ensures typed { AreTyped self.now }
    {
        let len = cell_len::<SLOTS>();
        for (place, cell) in self.cells.iter().enumerate() {
            let start = place * len;
            encode_cell(&mut into[start..start + len], cell);
        }
    }
}
