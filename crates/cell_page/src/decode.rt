//! Pages from bytes.

ghost use Rattle.std.specs.Prelude.{◌≡◌, ◌==◌, ◌+◌, ◌*◌, ◌≤◌, ◌<◌, ℕ, List, Some, None, not, false, drop, length, IfSome, IfOk, OnOk, IfErr, OnErr};
ghost use Rattle.std.specs.List.{list_any};
ghost use Rattle.cell_page.specs.declared.cell.Cell.{Cell};
ghost use Rattle.cell_page.specs.Format.{IsSlotCount, Spells, AreTyped, fields_size, cell_size, page_size, cell_bytes};
ghost use Rattle.cell_page.specs.Fields.{numbers_in, cell_in, sets_null_bit, bits_break, slot_fields, later_fields, first_broken, broken_in_cell, FailsAt};

use crate::bytes::{u16_at, u32_at, u64_at};
use crate::cell::Cell;
use crate::layout::{CELLS_OF_PAGE, SLOTS_AT, cell_len, first_id};
use crate::page::Page;

/// The bytes of a page break the page format.
#[derive(Clone, Copy, PartialEq, Eq, Debug)]
pub struct BadCell {
    /// The offset in the page of the first byte of the first field that breaks a rule. Where there are fewer bytes than
    /// a page has, their number.
    pub at: u32,
}

/// Reads the slots of a cell, which follow its other fields.
fn read_slots<const SLOTS: usize>(bytes: &[u8]) -> [u32; SLOTS]
    requires count { IsSlotCount SLOTS }
    requires room { fields_size SLOTS ≤ length bytes.now }
    ensures { result ≡ numbers_in SLOTS (drop 24 bytes.now) }
{
    let mut slots = [0; SLOTS];
    for slot in 0..SLOTS {
        slots[slot] = u32_at(bytes, SLOTS_AT + 4 * slot);
    }
    slots
}

/// Reads the fields of a cell as they stand, whether or not they obey the rules.
#[tactic(auto, unfolding(crate::specs::Fields::cell_in))]
fn read_fields<const SLOTS: usize>(bytes: &[u8]) -> Cell<SLOTS>
    requires count { IsSlotCount SLOTS }
    requires room { fields_size SLOTS ≤ length bytes.now }
    ensures { result ≡ cell_in SLOTS bytes.now }
{
    Cell {
        live: bytes[0] == 1,
        bit: bytes[1] == 1,
        bits: u16_at(bytes, 2),
        id: u32_at(bytes, 4),
        strong: u32_at(bytes, 8),
        weak: u32_at(bytes, 12),
        payload: u64_at(bytes, 16),
        slots: read_slots(bytes),
    }
}

/// Whether a pointer bit is set for a null slot.
fn sets_null_bit<const SLOTS: usize>(cell: &Cell<SLOTS>) -> bool
    requires { IsSlotCount SLOTS }
    ensures { result ≡ sets_null_bit cell.now.bits 0 cell.now.slots }
{
    for (slot, target) in cell.slots.iter().enumerate() {
        if *target == 0 && cell.pointer_bit(slot as u8) {
            return true;
        }
    }
    false
}

/// Whether the pointer bits obey the rules.
#[tactic(auto, unfolding(crate::specs::Fields::bits_break))]
fn bits_obey<const SLOTS: usize>(cell: &Cell<SLOTS>) -> bool
    requires { IsSlotCount SLOTS }
    ensures { result ≡ not (bits_break cell.now) }
{
    if cell.live {
        cell.bits >> SLOTS == 0 && !sets_null_bit(cell)
    } else {
        cell.bits == 0
    }
}

/// The offset in a free cell of the first slot that isn't null.
fn first_pointer(slots: &[u32]) -> Option<u32>
    requires { length slots.now ≤ 14 }
    ensures first { result ≡ first_broken (slot_fields false 24 slots.now) }
    ensures within { IfSome result (λ at. at < 24 + 4 * length slots.now) }
{
    for (slot, target) in slots.iter().enumerate() {
        if *target != 0 {
            return Some(SLOTS_AT as u32 + 4 * slot as u32);
        }
    }
    None
}

/// The offset in a cell of the first field, after its state and target bit, that breaks the rules for the cell of this
/// id.
fn broken_field<const SLOTS: usize>(cell: &Cell<SLOTS>, id: u32) -> Option<u32>
    requires { IsSlotCount SLOTS }
    ensures first { result ≡ first_broken (later_fields id cell.now) }
    ensures within { IfSome result (λ at. at < fields_size SLOTS) }
{
    if !bits_obey(cell) {
        return Some(2);
    }
    if cell.id != id {
        return Some(4);
    }
    if cell.live {
        return None;
    }
    if cell.strong != 0 {
        return Some(8);
    }
    if cell.weak != 0 {
        return Some(12);
    }
    if cell.payload != 0 {
        return Some(16);
    }
    first_pointer(&cell.slots)
}

/// Whether a byte isn't 0.
fn has_nonzero(bytes: &[u8]) -> bool
    ensures { result ≡ list_any (λ byte. not (byte == 0)) bytes.now }
{
    let mut bits = 0;
    for byte in bytes {
        bits |= *byte;
    }
    bits != 0
}

/// The cell of this id, or the offset of the first field that breaks the rules.
#[tactic(auto, unfolding(crate::specs::Fields::broken_in_cell))]
fn decode_cell<const SLOTS: usize>(bytes: &[u8], id: u32) -> Result<Cell<SLOTS>, u32>
    requires count { IsSlotCount SLOTS }
    requires len { length bytes.now ≡ cell_size SLOTS }
    ensures ok { IfOk result (λ cell. cell ≡ cell_in SLOTS bytes.now) }
    ensures obeys { OnOk result (broken_in_cell SLOTS id bytes.now ≡ None) }
    ensures breaks { IfErr result (λ at. broken_in_cell SLOTS id bytes.now ≡ Some at) }
    ensures within { IfErr result (λ at. at ≤ fields_size SLOTS) }
{
    let state = bytes[0];
    if state > 1 {
        return Err(0);
    }
    if bytes[1] > state {
        return Err(1);
    }
    let cell = read_fields(bytes);
    if let Some(at) = broken_field(&cell, id) {
        return Err(at);
    }
    let fields_len = SLOTS_AT + 4 * SLOTS;
    if has_nonzero(&bytes[fields_len..]) {
        return Err(fields_len as u32);
    }
    Ok(cell)
}

impl<const SLOTS: usize> Page<SLOTS> {
    /// The page of this number, from 0, that the bytes spell. There are no more bytes than a page has.
    pub fn decode(page: u16, bytes: &[u8]) -> Result<Page<SLOTS>, BadCell>
        requires count { IsSlotCount SLOTS }
        requires fits { length bytes.now ≤ page_size SLOTS }

        // What is decoded is spelled so.
        ensures ok { IfOk result (λ cells. Spells page cells bytes.now) }
        ensures typed { IfOk result AreTyped }

        // Where it fails the bytes spell no page of this number.
        ensures err { OnErr result ((cells : List (Cell SLOTS)) → AreTyped cells → Spells page cells bytes.now → ⊥) }
        ensures place { IfErr result (λ e. FailsAt SLOTS page bytes.now e.at) }
    {
        if bytes.len() < Page::<SLOTS>::encoded_len() {
            return Err(BadCell {
                at: bytes.len() as u32,
            });
        }
        let len = cell_len::<SLOTS>();
        let first = first_id(page);
        let mut cells = [Cell::free(0); CELLS_OF_PAGE];
        for place in 0..CELLS_OF_PAGE {
            let start = place * len;
            match decode_cell(&bytes[start..start + len], first + place as u32) {
                Ok(cell) => cells[place] = cell,
                Err(at) => {
                    return Err(BadCell {
                        at: start as u32 + at,
                    })
                }
            }
        }
        Ok(Page { cells })
    }
}
