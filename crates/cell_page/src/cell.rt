//! The cell, which holds an object of the store or is free.

ghost use Rattle.std.specs.Prelude.{◌≡◌, ◌≢◌, ◌+◌, ◌/◌, ◌<◌, ◌^◌, ◌==◌, ℕ, true, false, not, slice_set};
ghost use Rattle.std.specs.Int.{bit_at};
ghost use Rattle.cell_model.specs.Cells.{blank_cell, same, relink, pointer_in, gains, loses, counted};
ghost use Rattle.cell_page.specs.Format.{IsSlotCount, IsCell, IsTyped, free_cell, fresh_cell};
ghost use Rattle.cell_page.specs.Stored.{cell_of};

use crate::layout::ROOT;

/// A cell with room for one object. A live cell is a stored object.
#[derive(Clone, Copy, PartialEq, Eq, Debug)]
pub struct Cell<const SLOTS: usize> {
    /// Whether the cell holds an object.
    pub live: bool,
    /// The target bit: a pointer to this object is strong where its own bit is the same.
    pub bit: bool,
    /// The pointer bits: the bit of value 2^i belongs to slot i, and is 0 where the slot is null.
    pub bits: u16,
    /// The object's id, which is that of the cell's place in the store.
    pub id: u32,
    /// How many strong pointers lead to the object.
    pub strong: u32,
    /// How many weak pointers lead to the object.
    pub weak: u32,
    /// The object's payload.
    pub payload: u64,
    /// The object's slots, each 0 for null or the id of the object that it names.
    pub slots: [u32; SLOTS],
}

/// What a collector round copies of a cell.
#[derive(Clone, Copy, PartialEq, Eq, Debug)]
pub struct Seen<const SLOTS: usize> {
    /// The object's slots.
    pub slots: [u32; SLOTS],
    /// How many strong pointers lead to the object.
    pub strong: u32,
    /// How many weak pointers lead to the object.
    pub weak: u32,
}

/// What an object has left after a pointer to it that is counted no more.
#[derive(Clone, Copy)]
pub struct Lost {
    /// Whether that pointer was strong.
    pub strong: bool,
    /// Whether no strong pointer leads to the object now.
    pub none_left: bool,
}

impl<const SLOTS: usize> Cell<SLOTS> {
    /// A free cell of this id.
    pub fn free(id: u32) -> Cell<SLOTS>
        requires { IsSlotCount SLOTS }
        ensures exact { result ≡ free_cell SLOTS id }
        ensures model { cell_of result ≡ blank_cell false SLOTS }
        ensures rules { IsCell id result }
        ensures typed { IsTyped result }
    {
        Cell {
            live: false,
            bit: false,
            bits: 0,
            id,
            strong: 0,
            weak: 0,
            payload: 0,
            slots: [0; SLOTS],
        }
    }

    /// The cell of a new object: live, with null slots, payload 0 and no pointer to it.
    pub fn new_object(id: u32) -> Cell<SLOTS>
        requires { IsSlotCount SLOTS }
        ensures exact { result ≡ record (free_cell SLOTS id) { live = true } }
        ensures model { cell_of result ≡ blank_cell true SLOTS }
        ensures rules { IsCell id result }
        ensures typed { IsTyped result }
    {
        Cell {
            live: true,
            ..Cell::free(id)
        }
    }

    /// The cell of this id in a new store: the root, with the one strong pointer of its own, or a free cell.
    pub(crate) fn fresh(id: u32) -> Cell<SLOTS>
        requires { IsSlotCount SLOTS }
        ensures exact { result ≡ fresh_cell SLOTS id }
        ensures rules { IsCell id result }
        ensures typed { IsTyped result }
    {
        if id == ROOT {
            return Cell {
                strong: 1,
                ..Cell::new_object(id)
            };
        }
        Cell::free(id)
    }

    /// What a collector round copies of this cell.
    pub fn seen(&self) -> Seen<SLOTS>
        ensures { result ≡ record { slots = self.now.slots; strong = self.now.strong; weak = self.now.weak } }
    {
        Seen {
            slots: self.slots,
            strong: self.strong,
            weak: self.weak,
        }
    }

    /// The pointer bit of a slot.
    pub fn pointer_bit(&self, slot: u8) -> bool
        requires count { IsSlotCount SLOTS }
        requires within { slot < SLOTS }
        ensures value { result ≡ (bit_at self.now.bits slot == 1) }
        ensures model { result ≡ (pointer_in (cell_of self.now) slot).bit }
    {
        self.bits >> slot & 1 == 1
    }

    /// Lays a pointer in a slot: the id that it names, or 0 for null, and its pointer bit.
    pub fn set_pointer(&mut self, slot: u8, target: u32, bit: bool)
        requires count { IsSlotCount SLOTS }
        requires within { slot < SLOTS }
        ensures model { cell_of self.new ≡ relink slot (record { target = target; bit = bit }) (cell_of self.old) }
        ensures others { self.new ≡ record self.old { bits = self.new.bits; slots = slice_set self.old.slots slot target } }

        // The bits of no slot stay.
        ensures rest { self.new.bits / 2 ^ SLOTS ≡ self.old.bits / 2 ^ SLOTS }
        ensures typed { IsTyped self.old → IsTyped self.new }

        // An object goes on to obey the rules, where null has the bit 0.
        ensures rules { (id : ℕ) → IsCell id self.old → self.old.live ≡ true → (target ≡ 0 → bit ≡ false) → IsCell id self.new }
    {
        self.slots[slot as usize] = target;
        self.bits = with_bit(self.bits, slot, bit);
    }

    /// Whether a pointer with this bit to the object is strong.
    fn is_strong(&self, bit: bool) -> bool
        ensures { result ≡ same self.now.bit bit }
    {
        self.bit == bit
    }

    /// Counts one pointer with this bit more. Tells whether no strong one leads to the object now.
    pub(crate) fn gain(&mut self, bit: bool) -> bool
        requires room { counted bit (cell_of self.old) + 1 < 2 ^ 32 }
        ensures zero { result ≡ ((cell_of self.new).strong == 0) }
        ensures model { cell_of self.new ≡ gains bit (cell_of self.old) }
        ensures others { self.new ≡ record self.old { strong = self.new.strong; weak = self.new.weak } }
        ensures typed { IsTyped self.old → IsTyped self.new }
        ensures rules { (id : ℕ) → IsCell id self.old → self.old.live ≡ true → IsCell id self.new }
    {
        if self.is_strong(bit) {
            self.strong += 1;
        } else {
            self.weak += 1;
        }
        self.strong == 0
    }

    /// Counts one pointer with this bit less.
    pub(crate) fn lose(&mut self, bit: bool) -> Lost
        requires some { 0 < counted bit (cell_of self.old) }
        ensures strong { result.strong ≡ same self.old.bit bit }
        ensures zero { result.none_left ≡ ((cell_of self.new).strong == 0) }
        ensures model { cell_of self.new ≡ loses bit (cell_of self.old) }
        ensures others { self.new ≡ record self.old { strong = self.new.strong; weak = self.new.weak } }
        ensures typed { IsTyped self.old → IsTyped self.new }
        ensures rules { (id : ℕ) → IsCell id self.old → self.old.live ≡ true → IsCell id self.new }
    {
        let strong = self.is_strong(bit);
        if strong {
            self.strong -= 1;
        } else {
            self.weak -= 1;
        }
        Lost {
            strong,
            none_left: self.strong == 0,
        }
    }

    /// Counts one pointer with the other bit in place of one with this bit. Tells whether no strong one leads to the object
    /// now.
    pub(crate) fn turn(&mut self, bit: bool) -> bool
        requires some { 0 < counted bit (cell_of self.old) }
        requires room { counted (not bit) (cell_of self.old) + 1 < 2 ^ 32 }
        ensures zero { result ≡ ((cell_of self.new).strong == 0) }
        ensures model { cell_of self.new ≡ gains (not bit) (loses bit (cell_of self.old)) }
        ensures others { self.new ≡ record self.old { strong = self.new.strong; weak = self.new.weak } }
        ensures typed { IsTyped self.old → IsTyped self.new }
        ensures rules { (id : ℕ) → IsCell id self.old → self.old.live ≡ true → IsCell id self.new }
    {
        self.lose(bit);
        self.gain(!bit)
    }
}

/// The bits, with this one at a place.
fn with_bit(bits: u16, place: u8, bit: bool) -> u16
    requires { place < 16 }
    ensures here { (bit_at result place == 1) ≡ bit }
    ensures others { (k : ℕ) → k < 16 → k ≢ place → bit_at result k ≡ bit_at bits k }
    ensures above { (width : ℕ) → place < width → result / 2 ^ width ≡ bits / 2 ^ width }
    ensures bounded { (width : ℕ) → place < width → bits < 2 ^ width → result < 2 ^ width }
{
    let mask = 1 << place;
    if bit { bits | mask } else { bits & !mask }
}
