//! The page, which holds eight cells.

ghost use Rattle.std.specs.Prelude.{◌≡◌, ◌+◌, ◌-◌, ◌*◌, ◌%◌, ◌^◌, ◌<◌, ◌≤◌, ◌==◌, ℕ, true, false, not, length, map, slice_index_or, slice_set};
ghost use Rattle.cell_model.specs.Cells.{same, relink, gains, loses, counted};
ghost use Rattle.cell_page.specs.Format.{IsSlotCount, IsCell, IsPage, AreTyped, fresh_page, place_of, HasId};
ghost use Rattle.cell_page.specs.Stored.{cell_of, fresh_cells, stored_at, edit_stored, without_counts, without_pointers};

use crate::cell::{Cell, Lost};
use crate::layout::{CELLS_OF_PAGE, first_id};
use std::marker::Model;

/// Eight cells, of ids one after another.
#[derive(Clone, Copy, PartialEq, Eq, Debug)]
pub struct Page<const SLOTS: usize> {
    pub(crate) cells: [Cell<SLOTS>; CELLS_OF_PAGE],
}

/// Contracts see a page as the list of its cells. There are eight, and each number is in the range of its type.
impl<const SLOTS: usize> Model for Page<SLOTS> {
    ghost use Rattle.std.specs.Prelude.{◌≡◌, List, length};
    ghost use Rattle.cell_page.specs.declared.cell.Cell.{Cell};
    ghost use Rattle.cell_page.specs.Format.{AreTyped};

    ghost Value = { List (Cell SLOTS) };

    ghost view = { λ p. p.cells };

    ghost invariant = { λ p. (length p.cells ≡ 8) × AreTyped p.cells };

    ghost inverse = { λ cells. record { cells = cells } };
}

impl<const SLOTS: usize> Page<SLOTS> {
    /// The page of this number, from 0, in a new store: the root is live, with the one strong pointer of its own, and
    /// all other cells are free.
    pub fn fresh(page: u16) -> Page<SLOTS>
        requires { IsSlotCount SLOTS }
        ensures exact { result ≡ fresh_page SLOTS page }
        ensures model { map cell_of result ≡ fresh_cells SLOTS page }
        ensures rules { IsPage page result }
        ensures typed { AreTyped result }
    {
        let first = first_id(page);
        Page {
            cells: [
                Cell::fresh(first),
                Cell::fresh(first + 1),
                Cell::fresh(first + 2),
                Cell::fresh(first + 3),
                Cell::fresh(first + 4),
                Cell::fresh(first + 5),
                Cell::fresh(first + 6),
                Cell::fresh(first + 7),
            ],
        }
    }

    /// The cell of an id of this page.
    pub fn cell(&self, id: u32) -> &Cell<SLOTS>
        requires { HasId self.now id }
        ensures eight { length self.now ≡ 8 }
        ensures typed { AreTyped self.now }
        ensures placed { result.now ≡ slice_index_or self.now (place_of id) result.now }
        ensures id { result.now.id ≡ id }

        // In a page that obeys the rules the cell does.
        ensures rules { (page : ℕ) → IsPage page self.now → IsCell id result.now }
    {
        &self.cells[(id - 1) as usize % CELLS_OF_PAGE]
    }

    /// The cells, in order.
    pub fn cells(&self) -> &[Cell<SLOTS>]
        ensures { result.now ≡ self.now }
    {
        &self.cells
    }

    /// Puts a cell in the place of the one with the same id.
    pub fn put_cell(&mut self, cell: Cell<SLOTS>)
        requires { HasId self.old cell.id }
        ensures placed { self.new ≡ slice_set self.old (place_of cell.entry.id) cell.entry }

        // A page goes on to obey the rules, where the cell does.
        ensures rules { (page : ℕ) → IsPage page self.old → IsCell cell.entry.id cell.entry → IsPage page self.new }
    {
        self.cells[(cell.id - 1) as usize % CELLS_OF_PAGE] = cell;
    }

    /// Lays a pointer in a slot of the cell of this id: the id that it names, or 0 for null, and its pointer bit.
    pub fn set_pointer(&mut self, id: u32, slot: u8, target: u32, bit: bool)
        requires count { IsSlotCount SLOTS }
        requires id { HasId self.old id }
        requires within { slot < SLOTS }
        ensures model { map cell_of self.new ≡ edit_stored (map cell_of self.old) id (relink slot (record { target = target; bit = bit })) }

        // Each cell keeps all but its pointers, its id too.
        ensures others { map without_pointers self.new ≡ map without_pointers self.old }

        // A page goes on to obey the rules, where the cell is an object's and null has the bit 0.
        ensures rules { (page : ℕ) → IsPage page self.old → (stored_at (map cell_of self.old) id).live ≡ true → (target ≡ 0 → bit ≡ false) → IsPage page self.new }
    {
        self.cells[(id - 1) as usize % CELLS_OF_PAGE].set_pointer(slot, target, bit);
    }

    /// The cell of this id counts one pointer with this bit more. Tells whether no strong one leads to its object now.
    pub fn gain(&mut self, id: u32, bit: bool) -> bool
        requires id { HasId self.old id }
        requires room { counted bit (stored_at (map cell_of self.old) id) + 1 < 2 ^ 32 }
        ensures zero { result ≡ ((stored_at (map cell_of self.new) id).strong == 0) }
        ensures model { map cell_of self.new ≡ edit_stored (map cell_of self.old) id (gains bit) }

        // Each cell keeps all but its counts, its id too.
        ensures others { map without_counts self.new ≡ map without_counts self.old }

        // A page goes on to obey the rules, where the cell is an object's.
        ensures rules { (page : ℕ) → IsPage page self.old → (stored_at (map cell_of self.old) id).live ≡ true → IsPage page self.new }
    {
        self.cells[(id - 1) as usize % CELLS_OF_PAGE].gain(bit)
    }

    /// The cell of this id counts one pointer with this bit less.
    pub fn lose(&mut self, id: u32, bit: bool) -> Lost
        requires id { HasId self.old id }
        requires some { 0 < counted bit (stored_at (map cell_of self.old) id) }
        ensures strong { result.strong ≡ same (stored_at (map cell_of self.old) id).bit bit }
        ensures zero { result.none_left ≡ ((stored_at (map cell_of self.new) id).strong == 0) }
        ensures model { map cell_of self.new ≡ edit_stored (map cell_of self.old) id (loses bit) }

        // Each cell keeps all but its counts, its id too.
        ensures others { map without_counts self.new ≡ map without_counts self.old }

        // A page goes on to obey the rules, where the cell is an object's.
        ensures rules { (page : ℕ) → IsPage page self.old → (stored_at (map cell_of self.old) id).live ≡ true → IsPage page self.new }
    {
        self.cells[(id - 1) as usize % CELLS_OF_PAGE].lose(bit)
    }

    /// The cell of this id counts one pointer with the other bit in place of one with this bit. Tells whether no strong one
    /// leads to its object now.
    pub fn turn(&mut self, id: u32, bit: bool) -> bool
        requires id { HasId self.old id }
        requires some { 0 < counted bit (stored_at (map cell_of self.old) id) }
        requires room { counted (not bit) (stored_at (map cell_of self.old) id) + 1 < 2 ^ 32 }
        ensures zero { result ≡ ((stored_at (map cell_of self.new) id).strong == 0) }
        ensures model { map cell_of self.new ≡ edit_stored (map cell_of self.old) id (λ c. gains (not bit) (loses bit c)) }

        // Each cell keeps all but its counts, its id too.
        ensures others { map without_counts self.new ≡ map without_counts self.old }

        // A page goes on to obey the rules, where the cell is an object's.
        ensures rules { (page : ℕ) → IsPage page self.old → (stored_at (map cell_of self.old) id).live ≡ true → IsPage page self.new }
    {
        self.cells[(id - 1) as usize % CELLS_OF_PAGE].turn(bit)
    }
}
