//! The pages of a store, as one list of cells.

ghost use Rattle.std.specs.Prelude.{◌≡◌, ◌+◌, ◌*◌, ◌<◌, ◌≤◌, ℕ, true, false, [], cond, length, map, slice_index_or, slice_set};
ghost use Rattle.cell_model.specs.Cells.{blank_cell, cell_at, pays};
ghost use Rattle.restart_laws.specs.Local.{is_in_page, cell_in};
ghost use Rattle.cell_page.specs.Format.{IsSlotCount, IsCell, IsPage};
ghost use Rattle.cell_page.specs.Stored.{cell_of, HoldsPage};
ghost use Rattle.log_replay.specs.Inside.{cells_of_pages, AreStorePages};

use cell_page::{Cell, Page, page_of};
use std::marker::Model;

/// The pages of a store, from 1 to 1,024, each of which obeys the rules for its number.
#[derive(Debug, Drop)]
pub(crate) struct Pages<const SLOTS: usize> {
    pages: Vec<Page<SLOTS>>,
}

/// Contracts see the cells, each at its id; at 0, which is no id, stands a free one.
impl<const SLOTS: usize> Model for Pages<SLOTS> {
    ghost use Rattle.std.specs.Prelude.{List};
    ghost use Rattle.cell_model.specs.Cells.{Cell as StoredCell};
    ghost use Rattle.log_replay.specs.Inside.{cells_of_pages, AreStorePages};

    ghost Value = { List StoredCell };

    ghost view = { λ s. cells_of_pages s.pages.items };

    ghost invariant = { λ s. AreStorePages s.pages.items };
}

/// The cell, which is live, with this payload.
#[inline(always)]
fn with_payload<const SLOTS: usize>(cell: &Cell<SLOTS>, value: u64) -> Cell<SLOTS>
    requires live { cell.now.live ≡ true }
    requires rules { IsCell cell.now.id cell.now }
    ensures model { cell_of result ≡ pays value (cell_of cell.now) }
    ensures same { result.id ≡ cell.now.id }
    ensures rules { IsCell cell.now.id result }
{
    Cell {
        payload: value,
        ..*cell
    }
}

impl<const SLOTS: usize> Pages<SLOTS> {
    pub(crate) fn new(pages: Vec<Page<SLOTS>>) -> Pages<SLOTS>
        requires { AreStorePages pages.items }
        ensures { result ≡ cells_of_pages pages.entry.items }
    {
        Pages { pages }
    }

    /// How many pages there are.
    pub(crate) fn count(&self) -> usize
        ensures count { length self.now ≡ 8 * result + 1 }
        ensures some { 0 < result }
        ensures most { result ≤ 1024 }
        ensures slots { IsSlotCount SLOTS }
    {
        self.pages.len()
    }

    /// At 0, which is no id, stands a free cell.
    pub(crate) fn know_first(&self)
        ensures { cell_at self.now 0 ≡ blank_cell false SLOTS }
    {
        let _count = self.pages.len();
    }

    /// The cell of an id.
    #[inline(always)]
    pub(crate) fn get(&self, id: u32) -> &Cell<SLOTS>
        requires above { 0 < id }
        requires within { id < length self.now }
        ensures model { cell_of result.now ≡ cell_at self.now id }
        ensures id { result.now.id ≡ id }
        ensures rules { IsCell id result.now }
        ensures slotted { length result.now.slots ≡ SLOTS }
    {
        self.pages[page_of(id) as usize].cell(id)
    }

    /// Puts a cell in the place of the one with the same id.
    #[inline(always)]
    pub(crate) fn put(&mut self, cell: &Cell<SLOTS>)
        requires above { 0 < cell.now.id }
        requires within { cell.now.id < length self.old }
        requires rules { IsCell cell.now.id cell.now }
        ensures { self.new ≡ slice_set self.old cell.now.id (cell_of cell.now) }
    {
        self.pages[page_of(cell.id) as usize].put_cell(*cell);
    }

    /// The payload of a live cell becomes this.
    #[inline(always)]
    pub(crate) fn pay(&mut self, id: u32, value: u64)
        requires above { 0 < id }
        requires within { id < length self.old }
        requires live { (cell_at self.old id).live ≡ true }
        ensures { self.new ≡ slice_set self.old id (pays value (cell_at self.old id)) }
    {
        let _count = self.pages.len();
        let paid = with_payload(self.get(id), value);
        self.put(&paid);
    }

    /// The page of this number.
    pub(crate) fn page(&self, p: u16) -> &Page<SLOTS>
        requires { 8 * p + 1 < length self.now }
        ensures { HoldsPage self.now p result.now }
    {
        &self.pages[p as usize]
    }

    /// Puts a page in the place of the one of this number.
    pub(crate) fn put_page(&mut self, p: u16, page: &Page<SLOTS>)
        requires within { 8 * p + 1 < length self.old }
        requires rules { IsPage p page.now }
        ensures length { length self.new ≡ length self.old }
        ensures cells { (x : ℕ) → cell_at self.new x ≡ cond (is_in_page p x) (cell_in p (map cell_of page.now) x) (cell_at self.old x) }
    {
        self.pages[p as usize] = *page;
    }

    /// The pages, in order.
    pub(crate) fn into_pages(self) -> Vec<Page<SLOTS>>
        ensures cells { cells_of_pages result.items ≡ self.entry }
        ensures pages { AreStorePages result.items }
    {
        self.pages
    }
}
