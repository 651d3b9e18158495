//! The replay of a log.

ghost use Rattle.std.specs.Prelude.{◌≡◌, ◌≢◌, ◌↔◌, ◌+◌, ◌*◌, ◌<◌, ◌≤◌, ℕ, [], true, Err, length, OnOk, OnErr};
ghost use Rattle.cell_page.specs.Format.{IsSlotCount, IsPage};
ghost use Rattle.cell_model.specs.Cells.{cell_at};
ghost use Rattle.cell_page.specs.Stored.{HoldsPage};
ghost use Rattle.log_record.specs.declared.record.Record.TheVariants.{OfCells};
ghost use Rattle.log_record.specs.Spelling.{HasSpelling, HasCellSpelling};
ghost use Rattle.log_record.specs.Records.{record_of};
ghost use Rattle.restart_laws.specs.Local.{FitsAt};
ghost use Rattle.restart_laws.specs.Unended.{FitsUnended};
ghost use Rattle.log_replay.specs.Inside.{cells_of_pages, AreStorePages};
ghost use Rattle.log_replay.specs.Replays.{IsReplaying, IsWithin, is_skipped, NotesNothing, FitsUnskippedCells, FitsReplay, after_taking};
ghost use Rattle.log_replay.specs.Steps.{FitsCell, IsUnconcerned, changed_in, effect_at, with_cells_after, taken_of_cells, taken_image};
ghost use Rattle.log_replay.specs.declared.refusals.TakeRefusal.TheVariants.{Unfit};

use crate::concerned::concerned;
use crate::pages::Pages;
use crate::refusals::TakeRefusal;
use crate::transactions::Transactions;
use crate::{cell_steps, unended};
use cell_page::{CELLS_OF_PAGE, Page, page_of};
use log_record::{CellRecord, PayloadChange, Record};
use std::alloc::Global;
use std::marker::Model;

/// What the records of a log make of the pages of a store, record by record.
#[derive(Debug, Drop)]
pub struct Replay<const SLOTS: usize> {
    alloc: Global,
    pub(crate) pages: Pages<SLOTS>,
    /// For each page, how many images of it are still to come.
    pub(crate) skip: Vec<u32>,
    pub(crate) unended: Transactions,
}

/// Contracts see the cells, the transactions that haven't ended, and how many images of each page are still to come.
impl<const SLOTS: usize> Model for Replay<SLOTS> {
    ghost use Rattle.log_replay.specs.Replays.{Replaying, IsReplaying};

    ghost Value = { Replaying };

    ghost view = { λ r. record { cells = r.pages; unended = r.unended.entries; skips = r.skip.items } };

    ghost invariant = { λ r. IsReplaying SLOTS (record { cells = r.pages; unended = r.unended.entries; skips = r.skip.items }) };
}

impl<const SLOTS: usize> Replay<SLOTS> {
    /// A replay over the pages of a store, before the first record of its log. Of each page so many images are still to
    /// come.
    pub fn over(alloc: Global, pages: Vec<Page<SLOTS>>, skip: Vec<u32>) -> Replay<SLOTS>
        requires pages { AreStorePages pages.items }
        requires skip { length skip.items ≡ length pages.items }
        ensures { result ≡ record { cells = cells_of_pages pages.entry.items; unended = []; skips = skip.items } }
    {
        Replay {
            alloc,
            pages: Pages::new(pages),
            skip,
            unended: Transactions::new(alloc),
        }
    }

    /// Takes the next record of the log.
    pub fn take(&mut self, rec: &Record<SLOTS>) -> Result<(), TakeRefusal>
        requires { HasSpelling rec.now }
        ensures ok { OnOk result (self.new ≡ after_taking rec.now self.old) }
        ensures err { OnErr result (self.new ≡ self.old) }

        // `Unfit` is the answer exactly where the record doesn't fit.
        ensures unfit { (result ≢ Err Unfit) ↔ FitsReplay self.old rec.now }
    {
        match rec {
            Record::OfCells(r) => self.take_of_cells(r),
            Record::Image { page, cells } => {
                if *page as usize >= self.skip.len() {
                    return Err(TakeRefusal::Unfit);
                }
                self.take_image(*page, cells);
                Ok(())
            }
            Record::Turn { .. } => Ok(()),
        }
    }

    /// Takes the next record of the log, which is one of single cells, as [`Replay::take`] does.
    #[inline(always)]
    pub fn take_of_cells(&mut self, r: &CellRecord) -> Result<(), TakeRefusal>
        requires { HasCellSpelling SLOTS r.now }
        ensures ok { OnOk result (self.new ≡ after_taking {slots = SLOTS} (OfCells r.now) self.old) }
        ensures err { OnErr result (self.new ≡ self.old) }

        // `Unfit` is the answer exactly where the record doesn't fit.
        ensures unfit { (result ≢ Err Unfit) ↔ FitsReplay {slots = SLOTS} self.old (OfCells r.now) }
    {
        match *r {
            CellRecord::Begin { .. } | CellRecord::Commit { .. } | CellRecord::AbortEnd { .. } => {
                self.take_alone(r)
            }
            CellRecord::Pay {
                pass,
                id,
                old_value,
                new_value,
            } => self.take_change(PayloadChange {
                pass,
                id,
                old_value,
                new_value,
            }),
            _ => self.take_in_cells(r),
        }
    }

    /// Takes the next record of the log, which is one of single cells, and may concern some.
    #[inline(always)]
    fn take_in_cells(&mut self, r: &CellRecord) -> Result<(), TakeRefusal>
        requires { HasCellSpelling SLOTS r.now }
        ensures ok { OnOk result (self.new ≡ after_taking {slots = SLOTS} (OfCells r.now) self.old) }
        ensures err { OnErr result (self.new ≡ self.old) }
        ensures unfit { (result ≢ Err Unfit) ↔ FitsReplay {slots = SLOTS} self.old (OfCells r.now) }
    {
        let _few = self.ids();
        if !self.fits(r) {
            return Err(TakeRefusal::Unfit);
        }
        self.take_fitting(r)
    }

    /// Takes a record that concerns no cell. An error changes nothing.
    #[tactic(auto, using(crate::proofs::PlacedLaws::placed_after, crate::proofs::TakenLaws::alone_after))]
    #[inline(always)]
    fn take_alone(&mut self, r: &CellRecord) -> Result<(), TakeRefusal>
        requires spelled { HasCellSpelling SLOTS r.now }
        requires alone { (x : ℕ) → IsUnconcerned SLOTS (record_of r.now) x }
        requires within { IsWithin (8 * length self.old.skips) r.now }
        ensures ok { OnOk result (self.new ≡ taken_of_cells SLOTS (record_of r.now) self.old) }
        ensures err { OnErr result (self.new ≡ self.old) }
        ensures unfit { (result ≢ Err Unfit) ↔ FitsUnended self.old.unended (record_of r.now) }
    {
        unended::take(&mut self.unended, self.alloc, r)
    }

    /// The greatest id.
    pub(crate) fn ids(&self) -> u32
        ensures slots { IsSlotCount SLOTS }
        ensures few { result ≤ 8192 }
        ensures ids { result ≡ 8 * length self.now.skips }
        ensures cells { length self.now.cells ≡ result + 1 }
    {
        CELLS_OF_PAGE as u32 * self.pages.count() as u32
    }

    /// Whether an image of the id's page is still to come.
    pub(crate) fn is_skipped(&self, id: u32) -> bool
        requires above { 0 < id }
        requires within { id < length self.now.cells }
        ensures { result ≡ is_skipped self.now.skips id }
    {
        self.skip[page_of(id) as usize] != 0
    }

    /// Takes a record of single cells, which fits the pages. An error changes nothing.
    #[tactic(auto, using(crate::proofs::PlacedLaws::placed_after))]
    #[inline(always)]
    fn take_fitting(&mut self, r: &CellRecord) -> Result<(), TakeRefusal>
        requires spelled { HasCellSpelling SLOTS r.now }
        requires within { IsWithin (8 * length self.old.skips) r.now }
        requires fits { FitsUnskippedCells self.old.skips self.old.cells (record_of r.now) }
        ensures ok { OnOk result (self.new ≡ taken_of_cells SLOTS (record_of r.now) self.old) }
        ensures err { OnErr result (self.new ≡ self.old) }

        // `Unfit` is the answer exactly where it doesn't fit the transactions.
        ensures unfit { (result ≢ Err Unfit) ↔ FitsUnended self.old.unended (record_of r.now) }
    {
        match unended::take(&mut self.unended, self.alloc, r) {
            Ok(()) => {
                self.change_cells(r);
                Ok(())
            }
            Err(refusal) => Err(refusal),
        }
    }

    /// Takes a record of single cells, which fits, and adds nothing to the transactions. It takes no memory.
    #[tactic(auto, using(crate::proofs::PlacedLaws::placed_after))]
    pub(crate) fn take_leaving(&mut self, r: &CellRecord)
        requires nothing { NotesNothing r.now }
        requires spelled { HasCellSpelling SLOTS r.now }
        requires within { IsWithin (8 * length self.old.skips) r.now }
        requires fits { FitsUnskippedCells self.old.skips self.old.cells (record_of r.now) }
        ensures { self.new ≡ taken_of_cells SLOTS (record_of r.now) self.old }
    {
        unended::leave(&mut self.unended, r);
        self.change_cells(r);
    }

    /// Does a record, which fits, to the cells.
    #[inline(always)]
    fn change_cells(&mut self, r: &CellRecord)
        requires spelled { HasCellSpelling SLOTS r.now }
        requires sized { length self.old.cells ≡ 8 * length self.old.skips + 1 }
        requires within { IsWithin (8 * length self.old.skips) r.now }
        requires fits { FitsUnskippedCells self.old.skips self.old.cells (record_of r.now) }
        ensures { self.new ≡ with_cells_after SLOTS (record_of r.now) self.old }
    {
        let ids = concerned(r);
        self.change_cell(r, ids.own);
        self.change_cell(r, ids.from);
        self.change_cell(r, ids.to);
    }

    /// Does a record, which fits, to the cell of an id, which may be 0 for none.
    #[inline(always)]
    fn change_cell(&mut self, r: &CellRecord, id: u32)
        requires spelled { HasCellSpelling SLOTS r.now }
        requires within { id < length self.old.cells }
        requires fits { FitsCell self.old.skips self.old.cells (record_of r.now) id }
        ensures { self.new ≡ changed_in SLOTS (record_of r.now) id self.old }
    {
        if id == 0 || self.is_skipped(id) {
            return;
        }
        self.change_at(r, id);
    }

    /// Does a record, which fits, to the cell of an id.
    fn change_at(&mut self, r: &CellRecord, id: u32)
        requires spelled { HasCellSpelling SLOTS r.now }
        requires above { 0 < id }
        requires within { id < length self.old.cells }
        requires fits { FitsAt (record_of r.now) id (cell_at self.old.cells id) }
        ensures { self.new ≡ effect_at SLOTS (record_of r.now) id self.old }
    {
        let mut next = *self.pages.get(id);
        if cell_steps::step(r, &mut next) {
            self.pages.put(&next);
        }
    }

    /// Takes an image of a page: the last one that is to come is the page.
    #[tactic(auto, using(crate::proofs::TakenLaws::image_awaited, crate::proofs::TakenLaws::image_put))]
    fn take_image(&mut self, p: u16, page: &Page<SLOTS>)
        requires within { p < length self.old.skips }
        requires rules { IsPage p page.now }
        ensures { self.new ≡ taken_image p page.now self.old }
    {
        let awaited = self.skip[p as usize];
        if awaited > 1 {
            self.skip[p as usize] = awaited - 1;
            return;
        }
        self.pages.put_page(p, page);
        self.skip[p as usize] = 0;
    }

    /// A page as it is so far.
    pub fn page(&self, p: u16) -> &Page<SLOTS>
        requires { p < length self.now.skips }
        ensures page { HoldsPage self.now.cells p result.now }

        // There are eight cells for each page, and what is left to undo is of the store's places.
        ensures whole { IsReplaying SLOTS self.now }
    {
        self.pages.page(p)
    }
}
