//! Whether a record fits the cells that it concerns.

ghost use Rattle.std.specs.Prelude.{◌≡◌, ◌↔◌, ◌+◌, ◌*◌, ◌<◌, ◌≤◌, true, false, length};
ghost use Rattle.cell_model.specs.Cells.{cell_at};
ghost use Rattle.restart_laws.specs.Local.{FitsAt};
ghost use Rattle.log_record.specs.Spelling.{HasCellSpelling};
ghost use Rattle.log_record.specs.Records.{record_of};
ghost use Rattle.log_replay.specs.Replays.{IsWithin, FitsUnskippedCells};
ghost use Rattle.log_replay.specs.Steps.{FitsCell};

use crate::cell_steps;
use crate::concerned::{concerned, is_within};
use crate::replay::Replay;
use log_record::CellRecord;

impl<const SLOTS: usize> Replay<SLOTS> {
    /// Whether the record fits the cell of an id.
    fn fits_at(&self, r: &CellRecord, id: u32) -> bool
        requires above { 0 < id }
        requires within { id < length self.now.cells }
        requires spelled { HasCellSpelling SLOTS r.now }
        ensures yes { result ≡ true → FitsAt (record_of r.now) id (cell_at self.now.cells id) }
        ensures unless { result ≡ false → FitsAt (record_of r.now) id (cell_at self.now.cells id) → ⊥ }
    {
        let mut next = *self.pages.get(id);
        cell_steps::step(r, &mut next)
    }

    /// Whether the record fits the cell of an id, which may be 0 for none, unless an image of its page is still to come.
    #[inline(always)]
    fn fits_cell(&self, r: &CellRecord, id: u32) -> bool
        requires within { id < length self.now.cells }
        requires spelled { HasCellSpelling SLOTS r.now }
        ensures yes { result ≡ true → FitsCell self.now.skips self.now.cells (record_of r.now) id }
        ensures unless { result ≡ false → FitsCell self.now.skips self.now.cells (record_of r.now) id → ⊥ }
    {
        if id == 0 || self.is_skipped(id) {
            return true;
        }
        self.fits_at(r, id)
    }

    /// Whether the record fits each cell but those of whose pages images are still to come.
    #[inline(always)]
    fn fits_cells(&self, r: &CellRecord) -> bool
        requires sized { length self.now.cells ≡ 8 * length self.now.skips + 1 }
        requires within { IsWithin (8 * length self.now.skips) r.now }
        requires spelled { HasCellSpelling SLOTS r.now }
        ensures yes { result ≡ true → FitsUnskippedCells self.now.skips self.now.cells (record_of r.now) }
        ensures unless { result ≡ false → FitsUnskippedCells self.now.skips self.now.cells (record_of r.now) → ⊥ }
    {
        let _few = self.ids();
        let ids = concerned(r);
        if !self.fits_cell(r, ids.own) {
            return false;
        }
        if !self.fits_cell(r, ids.from) {
            return false;
        }
        self.fits_cell(r, ids.to)
    }

    /// Whether the record fits the pages and their cells.
    #[inline(always)]
    pub(crate) fn fits(&self, r: &CellRecord) -> bool
        requires { HasCellSpelling SLOTS r.now }
        ensures yes { result ≡ true → IsWithin (8 * length self.now.skips) r.now × FitsUnskippedCells self.now.skips self.now.cells (record_of r.now) }
        ensures unless { result ≡ false → IsWithin (8 * length self.now.skips) r.now × FitsUnskippedCells self.now.skips self.now.cells (record_of r.now) → ⊥ }
    {
        if !is_within(r, self.ids()) {
            return false;
        }
        self.fits_cells(r)
    }
}
