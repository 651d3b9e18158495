//! The marks of pages.
ghost use Rattle.std.specs.Prelude.{◌≡◌, ℕ, List, ◌*◌, ◌<◌, ◌≤◌, false, length, replicate, slice_index_or, if◌then◌else◌, IfOk};
ghost use Rattle.cell_page.specs.declared.cell.Cell.{Cell};
ghost use Rattle.log_record.specs.declared.record.Record.TheVariants.{OfCells, Image};
ghost use Rattle.log_replay.specs.Replays.{IsWithin};
ghost use Rattle.restart_laws.specs.Local.{is_in_page};
ghost use Rattle.page_marks.specs.declared.marks.PageMark.{PageMark};
ghost use Rattle.page_marks.specs.Marks.{unmarked, IsTouched, AreMarkedBy};

use cell_page::page_of;
use log_record::{CellRecord, PAYLOAD_PLACE};
use std::alloc::{AllocError, Global};
use std::marker::Model;

/// What the log tells of a page.
#[derive(Clone, Copy, PartialEq, Eq, Debug)]
pub struct PageMark {
    /// A record concerns the page: it changes a cell of it, or is an image of it.
    pub changed: bool,
    /// The last such record is an image of it.
    pub current: bool,
}

/// The marks of the pages of a store, one for each from 0 on.
#[derive(Debug, Drop)]
pub struct PageMarks {
    marks: Vec<PageMark>,
}

impl Model for PageMarks {
    ghost use Rattle.std.specs.Prelude.{◌≤◌, List, length};
    ghost use Rattle.page_marks.specs.declared.marks.PageMark.{PageMark};

    ghost Value = { List PageMark };

    ghost view = { λ s. s.marks.items };

    ghost invariant = { λ s. length s.marks.items ≤ 1024 };
}

impl PageMarks {
    /// Those of a log without records, for so many pages.
    pub fn new(alloc: Global, pages: u16) -> Result<PageMarks, AllocError>
        requires { pages ≤ 1024 }
        ensures none { IfOk result (λ marks. marks ≡ replicate pages unmarked) }
    {
        let unmarked = PageMark {
            changed: false,
            current: false,
        };
        let marks = vec![in alloc; unmarked; pages as usize]?;
        Ok(PageMarks { marks })
    }

    /// How many pages have a mark.
    pub fn len(&self) -> usize
        ensures len { result ≡ length self.now }
        ensures few { result ≤ 1024 }
    {
        self.marks.len()
    }

    /// The mark of the page.
    pub fn get(&self, page: u16) -> PageMark
        requires { page < length self.now }
        ensures mark { result ≡ slice_index_or self.now page result }
    {
        self.marks[page as usize]
    }

    /// The cell of this id changed; 0 is that of none.
    fn touch(&mut self, id: u32)
        requires { id ≤ 8 * length self.old }
        ensures { IsTouched id self.old self.new }
    {
        if id != 0 {
            self.marks[page_of(id) as usize] = PageMark {
                changed: true,
                current: false,
            };
        }
    }

    /// The cell of a target changed, which an undo has as a value.
    fn touch_target(&mut self, target: u64)
        requires { target ≤ 8 * length self.old }
        ensures { IsTouched target self.old self.new }
    {
        let few = self.marks.len() <= 1024;
        prove!(few);
        self.touch(target as u32);
    }

    /// After a record of single cells. It takes no memory.
    #[inline(always)]
    pub fn take(&mut self, rec: &CellRecord)
        requires { IsWithin (8 * length self.old) rec.now }
        ensures { (slots : ℕ) → AreMarkedBy {slots = slots} (OfCells rec.now) self.old self.new }
    {
        match *rec {
            CellRecord::Begin { .. } | CellRecord::Commit { .. } | CellRecord::AbortEnd { .. } => {}
            CellRecord::Make { id, .. }
            | CellRecord::Pay { id, .. }
            | CellRecord::Flip { id }
            | CellRecord::Free { id } => self.touch(id),
            CellRecord::Store {
                id,
                old_target,
                new_target,
                ..
            } => {
                self.touch(id);
                self.touch(old_target);
                self.touch(new_target);
            }
            CellRecord::Undo {
                id,
                place,
                from,
                to,
                ..
            } => {
                self.touch(id);
                if place != PAYLOAD_PLACE {
                    self.touch_target(from);
                    self.touch_target(to);
                }
            }
            CellRecord::Weaken { id, target, .. }
            | CellRecord::Strengthen { id, target, .. }
            | CellRecord::CutDead { id, target, .. } => {
                self.touch(id);
                self.touch(target);
            }
        }
    }

    /// After an image of the page. It takes no memory.
    pub fn image(&mut self, page: u16)
        requires { page < length self.old }
        ensures { (slots : ℕ) (held : List (Cell slots)) → AreMarkedBy (Image page held) self.old self.new }
    {
        self.marks[page as usize] = PageMark {
            changed: true,
            current: true,
        };
    }

    /// After a checkpoint: the log has no records any more. It takes no memory.
    pub fn clear(&mut self)
        ensures { self.new ≡ replicate (length self.old) unmarked }
    {
        self.marks.fill(PageMark {
            changed: false,
            current: false,
        });
    }
}
