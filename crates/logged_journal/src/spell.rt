//! Records into the tail of a log.
ghost use Rattle.std.specs.Prelude.{◌≡◌, ◌+◌, ◌*◌, ◌<◌, ◌≤◌, ◌^◌, length, vec_capacity};
ghost use Rattle.cell_page.specs.Format.{IsSlotCount, IsPage, AreTyped};
ghost use Rattle.log_record.specs.declared.record.Record.TheVariants.{Image};
ghost use Rattle.log_record.specs.Spelling.{cell_record_bytes, record_bytes, HasCellSpelling, IsTypedCellRecord};
ghost use Rattle.gate_log.specs.declared.stage.Stage.TheVariants.{Standing};
ghost use Rattle.gate_log.specs.State.{used, appended};
ghost use Rattle.page_marks.specs.Marks.{AreMarkedBy};
ghost use Rattle.logged_journal.specs.View.{image_bytes};
ghost use Rattle.logged_journal.specs.Records.{last_bytes, last_logged, AreMarkedAfter, IsLastTyped};

use crate::typed::{know_cell_record, know_page};
use cell_page::Page;
use core_store::{Frame, Journal};
use gate_log::GateLog;
use log_record::{CellRecord, LONGEST_CELL_RECORD, Record};
use page_marks::PageMarks;

/// How many bytes the record of a page's image has: its kind, the number of the page, and the page.
pub(crate) fn image_len<const SLOTS: usize>() -> usize
    requires count { IsSlotCount SLOTS }
    ensures { result ≡ image_bytes SLOTS }
{
    Page::<SLOTS>::encoded_len() + 3
}

/// Appends the record to the tail, in room that was taken for it. It takes no memory.
pub(crate) fn append_record<const SLOTS: usize>(log: &mut GateLog, change: &CellRecord)
    requires count { IsSlotCount SLOTS }
    requires spelled { HasCellSpelling SLOTS change.now }
    requires standing { log.old.stage ≡ Standing }
    requires room { length (cell_record_bytes change.now) ≤ log.old.room }
    requires bounded { used log.old + 25 < 2 ^ 32 }
    ensures log { log.new ≡ appended log.old (cell_record_bytes change.now) }
    ensures typed { IsTypedCellRecord change.now }
{
    know_cell_record(*change);
    let mut spelling = [0; LONGEST_CELL_RECORD];
    let length = change.spell(&mut spelling);
    log.append_reserved(&spelling[..length]);
}

/// Appends the record of the last note, if it has one, in room that was taken for it, and marks the pages that it concerns. It
/// takes no memory.
#[inline(always)]
pub(crate) fn append_last<const SLOTS: usize>(
    journal: &Journal<SLOTS>,
    log: &mut GateLog,
    marks: &mut PageMarks,
)
    requires count { IsSlotCount SLOTS }
    requires pages { journal.now.history.ids ≡ 8 * length marks.old }
    requires standing { log.old.stage ≡ Standing }
    requires room { length (last_bytes journal.now.notes) ≤ log.old.room }
    requires bounded { used log.old + 25 < 2 ^ 32 }
    ensures log { log.new ≡ appended log.old (last_bytes journal.now.notes) }
    ensures typed { IsLastTyped journal.now.notes }
    ensures marks { AreMarkedAfter SLOTS (last_logged journal.now.notes) marks.old marks.new }
{
    if let Some(record) = journal.history().last_logged() {
        append_record::<SLOTS>(log, &record);
        marks.take(&record);
    }
}

/// Appends the image of the page to the tail, in room that was taken for it, and marks the page. It takes no memory.
pub(crate) fn append_image<const SLOTS: usize>(
    log: &mut GateLog,
    spelling: &mut Vec<u8>,
    marks: &mut PageMarks,
    page: u16,
    frame: &Frame<SLOTS>,
)
    requires count { IsSlotCount SLOTS }
    requires spelled { IsPage page frame.now.page }
    requires there { page < length marks.old }
    requires standing { log.old.stage ≡ Standing }
    requires room { image_bytes SLOTS ≤ log.old.room }
    requires bounded { used log.old + image_bytes SLOTS < 2 ^ 32 }
    requires spelling { image_bytes SLOTS ≤ vec_capacity spelling.old }
    ensures log { log.new ≡ appended log.old (record_bytes (Image page frame.now.page)) }
    ensures spelling { image_bytes SLOTS ≤ vec_capacity spelling.new }
    ensures marks { AreMarkedBy (Image page frame.now.page) marks.old marks.new }
    ensures typed { AreTyped frame.now.page }
    ensures long { length (record_bytes (Image page frame.now.page)) ≡ image_bytes SLOTS }
{
    know_page(page, &frame.page);
    spelling.clear();
    let image = Record::Image {
        page,
        cells: frame.page,
    };
    let _ = image.write(spelling);
    log.append_reserved(spelling);
    marks.image(page);
}
