//! All that a replay has to undo, and its records as bytes.
ghost use Rattle.std.specs.Prelude.{◌≡◌, ℕ, ◌*◌, true, false, [], length, IfOk, IsErrOf};
ghost use Rattle.cell_model.specs.Consistent.{AreConsistent};
ghost use Rattle.cell_page.specs.Format.{IsSlotCount};
ghost use Rattle.log_replay.specs.Finishes.{AreNoneAwaited};
ghost use Rattle.opened_images.specs.Opened.{RestartsStuckAt};
ghost use Rattle.log_record.specs.declared.record.Record.TheVariants.{OfCells};
ghost use Rattle.log_replay.specs.Replays.{IsWithin};
ghost use Rattle.page_marks.specs.Marks.{AreMarkedBy};
ghost use Rattle.store_opening.specs.declared.undo.UndoRefusal.TheVariants.{Unsound};
ghost use Rattle.store_opening.specs.Undone.{UndoesOne, IsUndone, IsUndoneWithMarks, IsStuck};

use crate::typed::know_record;
use log_record::Record;
use log_replay::{FinishRefusal, Replay};
use page_marks::PageMarks;
use std::alloc::Global;

/// Why an undo isn't done.
#[derive(Clone, Copy, Debug, PartialEq, Eq)]
pub enum UndoRefusal {
    /// A change can't be undone: its object isn't live, or has something else there than the transaction left, or what
    /// stood there before is an object that isn't live.
    Unsound {
        /// The object.
        id: u32,
    },
    /// Out of memory.
    Memory,
}

/// Marks the pages that the record of an undo concerns, which is one of single cells.
fn mark<const SLOTS: usize>(marks: &mut PageMarks, rec: &Record<SLOTS>)
    requires { (r : _) × (rec.now ≡ OfCells r) × IsWithin (8 * length marks.old) r }
    ensures { AreMarkedBy rec.now marks.old marks.new }
{
    if let Record::OfCells(r) = rec {
        marks.take(r);
    }
}

/// Does the next undo, appends its record, and marks the pages that it concerns. Whether there was one.
fn undo_next<const SLOTS: usize>(
    replay: &mut Replay<SLOTS>,
    marks: &mut PageMarks,
    bytes: &mut Vec<u8>,
) -> Result<bool, UndoRefusal>
    requires size { IsSlotCount SLOTS }
    requires skips { AreNoneAwaited replay.old.skips }
    requires rules { AreConsistent SLOTS (8 * length replay.old.skips) replay.old.cells }
    requires as_many { length marks.old ≡ length replay.old.skips }
    ensures more { IfOk result (λ more. more ≡ true → UndoesOne SLOTS replay.old bytes.old.items marks.old replay.new bytes.new.items marks.new) }
    ensures last { IfOk result (λ more. more ≡ false → (replay.old.unended ≡ []) × (replay.new ≡ replay.old) × (bytes.new.items ≡ bytes.old.items) × (marks.new ≡ marks.old)) }
    ensures refused { (id : ℕ) → IsErrOf result (Unsound id) → IsStuck replay.old id }
    ensures rules { AreConsistent SLOTS (8 * length replay.new.skips) replay.new.cells }
{
    match replay.finish() {
        Ok(None) => Ok(false),
        Ok(Some(rec)) => {
            know_record(&rec);
            if rec.write(bytes).is_err() {
                return Err(UndoRefusal::Memory);
            }
            mark(marks, &rec);
            Ok(true)
        }
        Err(FinishRefusal::Unsound { id }) => Err(UndoRefusal::Unsound { id }),
    }
}

/// Undoes all that has not ended, clients ascending, each from its last write on, and answers the records of it as bytes.
/// The marks of the pages, one for each, follow these records.
///
/// [`UndoRefusal::Unsound`] tells the object of the first change that can't be undone. [`UndoRefusal::Memory`] tells
/// nothing.
pub fn undo_all<const SLOTS: usize>(
    alloc: Global,
    replay: &mut Replay<SLOTS>,
    marks: &mut PageMarks,
) -> Result<Vec<u8>, UndoRefusal>
    requires size { IsSlotCount SLOTS }
    requires skips { AreNoneAwaited replay.old.skips }
    requires rules { AreConsistent SLOTS (8 * length replay.old.skips) replay.old.cells }
    requires as_many { length marks.old ≡ length replay.old.skips }
    ensures done { IfOk result (λ bytes. IsUndone SLOTS replay.old bytes.items replay.new) }
    ensures marked { IfOk result (λ bytes. IsUndoneWithMarks SLOTS replay.old bytes.items replay.new marks.old marks.new) }
    ensures refused { (id : ℕ) → IsErrOf result (Unsound id) → RestartsStuckAt SLOTS replay.old.cells replay.old.unended id }
{
    let mut bytes = Vec::new(alloc);
    'undo: while undo_next(replay, marks, &mut bytes)? {}
    Ok(bytes)
}
