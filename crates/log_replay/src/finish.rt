//! The end of a replay: what hasn't ended is undone.

ghost use Rattle.std.specs.Prelude.{◌≡◌, ◌*◌, Some, length, IfOk, IfErr, OnErr};
ghost use Rattle.cell_model.specs.Records.{Fits, IsWellLaid};
ghost use Rattle.restart_laws.specs.Unended.{FitsUnended};
ghost use Rattle.restart_laws.specs.Restored.{next_undo};
ghost use Rattle.cell_model.specs.Consistent.{AreConsistent};
ghost use Rattle.log_record.specs.declared.record.Record.TheVariants.{OfCells};
ghost use Rattle.log_record.specs.Records.{record_of};
ghost use Rattle.log_record.specs.Spelling.{HasCellSpelling};
ghost use Rattle.log_replay.specs.Replays.{IsWithin, NotesNothing};
ghost use Rattle.log_replay.specs.Finishes.{AreNoneAwaited, CanUndoNext, FinishesBy, RefusesFinish};

use crate::refusals::FinishRefusal;
use crate::replay::Replay;
use crate::undo::{can_undo, undo_record};
use crate::unended;
use log_record::{CellRecord, Record};

impl<const SLOTS: usize> Replay<SLOTS> {
    /// Does the next undo, or the next end of an abort, of the transactions that haven't ended, and gives its record:
    /// clients ascending, each from its last write on. `None` where all have ended. It takes no memory.
    pub fn finish(&mut self) -> Result<Option<Record<SLOTS>>, FinishRefusal>
        requires skips { AreNoneAwaited self.old.skips }
        requires rules { AreConsistent SLOTS (8 * length self.old.skips) self.old.cells }
        ensures done { IfOk result (λ rec. FinishesBy self.old rec self.new) }
        ensures refused { IfErr result (RefusesFinish self.old) }
        ensures err { OnErr result (self.new ≡ self.old) }
        ensures rules { AreConsistent SLOTS (8 * length self.new.skips) self.new.cells }
    {
        let Some((pass, last)) = unended::first(&self.unended) else {
            return Ok(None);
        };
        let Some(write) = last else {
            let end = CellRecord::AbortEnd { pass };
            self.finish_by(&end);
            return Ok(Some(Record::OfCells(end)));
        };
        if !can_undo(&self.pages, &write) {
            return Err(FinishRefusal::Unsound { id: write.id });
        }
        let r = undo_record(&self.pages, pass, &write);
        self.finish_by(&r);
        Ok(Some(Record::OfCells(r)))
    }

    /// Does this undo or end of an abort, which is the next one.
    fn finish_by(&mut self, r: &CellRecord)
        requires nothing { NotesNothing r.now }
        requires skips { AreNoneAwaited self.old.skips }
        requires rules { AreConsistent SLOTS (8 * length self.old.skips) self.old.cells }
        requires spelled { HasCellSpelling SLOTS r.now }
        requires within { IsWithin (8 * length self.old.skips) r.now }
        requires next { next_undo self.old.cells self.old.unended ≡ Some (record_of r.now) }
        requires can { CanUndoNext self.old }
        requires unended { FitsUnended self.old.unended (record_of r.now) }
        requires fits { Fits self.old.cells (record_of r.now) }
        requires laid { IsWellLaid self.old.cells (record_of r.now) }
        ensures done { FinishesBy {slots = SLOTS} self.old (Some (OfCells r.now)) self.new }
        ensures rules { AreConsistent SLOTS (8 * length self.new.skips) self.new.cells }
    {
        let _few = self.ids();
        self.take_leaving(r);
    }
}
