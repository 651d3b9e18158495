//! Changes of payloads, which are most records of many a log, taken by themselves.

ghost use Rattle.std.specs.Prelude.{◌≡◌, ◌≢◌, ◌↔◌, ◌*◌, ◌<◌, ◌≤◌, true, false, Err, length, OnOk, OnErr};
ghost use Rattle.log_record.specs.Changes.{change_record};
ghost use Rattle.log_record.specs.declared.record.Record.TheVariants.{OfCells};
ghost use Rattle.log_record.specs.Records.{record_of};
ghost use Rattle.log_record.specs.Spelling.{HasCellSpelling};
ghost use Rattle.restart_laws.specs.Unended.{FitsUnended};
ghost use Rattle.log_replay.specs.Replays.{IsWithin, is_skipped, FitsUnskippedCells, FitsReplay, after_taking};
ghost use Rattle.log_replay.specs.Steps.{with_cells_after, taken_of_cells};
ghost use Rattle.log_replay.specs.declared.refusals.TakeRefusal.TheVariants.{Unfit};

use crate::refusals::TakeRefusal;
use crate::replay::Replay;
use crate::unended;
use log_record::PayloadChange;

impl<const SLOTS: usize> Replay<SLOTS> {
    /// Whether a change of a payload fits the cells, where it is known whether an image of its page is still to come.
    #[tactic(auto, using(crate::proofs::ChangeLaws::change_fits))]
    #[inline(always)]
    fn fits_change(&self, change: PayloadChange, is_awaited: bool) -> bool
        requires above { 1 ≤ change.id }
        requires within { change.id < length self.now.cells }
        requires awaited { is_awaited ≡ is_skipped self.now.skips change.id }
        ensures yes { result ≡ true → FitsUnskippedCells self.now.skips self.now.cells (record_of (change_record change)) }
        ensures unless { result ≡ false → FitsUnskippedCells self.now.skips self.now.cells (record_of (change_record change)) → ⊥ }
    {
        if is_awaited {
            return true;
        }
        let cell = self.pages.get(change.id);
        if !cell.live {
            return false;
        }
        cell.payload == change.old_value
    }

    /// Does a change of a payload, which fits, to its cell, unless an image of its page is still to come, which is known.
    #[tactic(auto, using(crate::proofs::ChangeLaws::change_skipped, crate::proofs::ChangeLaws::change_paid, crate::proofs::ChangeLaws::change_live))]
    #[inline(always)]
    fn pay(&mut self, change: PayloadChange, is_awaited: bool)
        requires above { 1 ≤ change.id }
        requires within { change.id < length self.old.cells }
        requires awaited { is_awaited ≡ is_skipped self.old.skips change.id }
        requires fits { FitsUnskippedCells self.old.skips self.old.cells (record_of (change_record change)) }
        ensures { self.new ≡ with_cells_after SLOTS (record_of (change_record change)) self.old }
    {
        if is_awaited {
            return;
        }
        self.pages.pay(change.id, change.new_value);
    }

    /// Takes a change of a payload, which fits the pages, where it is known whether an image of its page is still to come.
    /// An error changes nothing.
    #[tactic(auto, using(crate::proofs::PlacedLaws::placed_after))]
    #[inline(always)]
    fn take_fitting_change(
        &mut self,
        change: PayloadChange,
        is_awaited: bool,
    ) -> Result<(), TakeRefusal>
        requires spelled { HasCellSpelling SLOTS (change_record change) }
        requires within { IsWithin (8 * length self.old.skips) (change_record change) }
        requires awaited { is_awaited ≡ is_skipped self.old.skips change.id }
        requires fits { FitsUnskippedCells self.old.skips self.old.cells (record_of (change_record change)) }
        ensures ok { OnOk result (self.new ≡ taken_of_cells SLOTS (record_of (change_record change)) self.old) }
        ensures err { OnErr result (self.new ≡ self.old) }
        ensures unfit { (result ≢ Err Unfit) ↔ FitsUnended self.old.unended (record_of (change_record change)) }
    {
        match unended::take_change(&mut self.unended, change) {
            Ok(()) => {
                self.pay(change, is_awaited);
                Ok(())
            }
            Err(refusal) => Err(refusal),
        }
    }

    /// Takes the next record of the log, which is a change of a payload, as [`Replay::take`] does.
    #[inline(always)]
    pub fn take_change(&mut self, change: PayloadChange) -> Result<(), TakeRefusal>
        requires { HasCellSpelling SLOTS (change_record change) }
        ensures ok { OnOk result (self.new ≡ after_taking {slots = SLOTS} (OfCells (change_record change)) self.old) }
        ensures err { OnErr result (self.new ≡ self.old) }

        // `Unfit` is the answer exactly where the change doesn't fit.
        ensures unfit { (result ≢ Err Unfit) ↔ FitsReplay {slots = SLOTS} self.old (OfCells (change_record change)) }
    {
        if change.id > self.ids() {
            return Err(TakeRefusal::Unfit);
        }
        let is_awaited = self.is_skipped(change.id);
        if !self.fits_change(change, is_awaited) {
            return Err(TakeRefusal::Unfit);
        }
        self.take_fitting_change(change, is_awaited)
    }
}
