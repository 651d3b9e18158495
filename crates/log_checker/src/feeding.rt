//! The records of whole batches, done to the base, and counted beside it.
ghost use Rattle.std.specs.Prelude.{◌≡◌, ℕ, List, true, false, Ok, OnOk, IsErrOf};
ghost use Rattle.cell_page.specs.Format.{IsSlotCount};
ghost use Rattle.log_record.specs.declared.record.Record.{Record as LogRecord};
ghost use Rattle.ship_stream.specs.declared.refusal.FeedRefusal.TheVariants.{Damaged};
ghost use Rattle.ship_stream.specs.Runs.{AreRecords};
ghost use Rattle.standby.specs.Following.{AllFit, after_all, StopsFitting};
ghost use Rattle.standby.specs.Taking.{StopsNext, HasNone};
ghost use Rattle.log_checker.specs.Taking.{IsBeside, TellsMore, TakesBoth};

use crate::tally::Tally;
use log_replay::{Replay, TakeRefusal};
use ship_stream::{FeedRefusal, Records};

/// Does the next record of a batch to the base and to the tally, whatever it is of. Tells whether there was one.
fn take_of_any_kind<const SLOTS: usize>(
    replay: &mut Replay<SLOTS>,
    tally: &mut Tally<SLOTS>,
    records: &mut Records<SLOTS>,
) -> Result<bool, FeedRefusal>
    requires count { IsSlotCount SLOTS }
    requires beside { IsBeside replay.old tally.old records.old }
    ensures took { result ≡ Ok true → TakesBoth SLOTS replay.old replay.new tally.old tally.new records.old records.new }
    ensures none { result ≡ Ok false → HasNone SLOTS records.old × (replay.new ≡ replay.old) × (tally.new ≡ tally.old) }
    ensures damaged { (at : ℕ) → IsErrOf result (Damaged at) → StopsNext SLOTS replay.old records.old at }
{
    match records.next() {
        Some((rec, at)) => {
            match replay.take(&rec) {
                Ok(()) => {}
                Err(TakeRefusal::Unfit) => return Err(FeedRefusal::Damaged { at }),
                Err(TakeRefusal::Memory) => return Err(FeedRefusal::Memory),
            }
            match tally.take(&rec) {
                Ok(()) => Ok(true),
                Err(_) => Err(FeedRefusal::Memory),
            }
        }
        None => Ok(false),
    }
}

/// Does the next record of a batch to the base and to the tally, where it is none of single cells. Tells whether there was one: behind
/// the last one it moves no page either.
#[inline(always)]
fn take_other<const SLOTS: usize>(
    replay: &mut Replay<SLOTS>,
    tally: &mut Tally<SLOTS>,
    records: &mut Records<SLOTS>,
) -> Result<bool, FeedRefusal>
    requires count { IsSlotCount SLOTS }
    requires beside { IsBeside replay.old tally.old records.old }
    ensures took { result ≡ Ok true → TakesBoth SLOTS replay.old replay.new tally.old tally.new records.old records.new }
    ensures none { result ≡ Ok false → HasNone SLOTS records.old × (replay.new ≡ replay.old) × (tally.new ≡ tally.old) }
    ensures damaged { (at : ℕ) → IsErrOf result (Damaged at) → StopsNext SLOTS replay.old records.old at }
{
    if records.is_empty() {
        return Ok(false);
    }
    take_of_any_kind(replay, tally, records)
}

/// Does the next record of a batch to the base and to the tally. Tells whether there was one. Most are of single cells, and for these it
/// moves no page.
#[inline(always)]
fn take_next<const SLOTS: usize>(
    replay: &mut Replay<SLOTS>,
    tally: &mut Tally<SLOTS>,
    records: &mut Records<SLOTS>,
) -> Result<bool, FeedRefusal>
    requires count { IsSlotCount SLOTS }
    requires beside { IsBeside replay.old tally.old records.old }
    ensures took { result ≡ Ok true → TakesBoth SLOTS replay.old replay.new tally.old tally.new records.old records.new }
    ensures none { result ≡ Ok false → HasNone SLOTS records.old × (replay.new ≡ replay.old) × (tally.new ≡ tally.old) }
    ensures damaged { (at : ℕ) → IsErrOf result (Damaged at) → StopsNext SLOTS replay.old records.old at }
{
    match records.next_of_cells() {
        Some((rec, at)) => {
            match replay.take_of_cells(&rec) {
                Ok(()) => {}
                Err(TakeRefusal::Unfit) => return Err(FeedRefusal::Damaged { at }),
                Err(TakeRefusal::Memory) => return Err(FeedRefusal::Memory),
            }
            match tally.take_of_cells(&rec) {
                Ok(()) => Ok(true),
                Err(_) => Err(FeedRefusal::Memory),
            }
        }
        None => take_other(replay, tally, records),
    }
}

/// Does the records of a batch to the base, one after another, and each that fits to the tally.
///
/// [`FeedRefusal::Damaged`] is at the first one that doesn't fit, exactly where there is one.
pub(crate) fn take_records<const SLOTS: usize>(
    replay: &mut Replay<SLOTS>,
    tally: &mut Tally<SLOTS>,
    records: &mut Records<SLOTS>,
) -> Result<(), FeedRefusal>
    requires count { IsSlotCount SLOTS }
    requires beside { IsBeside replay.old tally.old records.old }
    ensures took { (rs : List (LogRecord SLOTS)) → AreRecords rs records.old → OnOk result (AllFit replay.old rs × (replay.new ≡ after_all replay.old rs)) }
    ensures told { (rs : List (LogRecord SLOTS)) → AreRecords rs records.old → OnOk result (TellsMore rs tally.old tally.new) }
    ensures damaged { (rs : List (LogRecord SLOTS)) → AreRecords rs records.old → (at : ℕ) → IsErrOf result (Damaged at) → StopsFitting replay.old rs records.old.at at }
{
    'records: loop {
        match take_next(replay, tally, records) {
            Ok(true) => {}
            Ok(false) => return Ok(()),
            Err(refusal) => return Err(refusal),
        }
    }
}
