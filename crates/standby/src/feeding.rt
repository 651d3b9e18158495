//! The records of whole batches, done to the base.
ghost use Rattle.std.specs.Prelude.{◌≡◌, ℕ, List, true, false, Ok, OnOk, IsErrOf};
ghost use Rattle.cell_page.specs.Format.{IsSlotCount};
ghost use Rattle.log_record.specs.declared.record.Record.{Record as LogRecord};
ghost use Rattle.ship_stream.specs.declared.refusal.FeedRefusal.TheVariants.{Damaged};
ghost use Rattle.ship_stream.specs.Runs.{AreRecords};
ghost use Rattle.standby.specs.Following.{AllFit, after_all, StopsFitting};
ghost use Rattle.standby.specs.Taking.{TakesNext, StopsNext, HasNone};

use log_replay::{Replay, TakeRefusal};
use ship_stream::{FeedRefusal, Records};

/// Does the next record of a batch to the base, whatever it is of. Tells whether there was one.
fn take_of_any_kind<const SLOTS: usize>(
    replay: &mut Replay<SLOTS>,
    records: &mut Records<SLOTS>,
) -> Result<bool, FeedRefusal>
    requires count { IsSlotCount SLOTS }
    ensures took { result ≡ Ok true → TakesNext SLOTS replay.old replay.new records.old records.new }
    ensures none { result ≡ Ok false → HasNone SLOTS records.old × (replay.new ≡ replay.old) }
    ensures damaged { (at : ℕ) → IsErrOf result (Damaged at) → StopsNext SLOTS replay.old records.old at }
{
    match records.next() {
        Some((rec, at)) => match replay.take(&rec) {
            Ok(()) => Ok(true),
            Err(TakeRefusal::Unfit) => Err(FeedRefusal::Damaged { at }),
            Err(TakeRefusal::Memory) => Err(FeedRefusal::Memory),
        },
        None => Ok(false),
    }
}

/// Does the next record of a batch to the base, where it is none of single cells. Tells whether there was one: behind the last one
/// it moves no page either.
#[inline(always)]
fn take_other<const SLOTS: usize>(
    replay: &mut Replay<SLOTS>,
    records: &mut Records<SLOTS>,
) -> Result<bool, FeedRefusal>
    requires count { IsSlotCount SLOTS }
    ensures took { result ≡ Ok true → TakesNext SLOTS replay.old replay.new records.old records.new }
    ensures none { result ≡ Ok false → HasNone SLOTS records.old × (replay.new ≡ replay.old) }
    ensures damaged { (at : ℕ) → IsErrOf result (Damaged at) → StopsNext SLOTS replay.old records.old at }
{
    if records.is_empty() {
        return Ok(false);
    }
    take_of_any_kind(replay, records)
}

/// Does the next record of a batch to the base. Tells whether there was one. Most are of single cells, and for these it moves no page.
#[inline(always)]
fn take_next<const SLOTS: usize>(
    replay: &mut Replay<SLOTS>,
    records: &mut Records<SLOTS>,
) -> Result<bool, FeedRefusal>
    requires count { IsSlotCount SLOTS }
    ensures took { result ≡ Ok true → TakesNext SLOTS replay.old replay.new records.old records.new }
    ensures none { result ≡ Ok false → HasNone SLOTS records.old × (replay.new ≡ replay.old) }
    ensures damaged { (at : ℕ) → IsErrOf result (Damaged at) → StopsNext SLOTS replay.old records.old at }
{
    match records.next_of_cells() {
        Some((rec, at)) => match replay.take_of_cells(&rec) {
            Ok(()) => Ok(true),
            Err(TakeRefusal::Unfit) => Err(FeedRefusal::Damaged { at }),
            Err(TakeRefusal::Memory) => Err(FeedRefusal::Memory),
        },
        None => take_other(replay, records),
    }
}

/// Does the records of a batch to the base, one after another.
///
/// [`FeedRefusal::Damaged`] is at the first one that doesn't fit, exactly where there is one.
pub(crate) fn take_records<const SLOTS: usize>(
    replay: &mut Replay<SLOTS>,
    records: &mut Records<SLOTS>,
) -> Result<(), FeedRefusal>
    requires count { IsSlotCount SLOTS }
    ensures took { (rs : List (LogRecord SLOTS)) → AreRecords rs records.old → OnOk result (AllFit replay.old rs × (replay.new ≡ after_all replay.old rs)) }
    ensures damaged { (rs : List (LogRecord SLOTS)) → AreRecords rs records.old → (at : ℕ) → IsErrOf result (Damaged at) → StopsFitting replay.old rs records.old.at at }
{
    'records: loop {
        match take_next(replay, records) {
            Ok(true) => {}
            Ok(false) => return Ok(()),
            Err(refusal) => return Err(refusal),
        }
    }
}
