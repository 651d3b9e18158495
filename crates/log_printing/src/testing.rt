//! Whether an area is a log.
ghost use Rattle.std.specs.Prelude.{◌≡◌, ◌⊎◌, ◌+◌, ◌*◌, ◌<◌, ◌≤◌, ℕ, List, length, drop, IfOk, IfErr, IfSome, IfNone, OnOk, IsErrOf};
ghost use Rattle.cell_page.specs.Format.{IsSlotCount};
ghost use Rattle.log_record.specs.declared.record.Record.{Record as LogRecord};
ghost use Rattle.log_replay.specs.declared.refusals.TakeRefusal.TheVariants.{Unfit};
ghost use Rattle.opened_images.specs.LogRecords.{HasNoNext, IsRecordLog};
ghost use Rattle.log_printing.specs.declared.view_refusal.ViewRefusal.TheVariants.{Damaged};
ghost use Rattle.log_printing.specs.Fitting.{fitting_from};
ghost use Rattle.log_printing.specs.Damage.{IsDamagedFor};
ghost use Rattle.log_printing.specs.Testing.{IsFirstBody, IsDamagedFirst, TakesFirst, TakesBody, StopsInBody, HasRead, StopsLog};

use crate::areas::body_at;
use crate::fitting::LogFitting;
use crate::view_refusal::ViewRefusal;
use log_record::Record;
use log_replay::TakeRefusal;
use std::alloc::Global;

/// Where the first record of a log stands, and where the next one would.
const FIRST_AT: u64 = 5;

const SECOND_AT: u64 = 9;

/// How many bytes stand in front of a body: its commit byte and its length.
const FRONT: usize = 5;

/// Tests the body of the first batch. Where it isn't the one record that it should be, this is the place of the fault.
fn test_first<const SLOTS: usize>(body: &[u8], pages: u16) -> Result<(), u64>
    requires { IsSlotCount SLOTS }
    ensures first { OnOk result (IsFirstBody SLOTS pages body.now) }
    ensures damaged { IfErr result (IsDamagedFirst SLOTS pages body.now) }
{
    match Record::<SLOTS>::read(body) {
        Ok((Record::Turn { pages: count, .. }, len)) => {
            if count != pages {
                return Err(FIRST_AT);
            }
            if len < body.len() {
                return Err(SECOND_AT);
            }
            Ok(())
        }
        Ok((Record::OfCells(_), _)) => Err(FIRST_AT),
        Ok((Record::Image { .. }, _)) => Err(FIRST_AT),
        Err(_) => Err(FIRST_AT),
    }
}

/// Takes the record that the bytes begin with, and answers how many bytes it has.
fn take_record<const SLOTS: usize>(
    fitting: &mut LogFitting<SLOTS>,
    bytes: &[u8],
) -> Result<usize, TakeRefusal>
    requires { IsSlotCount SLOTS }
    ensures took { IfOk result (λ len. TakesFirst SLOTS bytes.now len fitting.old fitting.new) }
    ensures within { IfOk result (λ len. (1 ≤ len) × (len ≤ length bytes.now)) }
    ensures unfit { IsErrOf result Unfit → HasNoNext SLOTS fitting.old.pages fitting.old.unended bytes.now }
{
    match Record::<SLOTS>::read(bytes) {
        Ok((rec, len)) => match fitting.take(&rec) {
            Ok(()) => Ok(len),
            Err(refusal) => Err(refusal),
        },
        Err(_) => Err(TakeRefusal::Unfit),
    }
}

/// Tests the records of a body that stands at this offset of the area.
fn test_body<const SLOTS: usize>(
    fitting: &mut LogFitting<SLOTS>,
    body: &[u8],
    start: u64,
) -> Result<(), ViewRefusal>
    requires slots { IsSlotCount SLOTS }
    requires within { start + length body.now ≤ 1073741824 }
    ensures took { OnOk result (TakesBody SLOTS body.now fitting.old fitting.new) }
    ensures damaged { (at : ℕ) → IsErrOf result (Damaged at) → (offset : ℕ) × (at ≡ start + offset) × StopsInBody SLOTS body.now offset fitting.old }
{
    let mut at = 0;
    'records: while at < body.len() {
        match take_record(fitting, &body[at..]) {
            Ok(len) => at += len,
            Err(TakeRefusal::Unfit) => {
                return Err(ViewRefusal::Damaged {
                    at: start + at as u64,
                });
            }
            Err(TakeRefusal::Memory) => return Err(ViewRefusal::Memory),
        }
    }
    Ok(())
}

/// Tests the batch at this offset of the area, and answers where the next commit byte stands; or nothing at a closed one.
fn test_batch<const SLOTS: usize>(
    fitting: &mut LogFitting<SLOTS>,
    area: &[u8],
    at: usize,
) -> Result<Option<usize>, ViewRefusal>
    requires slots { IsSlotCount SLOTS }
    requires within { at ≤ length area.now }
    ensures more { (pages : ℕ) → HasRead SLOTS pages area.now at fitting.old → IfOk result (λ next. IfSome next (λ place. HasRead SLOTS pages area.now place fitting.new)) }
    ensures goes_on { IfOk result (λ next. IfSome next (λ place. (at < place) × (place ≤ length area.now))) }
    ensures ends { (pages : ℕ) → HasRead SLOTS pages area.now at fitting.old
        → IfOk result (λ next. IfNone next ((batches : List (List (LogRecord SLOTS))) × IsRecordLog pages batches area.now)) }
    ensures damaged { (pages : ℕ) → HasRead SLOTS pages area.now at fitting.old → (place : ℕ) → IsErrOf result (Damaged place) → StopsLog SLOTS pages area.now place }
{
    match body_at(area, at) {
        Ok(Some(body)) => match test_body(fitting, body, (at + FRONT) as u64) {
            Ok(()) => Ok(Some(at + FRONT + body.len())),
            Err(refusal) => Err(refusal),
        },
        Ok(None) => Ok(None),
        Err(place) => Err(ViewRefusal::Damaged { at: place }),
    }
}

/// Tests the batches from this offset of the area on.
fn test_batches<const SLOTS: usize>(
    fitting: &mut LogFitting<SLOTS>,
    area: &[u8],
    first: usize,
) -> Result<(), ViewRefusal>
    requires slots { IsSlotCount SLOTS }
    requires within { first ≤ length area.now }
    ensures log { (pages : ℕ) → HasRead SLOTS pages area.now first fitting.old
        → OnOk result ((batches : List (List (LogRecord SLOTS))) × IsRecordLog pages batches area.now) }
    ensures damaged { (pages : ℕ) → HasRead SLOTS pages area.now first fitting.old → (place : ℕ) → IsErrOf result (Damaged place) → StopsLog SLOTS pages area.now place }
{
    let mut at = first;
    'batches: loop {
        match test_batch(fitting, area, at) {
            Ok(Some(next)) => at = next,
            Ok(None) => return Ok(()),
            Err(refusal) => return Err(refusal),
        }
    }
}

/// Tests whether the area is the log of a store of so many pages: its batches, and each record by those before it, without the
/// cells.
///
/// [`ViewRefusal::Damaged`] tells the first fault.
pub(crate) fn test_log<const SLOTS: usize>(
    alloc: Global,
    area: &[u8],
    pages: u16,
) -> Result<(), ViewRefusal>
    requires { IsSlotCount SLOTS }
    ensures log { OnOk result ((batches : List (List (LogRecord SLOTS))) × IsRecordLog pages batches area.now) }
    ensures damaged { (at : ℕ) → IsErrOf result (Damaged at) → IsDamagedFor SLOTS pages area.now at }
{
    match body_at(area, 0) {
        Ok(Some(body)) => {
            if let Err(at) = test_first::<SLOTS>(body, pages) {
                return Err(ViewRefusal::Damaged { at });
            }
            let mut fitting = LogFitting::<SLOTS>::new(alloc, pages)?;
            test_batches(&mut fitting, area, FRONT + body.len())
        }
        Ok(None) => Ok(()),
        Err(at) => Err(ViewRefusal::Damaged { at }),
    }
}
