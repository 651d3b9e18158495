//! The records of a batch, tested one after another.
ghost use Rattle.std.specs.Prelude.{◌≡◌, ◌≤◌, ◌<◌, ℕ, List, length, IfOk, IfSome, IsErrOf, MatchOption};
ghost use Rattle.cell_page.specs.Format.{IsSlotCount};
ghost use Rattle.log_replay.specs.declared.refusals.TakeRefusal.TheVariants.{Unfit};
ghost use Rattle.restart_laws.specs.Unended.{Unended};
ghost use Rattle.opened_images.specs.LogRecords.{HasNoNext};
ghost use Rattle.current_log.specs.Tested.{IsTesting, FitsFirst, FitsBody, StopsBody};

use log_record::{CellRecord, Record};
use log_replay::{Replay, TakeRefusal};
use std::alloc::AllocError;

/// Tests the record of any kind that the bytes begin with, in a store of so many pages, and answers how many bytes it has.
///
/// [`TakeRefusal::Unfit`] comes exactly where no record that fits begins the bytes.
fn test_of_any_kind<const SLOTS: usize>(
    replay: &mut Replay<SLOTS>,
    pages: u16,
    bytes: &[u8],
) -> Result<usize, TakeRefusal>
    requires count { IsSlotCount SLOTS }
    ensures fits { (us : List (ℕ × Unended)) → IsTesting pages us replay.old → IfOk result (λ len. FitsFirst SLOTS pages us bytes.now len replay.new) }
    ensures within { IfOk result (λ len. (1 ≤ len) × (len ≤ length bytes.now)) }
    ensures unfit { (us : List (ℕ × Unended)) → IsTesting pages us replay.old → IsErrOf result Unfit → HasNoNext SLOTS pages us bytes.now }
{
    let Ok((rec, len)) = Record::<SLOTS>::read(bytes) else {
        return Err(TakeRefusal::Unfit);
    };
    match rec {
        Record::OfCells(r) => match replay.take_of_cells(&r) {
            Ok(()) => Ok(len),
            Err(refusal) => Err(refusal),
        },
        Record::Image { page, .. } => {
            if page >= pages {
                return Err(TakeRefusal::Unfit);
            }
            Ok(len)
        }
        Record::Turn { .. } => Err(TakeRefusal::Unfit),
    }
}

/// Tests the record that the bytes begin with, in a store of so many pages, and answers how many bytes it has. Most are of single
/// cells, and for these it moves no page.
///
/// [`TakeRefusal::Unfit`] comes exactly where no record that fits begins the bytes.
fn test_record<const SLOTS: usize>(
    replay: &mut Replay<SLOTS>,
    pages: u16,
    bytes: &[u8],
) -> Result<usize, TakeRefusal>
    requires count { IsSlotCount SLOTS }
    ensures fits { (us : List (ℕ × Unended)) → IsTesting pages us replay.old → IfOk result (λ len. FitsFirst SLOTS pages us bytes.now len replay.new) }
    ensures within { IfOk result (λ len. (1 ≤ len) × (len ≤ length bytes.now)) }
    ensures unfit { (us : List (ℕ × Unended)) → IsTesting pages us replay.old → IsErrOf result Unfit → HasNoNext SLOTS pages us bytes.now }
{
    match CellRecord::read::<SLOTS>(bytes) {
        Ok((rec, len)) => match replay.take_of_cells(&rec) {
            Ok(()) => Ok(len),
            Err(refusal) => Err(refusal),
        },
        Err(_) => test_of_any_kind(replay, pages, bytes),
    }
}

/// Tests the records of a batch's body, in a store of so many pages. It answers the offset in the body at which no record stands
/// that fits, or nothing where the body is records that fit.
///
/// [`AllocError`] comes only where memory is out.
pub(crate) fn test_records<const SLOTS: usize>(
    replay: &mut Replay<SLOTS>,
    pages: u16,
    body: &[u8],
) -> Result<Option<usize>, AllocError>
    requires count { IsSlotCount SLOTS }
    ensures tested { (us : List (ℕ × Unended)) → IsTesting pages us replay.old
        → IfOk result (λ stop. MatchOption stop (FitsBody SLOTS pages us body.now replay.new) (λ at. StopsBody SLOTS pages us body.now at)) }
    ensures within { IfOk result (λ stop. IfSome stop (λ at. at < length body.now)) }
{
    let mut at = 0;
    'records: while at < body.len() {
        match test_record(replay, pages, &body[at..]) {
            Ok(len) => at += len,
            Err(TakeRefusal::Unfit) => return Ok(Some(at)),
            Err(TakeRefusal::Memory) => return Err(AllocError),
        }
    }
    Ok(None)
}
