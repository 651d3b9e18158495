//! The cells of a store, from what its disk holds.
ghost use Rattle.std.specs.Prelude.{◌≡◌, ℕ, List, [], length, IfOk, IfErr, OnOk};
ghost use Rattle.disk_model.specs.Areas.{Bytes};
ghost use Rattle.disk_model.specs.Told.{IsSettled};
ghost use Rattle.cell_page.specs.Format.{IsSlotCount};
ghost use Rattle.gate_log.specs.OnDisk.{IsOn};
ghost use Rattle.gate_log.specs.declared.stage.Stage.TheVariants.{Standing};
ghost use Rattle.store_opening.specs.Looks.{IsLookedAt};
ghost use Rattle.log_replay.specs.Finishes.{AreNoneAwaited};
ghost use Rattle.store_opening.specs.Store.{Reads, Refuses, IsOfStore, IsFinal, AreCellsFound, HasOpenCause};

use crate::at_once::cells_at_once;
use crate::open_refusal::OpenRefusal;
use crate::refusal::ReadRefusal;
use crate::replayed::{ReplayedLog, replay_log};
use crate::store::{FoundStore, read_store, refusal_of_log};
use disk_model::Disk;
use std::alloc::Global;

/// Reads the store that the disk holds, test after test in their order, and does the records of its log to its pages, as
/// [`read_cells`] tells. The bodies of the log's batches take the memory of the spare one.
fn read_in_order<D: Disk, const SLOTS: usize>(
    alloc: Global,
    disk: &mut D,
    spare: &mut Vec<u8>,
) -> Result<ReplayedLog<SLOTS>, OpenRefusal>
    requires count { IsSlotCount SLOTS }
    ensures read { IfOk result (λ found. (image : Bytes) → Reads D.content disk.old image
        → AreCellsFound D.may_leave SLOTS image found.replay found.marks found.log disk.new) }
    ensures on { IfOk result (λ found. (batches : List (List ℕ)) × IsOn D.may_leave found.log disk.new batches) }
    ensures as_many { IfOk result (λ found. length found.marks ≡ length found.replay.skips) }
    ensures whole { IfOk result (λ found. AreNoneAwaited found.replay.skips) }
    ensures refused { (image : Bytes) → Reads D.content disk.old image → IfErr result (Refuses SLOTS image) }
    ensures for_good { IfErr result (λ e. IsOfStore e → IsFinal D.content D.may_leave SLOTS disk.new e) }
    ensures stands { IfOk result (λ found. (found.log.stage ≡ Standing) × (found.log.tail ≡ [])) }
    ensures settled { OnOk result ((area : _) → IsSettled D.content D.may_leave disk.new area) }
    ensures looks { IsLookedAt D.content D.may_leave D.moment D.left_since disk.old disk.new }
    ensures cause { HasOpenCause (D.faults disk.old) (D.faults disk.new) result }
{
    let store = match read_store::<D, SLOTS>(alloc, disk, spare) {
        Ok(store) => store,
        Err(refusal) => return Err(refusal),
    };
    let FoundStore {
        area,
        pages,
        images,
        ..
    } = store;
    let done = match replay_log(alloc, disk, area, pages, images, spare) {
        Ok(done) => done,
        Err(refusal) => return Err(refusal_of_log(area, refusal)),
    };
    if !done.replay.has_all_images() {
        // The log has lost an image since it was first read.
        let at = done.log.durable();
        return Err(refusal_of_log(area, ReadRefusal::Damaged { at }));
    }
    Ok(done)
}

/// Reads the store that the disk holds, and does the records of its log to its pages. What has not ended is not undone yet,
/// and no store rule is tested.
///
/// One walk over the log is tried first, which is enough where the log has no image of a page and nothing is refused. All
/// refusals come from reading in the order of the tests.
///
/// Each refusal but [`OpenRefusal::Disk`] and [`OpenRefusal::Memory`] comes after all four areas were made to last, and is
/// what the disk opens to then, whatever a power loss does. [`OpenRefusal::Disk`] comes only where the disk's count of faults
/// rose in this call. A log that reads otherwise the second time is damaged where it ends. Nothing is written.
pub fn read_cells<D: Disk, const SLOTS: usize>(
    alloc: Global,
    disk: &mut D,
) -> Result<ReplayedLog<SLOTS>, OpenRefusal>
    requires count { IsSlotCount SLOTS }
    ensures read { IfOk result (λ found. (image : Bytes) → Reads D.content disk.old image
        → AreCellsFound D.may_leave SLOTS image found.replay found.marks found.log disk.new) }
    ensures on { IfOk result (λ found. (batches : List (List ℕ)) × IsOn D.may_leave found.log disk.new batches) }
    ensures as_many { IfOk result (λ found. length found.marks ≡ length found.replay.skips) }
    ensures whole { IfOk result (λ found. AreNoneAwaited found.replay.skips) }
    ensures refused { (image : Bytes) → Reads D.content disk.old image → IfErr result (Refuses SLOTS image) }
    ensures for_good { IfErr result (λ e. IsOfStore e → IsFinal D.content D.may_leave SLOTS disk.new e) }
    ensures stands { IfOk result (λ found. (found.log.stage ≡ Standing) × (found.log.tail ≡ [])) }
    ensures settled { OnOk result ((area : _) → IsSettled D.content D.may_leave disk.new area) }
    ensures looks { IsLookedAt D.content D.may_leave D.moment D.left_since disk.old disk.new }
    ensures cause { HasOpenCause (D.faults disk.old) (D.faults disk.new) result }
{
    let mut spare = Vec::new(alloc);
    match cells_at_once(alloc, disk, &mut spare) {
        Ok(Some(found)) => Ok(found),
        Ok(None) => match read_in_order(alloc, disk, &mut spare) {
            Ok(found) => Ok(found),
            Err(refusal) => Err(refusal),
        },
        Err(refusal) => Err(refusal),
    }
}
