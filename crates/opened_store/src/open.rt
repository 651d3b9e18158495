//! The cells of a store, opened from its disk.
ghost use Rattle.std.specs.Prelude.{◌≡◌, ℕ, ◌*◌, ◌<◌, ◌≤◌, ◌⊎◌, List, [], length, IfOk, IfErr, OnOk};
ghost use Rattle.cell_model.specs.Consistent.{AreConsistent};
ghost use Rattle.cell_page.specs.Format.{IsSlotCount};
ghost use Rattle.disk_model.specs.declared.area.Area.TheVariants.{Pages};
ghost use Rattle.disk_model.specs.Areas.{Bytes};
ghost use Rattle.disk_model.specs.Told.{EachImage, IsImage, IsSettled, Keeps};
ghost use Rattle.disk_model.specs.Time.{LeavesOnlyImages};
ghost use Rattle.cell_model.specs.Cells.{Cell};
ghost use Rattle.opened_store.specs.Steps.{IsLate};
ghost use Rattle.opened_store.specs.Touched.{TouchesOnly, Touches, GetsUndo};
ghost use Rattle.opened_store.specs.Unopened.{OnlyLooksUnlessOpen};
ghost use Rattle.gate_log.specs.Batches.{most_bytes};
ghost use Rattle.gate_log.specs.declared.stage.Stage.TheVariants.{Standing};
ghost use Rattle.gate_log.specs.State.{used};
ghost use Rattle.gate_log.specs.OnDisk.{IsOn};
ghost use Rattle.opened_images.specs.Opened.{Opened, OpensTo};
ghost use Rattle.page_marks.specs.Marks.{IsMarkedBegun};
ghost use Rattle.store_opening.specs.Looks.{IsLookedAt};
ghost use Rattle.store_opening.specs.Room.{LacksRoom};
ghost use Rattle.store_opening.specs.Store.{Reads, Refuses, IsOfStore, IsFinal, HasOpenCause};

use crate::force::force_undo;
use crate::tested::restart;
use disk_model::Disk;
use std::alloc::Global;
use store_opening::{OpenRefusal, ReplayedLog, read_cells};

/// Opens the cells of the store that the disk holds: reads it, tests it, and undoes for good what had not ended.
///
/// Of a disk that is told, the cells are those that the four areas open to. Each refusal but [`OpenRefusal::Disk`] and
/// [`OpenRefusal::Memory`] comes after all four were made to last, and is what the disk opens to then; before it nothing is
/// written. Whatever a power loss leaves at each moment of the call is what it may have left before, or opens to these cells,
/// and so does all that it leaves afterwards.
/// Nothing is written where what the disk reads does not open, whatever is answered. [`OpenRefusal::Disk`] comes only where
/// the disk's count of faults rose in this call. The log area that the super area names gets the batch of the undo, and the
/// other areas stay as they were.
pub(crate) fn open_cells<D: Disk, const SLOTS: usize>(
    alloc: Global,
    disk: &mut D,
) -> Result<ReplayedLog<SLOTS>, OpenRefusal>
    requires count { IsSlotCount SLOTS }
    ensures opens { IfOk result (λ found. (image : Bytes) → Reads D.content disk.old image → Opened SLOTS image (OpensTo found.replay.cells)) }
    ensures refused { (image : Bytes) → Reads D.content disk.old image → IfErr result (Refuses SLOTS image) }
    ensures for_good { IfErr result (λ e. IsOfStore e → IsFinal D.content D.may_leave SLOTS disk.new e) }
    ensures room { IfOk result (λ found. (image : Bytes) → Reads D.content disk.old image → LacksRoom SLOTS image → ⊥) }
    ensures ended { IfOk result (λ found. found.replay.unended ≡ []) }
    ensures rules { IfOk result (λ found. AreConsistent SLOTS (8 * length found.replay.skips) found.replay.cells) }
    ensures stands { IfOk result (λ found. (found.log.stage ≡ Standing) × (found.log.tail ≡ [])) }
    ensures images { IfOk result (λ found. (image : Bytes) → Reads D.content disk.old image
        → EachImage D.may_leave disk.new (λ other. Opened SLOTS other (OpensTo found.replay.cells))) }
    ensures moments { (image : Bytes) (cells : List Cell) → Reads D.content disk.old image → Opened SLOTS image (OpensTo cells)
        → LeavesOnlyImages D.moment D.left_since disk.old disk.new (λ other. IsImage D.may_leave disk.old other ⊎ Opened SLOTS other (OpensTo cells)) }
    ensures bounded { IfOk result (λ found. used found.log ≤ most_bytes) }
    ensures begun { IfOk result (λ found. (batches : List (List ℕ)) × IsOn D.may_leave found.log disk.new batches
        × ((image : Bytes) → Reads D.content disk.old image → IsMarkedBegun SLOTS (length found.replay.skips) image.pages batches found.replay.cells found.marks)) }
    ensures marked { IfOk result (λ found. length found.marks ≡ length found.replay.skips) }
    ensures settled { OnOk result (IsSettled D.content D.may_leave disk.new Pages) }
    ensures pages { Keeps D.content D.may_leave disk.old disk.new Pages }
    ensures undo { IfOk result (λ found. GetsUndo D.content SLOTS disk.old disk.new found.log) }
    ensures touches { IfOk result (λ found. TouchesOnly D.content D.may_leave D.moment D.left_since disk.old disk.new found.log.area) }
    ensures touches_refused { IfErr result (λ e. Touches D.content D.may_leave D.moment D.left_since disk.old disk.new) }
    ensures unwritten { IfErr result (λ e. IsLate e ⊎ IsLookedAt D.content D.may_leave D.moment D.left_since disk.old disk.new) }
    ensures only_looks { OnlyLooksUnlessOpen D.content D.may_leave D.moment D.left_since SLOTS disk.old disk.new }
    ensures cause { HasOpenCause (D.faults disk.old) (D.faults disk.new) result }
{
    let found = match read_cells::<D, SLOTS>(alloc, disk) {
        Ok(found) => found,
        Err(refusal) => return Err(refusal),
    };
    let ReplayedLog {
        mut replay,
        mut log,
        mut marks,
    } = found;
    let bytes = match restart(alloc, &mut replay, &mut marks) {
        Ok(bytes) => bytes,
        Err(refusal) => return Err(refusal),
    };
    match force_undo(&mut log, disk, &bytes) {
        Ok(()) => Ok(ReplayedLog { replay, log, marks }),
        Err(refusal) => Err(refusal),
    }
}
