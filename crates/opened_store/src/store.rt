//! A store, opened from its disk.
ghost use Rattle.std.specs.Prelude.{◌≡◌, ℕ, ◌*◌, ◌<◌, ◌≤◌, ◌^◌, ◌⊎◌, List, [], Some, length, option_map, IfOk, IfErr, OnOk};
ghost use Rattle.cell_model.specs.Cells.{Cell};
ghost use Rattle.cell_model.specs.Consistent.{AreConsistent};
ghost use Rattle.cell_page.specs.Format.{IsSlotCount, page_size};
ghost use Rattle.disk_model.specs.declared.area.Area.TheVariants.{Pages};
ghost use Rattle.disk_model.specs.Areas.{Bytes};
ghost use Rattle.disk_model.specs.Told.{EachImage, IsImage, IsSettled, Keeps, Leaves};
ghost use Rattle.disk_model.specs.Time.{LeavesOnlyImages};
ghost use Rattle.gate_log.specs.Batches.{most_bytes};
ghost use Rattle.gate_log.specs.declared.stage.Stage.TheVariants.{Standing};
ghost use Rattle.gate_log.specs.State.{used};
ghost use Rattle.gate_log.specs.OnDisk.{IsOn};
ghost use Rattle.opened_images.specs.Opened.{Opened, OpensTo};
ghost use Rattle.page_marks.specs.Marks.{IsMarkedBegun};
ghost use Rattle.store_opening.specs.Looks.{IsLookedAt};
ghost use Rattle.store_opening.specs.Room.{LacksRoom};
ghost use Rattle.store_opening.specs.Store.{Reads, Refuses, IsOfStore, IsFinal, HasOpenCause};
ghost use Rattle.opened_store.specs.Steps.{IsLate};
ghost use Rattle.opened_store.specs.Touched.{TouchesOnly, Touches, GetsUndo};
ghost use Rattle.opened_store.specs.Unopened.{OnlyLooksUnlessOpen};
ghost use Rattle.opened_store.specs.Lengths.{lengthened};

use crate::lengthening::{LengthRefusal, lengthen};
use crate::open::open_cells;
use cell_page::{CELLS_OF_PAGE, Page};
use disk_model::Disk;
use log_replay::Replay;
use std::alloc::Global;
use store_opening::{OpenRefusal, ReplayedLog};

/// How many bytes the pages of a replay take, one after another.
fn pages_len<const SLOTS: usize>(replay: &Replay<SLOTS>) -> u64
    requires count { IsSlotCount SLOTS }
    ensures len { result ≡ page_size SLOTS * length replay.now.skips }
    ensures most { result ≤ 2 ^ 24 }
    ensures few { (1 ≤ length replay.now.skips) × (length replay.now.skips ≤ 1024) }
{
    let pages = replay.last_id() as usize / CELLS_OF_PAGE;
    (Page::<SLOTS>::encoded_len() * pages) as u64
}

/// Opens the store that the disk holds: reads it, tests it, undoes for good what had not ended, and makes the pages area as
/// long as its pages, by zero bytes at its end.
///
/// Of a disk that is told, the cells are those that the four areas open to. Each refusal but [`OpenRefusal::Disk`] and
/// [`OpenRefusal::Memory`] comes after all four were made to last, and is what the disk opens to then; before it nothing is
/// written. Whatever a power loss leaves at each moment of the call is what it may have left before, or opens to these cells,
/// and so does all that it leaves afterwards.
/// Nothing is written where what the disk reads does not open, whatever is answered. [`OpenRefusal::Disk`] comes only where
/// the disk's count of faults rose in this call. [`OpenRefusal::LogFull`] comes exactly where the store opens but the log area
/// has no room for the batch of the undo, and for two commit bytes and a length after it; [`OpenRefusal::Memory`] comes for
/// want of memory.
///
/// The log area that the super area names gets the batch of the undo, where there is something to undo, and the pages area
/// may become longer. The super area and the other log area stay as they were, at each moment.
///
/// What the disk then holds is what a journal goes on from: the log stands with its first batch and batches that have ended,
/// which make these cells, and the marks are those of their records. The pages area has the bytes of all pages.
pub fn open_store<D: Disk, const SLOTS: usize>(
    alloc: Global,
    disk: &mut D,
) -> Result<ReplayedLog<SLOTS>, OpenRefusal>
    requires count { IsSlotCount SLOTS }
    ensures opens { IfOk result (λ found. (image : Bytes) → Reads D.content disk.old image → Opened SLOTS image (OpensTo found.replay.cells)) }
    ensures refused { (image : Bytes) → Reads D.content disk.old image → IfErr result (Refuses SLOTS image) }
    ensures for_good { IfErr result (λ e. IsOfStore e → IsFinal D.content D.may_leave SLOTS disk.new e) }
    ensures room { IfOk result (λ found. (image : Bytes) → Reads D.content disk.old image → LacksRoom SLOTS image → ⊥) }
    ensures ended { IfOk result (λ found. found.replay.unended ≡ []) }
    ensures rules { IfOk result (λ found. AreConsistent SLOTS (8 * length found.replay.skips) found.replay.cells) }
    ensures few { IfOk result (λ found. (1 ≤ length found.replay.skips) × (length found.replay.skips ≤ 1024)) }
    ensures stands { IfOk result (λ found. (found.log.stage ≡ Standing) × (found.log.tail ≡ [])) }
    ensures on { IfOk result (λ found. (batches : List (List ℕ)) × IsOn D.may_leave found.log disk.new batches) }
    ensures begun { IfOk result (λ found. (batches : List (List ℕ)) × IsOn D.may_leave found.log disk.new batches
        × Leaves D.may_leave disk.new Pages (λ area. IsMarkedBegun SLOTS (length found.replay.skips) area batches found.replay.cells found.marks)) }
    ensures marked { IfOk result (λ found. length found.marks ≡ length found.replay.skips) }
    ensures long { IfOk result (λ found. Leaves D.may_leave disk.new Pages (λ area. page_size SLOTS * length found.replay.skips ≤ length area)) }
    ensures pages { IfOk result (λ found. D.content disk.new Pages ≡ option_map (lengthened (page_size SLOTS * length found.replay.skips)) (D.content disk.old Pages)) }
    ensures long_enough { IfOk result (λ found. (area : List ℕ) → D.content disk.old Pages ≡ Some area → page_size SLOTS * length found.replay.skips ≤ length area
        → Keeps D.content D.may_leave disk.old disk.new Pages) }
    ensures settled { OnOk result (IsSettled D.content D.may_leave disk.new Pages) }
    ensures images { IfOk result (λ found. (image : Bytes) → Reads D.content disk.old image
        → EachImage D.may_leave disk.new (λ other. Opened SLOTS other (OpensTo found.replay.cells))) }
    ensures bounded { IfOk result (λ found. used found.log ≤ most_bytes) }
    ensures moments { (image : Bytes) (cells : List Cell) → Reads D.content disk.old image → Opened SLOTS image (OpensTo cells)
        → LeavesOnlyImages D.moment D.left_since disk.old disk.new (λ other. IsImage D.may_leave disk.old other ⊎ Opened SLOTS other (OpensTo cells)) }
    ensures undo { IfOk result (λ found. GetsUndo D.content SLOTS disk.old disk.new found.log) }
    ensures touches { IfOk result (λ found. TouchesOnly D.content D.may_leave D.moment D.left_since disk.old disk.new found.log.area) }
    ensures touches_refused { IfErr result (λ e. Touches D.content D.may_leave D.moment D.left_since disk.old disk.new) }
    ensures unwritten { IfErr result (λ e. IsLate e ⊎ IsLookedAt D.content D.may_leave D.moment D.left_since disk.old disk.new) }
    ensures only_looks { OnlyLooksUnlessOpen D.content D.may_leave D.moment D.left_since SLOTS disk.old disk.new }
    ensures cause { HasOpenCause (D.faults disk.old) (D.faults disk.new) result }
{
    let found = match open_cells::<D, SLOTS>(alloc, disk) {
        Ok(found) => found,
        Err(refusal) => return Err(refusal),
    };
    match lengthen(alloc, disk, pages_len(&found.replay)) {
        Ok(()) => Ok(found),
        Err(LengthRefusal::Disk) => Err(OpenRefusal::Disk),
        Err(LengthRefusal::Memory) => Err(OpenRefusal::Memory),
    }
}
