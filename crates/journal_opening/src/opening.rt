//! The opening of a store.
ghost use Rattle.std.specs.Prelude.{◌≡◌, IfOk, IfErr};
ghost use Rattle.cell_page.specs.Format.{IsSlotCount};
ghost use Rattle.core_store.specs.Limited.{AreLimits};
ghost use Rattle.journal_opening.specs.Openings.{HasBegun, HasFault, OpensAs, RefusesToOpen, OpensMeanwhile};
ghost use Rattle.disk_model.specs.Areas.{Bytes};
ghost use Rattle.opened_store.specs.Touched.{TouchesOnly, Touches, GetsUndo};
ghost use Rattle.opened_store.specs.Unopened.{OnlyLooksUnlessOpen};
ghost use Rattle.store_opening.specs.Room.{LacksRoom};
ghost use Rattle.store_opening.specs.Store.{Reads, HasOpenCause};

use crate::frames::frames_of;
use core_store::{Frame, Limits};
use disk_model::Disk;
use framed_journal::FramedJournal;
use gate_log::GateLog;
use opened_store::open_store;
use page_marks::PageMarks;
use std::alloc::Global;
use store_opening::{OpenRefusal, ReplayedLog};

/// Opens the store that the disk holds, and lays its pages into frames. The log comes with the marks of the pages.
fn open_frames<D: Disk, const SLOTS: usize>(
    alloc: Global,
    disk: &mut D,
) -> Result<(Vec<Frame<SLOTS>>, GateLog, PageMarks), OpenRefusal>
    requires count { IsSlotCount SLOTS }
    ensures begun { IfOk result (λ r. HasBegun D.content D.may_leave SLOTS disk.old disk.new r.0.items r.1 r.2) }
    ensures refused { IfErr result (λ e. RefusesToOpen D.content D.may_leave D.moment D.left_since SLOTS disk.old e disk.new) }
    ensures room { IfOk result (λ r. (image : Bytes) → Reads D.content disk.old image → LacksRoom SLOTS image → ⊥) }
    ensures undo { IfOk result (λ r. GetsUndo D.content SLOTS disk.old disk.new r.1) }
    ensures touches { IfOk result (λ r. TouchesOnly D.content D.may_leave D.moment D.left_since disk.old disk.new r.1.area) }
    ensures touches_refused { IfErr result (λ e. Touches D.content D.may_leave D.moment D.left_since disk.old disk.new) }
    ensures moments { OpensMeanwhile D.content D.may_leave D.moment D.left_since SLOTS disk.old disk.new }
    ensures only_looks { OnlyLooksUnlessOpen D.content D.may_leave D.moment D.left_since SLOTS disk.old disk.new }
    ensures cause { HasOpenCause (D.faults disk.old) (D.faults disk.new) result }
{
    let found = match open_store::<D, SLOTS>(alloc, disk) {
        Ok(found) => found,
        Err(refusal) => return Err(refusal),
    };
    let ReplayedLog { replay, log, marks } = found;
    let pages = replay.into_pages();
    match frames_of(alloc, &pages) {
        Ok(frames) => Ok((frames, log, marks)),
        Err(_) => Err(OpenRefusal::Memory),
    }
}

/// Opens the store that the disk holds, as a journal with its log and all its frames. Where it isn't opened the disk is
/// handed back.
///
/// What the log tells is done to the pages, and what had not ended is undone for good. No transaction is active then, and
/// the collector has to look at each object but the root that no strong pointer leads to.
///
/// Of a disk that is told, the opening is what its four areas open to. Each refusal but [`OpenRefusal::Disk`] and
/// [`OpenRefusal::Memory`] comes after all four were made to last, and is what the disk opens to then; before it nothing is
/// written. Whatever a power loss leaves at each moment of the call is what it may have left before, or opens to the same
/// cells. Nothing is written where what the disk reads does not open, whatever is answered. [`OpenRefusal::Disk`] comes only
/// where the disk's count of faults rose in this call, and at each other answer that count is as before.
/// [`OpenRefusal::LogFull`] comes exactly where the store opens but its log has no room for the batch of the undo, and for two
/// commit bytes and a length after it. [`OpenRefusal::Memory`] comes for want of memory.
///
/// The log area that the super area names gets the batch of the undo, where there is something to undo, and the pages area
/// may become longer. The super area and the other log area stay as they were, at each moment.
pub fn open<D: Disk, const SLOTS: usize>(
    alloc: Global,
    disk: D,
    limits: Limits,
) -> Result<FramedJournal<SLOTS, D>, (OpenRefusal, D)>
    requires count { IsSlotCount SLOTS }
    requires limits { AreLimits limits }
    ensures opened { IfOk result (λ v. OpensAs D.content D.faults SLOTS disk limits v) }
    ensures meanwhile { IfOk result (λ v. OpensMeanwhile D.content D.may_leave D.moment D.left_since SLOTS disk v.disk) }
    ensures refused { IfErr result (λ e. RefusesToOpen D.content D.may_leave D.moment D.left_since SLOTS disk e.0 e.1) }
    ensures meanwhile_refused { IfErr result (λ e. OpensMeanwhile D.content D.may_leave D.moment D.left_since SLOTS disk e.1) }
    ensures room { IfOk result (λ v. (image : Bytes) → Reads D.content disk image → LacksRoom SLOTS image → ⊥) }
    ensures undo { IfOk result (λ v. GetsUndo D.content SLOTS disk v.disk v.log) }
    ensures touches { IfOk result (λ v. TouchesOnly D.content D.may_leave D.moment D.left_since disk v.disk v.log.area) }
    ensures touches_refused { IfErr result (λ e. Touches D.content D.may_leave D.moment D.left_since disk e.1) }
    ensures fault { IfErr result (λ e. HasFault (D.faults disk) (D.faults e.1) e.0) }
{
    let mut disk = disk;
    let (frames, log, marks) = match open_frames::<D, SLOTS>(alloc, &mut disk) {
        Ok(opened) => opened,
        Err(refusal) => return Err((refusal, disk)),
    };
    match FramedJournal::resume(alloc, disk, log, marks, frames, limits) {
        Ok(journal) => Ok(journal),
        Err((_, disk)) => Err((OpenRefusal::Memory, disk)),
    }
}
