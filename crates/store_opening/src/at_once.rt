//! A store that one walk over its log opens, since the log has no image of a page.
ghost use Rattle.std.specs.Prelude.{◌≡◌, ◌⊎◌, ℕ, List, [], Some, length, IfOk, IfErr, IfSome, OnOk};
ghost use Rattle.disk_model.specs.Areas.{Bytes};
ghost use Rattle.disk_model.specs.Told.{IsSettled};
ghost use Rattle.cell_page.specs.Format.{IsSlotCount};
ghost use Rattle.gate_log.specs.OnDisk.{IsOn, IsRead, named_by};
ghost use Rattle.gate_log.specs.State.{log_at};
ghost use Rattle.gate_log.specs.declared.stage.Stage.TheVariants.{Standing};
ghost use Rattle.log_replay.specs.Finishes.{AreNoneAwaited};
ghost use Rattle.store_opening.specs.declared.refusal.ReadRefusal.TheVariants.{Disk as ReadDisk};
ghost use Rattle.store_opening.specs.declared.open_refusal.OpenRefusal.TheVariants.{Disk, Memory};
ghost use Rattle.store_opening.specs.declared.pages.PagesRefusal.TheVariants.{Disk as PagesDisk};
ghost use Rattle.store_opening.specs.Looks.{IsLookedAt};
ghost use Rattle.store_opening.specs.Loaded.{IsNoPagesFault};
ghost use Rattle.store_opening.specs.Refusals.{IsCaused, IsNoFault};
ghost use Rattle.store_opening.specs.Store.{Reads, AreCellsFound, HasOpenCause};

use crate::areas::{named_area, sync_areas};
use crate::found::read_first;
use crate::open_refusal::OpenRefusal;
use crate::pages::{PagesRefusal, load_pages};
use crate::refusal::ReadRefusal;
use crate::replayed::ReplayedLog;
use crate::walk::{Walk, walk_log};
use disk_model::{Area, Disk};
use gate_log::GateLog;
use log_replay::Replay;
use page_marks::PageMarks;
use std::alloc::Global;

/// The refusal of pages, as one of a walk. Its place tells nothing.
fn of_pages(refusal: PagesRefusal) -> ReadRefusal
    ensures { (result ≡ ReadDisk → refusal ≡ PagesDisk) × (IsNoFault result → IsNoPagesFault refusal) }
{
    match refusal {
        PagesRefusal::Disk => ReadRefusal::Disk,
        PagesRefusal::Damaged { .. } => ReadRefusal::Damaged { at: 0 },
        PagesRefusal::Memory => ReadRefusal::Memory,
    }
}

/// Does the records of the log in this area to the pages that stand in place, in one walk. The bodies of its batches take the
/// memory of the spare one.
///
/// [`ReadRefusal::Disk`] comes only where the disk's count of faults rose in this call. A refusal but this one and
/// [`ReadRefusal::Memory`] tells only that one walk is not enough: the log has an image, or something is damaged.
fn replay_in_place<D: Disk, const SLOTS: usize>(
    alloc: Global,
    disk: &mut D,
    area: Area,
    spare: &mut Vec<u8>,
) -> Result<ReplayedLog<SLOTS>, ReadRefusal>
    requires count { IsSlotCount SLOTS }
    requires first { IsRead D.content D.may_leave (log_at area) disk.old [] }
    ensures read { IfOk result (λ found. (image : Bytes) → Reads D.content disk.old image → named_by image.super_area ≡ Some area
        → AreCellsFound D.may_leave SLOTS image found.replay found.marks found.log disk.new) }
    ensures on { IfOk result (λ found. (batches : List (List ℕ)) × IsOn D.may_leave found.log disk.new batches) }
    ensures as_many { IfOk result (λ found. length found.marks ≡ length found.replay.skips) }
    ensures whole { IfOk result (λ found. AreNoneAwaited found.replay.skips) }
    ensures stands { IfOk result (λ found. (found.log.stage ≡ Standing) × (found.log.tail ≡ [])) }
    ensures looks { IsLookedAt D.content D.may_leave D.moment D.left_since disk.old disk.new }
    ensures cause { IsCaused (D.faults disk.old) (D.faults disk.new) result }
{
    let mut log = GateLog::start(alloc, area);
    let count = match read_first::<D, SLOTS>(&mut log, disk, spare) {
        Ok(count) => count,
        Err(refusal) => return Err(refusal),
    };
    let images = vec![in alloc; 0; count as usize]?;
    let awaited = vec![in alloc; 0; count as usize]?;
    let marks = PageMarks::new(alloc, count)?;
    let pages = match load_pages(alloc, disk, &images) {
        Ok(pages) => pages,
        Err(refusal) => return Err(of_pages(refusal)),
    };
    let mut walk = Walk {
        replay: Replay::over(alloc, pages, images),
        awaited,
        marks,
    };
    if let Err(refusal) = walk_log(&mut log, disk, &mut walk, spare) {
        return Err(refusal);
    }
    if !walk.replay.has_all_images() {
        return Err(ReadRefusal::Damaged { at: 0 });
    }
    Ok(ReplayedLog {
        replay: walk.replay,
        log,
        marks: walk.marks,
    })
}

/// Reads the store that the disk holds, and does the records of its log to its pages, where one walk over the log is enough:
/// it has no image of a page, and nothing is damaged and no record unfit. Else nothing is answered, and the store is to be read
/// in the order of its tests.
///
/// [`OpenRefusal::Disk`] comes only where the disk's count of faults rose in this call; [`OpenRefusal::Memory`] is the only other
/// refusal. Nothing is written.
pub(crate) fn cells_at_once<D: Disk, const SLOTS: usize>(
    alloc: Global,
    disk: &mut D,
    spare: &mut Vec<u8>,
) -> Result<Option<ReplayedLog<SLOTS>>, OpenRefusal>
    requires count { IsSlotCount SLOTS }
    ensures read { IfOk result (λ done. IfSome done (λ found. (image : Bytes) → Reads D.content disk.old image
        → AreCellsFound D.may_leave SLOTS image found.replay found.marks found.log disk.new)) }
    ensures on { IfOk result (λ done. IfSome done (λ found. (batches : List (List ℕ)) × IsOn D.may_leave found.log disk.new batches)) }
    ensures as_many { IfOk result (λ done. IfSome done (λ found. length found.marks ≡ length found.replay.skips)) }
    ensures whole { IfOk result (λ done. IfSome done (λ found. AreNoneAwaited found.replay.skips)) }
    ensures stands { IfOk result (λ done. IfSome done (λ found. (found.log.stage ≡ Standing) × (found.log.tail ≡ []))) }
    ensures settled { OnOk result ((area : _) → IsSettled D.content D.may_leave disk.new area) }
    ensures refusals { IfErr result (λ e. (e ≡ Disk) ⊎ (e ≡ Memory)) }
    ensures looks { IsLookedAt D.content D.may_leave D.moment D.left_since disk.old disk.new }
    ensures cause { HasOpenCause (D.faults disk.old) (D.faults disk.new) result }
{
    if sync_areas(disk).is_err() {
        return Err(OpenRefusal::Disk);
    }
    let area = match named_area(disk) {
        Ok(Some(area)) => area,
        Ok(None) => return Ok(None),
        Err(_) => return Err(OpenRefusal::Disk),
    };
    match replay_in_place::<D, SLOTS>(alloc, disk, area, spare) {
        Ok(found) => Ok(Some(found)),
        Err(ReadRefusal::Disk) => Err(OpenRefusal::Disk),
        Err(ReadRefusal::Memory) => Err(OpenRefusal::Memory),
        Err(ReadRefusal::Damaged { .. }) => Ok(None),
        Err(ReadRefusal::UnknownVersion { .. }) => Ok(None),
    }
}
