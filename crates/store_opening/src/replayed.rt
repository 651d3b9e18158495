//! The log of a store, replayed over its pages.
ghost use Rattle.std.specs.Prelude.{◌≡◌, ℕ, [], ◌∷◌, length, IfOk, IfSome, IsErrOf};
ghost use Rattle.cell_page.specs.Format.{IsSlotCount};
ghost use Rattle.gate_log.specs.declared.stage.Stage.TheVariants.{Standing};
ghost use Rattle.gate_log.specs.State.{log_at};
ghost use Rattle.gate_log.specs.OnDisk.{IsRead, IsOn};
ghost use Rattle.log_replay.specs.Inside.{AreStorePages};
ghost use Rattle.disk_model.specs.Areas.{Bytes};
ghost use Rattle.opened_images.specs.LogRecords.{body_of, bodies_of, all_of, first_records, IsOfVersion};
ghost use Rattle.opened_images.specs.Opened.{Opened, DamagedLog};
ghost use Rattle.page_marks.specs.Marks.{AreMarks};
ghost use Rattle.store_opening.specs.declared.refusal.ReadRefusal.TheVariants.{Damaged, UnknownVersion};
ghost use Rattle.store_opening.specs.Refusals.{IsCaused};
ghost use Rattle.store_opening.specs.Looks.{IsLookedAt};
ghost use Rattle.store_opening.specs.Replayed.{replay_start, HasReplayed, StopsReplay, IsReady, IsReplayed};
ghost use Rattle.store_opening.specs.Store.{Reads};

use crate::found::read_first;
use crate::refusal::ReadRefusal;
use crate::walk::{Walk, walk_log};
use cell_page::Page;
use disk_model::{Area, Disk};
use gate_log::GateLog;
use log_replay::Replay;
use page_marks::PageMarks;
use std::alloc::Global;

/// A log that was replayed over the pages of a store.
#[derive(Drop)]
pub struct ReplayedLog<const SLOTS: usize> {
    /// The pages after the log, and what has not ended.
    pub replay: Replay<SLOTS>,
    /// The log, which can be appended to.
    pub log: GateLog,
    /// For each page, what the records of the log tell of it.
    pub marks: PageMarks,
}

/// Does the records of the log in this area to the pages, one after another. Of each page the log has so many images. The
/// bodies of its batches take the memory of the spare one.
///
/// Of an area that is told, [`ReadRefusal::Damaged`] tells where the first record stands that doesn't fit what came before
/// it, its cells too, or where the area stops to be a log, whichever comes first. [`ReadRefusal::Disk`] comes only where the
/// disk's count of faults rose in this call.
pub fn replay_log<D: Disk, const SLOTS: usize>(
    alloc: Global,
    disk: &mut D,
    area: Area,
    pages: Vec<Page<SLOTS>>,
    images: Vec<u32>,
    spare: &mut Vec<u8>,
) -> Result<ReplayedLog<SLOTS>, ReadRefusal>
    requires count { IsSlotCount SLOTS }
    requires pages { AreStorePages pages.items }
    requires images { length images.items ≡ length pages.items }
    requires first { IsRead D.content D.may_leave (log_at area) disk.old [] }
    ensures done { IfOk result (λ done. HasReplayed D.content D.may_leave SLOTS (replay_start pages.entry.items images.items) done.replay done.marks done.log disk.new) }
    ensures stands { IfOk result (λ done. (done.log.stage ≡ Standing) × (done.log.area ≡ area) × (done.log.tail ≡ [])) }
    ensures version { (byte : ℕ) → IsErrOf result (UnknownVersion byte) → IfSome (D.content disk.old area) (IsOfVersion SLOTS byte) }
    ensures damaged { (at : ℕ) → IsErrOf result (Damaged at) → IfSome (D.content disk.old area) (StopsReplay SLOTS (replay_start pages.entry.items images.items) at) }
    ensures replayed { IfOk result (λ done. (image : Bytes) → Reads D.content disk.old image
        → (ready : IsReady SLOTS image area pages.entry.items images.items) → IsReplayed SLOTS image area ready.count ready.batches done.replay) }
    ensures on { IfOk result (λ done. (image : Bytes) → Reads D.content disk.old image → (ready : IsReady SLOTS image area pages.entry.items images.items)
        → IsOn D.may_leave done.log disk.new (body_of (first_records SLOTS ready.count) ∷ bodies_of ready.batches)) }
    ensures marked { IfOk result (λ done. (image : Bytes) → Reads D.content disk.old image → (ready : IsReady SLOTS image area pages.entry.items images.items)
        → AreMarks (all_of ready.batches) done.marks) }
    ensures as_many { IfOk result (λ done. length done.marks ≡ length done.replay.skips) }
    ensures unfit { (at : ℕ) → IsErrOf result (Damaged at) → (image : Bytes) → Reads D.content disk.old image
        → IsReady SLOTS image area pages.entry.items images.items → Opened SLOTS image (DamagedLog area at) }
    ensures looks { IsLookedAt D.content D.may_leave D.moment D.left_since disk.old disk.new }
    ensures cause { IsCaused (D.faults disk.old) (D.faults disk.new) result }
{
    let awaited = Vec::from_slice(alloc, &images)?;
    let marks = PageMarks::new(alloc, pages.len() as u16)?;
    let mut log = GateLog::start(alloc, area);
    if let Err(refusal) = read_first::<D, SLOTS>(&mut log, disk, spare) {
        return Err(refusal);
    }
    let mut walk = Walk {
        replay: Replay::over(alloc, pages, images),
        awaited,
        marks,
    };
    if let Err(refusal) = walk_log(&mut log, disk, &mut walk, spare) {
        return Err(refusal);
    }
    Ok(ReplayedLog {
        replay: walk.replay,
        log,
        marks: walk.marks,
    })
}
