//! The log of a store, read for what it tells of itself: its records fit one another.
ghost use Rattle.std.specs.Prelude.{◌≡◌, ◌≢◌, ◌-◌, ◌<◌, ◌≤◌, ℕ, List, [], ◌∷◌, length, map, replicate, IfOk, IfErr, IfSome, IsErrOf};
ghost use Rattle.cell_page.specs.Format.{IsSlotCount};
ghost use Rattle.gate_log.specs.declared.stage.Stage.TheVariants.{Reading, Standing};
ghost use Rattle.gate_log.specs.State.{IsLogArea, log_at};
ghost use Rattle.gate_log.specs.OnDisk.{IsRead};
ghost use Rattle.log_replay.specs.Inside.{AreStorePages};
ghost use Rattle.opened_images.specs.LogRecords.{IsOfVersion, IsDamagedLog};
ghost use Rattle.page_marks.specs.Marks.{unmarked};
ghost use Rattle.store_opening.specs.declared.refusal.ReadRefusal.TheVariants.{Damaged, UnknownVersion};
ghost use Rattle.store_opening.specs.Refusals.{IsCaused};
ghost use Rattle.store_opening.specs.Looks.{IsLookedAt};
ghost use Rattle.store_opening.specs.Walks.{IsWaiting, most_images};
ghost use Rattle.store_opening.specs.Found.{HasFirst, HasFound};

use crate::first::first_pages;
use crate::refusal::{ReadRefusal, told};
use crate::walk::{Walk, walk_log};
use cell_page::Page;
use disk_model::{Area, Disk};
use gate_log::GateLog;
use log_replay::Replay;
use page_marks::PageMarks;
use std::alloc::{AllocError, Global};

/// The log of a store, where its records fit one another.
#[derive(Drop)]
pub struct FoundLog {
    /// How many pages the store has.
    pub pages: u16,
    /// For each page, how many images of it the log has.
    pub images: Vec<u32>,
    /// The log, which can be appended to.
    pub log: GateLog,
}

/// Reads the first batch of a log, and answers how many pages the store has. Its body takes the memory of the spare one.
pub(crate) fn read_first<D: Disk, const SLOTS: usize>(
    log: &mut GateLog,
    disk: &mut D,
    spare: &mut Vec<u8>,
) -> Result<u16, ReadRefusal>
    requires count { IsSlotCount SLOTS }
    requires reading { log.old.stage ≡ Reading }
    requires first { IsRead D.content D.may_leave log.old disk.old [] }
    ensures first { IfOk result (λ pages. HasFirst D.content D.may_leave SLOTS pages log.new disk.new) }
    ensures version { (byte : ℕ) → IsErrOf result (UnknownVersion byte) → IfSome (D.content disk.old log.old.area) (IsOfVersion SLOTS byte) }
    ensures damaged { (at : ℕ) → IsErrOf result (Damaged at) → IfSome (D.content disk.old log.old.area) (λ bytes. IsDamagedLog SLOTS bytes at) }
    ensures reading { IfOk result (λ pages. log.new.stage ≡ Reading) }
    ensures area { log.new.area ≡ log.old.area }
    ensures tail { log.new.tail ≡ log.old.tail }
    ensures looks { IsLookedAt D.content D.may_leave D.moment D.left_since disk.old disk.new }
    ensures cause { IsCaused (D.faults disk.old) (D.faults disk.new) result }
{
    match log.next_batch(disk, spare) {
        Ok(Some(body)) => first_pages::<SLOTS>(&body),
        Ok(None) => Err(ReadRefusal::Damaged { at: 0 }),
        Err(refusal) => Err(told(refusal)),
    }
}

/// So many pages as they are in a new store, which stand for those that are not looked at.
fn placeholders<const SLOTS: usize>(
    alloc: Global,
    pages: u16,
) -> Result<Vec<Page<SLOTS>>, AllocError>
    requires count { IsSlotCount SLOTS }
    requires pages { (1 ≤ pages) × (pages ≤ 1024) }
    ensures pages { IfOk result (λ held. AreStorePages held.items) }
    ensures number { IfOk result (λ held. length held.items ≡ pages) }
{
    let mut held = Vec::new(alloc);
    for page in 0..pages {
        held.push(Page::fresh(page))?;
    }
    Ok(held)
}

/// A walk over the log of a store of so many pages, whose replay leaves all cells alone.
fn waiting<const SLOTS: usize>(alloc: Global, pages: u16) -> Result<Walk<SLOTS>, AllocError>
    requires count { IsSlotCount SLOTS }
    requires pages { (1 ≤ pages) × (pages ≤ 1024) }
    ensures waits { IfOk result (λ walk. IsWaiting pages walk.replay) }
    ensures same { IfOk result (λ walk. walk.awaited.items ≡ walk.replay.skips) }
    ensures none { IfOk result (λ walk. walk.marks ≡ replicate pages unmarked) }
{
    let held = placeholders::<SLOTS>(alloc, pages)?;
    let skip = vec![in alloc; u32::MAX; pages as usize]?;
    let awaited = vec![in alloc; u32::MAX; pages as usize]?;
    let marks = PageMarks::new(alloc, pages)?;
    Ok(Walk {
        replay: Replay::over(alloc, held, skip),
        awaited,
        marks,
    })
}

/// How many images of each page a walk found that awaited as many as it could.
fn images_found(alloc: Global, awaited: &[u32]) -> Result<Vec<u32>, AllocError>
    ensures { IfOk result (λ images. images.items ≡ map (λ left. most_images - left) awaited.now) }
{
    awaited.iter().map(|left| u32::MAX - *left).collect(alloc)
}

/// Reads the log of a store in this area, before any of its records is done to a page. The bodies of its batches take the
/// memory of the spare one.
///
/// At `Ok` the area is a log whose records fit one another, and the log stands on the disk with its batches. Of an area
/// that is told, [`ReadRefusal::UnknownVersion`] and [`ReadRefusal::Damaged`] come exactly where it has a version that
/// isn't known or is damaged, and tell the byte and the place. [`ReadRefusal::Disk`] comes only where the disk's count of
/// faults rose in this call.
pub fn read_log<D: Disk, const SLOTS: usize>(
    alloc: Global,
    disk: &mut D,
    area: Area,
    spare: &mut Vec<u8>,
) -> Result<FoundLog, ReadRefusal>
    requires count { IsSlotCount SLOTS }
    requires first { IsRead D.content D.may_leave (log_at area) disk.old [] }
    ensures found { IfOk result (λ found. HasFound D.content D.may_leave SLOTS found.pages found.images.items found.log disk.new) }
    ensures stands { IfOk result (λ found. (found.log.stage ≡ Standing) × (found.log.area ≡ area)) }
    ensures version { (byte : ℕ) → IsErrOf result (UnknownVersion byte) → IfSome (D.content disk.old area) (IsOfVersion SLOTS byte) }
    ensures damaged { (at : ℕ) → IsErrOf result (Damaged at) → IfSome (D.content disk.old area) (λ bytes. IsDamagedLog SLOTS bytes at) }
    ensures looks { IsLookedAt D.content D.may_leave D.moment D.left_since disk.old disk.new }
    ensures cause { IsCaused (D.faults disk.old) (D.faults disk.new) result }
{
    let mut log = GateLog::start(alloc, area);
    let pages = read_first::<D, SLOTS>(&mut log, disk, spare)?;
    let mut walk = waiting::<SLOTS>(alloc, pages)?;
    if let Err(refusal) = walk_log(&mut log, disk, &mut walk, spare) {
        return Err(refusal);
    }
    let images = images_found(alloc, &walk.awaited)?;
    Ok(FoundLog { pages, images, log })
}
