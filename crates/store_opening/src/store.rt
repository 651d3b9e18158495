//! The log and the pages of a store, read and not yet put together.
ghost use Rattle.std.specs.Prelude.{◌≡◌, [], length, IfOk, IfErr, OnOk};
ghost use Rattle.disk_model.specs.Areas.{Bytes};
ghost use Rattle.disk_model.specs.Told.{IsSettled};
ghost use Rattle.cell_page.specs.Format.{IsSlotCount};
ghost use Rattle.gate_log.specs.declared.stage.Stage.TheVariants.{Standing};
ghost use Rattle.gate_log.specs.State.{log_at};
ghost use Rattle.gate_log.specs.OnDisk.{IsRead};
ghost use Rattle.log_replay.specs.Inside.{AreStorePages};
ghost use Rattle.store_opening.specs.Looks.{IsLookedAt};
ghost use Rattle.store_opening.specs.Store.{Reads, Refuses, IsOfStore, IsFinal, IsStoreRead, HasOpenCause, refusal_of_log, refusal_of_pages};

use crate::areas::{named_area, sync_areas};
use crate::found::read_log;
use crate::open_refusal::{OpenRefusal, Place};
use crate::pages::{PagesRefusal, load_pages};
use crate::refusal::ReadRefusal;
use cell_page::Page;
use disk_model::{Area, Disk};
use gate_log::GateLog;
use std::alloc::Global;

/// What a disk holds of a store: its pages where they stand, and its log.
#[derive(Drop)]
pub struct FoundStore<const SLOTS: usize> {
    /// The log area that the super area names.
    pub area: Area,
    /// The pages in order. Where the log has an image of a page, a new page stands for it.
    pub pages: Vec<Page<SLOTS>>,
    /// For each page, how many images of it the log has.
    pub images: Vec<u32>,
    /// The log, which can be appended to.
    pub log: GateLog,
}

/// The refusal of a log in this area, as one of the store.
pub(crate) fn refusal_of_log(area: Area, refusal: ReadRefusal) -> OpenRefusal
    ensures { result ≡ refusal_of_log area refusal }
{
    match refusal {
        ReadRefusal::Disk => OpenRefusal::Disk,
        ReadRefusal::Damaged { at } => match area {
            Area::LogA => OpenRefusal::Damaged {
                place: Place::LogA,
                at,
            },
            _ => OpenRefusal::Damaged {
                place: Place::LogB,
                at,
            },
        },
        ReadRefusal::UnknownVersion { byte } => OpenRefusal::UnknownVersion { byte },
        ReadRefusal::Memory => OpenRefusal::Memory,
    }
}

/// The refusal of pages, as one of the store.
fn refusal_of_pages(refusal: PagesRefusal) -> OpenRefusal
    ensures { result ≡ refusal_of_pages refusal }
{
    match refusal {
        PagesRefusal::Disk => OpenRefusal::Disk,
        PagesRefusal::Damaged { page, at } => OpenRefusal::Damaged {
            place: Place::Page(page),
            at: at as u64,
        },
        PagesRefusal::Memory => OpenRefusal::Memory,
    }
}

/// Reads the log and the pages of the store that the disk holds, and does none of the log's records to the pages. The bodies
/// of the log's batches take the memory of the spare one.
///
/// Each refusal but [`OpenRefusal::Disk`] and [`OpenRefusal::Memory`] comes after all four areas were made to last, and is
/// what the disk opens to then, whatever a power loss does. It comes before any record of the log is tested on cells.
/// [`OpenRefusal::Disk`] comes only where the disk's count of faults rose in this call. Nothing is written.
pub fn read_store<D: Disk, const SLOTS: usize>(
    alloc: Global,
    disk: &mut D,
    spare: &mut Vec<u8>,
) -> Result<FoundStore<SLOTS>, OpenRefusal>
    requires count { IsSlotCount SLOTS }
    ensures read { IfOk result (λ store. (image : Bytes) → Reads D.content disk.old image
        → IsStoreRead D.may_leave SLOTS image store.pages.items store.images.items store.log disk.new) }
    ensures refused { (image : Bytes) → Reads D.content disk.old image → IfErr result (Refuses SLOTS image) }
    ensures for_good { IfErr result (λ e. IsOfStore e → IsFinal D.content D.may_leave SLOTS disk.new e) }
    ensures pages { IfOk result (λ store. AreStorePages store.pages.items × (length store.images.items ≡ length store.pages.items)) }
    ensures stands { IfOk result (λ store. (store.log.stage ≡ Standing) × (store.log.area ≡ store.area)) }
    ensures first { IfOk result (λ store. IsRead D.content D.may_leave (log_at store.area) disk.new []) }
    ensures settled { OnOk result ((area : _) → IsSettled D.content D.may_leave disk.new area) }
    ensures looks { IsLookedAt D.content D.may_leave D.moment D.left_since disk.old disk.new }
    ensures cause { HasOpenCause (D.faults disk.old) (D.faults disk.new) result }
{
    if sync_areas(disk).is_err() {
        return Err(OpenRefusal::Disk);
    }
    let area = match named_area(disk) {
        Ok(Some(area)) => area,
        Ok(None) => return Err(OpenRefusal::NoStore),
        Err(_) => return Err(OpenRefusal::Disk),
    };
    let found = match read_log::<D, SLOTS>(alloc, disk, area, spare) {
        Ok(found) => found,
        Err(refusal) => return Err(refusal_of_log(area, refusal)),
    };
    match load_pages(alloc, disk, &found.images) {
        Ok(pages) => Ok(FoundStore {
            area,
            pages,
            images: found.images,
            log: found.log,
        }),
        Err(refusal) => Err(refusal_of_pages(refusal)),
    }
}
