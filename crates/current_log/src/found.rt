//! The current log of a store.
ghost use Rattle.std.specs.Prelude.{◌≡◌, ◌+◌, ◌≤◌, ◌^◌, ◌<◌, ℕ, length, IfOk, IfErr, IfSome, OnOk};
ghost use Rattle.disk_model.specs.Areas.{Bytes};
ghost use Rattle.disk_model.specs.Causes.{HasCause};
ghost use Rattle.disk_model.specs.declared.area.Area.TheVariants.{Super};
ghost use Rattle.cell_page.specs.Format.{IsSlotCount};
ghost use Rattle.gate_log.specs.State.{IsLogArea};
ghost use Rattle.gate_log.specs.OnDisk.{named_by};
ghost use Rattle.store_opening.specs.Looks.{IsLookedAt};
ghost use Rattle.store_opening.specs.Store.{Reads, HasOpenCause};
ghost use Rattle.gate_log.specs.declared.refusal.LogRefusal.TheVariants.{LogFull};
ghost use Rattle.opened_images.specs.LogRecords.{body_of, first_records, BeginsWithBody};
ghost use Rattle.current_log.specs.Tested.{IsTestedLog};
ghost use Rattle.current_log.specs.Window.{IsWindow};
ghost use Rattle.current_log.specs.Current.{HasCurrentLog, RefusesLog, RefusesLogIn, IsOfLog, damaged_in, refusal_in};

use crate::batch::read_batch;
use crate::first::{FirstRefusal, first_pages};
use crate::testing::{replay_of_tests, test_batches};
use crate::window::Window;
use disk_model::{Area, Disk, DiskFailed};
use gate_log::LogRefusal;
use std::alloc::{AllocError, Global};
use store_opening::{OpenRefusal, Place};

/// The current log of a store.
#[derive(Clone, Copy, Debug, PartialEq, Eq)]
pub struct FoundLog {
    /// The log area that the super area names.
    pub area: Area,
    /// How many pages the store has.
    pub pages: u16,
    /// How many bytes the log has, up to and with its closed commit byte.
    pub len: u64,
}

/// Where the batch after the first one begins, which is one `Turn` of four bytes.
const FIRST_END: u64 = 9;

/// The log area that the super area names, or nothing where the super area is empty: then there is no store.
fn named_area<D: Disk>(disk: &mut D) -> Result<Option<Area>, DiskFailed>
    ensures named { IfOk result (λ named. IfSome (D.content disk.old Super) (λ bytes. named ≡ named_by bytes)) }
    ensures area { IfOk result (λ named. IfSome named IsLogArea) }
    ensures looks { IsLookedAt D.content D.may_leave D.moment D.left_since disk.old disk.new }
    ensures cause { HasCause (D.faults disk.old) (D.faults disk.new) result }
{
    let len = disk.len(Area::Super)?;
    if len == 0 {
        return Ok(None);
    }
    let mut byte = [0];
    disk.read_at(Area::Super, 0, &mut byte)?;
    if byte[0] % 2 == 0 {
        Ok(Some(Area::LogA))
    } else {
        Ok(Some(Area::LogB))
    }
}

/// The refusal of a log in this area at this place.
fn damaged(area: Area, at: u64) -> OpenRefusal
    ensures value { result ≡ damaged_in area at }
    ensures of_log { IsOfLog result }
{
    match area {
        Area::LogA => OpenRefusal::Damaged {
            place: Place::LogA,
            at,
        },
        _ => OpenRefusal::Damaged {
            place: Place::LogB,
            at,
        },
    }
}

/// The refusal of a batch of the log in this area, as one of the store.
fn refusal_in(area: Area, refusal: LogRefusal) -> OpenRefusal
    requires { (used : ℕ) → refusal ≡ LogFull used → ⊥ }
    ensures value { result ≡ refusal_in area refusal }
    ensures of_log { IsOfLog result }
{
    match refusal {
        LogRefusal::Disk => OpenRefusal::Disk,
        LogRefusal::Damaged { at } => damaged(area, at),
        LogRefusal::Memory => OpenRefusal::Memory,
        LogRefusal::LogFull { .. } => unreachable!(),
    }
}

/// Tests the first batch of the log in this area, and answers how many pages the store has. Its body takes the memory of the spare
/// one.
fn test_first<D: Disk, const SLOTS: usize>(
    alloc: Global,
    disk: &mut D,
    area: Area,
    window: &mut Window,
    spare: &mut Vec<u8>,
) -> Result<u16, OpenRefusal>
    requires count { IsSlotCount SLOTS }
    requires window { IsWindow (D.content disk.old area) window.old }
    ensures few { IfOk result (λ pages. (1 ≤ pages) × (pages ≤ 1024)) }
    ensures first { IfOk result (λ pages. IfSome (D.content disk.old area) (BeginsWithBody (body_of (first_records SLOTS pages)))) }
    ensures window { OnOk result (IsWindow (D.content disk.new area) window.new) }
    ensures refused { IfErr result (λ e. IfSome (D.content disk.old area) (RefusesLogIn SLOTS area e)) }
    ensures of_log { IfErr result IsOfLog }
    ensures looks { IsLookedAt D.content D.may_leave D.moment D.left_since disk.old disk.new }
    ensures cause { HasOpenCause (D.faults disk.old) (D.faults disk.new) result }
{
    match read_batch(alloc, disk, area, window, 0, spare) {
        Ok(Some(body)) => match first_pages::<SLOTS>(&body) {
            Ok(pages) => Ok(pages),
            Err(FirstRefusal::Damaged { at }) => Err(damaged(area, at)),
            Err(FirstRefusal::UnknownVersion { byte }) => {
                Err(OpenRefusal::UnknownVersion { byte })
            }
        },
        Ok(None) => Err(damaged(area, 0)),
        Err(refusal) => Err(refusal_in(area, refusal)),
    }
}

/// Tests the log in this area.
fn test_log<D: Disk, const SLOTS: usize>(
    alloc: Global,
    disk: &mut D,
    area: Area,
) -> Result<FoundLog, OpenRefusal>
    requires count { IsSlotCount SLOTS }
    ensures found { IfOk result (λ f. (f.area ≡ area) × IfSome (D.content disk.old area) (IsTestedLog SLOTS f.pages f.len)) }
    ensures refused { IfErr result (λ e. IfSome (D.content disk.old area) (RefusesLogIn SLOTS area e)) }
    ensures of_log { IfErr result IsOfLog }
    ensures looks { IsLookedAt D.content D.may_leave D.moment D.left_since disk.old disk.new }
    ensures cause { HasOpenCause (D.faults disk.old) (D.faults disk.new) result }
{
    let mut spare = Vec::new(alloc);
    let mut window = Window::new();
    let pages = match test_first::<D, SLOTS>(alloc, disk, area, &mut window, &mut spare) {
        Ok(pages) => pages,
        Err(refusal) => return Err(refusal),
    };
    let mut replay = match replay_of_tests::<SLOTS>(alloc, pages) {
        Ok(replay) => replay,
        Err(AllocError) => return Err(OpenRefusal::Memory),
    };
    match test_batches(
        alloc,
        disk,
        area,
        &mut window,
        FIRST_END,
        pages,
        &mut replay,
        &mut spare,
    ) {
        Ok(len) => Ok(FoundLog { area, pages, len }),
        Err(refusal) => Err(refusal_in(area, refusal)),
    }
}

/// Finds the current log of the store that the disk holds, and tests it as an opening does before it looks at a page: the super
/// area, the area's length, the first batch, the version, and whether each record of each batch may stand there. No cell is tested,
/// nothing is written, and nothing is made to last. It takes the memory of one batch, of the writes that have not ended, and of the
/// pages of a new store.
///
/// [`OpenRefusal::NoStore`], [`OpenRefusal::UnknownVersion`] and [`OpenRefusal::Damaged`] of a log area come exactly as an opening
/// refuses what the disk reads. [`OpenRefusal::Disk`] comes only where the disk's count of faults rose in this call. The only other
/// refusal is [`OpenRefusal::Memory`]. Where the super area is empty no other area is touched.
pub fn find_log<D: Disk, const SLOTS: usize>(
    alloc: Global,
    disk: &mut D,
) -> Result<FoundLog, OpenRefusal>
    requires count { IsSlotCount SLOTS }
    ensures found { IfOk result (λ f. (image : Bytes) → Reads D.content disk.old image → HasCurrentLog SLOTS image f.area f.pages f.len) }
    ensures refused { IfErr result (λ e. (image : Bytes) → Reads D.content disk.old image → RefusesLog SLOTS image e) }
    ensures of_log { IfErr result IsOfLog }
    ensures area { IfOk result (λ f. IsLogArea f.area) }
    ensures within { IfOk result (λ f. IfSome (D.content disk.new f.area) (λ c. f.len ≤ length c)) }
    ensures looks { IsLookedAt D.content D.may_leave D.moment D.left_since disk.old disk.new }
    ensures cause { HasOpenCause (D.faults disk.old) (D.faults disk.new) result }
{
    let area = match named_area(disk) {
        Ok(Some(area)) => area,
        Ok(None) => return Err(OpenRefusal::NoStore),
        Err(_) => return Err(OpenRefusal::Disk),
    };
    test_log::<D, SLOTS>(alloc, disk, area)
}
