//! The log in one area, tested batch by batch.
ghost use Rattle.std.specs.Prelude.{◌≡◌, ◌⊎◌, ◌+◌, ◌<◌, ◌≤◌, ◌^◌, ℕ, [], length, IfOk, IfErr, IfSome, OnOk, IsErrOf, MatchOption};
ghost use Rattle.cell_page.specs.Format.{IsSlotCount};
ghost use Rattle.gate_log.specs.declared.refusal.LogRefusal.TheVariants.{Disk, Damaged, Memory};
ghost use Rattle.gate_log.specs.Batches.{most_bytes};
ghost use Rattle.gate_log.specs.CommitBytes.{IsCaused};
ghost use Rattle.log_replay.specs.Inside.{AreStorePages};
ghost use Rattle.opened_images.specs.LogRecords.{IsDamagedLog};
ghost use Rattle.store_opening.specs.Looks.{IsLookedAt};
ghost use Rattle.current_log.specs.Tested.{IsTesting, HasTested, IsTestedLog};
ghost use Rattle.current_log.specs.Window.{IsWindow};

use crate::batch::read_batch;
use crate::records::test_records;
use crate::window::Window;
use cell_page::Page;
use disk_model::{Area, Disk};
use gate_log::LogRefusal;
use log_replay::Replay;
use std::alloc::{AllocError, Global};

/// So many pages as they are in a new store, which stand for those that are not looked at.
fn placeholders<const SLOTS: usize>(
    alloc: Global,
    pages: u16,
) -> Result<Vec<Page<SLOTS>>, AllocError>
    requires count { IsSlotCount SLOTS }
    requires pages { (1 ≤ pages) × (pages ≤ 1024) }
    ensures pages { IfOk result (λ held. AreStorePages held.items) }
    ensures number { IfOk result (λ held. length held.items ≡ pages) }
{
    let mut held = Vec::new(alloc);
    for page in 0..pages {
        held.push(Page::fresh(page))?;
    }
    Ok(held)
}

/// A replay that tests the records after the first one of a log, in a store of so many pages. It awaits an image of each page,
/// and so looks at no cell.
pub(crate) fn replay_of_tests<const SLOTS: usize>(
    alloc: Global,
    pages: u16,
) -> Result<Replay<SLOTS>, AllocError>
    requires count { IsSlotCount SLOTS }
    requires pages { (1 ≤ pages) × (pages ≤ 1024) }
    ensures { IfOk result (IsTesting pages []) }
{
    let held = placeholders::<SLOTS>(alloc, pages)?;
    let skip = vec![in alloc; 1; pages as usize]?;
    Ok(Replay::over(alloc, held, skip))
}

/// Tests the batch at this offset, and answers the offset of the next one, or nothing where a closed commit byte stands there. Its
/// body takes the memory of the spare one, and is the spare one then.
fn test_batch<D: Disk, const SLOTS: usize>(
    alloc: Global,
    disk: &mut D,
    area: Area,
    window: &mut Window,
    at: u64,
    pages: u16,
    replay: &mut Replay<SLOTS>,
    spare: &mut Vec<u8>,
) -> Result<Option<u64>, LogRefusal>
    requires count { IsSlotCount SLOTS }
    requires within { at ≤ most_bytes }
    requires window { IsWindow (D.content disk.old area) window.old }
    ensures tested { IfSome (D.content disk.old area) (HasTested SLOTS pages at replay.old)
        → IfOk result (λ next. IfSome (D.content disk.old area) (λ c. MatchOption next (IsTestedLog SLOTS pages (at + 1) c) (λ end. HasTested SLOTS pages end replay.new c))) }
    ensures damaged { IfSome (D.content disk.old area) (HasTested SLOTS pages at replay.old)
        → (place : ℕ) → IsErrOf result (Damaged place) → IfSome (D.content disk.old area) (λ c. IsDamagedLog SLOTS c place) }
    ensures refusals { IfErr result (λ e. (e ≡ Disk) ⊎ (e ≡ Memory) ⊎ ((place : ℕ) × (e ≡ Damaged place))) }
    ensures window { OnOk result (IsWindow (D.content disk.new area) window.new) }
    ensures later { IfOk result (λ next. IfSome next (λ end. (at < end) × (end ≤ most_bytes))) }
    ensures looks { IsLookedAt D.content D.may_leave D.moment D.left_since disk.old disk.new }
    ensures cause { IsCaused (D.faults disk.old) (D.faults disk.new) result }
{
    let body = match read_batch(alloc, disk, area, window, at, spare) {
        Ok(Some(body)) => body,
        Ok(None) => return Ok(None),
        Err(refusal) => return Err(refusal),
    };
    match test_records(replay, pages, &body) {
        Ok(None) => {
            let end = at + 5 + body.len() as u64;
            *spare = body;
            Ok(Some(end))
        }
        Ok(Some(offset)) => Err(LogRefusal::Damaged {
            at: at + 5 + offset as u64,
        }),
        Err(AllocError) => Err(LogRefusal::Memory),
    }
}

/// Tests the batches after the first one, which ends at this offset, up to the closed commit byte. It answers how many bytes there
/// are up to that byte, which counts. The bodies take the memory of the spare one.
///
/// [`LogRefusal::Damaged`] comes exactly where the area is damaged, and tells the place. [`LogRefusal::Disk`] comes only where the
/// disk's count of faults rose in this call.
pub(crate) fn test_batches<D: Disk, const SLOTS: usize>(
    alloc: Global,
    disk: &mut D,
    area: Area,
    window: &mut Window,
    first: u64,
    pages: u16,
    replay: &mut Replay<SLOTS>,
    spare: &mut Vec<u8>,
) -> Result<u64, LogRefusal>
    requires count { IsSlotCount SLOTS }
    requires within { first ≤ most_bytes }
    requires window { IsWindow (D.content disk.old area) window.old }
    requires begun { IfSome (D.content disk.old area) (HasTested SLOTS pages first replay.old) }
    ensures tested { IfOk result (λ len. IfSome (D.content disk.old area) (IsTestedLog SLOTS pages len)) }
    ensures damaged { (place : ℕ) → IsErrOf result (Damaged place) → IfSome (D.content disk.old area) (λ c. IsDamagedLog SLOTS c place) }
    ensures refusals { IfErr result (λ e. (e ≡ Disk) ⊎ (e ≡ Memory) ⊎ ((place : ℕ) × (e ≡ Damaged place))) }
    ensures few { IfOk result (λ len. len ≤ most_bytes + 1) }
    ensures looks { IsLookedAt D.content D.may_leave D.moment D.left_since disk.old disk.new }
    ensures cause { IsCaused (D.faults disk.old) (D.faults disk.new) result }
{
    let mut at = first;
    'batches: loop {
        match test_batch(alloc, disk, area, window, at, pages, replay, spare) {
            Ok(Some(next)) => at = next,
            Ok(None) => return Ok(at + 1),
            Err(refusal) => return Err(refusal),
        }
    }
}
