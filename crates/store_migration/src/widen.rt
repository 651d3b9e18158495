//! A store of six slots, opened, and its log begun anew as that of a store of fourteen.
ghost use Rattle.std.specs.Prelude.{◌≡◌, ℕ, ◌*◌, ◌≤◌, ◌⊎◌, List, option_map, IfOk, IfErr};
ghost use Rattle.cell_model.specs.Cells.{Cell};
ghost use Rattle.cell_page.specs.Format.{page_size};
ghost use Rattle.disk_model.specs.declared.area.Area.TheVariants.{Pages};
ghost use Rattle.disk_model.specs.Areas.{Bytes};
ghost use Rattle.disk_model.specs.Told.{IsImage};
ghost use Rattle.disk_model.specs.Time.{LeavesOnlyImages};
ghost use Rattle.opened_images.specs.Opened.{Opened, OpensTo};
ghost use Rattle.opened_store.specs.Steps.{IsLate};
ghost use Rattle.opened_store.specs.Unopened.{OnlyLooksUnlessOpen};
ghost use Rattle.opened_store.specs.Lengths.{lengthened};
ghost use Rattle.store_opening.specs.Looks.{IsLookedAt};
ghost use Rattle.store_opening.specs.Store.{Reads, Refuses, HasOpenCause};
ghost use Rattle.store_migration.specs.Migrated.{OpensNarrowOrWide, IsMigrated};

use crate::images::wide_images;
use cell_page::CELLS_OF_PAGE;
use disk_model::Disk;
use opened_store::open_store;
use restart_store::first_body;
use std::alloc::Global;
use store_opening::{OpenRefusal, ReplayedLog};

/// Opens the store of six slots that the disk holds, and makes it one of fourteen, in which each cell has eight null slots more:
/// its other log area is made anew with a first batch and one with an image of each page, and is then named. Answers how many
/// pages there are.
///
/// Whatever a power loss leaves at each moment of the call is what it may have left before, or opens to the same cells at six
/// slots, or opens to them with the null slots at fourteen. Beyond what the opening does, the pages area is not touched.
/// [`OpenRefusal::Disk`] comes only where the disk's count of faults rose in this call, and before another refusal but
/// [`OpenRefusal::Memory`] nothing is written.
pub(crate) fn widen_store<D: Disk>(alloc: Global, disk: &mut D) -> Result<u16, OpenRefusal>
    ensures migrated { IfOk result (λ pages. (image : Bytes) → Reads D.content disk.old image → IsMigrated D.may_leave disk.new pages image) }
    ensures refused { (image : Bytes) → Reads D.content disk.old image → IfErr result (Refuses 6 image) }
    ensures moments { (image : Bytes) (cells : List Cell) → Reads D.content disk.old image → Opened 6 image (OpensTo cells)
        → LeavesOnlyImages D.moment D.left_since disk.old disk.new (λ other. IsImage D.may_leave disk.old other ⊎ OpensNarrowOrWide cells other) }
    ensures pages { IfOk result (λ pages. D.content disk.new Pages ≡ option_map (lengthened (page_size 6 * pages)) (D.content disk.old Pages)) }
    ensures unwritten { IfErr result (λ e. IsLate e ⊎ IsLookedAt D.content D.may_leave D.moment D.left_since disk.old disk.new) }
    ensures only_looks { OnlyLooksUnlessOpen D.content D.may_leave D.moment D.left_since 6 disk.old disk.new }
    ensures cause { HasOpenCause (D.faults disk.old) (D.faults disk.new) result }
{
    let found = match open_store::<D, 6>(alloc, disk) {
        Ok(found) => found,
        Err(refusal) => return Err(refusal),
    };
    let ReplayedLog {
        replay,
        mut log,
        marks: _marks,
    } = found;
    let pages = (replay.last_id() as usize / CELLS_OF_PAGE) as u16;
    let images = match wide_images(alloc, &replay) {
        Ok(images) => images,
        Err(_) => return Err(OpenRefusal::Memory),
    };
    match log.turn_with(disk, &first_body::<14>(pages), &images) {
        Ok(()) => Ok(pages),
        Err(_) => Err(OpenRefusal::Disk),
    }
}
