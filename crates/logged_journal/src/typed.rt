//! Records and pages of a program are in the ranges of their types.
ghost use Rattle.std.specs.Prelude.{◌<◌, ◌^◌};
ghost use Rattle.cell_page.specs.Format.{IsSlotCount, IsPage, AreTyped};
ghost use Rattle.log_record.specs.Spelling.{IsTypedCellRecord};

use cell_page::Page;
use log_record::CellRecord;

/// The number is in the range of its type.
fn know_id(number: u32)
    ensures { number < 2 ^ 32 }
{}

/// The number is in the range of its type.
fn know_value(number: u64)
    ensures { number < 2 ^ 64 }
{}

/// Each number of a record of single cells is in the range of its type.
pub(crate) fn know_cell_record(logged: CellRecord)
    ensures { IsTypedCellRecord logged }
{
    match logged {
        CellRecord::Make { id, .. } => know_id(id),
        CellRecord::Store {
            id,
            old_target,
            new_target,
            ..
        } => {
            know_id(id);
            know_id(old_target);
            know_id(new_target);
        }
        CellRecord::Pay {
            id,
            old_value,
            new_value,
            ..
        } => {
            know_id(id);
            know_value(old_value);
            know_value(new_value);
        }
        CellRecord::Undo { id, from, to, .. } => {
            know_id(id);
            know_value(from);
            know_value(to);
        }
        CellRecord::Weaken { id, target, .. } => {
            know_id(id);
            know_id(target);
        }
        CellRecord::Strengthen { id, target, .. } => {
            know_id(id);
            know_id(target);
        }
        CellRecord::Flip { id } => know_id(id),
        CellRecord::CutDead { id, target, .. } => {
            know_id(id);
            know_id(target);
        }
        CellRecord::Free { id } => know_id(id),
        CellRecord::Begin { .. } => {}
        CellRecord::Commit { .. } => {}
        CellRecord::AbortEnd { .. } => {}
    }
}

/// Each number of a page is in the range of its type.
pub(crate) fn know_page<const SLOTS: usize>(page: u16, held: &Page<SLOTS>)
    requires count { IsSlotCount SLOTS }
    requires rules { IsPage page held.now }
    ensures { AreTyped held.now }
{
    let _ = held.cell(8 * page as u32 + 1);
}
