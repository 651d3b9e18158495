//! A record of a program is in the ranges of its types.
ghost use Rattle.std.specs.Prelude.{◌≡◌, ◌<◌, ◌^◌};
ghost use Rattle.log_record.specs.Spelling.{IsTypedCellRecord, IsTypedRecord};
ghost use Rattle.log_record.specs.declared.record.Record.TheVariants.{OfCells};

use log_record::{CellRecord, Record};

/// The number is in the range of its type.
fn know_id(number: u32)
    ensures { number < 2 ^ 32 }
{}

/// The number is in the range of its type.
fn know_value(number: u64)
    ensures { number < 2 ^ 64 }
{}

/// Each number of a record of single cells is in the range of its type.
fn know_cell_record(rec: CellRecord)
    ensures { IsTypedCellRecord rec }
{
    match rec {
        CellRecord::Make { id, .. } => know_id(id),
        CellRecord::Store {
            id,
            old_target,
            new_target,
            ..
        } => {
            know_id(id);
            know_id(old_target);
            know_id(new_target);
        }
        CellRecord::Pay {
            id,
            old_value,
            new_value,
            ..
        } => {
            know_id(id);
            know_value(old_value);
            know_value(new_value);
        }
        CellRecord::Undo { id, from, to, .. } => {
            know_id(id);
            know_value(from);
            know_value(to);
        }
        CellRecord::Weaken { id, target, .. } => {
            know_id(id);
            know_id(target);
        }
        CellRecord::Strengthen { id, target, .. } => {
            know_id(id);
            know_id(target);
        }
        CellRecord::Flip { id } => know_id(id),
        CellRecord::CutDead { id, target, .. } => {
            know_id(id);
            know_id(target);
        }
        CellRecord::Free { id } => know_id(id),
        CellRecord::Begin { .. } => {}
        CellRecord::Commit { .. } => {}
        CellRecord::AbortEnd { .. } => {}
    }
}

/// Each number of a record of single cells is in the range of its type. An undo makes no other record.
pub(crate) fn know_record<const SLOTS: usize>(rec: &Record<SLOTS>)
    ensures { (r : _) → rec.now ≡ OfCells r → IsTypedRecord rec.now }
{
    if let Record::OfCells(r) = rec {
        know_cell_record(*r);
    }
}
