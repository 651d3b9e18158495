//! The store rules and the undo, with their refusals.
ghost use Rattle.std.specs.Prelude.{◌≡◌, ℕ, ◌*◌, length, IfOk, IfErr, OnOk};
ghost use Rattle.cell_model.specs.Consistent.{AreConsistent};
ghost use Rattle.cell_page.specs.Format.{IsSlotCount};
ghost use Rattle.disk_model.specs.Areas.{Bytes};
ghost use Rattle.log_replay.specs.Finishes.{AreNoneAwaited};
ghost use Rattle.opened_store.specs.Steps.{IsStoreOf};
ghost use Rattle.store_opening.specs.Store.{Refuses, IsNoDisk};
ghost use Rattle.store_opening.specs.Undone.{IsUndone, IsUndoneWithMarks};

use log_replay::Replay;
use page_marks::PageMarks;
use std::alloc::Global;
use store_opening::{OpenRefusal, UndoRefusal, first_broken, undo_all};

/// Tests the first four store rules on the cells of a replayed log.
///
/// Of an image for which the replay stands, a refusal but [`OpenRefusal::Memory`] is what it opens to.
pub fn test_rules<const SLOTS: usize>(
    alloc: Global,
    replay: &Replay<SLOTS>,
) -> Result<(), OpenRefusal>
    ensures rules { OnOk result (AreConsistent SLOTS (8 * length replay.now.skips) replay.now.cells) }
    ensures refused { (image : Bytes) → IsStoreOf SLOTS image replay.now → IfErr result (Refuses SLOTS image) }
    ensures no_disk { IfErr result IsNoDisk }
{
    let _last = replay.last_id();
    match first_broken(alloc, replay) {
        Ok(None) => Ok(()),
        Ok(Some(broken)) => Err(OpenRefusal::Unsound {
            id: broken.id,
            rule: broken.rule,
        }),
        Err(_) => Err(OpenRefusal::Memory),
    }
}

/// Undoes what has not ended, and answers the records of it as bytes. The marks of the pages follow these records.
///
/// Of an image for which the replay stands, a refusal but [`OpenRefusal::Memory`] is what it opens to.
pub fn undo<const SLOTS: usize>(
    alloc: Global,
    replay: &mut Replay<SLOTS>,
    marks: &mut PageMarks,
) -> Result<Vec<u8>, OpenRefusal>
    requires size { IsSlotCount SLOTS }
    requires skips { AreNoneAwaited replay.old.skips }
    requires rules { AreConsistent SLOTS (8 * length replay.old.skips) replay.old.cells }
    requires as_many { length marks.old ≡ length replay.old.skips }
    ensures done { IfOk result (λ bytes. IsUndone SLOTS replay.old bytes.items replay.new) }
    ensures marked { IfOk result (λ bytes. IsUndoneWithMarks SLOTS replay.old bytes.items replay.new marks.old marks.new) }
    ensures refused { (image : Bytes) → IsStoreOf SLOTS image replay.old → IfErr result (Refuses SLOTS image) }
    ensures no_disk { IfErr result IsNoDisk }
{
    match undo_all(alloc, replay, marks) {
        Ok(bytes) => Ok(bytes),
        Err(UndoRefusal::Unsound { id }) => Err(OpenRefusal::Unsound { id, rule: 5 }),
        Err(UndoRefusal::Memory) => Err(OpenRefusal::Memory),
    }
}

/// Tests the rules on the cells of a replayed log, and undoes what has not ended. The marks of the pages follow the undo.
///
/// Of an image for which the replay stands, a refusal but [`OpenRefusal::Memory`] is what it opens to.
pub fn restart<const SLOTS: usize>(
    alloc: Global,
    replay: &mut Replay<SLOTS>,
    marks: &mut PageMarks,
) -> Result<Vec<u8>, OpenRefusal>
    requires size { IsSlotCount SLOTS }
    requires skips { AreNoneAwaited replay.old.skips }
    requires as_many { length marks.old ≡ length replay.old.skips }
    ensures rules { OnOk result (AreConsistent SLOTS (8 * length replay.old.skips) replay.old.cells) }
    ensures done { IfOk result (λ bytes. IsUndone SLOTS replay.old bytes.items replay.new) }
    ensures marked { IfOk result (λ bytes. IsUndoneWithMarks SLOTS replay.old bytes.items replay.new marks.old marks.new) }
    ensures refused { (image : Bytes) → IsStoreOf SLOTS image replay.old → IfErr result (Refuses SLOTS image) }
    ensures no_disk { IfErr result IsNoDisk }
{
    match test_rules(alloc, replay) {
        Ok(()) => undo(alloc, replay, marks),
        Err(refusal) => Err(refusal),
    }
}
