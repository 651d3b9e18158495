//! One cell of a replay.
ghost use Rattle.std.specs.Prelude.{◌≡◌, ℕ, ◌+◌, ◌*◌, ◌<◌, ◌≤◌, IfSome, IfNone, length};
ghost use Rattle.cell_model.specs.Cells.{null, pointer_at, is_live};
ghost use Rattle.cell_model.specs.Strong.{IsStrongAt};
ghost use Rattle.cell_page.specs.Format.{IsSlotCount};
ghost use Rattle.store_opening.specs.Kept.{IsKept, IsFormedAt};

use log_replay::Replay;

/// Whether the object of the id is live. 0 is no id, and neither is a number above the last one.
pub(crate) fn is_live<const SLOTS: usize>(replay: &Replay<SLOTS>, id: u32) -> bool
    ensures { result ≡ is_live replay.now.cells id }
{
    let last = replay.last_id();
    if id == 0 {
        return false;
    }
    if id > last {
        return false;
    }
    replay.cell(id).live
}

/// The cell has its slots, and where it is free it is empty.
pub(crate) fn know_cell<const SLOTS: usize>(replay: &Replay<SLOTS>, id: u32)
    requires size { IsSlotCount SLOTS }
    requires above { 0 < id }
    requires within { id < length replay.now.cells }
    ensures { IsFormedAt SLOTS replay.now.cells id }
{
    let _cell = replay.cell(id);
}

/// What a slot names.
pub(crate) fn target_at<const SLOTS: usize>(replay: &Replay<SLOTS>, id: u32, slot: usize) -> u32
    requires size { IsSlotCount SLOTS }
    requires above { 0 < id }
    requires within { id < length replay.now.cells }
    requires slot { slot < SLOTS }
    ensures { result ≡ (pointer_at replay.now.cells id slot).target }
{
    replay.cell(id).slots[slot]
}

/// The object to which the strong pointer in a slot leads, if there is one.
pub(crate) fn strong_target<const SLOTS: usize>(
    replay: &Replay<SLOTS>,
    id: u32,
    slot: usize,
) -> Option<u32>
    requires size { IsSlotCount SLOTS }
    requires named { IsKept replay.now.cells 2 }
    requires above { 0 < id }
    requires within { id < length replay.now.cells }
    requires slot { slot < SLOTS }
    ensures some { IfSome result (λ to. IsStrongAt replay.now.cells id slot to) }
    ensures ids { IfSome result (λ to. (0 < to) × (to < length replay.now.cells)) }
    ensures none { IfNone result ((to : ℕ) → IsStrongAt replay.now.cells id slot to → ⊥) }
{
    let target = target_at(replay, id, slot);
    if target == 0 || !is_live(replay, id) {
        return None;
    }
    let bit = replay.cell(id).pointer_bit(slot as u8);
    if replay.cell(target).bit == bit {
        Some(target)
    } else {
        None
    }
}
