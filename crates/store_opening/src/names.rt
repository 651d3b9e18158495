//! The second rule: slots of live objects name live ones.
ghost use Rattle.std.specs.Prelude.{◌≡◌, ℕ, ◌*◌, ◌<◌, true, false, IfSome, IfNone, length};
ghost use Rattle.cell_model.specs.Cells.{is_live};
ghost use Rattle.restart_laws.specs.Rules.{BreaksRule, AreOfPages};
ghost use Rattle.cell_page.specs.Format.{IsSlotCount};
ghost use Rattle.store_opening.specs.Kept.{IsKept, IsLeast, NamesLiveAt, IsFormedAt};

use crate::live_cells::{is_live, know_cell, target_at};
use log_replay::Replay;

/// Whether a slot of a live object names one that isn't live.
fn names_none<const SLOTS: usize>(replay: &Replay<SLOTS>, id: u32) -> bool
    requires size { IsSlotCount SLOTS }
    requires above { 0 < id }
    requires within { id < length replay.now.cells }
    ensures broken { result ≡ true → BreaksRule replay.now.cells 2 id }
    ensures kept { result ≡ false → is_live replay.now.cells id ≡ true → (slot : ℕ) → NamesLiveAt replay.now.cells id slot }
    ensures formed { IsFormedAt SLOTS replay.now.cells id }
{
    know_cell(replay, id);
    if !is_live(replay, id) {
        return false;
    }
    for slot in 0..SLOTS {
        let target = target_at(replay, id, slot);
        if target != 0 && !is_live(replay, target) {
            return true;
        }
    }
    false
}

/// The least object a slot of which names one that isn't live.
pub(crate) fn first_stray<const SLOTS: usize>(replay: &Replay<SLOTS>) -> Option<u32>
    ensures some { IfSome result (IsLeast replay.now.cells 2) }
    ensures none { IfNone result (IsKept replay.now.cells 2) }
    ensures pages { IfNone result (AreOfPages SLOTS (8 * length replay.now.skips) replay.now.cells) }
{
    let end = replay.last_id() + 1;
    for id in 1..end {
        if names_none(replay, id) {
            return Some(id);
        }
    }
    None
}
