//! The cells that a record concerns.

ghost use Rattle.std.specs.Prelude.{◌≡◌, ◌≢◌, ◌<◌, ◌^◌, ◌↔◌, ◌≤◌, ◌*◌, ℕ, true};
ghost use Rattle.log_record.specs.Spelling.{HasCellSpelling};
ghost use Rattle.log_record.specs.Records.{record_of};
ghost use Rattle.log_replay.specs.Steps.{AreConcerned, AreApart};
ghost use Rattle.log_replay.specs.Replays.{IsWithin};

use log_record::{CellRecord, PAYLOAD_PLACE};

/// The ids that a record concerns, 0 for none: its own, that of its old target, that of its new one. None stands twice.
#[derive(Clone, Copy, PartialEq, Eq, Debug)]
pub(crate) struct ThreeIds {
    pub(crate) own: u32,
    pub(crate) from: u32,
    pub(crate) to: u32,
}

/// Each of these ids once.
#[inline(always)]
fn once(own: u32, from: u32, to: u32) -> ThreeIds
    ensures { AreApart own from to result }
{
    ThreeIds {
        own,
        from: if from == own { 0 } else { from },
        to: if to == own || to == from { 0 } else { to },
    }
}

/// The ids that the record concerns.
#[inline(always)]
pub(crate) fn concerned(r: &CellRecord) -> ThreeIds
    requires { (slots : ℕ) × HasCellSpelling slots r.now }
    ensures all { (slots : ℕ) → AreConcerned slots (record_of r.now) result }
    ensures within { (ids : ℕ) → IsWithin ids r.now → (result.own ≤ ids) × (result.from ≤ ids) × (result.to ≤ ids) }
{
    match *r {
        CellRecord::Begin { .. } | CellRecord::Commit { .. } | CellRecord::AbortEnd { .. } => once(
            0, 0, 0,
        ),
        CellRecord::Make { id, .. }
        | CellRecord::Pay { id, .. }
        | CellRecord::Flip { id }
        | CellRecord::Free { id } => once(id, 0, 0),
        CellRecord::Store {
            id,
            old_target,
            new_target,
            ..
        } => once(id, old_target, new_target),
        CellRecord::Undo {
            id,
            place,
            from,
            to,
            ..
        } => {
            if place == PAYLOAD_PLACE {
                return once(id, 0, 0);
            }
            once(id, from as u32, to as u32)
        }
        CellRecord::Weaken { id, target, .. }
        | CellRecord::Strengthen { id, target, .. }
        | CellRecord::CutDead { id, target, .. } => once(id, target, 0),
    }
}

/// Whether the ids and targets of the record are at most this.
#[inline(always)]
pub(crate) fn is_within(r: &CellRecord, ids: u32) -> bool
    ensures { (result ≡ true) ↔ IsWithin ids r.now }
{
    match *r {
        CellRecord::Begin { .. } | CellRecord::Commit { .. } | CellRecord::AbortEnd { .. } => true,
        CellRecord::Make { id, .. }
        | CellRecord::Pay { id, .. }
        | CellRecord::Flip { id }
        | CellRecord::Free { id } => id <= ids,
        CellRecord::Store {
            id,
            old_target,
            new_target,
            ..
        } => id <= ids && old_target <= ids && new_target <= ids,
        CellRecord::Undo {
            id,
            place,
            from,
            to,
            ..
        } => id <= ids && (place == PAYLOAD_PLACE || from <= ids as u64 && to <= ids as u64),
        CellRecord::Weaken { id, target, .. }
        | CellRecord::Strengthen { id, target, .. }
        | CellRecord::CutDead { id, target, .. } => id <= ids && target <= ids,
    }
}
