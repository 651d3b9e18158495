//! All four rules in their order.
ghost use Rattle.std.specs.Prelude.{ℕ, ◌*◌, IfOk, IfSome, IfNone, length};
ghost use Rattle.cell_model.specs.Consistent.{AreConsistent};
ghost use Rattle.restart_laws.specs.Rules.{BreaksRule, IsFirstBroken};

use crate::counts::first_miscounted;
use crate::cycles::first_in_cycle;
use crate::live_cells::is_live;
use crate::names::first_stray;
use cell_page::ROOT;
use log_replay::{Memory, Replay};
use std::alloc::Global;

/// A store rule, and an object that breaks it.
#[derive(Clone, Copy, Debug, PartialEq, Eq)]
pub struct BrokenRule {
    /// The object.
    pub id: u32,
    /// The number of the rule: 1 that the root is live, 2 that slots name live objects, 3 that counts are exact, 4 that no
    /// strong pointers lead from an object back to it.
    pub rule: u8,
}

/// The least of the first four store rules that the cells of a replay break, with the least object that breaks it.
///
/// [`Memory`] tells nothing of the cells.
pub fn first_broken<const SLOTS: usize>(
    alloc: Global,
    replay: &Replay<SLOTS>,
) -> Result<Option<BrokenRule>, Memory>
    ensures broken { IfOk result (λ found. IfSome found (λ b. IsFirstBroken replay.now.cells b.rule b.id)) }
    ensures kept { IfOk result (λ found. IfNone found ((rule id : ℕ) → BreaksRule replay.now.cells rule id → ⊥)) }
    ensures consistent { IfOk result (λ found. IfNone found (AreConsistent SLOTS (8 * length replay.now.skips) replay.now.cells)) }
{
    let _last = replay.last_id();
    if !is_live(replay, ROOT) {
        return Ok(Some(BrokenRule { id: ROOT, rule: 1 }));
    }
    if let Some(id) = first_stray(replay) {
        return Ok(Some(BrokenRule { id, rule: 2 }));
    }
    if let Some(id) = first_miscounted(alloc, replay)? {
        return Ok(Some(BrokenRule { id, rule: 3 }));
    }
    if let Some(id) = first_in_cycle(alloc, replay)? {
        return Ok(Some(BrokenRule { id, rule: 4 }));
    }
    Ok(None)
}
