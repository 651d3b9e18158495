//! Which objects no strong pointers lead back to, by one walk over all strong pointers.
ghost use Rattle.std.specs.Prelude.{◌≡◌, ◌<◌, IfOk, OnOk, IfSome, IfNone, length};
ghost use Rattle.cell_page.specs.Format.{IsSlotCount};
ghost use Rattle.store_opening.specs.Kept.{IsKept};
ghost use Rattle.store_opening.specs.Marks.{AreIds, LeadsToMarked, AreSettled};

use crate::live_cells::{know_cell, strong_target};
use log_replay::{Memory, Replay};
use std::alloc::Global;

/// A walk along strong pointers.
#[derive(Drop)]
pub(crate) struct Walk {
    /// For each id, whether all objects to which strong pointers lead from it were left before it.
    pub(crate) settled: Vec<bool>,
    /// For each id, whether the walk came to it.
    pub(crate) seen: Vec<bool>,
    /// The objects on the way to where the walk is.
    pub(crate) way: Vec<u32>,
}

/// The first object to which a strong pointer of this one leads and that isn't settled.
#[inline(always)]
fn next_unsettled<const SLOTS: usize>(
    replay: &Replay<SLOTS>,
    settled: &[bool],
    id: u32,
) -> Option<u32>
    requires size { IsSlotCount SLOTS }
    requires named { IsKept replay.now.cells 2 }
    requires above { 0 < id }
    requires within { id < length replay.now.cells }
    requires len { length settled.now ≡ length replay.now.cells }
    ensures some { IfSome result (λ to. (0 < to) × (to < length replay.now.cells)) }
    ensures none { IfNone result (LeadsToMarked replay.now.cells settled.now id) }
{
    know_cell(replay, id);
    for slot in 0..SLOTS {
        if let Some(to) = strong_target(replay, id, slot) {
            if !settled[to as usize] {
                return Some(to);
            }
        }
    }
    None
}

/// Looks at the object where the walk is: it goes on to an object that it hasn't seen, or goes back, and where all strong
/// pointers lead to settled objects this one is settled too.
fn step<const SLOTS: usize>(replay: &Replay<SLOTS>, walk: &mut Walk, id: u32) -> Result<(), Memory>
    requires size { IsSlotCount SLOTS }
    requires named { IsKept replay.now.cells 2 }
    requires above { 0 < id }
    requires within { id < length replay.now.cells }
    requires settled { AreSettled replay.now.cells walk.old.settled.items }
    requires seen { length walk.old.seen.items ≡ length replay.now.cells }
    requires way { AreIds (length replay.now.cells) walk.old.way.items }
    ensures settled { OnOk result (AreSettled replay.now.cells walk.new.settled.items) }
    ensures seen { OnOk result (length walk.new.seen.items ≡ length replay.now.cells) }
    ensures way { OnOk result (AreIds (length replay.now.cells) walk.new.way.items) }
{
    match next_unsettled(replay, &walk.settled, id) {
        None => {
            walk.settled[id as usize] = true;
            walk.way.pop();
        }
        Some(to) => {
            if walk.seen[to as usize] {
                walk.way.pop();
            } else {
                walk.seen[to as usize] = true;
                walk.way.push(to)?;
            }
        }
    }
    Ok(())
}

/// Walks from an object that wasn't seen.
fn walk_from<const SLOTS: usize>(
    replay: &Replay<SLOTS>,
    walk: &mut Walk,
    id: u32,
) -> Result<(), Memory>
    requires size { IsSlotCount SLOTS }
    requires named { IsKept replay.now.cells 2 }
    requires above { 0 < id }
    requires within { id < length replay.now.cells }
    requires settled { AreSettled replay.now.cells walk.old.settled.items }
    requires seen { length walk.old.seen.items ≡ length replay.now.cells }
    requires way { AreIds (length replay.now.cells) walk.old.way.items }
    ensures settled { OnOk result (AreSettled replay.now.cells walk.new.settled.items) }
    ensures seen { OnOk result (length walk.new.seen.items ≡ length replay.now.cells) }
    ensures way { OnOk result (AreIds (length replay.now.cells) walk.new.way.items) }
{
    walk.seen[id as usize] = true;
    walk.way.push(id)?;
    // Each object joins the way once at most, and leaves it once.
    for _turn in 0..2 * replay.last_id() + 2 {
        let Some(at) = walk.way.last() else {
            break;
        };
        let at = *at;
        step(replay, walk, at)?;
    }
    Ok(())
}

/// Objects from which no strong pointers lead back to them; all of them where that holds of every object.
pub(crate) fn settled_objects<const SLOTS: usize>(
    alloc: Global,
    replay: &Replay<SLOTS>,
) -> Result<Vec<bool>, Memory>
    requires size { IsSlotCount SLOTS }
    requires named { IsKept replay.now.cells 2 }
    ensures { IfOk result (λ settled. AreSettled replay.now.cells settled.items) }
{
    let end = replay.last_id() + 1;
    let settled = vec![in alloc; false; end as usize]?;
    let seen = vec![in alloc; false; end as usize]?;
    let mut walk = Walk {
        settled,
        seen,
        way: Vec::new(alloc),
    };
    for id in 1..end {
        if !walk.seen[id as usize] {
            walk_from(replay, &mut walk, id)?;
        }
    }
    Ok(walk.settled)
}
