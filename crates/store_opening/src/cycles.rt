//! The fourth rule: no strong pointers lead from an object back to it.
ghost use Rattle.std.specs.Prelude.{IfOk, IfSome, IfNone};
ghost use Rattle.cell_page.specs.Format.{IsSlotCount};
ghost use Rattle.store_opening.specs.Kept.{IsKept, IsLeast};

use crate::search::leads_back;
use crate::settle::settled_objects;
use log_replay::{Memory, Replay};
use std::alloc::Global;

/// The least object from which strong pointers lead back to it.
///
/// A walk settles every object from which none do. What it can't settle is searched from, object by object.
pub(crate) fn first_in_cycle<const SLOTS: usize>(
    alloc: Global,
    replay: &Replay<SLOTS>,
) -> Result<Option<u32>, Memory>
    requires size { IsSlotCount SLOTS }
    requires named { IsKept replay.now.cells 2 }
    ensures some { IfOk result (λ found. IfSome found (IsLeast replay.now.cells 4)) }
    ensures none { IfOk result (λ found. IfNone found (IsKept replay.now.cells 4)) }
{
    let settled = settled_objects(alloc, replay)?;
    let end = replay.last_id() + 1;
    for id in 1..end {
        if settled[id as usize] {
            continue;
        }
        if leads_back(alloc, replay, id)? {
            return Ok(Some(id));
        }
    }
    Ok(None)
}
