//! The ids of the objects that a replay has.
ghost use Rattle.std.specs.Prelude.{◌≡◌, ◌<◌, ◌++◌, length, IfOk, OnOk};
ghost use Rattle.plain_model.specs.Graphs.{ids_of};
ghost use Rattle.cell_model.specs.Cells.{cell_at};
ghost use Rattle.cell_model.specs.Graph.{graph_of};
ghost use Rattle.cell_page.specs.Format.{IsSlotCount};
ghost use Rattle.standby.specs.Stored.{live_id};

use log_replay::Replay;
use plain_model::Ids;
use std::alloc::{AllocError, Global};

/// Adds the id, where its cell is live.
#[tactic(auto, using(crate::proofs::StoredLaws::live_id_of))]
fn push_if_live<const SLOTS: usize>(
    stored: &mut Vec<u32>,
    replay: &Replay<SLOTS>,
    id: u32,
) -> Result<(), AllocError>
    requires slots { IsSlotCount SLOTS }
    requires above { 0 < id }
    requires within { id < length replay.now.cells }
    ensures { OnOk result (stored.new.items ≡ stored.old.items ++ live_id id (cell_at replay.now.cells id)) }
{
    if !replay.cell(id).live {
        return Ok(());
    }
    stored.push(id)?;
    Ok(())
}

/// The ids of the live cells, ascending.
pub(crate) fn stored_ids<const SLOTS: usize>(
    alloc: Global,
    replay: &Replay<SLOTS>,
) -> Result<Ids, AllocError>
    requires { IsSlotCount SLOTS }
    ensures { IfOk result (λ ids. ids ≡ ids_of (graph_of replay.now.cells)) }
{
    let mut stored = Vec::new(alloc);
    for i in 0..replay.last_id() {
        push_if_live(&mut stored, replay, i + 1)?;
    }
    Ok(Ids::from(stored))
}
