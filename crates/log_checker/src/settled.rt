//! The graph of a replay in which what has not ended is undone.
ghost use Rattle.std.specs.Prelude.{◌≡◌, ℕ, IfOk, IsErrOf};
ghost use Rattle.cell_model.specs.Graph.{graph_of};
ghost use Rattle.cell_page.specs.Format.{IsSlotCount};
ghost use Rattle.log_replay.specs.Finishes.{AreNoneAwaited};
ghost use Rattle.log_replay.specs.Inside.{cells_of_pages};
ghost use Rattle.restart_store.specs.Fresh.{MayBeMade};
ghost use Rattle.standby.specs.Promoted.{BreaksAt};
ghost use Rattle.log_checker.specs.declared.refusal.CheckRefusal.{CheckRefusal as Refusal};
ghost use Rattle.log_checker.specs.declared.refusal.CheckRefusal.TheVariants.{Unsound};
ghost use Rattle.log_checker.specs.Verdicts.{IsRestoredGraph, IsOfCells};

use crate::folded_objects::graph_of_replay;
use crate::refusal::CheckRefusal;
use cell_page::Page;
use log_replay::Replay;
use plain_model::{Graph, Memory};
use standby::{PromoteRefusal, settle};
use std::alloc::Global;

/// The graph of the live cells of these pages.
fn graph_of_pages<const SLOTS: usize>(
    alloc: Global,
    pages: Vec<Page<SLOTS>>,
) -> Result<Graph, Memory>
    requires slots { IsSlotCount SLOTS }
    requires pages { MayBeMade pages.items }
    ensures { IfOk result (λ g. g ≡ graph_of (cells_of_pages pages.entry.items)) }
{
    let skips = vec![in alloc; 0; pages.len()]?;
    let replay = Replay::over(alloc, pages, skips);
    graph_of_replay(alloc, &replay)
}

/// The graph of a store that is made of a replay: where it keeps the first four rules, what has not ended is undone.
///
/// [`CheckRefusal::Unsound`] comes exactly where it breaks one of them, or where an undo can't be done.
pub(crate) fn settled_graph<const SLOTS: usize>(
    alloc: Global,
    replay: Replay<SLOTS>,
) -> Result<Graph, CheckRefusal>
    requires slots { IsSlotCount SLOTS }
    requires skips { AreNoneAwaited replay.skips }
    ensures settled { IfOk result (IsRestoredGraph SLOTS replay.entry) }
    ensures unsound { (id rule : ℕ) → IsErrOf result (Unsound id rule) → BreaksAt SLOTS replay.entry id rule }
    ensures refusals { (e : Refusal) → IsErrOf result e → IsOfCells e }
{
    match settle(alloc, replay) {
        Ok(settled) => match graph_of_pages(alloc, settled.pages) {
            Ok(graph) => Ok(graph),
            Err(_) => Err(CheckRefusal::Memory),
        },
        Err(PromoteRefusal::Unsound { id, rule }) => Err(CheckRefusal::Unsound { id, rule }),
        Err(PromoteRefusal::Memory) => Err(CheckRefusal::Memory),
        Err(PromoteRefusal::Disk) => unreachable!(),
        Err(PromoteRefusal::NoBase { .. }) => unreachable!(),
    }
}
