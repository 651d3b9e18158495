//! Whether strong pointers lead from an object back to it, by a search from it.
ghost use Rattle.std.specs.Prelude.{◌≡◌, ◌<◌, true, false, [], IfOk, OnOk, length};
ghost use Rattle.cell_model.specs.Strong.{StrongPath};
ghost use Rattle.cell_page.specs.Format.{IsSlotCount};
ghost use Rattle.store_opening.specs.Kept.{IsKept};
ghost use Rattle.store_opening.specs.Marks.{IsMarked, LeadsToMarked, Spreads, IsStrongTarget, IsSearching};

use crate::live_cells::{know_cell, strong_target};
use log_replay::{Memory, Replay};
use std::alloc::Global;

/// A search along strong pointers.
#[derive(Drop)]
pub(crate) struct Search {
    /// For each id, whether strong pointers lead there.
    pub(crate) reached: Vec<bool>,
    /// The objects that were reached and not looked at.
    pub(crate) work: Vec<u32>,
}

/// Marks an object as reached.
fn reach(search: &mut Search, to: u32) -> Result<(), Memory>
    requires above { 0 < to }
    requires within { to < length search.old.reached.items }
    ensures spreads { OnOk result (Spreads (λ x. x ≡ to) search.old.reached.items search.old.work.items search.new.reached.items search.new.work.items) }
    ensures marked { OnOk result (IsMarked search.new.reached.items to) }
{
    if !search.reached[to as usize] {
        search.work.push(to)?;
        search.reached[to as usize] = true;
    }
    Ok(())
}

/// Marks what the strong pointers of an object lead to.
fn spread<const SLOTS: usize>(
    replay: &Replay<SLOTS>,
    search: &mut Search,
    id: u32,
) -> Result<(), Memory>
    requires size { IsSlotCount SLOTS }
    requires named { IsKept replay.now.cells 2 }
    requires above { 0 < id }
    requires within { id < length replay.now.cells }
    requires len { length search.old.reached.items ≡ length replay.now.cells }
    ensures spreads { OnOk result (Spreads (IsStrongTarget replay.now.cells id) search.old.reached.items search.old.work.items search.new.reached.items search.new.work.items) }
    ensures marked { OnOk result (LeadsToMarked replay.now.cells search.new.reached.items id) }
{
    know_cell(replay, id);
    for slot in 0..SLOTS {
        if let Some(to) = strong_target(replay, id, slot) {
            reach(search, to)?;
        }
    }
    Ok(())
}

/// Looks at one object after another until none is left to be looked at.
fn run<const SLOTS: usize>(
    replay: &Replay<SLOTS>,
    search: &mut Search,
    id: u32,
) -> Result<(), Memory>
    requires size { IsSlotCount SLOTS }
    requires named { IsKept replay.now.cells 2 }
    requires searching { IsSearching replay.now.cells id search.old.reached.items search.old.work.items }
    ensures { OnOk result (IsSearching replay.now.cells id search.new.reached.items []) }
{
    while let Some(at) = search.work.pop() {
        spread(replay, search, at)?;
    }
    Ok(())
}

/// Whether strong pointers lead from an object back to it.
pub(crate) fn leads_back<const SLOTS: usize>(
    alloc: Global,
    replay: &Replay<SLOTS>,
    id: u32,
) -> Result<bool, Memory>
    requires size { IsSlotCount SLOTS }
    requires named { IsKept replay.now.cells 2 }
    requires above { 0 < id }
    requires within { id < length replay.now.cells }
    ensures found { IfOk result (λ found. found ≡ true → StrongPath replay.now.cells id id) }
    ensures none { IfOk result (λ found. found ≡ false → StrongPath replay.now.cells id id → ⊥) }
{
    let mut search = Search {
        reached: vec![in alloc; false; replay.last_id() as usize + 1]?,
        work: Vec::new(alloc),
    };
    spread(replay, &mut search, id)?;
    run(replay, &mut search, id)?;
    Ok(search.reached[id as usize])
}
