//! The marking of what the root doesn't reach, level by level.
ghost use Rattle.std.specs.Prelude.{◌≡◌, ◌<◌, ◌≤◌, ◌+◌, ◌/◌, ℕ, length, map, drop, IfOk};
ghost use Rattle.cell_page.specs.Format.{IsSlotCount};
ghost use Rattle.cell_page.specs.Stored.{cell_of};
ghost use Rattle.par_audit.specs.Marks.{Follows, is_marked, is_named, is_object};
ghost use Rattle.par_audit.specs.Garbage.{IsUnreached};

use crate::following::{follow_in_turn, visit};
use crate::listing::follow_words;
use crate::marks::words_for;
use crate::names::names_by_pieces;
use crate::objects::mark_objects;
use cell_page::{Cell, ROOT};
use plain_model::Memory;
use std::alloc::Global;
use std::thread::Threads;

/// How few objects of a level are worth a thread of their own.
const LEAST_PIECE: usize = 8192;

/// How few cells are worth a thread of their own where it is read which of them are live.
const LEAST_CELLS: usize = 65_536;

/// How few objects of a level are worth marks of all ids. A level is to have a share of the cells besides, so that all such
/// marks of a marking together are read in a time that goes with the number of cells.
const LEAST_LEVEL: usize = 512;

/// One in so many cells is to be of a level that is worth marks of all ids.
const LEAST_SHARE: usize = 16;

/// Follows the objects of a level, which are those that are listed from this place on, by so many pieces of them. The next level
/// stands after them.
fn follow_by_pieces<const SLOTS: usize>(
    rt: &(impl Threads + Sync),
    alloc: Global,
    cells: &[Cell<SLOTS>],
    unreached: &mut [u64],
    found: &mut Vec<u32>,
    from: usize,
    pieces: usize,
) -> Result<(), Memory>
    requires slots { IsSlotCount SLOTS }
    requires len { length unreached.old ≡ length cells.now / 64 + 1 }
    requires few { length cells.now ≤ 16777216 }
    requires within { from ≤ length found.old.items }
    requires listed { length found.old.items ≤ from + 16777216 }
    requires some { 0 < pieces }
    requires fits { pieces ≤ 1024 }
    ensures { IfOk result (λ _. Follows (is_named cells.now (drop from found.old.items)) unreached.old unreached.new found.old.items found.new.items) }
{
    let words = names_by_pieces(rt, alloc, cells, &found[from..], pieces)?;
    follow_words(unreached, found, words.as_slice())
}

/// Follows the objects of a level, which are those that are listed from this place on. The next level stands after them.
fn follow_level<const SLOTS: usize>(
    rt: &(impl Threads + Sync),
    alloc: Global,
    cells: &[Cell<SLOTS>],
    unreached: &mut [u64],
    found: &mut Vec<u32>,
    from: usize,
    workers: usize,
) -> Result<(), Memory>
    requires slots { IsSlotCount SLOTS }
    requires len { length unreached.old ≡ length cells.now / 64 + 1 }
    requires few { length cells.now ≤ 16777216 }
    requires within { from ≤ length found.old.items }
    requires some { 0 < workers }
    requires fits { workers ≤ 1024 }
    ensures { IfOk result (λ _. Follows (is_named cells.now (drop from found.old.items)) unreached.old unreached.new found.old.items found.new.items) }
{
    let objects = found.len() - from;
    if objects < LEAST_LEVEL || objects < cells.len() / LEAST_SHARE || objects > 16_777_216 {
        return follow_in_turn(cells, unreached, found, from);
    }
    let pieces = workers.min(objects / LEAST_PIECE).max(1);
    follow_by_pieces(rt, alloc, cells, unreached, found, from, pieces)
}

/// Reaches what the root leads to, level by level.
fn mark_from<const SLOTS: usize>(
    rt: &(impl Threads + Sync),
    alloc: Global,
    cells: &[Cell<SLOTS>],
    unreached: &mut [u64],
    workers: usize,
) -> Result<(), Memory>
    requires slots { IsSlotCount SLOTS }
    requires few { length cells.now ≤ 16777216 }
    requires len { length unreached.old ≡ length cells.now / 64 + 1 }
    requires objects { (id : ℕ) → is_marked unreached.old id ≡ is_object (map cell_of cells.now) id }
    requires some { 0 < workers }
    requires fits { workers ≤ 1024 }
    ensures { IfOk result (λ _. IsUnreached (map cell_of cells.now) unreached.new) }
{
    let mut found = Vec::new(alloc);
    visit(unreached, &mut found, ROOT)?;
    let mut from = 0;
    while from < found.len() {
        let level = found.len();
        follow_level(rt, alloc, cells, unreached, &mut found, from, workers)?;
        from = level;
    }
    Ok(())
}

/// Marks the ids of the objects that the root doesn't reach, level by level. The objects of a level that has enough of them
/// are followed in as many threads as there are workers. `Memory` is its only error.
pub fn mark<const SLOTS: usize>(
    rt: &(impl Threads + Sync),
    alloc: Global,
    cells: &[Cell<SLOTS>],
    workers: usize,
) -> Result<Vec<u64>, Memory>
    requires slots { IsSlotCount SLOTS }
    requires few { length cells.now ≤ 16777216 }
    requires some { 0 < workers }
    requires fits { workers ≤ 1024 }
    ensures len { IfOk result (λ words. length words.items ≡ length cells.now / 64 + 1) }
    ensures unreached { IfOk result (λ words. IsUnreached (map cell_of cells.now) words.items) }
{
    let mut words = vec![in alloc; 0u64; words_for(cells.len())]?;
    let readers = workers.min(cells.len() / LEAST_CELLS).max(1);
    mark_objects(rt, cells, words.as_mut_slice(), readers);
    mark_from(rt, alloc, cells, words.as_mut_slice(), workers)?;
    Ok(words)
}
