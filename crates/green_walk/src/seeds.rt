//! The objects of a round that something outside its copies holds.
ghost use Rattle.std.specs.Prelude.{◌≡◌, ℕ, ◌-◌, ◌<◌, ◌≤◌, true, false, length, take, slice_index, slice_index_or};
ghost use Rattle.store_model.specs.Core.{Copy};
ghost use Rattle.store_model.specs.Verdict.{copied_names};
ghost use Rattle.green_walk.specs.Judged.{pointers_of, IsSeed, Picks};

use crate::lock_view::LockView;
use red_walk::{IdList, Red};
use ref_tables::TempRefs;

/// Whether the object at a place of the list is a seed.
fn is_seed<const SLOTS: usize>(
    red: &Red<SLOTS>,
    locks: &LockView,
    refs: &TempRefs,
    others: &[u64],
    place: usize,
) -> bool
    requires place { place < length red.now.list }
    requires locks { length red.now.list ≤ length locks.now }
    requires room { length red.now.list ≤ length others.now }
    requires copied { length red.now.list ≡ length red.now.copies }
    requires others { (d : ℕ × Copy) → slice_index others.now place ≡ pointers_of (slice_index_or red.now.copies place d) - copied_names red.now.copies (slice_index red.now.list place) }
    ensures yes { result ≡ true → IsSeed red.now locks.now refs.now (slice_index red.now.list place) }
    ensures no { result ≡ false → IsSeed red.now locks.now refs.now (slice_index red.now.list place) → ⊥ }
{
    if red.touched(place) {
        return true;
    }
    if locks.get(place) {
        return true;
    }
    if refs.names(red.list()[place]) {
        return true;
    }
    others[place] > 0
}

/// Lists the seeds.
pub(crate) fn pick_seeds<const SLOTS: usize>(
    seeds: &mut IdList,
    red: &Red<SLOTS>,
    locks: &LockView,
    refs: &TempRefs,
    others: &[u64],
)
    requires limit { seeds.old.limit ≡ red.now.limit }
    requires locks { length red.now.list ≤ length locks.now }
    requires room { length red.now.list ≤ length others.now }
    requires copied { length red.now.list ≡ length red.now.copies }
    requires others { (place : ℕ) (d : ℕ × Copy) → place < length red.now.list → slice_index others.now place ≡ pointers_of (slice_index_or red.now.copies place d) - copied_names red.now.copies (slice_index red.now.list place) }
    ensures picks { Picks (IsSeed red.now locks.now refs.now) red.now.list seeds.new.ids }
    ensures limit { seeds.new.limit ≡ seeds.old.limit }
{
    seeds.clear();
    let list = red.list();
    for place in 0..list.len() {
        if is_seed(red, locks, refs, others, place) {
            seeds.push(list[place]);
        }
    }
}
