//! The ids that have an object.
ghost use Rattle.std.specs.Prelude.{◌≡◌, ◌<◌, ◌≤◌, ◌+◌, ◌*◌, ◌/◌, ℕ, length, map};
ghost use Rattle.cell_page.specs.Stored.{cell_of};
ghost use Rattle.par_audit.specs.Marks.{has_bit, is_marked, is_object};

use crate::marks::with;
use cell_page::Cell;
use std::thread::{Threads, for_each_mut};

/// Whether the id has an object; 0 is no id.
#[inline(always)]
fn is_object<const SLOTS: usize>(cells: &[Cell<SLOTS>], id: usize) -> bool
    ensures { result ≡ is_object (map cell_of cells.now) id }
{
    match cells.get(id) {
        Some(cell) => id != 0 && cell.live,
        None => false,
    }
}

/// The marks of those ids of a word that have an object.
#[inline(always)]
fn objects_of_word<const SLOTS: usize>(cells: &[Cell<SLOTS>], at: usize) -> u64
    requires { at ≤ 262144 }
    ensures { (bit : ℕ) → bit < 64 → has_bit result bit ≡ is_object (map cell_of cells.now) (64 * at + bit) }
{
    let mut word = 0;
    for bit in 0..64u32 {
        if is_object(cells, 64 * at + bit as usize) {
            word = with(word, bit);
        }
    }
    word
}

/// Marks the ids that have an object, and no other, in so many threads.
pub(crate) fn mark_objects<const SLOTS: usize>(
    rt: &(impl Threads + Sync),
    cells: &[Cell<SLOTS>],
    words: &mut [u64],
    workers: usize,
)
    requires few { length cells.now ≤ 16777216 }
    requires len { length words.old ≡ length cells.now / 64 + 1 }
    requires some { 0 < workers }
    ensures len { length words.new ≡ length words.old }
    ensures each { (id : ℕ) → is_marked words.new id ≡ is_object (map cell_of cells.now) id }
{
    let place = move |at: usize, word: &mut u64|
        requires { at ≤ 262144 }
        ensures { (bit : ℕ) → bit < 64 → has_bit word.new bit ≡ is_object (map cell_of cells.entry.now) (64 * at + bit) }
    { *word = objects_of_word(cells, at) };
    for_each_mut(rt, words, workers, &place);
}
