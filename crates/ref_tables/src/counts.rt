//! How many entries each object is the target of.
ghost use Rattle.std.specs.Prelude.{◌≡◌, ◌<◌, ◌≤◌, ◌+◌, ◌^◌, ◌==◌, ℕ, true, if◌then◌else◌, OnOk, IsOk, nat_lt, get_or, replicate};
ghost use Rattle.ref_tables.specs.Counts.{count_of, count_in, room_in, HasSameCounts};

use crate::kind::TempRef;
use crate::{Memory, rest};
use indexmap::IndexMap;
use std::alloc::Global;

/// The targets from this one on have no place in the row.
const ROW_END: u32 = 65_536;

/// For each target the number of its entries: what the row has at its index, and what is counted in the map. The row is
/// there for the targets that are not too great, and only where there was memory for it.
#[derive(Debug, Drop)]
pub(crate) struct Counts {
    row: Vec<u32>,
    rest: IndexMap<u32, u128>,
}

impl Counts {
    /// No entry is counted. It takes no memory.
    pub(crate) fn new(alloc: Global) -> Counts
        ensures { (t : ℕ) → count_of result t ≡ 0 }
    {
        Counts {
            row: Vec::new(alloc),
            rest: IndexMap::new(alloc),
        }
    }

    /// Whether some entry has the target.
    pub(crate) fn has(&self, target: u32) -> bool
        ensures { result ≡ nat_lt 0 (count_of self.now target) }
    {
        let place = target as usize;
        if place < self.row.len() && self.row[place] > 0 {
            return true;
        }
        rest::has(&self.rest, target)
    }

    /// Takes room for so many entries more, whichever targets they have.
    pub(crate) fn reserve(&mut self, more: u32) -> Result<(), Memory>
        ensures same { HasSameCounts self.old self.new }
        ensures ok { OnOk result (more ≤ room_in self.new) }
        ensures succeeds { more ≤ room_in self.old → IsOk result }
        ensures keeps { room_in self.old ≤ room_in self.new }
    {
        self.rest.reserve(more as usize)
    }

    /// Makes the row long enough for the target, where that is to be and there is memory for it.
    fn widen(&mut self, target: u32)
        ensures same { HasSameCounts self.old self.new }
        ensures keeps { room_in self.old ≤ room_in self.new }
    {
        if target < ROW_END && self.row.len() <= target as usize {
            let _ = self.row.resize(2 * (target as usize + 1), 0);
        }
    }

    /// Counts an entry more with the target, for which there is room.
    #[inline(always)]
    pub(crate) fn add(&mut self, target: u32)
        requires small { count_of self.old target + 1 < 2 ^ 128 }
        requires room { 0 < room_in self.old }
        ensures counts { (t : ℕ) → count_of self.new t ≡ count_of self.old t + (if t == target then 1 else 0) }
        ensures room { room_in self.old ≤ room_in self.new + 1 }
    {
        self.widen(target);
        let place = target as usize;
        if place < self.row.len() && self.row[place] < u32::MAX {
            self.row[place] += 1;
        } else {
            rest::add(&mut self.rest, target);
        }
    }

    /// Counts an entry less with the target, which has one. It takes no memory.
    fn forget(&mut self, target: u32)
        requires { 0 < count_of self.old target }
        ensures counts { (t : ℕ) → count_of self.new t + (if t == target then 1 else 0) ≡ count_of self.old t }
        ensures room { room_in self.old ≤ room_in self.new }
    {
        let place = target as usize;
        if place < self.row.len() && self.row[place] > 0 {
            self.row[place] -= 1;
        } else {
            rest::forget(&mut self.rest, target);
        }
    }

    /// Counts each of the entries less. It takes no memory.
    pub(crate) fn forget_all(&mut self, entries: &[TempRef])
        requires { (t : ℕ) → count_in t entries.now ≤ count_of self.old t }
        ensures counts { (t : ℕ) → count_of self.new t + count_in t entries.now ≡ count_of self.old t }
        ensures room { room_in self.old ≤ room_in self.new }
    {
        for entry in entries {
            self.forget(entry.target);
        }
    }
}
