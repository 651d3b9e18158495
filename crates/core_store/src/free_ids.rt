//! The ids that aren't stored.
ghost use Rattle.std.specs.Prelude.{◌≡◌, ℕ, ◌<◌, ◌≤◌, length, get_or, not, ◌&&◌, ◌+◌, false, [], IfOk, MatchOption};
ghost use Rattle.std.specs.List.{list_any};
ghost use Rattle.std.specs.Ordering.{nat_cmp};
ghost use Rattle.std.specs.BTreeMap.{is_at};
ghost use Rattle.cell_model.specs.Cells.{is_live};
ghost use Rattle.core_store.specs.Opening.{store_of};
ghost use Rattle.core_store.specs.FreeIds.{AreFreeIn, IsLeastOf, Frees, Takes, IsNextFree, taken};

use cell_page::Cell;
use plain_model::Memory;
use std::alloc::Global;
use std::marker::Model;

/// The ids of a store that aren't stored, of all from 1 to a limit.
///
/// A call costs the same however many there are, but for `stored`, and for `remove`, which looks for the least one after the one
/// that it takes, up to `last`.
#[derive(Debug, Drop)]
pub(crate) struct FreeIds {
    /// For each id, at its index, whether it is free.
    row: Vec<bool>,
    /// The least free id, or the one after the limit where none is free.
    first: u32,
    /// No id above this one is free. It is the greatest of the store at first; once none was free, the greatest that was freed
    /// since then, or 0.
    last: u32,
    /// The greatest id of the store.
    limit: u32,
}

impl Model for FreeIds {
    ghost use Rattle.core_store.specs.FreeIds.{FreeView, IsFreeInside, free_in};

    ghost Value = { FreeView };

    ghost view = { λ a. record { ids = free_in a.row.items a.limit; limit = a.limit } };

    ghost invariant = { λ a. IsFreeInside a.row.items a.first a.last a.limit };
}

/// Marks the id of each live cell as stored, where the cells stand by their ids from 1 on.
fn mark_live<const SLOTS: usize>(row: &mut Vec<bool>, cells: &[Cell<SLOTS>])
    requires { length row.old.items ≡ length cells.now + 1 }
    ensures length { length row.new.items ≡ length row.old.items }
    ensures marked { (id : ℕ) → 0 < id → id ≤ length cells.now → get_or row.new.items id false ≡ (not (is_live (store_of cells.now) id) && get_or row.old.items id false) }
{
    for (place, cell) in cells.iter().enumerate() {
        if cell.live {
            row[place + 1] = false;
        }
    }
}

/// The least id from this one on that the row marks as free, or the one after the last where it marks none up to that.
fn next_free(row: &Vec<bool>, from: u32, last: u32) -> u32
    requires length { last + 1 ≤ length row.now.items }
    requires few { last ≤ 8192 }
    requires within { from ≤ last + 1 }
    ensures { IsNextFree row.now.items from last result }
{
    for id in from..last + 1 {
        if row[id as usize] {
            return id;
        }
    }
    last + 1
}

impl FreeIds {
    /// The free ids of a store with these cells, which stand by their ids from 1 on: those whose cells aren't live.
    pub(crate) fn over<const SLOTS: usize>(
        alloc: Global,
        cells: &[Cell<SLOTS>],
    ) -> Result<FreeIds, Memory>
        requires { length cells.now ≤ 8192 }
        ensures free { IfOk result (λ f. AreFreeIn (store_of cells.now) (length cells.now) f.ids) }
        ensures limit { IfOk result (λ f. f.limit ≡ length cells.now) }
    {
        let mut row = vec![in alloc; true; cells.len() + 1]?;
        mark_live(&mut row, cells);
        let limit = cells.len() as u32;
        let first = next_free(&row, 1, limit);
        Ok(FreeIds {
            row,
            first,
            last: limit,
            limit,
        })
    }

    /// Whether the id is free.
    pub(crate) fn contains(&self, id: u32) -> bool
        ensures { result ≡ list_any (is_at (nat_cmp id)) self.now.ids }
    {
        1 <= id && id <= self.limit && self.row[id as usize]
    }

    /// The least free id, where there is one.
    pub(crate) fn least(&self) -> Option<u32>
        ensures { MatchOption result (self.now.ids ≡ []) (IsLeastOf self.now.ids) }
    {
        if self.first <= self.limit {
            Some(self.first)
        } else {
            None
        }
    }

    /// The least free id is stored from now on.
    pub(crate) fn remove(&mut self, id: u32)
        requires { IsLeastOf self.old.ids id }
        ensures takes { Takes self.old.ids self.new.ids id }
        ensures limit { self.new.limit ≡ self.old.limit }
    {
        self.row[id as usize] = false;
        let next = next_free(&self.row, id + 1, self.last);
        if next <= self.last {
            self.first = next;
        } else {
            self.first = self.limit + 1;
            self.last = 0;
        }
    }

    /// The stored id is free from now on.
    pub(crate) fn insert(&mut self, id: u32)
        requires within { (1 ≤ id) × (id ≤ self.old.limit) }
        requires stored { list_any (is_at (nat_cmp id)) self.old.ids ≡ false }
        ensures frees { Frees self.old.ids self.new.ids id }
        ensures limit { self.new.limit ≡ self.old.limit }
    {
        self.row[id as usize] = true;
        self.first = self.first.min(id);
        self.last = self.last.max(id);
    }

    /// The ids that are stored, ascending.
    pub(crate) fn stored(&self, alloc: Global) -> Result<Vec<u32>, Memory>
        ensures { IfOk result (λ v. v.items ≡ taken self.now.ids self.now.limit) }
    {
        let mut stored = Vec::new(alloc);
        for i in 0..self.limit {
            let id = i + 1;
            if !self.contains(id) {
                stored.push(id)?;
            }
        }
        Ok(stored)
    }
}
