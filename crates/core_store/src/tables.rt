//! What a journal keeps beside its history: the free ids, the marks, the locks, the transactions, what they name, the queue and
//! the round.
ghost use Rattle.std.specs.Prelude.{◌≡◌, ◌<◌, ◌≤◌, ◌^◌, length, IfOk, is_some};
ghost use Rattle.plain_model.specs.History.{least_active};
ghost use Rattle.store_model.specs.Core.{Core};
ghost use Rattle.core_store.specs.Owed.{bytes_owed};
ghost use Rattle.core_store.specs.Stands.{Stands};
ghost use Rattle.cell_page.specs.Format.{IsSlotCount};
ghost use Rattle.core_store.specs.Tables.{owed_by};
ghost use Rattle.core_store.specs.RoundView.{touched_in};
ghost use Rattle.core_store.specs.Transactions.{running_at};

use crate::free_ids::FreeIds;
use crate::opening;
use crate::round::Round;
use crate::transactions::Transactions;
use cell_page::Cell;
use plain_model::Memory;
use red_walk::IdList;
use ref_tables::{TempRefs, ZeroQueue};
use std::alloc::Global;
use strict_locks::LockTable;

/// How many bytes of a log the undo of a write owes: those of its record.
const UNDO_BYTES: u64 = 25;

/// How many the end of a transaction owes: two of its record, and five more that a batch takes beside its records.
const END_BYTES: u64 = 7;

/// The free ids, the marks, the locks and the transactions.
#[derive(Debug, Drop)]
pub(crate) struct Tables<const SLOTS: usize> {
    pub(crate) alloc: Global,
    pub(crate) ids: u32,
    pub(crate) free: FreeIds,
    /// For each id, at its index, whether no strong pointer leads to its cell.
    pub(crate) zeros: Vec<bool>,
    pub(crate) locks: LockTable,
    pub(crate) transactions: Transactions,
    pub(crate) owed: usize,
    /// What the active transactions made, laid or removed.
    pub(crate) references: TempRefs,
    /// The objects without strong pointers that the collector has to look at.
    pub(crate) queue: ZeroQueue,
    pub(crate) round: Round<SLOTS>,
    /// What a transaction named that ends. It is made anew for each, in room that is kept.
    pub(crate) named: IdList,
    ghost free_sized: { free.limit ≡ ids },
    ghost owes: { owed ≡ owed_by transactions.entries },
    ghost queue_sized: { queue.limit ≡ ids },
    ghost named_sized: { named.limit ≡ ids },
    ghost round_sized: { round.limit ≡ ids },
}

impl<const SLOTS: usize> Tables<SLOTS> {
    ghost use Rattle.core_store.specs.Views.{view_of};
    ghost use Rattle.core_store.specs.Steps.{IsOpenedTo};
    ghost use Rattle.core_store.specs.FreeIds.{taken};
    ghost use Rattle.core_store.specs.Opening.{store_of};

    /// The tables of a store that opens to these cells, which stand by their ids from 1 on.
    pub(crate) fn over(alloc: Global, cells: &[Cell<SLOTS>]) -> Result<Tables<SLOTS>, Memory>
        requires size { IsSlotCount SLOTS }
        requires few { length cells.now ≤ 8192 }
        ensures { IfOk result (λ t. IsOpenedTo (view_of t) (length cells.now) (store_of cells.now)) }
    {
        let ids = cells.len() as u32;
        Ok(Tables {
            alloc,
            ids,
            free: FreeIds::over(alloc, cells)?,
            zeros: opening::zeros(alloc, cells)?,
            locks: LockTable::new(alloc),
            transactions: Transactions::new(alloc),
            owed: 0,
            references: TempRefs::new(alloc),
            queue: opening::queue(alloc, cells)?,
            round: Round::new(alloc, ids)?,
            named: IdList::new(alloc, ids)?,
        })
    }

    /// How many history entries the active transactions owe.
    pub(crate) fn owed(&self) -> usize
        ensures { result ≡ self.now.owed }
    {
        self.owed
    }

    /// How many bytes of a log the active transactions owe.
    pub(crate) fn bytes_owed(&self) -> u64
        requires standing { (c : Core) × Stands SLOTS (view_of self.now) c }
        requires few { self.now.owed < 2 ^ 32 }
        ensures { (c : Core) → Stands SLOTS (view_of self.now) c → result ≡ bytes_owed c.moment }
    {
        let ends = self.transactions.len() as u64;
        let undos = self.owed as u64 - ends;
        UNDO_BYTES * undos + END_BYTES * ends
    }

    /// Whether the client has a transaction.
    pub(crate) fn active(&self, pass: u8) -> bool
        ensures { result ≡ is_some (running_at self.now.transactions.entries pass) }
    {
        self.transactions.has(pass)
    }

    /// The least client with a transaction.
    pub(crate) fn least_active(&self) -> Option<u8>
        ensures { (c : Core) → Stands SLOTS (view_of self.now) c → result ≡ least_active c.moment.state }
    {
        self.transactions.least()
    }

    /// The stored ids, ascending.
    pub(crate) fn stored(&self, alloc: Global) -> Result<Vec<u32>, Memory>
        ensures { IfOk result (λ v. v.items ≡ taken self.now.free.ids self.now.ids) }
    {
        self.free.stored(alloc)
    }

    /// Touches the objects of a changed slot: its own, what it held and what it holds.
    #[inline(always)]
    pub(crate) fn touch(&mut self, id: u32, old: u32, target: u32)
        ensures touched { view_of self.new ≡ record (view_of self.old) { round = touched_in (touched_in (touched_in (view_of self.old).round id) old) target } }
        ensures owed { self.new.owed ≡ self.old.owed }
    {
        self.round.touch(id);
        self.round.touch(old);
        self.round.touch(target);
    }
}
