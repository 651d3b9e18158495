//! A store, and how a transaction of it begins and ends.
ghost use Rattle.std.specs.Prelude.{◌≡◌, ◌≤◌, max, true, None, IfOk, IfErr, OnOk};
ghost use Rattle.disk_model.specs.Time.{LeavesOnlyImages};
ghost use Rattle.cell_model.specs.Graph.{graph_of as graph_of_cells};
ghost use Rattle.journal_opening.specs.Openings.{OpensAs, RefusesToOpen, OpensMeanwhile, HasFault};
ghost use Rattle.gate_log.specs.State.{used};
ghost use Rattle.logged_journal.specs.Opens.{OpensDuring};
ghost use Rattle.object_store.specs.Seen.{object_slots, client};

use crate::error::StoreError;
use crate::options::Options;
use crate::table::Table;
use crate::tending::Tending;
use crate::transaction::Transaction;
use crate::{SLOTS, ending};
use disk_model::Disk;
use framed_journal::FramedJournal;
use journal_opening::open;
use logged_journal::LoggedJournal;
use plain_model::Call;
use std::alloc::Global;
use std::marker::Model;
use store_opening::OpenRefusal;

/// A store that was opened from its disk. One transaction at a time works on it.
#[derive(Drop)]
pub struct Store<D: Disk> {
    pub(crate) framed: FramedJournal<SLOTS, D>,
    pub(crate) table: Table,
    pub(crate) tending: Tending,
}

/// Contracts see the journal with its log and its disk, what the open transaction holds, and what the store sees to by itself.
impl<D: Disk> Model for Store<D> {
    ghost use Rattle.object_store.specs.Handles.{StoreView, store_at, IsKept};

    ghost Value = { StoreView D };

    ghost view = { λ s. store_at s.tending s.framed s.table };

    ghost invariant = { λ s. IsKept s.framed s.table };
}

impl<D: Disk> Store<D> {
    ghost use Rattle.std.specs.Borrow.{sem, RestsIfErr};
    ghost use Rattle.object_store.specs.contracts.store.Store.{the_row};
    ghost use Rattle.object_store.specs.Handles.{graph_of, committed_of, is_live, IsClosed};
    ghost use Rattle.object_store.specs.Steps.{Begins, FailsToBegin, Aborts, Commits, FailsToCommit};
    ghost use Rattle.object_store.specs.Upkeep.{soft_limit};
    ghost use Rattle.object_store.specs.Tended.{EndsLeft, Starts, FailsToStart, CommitsAndCollects};

    /// Opens the store that the disk holds. Where it isn't opened the disk is handed back.
    ///
    /// What had not been committed is undone for good. Each refusal but that of the disk and that of memory is what the disk holds.
    pub fn open(alloc: Global, disk: D, options: Options) -> Result<Store<D>, (OpenRefusal, D)>
        ensures opened { IfOk result (λ s. OpensAs D.content D.faults object_slots disk options.limits s.below) }
        ensures graph { IfOk result (λ s. committed_of s ≡ graph_of_cells s.below.journal.opening) }
        ensures closed { IfOk result (λ s. IsClosed s) }
        ensures tending { IfOk result (λ s. s.tending ≡ options.tending) }
        ensures meanwhile { IfOk result (λ s. OpensMeanwhile D.content D.may_leave D.moment D.left_since object_slots disk s.below.disk) }
        ensures refused { IfErr result (λ e. RefusesToOpen D.content D.may_leave D.moment D.left_since object_slots disk e.0 e.1) }
        ensures meanwhile_refused { IfErr result (λ e. OpensMeanwhile D.content D.may_leave D.moment D.left_since object_slots disk e.1) }
        ensures fault { IfErr result (λ e. HasFault (D.faults disk) (D.faults e.1) e.0) }
    {
        match open(alloc, disk, options.limits()) {
            Ok(framed) => Ok(Store {
                framed,
                table: Table::new(),
                tending: options.tending(),
            }),
            Err(refused) => Err(refused),
        }
    }

    /// The journal of the store with its log, which tells the whole history since the opening.
    pub fn logged(&self) -> &LoggedJournal<SLOTS, D>
        ensures { result.now ≡ self.now.below }
    {
        self.framed.logged()
    }

    /// Closes the store, and gives its disk back. What was committed is there for good.
    pub fn close(self) -> D
        ensures { result ≡ self.below.disk }
    {
        let Store {
            framed,
            table: _,
            tending: _,
        } = self;
        framed.into_logged().into_disk()
    }

    /// Begins a transaction. It sees what is committed, and holds the root.
    ///
    /// What a handle left without a commit is ended first, without its writes. Where more of the log is in use then than the soft limit of
    /// the options, a checkpoint is made, and its error is answered. Else [`StoreError::Stopped`] comes exactly where the disk failed a call
    /// before, and otherwise the transaction begins, unless memory or the history is short. [`StoreError::LogFull`] comes only from the
    /// checkpoint, and where the soft limit and nine bytes more pass the limit of the log.
    pub fn begin(&mut self) -> Result<Transaction<'_, D>, StoreError>
        ensures* refused { sem 𝓛 (RestsIfErr (the_row D.row D.Disk) self.entry (λ t. t.store.ghost_name) result (λ last. IfErr result (λ why. FailsToStart D.faults D.may_leave why self.old last))) }
        ensures same_reference { IfOk result (λ t. t.store.ghost_name ≡ self.entry.ghost_name) }
        ensures begun { IfOk result (λ t. Starts D.may_leave self.old t.store.now) }
    {
        self.start_ready()?;
        Ok(Transaction::new(self))
    }

    /// Ends what was left open, makes the store ready, and begins a transaction.
    fn start_ready(&mut self) -> Result<(), StoreError>
        ensures begun { OnOk result (Starts D.may_leave self.old self.new) }
        ensures refused { IfErr result (λ why. FailsToStart D.faults D.may_leave why self.old self.new) }
    {
        self.end_left();
        match self.ready() {
            Ok(()) => self.start(),
            Err(why) => Err(why),
        }
    }

    /// Ends the transaction that a handle left open, if there is one.
    fn end_left(&mut self)
        ensures { EndsLeft self.old self.new }
    {
        ending::end_open(&mut self.framed);
    }

    /// Begins a transaction.
    fn start(&mut self) -> Result<(), StoreError>
        requires closed { self.old.below.failed ≡ None → IsClosed self.old }
        requires room { used self.old.below.log ≤ max 15 (soft_limit self.old) }
        ensures begun { OnOk result (Begins self.old self.new) }
        ensures refused { IfErr result (λ why. FailsToBegin why self.old self.new) }
    {
        let used = self.framed.logged().log_used();
        match ending::begin(&mut self.framed) {
            Ok(()) => {
                self.table = Table::new();
                self.tending = self.tending.at_beginning(used);
                Ok(())
            }
            Err(why) => Err(why),
        }
    }

    /// Ends the open transaction without its writes.
    pub(crate) fn abort(&mut self)
        requires live { is_live self.old ≡ true }
        ensures { Aborts self.old self.new }
    {
        ending::end_open(&mut self.framed);
    }

    /// Commits the open transaction.
    pub(crate) fn commit(&mut self) -> Result<(), StoreError>
        requires live { is_live self.old ≡ true }
        ensures done { OnOk result (Commits self.old self.new) }
        ensures failed { IfErr result (λ why. FailsToCommit D.faults self.old self.new why) }
        ensures opens { LeavesOnlyImages D.moment D.left_since self.old.below.disk self.new.below.disk (OpensDuring object_slots self.old.below client Call.Commit) }
    {
        ending::commit(&mut self.framed)
    }

    /// Commits the open transaction, and makes so many steps of the collector then as the options say.
    pub(crate) fn commit_and_collect(&mut self) -> Result<(), StoreError>
        requires live { is_live self.old ≡ true }
        ensures done { OnOk result (CommitsAndCollects self.old self.new) }
        ensures failed { IfErr result (λ why. FailsToCommit D.faults self.old self.new why) }
        ensures opens { LeavesOnlyImages D.moment D.left_since self.old.below.disk self.new.below.disk (OpensDuring object_slots self.old.below client Call.Commit) }
    {
        let steps = self.tending.steps;
        match self.commit() {
            Ok(()) => {
                // The commit is done, whatever comes of these steps.
                let _ = self.collect(steps);
                Ok(())
            }
            Err(why) => Err(why),
        }
    }
}
