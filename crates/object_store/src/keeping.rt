//! The upkeep of a store between its transactions.
ghost use Rattle.std.specs.Prelude.{◌≡◌, ◌↔◌, ◌<◌, true, None, Ok, IfOk, IfErr, OnOk};
ghost use Rattle.disk_model.specs.Time.{LeavesOnlyImages};
ghost use Rattle.gate_log.specs.State.{used};
ghost use Rattle.object_store.specs.Seen.{state_of};
ghost use Rattle.object_store.specs.Handles.{committed_of, IsClosed};
ghost use Rattle.object_store.specs.Upkeep.{CollectsUpTo, FailsToCollect, waiting_of, StoresReached, Checkpoints, FailsToCheckpoint, OpensToReach, soft_limit, Readies, Tends, FailsToTend};

use crate::error::StoreError;
use crate::store::Store;
use crate::{ending, upkeep};
use disk_model::Disk;
use plain_model::Ids;

impl<D: Disk> Store<D> {
    /// How many objects wait for the collector: each of them may be one that the root doesn't reach any more.
    pub fn waiting(&self) -> u32
        ensures count { result ≡ waiting_of self.now }

        // Where none waits, and no transaction is open, just the objects are stored that the root reaches.
        ensures exact { result ≡ 0 → IsClosed self.now → StoresReached self.now }
    {
        upkeep::waiting(&self.framed)
    }

    /// The ids of the stored objects, ascending: those that the root reaches, those that it doesn't reach any more and that aren't collected
    /// yet, and those that a transaction made which was left without a commit.
    pub fn stored(&self) -> Result<Ids, StoreError>
        ensures ids { IfOk result (λ ids. ids ≡ (state_of self.now.below).stored) }
        ensures refused { IfErr result (λ why. why ≡ StoreError.Memory) }
    {
        match self.framed.logged().journal().stored() {
            Ok(ids) => Ok(ids),
            Err(_) => Err(StoreError::Memory),
        }
    }

    /// How many bytes of the log are in use. A checkpoint sets them back to 15.
    pub fn log_used(&self) -> u64
        ensures { result ≡ used self.now.below.log }
    {
        self.framed.logged().log_used()
    }

    /// Makes so many steps of the collector, and answers how many objects wait for it then. Where that is none, just the objects are
    /// stored that the root reaches. It makes fewer steps only where nothing is left to do.
    ///
    /// A transaction that was left without a commit is ended first. What was done is durable with the next commit or checkpoint. At
    /// [`StoreError::HistoryFull`], [`StoreError::LogFull`] and [`StoreError::Memory`] the steps before were made.
    pub fn collect(&mut self, steps: u32) -> Result<u32, StoreError>
        ensures collects { IfOk result (λ left. CollectsUpTo steps left self.old self.new) }
        ensures waiting { IfOk result (λ left. left ≡ waiting_of self.new) }
        ensures exact { result ≡ Ok 0 → StoresReached self.new }
        ensures failed { IfErr result (λ why. FailsToCollect steps why self.old self.new) }
    {
        if self.framed.logged().failed().is_some() {
            return Err(StoreError::Stopped);
        }
        ending::end_open(&mut self.framed);
        upkeep::collect(&mut self.framed, steps)
    }

    /// Makes a checkpoint: each page that changed is made durable in its place, and the log begins anew.
    ///
    /// A transaction that was left without a commit is ended first. [`StoreError::LogFull`] comes where the log with the images that
    /// it needs would be longer than a log may be; the limit of the options doesn't matter. [`StoreError::Disk`] comes only where the
    /// disk's count of faults rose in this call. Whatever it answers, nothing that was committed is lost.
    pub fn checkpoint(&mut self) -> Result<(), StoreError>
        ensures done { OnOk result (Checkpoints D.may_leave self.old self.new) }
        ensures failed { IfErr result (λ why. FailsToCheckpoint D.faults why self.old self.new) }

        // At each moment of the call a power loss leaves a disk that opens, to a graph in which the root reaches what it reaches in the
        // committed one.
        ensures opens { self.old.below.failed ≡ None → LeavesOnlyImages D.moment D.left_since self.old.below.disk self.new.below.disk (OpensToReach (committed_of self.old)) }
    {
        if self.framed.logged().failed().is_some() {
            return Err(StoreError::Stopped);
        }
        ending::end_open(&mut self.framed);
        upkeep::turn(&mut self.framed)
    }

    /// Makes a checkpoint where more of the log is in use than the soft limit of the options, and then so many steps of the collector. It answers how
    /// many objects wait for the collector then.
    ///
    /// [`Store::begin`] makes the same checkpoint, and [`Transaction::commit`] makes some steps: call this where there is time for more.
    ///
    /// [`Transaction::commit`]: crate::Transaction::commit
    pub fn tend(&mut self, steps: u32) -> Result<u32, StoreError>
        ensures tends { IfOk result (λ left. Tends D.may_leave steps left self.old self.new) }
        ensures exact { result ≡ Ok 0 → StoresReached self.new }
        ensures failed { IfErr result (λ why. FailsToTend D.faults D.may_leave steps why self.old self.new) }
    {
        match self.ready() {
            Ok(()) => self.collect(steps),
            Err(why) => Err(why),
        }
    }

    /// Makes a checkpoint where more of the log is in use than the soft limit of the options.
    pub(crate) fn ready(&mut self) -> Result<(), StoreError>
        ensures readies { OnOk result (Readies D.may_leave self.old self.new) }
        ensures long { IfErr result (λ _. soft_limit self.old < used self.old.below.log) }
        ensures failed { IfErr result (λ why. FailsToCheckpoint D.faults why self.old self.new) }
    {
        if !self.is_log_long() {
            return Ok(());
        }
        self.checkpoint()
    }

    /// Whether more of the log is in use than the soft limit of the options.
    fn is_log_long(&self) -> bool
        ensures { (result ≡ true) ↔ (soft_limit self.now < used self.now.below.log) }
    {
        self.framed.logged().log_used() > self.tending.log
    }
}
