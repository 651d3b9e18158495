//! The calls of a store with one hold. Each does what the same call of a journal with its frames does.
ghost use Rattle.std.specs.Prelude.{◌≡◌, ◌≢◌, ◌↔◌, ◌⊎◌, ℕ, ◌≤◌, true, length, IsSome, IfSome, IfOk, IfErr, IsErrOf, None};
ghost use Rattle.disk_model.specs.Time.{LeavesOnlyImages};
ghost use Rattle.plain_model.specs.Machine.{IsInRange, refusal_of, transaction_of};
ghost use Rattle.plain_model.specs.History.{end_of};
ghost use Rattle.logged_journal.specs.View.{KeepsLog};
ghost use Rattle.logged_journal.specs.Records.{MayHave};
ghost use Rattle.logged_journal.specs.Opens.{OpensDuring};
ghost use Rattle.logged_journal.specs.Calls.{IsOfJournal, IsGranted, IsPastLog, DoesCall, KeepsDisk, GoesOn, OnlyForces, FailsCommit, DoesAbortStep};
ghost use Rattle.framed_journal.specs.Steps.{CollectsNext, CollectsOnFrames, FillsLog};

use crate::lone::LoneStore;
use core_store::{AbortStep, Collect};
use disk_model::Disk;
use latch_table::Chronicle;
use logged_journal::{CollectRefusal, Stopped};
use plain_model::{Call, Reply};

impl<const SLOTS: usize, D: Disk> LoneStore<SLOTS, D> {
    /// Does the client's call, adds its entry and answers what the entry says. What it changed joins the log with it, and a
    /// commit is answered when it is there for good. No other pass is out, so the answer is never that one has a word.
    ///
    /// `Reply::Stopped` comes exactly where the disk failed a call before, `Reply::LogFull` exactly where the call would
    /// be done and what it needs would go past the log's limit. Both do nothing. `Reply::DiskFault` comes of a commit alone,
    /// and only where the disk's count of faults rose in this call.
    pub fn call(&mut self, client: u8, call: &Call) -> Reply
        requires client { (1 ≤ client) × (client ≤ 64) }
        requires in_range { IsInRange SLOTS call.now }
        requires no_abort { call.now ≡ Call.Abort → transaction_of (end_of self.old.journal.history).state client ≡ None }
        ensures never_again { (word seat : ℕ) → result ≢ Reply.Again word seat }
        ensures stopped { IfSome self.old.failed (λ f. (result ≡ Reply.Stopped f.faults) × (self.new ≡ self.old)) }
        ensures only_stopped { (faults : ℕ) → result ≡ Reply.Stopped faults → IsSome self.old.failed }
        ensures kept { (result ≡ Reply.TraceFull) ⊎ (result ≡ Reply.Memory) → KeepsLog self.old self.new }
        ensures log_full { (result ≡ Reply.LogFull) ↔ IsPastLog self.old client call.now }
        ensures log_marked { result ≡ Reply.LogFull → self.new ≡ record self.old { log_full = true } }
        ensures does { IsOfJournal result → DoesCall SLOTS self.old.journal self.new.journal client call.now result }
        ensures goes_on { IsOfJournal result → GoesOn self.old self.new }

        // A commit that was done is there for good, with all before it. It takes no memory.
        ensures committed { call.now ≡ Call.Commit → result ≡ Reply.Done → self.new.durable ≡ length self.new.journal.notes }
        ensures commit { call.now ≡ Call.Commit → refusal_of (end_of self.old.journal.history).state client Call.Commit ≡ None → result ≢ Reply.Memory }

        // The disk is asked for nothing but a commit that is granted.
        ensures untouched { (call.now ≡ Call.Commit → IsGranted self.old.journal client Call.Commit → ⊥) → KeepsDisk self.old self.new }
        ensures fault { result ≡ Reply.DiskFault → FailsCommit D.faults self.old self.new client call.now }
        ensures later { D.faults self.old.disk ≤ D.faults self.new.disk }
        ensures count { result ≢ Reply.DiskFault → D.faults self.new.disk ≡ D.faults self.old.disk }

        // No area but the log's changes; a commit that was done adds one batch to it, of the tail and the commit's own record.
        ensures areas { OnlyForces D.content D.may_leave self.old self.new call.now result }

        // At each moment of the call a power loss leaves a log of what was there for good before, or, where it is a commit,
        // of all that was done and this commit.
        ensures moments { LeavesOnlyImages D.moment D.left_since self.old.disk self.new.disk (MayHave self.old client) }

        // So at each of them the store opens, to a graph that a crash before the call may leave, or, where it is a commit that
        // is granted, a crash after the disk failed it.
        ensures opens { LeavesOnlyImages D.moment D.left_since self.old.disk self.new.disk (OpensDuring SLOTS self.old client call.now) }
    {
        let before = self.journal.len();
        self.store.rename(&mut self.hold, client);
        let reply = self.journal.apply(&mut self.held, client, call);
        self.journal.know_frames();
        self.store.tell(&mut self.hold, &self.journal, before);
        reply
    }

    /// Undoes the last write of the client's transaction that isn't undone, or ends the transaction where none is left. It
    /// takes no memory.
    ///
    /// [`Stopped`] comes exactly where the disk failed a call before.
    pub fn abort_step(&mut self, client: u8) -> Result<AbortStep, Stopped>
        requires { IsSome (transaction_of (end_of self.old.journal.history).state client) }
        ensures stopped { IfSome self.old.failed (λ f. IsErrOf result (record { faults = f.faults }) × (self.new ≡ self.old)) }
        ensures only_stopped { IfErr result (λ _. IsSome self.old.failed) }
        ensures does { IfOk result (λ step. DoesAbortStep SLOTS self.old.journal self.new.journal client step) }
        ensures goes_on { IfOk result (λ _. GoesOn self.old self.new) }
        ensures untouched { KeepsDisk self.old self.new }
    {
        let before = self.journal.len();
        self.store.rename(&mut self.hold, client);
        let step = self.journal.abort_step(&mut self.held, client);
        self.journal.know_frames();
        self.store.tell(&mut self.hold, &self.journal, before);
        step
    }

    /// Makes one event of the collector, adds its entry and tells what it did. What it changed joins the log with it.
    ///
    /// It looks at slots until there is something to do. Where the history is not full, it is idle exactly where the queue is
    /// empty and no round is open. No object is deleted that is reachable, from the root or a held reference, in any outcome of
    /// the active transactions. [`CollectRefusal::Stopped`] comes exactly where the disk failed a call before,
    /// [`CollectRefusal::LogFull`] exactly where the event's record would go past the log's limit.
    #[inline(always)]
    pub fn collect_step(&mut self) -> Result<Collect, CollectRefusal>
        ensures stopped { IfSome self.old.failed (λ f. IsErrOf result (CollectRefusal.Stopped f.faults) × (self.new ≡ self.old)) }
        ensures only_stopped { (faults : ℕ) → IsErrOf result (CollectRefusal.Stopped faults) → IsSome self.old.failed }
        ensures log_full { IsErrOf result CollectRefusal.LogFull → FillsLog SLOTS self.old self.new }
        ensures next { IfOk result (λ step. CollectsNext SLOTS self.old self.new step) }
        ensures does { IfOk result (λ step. CollectsOnFrames SLOTS self.old.journal self.new.journal step) }
        ensures goes_on { IfOk result (λ _. GoesOn self.old self.new) }
        ensures untouched { KeepsDisk self.old self.new }
    {
        if let Some(failed) = self.journal.logged().failed() {
            return Err(CollectRefusal::Stopped {
                faults: failed.faults,
            });
        }
        let before = self.journal.len();
        let at = self.journal.look_on(&self.held);
        let step = self.journal.collect_at(&mut self.held, at);
        self.journal.know_frames();
        self.store.tell(&mut self.hold, &self.journal, before);
        step
    }
}
