//! The calls of clients, and the steps of their aborts, on the journal with its log.
ghost use Rattle.std.specs.Prelude.{◌≡◌, ◌≢◌, ◌↔◌, ℕ, ◌≤◌, true, false, length, IfOk, IfErr, IfSome, IsErrOf, IsSome, None, ◌⊎◌};
ghost use Rattle.plain_model.specs.Machine.{IsInRange, refusal_of, transaction_of};
ghost use Rattle.plain_model.specs.History.{end_of};
ghost use Rattle.disk_model.specs.Time.{LeavesOnlyImages};
ghost use Rattle.core_store.specs.Frames.{Agree, HasPages};
ghost use Rattle.core_store.specs.JournalView.{cells_of};
ghost use Rattle.core_store.specs.Limited.{AreLimits, is_past_limit, pages_for_call};
ghost use Rattle.core_store.specs.Logged.{pages_for_undo};
ghost use Rattle.core_store.specs.Owed.{bytes_needed, entries_needed};
ghost use Rattle.core_store.specs.Replaced.{next_to_restore};
ghost use Rattle.logged_journal.specs.View.{IsPast, KeepsLog};
ghost use Rattle.logged_journal.specs.Records.{MayHave};
ghost use Rattle.logged_journal.specs.Opens.{OpensDuring};
ghost use Rattle.logged_journal.specs.Calls.{IsOfJournal, IsGranted, IsPastLog, DoesCall, KeepsFrames, KeepsDisk, GoesOn, OnlyForces, FailsCommit, DoesAbortStep};

use crate::failed::{FailedCall, Stopped};
use crate::logged::LoggedJournal;
use crate::spell::{append_last, append_record};
use core_store::{AbortStep, Three, bytes_needed};
use disk_model::Disk;
use log_record::CellRecord;
use plain_model::{Call, Reply};

impl<const SLOTS: usize, D: Disk> LoggedJournal<SLOTS, D> {
    /// A call that the journal refuses, or has no room for. It logs nothing.
    fn refuse(&mut self, held: &mut Three<SLOTS>, pass: u8, call: &Call) -> Reply
        requires client { (1 ≤ pass) × (pass ≤ 64) }
        requires in_range { IsInRange SLOTS call.now }
        requires no_abort { call.now ≡ Call.Abort → transaction_of (end_of self.old.journal.history).state pass ≡ None }
        requires agree { Agree (cells_of self.old.journal) held.old }
        requires ready { HasPages self.old.journal.history.ids (pages_for_call self.old.journal pass call.now) held.old }
        requires running { self.old.failed ≡ None }
        requires refused { IsGranted self.old.journal pass call.now → ⊥ }
        ensures journal { IsOfJournal result }
        ensures does { DoesCall SLOTS self.old.journal self.new.journal pass call.now result }
        ensures frames { KeepsFrames self.old.journal self.new.journal held.old held.new }
        ensures same { (result ≡ Reply.TraceFull) ⊎ (result ≡ Reply.Memory) → held.new ≡ held.old }
        ensures kept { (result ≡ Reply.TraceFull) ⊎ (result ≡ Reply.Memory) → KeepsLog self.old self.new }
        ensures disk { KeepsDisk self.old self.new }
        ensures goes_on { GoesOn self.old self.new }
    {
        self.journal.apply(held, pass, call)
    }

    /// Whether the call can be made before it is known whether it is granted: it is no commit, the history has room for it,
    /// and what it needs stays within the log's limit.
    fn is_within(&self, call: &Call) -> bool
        requires running { self.now.failed ≡ None }
        ensures within { result ≡ true → (call.now ≢ Call.Commit) × (is_past_limit self.now.journal (entries_needed call.now) ≡ false) × (IsPast self.now (bytes_needed call.now) → ⊥) × AreLimits self.now.journal.limits }
        ensures other { result ≡ false → (call.now ≡ Call.Commit) ⊎ (is_past_limit self.now.journal (entries_needed call.now) ≡ true) ⊎ IsPast self.now (bytes_needed call.now) }
    {
        match call {
            Call::Commit => false,
            _ => !self.journal.is_full_for(call) && !self.is_past(bytes_needed(call)),
        }
    }

    /// A call that is no commit, for which there is room in the history and in the log. Where it is refused, it logs nothing.
    fn log_call(&mut self, held: &mut Three<SLOTS>, pass: u8, call: &Call) -> Reply
        requires client { (1 ≤ pass) × (pass ≤ 64) }
        requires in_range { IsInRange SLOTS call.now }
        requires no_abort { call.now ≡ Call.Abort → transaction_of (end_of self.old.journal.history).state pass ≡ None }
        requires agree { Agree (cells_of self.old.journal) held.old }
        requires ready { HasPages self.old.journal.history.ids (pages_for_call self.old.journal pass call.now) held.old }
        requires running { self.old.failed ≡ None }
        requires history { is_past_limit self.old.journal (entries_needed call.now) ≡ false }
        requires other { call.now ≢ Call.Commit }
        requires room { IsPast self.old (bytes_needed call.now) → ⊥ }
        requires limits { AreLimits self.old.journal.limits }
        ensures journal { IsOfJournal result }
        ensures does { DoesCall SLOTS self.old.journal self.new.journal pass call.now result }
        ensures frames { KeepsFrames self.old.journal self.new.journal held.old held.new }
        ensures same { (result ≡ Reply.TraceFull) ⊎ (result ≡ Reply.Memory) → held.new ≡ held.old }
        ensures kept { (result ≡ Reply.TraceFull) ⊎ (result ≡ Reply.Memory) → KeepsLog self.old self.new }
        ensures disk { KeepsDisk self.old self.new }
        ensures goes_on { GoesOn self.old self.new }
    {
        let room = self.journal.bytes_owed() + bytes_needed(call);
        if self.log.reserve(room).is_err() {
            return Reply::Memory;
        }
        match self.journal.apply(held, pass, call) {
            Reply::Memory => Reply::Memory,
            reply => {
                append_last(&self.journal, &mut self.log, &mut self.marks);
                self.peak = self.peak.max(self.log.used() + self.journal.bytes_owed());
                reply
            }
        }
    }

    /// A commit that is granted. Its record and those before it are made to last, and then it is done.
    fn commit(&mut self, held: &mut Three<SLOTS>, pass: u8) -> Reply
        requires client { (1 ≤ pass) × (pass ≤ 64) }
        requires agree { Agree (cells_of self.old.journal) held.old }
        requires ready { HasPages self.old.journal.history.ids (pages_for_call self.old.journal pass Call.Commit) held.old }
        requires running { self.old.failed ≡ None }
        requires granted { IsGranted self.old.journal pass Call.Commit }
        ensures done { IsOfJournal result → (result ≡ Reply.Done) × (self.new.durable ≡ length self.new.journal.notes) }
        ensures does { IsOfJournal result → DoesCall SLOTS self.old.journal self.new.journal pass Call.Commit result }
        ensures goes_on { IsOfJournal result → GoesOn self.old self.new }
        ensures frames { KeepsFrames self.old.journal self.new.journal held.old held.new }
        ensures other { (IsOfJournal result → ⊥) → result ≡ Reply.DiskFault }
        ensures fault { result ≡ Reply.DiskFault → FailsCommit D.faults self.old self.new pass Call.Commit × (held.new ≡ held.old) }
        ensures later { D.faults self.old.disk ≤ D.faults self.new.disk }
        ensures count { result ≢ Reply.DiskFault → D.faults self.new.disk ≡ D.faults self.old.disk }
        ensures areas { OnlyForces D.content D.may_leave self.old self.new Call.Commit result }
        ensures moments { LeavesOnlyImages D.moment D.left_since self.old.disk self.new.disk (MayHave self.old pass) }
    {
        append_record::<SLOTS>(&mut self.log, &CellRecord::Commit { pass });
        if self.log.force(self.disk.as_mut()).is_err() {
            self.failed = Some(FailedCall {
                commit: Some(pass),
                faults: self.disk.faults(),
            });
            return Reply::DiskFault;
        }
        let reply = self.journal.apply(held, pass, &Call::Commit);
        self.durable = self.journal.history().len();
        reply
    }

    /// Does the call, adds its entry and answers what the entry says. What it changed joins the log with it, and a commit
    /// is answered when it is there for good.
    ///
    /// `Reply::Stopped` comes exactly where the disk failed a call before, `Reply::LogFull` exactly where the call would
    /// be done and what it needs would go past the log's limit. Both do nothing. `Reply::DiskFault` comes of a commit alone,
    /// and only where the disk's count of faults rose in this call.
    pub fn apply(&mut self, held: &mut Three<SLOTS>, pass: u8, call: &Call) -> Reply
        requires client { (1 ≤ pass) × (pass ≤ 64) }
        requires in_range { IsInRange SLOTS call.now }
        requires no_abort { call.now ≡ Call.Abort → transaction_of (end_of self.old.journal.history).state pass ≡ None }
        requires agree { Agree (cells_of self.old.journal) held.old }
        requires ready { HasPages self.old.journal.history.ids (pages_for_call self.old.journal pass call.now) held.old }
        ensures stopped { IfSome self.old.failed (λ f. (result ≡ Reply.Stopped f.faults) × (self.new ≡ self.old) × (held.new ≡ held.old)) }
        ensures only_stopped { (faults : ℕ) → result ≡ Reply.Stopped faults → IsSome self.old.failed }
        ensures log_full { (result ≡ Reply.LogFull) ↔ IsPastLog self.old pass call.now }
        ensures log_marked { result ≡ Reply.LogFull → (self.new ≡ record self.old { log_full = true }) × (held.new ≡ held.old) }
        ensures does { IsOfJournal result → DoesCall SLOTS self.old.journal self.new.journal pass call.now result }
        ensures goes_on { IsOfJournal result → GoesOn self.old self.new }
        ensures frames { KeepsFrames self.old.journal self.new.journal held.old held.new }
        ensures same { (result ≡ Reply.TraceFull) ⊎ (result ≡ Reply.Memory) → held.new ≡ held.old }
        ensures kept { (result ≡ Reply.TraceFull) ⊎ (result ≡ Reply.Memory) → KeepsLog self.old self.new }

        // A commit that was done is there for good, with all before it. It takes no memory.
        ensures committed { call.now ≡ Call.Commit → result ≡ Reply.Done → self.new.durable ≡ length self.new.journal.notes }
        ensures commit { call.now ≡ Call.Commit → refusal_of (end_of self.old.journal.history).state pass Call.Commit ≡ None → result ≢ Reply.Memory }

        // The disk is asked for nothing but a commit that is granted.
        ensures untouched { (call.now ≡ Call.Commit → IsGranted self.old.journal pass Call.Commit → ⊥) → KeepsDisk self.old self.new }
        ensures fault { result ≡ Reply.DiskFault → FailsCommit D.faults self.old self.new pass call.now × (held.new ≡ held.old) }
        ensures later { D.faults self.old.disk ≤ D.faults self.new.disk }
        ensures count { result ≢ Reply.DiskFault → D.faults self.new.disk ≡ D.faults self.old.disk }

        // No area but the log's changes; a commit that was done adds one batch to it, of the tail and the commit's own record.
        ensures areas { OnlyForces D.content D.may_leave self.old self.new call.now result }

        // At each moment of the call a power loss leaves a log of what was there for good before, or, where it is a commit,
        // of all that was done and this commit.
        ensures moments { LeavesOnlyImages D.moment D.left_since self.old.disk self.new.disk (MayHave self.old pass) }

        // So at each of them the store opens, to a graph that a crash before the call may leave, or, where it is a commit that
        // is granted, a crash after the disk failed it.
        ensures opens { LeavesOnlyImages D.moment D.left_since self.old.disk self.new.disk (OpensDuring SLOTS self.old pass call.now) }
    {
        self.know_images();
        if let Some(failed) = self.failed {
            return Reply::Stopped {
                faults: failed.faults,
            };
        }
        if self.is_within(call) {
            return self.log_call(held, pass, call);
        }
        if !self.journal.grants(pass, call) {
            return self.refuse(held, pass, call);
        }
        if self.is_past(bytes_needed(call)) {
            self.mark_full();
            return Reply::LogFull;
        }
        self.commit(held, pass)
    }

    /// Undoes the last write of the client's transaction that isn't undone, or ends the transaction where none is left. What
    /// it changed joins the log with it, in room that was owed. It takes no memory.
    ///
    /// [`Stopped`] comes exactly where the disk failed a call before.
    pub fn abort_step(&mut self, held: &mut Three<SLOTS>, pass: u8) -> Result<AbortStep, Stopped>
        requires active { IsSome (transaction_of (end_of self.old.journal.history).state pass) }
        requires agree { Agree (cells_of self.old.journal) held.old }
        requires ready { HasPages self.old.journal.history.ids (pages_for_undo (cells_of self.old.journal) (next_to_restore (end_of self.old.journal.history) pass)) held.old }
        ensures stopped { IfSome self.old.failed (λ f. (IsErrOf result (record { faults = f.faults })) × (self.new ≡ self.old) × (held.new ≡ held.old)) }
        ensures only_stopped { IfErr result (λ _. IsSome self.old.failed) }
        ensures does { IfOk result (λ step. DoesAbortStep SLOTS self.old.journal self.new.journal pass step) }
        ensures goes_on { IfOk result (λ _. GoesOn self.old self.new) }
        ensures frames { KeepsFrames self.old.journal self.new.journal held.old held.new }
        ensures untouched { KeepsDisk self.old self.new }
    {
        if let Some(failed) = self.failed {
            return Err(Stopped {
                faults: failed.faults,
            });
        }
        let step = self.journal.abort_step(held, pass);
        append_last(&self.journal, &mut self.log, &mut self.marks);
        Ok(step)
    }
}
