//! A journal with its log, and the frames of its pages.
ghost use Rattle.std.specs.Prelude.{◌≡◌, ◌≢◌, ◌↔◌, ◌⊎◌, ℕ, ◌*◌, ◌<◌, ◌≤◌, List, [], true, false, length, IfOk, IfErr, IfSome, IsErrOf, OnOk, IsSome, Some, None};
ghost use Rattle.plain_model.specs.Machine.{IsInRange, refusal_of, transaction_of};
ghost use Rattle.plain_model.specs.History.{with_entry, end_of, left_to_undo, least_active};
ghost use Rattle.cell_model.specs.Consistent.{AreConsistent};
ghost use Rattle.restart_laws.specs.Graph.{zeros_of};
ghost use Rattle.disk_model.specs.declared.area.Area.TheVariants.{Pages};
ghost use Rattle.disk_model.specs.Told.{Leaves, EachImage};
ghost use Rattle.disk_model.specs.Time.{LeavesOnlyImages};
ghost use Rattle.cell_page.specs.Format.{IsSlotCount, page_size};
ghost use Rattle.gate_log.specs.declared.stage.Stage.TheVariants.{Standing};
ghost use Rattle.gate_log.specs.Batches.{most_bytes};
ghost use Rattle.gate_log.specs.State.{used, other_log};
ghost use Rattle.gate_log.specs.OnDisk.{IsOn};
ghost use Rattle.page_marks.specs.Marks.{IsMarkedBegun};
ghost use Rattle.core_store.specs.RoundView.{Closed};
ghost use Rattle.core_store.specs.Limited.{AreLimits, is_past_limit};
ghost use Rattle.core_store.specs.JournalView.{cells_of};
ghost use Rattle.core_store.specs.Opening.{ArePages, stored_in, opened_history};
ghost use Rattle.logged_journal.specs.View.{KeepsLog, OnlyTakesRoom, bytes_counted, history_of};
ghost use Rattle.logged_journal.specs.Records.{MayHave, MayHaveAll};
ghost use Rattle.logged_journal.specs.Opens.{OpensAfter, OpensDuring};
ghost use Rattle.logged_journal.specs.Upkeep.{IsPastLogToClean, IsPastLogToTurn, IsTurned, KeepsButPages, Turns, TellsBusy, FailsUpkeep, OnlyNames};
ghost use Rattle.logged_journal.specs.Calls.{IsOfJournal, IsGranted, IsPastLog, DoesCall, KeepsDisk, GoesOn, OnlyForces, FailsCommit, DoesAbortStep};
ghost use Rattle.framed_journal.specs.Holding.{AreFramesOf};
ghost use Rattle.framed_journal.specs.Upkeep.{CleansPage, ForcesPages};
ghost use Rattle.framed_journal.specs.Steps.{CollectsNext, CollectsOnFrames, FillsLog, UndoesAll, with_undos};

use crate::holding::{
    all_frames, held_between, hold_for_abort_step, hold_for_call, hold_for_collect_step,
    into_frames, put_back,
};
use core_store::{AbortStep, Collect, Frame, Limits, Three};
use disk_model::Disk;
use gate_log::GateLog;
use logged_journal::{CollectRefusal, LoggedJournal, Stopped, Upkeep};
use page_marks::PageMarks;
use plain_model::{Call, Entry, Memory, Reply};
use std::alloc::Global;
use std::marker::Model;

/// A journal with its log on a disk, and the frames of all its pages, in order.
///
/// Each call of the journal is one call here: the frames that it wants are found and put back. Clients are told apart by
/// a number of their own, from 1 to 64. What is only read, the history above all, is read through `logged`.
#[derive(Drop)]
pub struct FramedJournal<const SLOTS: usize, D: Disk> {
    logged: LoggedJournal<SLOTS, D>,
    /// The frames of a store of at most three pages.
    frames: Vec<Frame<SLOTS>>,
    /// The frames of a larger store, which are all held for good; else those of the call that is made, and none between calls.
    held: Three<SLOTS>,
}

/// Contracts see the journal and its log. The frames are the pages of its store.
impl<const SLOTS: usize, D: Disk> Model for FramedJournal<SLOTS, D> {
    ghost use Rattle.logged_journal.specs.View.{LoggedView};
    ghost use Rattle.framed_journal.specs.Holding.{AreFramesIn};

    ghost Value = { LoggedView D };

    ghost view = { λ s. s.logged };

    ghost invariant = { λ s. AreFramesIn s.logged.journal s.frames.items s.held };
}

impl<const SLOTS: usize, D: Disk> FramedJournal<SLOTS, D> {
    /// The store that opens with these frames, one for each page from 0 on, on a disk on which its log stands: the pages
    /// and the log are what it opened to, and its log tells of no transaction that hasn't ended. In it no transaction is
    /// active, and the log goes on after what it has. Where there is no memory the disk is handed back.
    pub fn resume(
        alloc: Global,
        disk: D,
        log: GateLog,
        marks: PageMarks,
        frames: Vec<Frame<SLOTS>>,
        limits: Limits,
    ) -> Result<FramedJournal<SLOTS, D>, (Memory, D)>
        requires size { IsSlotCount SLOTS }
        requires few { (1 ≤ length frames.items) × (length frames.items ≤ 1024) }
        requires pages { ArePages frames.items }
        requires consistent { AreConsistent SLOTS (8 * length frames.items) (stored_in frames.items) }
        requires limits { AreLimits limits }
        requires standing { (log.stage ≡ Standing) × (log.tail ≡ []) × (used log ≤ most_bytes) }
        requires marked { length marks ≡ length frames.items }
        requires begun { (batches : List (List ℕ)) × IsOn D.may_leave log disk batches
            × Leaves D.may_leave disk Pages (λ area. IsMarkedBegun SLOTS (length frames.items) area batches (stored_in frames.items) marks) }
        requires long { Leaves D.may_leave disk Pages (λ area. page_size SLOTS * length marks ≤ length area) }
        ensures opening { IfOk result (λ j. j.journal.opening ≡ stored_in frames.entry.items) }
        ensures history { IfOk result (λ j. j.journal.history ≡ opened_history SLOTS (8 * length frames.entry.items) (stored_in frames.entry.items)) }
        ensures notes { IfOk result (λ j. (j.journal.notes ≡ []) × (j.durable ≡ 0)) }
        ensures limits { IfOk result (λ j. (j.journal.limits ≡ limits) × (j.journal.marks ≡ record { disk = false; trace = false; log = false })) }
        ensures collector { IfOk result (λ j. (j.journal.queue ≡ zeros_of (stored_in frames.entry.items)) × (j.journal.round ≡ Closed)) }
        ensures marked { IfOk result (λ j. j.marks ≡ marks) }
        ensures running { IfOk result (λ j. (j.failed ≡ None) × (j.log_full ≡ false)) }
        ensures log { IfOk result (λ j. (j.log ≡ log) × (j.peak ≡ used log)) }
        ensures disk { IfOk result (λ j. j.disk ≡ disk) }
        ensures opened { IfOk result (λ j. j.opened ≡ D.faults disk) }
        ensures back { IfErr result (λ e. e.1 ≡ disk) }
    {
        let logged = LoggedJournal::resume(alloc, disk, log, marks, frames.as_slice(), limits)?;
        let (frames, held) = held_between(alloc, frames);
        Ok(FramedJournal {
            logged,
            frames,
            held,
        })
    }

    /// The journal with its log.
    pub fn logged(&self) -> &LoggedJournal<SLOTS, D>
        ensures logged { result.now ≡ self.now }
        ensures slots { self.now.journal.history.slots ≡ SLOTS }
    {
        &self.logged
    }

    /// The frames, in order of their pages.
    pub fn frames(&self) -> &[Frame<SLOTS>]
        ensures { AreFramesOf self.now.journal result.now }
    {
        all_frames(&self.frames, &self.held)
    }

    /// Does the call, adds its entry and answers what the entry says. What it changed joins the log with it, and a commit
    /// is answered when it is there for good.
    ///
    /// `Reply::Stopped` comes exactly where the disk failed a call before, `Reply::LogFull` exactly where the call would
    /// be done and what it needs would go past the log's limit. Both do nothing. `Reply::DiskFault` comes of a commit alone,
    /// and only where the disk's count of faults rose in this call.
    pub fn call(&mut self, client: u8, call: &Call) -> Reply
        requires client { (1 ≤ client) × (client ≤ 64) }
        requires in_range { IsInRange SLOTS call.now }
        requires no_abort { call.now ≡ Call.Abort → transaction_of (end_of self.old.journal.history).state client ≡ None }
        ensures stopped { IfSome self.old.failed (λ f. (result ≡ Reply.Stopped f.faults) × (self.new ≡ self.old)) }
        ensures only_stopped { (faults : ℕ) → result ≡ Reply.Stopped faults → IsSome self.old.failed }
        ensures kept { (result ≡ Reply.TraceFull) ⊎ (result ≡ Reply.Memory) → KeepsLog self.old self.new }
        ensures log_full { (result ≡ Reply.LogFull) ↔ IsPastLog self.old client call.now }
        ensures log_marked { result ≡ Reply.LogFull → self.new ≡ record self.old { log_full = true } }
        ensures does { IsOfJournal result → DoesCall SLOTS self.old.journal self.new.journal client call.now result }
        ensures goes_on { IsOfJournal result → GoesOn self.old self.new }

        // A commit that was done is there for good, with all before it. It takes no memory.
        ensures committed { call.now ≡ Call.Commit → result ≡ Reply.Done → self.new.durable ≡ length self.new.journal.notes }
        ensures commit { call.now ≡ Call.Commit → refusal_of (end_of self.old.journal.history).state client Call.Commit ≡ None → result ≢ Reply.Memory }

        // The disk is asked for nothing but a commit that is granted.
        ensures untouched { (call.now ≡ Call.Commit → IsGranted self.old.journal client Call.Commit → ⊥) → KeepsDisk self.old self.new }
        ensures fault { result ≡ Reply.DiskFault → FailsCommit D.faults self.old self.new client call.now }
        ensures later { D.faults self.old.disk ≤ D.faults self.new.disk }

        // No area but the log's changes; a commit that was done adds one batch to it, of the tail and the commit's own record.
        ensures areas { OnlyForces D.content D.may_leave self.old self.new call.now result }

        // At each moment of the call a power loss leaves a log of what was there for good before, or, where it is a commit,
        // of all that was done and this commit.
        ensures moments { LeavesOnlyImages D.moment D.left_since self.old.disk self.new.disk (MayHave self.old client) }

        // So at each of them the store opens, to a graph that a crash before the call may leave, or, where it is a commit that
        // is granted, a crash after the disk failed it.
        ensures opens { LeavesOnlyImages D.moment D.left_since self.old.disk self.new.disk (OpensDuring SLOTS self.old client call.now) }
    {
        let frames = self.frames.as_slice();
        hold_for_call(self.logged.journal(), frames, &mut self.held, client, call);
        let reply = self.logged.apply(&mut self.held, client, call);
        put_back(&mut self.frames, &mut self.held);
        reply
    }

    /// Undoes the last write of the client's transaction that isn't undone, or ends the transaction where none is left. It
    /// takes no memory.
    ///
    /// [`Stopped`] comes exactly where the disk failed a call before.
    pub fn abort_step(&mut self, client: u8) -> Result<AbortStep, Stopped>
        requires { IsSome (transaction_of (end_of self.old.journal.history).state client) }
        ensures stopped { IfSome self.old.failed (λ f. IsErrOf result (record { faults = f.faults }) × (self.new ≡ self.old)) }
        ensures only_stopped { IfErr result (λ _. IsSome self.old.failed) }
        ensures does { IfOk result (λ step. DoesAbortStep SLOTS self.old.journal self.new.journal client step) }
        ensures goes_on { IfOk result (λ _. GoesOn self.old self.new) }
        ensures untouched { KeepsDisk self.old self.new }
    {
        let frames = self.frames.as_slice();
        hold_for_abort_step(self.logged.journal(), frames, &mut self.held, client);
        let step = self.logged.abort_step(&mut self.held, client);
        put_back(&mut self.frames, &mut self.held);
        step
    }

    /// Undoes each write of the client's transaction that isn't undone, the last one first, and ends the transaction. It
    /// takes no memory.
    ///
    /// [`Stopped`] comes exactly where the disk failed a call before. Then nothing is done.
    pub fn abort(&mut self, client: u8) -> Result<(), Stopped>
        requires { IsSome (transaction_of (end_of self.old.journal.history).state client) }
        ensures stopped { IfSome self.old.failed (λ f. IsErrOf result (record { faults = f.faults }) × (self.new ≡ self.old)) }
        ensures only_stopped { IfErr result (λ _. IsSome self.old.failed) }
        ensures entries { OnOk result (self.new.journal.history ≡ with_entry (with_undos self.old.journal.history client (left_to_undo (end_of self.old.journal.history) client)) (Entry.Call client Call.Abort Reply.Done)) }
        ensures steps { OnOk result (UndoesAll SLOTS client self.old.journal self.new.journal) }
        ensures goes_on { OnOk result ((self.new.failed ≡ None) × (self.new.log_full ≡ self.old.log_full)) }
        ensures untouched { KeepsDisk self.old self.new }
    {
        'steps: loop {
            match self.abort_step(client)? {
                AbortStep::Undone => {}
                AbortStep::Ended => return Ok(()),
            }
        }
    }

    /// Makes one event of the collector, adds its entry and tells what it did. What it changed joins the log with it.
    ///
    /// It looks at slots until there is something to do. Where the history is not full, it is idle exactly where the queue is
    /// empty and no round is open. No object is deleted that is reachable, from the root or a held reference, in any outcome of
    /// the active transactions. [`CollectRefusal::Stopped`] comes exactly where the disk failed a call before,
    /// [`CollectRefusal::LogFull`] exactly where the event's record would go past the log's limit.
    #[inline(always)]
    pub fn collect_step(&mut self) -> Result<Collect, CollectRefusal>
        ensures stopped { IfSome self.old.failed (λ f. IsErrOf result (CollectRefusal.Stopped f.faults) × (self.new ≡ self.old)) }
        ensures only_stopped { (faults : ℕ) → IsErrOf result (CollectRefusal.Stopped faults) → IsSome self.old.failed }
        ensures log_full { IsErrOf result CollectRefusal.LogFull → FillsLog SLOTS self.old self.new }
        ensures next { IfOk result (λ step. CollectsNext SLOTS self.old self.new step) }
        ensures does { IfOk result (λ step. CollectsOnFrames SLOTS self.old.journal self.new.journal step) }
        ensures goes_on { IfOk result (λ _. GoesOn self.old self.new) }
        ensures untouched { KeepsDisk self.old self.new }
    {
        if let Some(failed) = self.logged.failed() {
            return Err(CollectRefusal::Stopped {
                faults: failed.faults,
            });
        }
        let frames = self.frames.as_slice();
        let at = hold_for_collect_step(&mut self.logged, frames, &mut self.held);
        let step = self.logged.collect_at(&mut self.held, at);
        put_back(&mut self.frames, &mut self.held);
        step
    }

    /// Cleans the page of this number, from 0: an image of it joins the log where its last image isn't current, the log is
    /// forced, and the page is made to last in place. It changes no object, and enters an entry that says so.
    ///
    /// [`Upkeep::Stopped`] comes exactly where the disk failed a call before, [`Upkeep::TraceFull`] exactly where the history has
    /// no room for one entry, [`Upkeep::LogFull`] exactly where the page's image would go past the log's limit. These and
    /// [`Upkeep::Memory`] do nothing. [`Upkeep::DiskFault`] comes only where the disk's count of faults rose in this call; the
    /// store is then stopped. [`Upkeep::Busy`] never comes.
    pub fn clean(&mut self, page: u16) -> Upkeep
        requires { 8 * page < self.old.journal.history.ids }
        ensures stopped { IfSome self.old.failed (λ f. (result ≡ Upkeep.Stopped f.faults) × (self.new ≡ self.old)) }
        ensures only_stopped { (faults : ℕ) → result ≡ Upkeep.Stopped faults → IsSome self.old.failed }
        ensures never_busy { (pass : ℕ) → result ≢ Upkeep.Busy pass }
        ensures full { (result ≡ Upkeep.TraceFull) ↔ (self.old.failed ≡ None) × (is_past_limit self.old.journal 1 ≡ true) }
        ensures marked { result ≡ Upkeep.TraceFull → self.new ≡ record self.old { journal = record self.old.journal { marks = record self.old.journal.marks { trace = true } } } }
        ensures log_full { (result ≡ Upkeep.LogFull) ↔ IsPastLogToClean SLOTS self.old }
        ensures log_marked { result ≡ Upkeep.LogFull → OnlyTakesRoom (record self.old { log_full = true }) self.new }
        ensures memory { result ≡ Upkeep.Memory → OnlyTakesRoom self.old self.new }

        // After it each image of the disk has the page in place and as the log's last image of it.
        ensures done { result ≡ Upkeep.Done → CleansPage SLOTS D.may_leave self.old self.new page }
        ensures fault { result ≡ Upkeep.DiskFault → FailsUpkeep D.faults self.old self.new }
        ensures later { D.faults self.old.disk ≤ D.faults self.new.disk }

        // No area changes but the log's and the pages.
        ensures others { KeepsButPages D.content D.may_leave self.old.disk self.new.disk self.old.log.area }

        // At each moment of the call a power loss leaves a log of what was there for good before, or of all that was done. So
        // at each of them the store opens, to a graph that a crash before the call may leave.
        ensures moments { LeavesOnlyImages D.moment D.left_since self.old.disk self.new.disk (MayHaveAll self.old) }
        ensures opens { LeavesOnlyImages D.moment D.left_since self.old.disk self.new.disk (OpensAfter SLOTS (history_of self.old)) }
    {
        let frames = all_frames(&self.frames, &self.held);
        self.logged.clean(&frames[page as usize], page)
    }

    /// Turns the log: images of all pages that changed since it began join it where none is current, it is forced, and each of
    /// these pages is made to last in place. Then it begins anew in the other log area, with its first batch alone. It changes no
    /// object, and enters an entry that says so.
    ///
    /// [`Upkeep::Stopped`] comes exactly where the disk failed a call before, [`Upkeep::TraceFull`] exactly where the history has
    /// no room for one entry, and [`Upkeep::Busy`] exactly where a transaction is active; it names the least such client, and
    /// enters the history. [`Upkeep::LogFull`] comes just where the log with these images would be longer than a log may be, unless
    /// memory is out; the log's limit doesn't matter. These but `Busy`, and [`Upkeep::Memory`], do nothing. [`Upkeep::DiskFault`]
    /// comes only where the disk's count of faults rose in this call; the store is then stopped.
    pub fn turn(&mut self) -> Upkeep
        ensures stopped { IfSome self.old.failed (λ f. (result ≡ Upkeep.Stopped f.faults) × (self.new ≡ self.old)) }
        ensures only_stopped { (faults : ℕ) → result ≡ Upkeep.Stopped faults → IsSome self.old.failed }
        ensures full { (result ≡ Upkeep.TraceFull) ↔ (self.old.failed ≡ None) × (is_past_limit self.old.journal 1 ≡ true) }
        ensures marked { result ≡ Upkeep.TraceFull → self.new ≡ record self.old { journal = record self.old.journal { marks = record self.old.journal.marks { trace = true } } } }
        ensures busy { (pass : ℕ) → self.old.failed ≡ None → is_past_limit self.old.journal 1 ≡ false → least_active (end_of self.old.journal.history).state ≡ Some pass
            → (result ≡ Upkeep.Busy pass) ⊎ (result ≡ Upkeep.Memory) }
        ensures only_busy { (pass : ℕ) → result ≡ Upkeep.Busy pass → least_active (end_of self.old.journal.history).state ≡ Some pass }
        ensures told { (pass : ℕ) → result ≡ Upkeep.Busy pass → TellsBusy SLOTS self.old self.new pass }
        ensures log_full { result ≡ Upkeep.LogFull → self.old.journal.limits.log < bytes_counted self.old }
        ensures too_long { result ≡ Upkeep.LogFull → IsPastLogToTurn SLOTS self.old }
        ensures only_too_long { IsPastLogToTurn SLOTS self.old → (result ≡ Upkeep.LogFull) ⊎ (result ≡ Upkeep.Memory) }
        ensures log_marked { result ≡ Upkeep.LogFull → OnlyTakesRoom (record self.old { log_full = true }) self.new }
        ensures memory { result ≡ Upkeep.Memory → OnlyTakesRoom self.old self.new }
        ensures done { result ≡ Upkeep.Done → Turns SLOTS self.old self.new }

        // After it each image of the disk has every page in place, and names the other log area, which has the first batch alone.
        ensures turned { result ≡ Upkeep.Done → EachImage D.may_leave self.new.disk (IsTurned SLOTS (cells_of self.old.journal) (other_log self.old.log.area)) }

        // The images that joined the log before that are those of the changed pages without a current one, ascending, each once.
        ensures old_log { result ≡ Upkeep.Done → ForcesPages SLOTS D.content self.old self.new }

        // Of the super area the first byte alone changes, which names the other log area then.
        ensures super_area { OnlyNames D.content D.may_leave self.old self.new result }
        ensures fault { result ≡ Upkeep.DiskFault → FailsUpkeep D.faults self.old self.new }
        ensures later { D.faults self.old.disk ≤ D.faults self.new.disk }

        // At each moment of the call a power loss leaves a log of what was there for good before, or of all that was done. So
        // at each of them the store opens, to a graph that a crash before the call may leave.
        ensures moments { LeavesOnlyImages D.moment D.left_since self.old.disk self.new.disk (MayHaveAll self.old) }
        ensures opens { LeavesOnlyImages D.moment D.left_since self.old.disk self.new.disk (OpensAfter SLOTS (history_of self.old)) }
    {
        self.logged.turn(all_frames(&self.frames, &self.held))
    }

    /// The journal with its log, without the frames.
    pub fn into_logged(self) -> LoggedJournal<SLOTS, D>
        ensures { result ≡ self }
    {
        self.logged
    }

    /// The journal with its log, and the frames in order of their pages.
    pub fn into_parts(self) -> (LoggedJournal<SLOTS, D>, Vec<Frame<SLOTS>>)
        ensures logged { result.0 ≡ self }
        ensures frames { AreFramesOf self.journal result.1.items }
    {
        (self.logged, into_frames(self.frames, self.held))
    }
}
