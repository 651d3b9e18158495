//! The journal with its log as a chronicle.
ghost use Rattle.std.specs.Prelude.{◌≡◌, ◌≢◌, ◌⊎◌, ◌↔◌, ℕ, ◌+◌, ◌*◌, ◌<◌, ◌≤◌, List, [], true, false, is_some, length, slice_get, IfOk, IfErr, IfSome, IsErrOf, IsSome, Some, None};
ghost use Rattle.plain_model.specs.Machine.{IsInRange, refusal_of, transaction_of};
ghost use Rattle.plain_model.specs.History.{IsLegal, end_of};
ghost use Rattle.disk_model.specs.Time.{LeavesOnlyImages};
ghost use Rattle.cell_page.specs.Format.{IsSlotCount};
ghost use Rattle.cell_page.specs.Stored.{HoldsPage};
ghost use Rattle.core_store.specs.declared.three.HeldFrame.{HeldFrame};
ghost use Rattle.core_store.specs.Frames.{Agree, AllAgree, HasPages, is_held};
ghost use Rattle.core_store.specs.JournalView.{cells_of};
ghost use Rattle.core_store.specs.Limited.{pages_for_call};
ghost use Rattle.core_store.specs.Logged.{pages_for_undo};
ghost use Rattle.core_store.specs.Replaced.{next_to_restore};
ghost use Rattle.logged_journal.specs.View.{KeepsLog, history_of};
ghost use Rattle.logged_journal.specs.Records.{MayHave};
ghost use Rattle.logged_journal.specs.Opens.{OpensDuring};
ghost use Rattle.logged_journal.specs.Calls.{IsOfJournal, IsGranted, IsPastLog, DoesCall, KeepsFrames, KeepsDisk, GoesOn, OnlyForces, FailsCommit, DoesAbortStep};
ghost use Rattle.shared_store.specs.Chronicles.Pages.{AreShownBy, AreOfStore};
ghost use Rattle.shared_store.specs.Chronicles.View.{origin_of, notes_of, history_after, frame_after, has_transaction};
ghost use Rattle.shared_store.specs.Chronicles.Steps.{entered_by_call, marked_by_call, entered_by_abort_step, marked_by_abort_step, GoesOnWith};

use crate::origin::JournalOrigin;
use core_store::{AbortStep, Frame, Note, Three};
use disk_model::Disk;
use latch_table::Chronicle;
use logged_journal::{LoggedJournal, Stopped};
use plain_model::{Call, Entry, Reply};
use std::alloc::{AllocFailed, Global};
use std::marker::Model;

/// A journal with its log, each page of which can stand in a frame.
///
/// As a chronicle its entries are its notes, the last of which is of the commit that the disk failed, where it failed one.
#[derive(Drop)]
pub struct JournalChronicle<const SLOTS: usize, D: Disk> {
    /// In a place of its own, so that a claim of the log's word hands over a pointer, and not the journal.
    pub(crate) logged: Box<LoggedJournal<SLOTS, D>>,
    /// How many notes there are, that of a commit that the disk failed counted.
    pub(crate) count: u64,
}

/// Contracts see the journal with its log.
impl<const SLOTS: usize, D: Disk> Model for JournalChronicle<SLOTS, D> {
    ghost use Rattle.logged_journal.specs.View.{LoggedView};
    ghost use Rattle.shared_store.specs.Chronicles.Inside.{IsChronicleInside};

    ghost Value = { LoggedView D };

    ghost view = { λ s. s.logged.value };

    ghost invariant = { λ s. IsChronicleInside SLOTS s.logged.value s.count };
}

impl<const SLOTS: usize, D: Disk> Chronicle<Frame<SLOTS>> for JournalChronicle<SLOTS, D> {
    ghost use Rattle.shared_store.specs.Chronicles.View.{account};
    ghost use Rattle.shared_store.specs.Chronicles.Since.{OpensSince};
    ghost use Rattle.shared_store.specs.Chronicles.Laws.{none-begun, others-kept};

    type Entry = Note;

    type Fixed = JournalOrigin<SLOTS>;

    ghost account = { account D SLOTS };

    ghost goes_on = { OpensSince D.moment D.left_since SLOTS };

    fn len(&self) -> u64 {
        self.count
    }

    ghost begins_false = { none-begun };

    ghost keeps_others = { others-kept };
}

/// How many notes the journal has as a chronicle.
pub(crate) fn count_notes<const SLOTS: usize, D: Disk>(logged: &LoggedJournal<SLOTS, D>) -> u64
    ensures { result ≡ length (notes_of logged.now) }
{
    let notes = logged.journal().history();
    // One more can be counted.
    notes.know_few();
    let noted = notes.len() as u64;
    match logged.failed() {
        None => noted,
        Some(failed) => match failed.commit {
            None => noted,
            Some(_) => noted + 1,
        },
    }
}

impl<const SLOTS: usize, D: Disk> JournalChronicle<SLOTS, D> {
    /// The chronicle of a journal that the disk failed no call. These are its frames, one for each page from 0 on. Where there is
    /// no memory the journal is handed back.
    pub fn new(
        alloc: Global,
        logged: LoggedJournal<SLOTS, D>,
        frames: &[Frame<SLOTS>],
    ) -> Result<JournalChronicle<SLOTS, D>, LoggedJournal<SLOTS, D>>
        requires size { IsSlotCount SLOTS }
        requires running { logged.failed ≡ None }
        requires pages { 8 * length frames.now ≡ logged.journal.history.ids }
        requires agree { AllAgree (cells_of logged.journal) frames.now }
        ensures ok { IfOk result (λ c. c ≡ logged) }
        ensures back { IfErr result (λ l. l ≡ logged) }
    {
        let _ = logged.journal();
        let count = count_notes(&logged);
        match Box::new(alloc, logged) {
            Ok(logged) => Ok(JournalChronicle { logged, count }),
            Err(AllocFailed { value }) => Err(value),
        }
    }

    /// The journal with its log.
    pub fn logged(&self) -> &LoggedJournal<SLOTS, D>
        ensures logged { result.now ≡ self.now }
        ensures slots { self.now.journal.history.slots ≡ SLOTS }
    {
        let _ = self.logged.journal();
        self.logged.as_ref()
    }

    /// The journal with its log, no longer as a chronicle.
    pub fn into_logged(self) -> LoggedJournal<SLOTS, D>
        ensures { result ≡ self }
    {
        Box::into_inner(self.logged)
    }

    /// Frames are the journal's pages exactly where they are those that the chronicle tells.
    pub fn know_frames(&self)
        ensures page { (page : ℕ) (frame : Frame SLOTS) → 8 * page < self.now.journal.history.ids → HoldsPage (cells_of self.now.journal) page frame.page ↔ (frame ≡ frame_after SLOTS (origin_of self.now) (notes_of self.now) page) }
        ensures held { (held : List (HeldFrame SLOTS)) → AreOfStore self.now.journal.history.ids held → Agree (cells_of self.now.journal) held ↔ AreShownBy (frame_after SLOTS (origin_of self.now) (notes_of self.now)) held }
        ensures all { (frames : List (Frame SLOTS)) → 8 * length frames ≤ self.now.journal.history.ids → AllAgree (cells_of self.now.journal) frames ↔ ((page : ℕ) (frame : Frame SLOTS) → slice_get frames page ≡ Some frame → frame ≡ frame_after SLOTS (origin_of self.now) (notes_of self.now) page) }
    {
        let logged = self.logged.as_ref();
        let _ = logged.journal();
    }

    /// The history that the notes give is the journal's, and it is legal. By it a client has a transaction exactly where the
    /// notes tell so.
    pub fn know_history(&self)
        ensures history { history_after SLOTS (origin_of self.now) (notes_of self.now) ≡ history_of self.now }
        ensures legal { IsLegal (history_of self.now) }
        ensures clients { (client : ℕ) → has_transaction (notes_of self.now) client ≡ is_some (transaction_of (end_of (history_of self.now)).state client) }
        ensures running { self.now.failed ≡ None → history_of self.now ≡ self.now.journal.history }
    {
        let logged = self.logged.as_ref();
        let journal = logged.journal();
        let _ = journal.history();
        let _ = journal.opening();
    }

    /// Does the call, adds its entry and answers what the entry says. What it changed joins the log with it, and a commit
    /// is answered when it is there for good.
    ///
    /// `Reply::Stopped` comes exactly where the disk failed a call before, `Reply::LogFull` exactly where the call would
    /// be done and what it needs would go past the log's limit. Both do nothing. `Reply::DiskFault` comes of a commit alone,
    /// and only where the disk's count of faults rose in this call.
    pub fn apply(&mut self, held: &mut Three<SLOTS>, pass: u8, call: &Call) -> Reply
        requires client { (1 ≤ pass) × (pass ≤ 64) }
        requires in_range { IsInRange SLOTS call.now }
        requires no_abort { call.now ≡ Call.Abort → transaction_of (end_of self.old.journal.history).state pass ≡ None }
        requires agree { Agree (cells_of self.old.journal) held.old }
        requires ready { HasPages self.old.journal.history.ids (pages_for_call self.old.journal pass call.now) held.old }

        // A call that is answered that it was done or refused, or that the disk failed it, enters that, and changes no frames but
        // the held ones. Any other one leaves the notes, and the held frames.
        ensures chronicle { GoesOnWith SLOTS (is_held held.old) self.old self.new (entered_by_call pass call.now result) (marked_by_call result) }
        ensures rest { entered_by_call pass call.now result ≡ None → held.new ≡ held.old }
        ensures never_again { (word seat : ℕ) → result ≢ Reply.Again word seat }
        ensures stopped { IfSome self.old.failed (λ f. (result ≡ Reply.Stopped f.faults) × (self.new ≡ self.old) × (held.new ≡ held.old)) }
        ensures only_stopped { (faults : ℕ) → result ≡ Reply.Stopped faults → IsSome self.old.failed }
        ensures kept { (result ≡ Reply.TraceFull) ⊎ (result ≡ Reply.Memory) → KeepsLog self.old self.new }
        ensures log_full { (result ≡ Reply.LogFull) ↔ IsPastLog self.old pass call.now }
        ensures log_marked { result ≡ Reply.LogFull → (self.new ≡ record self.old { log_full = true }) × (held.new ≡ held.old) }
        ensures does { IsOfJournal result → DoesCall SLOTS self.old.journal self.new.journal pass call.now result }
        ensures goes_on { IsOfJournal result → GoesOn self.old self.new }
        ensures frames { KeepsFrames self.old.journal self.new.journal held.old held.new }

        // A commit that was done is there for good, with all before it. It takes no memory.
        ensures committed { call.now ≡ Call.Commit → result ≡ Reply.Done → self.new.durable ≡ length self.new.journal.notes }
        ensures commit { call.now ≡ Call.Commit → refusal_of (end_of self.old.journal.history).state pass Call.Commit ≡ None → result ≢ Reply.Memory }

        // The disk is asked for nothing but a commit that is granted.
        ensures untouched { (call.now ≡ Call.Commit → IsGranted self.old.journal pass Call.Commit → ⊥) → KeepsDisk self.old self.new }
        ensures fault { result ≡ Reply.DiskFault → FailsCommit D.faults self.old self.new pass call.now × (held.new ≡ held.old) }
        ensures later { D.faults self.old.disk ≤ D.faults self.new.disk }
        ensures count { result ≢ Reply.DiskFault → D.faults self.new.disk ≡ D.faults self.old.disk }

        // No area but the log's changes; a commit that was done adds one batch to it, of the tail and the commit's own record.
        ensures areas { OnlyForces D.content D.may_leave self.old self.new call.now result }

        // At each moment of the call a power loss leaves a log of what was there for good before, or, where it is a commit,
        // of all that was done and this commit.
        ensures moments { LeavesOnlyImages D.moment D.left_since self.old.disk self.new.disk (MayHave self.old pass) }

        // So at each of them the store opens, to a graph that a crash before the call may leave, or, where it is a commit that
        // is granted, a crash after the disk failed it.
        ensures opens { LeavesOnlyImages D.moment D.left_since self.old.disk self.new.disk (OpensDuring SLOTS self.old pass call.now) }
    {
        let logged = self.logged.as_mut();
        let _ = logged.journal();
        let reply = logged.apply(held, pass, call);
        let _ = logged.journal();
        self.count = count_notes(logged);
        reply
    }

    /// Undoes the last write of the client's transaction that isn't undone, or ends the transaction where none is left. What
    /// it changed joins the log with it, in room that was owed. It takes no memory.
    ///
    /// [`Stopped`] comes exactly where the disk failed a call before.
    pub fn abort_step(&mut self, held: &mut Three<SLOTS>, pass: u8) -> Result<AbortStep, Stopped>
        requires active { IsSome (transaction_of (end_of self.old.journal.history).state pass) }
        requires agree { Agree (cells_of self.old.journal) held.old }
        requires ready { HasPages self.old.journal.history.ids (pages_for_undo (cells_of self.old.journal) (next_to_restore (end_of self.old.journal.history) pass)) held.old }

        // Where the store isn't stopped, the step enters its entry, and changes no frames but the held ones.
        ensures chronicle { GoesOnWith SLOTS (is_held held.old) self.old self.new (entered_by_abort_step pass result) (marked_by_abort_step result) }
        ensures rest { entered_by_abort_step pass result ≡ None → held.new ≡ held.old }
        ensures stopped { IfSome self.old.failed (λ f. (IsErrOf result (record { faults = f.faults })) × (self.new ≡ self.old) × (held.new ≡ held.old)) }
        ensures only_stopped { IfErr result (λ _. IsSome self.old.failed) }
        ensures does { IfOk result (λ step. DoesAbortStep SLOTS self.old.journal self.new.journal pass step) }
        ensures goes_on { IfOk result (λ _. GoesOn self.old self.new) }
        ensures frames { KeepsFrames self.old.journal self.new.journal held.old held.new }
        ensures untouched { KeepsDisk self.old self.new }
    {
        let logged = self.logged.as_mut();
        let _ = logged.journal();
        let step = logged.abort_step(held, pass);
        let _ = logged.journal();
        self.count = count_notes(logged);
        step
    }
}
