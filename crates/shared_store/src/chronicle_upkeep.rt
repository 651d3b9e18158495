//! Upkeep of the log and of the pages of a journal as a chronicle.
ghost use Rattle.std.specs.Prelude.{◌≡◌, ◌≢◌, ◌⊎◌, ◌↔◌, ℕ, ◌*◌, ◌<◌, ◌≤◌, true, false, length, IfSome, IsSome, Some, None};
ghost use Rattle.disk_model.specs.Told.{EachImage};
ghost use Rattle.disk_model.specs.Time.{LeavesOnlyImages};
ghost use Rattle.plain_model.specs.History.{end_of, least_active};
ghost use Rattle.cell_page.specs.Stored.{HoldsPage};
ghost use Rattle.gate_log.specs.State.{other_log};
ghost use Rattle.core_store.specs.Frames.{AllAgree};
ghost use Rattle.core_store.specs.JournalView.{cells_of};
ghost use Rattle.core_store.specs.Limited.{is_past_limit};
ghost use Rattle.logged_journal.specs.View.{OnlyTakesRoom, bytes_counted, history_of};
ghost use Rattle.logged_journal.specs.Calls.{KeepsDisk};
ghost use Rattle.logged_journal.specs.Records.{MayHaveAll};
ghost use Rattle.logged_journal.specs.Opens.{OpensAfter};
ghost use Rattle.logged_journal.specs.Checkpoints.{ForcesImages};
ghost use Rattle.logged_journal.specs.Upkeep.{IsClean, IsPastLogToClean, IsPastLogToTurn, IsTurned, Cleans, OnlyCleans, Turns, TellsBusy, FailsUpkeep, OnlyNames};
ghost use Rattle.shared_store.specs.Chronicles.Steps.{entered_by_refusal, entered_by_upkeep, marked_by_refusal, marked_by_upkeep, no_page, GoesOnWith};

use crate::chronicle::{JournalChronicle, count_notes};
use core_store::Frame;
use disk_model::Disk;
use logged_journal::Upkeep;

impl<const SLOTS: usize, D: Disk> JournalChronicle<SLOTS, D> {
    /// What a page's cleaning is refused before the page is looked at, if it is: that the store is stopped, or that the history
    /// has no room for one entry, and then nothing is done.
    pub fn refuse_clean(&mut self) -> Option<Upkeep>
        // No entry is entered, and no page changes its frame.
        ensures chronicle { GoesOnWith SLOTS no_page self.old self.new None (marked_by_refusal result) }
        ensures stopped { IfSome self.old.failed (λ f. (result ≡ Some (Upkeep.Stopped f.faults)) × (self.new ≡ self.old)) }
        ensures full { self.old.failed ≡ None → is_past_limit self.old.journal 1 ≡ true
            → (result ≡ Some Upkeep.TraceFull) × (self.new ≡ record self.old { journal = record self.old.journal { marks = record self.old.journal.marks { trace = true } } }) }
        ensures free { self.old.failed ≡ None → is_past_limit self.old.journal 1 ≡ false → (result ≡ None) × OnlyTakesRoom self.old self.new }
    {
        let logged = self.logged.as_mut();
        let _ = logged.journal();
        let answer = logged.refuse_clean();
        let _ = logged.journal();
        self.count = count_notes(logged);
        answer
    }

    /// What a turn is refused before a page is looked at, if it is.
    ///
    /// [`Upkeep::Stopped`] comes exactly where the disk failed a call before, [`Upkeep::TraceFull`] exactly where the history has
    /// no room for one entry. [`Upkeep::Busy`] comes where a transaction is active, unless memory is out; it names the least such
    /// client, and enters the history. The others, and [`Upkeep::Memory`], do nothing, and no other answer comes. Where it is not
    /// refused, room for its entry is reserved.
    pub fn refuse_turn(&mut self) -> Option<Upkeep>
        // Where a client made it busy, it enters its entry. No page changes its frame.
        ensures chronicle { GoesOnWith SLOTS no_page self.old self.new (entered_by_refusal result) (marked_by_refusal result) }
        ensures stopped { IfSome self.old.failed (λ f. (result ≡ Some (Upkeep.Stopped f.faults)) × (self.new ≡ self.old)) }
        ensures only_stopped { (faults : ℕ) → result ≡ Some (Upkeep.Stopped faults) → IsSome self.old.failed }
        ensures full { (result ≡ Some Upkeep.TraceFull) ↔ (self.old.failed ≡ None) × (is_past_limit self.old.journal 1 ≡ true) }
        ensures marked { result ≡ Some Upkeep.TraceFull → self.new ≡ record self.old { journal = record self.old.journal { marks = record self.old.journal.marks { trace = true } } } }
        ensures busy { (pass : ℕ) → self.old.failed ≡ None → is_past_limit self.old.journal 1 ≡ false → least_active (end_of self.old.journal.history).state ≡ Some pass
            → (result ≡ Some (Upkeep.Busy pass)) ⊎ (result ≡ Some Upkeep.Memory) }
        ensures only_busy { (pass : ℕ) → result ≡ Some (Upkeep.Busy pass) → least_active (end_of self.old.journal.history).state ≡ Some pass }
        ensures told { (pass : ℕ) → result ≡ Some (Upkeep.Busy pass) → TellsBusy SLOTS self.old self.new pass }
        ensures memory { result ≡ Some Upkeep.Memory → self.new ≡ self.old }
        ensures never { (result ≢ Some Upkeep.Done) × (result ≢ Some Upkeep.LogFull) × (result ≢ Some Upkeep.DiskFault) }
        ensures free { result ≡ None → (self.old.failed ≡ None) × (least_active (end_of self.old.journal.history).state ≡ None) × (self.new ≡ record self.old { journal = record self.old.journal { reserved = true } }) }
        ensures untouched { KeepsDisk self.old self.new }
    {
        let logged = self.logged.as_mut();
        let _ = logged.journal();
        let answer = logged.refuse_turn();
        let _ = logged.journal();
        self.count = count_notes(logged);
        answer
    }

    /// Cleans the page of this number, from 0, whose frame this is: an image of it joins the log where its last image isn't
    /// current, the log is forced, and the page is made to last in place. It changes no object, and enters an entry that says so.
    ///
    /// [`Upkeep::Stopped`] comes exactly where the disk failed a call before, [`Upkeep::TraceFull`] exactly where the history has
    /// no room for one entry, [`Upkeep::LogFull`] exactly where the page's image would go past the log's limit. These and
    /// [`Upkeep::Memory`] do nothing. [`Upkeep::DiskFault`] comes only where the disk's count of faults rose in this call; the
    /// store is then stopped. [`Upkeep::Busy`] never comes.
    pub fn clean(&mut self, frame: &Frame<SLOTS>, page: u16) -> Upkeep
        requires page { 8 * page < self.old.journal.history.ids }
        requires agree { HoldsPage (cells_of self.old.journal) page frame.now.page }

        // Where it was done it enters its entry. No page changes its frame.
        ensures chronicle { GoesOnWith SLOTS no_page self.old self.new (entered_by_upkeep result) (marked_by_upkeep result) }
        ensures stopped { IfSome self.old.failed (λ f. (result ≡ Upkeep.Stopped f.faults) × (self.new ≡ self.old)) }
        ensures only_stopped { (faults : ℕ) → result ≡ Upkeep.Stopped faults → IsSome self.old.failed }
        ensures never_busy { (pass : ℕ) → result ≢ Upkeep.Busy pass }
        ensures full { (result ≡ Upkeep.TraceFull) ↔ (self.old.failed ≡ None) × (is_past_limit self.old.journal 1 ≡ true) }
        ensures marked { result ≡ Upkeep.TraceFull → self.new ≡ record self.old { journal = record self.old.journal { marks = record self.old.journal.marks { trace = true } } } }
        ensures log_full { (result ≡ Upkeep.LogFull) ↔ IsPastLogToClean SLOTS self.old }
        ensures log_marked { result ≡ Upkeep.LogFull → OnlyTakesRoom (record self.old { log_full = true }) self.new }
        ensures memory { result ≡ Upkeep.Memory → OnlyTakesRoom self.old self.new }
        ensures done { result ≡ Upkeep.Done → Cleans self.old self.new page frame.now.page }

        // After it each image of the disk has the page in place and as the log's last image of it.
        ensures clean { result ≡ Upkeep.Done → EachImage D.may_leave self.new.disk (IsClean page frame.now.page) }

        // No area changes but the log's and the pages; where it was done the log has one batch more, of the tail and the image.
        ensures areas { OnlyCleans D.content D.may_leave self.old self.new page frame.now.page result }
        ensures fault { result ≡ Upkeep.DiskFault → FailsUpkeep D.faults self.old self.new }
        ensures later { D.faults self.old.disk ≤ D.faults self.new.disk }
        ensures count { result ≢ Upkeep.DiskFault → D.faults self.new.disk ≡ D.faults self.old.disk }

        // At each moment of the call a power loss leaves a log of what was there for good before, or of all that was done. So
        // at each of them the store opens, to a graph that a crash before the call may leave.
        ensures moments { LeavesOnlyImages D.moment D.left_since self.old.disk self.new.disk (MayHaveAll self.old) }
        ensures opens { LeavesOnlyImages D.moment D.left_since self.old.disk self.new.disk (OpensAfter SLOTS (history_of self.old)) }
    {
        let logged = self.logged.as_mut();
        let _ = logged.journal();
        let answer = logged.clean(frame, page);
        let _ = logged.journal();
        self.count = count_notes(logged);
        answer
    }

    /// Turns the log: images of all pages that changed since it began join it where none is current, it is forced, and each of
    /// these pages is made to last in place. Then it begins anew in the other log area, with its first batch alone. These are the
    /// frames, one for each page from 0 on. It changes no object, and enters an entry that says so.
    ///
    /// [`Upkeep::Stopped`] comes exactly where the disk failed a call before, [`Upkeep::TraceFull`] exactly where the history has
    /// no room for one entry. [`Upkeep::Busy`] comes where a transaction is active, unless memory is out; it names the least such
    /// client, and enters the history. [`Upkeep::LogFull`] comes just where the log with these images would be longer than a log may
    /// be, unless memory is out; the log's limit doesn't matter. These but `Busy`, and [`Upkeep::Memory`], do nothing.
    /// [`Upkeep::DiskFault`] comes only where the disk's count of faults rose in this call; the store is then stopped.
    pub fn turn(&mut self, frames: &[Frame<SLOTS>]) -> Upkeep
        requires pages { 8 * length frames.now ≡ self.old.journal.history.ids }
        requires agree { AllAgree (cells_of self.old.journal) frames.now }

        // Where it was done, or a client made it busy, it enters its entry. No page changes its frame.
        ensures chronicle { GoesOnWith SLOTS no_page self.old self.new (entered_by_upkeep result) (marked_by_upkeep result) }
        ensures stopped { IfSome self.old.failed (λ f. (result ≡ Upkeep.Stopped f.faults) × (self.new ≡ self.old)) }
        ensures only_stopped { (faults : ℕ) → result ≡ Upkeep.Stopped faults → IsSome self.old.failed }
        ensures full { (result ≡ Upkeep.TraceFull) ↔ (self.old.failed ≡ None) × (is_past_limit self.old.journal 1 ≡ true) }
        ensures marked { result ≡ Upkeep.TraceFull → self.new ≡ record self.old { journal = record self.old.journal { marks = record self.old.journal.marks { trace = true } } } }

        // The least active client makes it busy, and nobody else.
        ensures busy { (pass : ℕ) → self.old.failed ≡ None → is_past_limit self.old.journal 1 ≡ false → least_active (end_of self.old.journal.history).state ≡ Some pass
            → (result ≡ Upkeep.Busy pass) ⊎ (result ≡ Upkeep.Memory) }
        ensures only_busy { (pass : ℕ) → result ≡ Upkeep.Busy pass → least_active (end_of self.old.journal.history).state ≡ Some pass }
        ensures told { (pass : ℕ) → result ≡ Upkeep.Busy pass → TellsBusy SLOTS self.old self.new pass }
        ensures log_full { result ≡ Upkeep.LogFull → self.old.journal.limits.log < bytes_counted self.old }
        ensures too_long { result ≡ Upkeep.LogFull → IsPastLogToTurn SLOTS self.old }
        ensures only_too_long { IsPastLogToTurn SLOTS self.old → (result ≡ Upkeep.LogFull) ⊎ (result ≡ Upkeep.Memory) }
        ensures log_marked { result ≡ Upkeep.LogFull → OnlyTakesRoom (record self.old { log_full = true }) self.new }
        ensures memory { result ≡ Upkeep.Memory → OnlyTakesRoom self.old self.new }
        ensures done { result ≡ Upkeep.Done → Turns SLOTS self.old self.new }

        // After it each image of the disk has every page in place, and names the other log area, which has the first batch alone.
        ensures turned { result ≡ Upkeep.Done → EachImage D.may_leave self.new.disk (IsTurned SLOTS (cells_of self.old.journal) (other_log self.old.log.area)) }

        // The images that joined the log before that are those of the changed pages without a current one, ascending, each once.
        ensures old_log { result ≡ Upkeep.Done → ForcesImages D.content frames.now self.old self.new }

        // Of the super area the first byte alone changes, which names the other log area then.
        ensures super_area { OnlyNames D.content D.may_leave self.old self.new result }

        ensures fault { result ≡ Upkeep.DiskFault → FailsUpkeep D.faults self.old self.new }
        ensures later { D.faults self.old.disk ≤ D.faults self.new.disk }
        ensures count { result ≢ Upkeep.DiskFault → D.faults self.new.disk ≡ D.faults self.old.disk }

        // At each moment of the call a power loss leaves a log of what was there for good before, or of all that was done. So
        // at each of them the store opens, to a graph that a crash before the call may leave.
        ensures moments { LeavesOnlyImages D.moment D.left_since self.old.disk self.new.disk (MayHaveAll self.old) }
        ensures opens { LeavesOnlyImages D.moment D.left_since self.old.disk self.new.disk (OpensAfter SLOTS (history_of self.old)) }
    {
        let logged = self.logged.as_mut();
        let _ = logged.journal();
        let answer = logged.turn(frames);
        let _ = logged.journal();
        self.count = count_notes(logged);
        answer
    }
}
