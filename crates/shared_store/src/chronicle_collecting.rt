//! The collector's steps of a journal as a chronicle.
ghost use Rattle.std.specs.Prelude.{◌≡◌, ◌⊎◌, ◌↔◌, ℕ, ◌<◌, [], true, IfOk, IfSome, IsErrOf, IsSome, None};
ghost use Rattle.core_store.specs.Frames.{Agree, HoldsAll, IsNext, is_held, pages_held};
ghost use Rattle.core_store.specs.JournalView.{cells_of};
ghost use Rattle.core_store.specs.Limited.{is_past_limit, pages_for_collector};
ghost use Rattle.core_store.specs.Logged.{want_of};
ghost use Rattle.core_store.specs.RoundView.{Closed, asked, left_of};
ghost use Rattle.core_store.specs.Steppings.{IsReadyForCollector, OnlyLooks};
ghost use Rattle.logged_journal.specs.Calls.{KeepsFrames, KeepsDisk, GoesOn, IsPastLogToCollect, DoesCollect};
ghost use Rattle.shared_store.specs.Chronicles.Steps.{entered_by_collect_step, marked_by_collect_step, no_mark, no_page, GoesOnWith};

use crate::chronicle::{JournalChronicle, count_notes};
use core_store::{Collect, RoundAt, Three, Want};
use disk_model::Disk;
use logged_journal::CollectRefusal;

impl<const SLOTS: usize, D: Disk> JournalChronicle<SLOTS, D> {
    /// What is to be done with the held pages before the next step of the collector. It looks at what the held pages
    /// show, and goes on where there is nothing to do.
    ///
    /// Nothing else changes, and no event is made. Each look lowers what is left of the round.
    pub fn wants_collect_step(&mut self, held: &Three<SLOTS>) -> Want
        requires agree { Agree (cells_of self.old.journal) held.now }

        // The chronicle shows what it showed.
        ensures chronicle { GoesOnWith SLOTS no_page self.old self.new None no_mark }
        ensures exact { result ≡ want_of (pages_for_collector self.new.journal) (pages_held held.now) }
        ensures ready { result ≡ Want.Ready → IsReadyForCollector self.new.journal held.now }
        ensures next { (page : ℕ) → result ≡ Want.Page page → IsNext self.new.journal.history.ids held.now page }
        ensures looks { OnlyLooks SLOTS self.old.journal self.new.journal }
        ensures same { self.new ≡ record self.old { journal = self.new.journal } }
        ensures left { (self.new.journal.round ≡ self.old.journal.round) ⊎ (left_of SLOTS self.new.journal.round < left_of SLOTS self.old.journal.round) }
    {
        self.logged.wants_collect_step(held)
    }

    /// Looks at what the held pages show, and goes on where there is nothing to do, up to the collector's next event, and tells
    /// what that works at: nothing where it would make none. All pages of the store are held.
    ///
    /// Nothing else changes, and no event is made.
    pub fn look_on(&mut self, held: &Three<SLOTS>) -> Option<RoundAt>
        requires agree { Agree (cells_of self.old.journal) held.now }
        requires all { HoldsAll self.old.journal.history.ids held.now }

        // The chronicle shows what it showed.
        ensures chronicle { GoesOnWith SLOTS no_page self.old self.new None no_mark }
        ensures ready { IsReadyForCollector self.new.journal held.now }
        ensures looks { OnlyLooks SLOTS self.old.journal self.new.journal }
        ensures none { (result ≡ None) ↔ (is_past_limit self.new.journal 1 ≡ true) ⊎ ((self.new.journal.queue ≡ []) × (self.new.journal.round ≡ Closed)) }
        ensures at { IfSome result (λ at. at ≡ asked self.new.journal.round) }
        ensures same { self.new ≡ record self.old { journal = self.new.journal } }
    {
        self.logged.look_on(held)
    }

    /// Makes one event of the collector, adds its entry and tells what it did. What it changed joins the log with it.
    ///
    /// [`CollectRefusal::Stopped`] comes exactly where the disk failed a call before, [`CollectRefusal::LogFull`] exactly
    /// where an event would be made and its record would go past the log's limit. Both do nothing. Where the history is not
    /// full, it is idle exactly where the queue is empty and no round is open. No object is deleted that is reachable, from
    /// the root or a held reference, in any outcome of the active transactions.
    pub fn collect_step(&mut self, held: &mut Three<SLOTS>) -> Result<Collect, CollectRefusal>
        requires agree { Agree (cells_of self.old.journal) held.old }
        requires ready { IsReadyForCollector self.old.journal held.old }

        // An event enters its entry, and changes no frames but the held ones. Any other answer leaves the notes, and the held
        // frames.
        ensures chronicle { GoesOnWith SLOTS (is_held held.old) self.old self.new (entered_by_collect_step result) (marked_by_collect_step result) }
        ensures rest { entered_by_collect_step result ≡ None → held.new ≡ held.old }
        ensures stopped { IfSome self.old.failed (λ f. (IsErrOf result (CollectRefusal.Stopped f.faults)) × (self.new ≡ self.old) × (held.new ≡ held.old)) }
        ensures only_stopped { (faults : ℕ) → IsErrOf result (CollectRefusal.Stopped faults) → IsSome self.old.failed }
        ensures log_full { (IsErrOf result CollectRefusal.LogFull) ↔ IsPastLogToCollect self.old }
        ensures log_marked { IsErrOf result CollectRefusal.LogFull → (self.new ≡ record self.old { log_full = true }) × (held.new ≡ held.old) }
        ensures does { IfOk result (λ step. DoesCollect SLOTS self.old.journal self.new.journal step) }
        ensures goes_on { IfOk result (λ _. GoesOn self.old self.new) }
        ensures frames { KeepsFrames self.old.journal self.new.journal held.old held.new }
        ensures same { IfOk result (λ step. (step ≡ Collect.TraceFull) ⊎ (step ≡ Collect.Idle) ⊎ (step ≡ Collect.Memory) → held.new ≡ held.old) }
        ensures untouched { KeepsDisk self.old self.new }
    {
        let logged = self.logged.as_mut();
        let _ = logged.journal();
        let step = logged.collect_step(held);
        let _ = logged.journal();
        self.count = count_notes(logged);
        step
    }

    /// Makes the collector's next event, which works at this place, where the disk failed no call before. `at` is nothing exactly
    /// where no event would be made: then it is told that the history is full, or that there is nothing to do.
    ///
    /// [`CollectRefusal::LogFull`] is the only refusal: the event's record would go past the log's limit.
    pub fn collect_at(
        &mut self,
        held: &mut Three<SLOTS>,
        at: Option<RoundAt>,
    ) -> Result<Collect, CollectRefusal>
        requires agree { Agree (cells_of self.old.journal) held.old }
        requires ready { IsReadyForCollector self.old.journal held.old }
        requires running { self.old.failed ≡ None }
        requires none { (at ≡ None) ↔ (is_past_limit self.old.journal 1 ≡ true) ⊎ ((self.old.journal.queue ≡ []) × (self.old.journal.round ≡ Closed)) }
        requires at { IfSome at (λ place. place ≡ asked self.old.journal.round) }

        // An event enters its entry, and changes no frames but the held ones. Any other answer leaves the notes, and the held
        // frames.
        ensures chronicle { GoesOnWith SLOTS (is_held held.old) self.old self.new (entered_by_collect_step result) (marked_by_collect_step result) }
        ensures rest { entered_by_collect_step result ≡ None → held.new ≡ held.old }
        ensures never_stopped { (faults : ℕ) → IsErrOf result (CollectRefusal.Stopped faults) → ⊥ }
        ensures log_full { (IsErrOf result CollectRefusal.LogFull) ↔ IsPastLogToCollect self.old }
        ensures log_marked { IsErrOf result CollectRefusal.LogFull → (self.new ≡ record self.old { log_full = true }) × (held.new ≡ held.old) }
        ensures does { IfOk result (λ step. DoesCollect SLOTS self.old.journal self.new.journal step) }
        ensures goes_on { IfOk result (λ _. GoesOn self.old self.new) }
        ensures frames { KeepsFrames self.old.journal self.new.journal held.old held.new }
        ensures same { IfOk result (λ step. (step ≡ Collect.TraceFull) ⊎ (step ≡ Collect.Idle) ⊎ (step ≡ Collect.Memory) → held.new ≡ held.old) }
        ensures untouched { KeepsDisk self.old self.new }
    {
        let logged = self.logged.as_mut();
        let _ = logged.journal();
        let step = logged.collect_at(held, at);
        let _ = logged.journal();
        self.count = count_notes(logged);
        step
    }
}
