//! The collector's steps of a journal with its log.
ghost use Rattle.std.specs.Prelude.{◌≡◌, ◌⊎◌, ◌↔◌, ℕ, ◌<◌, [], true, false, IfOk, IfSome, IsErrOf, IsSome, None};
ghost use Rattle.core_store.specs.Frames.{Agree, HoldsAll, IsNext, pages_held};
ghost use Rattle.core_store.specs.JournalView.{cells_of};
ghost use Rattle.core_store.specs.Limited.{AreLimits, is_past_limit, pages_for_collector};
ghost use Rattle.core_store.specs.Logged.{want_of};
ghost use Rattle.core_store.specs.RoundView.{Closed, asked, left_of};
ghost use Rattle.core_store.specs.Steppings.{IsReadyForCollector, OnlyLooks, bytes_to_collect};
ghost use Rattle.logged_journal.specs.View.{IsPast};
ghost use Rattle.logged_journal.specs.Calls.{KeepsFrames, KeepsDisk, GoesOn, IsPastLogToCollect, DoesCollect};

use crate::collect::CollectRefusal;
use crate::logged::LoggedJournal;
use crate::spell::append_last;
use core_store::{Collect, RoundAt, Three, Want};
use disk_model::Disk;

impl<const SLOTS: usize, D: Disk> LoggedJournal<SLOTS, D> {
    /// What is to be done with the held pages before the next step of the collector. It looks at what the held pages
    /// show, and goes on where there is nothing to do.
    ///
    /// Nothing else changes, and no event is made. Each look lowers what is left of the round.
    pub fn wants_collect_step(&mut self, held: &Three<SLOTS>) -> Want
        requires agree { Agree (cells_of self.old.journal) held.now }
        ensures exact { result ≡ want_of (pages_for_collector self.new.journal) (pages_held held.now) }
        ensures ready { result ≡ Want.Ready → IsReadyForCollector self.new.journal held.now }
        ensures next { (page : ℕ) → result ≡ Want.Page page → IsNext self.new.journal.history.ids held.now page }
        ensures looks { OnlyLooks SLOTS self.old.journal self.new.journal }
        ensures same { self.new ≡ record self.old { journal = self.new.journal } }
        ensures left { (self.new.journal.round ≡ self.old.journal.round) ⊎ (left_of SLOTS self.new.journal.round < left_of SLOTS self.old.journal.round) }
    {
        self.journal.wants_collect_step(held)
    }

    /// Looks at what the held pages show, and goes on where there is nothing to do, up to the collector's next event, and tells
    /// what that works at: nothing where it would make none. All pages of the store are held.
    ///
    /// Nothing else changes, and no event is made.
    pub fn look_on(&mut self, held: &Three<SLOTS>) -> Option<RoundAt>
        requires agree { Agree (cells_of self.old.journal) held.now }
        requires all { HoldsAll self.old.journal.history.ids held.now }
        ensures ready { IsReadyForCollector self.new.journal held.now }
        ensures looks { OnlyLooks SLOTS self.old.journal self.new.journal }
        ensures none { (result ≡ None) ↔ (is_past_limit self.new.journal 1 ≡ true) ⊎ ((self.new.journal.queue ≡ []) × (self.new.journal.round ≡ Closed)) }
        ensures at { IfSome result (λ at. at ≡ asked self.new.journal.round) }
        ensures same { self.new ≡ record self.old { journal = self.new.journal } }
    {
        self.journal.look_on(held)
    }

    /// A step of the collector that makes no event. It logs nothing.
    fn rest(&mut self, held: &mut Three<SLOTS>) -> Collect
        requires agree { Agree (cells_of self.old.journal) held.old }
        requires ready { IsReadyForCollector self.old.journal held.old }
        requires running { self.old.failed ≡ None }
        requires none { (is_past_limit self.old.journal 1 ≡ true) ⊎ ((self.old.journal.queue ≡ []) × (self.old.journal.round ≡ Closed)) }
        ensures does { DoesCollect SLOTS self.old.journal self.new.journal result }
        ensures goes_on { GoesOn self.old self.new }
        ensures frames { KeepsFrames self.old.journal self.new.journal held.old held.new }
        ensures same { (result ≡ Collect.TraceFull) ⊎ (result ≡ Collect.Idle) ⊎ (result ≡ Collect.Memory) → held.new ≡ held.old }
        ensures disk { KeepsDisk self.old self.new }
    {
        self.journal.collect_step(held)
    }

    /// The collector's next event, which works at this place, and for whose record there is room in the log.
    #[inline(always)]
    fn log_step(&mut self, held: &mut Three<SLOTS>, at: RoundAt) -> Collect
        requires agree { Agree (cells_of self.old.journal) held.old }
        requires ready { IsReadyForCollector self.old.journal held.old }
        requires running { self.old.failed ≡ None }
        requires history { is_past_limit self.old.journal 1 ≡ false }
        requires some { (self.old.journal.queue ≡ []) × (self.old.journal.round ≡ Closed) → ⊥ }
        requires room { IsPast self.old (bytes_to_collect self.old.journal.round) → ⊥ }
        requires limits { AreLimits self.old.journal.limits }
        requires at { at ≡ asked self.old.journal.round }
        ensures does { DoesCollect SLOTS self.old.journal self.new.journal result }
        ensures goes_on { GoesOn self.old self.new }
        ensures frames { KeepsFrames self.old.journal self.new.journal held.old held.new }
        ensures same { (result ≡ Collect.TraceFull) ⊎ (result ≡ Collect.Idle) ⊎ (result ≡ Collect.Memory) → held.new ≡ held.old }
        ensures disk { KeepsDisk self.old self.new }
    {
        let room = self.journal.bytes_owed() + at.record_length();
        if self.log.reserve(room).is_err() {
            return Collect::Memory;
        }
        match self.journal.make_event(held, at) {
            Collect::Memory => Collect::Memory,
            step => {
                append_last(&self.journal, &mut self.log, &mut self.marks);
                self.peak = self.peak.max(self.log.used() + self.journal.bytes_owed());
                step
            }
        }
    }

    /// Makes one event of the collector, adds its entry and tells what it did. What it changed joins the log with it.
    ///
    /// [`CollectRefusal::Stopped`] comes exactly where the disk failed a call before, [`CollectRefusal::LogFull`] exactly
    /// where an event would be made and its record would go past the log's limit. Both do nothing. Where the history is not
    /// full, it is idle exactly where the queue is empty and no round is open. No object is deleted that is reachable, from
    /// the root or a held reference, in any outcome of the active transactions.
    pub fn collect_step(&mut self, held: &mut Three<SLOTS>) -> Result<Collect, CollectRefusal>
        requires agree { Agree (cells_of self.old.journal) held.old }
        requires ready { IsReadyForCollector self.old.journal held.old }
        ensures stopped { IfSome self.old.failed (λ f. (IsErrOf result (CollectRefusal.Stopped f.faults)) × (self.new ≡ self.old) × (held.new ≡ held.old)) }
        ensures only_stopped { (faults : ℕ) → IsErrOf result (CollectRefusal.Stopped faults) → IsSome self.old.failed }
        ensures log_full { (IsErrOf result CollectRefusal.LogFull) ↔ IsPastLogToCollect self.old }
        ensures log_marked { IsErrOf result CollectRefusal.LogFull → (self.new ≡ record self.old { log_full = true }) × (held.new ≡ held.old) }
        ensures does { IfOk result (λ step. DoesCollect SLOTS self.old.journal self.new.journal step) }
        ensures goes_on { IfOk result (λ _. GoesOn self.old self.new) }
        ensures frames { KeepsFrames self.old.journal self.new.journal held.old held.new }
        ensures same { IfOk result (λ step. (step ≡ Collect.TraceFull) ⊎ (step ≡ Collect.Idle) ⊎ (step ≡ Collect.Memory) → held.new ≡ held.old) }
        ensures untouched { KeepsDisk self.old self.new }
    {
        if let Some(failed) = self.failed {
            return Err(CollectRefusal::Stopped {
                faults: failed.faults,
            });
        }
        let at = self.journal.next_event();
        self.collect_at(held, at)
    }

    /// Makes the collector's next event, which works at this place, where the disk failed no call before. `at` is nothing exactly
    /// where no event would be made: then it is told that the history is full, or that there is nothing to do.
    ///
    /// [`CollectRefusal::LogFull`] is the only refusal: the event's record would go past the log's limit.
    #[inline(always)]
    pub fn collect_at(
        &mut self,
        held: &mut Three<SLOTS>,
        at: Option<RoundAt>,
    ) -> Result<Collect, CollectRefusal>
        requires agree { Agree (cells_of self.old.journal) held.old }
        requires ready { IsReadyForCollector self.old.journal held.old }
        requires running { self.old.failed ≡ None }
        requires none { (at ≡ None) ↔ (is_past_limit self.old.journal 1 ≡ true) ⊎ ((self.old.journal.queue ≡ []) × (self.old.journal.round ≡ Closed)) }
        requires at { IfSome at (λ place. place ≡ asked self.old.journal.round) }
        ensures never_stopped { (faults : ℕ) → IsErrOf result (CollectRefusal.Stopped faults) → ⊥ }
        ensures log_full { (IsErrOf result CollectRefusal.LogFull) ↔ IsPastLogToCollect self.old }
        ensures log_marked { IsErrOf result CollectRefusal.LogFull → (self.new ≡ record self.old { log_full = true }) × (held.new ≡ held.old) }
        ensures does { IfOk result (λ step. DoesCollect SLOTS self.old.journal self.new.journal step) }
        ensures goes_on { IfOk result (λ _. GoesOn self.old self.new) }
        ensures frames { KeepsFrames self.old.journal self.new.journal held.old held.new }
        ensures same { IfOk result (λ step. (step ≡ Collect.TraceFull) ⊎ (step ≡ Collect.Idle) ⊎ (step ≡ Collect.Memory) → held.new ≡ held.old) }
        ensures untouched { KeepsDisk self.old self.new }
    {
        let _ = &self.journal;
        let Some(place) = at else {
            return Ok(self.rest(held));
        };
        if self.is_past(place.record_length()) {
            self.mark_full();
            return Err(CollectRefusal::LogFull);
        }
        Ok(self.log_step(held, place))
    }
}
