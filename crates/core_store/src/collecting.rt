//! The steps of the collector: its next event, the pages that it wants, its looks and its events.
ghost use Rattle.std.specs.Prelude.{IfSome, slice_get, ◌≡◌, ◌↔◌, ◌⊎◌, ℕ, ◌*◌, [], ◌<◌, true, false, Some, None};
ghost use Rattle.plain_model.specs.History.{end_of};
ghost use Rattle.plain_model.specs.Outcomes.{IsReachableInSomeOutcome};
ghost use Rattle.core_store.specs.JournalView.{cells_of, core_of, last_left};
ghost use Rattle.core_store.specs.RoundView.{Closed, asked, left_of, Passes};
ghost use Rattle.core_store.specs.Limited.{is_past_limit, pages_for_collector};
ghost use Rattle.core_store.specs.Steppings.{IsEvent, IsReadyForCollector, MakesEvent, OnlyLooks, left_told, pops};
ghost use Rattle.core_store.specs.Frames.{Agree, IsSameElsewhere, IsNext, HoldsAll, pages_held};
ghost use Rattle.core_store.specs.Logged.{want_of};

use crate::collect::Collect;
use crate::journal::Journal;
use crate::round_at::RoundAt;
use crate::three::Three;
use crate::want::{Want, let_go};

impl<const SLOTS: usize> Journal<SLOTS> {
    /// What the collector's next event works at, want of memory aside: nothing where it would make none, since the history is
    /// full, or no object is queued and no round is open.
    pub fn next_event(&self) -> Option<RoundAt>
        ensures none { (result ≡ None) ↔ (is_past_limit self.now 1 ≡ true) ⊎ ((self.now.queue ≡ []) × (self.now.round ≡ Closed)) }
        ensures at { IfSome result (λ at. at ≡ asked self.now.round) }
    {
        if self.is_past_limit(1) || self.tables.is_idle() {
            return None;
        }
        Some(self.tables.round.at())
    }

    /// The first page that the collector's next look or event needs, if it needs one: where it is held before the collector is
    /// asked what it wants, it is asked once less.
    pub fn page_to_collect(&self) -> Option<u16>
        ensures first { result ≡ slice_get (pages_for_collector self.now) 0 }
        ensures there { IfSome result (λ page. 8 * page < self.now.history.ids) }
    {
        if self.is_past_limit(1) {
            return None;
        }
        self.tables.page_to_collect()
    }

    /// What is to be done with the held pages before the next step of the collector. It looks at what the held pages
    /// show, and goes on where there is nothing to do.
    ///
    /// Nothing else of the journal changes, and no event is made. Each look lowers what is left of the round.
    pub fn wants_collect_step(&mut self, held: &Three<SLOTS>) -> Want
        requires agree { Agree (cells_of self.old) held.now }
        ensures exact { result ≡ want_of (pages_for_collector self.new) (pages_held held.now) }
        ensures ready { result ≡ Want.Ready → IsReadyForCollector self.new held.now }
        ensures next { (page : ℕ) → result ≡ Want.Page page → IsNext self.new.history.ids held.now page }
        ensures passes { Passes SLOTS (cells_of self.old) self.old.round self.new.round }
        ensures same { self.new ≡ record self.old { round = self.new.round } }
        ensures core { core_of self.new ≡ core_of self.old }
        ensures left { (self.new.round ≡ self.old.round) ⊎ (left_of SLOTS self.new.round < left_of SLOTS self.old.round) }
    {
        if self.is_past_limit(1) {
            return let_go(held);
        }
        self.tables.wants_collect_step(held)
    }

    /// Looks at what the held pages show, and goes on where there is nothing to do, up to the collector's next event, and tells
    /// what that works at: nothing where it would make none. All pages of the store are held.
    ///
    /// Nothing else of the journal changes, and no event is made.
    #[inline(always)]
    pub fn look_on(&mut self, held: &Three<SLOTS>) -> Option<RoundAt>
        requires agree { Agree (cells_of self.old) held.now }
        requires all { HoldsAll self.old.history.ids held.now }
        ensures ready { IsReadyForCollector self.new held.now }
        ensures looks { OnlyLooks SLOTS self.old self.new }
        ensures none { (result ≡ None) ↔ (is_past_limit self.new 1 ≡ true) ⊎ ((self.new.queue ≡ []) × (self.new.round ≡ Closed)) }
        ensures at { IfSome result (λ at. at ≡ asked self.new.round) }
    {
        if self.is_past_limit(1) || self.tables.is_idle() {
            return None;
        }
        Some(self.tables.look_on(held))
    }

    /// Makes one event of the collector, adds its entry and tells what it did.
    ///
    /// Where the history is not full, it is idle exactly where the queue is empty and no round is open. No object is deleted that
    /// is reachable, from the root or a held reference, in any outcome of the active transactions.
    pub fn collect_step(&mut self, held: &mut Three<SLOTS>) -> Collect
        requires agree { Agree (cells_of self.old) held.old }
        requires ready { IsReadyForCollector self.old held.old }
        ensures full { (result ≡ Collect.TraceFull) ↔ (is_past_limit self.old 1 ≡ true) }
        ensures marked { result ≡ Collect.TraceFull → (self.new ≡ record self.old { marks = record self.old.marks { trace = true } }) × (held.new ≡ held.old) }
        ensures idle { (result ≡ Collect.Idle) ↔ (is_past_limit self.old 1 ≡ false) × (self.old.queue ≡ []) × (self.old.round ≡ Closed) }
        ensures unchanged { result ≡ Collect.Idle → (self.new ≡ self.old) × (held.new ≡ held.old) }
        ensures memory { result ≡ Collect.Memory → (self.new ≡ self.old) × (held.new ≡ held.old) }
        ensures event { IsEvent result → MakesEvent SLOTS self.old self.new result }
        ensures safe { (id left : ℕ) → result ≡ Collect.Deleted id left → IsReachableInSomeOutcome (end_of self.old.history).state id → ⊥ }
        ensures lower { (left : ℕ) → left_told result ≡ Some left → (left ≡ left_of SLOTS self.new.round) × (pops result ≡ false → left < last_left self.old.notes) }
        ensures opening { (self.new.opening ≡ self.old.opening) × (self.new.limits ≡ self.old.limits) }
        ensures pages { pages_held held.new ≡ pages_held held.old }
        ensures agree { Agree (cells_of self.new) held.new }
        ensures elsewhere { IsSameElsewhere (cells_of self.old) (cells_of self.new) held.old }
    {
        if self.is_past_limit(1) {
            self.trace.mark_full();
            return Collect::TraceFull;
        }
        if self.tables.is_idle() {
            return Collect::Idle;
        }
        let next = self.tables.round.at();
        self.make_event(held, next)
    }

    /// Makes the collector's next event, which works at this place, adds its entry and tells what it did.
    ///
    /// No object is deleted that is reachable, from the root or a held reference, in any outcome of the active transactions.
    pub fn make_event(&mut self, held: &mut Three<SLOTS>, at: RoundAt) -> Collect
        requires agree { Agree (cells_of self.old) held.old }
        requires ready { IsReadyForCollector self.old held.old }
        requires history { is_past_limit self.old 1 ≡ false }
        requires some { (self.old.queue ≡ []) × (self.old.round ≡ Closed) → ⊥ }
        requires at { at ≡ asked self.old.round }
        ensures made { (result ≡ Collect.Memory) ⊎ IsEvent result }
        ensures memory { result ≡ Collect.Memory → (self.new ≡ self.old) × (held.new ≡ held.old) }
        ensures event { IsEvent result → MakesEvent SLOTS self.old self.new result }
        ensures safe { (id left : ℕ) → result ≡ Collect.Deleted id left → IsReachableInSomeOutcome (end_of self.old.history).state id → ⊥ }
        ensures lower { (left : ℕ) → left_told result ≡ Some left → (left ≡ left_of SLOTS self.new.round) × (pops result ≡ false → left < last_left self.old.notes) }
        ensures opening { (self.new.opening ≡ self.old.opening) × (self.new.limits ≡ self.old.limits) }
        ensures pages { pages_held held.new ≡ pages_held held.old }
        ensures agree { Agree (cells_of self.new) held.new }
        ensures elsewhere { IsSameElsewhere (cells_of self.old) (cells_of self.new) held.old }
    {
        if self.trace.take_room(self.tables.owed() + 1).is_err() {
            return Collect::Memory;
        }
        self.tables.collect_step(&mut self.trace, held, at)
    }
}
