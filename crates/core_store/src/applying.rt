//! The calls of clients: what each works on, the pages that it wants, and what it does.
ghost use Rattle.std.specs.Prelude.{◌≡◌, ◌≢◌, ◌↔◌, ℕ, ◌<◌, ◌≤◌, true, IsSome, Some, None, option_map};
ghost use Rattle.plain_model.specs.Machine.{step, refusal_of, IsInRange, transaction_of};
ghost use Rattle.plain_model.specs.History.{with_entry, end_of, left_to_undo};
ghost use Rattle.core_store.specs.JournalView.{cells_of, core_of, with_note};
ghost use Rattle.core_store.specs.Events.{after_event};
ghost use Rattle.core_store.specs.RoundView.{left_of, touched_by_record};
ghost use Rattle.core_store.specs.Owed.{entries_needed};
ghost use Rattle.core_store.specs.Limited.{is_past_limit, pages_for_call};
ghost use Rattle.core_store.specs.Steppings.{IsEntered};
ghost use Rattle.core_store.specs.Frames.{Agree, IsSameElsewhere, IsNext, HasPages, pages_held};
ghost use Rattle.core_store.specs.Logged.{want_of, pages_for_undo, logged_by, logged_by_undo};
ghost use Rattle.core_store.specs.Replaced.{next_to_restore};
ghost use Rattle.core_store.specs.Work.{IsWorkIn, pages_of_work};

use crate::abort_step::AbortStep;
use crate::act::Act;
use crate::journal::Journal;
use crate::notes::PlainNote;
use crate::plain_event::{Cause, PlainEvent};
use crate::plan::room_needed;
use crate::three::Three;
use crate::want::{Want, Work};
use log_record::CellRecord;
use plain_model::{Call, Entry, Reply};

impl<const SLOTS: usize> Journal<SLOTS> {
    /// What the call works on: nothing where it is refused or the history is full. It is told before any page is held.
    pub fn work(&self, pass: u8, call: &Call) -> Option<Work>
        requires client { (1 ≤ pass) × (pass ≤ 64) }
        requires in_range { IsInRange SLOTS call.now }
        requires no_abort { call.now ≡ Call.Abort → transaction_of (end_of self.now.history).state pass ≡ None }
        ensures works { IsWorkIn SLOTS self.now.history.ids (cells_of self.now) result }
        ensures pages { pages_of_work (cells_of self.now) result ≡ pages_for_call self.now pass call.now }
    {
        if self.is_past_limit(entries_needed(call)) {
            return None;
        }
        self.tables.work(pass, call)
    }

    /// What the next abort step of the client works on: nothing where it ends the transaction.
    pub fn undo_work(&self, pass: u8) -> Option<Work>
        ensures works { IsWorkIn SLOTS self.now.history.ids (cells_of self.now) result }
        ensures pages { pages_of_work (cells_of self.now) result ≡ pages_for_undo (cells_of self.now) (next_to_restore (end_of self.now.history) pass) }
    {
        self.tables.undo_work(pass)
    }

    /// What is to be done with the held pages before this can be worked on.
    pub fn wants_for(&self, work: Option<Work>, held: &Three<SLOTS>) -> Want
        requires work { IsWorkIn SLOTS self.now.history.ids (cells_of self.now) work }
        requires agree { Agree (cells_of self.now) held.now }
        ensures exact { result ≡ want_of (pages_of_work (cells_of self.now) work) (pages_held held.now) }
        ensures next { (page : ℕ) → result ≡ Want.Page page → IsNext self.now.history.ids held.now page }
    {
        self.tables.wants(work, held)
    }

    /// What is to be done with the held pages before the call can be made.
    pub fn wants(&self, pass: u8, call: &Call, held: &Three<SLOTS>) -> Want
        requires client { (1 ≤ pass) × (pass ≤ 64) }
        requires in_range { IsInRange SLOTS call.now }
        requires no_abort { call.now ≡ Call.Abort → transaction_of (end_of self.now.history).state pass ≡ None }
        requires agree { Agree (cells_of self.now) held.now }
        ensures exact { result ≡ want_of (pages_for_call self.now pass call.now) (pages_held held.now) }
        ensures next { (page : ℕ) → result ≡ Want.Page page → IsNext self.now.history.ids held.now page }
    {
        self.wants_for(self.work(pass, call), held)
    }

    /// What is to be done with the held pages before an abort step of the client can be made.
    pub fn wants_abort_step(&self, pass: u8, held: &Three<SLOTS>) -> Want
        requires agree { Agree (cells_of self.now) held.now }
        ensures exact { result ≡ want_of (pages_for_undo (cells_of self.now) (next_to_restore (end_of self.now.history) pass)) (pages_held held.now) }
        ensures next { (page : ℕ) → result ≡ Want.Page page → IsNext self.now.history.ids held.now page }
    {
        self.wants_for(self.undo_work(pass), held)
    }

    /// Does the call, adds its entry and answers what the entry says.
    pub fn apply(&mut self, held: &mut Three<SLOTS>, pass: u8, call: &Call) -> Reply
        requires client { (1 ≤ pass) × (pass ≤ 64) }
        requires in_range { IsInRange SLOTS call.now }
        requires no_abort { call.now ≡ Call.Abort → transaction_of (end_of self.old.history).state pass ≡ None }
        requires agree { Agree (cells_of self.old) held.old }
        requires ready { HasPages self.old.history.ids (pages_for_call self.old pass call.now) held.old }
        ensures full { (result ≡ Reply.TraceFull) ↔ (is_past_limit self.old (entries_needed call.now) ≡ true) }
        ensures marked { result ≡ Reply.TraceFull → (self.new ≡ record self.old { marks = record self.old.marks { trace = true } }) × (held.new ≡ held.old) }
        ensures memory { result ≡ Reply.Memory → (self.new ≡ self.old) × (held.new ≡ held.old) }

        // A commit takes no memory.
        ensures commit { call.now ≡ Call.Commit → refusal_of (end_of self.old.history).state pass Call.Commit ≡ None → result ≢ Reply.Memory }
        ensures entry { IsEntered result → self.new.history ≡ with_entry self.old.history (Entry.Call pass call.now result) }
        ensures machine { IsEntered result → result ≡ (step (end_of self.old.history).state pass call.now).0 }
        ensures noted { IsEntered result → self.new.notes ≡ with_note self.old.notes (Entry.Call pass call.now result) (logged_by (end_of self.old.history).state (cells_of self.old) pass call.now) (left_of SLOTS self.new.round) Act.Other }
        ensures collector { IsEntered result → core_of self.new ≡ after_event SLOTS (core_of self.old) (Entry.Call pass call.now result) (logged_by (end_of self.old.history).state (cells_of self.old) pass call.now) }
        ensures cursor { IsEntered result → self.new.round ≡ touched_by_record self.old.round (logged_by (end_of self.old.history).state (cells_of self.old) pass call.now) }
        ensures opening { (self.new.opening ≡ self.old.opening) × (self.new.limits ≡ self.old.limits) }
        ensures unmarked { IsEntered result → self.new.marks ≡ self.old.marks }
        ensures pages { pages_held held.new ≡ pages_held held.old }
        ensures agree { Agree (cells_of self.new) held.new }
        ensures elsewhere { IsSameElsewhere (cells_of self.old) (cells_of self.new) held.old }
    {
        if self.is_past_limit(entries_needed(call)) {
            self.trace.mark_full();
            return Reply::TraceFull;
        }
        let planned = self.tables.plan(pass, call);
        let room = room_needed(planned, self.tables.owed());
        if self.trace.take_room(room).is_err() {
            return Reply::Memory;
        }
        let Ok(outcome) = self.tables.perform(held, pass, planned) else {
            return Reply::Memory;
        };
        let event = PlainEvent::of_call(pass, call, outcome.reply, outcome.logged);
        let note = PlainNote {
            event,
            left: self.tables.round.left(),
        };
        self.trace.add(note);
        outcome.reply
    }

    /// Undoes the last write of the client's transaction that isn't undone, or ends the transaction where none is left.
    /// It is never refused and takes no memory.
    pub fn abort_step(&mut self, held: &mut Three<SLOTS>, pass: u8) -> AbortStep
        requires active { IsSome (transaction_of (end_of self.old.history).state pass) }
        requires agree { Agree (cells_of self.old) held.old }
        requires ready { HasPages self.old.history.ids (pages_for_undo (cells_of self.old) (next_to_restore (end_of self.old.history) pass)) held.old }
        ensures undone { result ≡ AbortStep.Undone → (0 < left_to_undo (end_of self.old.history) pass) × (self.new.history ≡ with_entry self.old.history (Entry.Undo pass)) }
        ensures ended { result ≡ AbortStep.Ended → (left_to_undo (end_of self.old.history) pass ≡ 0) × (self.new.history ≡ with_entry self.old.history (Entry.Call pass Call.Abort Reply.Done)) }
        ensures noted_undo { result ≡ AbortStep.Undone → self.new.notes ≡ with_note self.old.notes (Entry.Undo pass) (option_map (logged_by_undo (cells_of self.old) pass) (next_to_restore (end_of self.old.history) pass)) (left_of SLOTS self.new.round) Act.Other }
        ensures noted_end { result ≡ AbortStep.Ended → self.new.notes ≡ with_note self.old.notes (Entry.Call pass Call.Abort Reply.Done) (Some (CellRecord.AbortEnd pass)) (left_of SLOTS self.new.round) Act.Other }
        ensures collector_undo { result ≡ AbortStep.Undone → core_of self.new ≡ after_event SLOTS (core_of self.old) (Entry.Undo pass) (option_map (logged_by_undo (cells_of self.old) pass) (next_to_restore (end_of self.old.history) pass)) }
        ensures collector_end { result ≡ AbortStep.Ended → core_of self.new ≡ after_event SLOTS (core_of self.old) (Entry.Call pass Call.Abort Reply.Done) (Some (CellRecord.AbortEnd pass)) }
        ensures cursor_undo { result ≡ AbortStep.Undone → self.new.round ≡ touched_by_record self.old.round (option_map (logged_by_undo (cells_of self.old) pass) (next_to_restore (end_of self.old.history) pass)) }
        ensures cursor_end { result ≡ AbortStep.Ended → self.new.round ≡ self.old.round }
        ensures opening { (self.new.opening ≡ self.old.opening) × (self.new.limits ≡ self.old.limits) × (self.new.marks ≡ self.old.marks) }
        ensures pages { pages_held held.new ≡ pages_held held.old }
        ensures agree { Agree (cells_of self.new) held.new }
        ensures elsewhere { IsSameElsewhere (cells_of self.old) (cells_of self.new) held.old }
    {
        match self.tables.plan_undo(pass) {
            Some(replaced) => {
                let logged = self.tables.undo(held, pass, replaced);
                let cause = Cause::Undo;
                let event = PlainEvent::Logged {
                    pass,
                    cause,
                    logged,
                };
                let note = PlainNote {
                    event,
                    left: self.tables.round.left(),
                };
                self.trace.add(note);
                AbortStep::Undone
            }
            None => {
                let logged = self.tables.end_abort(pass);
                let cause = Cause::AbortEnd;
                let event = PlainEvent::Logged {
                    pass,
                    cause,
                    logged,
                };
                let note = PlainNote {
                    event,
                    left: self.tables.round.left(),
                };
                self.trace.add(note);
                AbortStep::Ended
            }
        }
    }
}

/// How many entries a call may add to the history and to what its transaction owes.
pub(crate) fn entries_needed(call: &Call) -> u64
    ensures { result ≡ entries_needed call.now }
{
    match call {
        Call::Begin | Call::Store { .. } | Call::SetPay { .. } => 2,
        Call::Read { .. }
        | Call::Make { .. }
        | Call::GetPay { .. }
        | Call::Release { .. }
        | Call::Commit
        | Call::Abort => 1,
    }
}
