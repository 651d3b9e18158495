//! The events of the collector: which one comes next, and those that change no cell.
ghost use Rattle.std.specs.Prelude.{◌≡◌, ℕ, ◌<◌, ◌≤◌, List, length, Bool, not, ◌&&◌, get_or, false};
ghost use Rattle.store_model.specs.Core.{Core};
ghost use Rattle.core_store.specs.declared.three.HeldFrame.{HeldFrame};
ghost use Rattle.core_store.specs.RoundView.{Closed, is_closed, asked, left_of};
ghost use Rattle.core_store.specs.Frames.{pages_held};
ghost use Rattle.core_store.specs.Views.{view_of};
ghost use Rattle.core_store.specs.Stands.{Stands};
ghost use Rattle.core_store.specs.Steps.{AreNames, JoinsIfLoose};
ghost use Rattle.core_store.specs.Collecting.{CanCollect, CollectsOne, answer_of, IsNoted, EntersOne};
ghost use Rattle.core_store.specs.Queued.{is_none_queued};
ghost use Rattle.core_store.specs.Notes.{act_of, logged_of};

use crate::collect::Collect;
use crate::event::Event;
use crate::round::Round;
use crate::round_at::RoundAt;
use crate::tables::Tables;
use crate::three::Three;
use crate::trace::Trace;

/// Adds the note of an event that was made, after which the round stands so, and for which there is room. Tells what the event
/// did.
#[inline(always)]
fn enter<const SLOTS: usize>(event: Event, round: &Round<SLOTS>, trace: &mut Trace) -> Collect
    requires room { length trace.old.notes.list < trace.old.notes.room }
    ensures noted { IsNoted trace.old trace.new (act_of event) (logged_of event) (left_of SLOTS round.now.view) }
    ensures answer { result ≡ answer_of (act_of event) (logged_of event) (left_of SLOTS round.now.view) }
{
    let left = round.left();
    trace.add_event(event, left);
    answer_of(event, left)
}

impl<const SLOTS: usize> Tables<SLOTS> {
    /// Whether the queue is empty and no round is open.
    pub(crate) fn is_idle(&self) -> bool
        ensures { result ≡ (is_closed (view_of self.now).round && is_none_queued (view_of self.now).queue) }
    {
        self.round.is_closed() && self.queue.len() == 0
    }

    /// Makes the event that comes next, adds its note, for which there is room, and tells what it did.
    #[inline(always)]
    pub(crate) fn collect_step(
        &mut self,
        trace: &mut Trace,
        held: &mut Three<SLOTS>,
        next: RoundAt,
    ) -> Collect
        requires next { next ≡ asked (view_of self.old).round }
        requires ready { CanCollect (view_of self.old) held.old }
        requires busy { (is_closed (view_of self.old).round && is_none_queued (view_of self.old).queue) ≡ false }
        requires room { length trace.old.notes.list < trace.old.notes.room }
        ensures enters { EntersOne SLOTS (view_of self.old) (view_of self.new) held.old held.new trace.old trace.new result }
        ensures owed { self.new.owed ≡ self.old.owed }
        ensures pages { pages_held held.new ≡ pages_held held.old }
    {
        match next {
            RoundAt::Queue => enter(self.begin_round(), &self.round, trace),
            RoundAt::Look { id, slot } => enter(self.weaken(held, id, slot), &self.round, trace),
            RoundAt::Copy { id } => enter(self.copy(held, id), &self.round, trace),
            RoundAt::Judge => enter(self.judge(), &self.round, trace),
            RoundAt::Cut { id, slot } => enter(self.cut_dead(held, id, slot), &self.round, trace),
            RoundAt::Free { id } => enter(self.free_dead(held, id), &self.round, trace),
            RoundAt::Flip { id } => enter(self.flip(held, id), &self.round, trace),
            RoundAt::Into { from, slot, to } => {
                enter(self.weaken_into(held, from, slot, to), &self.round, trace)
            }
            RoundAt::Strengthen { from, slot, to } => {
                enter(self.strengthen(held, from, slot, to), &self.round, trace)
            }
            RoundAt::End => enter(self.end_round(), &self.round, trace),
            // Looks are made before.
            RoundAt::Seed { .. } | RoundAt::Test { .. } | RoundAt::Out { .. } => Collect::Idle,
        }
    }

    /// Whether no strong pointer leads to the object and no transaction names it.
    fn is_loose(&self, id: u32) -> bool
        requires { id < length (view_of self.now).zeros }
        ensures { (named : ℕ → Bool) → AreNames (view_of self.now).references named → result ≡ (get_or (view_of self.now).zeros id false && not (named id)) }
    {
        self.zeros[id as usize] && !self.references.names(id)
    }

    /// Takes the first object out of the queue, and opens a round with it, unless a strong pointer leads to it or a
    /// transaction names it.
    fn begin_round(&mut self) -> Event
        requires standing { (c : Core) × Stands SLOTS (view_of self.old) c }
        requires closed { (view_of self.old).round ≡ Closed }
        requires some { is_none_queued (view_of self.old).queue ≡ false }
        ensures collects { (held : List (HeldFrame SLOTS)) → CollectsOne SLOTS (view_of self.old) (view_of self.new) held held (act_of result) (logged_of result) }
        ensures owed { self.new.owed ≡ self.old.owed }
    {
        let Some(id) = self.queue.pop() else {
            return Event::Judge;
        };
        if !self.is_loose(id) {
            return Event::Skip { id };
        }
        self.round.start(id);
        Event::Start { id }
    }

    /// Copies the object's slots and counts.
    fn copy(&mut self, held: &Three<SLOTS>, id: u32) -> Event
        requires ready { CanCollect (view_of self.old) held.now }
        requires at { asked (view_of self.old).round ≡ RoundAt.Copy id }
        ensures collects { CollectsOne SLOTS (view_of self.old) (view_of self.new) held.now held.now (act_of result) (logged_of result) }
        ensures owed { self.new.owed ≡ self.old.owed }
    {
        self.round.scan(id, held.cell(id).seen());
        Event::Scan { id }
    }

    /// The verdict.
    fn judge(&mut self) -> Event
        requires standing { (c : Core) × Stands SLOTS (view_of self.old) c }
        requires at { asked (view_of self.old).round ≡ RoundAt.Judge }
        ensures collects { (held : List (HeldFrame SLOTS)) → CollectsOne SLOTS (view_of self.old) (view_of self.new) held held (act_of result) (logged_of result) }
        ensures owed { self.new.owed ≡ self.old.owed }
    {
        self.round.judge(&self.locks, &self.references);
        Event::Judge
    }

    /// Lets an object of the round join the queue where no strong pointer leads to it and no transaction names it.
    fn requeue(&mut self, id: u32)
        requires within { (1 ≤ id) × (id ≤ self.old.ids) }
        requires marked { id < length (view_of self.old).zeros }
        ensures joins { JoinsIfLoose (view_of self.old) (view_of self.new) id }
        ensures owed { self.new.owed ≡ self.old.owed }
    {
        if !self.round.holds(id) {
            return;
        }
        if self.is_loose(id) {
            self.queue.push(id);
        }
    }

    /// Closes the round. Its objects without strong pointers join the queue, unless a transaction names them.
    fn end_round(&mut self) -> Event
        requires standing { (c : Core) × Stands SLOTS (view_of self.old) c }
        requires at { asked (view_of self.old).round ≡ RoundAt.End }
        ensures collects { (held : List (HeldFrame SLOTS)) → CollectsOne SLOTS (view_of self.old) (view_of self.new) held held (act_of result) (logged_of result) }
        ensures owed { self.new.owed ≡ self.old.owed }
    {
        for place in 0..self.round.list().len() {
            let id = self.round.list()[place];
            self.requeue(id);
        }
        self.round.close();
        Event::End
    }
}

/// What a step of the collector is answered that made this event.
#[inline(always)]
fn answer_of(event: Event, left: u64) -> Collect
    ensures { result ≡ answer_of (act_of event) (logged_of event) left }
{
    if let Event::Free { id } = event {
        return Collect::Deleted { id, left };
    }
    let popped = matches!(event, Event::Skip { .. } | Event::Start { .. });
    Collect::Did { popped, left }
}
