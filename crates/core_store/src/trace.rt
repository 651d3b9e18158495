//! The trace of a journal: its notes, how many it may have, and which answers were given.
ghost use Rattle.std.specs.Prelude.{◌≡◌, ◌+◌, ◌^◌, ◌<◌, ◌≤◌, ◌++◌, ◌∷◌, [], nat_lt, length, true, false, OnOk, IsOk};
ghost use Rattle.core_store.specs.Notes.{note_of_event, note_of_plain};

use crate::event::Event;
use crate::limits::Limits;
use crate::marks::Marks;
use crate::notes::{Notes, PlainNote};
use plain_model::Memory;
use std::alloc::Global;

/// What happened since the opening, how far that may grow, and which answers were given.
#[derive(Debug, Drop)]
pub(crate) struct Trace {
    pub(crate) notes: Notes,
    pub(crate) limits: Limits,
    pub(crate) marks: Marks,
    /// Whether room is taken for one note of upkeep, beside those that are owed.
    pub(crate) reserved: bool,
}

impl Trace {
    /// Nothing happened, and no mark is set. Where there is no memory for the first notes yet, each takes its own.
    pub(crate) fn new(alloc: Global, limits: Limits) -> Trace
        ensures notes { result.notes.list ≡ [] }
        ensures limits { result.limits ≡ limits }
        ensures marks { result.marks ≡ record { disk = false; trace = false; log = false } }
        ensures reserved { result.reserved ≡ false }
    {
        Trace {
            notes: Notes::new(alloc),
            limits,
            marks: Marks {
                disk: false,
                trace: false,
                log: false,
            },
            reserved: false,
        }
    }

    /// Whether so many notes more would go past the limit, beside those that are owed.
    pub(crate) fn is_past_limit(&self, owed: usize, more: u64) -> bool
        requires { length self.now.notes.list + owed + more < 2 ^ 64 }
        ensures { result ≡ nat_lt self.now.limits.trace (length self.now.notes.list + owed + more) }
    {
        self.notes.len() as u64 + owed as u64 + more > self.limits.trace
    }

    /// Takes room for so many notes more. Out of memory is its only error.
    pub(crate) fn take_room(&mut self, more: usize) -> Result<(), Memory>
        ensures room { OnOk result (length self.new.notes.list + more ≤ self.new.notes.room) }
        ensures succeeds { length self.old.notes.list + more ≤ self.old.notes.room → IsOk result }
        ensures notes { self.new.notes.list ≡ self.old.notes.list }
        ensures more { self.old.notes.room ≤ self.new.notes.room }
        ensures rest { (self.new.limits ≡ self.old.limits) × (self.new.marks ≡ self.old.marks) }
        ensures reserved { self.new.reserved ≡ self.old.reserved }
    {
        self.notes.take_room(more)
    }

    /// Appends a note that isn't the collector's, for which there is room. What was reserved is given up.
    #[inline(always)]
    pub(crate) fn add(&mut self, note: PlainNote)
        requires { length self.old.notes.list < self.old.notes.room }
        ensures items { self.new.notes.list ≡ self.old.notes.list ++ note_of_plain note ∷ [] }
        ensures len { length self.new.notes.list ≡ length self.old.notes.list + 1 }
        ensures room { self.old.notes.room ≤ self.new.notes.room }
        ensures rest { (self.new.limits ≡ self.old.limits) × (self.new.marks ≡ self.old.marks) }
        ensures reserved { self.new.reserved ≡ false }
    {
        self.reserved = false;
        self.notes.add(note);
    }

    /// Appends the note of an event of the collector, for which there is room. What was reserved is given up.
    #[inline(always)]
    pub(crate) fn add_event(&mut self, event: Event, left: u64)
        requires { length self.old.notes.list < self.old.notes.room }
        ensures items { self.new.notes.list ≡ self.old.notes.list ++ note_of_event event left ∷ [] }
        ensures len { length self.new.notes.list ≡ length self.old.notes.list + 1 }
        ensures room { self.old.notes.room ≤ self.new.notes.room }
        ensures rest { (self.new.limits ≡ self.old.limits) × (self.new.marks ≡ self.old.marks) }
        ensures reserved { self.new.reserved ≡ false }
    {
        self.reserved = false;
        self.notes.add_event(event, left);
    }

    /// Keeps the room that was taken for one note more for upkeep.
    pub(crate) fn reserve(&mut self)
        ensures { self.new ≡ record self.old { reserved = true } }
    {
        self.reserved = true;
    }

    /// Marks that a call was answered that the history is full.
    pub(crate) fn mark_full(&mut self)
        ensures { self.new ≡ record self.old { marks = record self.old.marks { trace = true } } }
    {
        self.marks.trace = true;
    }
}
