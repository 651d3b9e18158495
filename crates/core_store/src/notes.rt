//! The notes of a journal, in order.
ghost use Rattle.std.specs.Prelude.{◌≡◌, ◌+◌, ◌^◌, ◌<◌, ◌≤◌, ◌++◌, ◌∷◌, [], length, OnOk, IsOk, nat_eq, None, vec_len, vec_capacity};
ghost use Rattle.std.specs.Option.{option_map_or};
ghost use Rattle.std.specs.List.{last_or};
ghost use Rattle.core_store.specs.Notes.{note_of_event, note_of_plain};

use crate::act::Act;
use crate::event::Event;
use crate::note::Note;
use crate::plain_event::PlainEvent;
use log_record::CellRecord;
use plain_model::Memory;
use std::alloc::Global;
use std::marker::Model;

mod iter;

pub use iter::NotesIter;

/// For how many notes room is asked for at the opening. The allocator maps the rows by themselves, and maps them anew, without a
/// copy, as they grow more.
const FIRST_ROOM: usize = 32_768;

/// A note that isn't the collector's.
#[derive(Clone, Copy, Debug)]
pub(crate) struct PlainNote {
    pub(crate) event: PlainEvent,
    pub(crate) left: u64,
}

/// A note of the collector's.
#[derive(Clone, Copy, Debug)]
pub(crate) struct EventNote {
    event: Event,
    left: u64,
}

/// In which row a note stands.
#[derive(Clone, Copy, PartialEq, Eq, Debug)]
pub(crate) enum Row {
    Plain,
    Event,
}

/// The notes of a journal, in order.
///
/// Those of the collector are short, and there are many of them, so they stand in a row of their own; a third row tells
/// the order. A note takes 25 bytes then, or 49, in place of 96.
#[derive(Debug, Drop)]
pub struct Notes {
    order: Vec<Row>,
    plain: Vec<PlainNote>,
    events: Vec<EventNote>,
    /// How many there is room for, whichever row they go to.
    room: usize,
}

impl Model for Notes {
    ghost use Rattle.core_store.specs.Notes.{NotesView, in_order, AreNotesInside};

    ghost Value = { NotesView };

    ghost view = { λ a. record { list = in_order a.order.items a.plain.items a.events.items; room = a.room } };

    ghost invariant = { λ a. AreNotesInside a.order a.plain a.events a.room };
}

/// Appends the item to a row in which there is room.
#[inline(always)]
fn push_into_room<T: Drop>(row: &mut Vec<T>, item: T)
    requires { vec_len row.old < vec_capacity row.old }
    ensures items { row.new.items ≡ row.old.items ++ item ∷ [] }
    ensures len { vec_len row.new ≡ vec_len row.old + 1 }
    ensures capacity { vec_capacity row.old ≤ vec_capacity row.new }
{
    let _ = row.push(item);
}

impl PlainNote {
    /// The note.
    fn note(self) -> Note
        ensures { result ≡ note_of_plain self }
    {
        Note {
            entry: self.event.entry(),
            logged: self.event.logged(),
            left: self.left,
            act: Act::Other,
        }
    }
}

impl EventNote {
    /// The note.
    fn note(self) -> Note
        ensures { result ≡ note_of_event self.event self.left }
    {
        Note {
            entry: self.event.entry(),
            logged: self.event.logged(),
            left: self.left,
            act: self.event.act(),
        }
    }
}

impl Notes {
    /// None. Where there is no memory for the first ones yet, each takes its own.
    pub(crate) fn new(alloc: Global) -> Notes
        ensures { result.list ≡ [] }
    {
        let mut notes = Notes {
            order: Vec::new(alloc),
            plain: Vec::new(alloc),
            events: Vec::new(alloc),
            room: 0,
        };
        let _ = notes.take_room(FIRST_ROOM);
        notes
    }

    /// How many there are.
    pub fn len(&self) -> usize
        ensures { result ≡ length self.now.list }
    {
        self.order.len()
    }

    /// Whether there is none.
    pub fn is_empty(&self) -> bool
        ensures { result ≡ nat_eq (length self.now.list) 0 }
    {
        self.len() == 0
    }

    /// That there are fewer than 2^63 of them: this call hands the fact out.
    pub fn know_few(&self)
        ensures { length self.now.list < 2 ^ 63 }
    {
        let _ = self.order.len();
    }

    /// What the last one logged.
    #[inline(always)]
    pub fn last_logged(&self) -> Option<CellRecord>
        ensures { result ≡ option_map_or (λ n. n.logged) (last_or None self.now.list) None }
    {
        match self.order.last()? {
            Row::Plain => self.plain.last()?.event.logged(),
            Row::Event => self.events.last()?.event.logged(),
        }
    }

    /// Each of them, in order.
    pub fn iter(&self) -> NotesIter<'_>
        ensures { result ≡ self.now.list }
    {
        NotesIter::new(
            self.order.as_slice(),
            self.plain.as_slice(),
            self.events.as_slice(),
        )
    }

    /// Takes room for so many more, of either kind. Out of memory is its only error.
    #[inline(always)]
    pub(crate) fn take_room(&mut self, more: usize) -> Result<(), Memory>
        ensures room { OnOk result (length self.new.list + more ≤ self.new.room) }
        ensures succeeds { length self.old.list + more ≤ self.old.room → IsOk result }
        ensures list { self.new.list ≡ self.old.list }
        ensures more { self.old.room ≤ self.new.room }
    {
        if more <= self.room - self.order.len() {
            return Ok(());
        }
        self.grow(more)
    }

    /// Takes room for so many more, for which there is none.
    #[inline(never)]
    fn grow(&mut self, more: usize) -> Result<(), Memory>
        ensures room { OnOk result (length self.new.list + more ≤ self.new.room) }
        ensures list { self.new.list ≡ self.old.list }
        ensures more { self.old.room ≤ self.new.room }
    {
        self.order.reserve(more)?;
        let all = self.order.len() + more;
        self.plain.reserve(all - self.plain.len())?;
        self.events.reserve(all - self.events.len())?;
        self.room = self
            .order
            .capacity()
            .min(self.plain.capacity())
            .min(self.events.capacity());
        Ok(())
    }

    /// Adds one that isn't the collector's, for which there is room.
    #[inline(always)]
    pub(crate) fn add(&mut self, note: PlainNote)
        requires { length self.old.list < self.old.room }
        ensures list { self.new.list ≡ self.old.list ++ note_of_plain note ∷ [] }
        ensures len { length self.new.list ≡ length self.old.list + 1 }
        ensures room { self.old.room ≤ self.new.room }
    {
        push_into_room(&mut self.order, Row::Plain);
        push_into_room(&mut self.plain, note);
    }

    /// Adds one of the collector's, for which there is room.
    #[inline(always)]
    pub(crate) fn add_event(&mut self, event: Event, left: u64)
        requires { length self.old.list < self.old.room }
        ensures list { self.new.list ≡ self.old.list ++ note_of_event event left ∷ [] }
        ensures len { length self.new.list ≡ length self.old.list + 1 }
        ensures room { self.old.room ≤ self.new.room }
    {
        push_into_room(&mut self.order, Row::Event);
        push_into_room(&mut self.events, EventNote { event, left });
    }
}
