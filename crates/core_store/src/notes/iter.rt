//! The notes of a journal, one after another.
ghost use Rattle.std.specs.Prelude.{◌≡◌};
ghost use Rattle.std.specs.Iterator.{YieldsFirst, item_count};
ghost use Rattle.core_store.specs.Notes.{in_order, AreFilled};

use crate::note::Note;
use crate::notes::{EventNote, PlainNote, Row};
use std::marker::Model;

/// Those notes that are left to be gone over, in order.
#[derive(Debug, Drop)]
pub struct NotesIter<'a> {
    order: &'a [Row],
    plain: &'a [PlainNote],
    events: &'a [EventNote],
}

impl<'a> Model for NotesIter<'a> {
    ghost use Rattle.std.specs.Prelude.{List};
    ghost use Rattle.core_store.specs.declared.note.Note.{Note};
    ghost use Rattle.core_store.specs.Notes.{in_order, AreFilled};

    ghost Value = { List Note };

    ghost view = { λ a. in_order a.order.now a.plain.now a.events.now };

    ghost invariant = { λ a. AreFilled a.order.now a.plain.now a.events.now };
}

impl<'a> NotesIter<'a> {
    /// Over these rows, of which the first one tells the order.
    pub(crate) fn new(
        order: &'a [Row],
        plain: &'a [PlainNote],
        events: &'a [EventNote],
    ) -> NotesIter<'a>
        requires { AreFilled order.now plain.now events.now }
        ensures { result ≡ in_order order.now plain.now events.now }
    {
        NotesIter {
            order,
            plain,
            events,
        }
    }
}

impl<'a> Iterator for NotesIter<'a> {
    type Item = Note;

    ghost next_gives = { YieldsFirst (λ s. s) };

    ghost remaining = { item_count (λ s. s) };

    fn next(&mut self) -> Option<Note> {
        let (row, order) = self.order.split_first()?;
        match row {
            Row::Plain => {
                let (note, plain) = self.plain.split_first()?;
                self.order = order;
                self.plain = plain;
                Some(note.note())
            }
            Row::Event => {
                let (note, events) = self.events.split_first()?;
                self.order = order;
                self.events = events;
                Some(note.note())
            }
        }
    }
}
