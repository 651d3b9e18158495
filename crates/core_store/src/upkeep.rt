//! Entries of the upkeep of log and pages.
ghost use Rattle.std.specs.Prelude.{◌≡◌, ◌↔◌, true, OnOk, IsErrOf, Some, None};
ghost use Rattle.plain_model.specs.History.{end_of, least_active};
ghost use Rattle.core_store.specs.JournalView.{core_of};
ghost use Rattle.core_store.specs.Upkeep.{IsUpkeep, with_upkeep};
ghost use Rattle.core_store.specs.Notes.{entry_of_plain, logged_of_plain};
ghost use Rattle.core_store.specs.Limited.{is_past_limit};

use crate::journal::Journal;
use crate::notes::PlainNote;
use crate::plain_event::PlainEvent;
use crate::room_refusal::RoomRefusal;
use plain_model::Entry;

impl<const SLOTS: usize> Journal<SLOTS> {
    /// Reserves room for one entry of upkeep, which is then never refused. A call that enters another entry gives it up.
    pub fn reserve_entry(&mut self) -> Result<(), RoomRefusal>
        ensures full { IsErrOf result RoomRefusal.TraceFull ↔ (is_past_limit self.old 1 ≡ true) }
        ensures marked { IsErrOf result RoomRefusal.TraceFull → self.new ≡ record self.old { marks = record self.old.marks { trace = true } } }
        ensures memory { IsErrOf result RoomRefusal.Memory → self.new ≡ self.old }
        ensures reserved { OnOk result (self.new ≡ record self.old { reserved = true }) }
    {
        if self.is_past_limit(1) {
            self.trace.mark_full();
            return Err(RoomRefusal::TraceFull);
        }
        if self.trace.take_room(self.tables.owed() + 1).is_err() {
            return Err(RoomRefusal::Memory);
        }
        self.trace.reserve();
        Ok(())
    }

    /// Enters that upkeep of the log or of the pages was done, in the room that was reserved. It takes no memory.
    pub fn enter_hidden(&mut self)
        requires reserved { self.old.reserved ≡ true }
        ensures entered { self.new ≡ with_upkeep SLOTS self.old Entry.Hidden }
        ensures same { core_of self.new ≡ core_of self.old }
    {
        self.enter_upkeep(PlainEvent::Hidden);
    }

    /// Enters that a checkpoint was refused, since this client, the least active one, has a transaction, in the room that was
    /// reserved. It takes no memory.
    pub fn enter_turn_busy(&mut self, pass: u8)
        requires reserved { self.old.reserved ≡ true }
        requires least { least_active (end_of self.old.history).state ≡ Some pass }
        ensures entered { self.new ≡ with_upkeep SLOTS self.old (Entry.TurnBusy pass) }
        ensures same { core_of self.new ≡ core_of self.old }
    {
        self.enter_upkeep(PlainEvent::TurnBusy { pass });
    }

    /// Enters an entry of upkeep, which changes nothing else, in the room that was reserved.
    fn enter_upkeep(&mut self, event: PlainEvent)
        requires reserved { self.old.reserved ≡ true }
        requires upkeep { IsUpkeep (end_of self.old.history) (entry_of_plain event) }
        requires none { logged_of_plain event ≡ None }
        ensures entered { self.new ≡ with_upkeep SLOTS self.old (entry_of_plain event) }
        ensures same { core_of self.new ≡ core_of self.old }
    {
        let note = PlainNote {
            event,
            left: self.tables.round.left(),
        };
        self.trace.add(note);
    }
}
