//! The steps of an abort.
ghost use Rattle.std.specs.Prelude.{◌≡◌, ◌+◌, IsSome, Some, None};
ghost use Rattle.std.specs.Option.{option_map_or};
ghost use Rattle.std.specs.List.{last_or};
ghost use Rattle.cell_page.specs.Format.{IsSlotCount};
ghost use Rattle.store_model.specs.Core.{Core};
ghost use Rattle.core_store.specs.RoundView.{touched_by_record};
ghost use Rattle.core_store.specs.Transactions.{running_at};
ghost use Rattle.core_store.specs.Frames.{pages_held};
ghost use Rattle.core_store.specs.Views.{view_of};
ghost use Rattle.core_store.specs.Stands.{Stands, UndoesOne, EndsAbort};
ghost use Rattle.core_store.specs.Ready.{IsReadyToUndo, IsReadyToRestore, Restores};

use crate::tables::Tables;
use crate::three::Three;
use crate::{slots, transactions};
use log_record::{CellRecord, PAYLOAD_PLACE};
use plain_model::{Place, Write};

impl<const SLOTS: usize> Tables<SLOTS> {
    /// Lays again what a write replaced.
    fn restore(&mut self, held: &mut Three<SLOTS>, pass: u8, replaced: Write) -> CellRecord
        requires ready { IsReadyToRestore held.old self.old.zeros.items replaced }
        requires size { IsSlotCount SLOTS }
        ensures restores { Restores held.old held.new self.old.zeros.items self.new.zeros.items pass replaced result }
        ensures same { view_of self.new ≡ record (view_of self.old) { zeros = self.new.zeros.items; round = touched_by_record (view_of self.old).round (Some result) } }
        ensures pages { pages_held held.new ≡ pages_held held.old }
    {
        let Write { id, place, value } = replaced;
        match place {
            Place::Slot(slot) => {
                let target = value as u32;
                let change = slots::restore(held, &mut self.zeros, id, slot, target);
                self.touch(id, change.old_target, target);
                CellRecord::Undo {
                    pass,
                    id,
                    place: slot,
                    from: change.old_target.into(),
                    from_strong: change.old_strong,
                    to: value,
                    to_bit: change.new_bit,
                }
            }
            Place::Payload | Place::Whole => CellRecord::Undo {
                pass,
                id,
                place: PAYLOAD_PLACE,
                from: slots::pay(held, id, value),
                from_strong: false,
                to: value,
                to_bit: false,
            },
        }
    }

    /// What the client's next abort step lays again: what its last write replaced that isn't undone. `None` where nothing
    /// is left to undo, and the step ends the transaction.
    pub(crate) fn plan_undo(&self, pass: u8) -> Option<Write>
        ensures { result ≡ option_map_or (λ t. last_or None t.replaced) (running_at self.now.transactions.entries pass) None }
    {
        transactions::last_replaced(&self.transactions, pass)
    }

    /// Undoes the client's last write that isn't undone, which replaced this.
    pub(crate) fn undo(&mut self, held: &mut Three<SLOTS>, pass: u8, replaced: Write) -> CellRecord
        requires active { IsSome (running_at self.old.transactions.entries pass) }
        requires last { option_map_or (λ t. last_or None t.replaced) (running_at self.old.transactions.entries pass) None ≡ Some replaced }
        requires ready { IsReadyToUndo (view_of self.old) held.old pass }
        ensures undone { UndoesOne SLOTS (view_of self.old) (view_of self.new) held.old held.new pass result }
        ensures owed { self.new.owed + 1 ≡ self.old.owed }
        ensures pages { pages_held held.new ≡ pages_held held.old }
    {
        transactions::undo(&mut self.transactions, pass);
        self.owed -= 1;
        self.restore(held, pass, replaced)
    }

    /// Ends the client's transaction, of which nothing is left to undo.
    pub(crate) fn end_abort(&mut self, pass: u8) -> CellRecord
        requires active { IsSome (running_at self.old.transactions.entries pass) }
        requires nothing { option_map_or (λ t. last_or None t.replaced) (running_at self.old.transactions.entries pass) None ≡ None }
        requires standing { (c : Core) × Stands SLOTS (view_of self.old) c }
        ensures ended { EndsAbort SLOTS (view_of self.old) (view_of self.new) pass }
        ensures logged { result ≡ CellRecord.AbortEnd pass }
        ensures owed { self.new.owed + 1 ≡ self.old.owed }
    {
        self.end(pass);
        CellRecord::AbortEnd { pass }
    }
}
