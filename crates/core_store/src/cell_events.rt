//! The events of the collector that change cells.
ghost use Rattle.std.specs.Prelude.{◌≡◌, ◌<◌, ◌≤◌, ◌==◌, length, not, ◌&&◌, get_or, false};
ghost use Rattle.plain_model.specs.Graphs.{root};
ghost use Rattle.ref_tables.specs.Queue.{has};
ghost use Rattle.core_store.specs.RoundView.{asked, ids_in};
ghost use Rattle.core_store.specs.Frames.{pages_held};
ghost use Rattle.core_store.specs.Views.{view_of};
ghost use Rattle.core_store.specs.Steps.{JoinsIfCut};
ghost use Rattle.core_store.specs.Collecting.{CanCollect, CollectsOne};
ghost use Rattle.core_store.specs.Notes.{act_of, logged_of};

use crate::event::Event;
use crate::round_at::RoundAt;
use crate::slots;
use crate::tables::Tables;
use crate::three::Three;
use cell_page::{Cell, ROOT};
use green_walk::Found;

impl<const SLOTS: usize> Tables<SLOTS> {
    /// Whether an object is to join the open round: no strong pointer leads to it, it isn't the root, and it isn't in
    /// the round.
    fn is_let_go(&self, id: u32) -> bool
        requires { id < length (view_of self.now).zeros }
        ensures { result ≡ (not (id == root) && (not (has (ids_in (view_of self.now).round) id) && get_or (view_of self.now).zeros id false)) }
    {
        id != ROOT && !self.round.holds(id) && self.zeros[id as usize]
    }

    /// Makes the strong pointer in the slot weak. Its target joins the round where no strong pointer leads to it any
    /// more.
    pub(crate) fn weaken(&mut self, held: &mut Three<SLOTS>, id: u32, slot: u8) -> Event
        requires ready { CanCollect (view_of self.old) held.old }
        requires at { asked (view_of self.old).round ≡ RoundAt.Look id slot }
        ensures collects { CollectsOne SLOTS (view_of self.old) (view_of self.new) held.old held.new (act_of result) (logged_of result) }
        ensures owed { self.new.owed ≡ self.old.owed }
        ensures pages { pages_held held.new ≡ pages_held held.old }
    {
        let target = slots::weaken(held, &mut self.zeros, id, slot);
        if self.is_let_go(target) {
            self.queue.drop_id(target);
            self.round.weakened(Some(target));
        } else {
            self.round.weakened(None);
        }
        Event::Weaken { id, slot, target }
    }

    /// Removes the pointer in the slot of a condemned object. Its target joins the queue where the last strong pointer
    /// to it went.
    pub(crate) fn cut_dead(&mut self, held: &mut Three<SLOTS>, id: u32, slot: u8) -> Event
        requires ready { CanCollect (view_of self.old) held.old }
        requires at { asked (view_of self.old).round ≡ RoundAt.Cut id slot }
        ensures collects { CollectsOne SLOTS (view_of self.old) (view_of self.new) held.old held.new (act_of result) (logged_of result) }
        ensures owed { self.new.owed ≡ self.old.owed }
        ensures pages { pages_held held.new ≡ pages_held held.old }
    {
        let change = slots::restore(held, &mut self.zeros, id, slot, 0);
        self.queue_cut(change.old_target, change.old_strong);
        self.round.cut();
        Event::CutDead {
            id,
            slot,
            target: change.old_target,
            was_strong: change.old_strong,
        }
    }

    /// Lets what a removed pointer led to join the queue, where the pointer was strong and the object is to join.
    fn queue_cut(&mut self, id: u32, was_strong: bool)
        requires within { (1 ≤ id) × (id ≤ self.old.ids) }
        requires marked { id < length (view_of self.old).zeros }
        ensures joins { JoinsIfCut (view_of self.old) (view_of self.new) id was_strong }
    {
        if !was_strong {
            return;
        }
        self.join_queue(id);
    }

    /// Frees a condemned object.
    pub(crate) fn free_dead(&mut self, held: &mut Three<SLOTS>, id: u32) -> Event
        requires ready { CanCollect (view_of self.old) held.old }
        requires at { asked (view_of self.old).round ≡ RoundAt.Free id }
        ensures collects { CollectsOne SLOTS (view_of self.old) (view_of self.new) held.old held.new (act_of result) (logged_of result) }
        ensures owed { self.new.owed ≡ self.old.owed }
        ensures pages { pages_held held.new ≡ pages_held held.old }
    {
        self.free.insert(id);
        held.put_cell(Cell::free(id));
        self.round.freed(id);
        Event::Free { id }
    }

    /// Flips a seed: its pointers to itself stay weak, and all others to it become strong.
    pub(crate) fn flip(&mut self, held: &mut Three<SLOTS>, id: u32) -> Event
        requires ready { CanCollect (view_of self.old) held.old }
        requires at { asked (view_of self.old).round ≡ RoundAt.Flip id }
        ensures collects { CollectsOne SLOTS (view_of self.old) (view_of self.new) held.old held.new (act_of result) (logged_of result) }
        ensures owed { self.new.owed ≡ self.old.owed }
        ensures pages { pages_held held.new ≡ pages_held held.old }
    {
        slots::flip(held, &mut self.zeros, id);
        self.round.found(Found::Made { id });
        Event::Flip { id }
    }

    /// Makes the strong pointer in the slot weak, which leads to the object that was flipped.
    pub(crate) fn weaken_into(
        &mut self,
        held: &mut Three<SLOTS>,
        from: u32,
        slot: u8,
        to: u32,
    ) -> Event
        requires ready { CanCollect (view_of self.old) held.old }
        requires at { asked (view_of self.old).round ≡ RoundAt.Into from slot to }
        ensures collects { CollectsOne SLOTS (view_of self.old) (view_of self.new) held.old held.new (act_of result) (logged_of result) }
        ensures owed { self.new.owed ≡ self.old.owed }
        ensures pages { pages_held held.new ≡ pages_held held.old }
    {
        slots::weaken(held, &mut self.zeros, from, slot);
        self.round.found(Found::Made { id: from });
        Event::Weaken {
            id: from,
            slot,
            target: to,
        }
    }

    /// Makes the weak pointer in the slot of a green object strong, which leads to the object that was tested.
    pub(crate) fn strengthen(
        &mut self,
        held: &mut Three<SLOTS>,
        from: u32,
        slot: u8,
        to: u32,
    ) -> Event
        requires ready { CanCollect (view_of self.old) held.old }
        requires at { asked (view_of self.old).round ≡ RoundAt.Strengthen from slot to }
        ensures collects { CollectsOne SLOTS (view_of self.old) (view_of self.new) held.old held.new (act_of result) (logged_of result) }
        ensures owed { self.new.owed ≡ self.old.owed }
        ensures pages { pages_held held.new ≡ pages_held held.old }
    {
        slots::strengthen(held, &mut self.zeros, from, slot);
        self.round.found(Found::Made { id: to });
        Event::Strengthen {
            id: from,
            slot,
            target: to,
        }
    }
}
