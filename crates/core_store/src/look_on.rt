//! The looks of the collector where all pages are held: it goes over all slots of an object at which there is nothing to do.
ghost use Rattle.std.specs.Prelude.{◌≡◌, ◌<◌, ◌≤◌, ℕ, slice_index, true, false, IfSome, None};
ghost use Rattle.store_model.specs.Core.{Core};
ghost use Rattle.core_store.specs.RoundView.{asked, is_event, left_of, Passes};
ghost use Rattle.core_store.specs.Frames.{Agree, HoldsAll};
ghost use Rattle.core_store.specs.Views.{view_of};
ghost use Rattle.core_store.specs.Stands.{Stands};
ghost use Rattle.core_store.specs.Ready.{IsStanding};
ghost use Rattle.core_store.specs.Passed.{HasPassed, IsEventOf};
ghost use Rattle.core_store.specs.SlotLooks.{is_white_in};

use crate::looks::next_pointer;
use crate::round_at::RoundAt;
use crate::slots;
use crate::tables::Tables;
use crate::three::Three;
use green_walk::Found;

impl<const SLOTS: usize> Tables<SLOTS> {
    /// Looks at what the held pages show, and goes on where there is nothing to do, up to the next event, and tells what that
    /// works at. All pages are held.
    pub(crate) fn look_on(&mut self, held: &Three<SLOTS>) -> RoundAt
        requires standing { IsStanding (view_of self.old) held.now }
        requires all { HoldsAll self.old.ids held.now }
        ensures at { result ≡ asked (view_of self.new).round }
        ensures passes { (c : Core) → Stands SLOTS (view_of self.old) c → Agree c.cells held.now → Passes SLOTS c.cells (view_of self.old).round (view_of self.new).round }
        ensures stands { (c : Core) → Stands SLOTS (view_of self.old) c → Agree c.cells held.now → Stands SLOTS (view_of self.new) c }
        ensures event { (c : Core) → Stands SLOTS (view_of self.old) c → Agree c.cells held.now → is_event c.cells (asked (view_of self.new).round) ≡ true }
        ensures same { view_of self.new ≡ record (view_of self.old) { round = (view_of self.new).round } }
    {
        'looks: loop {
            let at = self.round.at();
            if let Some(event) = self.look_at(held, at) {
                return event;
            }
        }
    }

    /// Makes the looks that come next, over the slots of one object where it is at a slot. Tells the event that comes after
    /// them, or `None`, and then it has got further. All pages are held.
    #[inline(always)]
    fn look_at(&mut self, held: &Three<SLOTS>, at: RoundAt) -> Option<RoundAt>
        requires standing { IsStanding (view_of self.old) held.now }
        requires all { HoldsAll self.old.ids held.now }
        requires at { at ≡ asked (view_of self.old).round }
        ensures passed { HasPassed SLOTS (view_of self.old) (view_of self.new) held.now }
        ensures event { IfSome result (IsEventOf SLOTS (view_of self.old) (view_of self.new) held.now) }
        ensures lower { result ≡ None → left_of SLOTS (view_of self.new).round < left_of SLOTS (view_of self.old).round }
    {
        match at {
            RoundAt::Look { id, slot } => self.look_for_strong(held, id, slot),
            RoundAt::Cut { id, slot } => self.look_for_pointer(held, id, slot),
            RoundAt::Into { from, slot, to } => self.look_into(held, from, slot, to),
            RoundAt::Seed { id } => {
                self.see_seed(id);
                None
            }
            RoundAt::Test { id, slot } => {
                self.test_slots(held, id, slot);
                None
            }
            RoundAt::Out { from, slot } => {
                self.walk_slots(held, from, slot);
                None
            }
            RoundAt::Queue
            | RoundAt::Copy { .. }
            | RoundAt::Judge
            | RoundAt::Free { .. }
            | RoundAt::Flip { .. }
            | RoundAt::Strengthen { .. }
            | RoundAt::End => Some(at),
        }
    }

    /// The looks at the slots of an object of the round from this one on, up to one that holds a strong pointer. All pages are
    /// held.
    #[inline(always)]
    fn look_for_strong(&mut self, held: &Three<SLOTS>, id: u32, slot: u8) -> Option<RoundAt>
        requires standing { IsStanding (view_of self.old) held.now }
        requires all { HoldsAll self.old.ids held.now }
        requires at { asked (view_of self.old).round ≡ RoundAt.Look id slot }
        ensures passed { HasPassed SLOTS (view_of self.old) (view_of self.new) held.now }
        ensures event { IfSome result (IsEventOf SLOTS (view_of self.old) (view_of self.new) held.now) }
        ensures lower { result ≡ None → left_of SLOTS (view_of self.new).round < left_of SLOTS (view_of self.old).round }
    {
        let place = slots::first_strong(held, id, slot);
        if place == slot {
            return Some(RoundAt::Look { id, slot });
        }
        self.round.look_to(place);
        if place as usize == SLOTS {
            return None;
        }
        Some(RoundAt::Look { id, slot: place })
    }

    /// The looks at the slots of a condemned object from this one on, up to one that isn't null. All pages are held.
    #[inline(always)]
    fn look_for_pointer(&mut self, held: &Three<SLOTS>, id: u32, slot: u8) -> Option<RoundAt>
        requires standing { IsStanding (view_of self.old) held.now }
        requires all { HoldsAll self.old.ids held.now }
        requires at { asked (view_of self.old).round ≡ RoundAt.Cut id slot }
        ensures passed { HasPassed SLOTS (view_of self.old) (view_of self.new) held.now }
        ensures event { IfSome result (IsEventOf SLOTS (view_of self.old) (view_of self.new) held.now) }
        ensures lower { result ≡ None → left_of SLOTS (view_of self.new).round < left_of SLOTS (view_of self.old).round }
    {
        let first = slot as usize;
        let place = next_pointer(&held.cell(id).slots, first);
        if place == first {
            return Some(RoundAt::Cut { id, slot });
        }
        self.round.look_to(place as u8);
        if place == SLOTS {
            return None;
        }
        Some(RoundAt::Cut {
            id,
            slot: place as u8,
        })
    }

    /// The look at a slot that may lead to the object that was flipped. All pages are held.
    #[inline(always)]
    fn look_into(&mut self, held: &Three<SLOTS>, from: u32, slot: u8, to: u32) -> Option<RoundAt>
        requires standing { IsStanding (view_of self.old) held.now }
        requires all { HoldsAll self.old.ids held.now }
        requires at { asked (view_of self.old).round ≡ RoundAt.Into from slot to }
        ensures passed { HasPassed SLOTS (view_of self.old) (view_of self.new) held.now }
        ensures event { IfSome result (IsEventOf SLOTS (view_of self.old) (view_of self.new) held.now) }
        ensures lower { result ≡ None → left_of SLOTS (view_of self.new).round < left_of SLOTS (view_of self.old).round }
    {
        if slots::leads_to(held, from, slot, to) {
            return Some(RoundAt::Into { from, slot, to });
        }
        self.round.found(Found::Nothing);
        None
    }

    /// The looks at the slots of a tested object from this one on: a strong pointer in one of them ends the test, and there is
    /// nothing to do. All pages are held.
    #[inline(always)]
    fn test_slots(&mut self, held: &Three<SLOTS>, id: u32, slot: u8)
        requires standing { IsStanding (view_of self.old) held.now }
        requires all { HoldsAll self.old.ids held.now }
        requires at { asked (view_of self.old).round ≡ RoundAt.Test id slot }
        ensures passed { HasPassed SLOTS (view_of self.old) (view_of self.new) held.now }
        ensures lower { left_of SLOTS (view_of self.new).round < left_of SLOTS (view_of self.old).round }
    {
        let place = slots::first_strong(held, id, slot);
        if place == slot {
            self.round.found(Found::Nothing);
            return;
        }
        self.round.test_to(place);
        if (place as usize) < SLOTS {
            self.round.found(Found::Nothing);
        }
    }

    /// The looks at the slots of a green object from this one on: the first target that waits and to which no strong pointer
    /// leads is tested. All pages are held.
    #[inline(always)]
    fn walk_slots(&mut self, held: &Three<SLOTS>, from: u32, slot: u8)
        requires standing { IsStanding (view_of self.old) held.now }
        requires all { HoldsAll self.old.ids held.now }
        requires at { asked (view_of self.old).round ≡ RoundAt.Out from slot }
        ensures passed { HasPassed SLOTS (view_of self.old) (view_of self.new) held.now }
        ensures lower { left_of SLOTS (view_of self.new).round < left_of SLOTS (view_of self.old).round }
    {
        let slots = &held.cell(from).slots;
        let first = slot as usize;
        let place = self.first_to_test(slots, first);
        if place == first {
            self.round.begin_test(slots[place]);
            return;
        }
        self.round.walk_to(place as u8);
        if place < SLOTS {
            self.round.begin_test(slots[place]);
        }
    }

    /// The first of a green object's slots, from this one on, whose target is to be tested, or the number of slots.
    fn first_to_test(&self, slots: &[u32; SLOTS], from: usize) -> usize
        requires standing { (c : Core) × Stands SLOTS (view_of self.now) c }
        requires out { (id : ℕ) × (slot : ℕ) × (asked (view_of self.now).round ≡ RoundAt.Out id slot) }
        requires within { from ≤ SLOTS }
        ensures behind { from ≤ result }
        ensures within { result ≤ SLOTS }
        ensures idle { (c : Core) → Stands SLOTS (view_of self.now) c → (k : ℕ) → from ≤ k → k < result → is_white_in c.cells (view_of self.now).round (slice_index slots.now k) ≡ false }
        ensures white { result < SLOTS → (c : Core) → Stands SLOTS (view_of self.now) c → is_white_in c.cells (view_of self.now).round (slice_index slots.now result) ≡ true }
    {
        for place in from..SLOTS {
            if self.is_to_test(slots[place]) {
                return place;
            }
        }
        SLOTS
    }

    /// Whether the object waits for the green walk and no strong pointer leads to it.
    #[inline(always)]
    fn is_to_test(&self, id: u32) -> bool
        requires standing { (c : Core) × Stands SLOTS (view_of self.now) c }
        requires out { (from : ℕ) × (slot : ℕ) × (asked (view_of self.now).round ≡ RoundAt.Out from slot) }
        ensures { (c : Core) → Stands SLOTS (view_of self.now) c → result ≡ is_white_in c.cells (view_of self.now).round id }
    {
        id != 0 && self.round.waits(id) && self.zeros[id as usize]
    }
}
