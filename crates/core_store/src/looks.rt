//! The looks of the collector: what it sees on the held pages where there is nothing to do.
ghost use Rattle.std.specs.Prelude.{◌≡◌, ◌≢◌, ◌<◌, ◌≤◌, ◌*◌, ℕ, List, slice_get, slice_index, IfSome, true, false, Some};
ghost use Rattle.cell_page.specs.Format.{IsSlotCount, page_of_id};
ghost use Rattle.store_model.specs.Core.{Core};
ghost use Rattle.core_store.specs.RoundView.{asked, is_event, IsLookAt, Passes, looked_past, looked_to};
ghost use Rattle.core_store.specs.Frames.{Agree, IsNext, pages_held, is_held};
ghost use Rattle.core_store.specs.Logged.{want_of};
ghost use Rattle.core_store.specs.Work.{IsWork, HasSmallTargets};
ghost use Rattle.core_store.specs.Views.{view_of};
ghost use Rattle.core_store.specs.Stands.{Stands};
ghost use Rattle.core_store.specs.Ready.{IsStanding};
ghost use Rattle.cell_model.specs.Cells.{Cell as StoredCell};
ghost use Rattle.core_store.specs.Slots.{HoldsPagesOf};
ghost use Rattle.core_store.specs.Collecting.{work_at, objects_at, pages_to_collect, CanPass, IsPassedBy};
ghost use Rattle.core_store.specs.SlotLooks.{slot_at};

use crate::round_at::RoundAt;
use crate::slots;
use crate::tables::Tables;
use crate::three::Three;
use crate::want::{Want, Work, wanted};
use cell_page::page_of;
use green_walk::Found;

/// The object on which the collector is about to work, if there is one.
fn work_at(at: RoundAt) -> Option<Work>
    ensures { result ≡ work_at at }
{
    match at {
        RoundAt::Queue | RoundAt::Judge | RoundAt::Seed { .. } | RoundAt::End => None,
        RoundAt::Copy { id }
        | RoundAt::Free { id }
        | RoundAt::Flip { id }
        | RoundAt::Out { from: id, .. } => Some(Work { id, change: None }),
        RoundAt::Look { id, slot }
        | RoundAt::Cut { id, slot }
        | RoundAt::Test { id, slot }
        | RoundAt::Into { from: id, slot, .. }
        | RoundAt::Strengthen { from: id, slot, .. } => Some(Work {
            id,
            change: Some((slot, 0)),
        }),
    }
}

/// The slot that is looked at, with its object, where there is nothing to do at a null one.
fn slot_at(at: RoundAt) -> Option<(u32, u8)>
    ensures { result ≡ slot_at at }
{
    match at {
        RoundAt::Look { id, slot }
        | RoundAt::Cut { id, slot }
        | RoundAt::Test { id, slot }
        | RoundAt::Out { from: id, slot } => Some((id, slot)),
        RoundAt::Queue
        | RoundAt::Copy { .. }
        | RoundAt::Judge
        | RoundAt::Free { .. }
        | RoundAt::Seed { .. }
        | RoundAt::Flip { .. }
        | RoundAt::Into { .. }
        | RoundAt::Strengthen { .. }
        | RoundAt::End => None,
    }
}

/// The first of the slots from this one on that is not null, or the number of slots.
pub(crate) fn next_pointer<const SLOTS: usize>(slots: &[u32; SLOTS], from: usize) -> usize
    requires { from ≤ SLOTS }
    ensures behind { from ≤ result }
    ensures within { result ≤ SLOTS }
    ensures nulls { (k : ℕ) → from ≤ k → k < result → slice_index slots.now k ≡ 0 }
    ensures pointer { result < SLOTS → slice_index slots.now result ≢ 0 }
{
    for place in from..SLOTS {
        if slots[place] != 0 {
            return place;
        }
    }
    SLOTS
}

/// Whether there is something to do, and not only to look at.
#[inline(always)]
fn is_event<const SLOTS: usize>(held: &Three<SLOTS>, at: RoundAt) -> bool
    requires size { IsSlotCount SLOTS }
    requires small { IfSome (work_at at) (IsWork SLOTS) }
    requires pages { IsLookAt at → (cells : List StoredCell) × Agree cells held.now × HasSmallTargets cells × HoldsPagesOf held.now (objects_at cells at) }
    ensures { (cells : List StoredCell) → Agree cells held.now → result ≡ is_event cells at }
{
    match at {
        RoundAt::Look { id, slot } => slots::is_strong(held, id, slot),
        RoundAt::Cut { id, slot } => slots::is_pointer(held, id, slot),
        RoundAt::Into { from, slot, to } => slots::leads_to(held, from, slot, to),
        RoundAt::Seed { .. } | RoundAt::Test { .. } | RoundAt::Out { .. } => false,
        RoundAt::Queue
        | RoundAt::Copy { .. }
        | RoundAt::Judge
        | RoundAt::Free { .. }
        | RoundAt::Flip { .. }
        | RoundAt::Strengthen { .. }
        | RoundAt::End => true,
    }
}

impl<const SLOTS: usize> Tables<SLOTS> {
    /// The first page that the collector's next look or event needs, if it needs one.
    pub(crate) fn page_to_collect(&self) -> Option<u16>
        requires standing { (c : Core) × Stands SLOTS (view_of self.now) c }
        ensures first { (c : Core) → Stands SLOTS (view_of self.now) c → result ≡ slice_get (pages_to_collect c.cells (view_of self.now).round) 0 }
        ensures there { IfSome result (λ page. 8 * page < self.now.ids) }
    {
        match work_at(self.round.at()) {
            Some(work) => Some(page_of(work.id)),
            None => None,
        }
    }

    /// What is to be done with the held pages before the next step of the collector. It looks at what the held pages
    /// show, and goes on where there is nothing to do.
    pub(crate) fn wants_collect_step(&mut self, held: &Three<SLOTS>) -> Want
        requires standing { IsStanding (view_of self.old) held.now }
        ensures passes { (c : Core) → Stands SLOTS (view_of self.old) c → Agree c.cells held.now → Passes SLOTS c.cells (view_of self.old).round (view_of self.new).round }
        ensures stands { (c : Core) → Stands SLOTS (view_of self.old) c → Agree c.cells held.now → Stands SLOTS (view_of self.new) c }
        ensures exact { (c : Core) → Stands SLOTS (view_of self.old) c → Agree c.cells held.now → result ≡ want_of (pages_to_collect c.cells (view_of self.new).round) (pages_held held.now) }
        ensures event { (c : Core) → Stands SLOTS (view_of self.old) c → Agree c.cells held.now → result ≡ Want.Ready → is_event c.cells (asked (view_of self.new).round) ≡ true }
        ensures next { (page : ℕ) → result ≡ Want.Page page → IsNext self.old.ids held.now page }
        ensures same { view_of self.new ≡ record (view_of self.old) { round = (view_of self.new).round } }
    {
        'looks: loop {
            let at = self.next_look(held);
            let want = wanted(held, work_at(at));
            if want != Want::Ready || is_event(held, at) {
                return want;
            }
            self.look_past(held, at);
        }
    }

    /// What is looked at or done next, after the slots that the held pages show to be null.
    #[inline(always)]
    fn next_look(&mut self, held: &Three<SLOTS>) -> RoundAt
        requires standing { IsStanding (view_of self.old) held.now }
        ensures at { result ≡ asked (view_of self.new).round }
        ensures passes { (c : Core) → Stands SLOTS (view_of self.old) c → Agree c.cells held.now → Passes SLOTS c.cells (view_of self.old).round (view_of self.new).round }
        ensures stands { (c : Core) → Stands SLOTS (view_of self.old) c → Agree c.cells held.now → Stands SLOTS (view_of self.new) c }
        ensures same { view_of self.new ≡ record (view_of self.old) { round = (view_of self.new).round } }
    {
        let at = self.round.at();
        let Some((id, slot)) = slot_at(at) else {
            return at;
        };
        if !held.holds(page_of(id)) {
            return at;
        }
        if !self.pass_nulls(held, at, id, slot) {
            return at;
        }
        self.round.at()
    }

    /// Passes over the slots of the object that are null, from the one on that is looked at, and tells whether there was one.
    fn pass_nulls(&mut self, held: &Three<SLOTS>, at: RoundAt, id: u32, slot: u8) -> bool
        requires standing { IsStanding (view_of self.old) held.now }
        requires at { at ≡ asked (view_of self.old).round }
        requires slot { slot_at at ≡ Some (id, slot) }
        requires there { is_held held.now (page_of_id id) ≡ true }
        ensures passes { (c : Core) → Stands SLOTS (view_of self.old) c → Agree c.cells held.now → Passes SLOTS c.cells (view_of self.old).round (view_of self.new).round }
        ensures stands { (c : Core) → Stands SLOTS (view_of self.old) c → Agree c.cells held.now → Stands SLOTS (view_of self.new) c }
        ensures same { view_of self.new ≡ record (view_of self.old) { round = (view_of self.new).round } }
        ensures none { result ≡ false → view_of self.new ≡ view_of self.old }
    {
        let first = slot as usize;
        let place = next_pointer(&held.cell(id).slots, first);
        if place == first {
            return false;
        }
        self.look_to(at, place as u8);
        true
    }

    /// Goes on to this slot of the object that is looked at, or after the object where it has no such slot.
    fn look_to(&mut self, at: RoundAt, slot: u8)
        requires at { at ≡ asked (view_of self.old).round }
        requires look { (id : ℕ) × (k : ℕ) × (slot_at at ≡ Some (id, k)) }
        requires within { slot ≤ SLOTS }
        ensures { view_of self.new ≡ record (view_of self.old) { round = looked_to SLOTS (view_of self.old).round slot } }
    {
        match at {
            RoundAt::Look { .. } | RoundAt::Cut { .. } => self.round.look_to(slot),
            RoundAt::Test { .. } => self.round.test_to(slot),
            RoundAt::Out { .. } => self.round.walk_to(slot),
            RoundAt::Queue
            | RoundAt::Copy { .. }
            | RoundAt::Judge
            | RoundAt::Free { .. }
            | RoundAt::Seed { .. }
            | RoundAt::Flip { .. }
            | RoundAt::Into { .. }
            | RoundAt::Strengthen { .. }
            | RoundAt::End => {}
        }
    }

    /// Goes on from a look at which there was nothing to do.
    #[inline(always)]
    fn look_past(&mut self, held: &Three<SLOTS>, at: RoundAt)
        requires at { at ≡ asked (view_of self.old).round }
        requires ready { CanPass (view_of self.old) held.now }
        ensures passes { (c : Core) → Stands SLOTS (view_of self.old) c → Agree c.cells held.now → (view_of self.new).round ≡ looked_past SLOTS c.cells (view_of self.old).round }
        ensures stands { (c : Core) → Stands SLOTS (view_of self.old) c → Agree c.cells held.now → Stands SLOTS (view_of self.new) c }
        ensures same { view_of self.new ≡ record (view_of self.old) { round = (view_of self.new).round } }
    {
        match at {
            RoundAt::Look { .. } | RoundAt::Cut { .. } => self.round.look_past(),
            RoundAt::Seed { id } => self.see_seed(id),
            RoundAt::Test { id, slot } => self.see_slot_of_test(held, id, slot),
            RoundAt::Into { .. } => self.round.found(Found::Nothing),
            RoundAt::Out { from, slot } => self.see_slot_of_green(held, from, slot),
            RoundAt::Queue
            | RoundAt::Copy { .. }
            | RoundAt::Judge
            | RoundAt::Free { .. }
            | RoundAt::Flip { .. }
            | RoundAt::Strengthen { .. }
            | RoundAt::End => {}
        }
    }

    /// The look at a seed: it is passed over where it is green, it becomes green where a strong pointer leads to it, and
    /// else a test begins whether one leads out of it.
    pub(crate) fn see_seed(&mut self, id: u32)
        requires at { asked (view_of self.old).round ≡ RoundAt.Seed id }
        requires standing { (c : Core) × Stands SLOTS (view_of self.old) c }
        ensures seen { (c : Core) → Stands SLOTS (view_of self.old) c → IsPassedBy SLOTS c (view_of self.old) (view_of self.new) }
    {
        if !self.round.waits(id) {
            self.round.found(Found::Nothing);
        } else if self.zeros[id as usize] {
            self.round.begin_test(id);
        } else {
            self.round.found(Found::Strong);
        }
    }

    /// The look at a slot of a tested object: a strong pointer in it ends the test, and there is nothing to do.
    fn see_slot_of_test(&mut self, held: &Three<SLOTS>, id: u32, slot: u8)
        requires at { asked (view_of self.old).round ≡ RoundAt.Test id slot }
        requires ready { CanPass (view_of self.old) held.now }
        ensures seen { (c : Core) → Stands SLOTS (view_of self.old) c → Agree c.cells held.now → IsPassedBy SLOTS c (view_of self.old) (view_of self.new) }
    {
        if slots::is_strong(held, id, slot) {
            self.round.found(Found::Nothing);
        } else {
            self.round.tested();
        }
    }

    /// The look at a slot of a green object: its target is tested where it waits and no strong pointer leads to it.
    fn see_slot_of_green(&mut self, held: &Three<SLOTS>, from: u32, slot: u8)
        requires at { asked (view_of self.old).round ≡ RoundAt.Out from slot }
        requires ready { CanPass (view_of self.old) held.now }
        ensures seen { (c : Core) → Stands SLOTS (view_of self.old) c → Agree c.cells held.now → IsPassedBy SLOTS c (view_of self.old) (view_of self.new) }
    {
        let target = held.cell(from).slots[slot as usize];
        if self.round.waits(target) && self.zeros[target as usize] {
            self.round.begin_test(target);
        } else {
            self.round.found(Found::Nothing);
        }
    }
}
