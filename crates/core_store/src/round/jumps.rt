//! Going on to a slot further on, over slots at which there is nothing to do.
ghost use Rattle.std.specs.Prelude.{◌≡◌, ℕ, ◌≤◌};
ghost use Rattle.core_store.specs.RoundView.{IsInStep, IsSlotLook, asked, looked_to};

use super::{Round, Stage};
use crate::round_at::RoundAt;
use green_walk::Found;

impl<const SLOTS: usize> Round<SLOTS> {
    /// Goes on to this slot of the object of the round or of the condemned object that is looked at, or after the object
    /// where it has no such slot. That the slots gone over gave nothing to do is for the caller to know.
    pub(crate) fn look_to(&mut self, slot: u8)
        requires look { IsSlotLook (asked self.old.view) }
        requires within { slot ≤ SLOTS }
        ensures looked { self.new ≡ record self.old { view = looked_to SLOTS self.old.view slot } }
        ensures sound { IsInStep SLOTS self.new.limit self.new.view }
    {
        match self.stage {
            Stage::Closed => {}
            Stage::Walking => self.red.pass_to(slot),
            Stage::Sweeping => self.sweep_to(slot),
        }
    }

    /// The sweep goes on to this slot of its object, or after the object.
    fn sweep_to(&mut self, slot: u8)
        requires at { (id : ℕ) × (at : ℕ) × (asked self.old.view ≡ RoundAt.Cut id at) }
        requires within { slot ≤ SLOTS }
        ensures looked { self.new ≡ record self.old { view = looked_to SLOTS self.old.view slot } }
        ensures sound { IsInStep SLOTS self.new.limit self.new.view }
    {
        if slot as usize == SLOTS {
            self.sweep.found(Found::Nothing);
            self.slot = 0;
        } else {
            self.slot = slot;
        }
    }

    /// The test goes on to this slot. That no slot gone over holds a strong pointer is for the caller to know.
    pub(crate) fn test_to(&mut self, slot: u8)
        requires at { (id : ℕ) × (at : ℕ) × (asked self.old.view ≡ RoundAt.Test id at) }
        requires within { slot ≤ SLOTS }
        ensures tested { self.new ≡ record self.old { view = looked_to SLOTS self.old.view slot } }
        ensures sound { IsInStep SLOTS self.new.limit self.new.view }
    {
        self.green.test_to(slot);
    }

    /// The walk of green objects goes on to this slot of the object, or after the object where it has no such slot. That the
    /// slots gone over gave nothing to do is for the caller to know.
    #[inline(always)]
    pub(crate) fn walk_to(&mut self, slot: u8)
        requires at { (id : ℕ) × (at : ℕ) × (asked self.old.view ≡ RoundAt.Out id at) }
        requires within { slot ≤ SLOTS }
        ensures walked { self.new ≡ record self.old { view = looked_to SLOTS self.old.view slot } }
        ensures sound { IsInStep SLOTS self.new.limit self.new.view }
    {
        self.green.walk_to(slot);
    }
}
