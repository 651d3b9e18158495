//! Going on to a slot further on, over slots at which there is nothing to do.
ghost use Rattle.std.specs.Prelude.{◌≡◌, ℕ, ◌≤◌};
ghost use Rattle.green_walk.specs.Greening.{AtOut, IsGreening, moved_to, settled, tested_to, walked_to};

use super::{Green, Stage};
use crate::green_at::Test;

impl<const SLOTS: usize> Green<SLOTS> {
    /// The test goes on to this slot. That no slot gone over holds a strong pointer is for the caller to know.
    pub fn test_to(&mut self, slot: u8)
        requires { slot ≤ SLOTS }
        ensures tested { self.new ≡ tested_to self.old slot }
        ensures sound { IsGreening self.new }
    {
        if let Some(test) = self.test {
            self.test = Some(Test { id: test.id, slot });
        }
    }

    /// The walk of green objects goes on to this slot of the object that it is at, or to the next object where it has no
    /// such slot. That the slots gone over gave nothing to do is for the caller to know.
    pub fn walk_to(&mut self, slot: u8)
        requires { slot ≤ SLOTS }
        ensures walked { self.new ≡ walked_to self.old slot }
        ensures sound { IsGreening self.new }
    {
        self.settle();
        match self.stage {
            Stage::Seed | Stage::Into { .. } => {}
            Stage::Out { place, .. } => self.move_to(place, slot),
        }
    }

    /// Goes on to this slot of the green object at this place, where the walk is, or to the next object.
    fn move_to(&mut self, place: usize, slot: u8)
        requires at { (at : ℕ) × (self.old.stage ≡ AtOut place at) }
        requires settled { settled self.old ≡ self.old }
        requires within { slot ≤ SLOTS }
        ensures moved { self.new ≡ moved_to self.old place slot }
        ensures sound { IsGreening self.new }
    {
        self.test = None;
        self.stage = if slot as usize == SLOTS {
            Stage::Out {
                place: place + 1,
                slot: 0,
            }
        } else {
            Stage::Out { place, slot }
        };
    }
}
