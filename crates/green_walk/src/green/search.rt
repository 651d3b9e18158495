//! The search for the next slot that may lead to the flipped object.
ghost use Rattle.std.specs.Prelude.{◌≡◌, ◌≢◌, ◌+◌, ◌<◌, ◌≤◌, true, length, slice_index_or};
ghost use Rattle.green_walk.specs.GreenInside.{IsHead, IsFirstWaiting, IsFirstWaitingTo};
ghost use Rattle.green_walk.specs.Linked.{IsNextNaming, target_at};

use super::Green;

impl<const SLOTS: usize> Green<SLOTS> {
    /// The place of the first slot from this one on whose object waits, or the number of slots.
    fn first_waiting(&self, from: usize) -> usize
        requires { from ≤ length self.now.copied }
        ensures { IsFirstWaiting self.now from result }
    {
        let mut place = from;
        while place < self.copied.len() && !self.waits(self.copied.at(place).id) {
            place += 1;
        }
        place
    }

    /// The place of the first slot from this one on, which names the object, that names it too and whose object waits, or
    /// the number of slots.
    fn first_waiting_to(&self, flipped: u32, from: usize) -> usize
        requires within { from ≤ length self.now.copied }
        requires some { flipped ≢ 0 }
        requires small { flipped ≤ self.now.limit }
        requires names { from < length self.now.copied → target_at self.now.copied from ≡ flipped }
        ensures { IsFirstWaitingTo self.now flipped from result }
    {
        let mut place = from;
        while place < self.copied.len() && !self.waits(self.copied.at(place).id) {
            place = self.copied.next_naming(place);
        }
        place
    }

    /// The place of the first slot that may lead to the flipped object, or the number of slots.
    pub(super) fn head(&self, flipped: u32, rest: usize, named: usize) -> usize
        requires within { rest ≤ length self.now.copied }
        requires some { flipped ≢ 0 }
        requires small { flipped ≤ self.now.limit }
        requires way { self.now.current ≡ true → IsNextNaming self.now.copied flipped rest named }
        ensures { IsHead self.now flipped rest result }
    {
        if self.current {
            self.first_waiting_to(flipped, named)
        } else {
            self.first_waiting(rest)
        }
    }

    /// The place of the next slot that names the same object, or the number of slots.
    pub(super) fn named_behind(&self, place: usize) -> usize
        requires within { place < length self.now.copied }
        requires some { self.now.current ≡ true → target_at self.now.copied place ≢ 0 }
        requires small { self.now.current ≡ true → target_at self.now.copied place ≤ self.now.limit }
        ensures { self.now.current ≡ true → IsNextNaming self.now.copied (target_at self.now.copied place) (place + 1) result }
    {
        if self.current {
            self.copied.next_naming(place)
        } else {
            place
        }
    }
}
