//! How much work is left.
ghost use Rattle.std.specs.Prelude.{◌≡◌};
ghost use Rattle.green_walk.specs.Greening.{work_left};

use super::{Green, Stage};

impl<const SLOTS: usize> Green<SLOTS> {
    /// How much work is left at most. Each look and each event lowers it.
    pub fn work_left(&self) -> u64
        ensures { result ≡ work_left self.now }
    {
        let slots = SLOTS as u64;
        let live = self.live.ids().len() as u64;
        let seeds = (self.seeds.ids().len() - self.done) as u64;
        let walk = live * slots * (slots + 2);
        let seed = slots + 3 + (self.copied.len() as u64 + 2) + walk;
        let tested = match self.test {
            Some(test) => test.slot as u64 + 1,
            None => 0,
        };
        match self.stage {
            Stage::Seed => (seeds * seed).saturating_sub(tested),
            Stage::Into { rest, .. } => {
                seeds.saturating_sub(1) * seed + ((self.copied.len() - rest) as u64 + 2 + walk)
            }
            Stage::Out { place, slot } => {
                let looks = (live * slots).saturating_sub(place as u64 * slots + slot as u64);
                let walk_left = (1 + looks * (slots + 2)).saturating_sub(tested);
                seeds.saturating_sub(1) * seed + walk_left
            }
        }
    }
}
