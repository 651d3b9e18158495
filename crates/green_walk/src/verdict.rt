//! The verdict of a round.
ghost use Rattle.std.specs.Prelude.{◌≡◌, ℕ, [], length, IfOk};
ghost use Rattle.red_walk.specs.Ids.{IsIdList};
ghost use Rattle.red_walk.specs.Walk.{next};
ghost use Rattle.green_walk.specs.Judged.{IsSeed, IsLive, IsJudged, Picks};

use crate::lock_view::LockView;
use crate::{Memory, counts, part, reach, seeds};
use red_walk::{IdList, Red, RedAt};
use ref_tables::TempRefs;
use std::alloc::Global;
use std::marker::Model;

/// Which objects of a round are seeds, which live, and which are condemned, each list in the order of the
/// round's.
#[derive(Debug, Drop)]
pub struct Verdict {
    seeds: IdList,
    live: IdList,
    condemned: IdList,
    /// The objects that are known to live, in the order in which they were reached.
    reached: IdList,
    /// For each place of the round's list, how many pointers to the object no copied slot shows.
    others: Vec<u64>,
}

impl Model for Verdict {
    ghost use Rattle.green_walk.specs.Judged.{Judged, HaveRoom};

    ghost Value = { Judged };

    ghost view = { λ a. record { seeds = a.seeds.ids; live = a.live.ids; condemned = a.condemned.ids; limit = a.seeds.limit } };

    ghost invariant = { λ a. HaveRoom a.seeds a.live a.condemned a.reached a.others.items };
}

impl Verdict {
    /// No object judged, with room for the ids from 1 to `ids`. Out of memory is its only error.
    pub fn new(alloc: Global, ids: u32) -> Result<Verdict, Memory>
        ensures empty { IfOk result (λ verdict. verdict ≡ record { seeds = []; live = []; condemned = []; limit = ids }) }
        ensures sound { IfOk result (λ verdict. IsJudged verdict) }
    {
        let seeds = IdList::new(alloc, ids)?;
        let live = IdList::new(alloc, ids)?;
        let condemned = IdList::new(alloc, ids)?;
        let reached = IdList::new(alloc, ids)?;
        let others = vec![in alloc; 0; ids as usize]?;
        Ok(Verdict {
            seeds,
            live,
            condemned,
            reached,
            others,
        })
    }

    /// Judges the objects of a round that were all copied. An object is a seed where it is touched, or
    /// locked by the row, or named by the table, or where its copied counts together exceed the number of
    /// copied slots that name it. What lives is the least set that has the seeds and each object of the
    /// round that a copied slot of a living one names. The others are condemned.
    ///
    /// It goes over each copied slot twice, and takes no memory.
    pub fn decide<const SLOTS: usize>(
        &mut self,
        red: &Red<SLOTS>,
        locks: &LockView,
        refs: &TempRefs,
    )
        requires at { next red.now ≡ RedAt.Verdict }
        requires limit { self.old.limit ≡ red.now.limit }
        requires locks { length locks.now ≡ red.now.limit }
        ensures seeds { Picks (IsSeed red.now locks.now refs.now) red.now.list self.new.seeds }
        ensures live { Picks (IsLive red.now (IsSeed red.now locks.now refs.now)) red.now.list self.new.live }
        ensures condemned { Picks (λ id. IsLive red.now (IsSeed red.now locks.now refs.now) id → ⊥) red.now.list self.new.condemned }
        ensures limit { self.new.limit ≡ self.old.limit }
        ensures sound { IsJudged self.new }
    {
        let list = red.list();
        counts::note_others(&mut self.others, red);
        seeds::pick_seeds(&mut self.seeds, red, locks, refs, &self.others);
        reach::reach(&mut self.reached, red, self.seeds.ids());
        part::part(&mut self.live, &mut self.condemned, &self.reached, list);
    }

    /// The seeds.
    pub fn seeds(&self) -> &[u32]
        ensures ids { result.now ≡ self.now.seeds }
        ensures sound { IsIdList self.now.seeds self.now.limit }
    {
        self.seeds.ids()
    }

    /// The objects that live, the seeds among them.
    pub fn live(&self) -> &[u32]
        ensures ids { result.now ≡ self.now.live }
        ensures sound { IsIdList self.now.live self.now.limit }
    {
        self.live.ids()
    }

    /// The objects that are to be freed.
    pub fn condemned(&self) -> &[u32]
        ensures ids { result.now ≡ self.now.condemned }
        ensures sound { IsIdList self.now.condemned self.now.limit }
    {
        self.condemned.ids()
    }
}
