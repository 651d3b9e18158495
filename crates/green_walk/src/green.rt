//! The green walk.
ghost use Rattle.std.specs.Prelude.{◌≡◌, ◌≢◌, ℕ, ◌+◌, ◌<◌, ◌≤◌, not, true, drop, nat_lt, length, slice_index_or, Contains, IfOk, IfSome, if◌then◌else◌};
ghost use Rattle.cell_page.specs.Format.{IsSlotCount};
ghost use Rattle.red_walk.specs.Ids.{IsIdList};
ghost use Rattle.red_walk.specs.Walk.{IsWalk, next as next_of_red};
ghost use Rattle.green_walk.specs.Greening.{GreenStage, AtSeed, AtInto, AtOut, IsGreening, IsAnswer, IsTestable, next, found, found_in, settled, settled_into, settled_out, idle, started, waits, walking, testing, tested, again, are_none, first_seed, asked_at, seed_done};
ghost use Rattle.green_walk.specs.Linked.{IsNextNaming};

use crate::Memory;
use crate::copied_slots::CopiedSlots;
use crate::green_at::{GreenAt, Test, seed_after};
use crate::sweep::Found;
use crate::verdict::Verdict;
use red_walk::{IdList, Red, RedAt};
use std::alloc::Global;
use std::marker::Model;

mod jumps;
mod search;
mod work;

/// Where the walk stands.
#[derive(Clone, Copy, PartialEq, Eq, Debug)]
enum Stage {
    /// At the seed in hand.
    Seed,
    /// At the pointers to the object that was flipped.
    Into {
        flipped: u32,
        /// The place of the first slot that wasn't looked at.
        rest: usize,
        /// The place of the first one of them that named the object when it was copied, or their number.
        named: usize,
    },
    /// At a slot of the green object at this place.
    Out {
        place: usize,
        slot: u8,
    },
}

/// The green walk of a round: it gives the objects that live strong pointers again.
///
/// It holds ids, copied slots and cursors, and reads no page. Room for all ids is taken when it is made, and no later
/// call takes memory.
#[derive(Debug, Drop)]
pub struct Green<const SLOTS: usize> {
    limit: u32,
    seeds: IdList,
    /// How many seeds are done.
    done: usize,
    live: IdList,
    green: IdList,
    stage: Stage,
    test: Option<Test>,
    /// How many green objects were walked, from the first on.
    walked: usize,
    /// Whether an event of a client or of an abort came since the last walk began.
    changed: bool,
    /// Whether the copies still tell what the slots of the live objects hold.
    current: bool,
    copied: CopiedSlots<SLOTS>,
}

impl<const SLOTS: usize> Model for Green<SLOTS> {
    ghost use Rattle.green_walk.specs.Greening.{Greening};
    ghost use Rattle.green_walk.specs.GreenInside.{greening_of, AreInStep};

    ghost Value = { Greening };

    ghost view = { λ a. greening_of SLOTS a.limit a.seeds.ids a.done a.live.ids a.green.ids a.stage a.test a.walked a.changed a.current a.copied.slots };

    ghost invariant = { λ a. AreInStep SLOTS a.limit a.seeds a.done a.live a.green a.stage a.test a.walked a.changed a.current a.copied };
}

/// Whether an object of the round was touched.
fn is_touched<const SLOTS: usize>(red: &Red<SLOTS>) -> bool
    ensures touched { result ≡ not (are_none red.now.touched) }
    ensures sound { IsWalk SLOTS red.now }
{
    for place in 0..red.list().len() {
        if red.touched(place) {
            return true;
        }
    }
    false
}

/// Lets the list have these ids.
fn take_over(list: &mut IdList, ids: &[u32])
    requires { IsIdList ids.now list.old.limit }
    ensures { list.new ≡ record list.old { ids = ids.now } }
{
    list.clear();
    for id in ids {
        list.push(*id);
    }
}

impl<const SLOTS: usize> Green<SLOTS> {
    /// Nothing to walk, with room for the ids from 1 to `ids`. Out of memory is its only error.
    pub fn new(alloc: Global, ids: u32) -> Result<Green<SLOTS>, Memory>
        requires size { IsSlotCount SLOTS }
        requires few { ids < 65536 }
        ensures idle { IfOk result (λ green. green ≡ idle SLOTS ids) }
        ensures sound { IfOk result (λ green. IsGreening green) }
    {
        Ok(Green {
            limit: ids,
            seeds: IdList::new(alloc, ids)?,
            done: 0,
            live: IdList::new(alloc, ids)?,
            green: IdList::new(alloc, ids)?,
            stage: Stage::Seed,
            test: None,
            walked: 0,
            changed: false,
            current: false,
            copied: CopiedSlots::new(alloc, ids)?,
        })
    }

    /// Begins with the seeds and the objects that live by the verdict on this round.
    ///
    /// It goes over the copied slots, so that those that name an object are found later without a search.
    pub fn start(&mut self, verdict: &Verdict, red: &Red<SLOTS>)
        requires at { next_of_red red.now ≡ RedAt.Verdict }
        requires limit { red.now.limit ≡ self.old.limit }
        requires judged { verdict.now.limit ≡ self.old.limit }
        requires seeds { (id : ℕ) → Contains verdict.now.seeds id → Contains verdict.now.live id }
        ensures started { self.new ≡ started SLOTS verdict.now red.now }
        ensures sound { IsGreening self.new }
    {
        self.current = !is_touched(red);
        take_over(&mut self.seeds, verdict.seeds());
        take_over(&mut self.live, verdict.live());
        self.green.clear();
        self.copied.start(red);
        self.done = 0;
        self.stage = Stage::Seed;
        self.test = None;
        self.walked = 0;
        self.changed = false;
    }

    /// Whether the object lives and isn't green.
    pub fn waits(&self, id: u32) -> bool
        ensures { result ≡ waits self.now id }
    {
        self.live.has(id) && !self.green.has(id)
    }

    /// What a walk of the green objects at this place asks for.
    fn out_at(&self, place: usize, slot: u8) -> GreenAt
        ensures { result ≡ (if nat_lt place (length self.now.green) then GreenAt.Out (slice_index_or self.now.green place 0) slot else first_seed (drop 1 self.now.seeds)) }
    {
        let green = self.green.ids();
        if place < green.len() {
            GreenAt::Out {
                from: green[place],
                slot,
            }
        } else {
            seed_after(self.seeds.ids(), self.done + 1)
        }
    }

    /// Where a walk of the green objects begins: where the last one ended, unless a client changed something since.
    fn walk_start(&self) -> usize
        ensures { result ≡ (if self.now.changed then 0 else self.now.walked) }
    {
        if self.changed { 0 } else { self.walked }
    }

    /// What the walk asks for next.
    pub fn next(&self) -> GreenAt
        ensures next { result ≡ next self.now }
        // What holds of every green walk.
        ensures sound { IsGreening self.now }
    {
        match self.stage {
            Stage::Seed => seed_after(self.seeds.ids(), self.done),
            Stage::Into {
                flipped,
                rest,
                named,
            } => {
                let place = self.head(flipped, rest, named);
                if place == self.copied.len() {
                    return self.out_at(self.walk_start(), 0);
                }
                let head = self.copied.at(place);
                GreenAt::Into {
                    from: head.id,
                    slot: head.slot,
                    to: flipped,
                }
            }
            Stage::Out { place, slot } => self.out_at(place, slot),
        }
    }

    /// The test in hand, if one is: whether a strong pointer leads out of an object.
    pub fn test(&self) -> Option<Test>
        ensures { result ≡ self.now.test }
    {
        self.test
    }

    /// The green objects are walked, after the seed in hand.
    fn walk(&mut self)
        requires some { 0 < length self.old.seeds }
        ensures walking { self.new ≡ walking self.old }
        ensures sound { IsGreening self.new }
    {
        self.stage = Stage::Out {
            place: self.walk_start(),
            slot: 0,
        };
        self.test = None;
        self.changed = false;
    }

    /// The walk after a flip begins where no slot is left that may lead to the flipped object.
    fn settle_into(&mut self)
        ensures settled { self.new ≡ settled_into self.old }
        ensures sound { IsGreening self.new }
    {
        if let Stage::Into {
            flipped,
            rest,
            named,
        } = self.stage
        {
            if self.head(flipped, rest, named) == self.copied.len() {
                self.walk();
            }
        }
    }

    /// The seed in hand is done where no green object is left to walk.
    fn settle_out(&mut self)
        ensures settled { self.new ≡ settled_out self.old }
        ensures sound { IsGreening self.new }
    {
        if let Stage::Out { place, .. } = self.stage {
            if place >= self.green.ids().len() {
                self.done += 1;
                self.walked = self.green.ids().len();
                self.stage = Stage::Seed;
            }
        }
    }

    /// Goes to where something is to be looked at.
    fn settle(&mut self)
        ensures settled { self.new ≡ settled self.old }
        ensures sound { IsGreening self.new }
    {
        self.settle_into();
        self.settle_out();
    }

    /// A test of an object begins: whether a strong pointer leads out of it.
    pub fn begin_test(&mut self, id: u32)
        requires { IsTestable self.old (next self.old) id }
        ensures testing { self.new ≡ testing self.old id }
        ensures sound { IsGreening self.new }
    {
        self.settle();
        self.test = Some(Test { id, slot: 0 });
    }

    /// The test goes on: the slot holds no strong pointer.
    pub fn test_on(&mut self)
        requires { IfSome self.old.test (λ t. t.slot < SLOTS) }
        ensures tested { self.new ≡ tested self.old }
        ensures sound { IsGreening self.new }
    {
        if let Some(test) = self.test {
            self.test = Some(Test {
                id: test.id,
                slot: test.slot + 1,
            });
        }
    }

    /// An event of a client or of an abort came: the test in hand goes back to its beginning, and looks that were saved
    /// for what was known before are made again.
    pub fn again(&mut self)
        ensures again { self.new ≡ again self.old }
        ensures sound { IsGreening self.new }
    {
        self.test = None;
        self.changed = true;
        self.current = false;
    }

    /// Takes the answer at a seed.
    fn found_at_seed(&mut self, what: Found)
        requires at { self.old.stage ≡ AtSeed }
        requires answer { IsAnswer self.old (first_seed self.old.seeds) what }
        ensures found { self.new ≡ found_in self.old AtSeed what }
        ensures sound { IsGreening self.new }
    {
        match what {
            Found::Nothing => self.walk(),
            Found::Strong => {
                self.test = None;
                if let GreenAt::Seed { id } = seed_after(self.seeds.ids(), self.done) {
                    self.green.push(id);
                }
                self.walk();
            }
            Found::Made { id } => {
                self.green.push(id);
                self.stage = Stage::Into {
                    flipped: id,
                    rest: 0,
                    named: self.copied.first_naming(id),
                };
                self.test = None;
            }
        }
    }

    /// Goes on after the first slot that may lead to the flipped object.
    fn found_into(&mut self, flipped: u32, rest: usize, named: usize)
        requires at { self.old.stage ≡ AtInto flipped (drop rest self.old.copied) }
        requires settled { settled self.old ≡ self.old }
        requires within { rest ≤ length self.old.copied }
        requires some { flipped ≢ 0 }
        requires small { flipped ≤ self.old.limit }
        requires way { self.old.current ≡ true → IsNextNaming self.old.copied flipped rest named }
        ensures found { (what : Found) → self.new ≡ found_in self.old (AtInto flipped (drop rest self.old.copied)) what }
        ensures sound { IsGreening self.new }
    {
        let place = self.head(flipped, rest, named);
        if place < self.copied.len() {
            self.stage = Stage::Into {
                flipped,
                rest: place + 1,
                named: self.named_behind(place),
            };
        }
    }

    /// Goes on with the next slot of the walk of green objects.
    fn found_out(&mut self, place: usize, slot: u8, what: Found)
        requires at { self.old.stage ≡ AtOut place slot }
        requires settled { settled self.old ≡ self.old }
        requires answer { IsAnswer self.old (asked_at self.old (AtOut place slot)) what }
        ensures found { self.new ≡ found_in self.old (AtOut place slot) what }
        ensures sound { IsGreening self.new }
    {
        if let Found::Made { id } = what {
            self.green.push(id);
        }
        self.test = None;
        self.stage = if slot as usize + 1 == SLOTS {
            Stage::Out {
                place: place + 1,
                slot: 0,
            }
        } else {
            Stage::Out {
                place,
                slot: slot + 1,
            }
        };
    }

    /// Takes the answer to what was asked for.
    pub fn found(&mut self, what: Found)
        requires { IsAnswer self.old (next self.old) what }
        ensures found { self.new ≡ found self.old what }
        ensures sound { IsGreening self.new }
    {
        self.settle();
        match self.stage {
            Stage::Seed => self.found_at_seed(what),
            Stage::Into {
                flipped,
                rest,
                named,
            } => self.found_into(flipped, rest, named),
            Stage::Out { place, slot } => self.found_out(place, slot, what),
        }
    }
}
