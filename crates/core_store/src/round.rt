//! The open round of the collector.
ghost use Rattle.std.specs.Prelude.{◌≡◌, ℕ, ◌≤◌, ◌<◌, List, Bool, false, filter, length, IfOk, IfSome, unwrap_or};
ghost use Rattle.cell_page.specs.Format.{IsSlotCount};
ghost use Rattle.strict_locks.specs.Locks.{Table};
ghost use Rattle.ref_tables.specs.Queue.{has};
ghost use Rattle.red_walk.specs.Walk.{Walk, opened, moved, joined_by, copied, removed};
ghost use Rattle.red_walk.specs.Inside.{copy_of_seen};
ghost use Rattle.green_walk.specs.declared.sweep.Found.{Found};
ghost use Rattle.green_walk.specs.Judged.{Judged, IsSeed, IsLive, Picks};
ghost use Rattle.green_walk.specs.Sweeping.{SweepState as Sweep, started, found};
ghost use Rattle.green_walk.specs.Greening.{Greening, next as next_of_green, found as found_by_green, started as green_started, IsAnswer, IsTestable, waits, testing, tested};
ghost use Rattle.green_walk.specs.GreenLaws.{most_work};
ghost use Rattle.cell_model.specs.Cells.{Cell as StoredCell};
ghost use Rattle.core_store.specs.RoundView.{RoundView, Closed, Walking, Sweeping, is_closed, asked, asked_by_test, asked_by_green, IsSlotLook, IsGreenAnswer, IsGreenTestable, looked_past, touched_in, left_of, ids_in, IsInStep};
ghost use Rattle.core_store.specs.RoundInside.{IsRowOf};

use crate::round_at::RoundAt;
use cell_page::Seen;
use green_walk::{Found, Green, GreenAt, LockView, Sweep, SweepAt, Test, Verdict};
use plain_model::Memory;
use red_walk::{Red, RedAt};
use ref_tables::TempRefs;
use std::alloc::Global;
use std::marker::Model;
use strict_locks::LockTable;

mod jumps;

/// How far a round has come.
#[derive(Clone, Copy, PartialEq, Eq, Debug)]
enum Stage {
    Closed,
    /// Up to the verdict.
    Walking,
    /// From the verdict on.
    Sweeping,
}

/// What a test asks for next: a slot of its object, where one is left.
fn next_of_test<const SLOTS: usize>(test: Test) -> Option<RoundAt>
    requires { IsSlotCount SLOTS }
    ensures { (over : RoundAt) → unwrap_or result over ≡ asked_by_test SLOTS test over }
{
    if test.slot as usize == SLOTS {
        return None;
    }
    Some(RoundAt::Test {
        id: test.id,
        slot: test.slot,
    })
}

/// What the green walk asks for next.
#[inline(always)]
fn asked_by_green<const SLOTS: usize>(green: &Green<SLOTS>) -> RoundAt
    requires size { IsSlotCount SLOTS }
    requires slots { green.now.slots ≡ SLOTS }
    ensures { result ≡ asked_by_green SLOTS green.now.test (next_of_green green.now) }
{
    match (green.next(), green.test()) {
        (GreenAt::Seed { id }, None) => RoundAt::Seed { id },
        (GreenAt::Seed { id }, Some(test)) => {
            next_of_test::<SLOTS>(test).unwrap_or(RoundAt::Flip { id })
        }
        (GreenAt::Into { from, slot, to }, _) => RoundAt::Into { from, slot, to },
        (GreenAt::Out { from, slot }, None) => RoundAt::Out { from, slot },
        (GreenAt::Out { from, slot }, Some(test)) => {
            let to = test.id;
            next_of_test::<SLOTS>(test).unwrap_or(RoundAt::Strengthen { from, slot, to })
        }
        (GreenAt::End, _) => RoundAt::End,
    }
}

/// What a green walk over so many objects takes at most.
fn most_work(slots: u64, objects: u64) -> u64
    requires slots { slots ≤ 14 }
    requires objects { objects ≤ 8192 }
    ensures { result ≡ most_work slots objects }
{
    let looks = objects * slots;
    objects * ((slots + 3) + (looks + 2) + looks * (slots + 2))
}

/// The open round, or none: its walk, its verdict, its sweep and its green walk.
///
/// Room for all ids is taken when it is made, and no later call takes memory.
#[derive(Debug, Drop)]
pub(crate) struct Round<const SLOTS: usize> {
    ids: u32,
    red: Red<SLOTS>,
    locked: LockView,
    verdict: Verdict,
    sweep: Sweep,
    green: Green<SLOTS>,
    stage: Stage,
    /// The slot of the condemned object in hand from which on references may be left.
    slot: u8,
}

impl<const SLOTS: usize> Model for Round<SLOTS> {
    ghost use Rattle.core_store.specs.RoundView.{Rounds};
    ghost use Rattle.core_store.specs.RoundInside.{view_of_round, AreInStep};

    ghost Value = { Rounds };

    ghost view = { λ a. record { limit = a.ids; view = view_of_round a.stage a.red a.sweep a.slot a.green } };

    ghost invariant = { λ a. AreInStep SLOTS a.ids a.stage a.red a.locked a.verdict a.sweep a.slot a.green };
}

/// Notes which of the objects are locked, each at its place.
fn note_locked(row: &mut LockView, list: &[u32], locks: &LockTable)
    requires { length list.now ≤ length row.old }
    ensures row { IsRowOf locks.now list.now row.new }
    ensures room { length row.new ≡ length row.old }
{
    for place in 0..list.len() {
        row.set(place, locks.holder(list[place]).is_some());
    }
}

impl<const SLOTS: usize> Round<SLOTS> {
    /// No open round.
    pub(crate) fn new(alloc: Global, ids: u32) -> Result<Round<SLOTS>, Memory>
        requires size { IsSlotCount SLOTS }
        requires few { ids ≤ 8192 }
        ensures { IfOk result (λ r. r ≡ record { limit = ids; view = Closed }) }
    {
        Ok(Round {
            ids,
            red: Red::new(alloc, ids)?,
            locked: LockView::new(alloc, ids)?,
            verdict: Verdict::new(alloc, ids)?,
            sweep: Sweep::new(alloc, ids)?,
            green: Green::new(alloc, ids)?,
            stage: Stage::Closed,
            slot: 0,
        })
    }

    /// What the collector looks at or does next.
    #[inline(always)]
    pub(crate) fn at(&self) -> RoundAt
        ensures next { result ≡ asked self.now.view }
        // What holds of every round.
        ensures sound { IsInStep SLOTS self.now.limit self.now.view }
    {
        match self.stage {
            Stage::Closed => RoundAt::Queue,
            Stage::Walking => match self.red.at() {
                RedAt::Look { id, slot } => RoundAt::Look { id, slot },
                RedAt::Copy { id } => RoundAt::Copy { id },
                RedAt::Verdict => RoundAt::Judge,
            },
            Stage::Sweeping => match self.sweep.next() {
                SweepAt::Slots { id } => RoundAt::Cut {
                    id,
                    slot: self.slot,
                },
                SweepAt::Free { id } => RoundAt::Free { id },
                SweepAt::End => asked_by_green(&self.green),
            },
        }
    }

    /// How much work is left: 0 exactly where no round is open. Each look and each event of the round lowers it.
    #[inline(always)]
    pub(crate) fn left(&self) -> u64
        ensures { result ≡ left_of SLOTS self.now.view }
    {
        match self.stage {
            Stage::Closed => 0,
            Stage::Walking => {
                let ids = self.ids as u64;
                let greening = most_work(SLOTS as u64, ids);
                self.red.work_left() + 1 + ((SLOTS as u64 + 1) * ids + greening + 1)
            }
            Stage::Sweeping => {
                let slots = SLOTS as u64 * self.sweep.unemptied() as u64;
                let sweeping = slots.saturating_sub(self.slot as u64) + self.sweep.unfreed() as u64;
                sweeping + self.green.work_left() + 1
            }
        }
    }

    /// Whether no round is open.
    pub(crate) fn is_closed(&self) -> bool
        ensures { result ≡ is_closed self.now.view }
    {
        match self.stage {
            Stage::Closed => true,
            Stage::Walking | Stage::Sweeping => false,
        }
    }

    /// Whether the object is in the open round.
    pub(crate) fn holds(&self, id: u32) -> bool
        ensures holds { result ≡ has (ids_in self.now.view) id }
    {
        self.stage != Stage::Closed && self.red.holds(id)
    }

    /// How many objects are in the open round.
    pub(crate) fn len(&self) -> u32
        ensures length { result ≡ length (ids_in self.now.view) }
        ensures few { result ≤ self.now.limit }
    {
        match self.stage {
            Stage::Closed => 0,
            Stage::Walking | Stage::Sweeping => self.red.len(),
        }
    }

    /// The objects that joined the open round, the freed ones too.
    pub(crate) fn list(&self) -> &[u32]
        ensures walk { (w : Walk) (s : Sweep) (slot : ℕ) (g : Greening) → self.now.view ≡ Sweeping w s slot g → result.now ≡ w.list }
        ensures left { (w : Walk) (s : Sweep) (slot : ℕ) (g : Greening) → self.now.view ≡ Sweeping w s slot g → filter (has w.left) result.now ≡ w.left }
    {
        self.red.list()
    }

    /// A round opens with this object.
    pub(crate) fn start(&mut self, id: u32)
        requires within { (1 ≤ id) × (id ≤ self.old.limit) }
        ensures opened { self.new ≡ record self.old { view = Walking (opened self.old.limit id) } }
        ensures sound { IsInStep SLOTS self.new.limit self.new.view }
    {
        self.red.start(id);
        self.stage = Stage::Walking;
    }

    /// Goes on from a slot that was looked at before the verdict or in the sweep, at which there was nothing to do.
    pub(crate) fn look_past(&mut self)
        requires look { IsSlotLook (asked self.old.view) }
        ensures looked { (cells : List StoredCell) → self.new ≡ record self.old { view = looked_past SLOTS cells self.old.view } }
        ensures sound { IsInStep SLOTS self.new.limit self.new.view }
    {
        match self.stage {
            Stage::Closed => {}
            Stage::Walking => {
                self.red.passed();
            }
            Stage::Sweeping => self.cut(),
        }
    }

    /// Goes on from a slot whose pointer was made weak. An object may join the round by this.
    #[inline(always)]
    pub(crate) fn weakened(&mut self, joins: Option<u32>)
        requires look { (id : ℕ) × (slot : ℕ) × (asked self.old.view ≡ RoundAt.Look id slot) }
        requires joins { IfSome joins (λ id. (1 ≤ id) × (id ≤ self.old.limit) × (has (ids_in self.old.view) id ≡ false)) }
        ensures walks { (w : Walk) → self.old.view ≡ Walking w → self.new ≡ record self.old { view = Walking (joined_by (moved SLOTS w) joins) } }
        ensures sound { IsInStep SLOTS self.new.limit self.new.view }
    {
        self.red.weakened(joins);
    }

    /// Takes the copy of the object that was asked for.
    pub(crate) fn scan(&mut self, id: u32, copy: Seen<SLOTS>)
        requires at { asked self.old.view ≡ RoundAt.Copy id }
        ensures copied { (w : Walk) → self.old.view ≡ Walking w → self.new ≡ record self.old { view = Walking (copied w id (copy_of_seen copy.entry)) } }
        ensures sound { IsInStep SLOTS self.new.limit self.new.view }
    {
        self.red.scan(id, copy);
    }

    /// The object changed: it is marked as touched, where a verdict is to come and some object was copied, and after the
    /// verdict the green walk looks again at what it knew.
    pub(crate) fn touch(&mut self, id: u32)
        ensures touched { self.new ≡ record self.old { view = touched_in self.old.view id } }
        ensures sound { IsInStep SLOTS self.new.limit self.new.view }
    {
        match self.stage {
            Stage::Closed => {}
            Stage::Walking => self.red.touch(id),
            Stage::Sweeping => self.green.again(),
        }
    }

    /// The verdict: the sweep begins with what it condemns, and the green walk with what lives.
    pub(crate) fn judge(&mut self, locks: &LockTable, refs: &TempRefs)
        requires at { asked self.old.view ≡ RoundAt.Judge }
        ensures judged { (w : Walk) → self.old.view ≡ Walking w → (row : List Bool) × (j : Judged) × IsRowOf locks.now w.list row × Picks (IsSeed w row refs.now) w.list j.seeds × Picks (IsLive w (IsSeed w row refs.now)) w.list j.live × Picks (λ id. IsLive w (IsSeed w row refs.now) id → ⊥) w.list j.condemned × (self.new ≡ record self.old { view = Sweeping w (started j.condemned self.old.limit) 0 (green_started SLOTS j w) }) }
        ensures sound { IsInStep SLOTS self.new.limit self.new.view }
    {
        note_locked(&mut self.locked, self.red.list(), locks);
        self.verdict.decide(&self.red, &self.locked, refs);
        self.sweep.start(&self.verdict);
        self.green.start(&self.verdict, &self.red);
        self.stage = Stage::Sweeping;
        self.slot = 0;
    }

    /// Goes on from a slot of a condemned object, which is null now.
    pub(crate) fn cut(&mut self)
        requires at { (id : ℕ) × (slot : ℕ) × (asked self.old.view ≡ RoundAt.Cut id slot) }
        ensures moved { (cells : List StoredCell) → self.new ≡ record self.old { view = looked_past SLOTS cells self.old.view } }
        ensures sound { IsInStep SLOTS self.new.limit self.new.view }
    {
        if self.slot as usize + 1 == SLOTS {
            self.sweep.found(Found::Nothing);
            self.slot = 0;
        } else {
            self.slot += 1;
        }
    }

    /// The object that was to be freed is free.
    pub(crate) fn freed(&mut self, id: u32)
        requires at { asked self.old.view ≡ RoundAt.Free id }
        ensures freed { (w : Walk) (s : Sweep) (slot : ℕ) (g : Greening) → self.old.view ≡ Sweeping w s slot g → self.new ≡ record self.old { view = Sweeping (removed w id) (found s (Found.Made id)) slot g } }
        ensures sound { IsInStep SLOTS self.new.limit self.new.view }
    {
        self.sweep.found(Found::Made { id });
        self.red.remove(id);
    }

    /// Whether the object lives by the verdict and isn't green.
    pub(crate) fn waits(&self, id: u32) -> bool
        ensures { (w : Walk) (s : Sweep) (slot : ℕ) (g : Greening) → self.now.view ≡ Sweeping w s slot g → result ≡ waits g id }
    {
        self.green.waits(id)
    }

    /// Takes the answer to what the green walk asked for.
    #[inline(always)]
    pub(crate) fn found(&mut self, what: Found)
        requires answer { IsGreenAnswer self.old.view what }
        ensures found { (w : Walk) (s : Sweep) (slot : ℕ) (g : Greening) → self.old.view ≡ Sweeping w s slot g → self.new ≡ record self.old { view = Sweeping w s slot (found_by_green g what) } }
        ensures sound { IsInStep SLOTS self.new.limit self.new.view }
    {
        self.green.found(what);
    }

    /// A test of an object begins at what the green walk asked for: whether a strong pointer leads out of it.
    #[inline(always)]
    pub(crate) fn begin_test(&mut self, id: u32)
        requires testable { IsGreenTestable self.old.view id }
        ensures begun { (w : Walk) (s : Sweep) (slot : ℕ) (g : Greening) → self.old.view ≡ Sweeping w s slot g → self.new ≡ record self.old { view = Sweeping w s slot (testing g id) } }
        ensures sound { IsInStep SLOTS self.new.limit self.new.view }
    {
        self.green.begin_test(id);
    }

    /// The test goes on: the slot holds no strong pointer.
    pub(crate) fn tested(&mut self)
        requires at { (id : ℕ) × (slot : ℕ) × (asked self.old.view ≡ RoundAt.Test id slot) }
        ensures tested { (w : Walk) (s : Sweep) (slot : ℕ) (g : Greening) → self.old.view ≡ Sweeping w s slot g → self.new ≡ record self.old { view = Sweeping w s slot (tested g) } }
        ensures sound { IsInStep SLOTS self.new.limit self.new.view }
    {
        self.green.test_on();
    }

    /// The round closes.
    pub(crate) fn close(&mut self)
        ensures { self.new ≡ record self.old { view = Closed } }
    {
        self.red.close();
        self.stage = Stage::Closed;
    }
}
