//! The red walk.
ghost use Rattle.std.specs.Prelude.{◌≡◌, ℕ, ◌+◌, ◌<◌, ◌≤◌, [], ◌∷◌, ◌++◌, length, filter, slice_index, slice_index_or, vec_len, vec_capacity, true, false, IfOk, IfSome, Some};
ghost use Rattle.cell_page.specs.Format.{IsSlotCount};
ghost use Rattle.store_model.specs.Core.{Copy};
ghost use Rattle.ref_tables.specs.Queue.{has};
ghost use Rattle.red_walk.specs.Walk.{IsWalk, IsLook, next, closed, opened, joined, joined_by, moved, moved_to, copied, touched_at, removed, work_left};
ghost use Rattle.red_walk.specs.Inside.{copy_of_seen};

use crate::Memory;
use crate::id_list::IdList;
use crate::red_at::RedAt;
use cell_page::Seen;
use std::alloc::Global;
use std::marker::Model;

/// The open round of a collector: its objects, the cursor of its walk, the copies and the marks of the
/// objects that were touched.
///
/// No call but `start` and `close` goes over the objects.
#[derive(Debug, Drop)]
pub struct Red<const SLOTS: usize> {
    list: IdList,
    /// The copies of the first objects of the list.
    copies: Vec<Seen<SLOTS>>,
    /// For each id, whether its object was touched and whether it left the round. What stands there for
    /// an id that isn't in the list means nothing.
    touched: Vec<bool>,
    freed: Vec<bool>,
    /// How many left the round.
    gone: u32,
    place: usize,
    slot: u8,
}

impl<const SLOTS: usize> Model for Red<SLOTS> {
    ghost use Rattle.std.specs.Prelude.{length, vec_capacity};
    ghost use Rattle.red_walk.specs.Walk.{Walk};
    ghost use Rattle.red_walk.specs.Inside.{walk_of, AreInStep};

    ghost Value = { Walk };

    ghost view = { λ a. walk_of a.list.ids a.list.limit a.place a.slot a.copies.items a.freed.items a.touched.items };

    ghost invariant = { λ a. AreInStep SLOTS a.list.ids a.list.limit a.gone a.place a.slot (length a.copies.items) (vec_capacity a.copies) a.freed.items a.touched.items };
}

impl<const SLOTS: usize> Red<SLOTS> {
    /// No open round, with room for the ids from 1 to `ids`. Out of memory is its only error.
    pub fn new(alloc: Global, ids: u32) -> Result<Red<SLOTS>, Memory>
        requires { IsSlotCount SLOTS }
        ensures closed { IfOk result (λ red. red ≡ closed ids) }
        ensures sound { IfOk result (λ red. IsWalk SLOTS red) }
    {
        let list = IdList::new(alloc, ids)?;
        let copies = Vec::with_capacity(alloc, ids as usize)?;
        let touched = vec![in alloc; false; ids as usize + 1]?;
        let freed = vec![in alloc; false; ids as usize + 1]?;
        Ok(Red {
            list,
            copies,
            touched,
            freed,
            gone: 0,
            place: 0,
            slot: 0,
        })
    }

    /// Closes the round.
    pub fn close(&mut self)
        ensures closed { self.new ≡ closed self.old.limit }
        ensures sound { IsWalk SLOTS self.new }
    {
        self.list.clear();
        self.copies.clear();
        self.gone = 0;
        self.place = 0;
        self.slot = 0;
    }

    /// Opens a round with this object. What was left of an earlier round is forgotten.
    pub fn start(&mut self, x: u32)
        requires { (1 ≤ x) × (x ≤ self.old.limit) }
        ensures opened { self.new ≡ opened self.old.limit x }
        ensures sound { IsWalk SLOTS self.new }
    {
        self.close();
        self.join(x);
    }

    /// Lets an object join at the end, while none was copied.
    fn join(&mut self, id: u32)
        requires within { (1 ≤ id) × (id ≤ self.old.limit) }
        requires new { has self.old.list id ≡ false }
        requires quiet { self.old.copies ≡ [] }
        ensures joined { self.new ≡ joined self.old id }
        ensures sound { IsWalk SLOTS self.new }
    {
        self.list.push(id);
        self.touched[id as usize] = false;
        self.freed[id as usize] = false;
    }

    /// What the walk asks for next.
    pub fn at(&self) -> RedAt
        ensures next { result ≡ next self.now }
        // What holds of every walk.
        ensures sound { IsWalk SLOTS self.now }
    {
        let list = self.list.ids();
        if self.place < list.len() {
            return RedAt::Look {
                id: list[self.place],
                slot: self.slot,
            };
        }
        if self.copies.len() < list.len() {
            return RedAt::Copy {
                id: list[self.copies.len()],
            };
        }
        RedAt::Verdict
    }

    /// Goes on from the slot that was looked at, where no pointer was made weak.
    pub fn passed(&mut self)
        requires { IsLook (next self.old) }
        ensures moves { self.new ≡ moved SLOTS self.old }
        ensures quiet { self.new.copies ≡ [] }
        ensures sound { IsWalk SLOTS self.new }
    {
        if self.slot as usize + 1 == SLOTS {
            self.place += 1;
            self.slot = 0;
        } else {
            self.slot += 1;
        }
    }

    /// Goes on to this slot of the object that is looked at, or to the next object where it has no such slot. That the slots
    /// gone over gave nothing to do is for the caller to know.
    pub fn pass_to(&mut self, slot: u8)
        requires look { IsLook (next self.old) }
        requires within { slot ≤ SLOTS }
        ensures moves { self.new ≡ moved_to SLOTS self.old slot }
        ensures quiet { self.new.copies ≡ [] }
        ensures sound { IsWalk SLOTS self.new }
    {
        if slot as usize == SLOTS {
            self.place += 1;
            self.slot = 0;
        } else {
            self.slot = slot;
        }
    }

    /// Goes on from the slot that was looked at, whose pointer was made weak. Where an object joins the
    /// round by this, it stands at the list's end.
    pub fn weakened(&mut self, joins: Option<u32>)
        requires look { IsLook (next self.old) }
        requires joins { IfSome joins (λ id. (1 ≤ id) × (id ≤ self.old.limit) × (has self.old.list id ≡ false)) }
        ensures moves { self.new ≡ joined_by (moved SLOTS self.old) joins }
        ensures sound { IsWalk SLOTS self.new }
    {
        self.passed();
        if let Some(id) = joins {
            self.join(id);
        }
    }

    /// Takes the copy of the object that was asked for.
    pub fn scan(&mut self, id: u32, copy: Seen<SLOTS>)
        requires { next self.old ≡ RedAt.Copy id }
        ensures copied { self.new ≡ copied self.old id (copy_of_seen copy.entry) }
        ensures sound { IsWalk SLOTS self.new }
    {
        let _ = self.copies.push(copy);
    }

    /// Marks the object as touched, where some object was copied and this one is in the round.
    pub fn touch(&mut self, id: u32)
        ensures touched { self.new ≡ touched_at self.old id }
        ensures sound { IsWalk SLOTS self.new }
    {
        if !self.copies.is_empty() && self.holds(id) {
            self.touched[id as usize] = true;
        }
    }

    /// Takes an object out of the round that was freed. An id that isn't in the round changes nothing.
    pub fn remove(&mut self, id: u32)
        ensures removed { self.new ≡ removed self.old id }
        ensures sound { IsWalk SLOTS self.new }
    {
        if self.holds(id) {
            self.freed[id as usize] = true;
            self.gone += 1;
        }
    }

    /// The objects in the order in which they joined, with those that were removed.
    pub fn list(&self) -> &[u32]
        ensures ids { result.now ≡ self.now.list }
        ensures left { filter (λ id. has self.now.left id) result.now ≡ self.now.left }
        ensures sound { IsWalk SLOTS self.now }
    {
        self.list.ids()
    }

    /// The id's place in the list, counted from 0, and `None` where it isn't in the list.
    pub fn place(&self, id: u32) -> Option<usize>
        ensures found { IfSome result (λ place. (place < length self.now.list) × (slice_index self.now.list place ≡ id)) }
        ensures only { (place : ℕ) → place < length self.now.list → slice_index self.now.list place ≡ id → result ≡ Some place }
        ensures within { IfSome result (λ place. (1 ≤ id) × (id ≤ self.now.limit)) }
    {
        self.list.place(id)
    }

    /// Whether the object is in the round: it joined, and wasn't removed.
    pub fn holds(&self, id: u32) -> bool
        ensures holds { result ≡ has self.now.left id }
        ensures within { result ≡ true → (1 ≤ id) × (id ≤ self.now.limit) }
    {
        self.list.has(id) && !self.freed[id as usize]
    }

    /// How many objects are in the round.
    pub fn len(&self) -> u32
        ensures length { result ≡ length self.now.left }
        ensures few { result ≤ self.now.limit }
    {
        self.list.ids().len() as u32 - self.gone
    }

    /// How many looks and copies the walk may still ask for, if every id joins that may.
    pub fn work_left(&self) -> u64
        requires { self.now.limit < 65536 }
        ensures exact { result ≡ work_left SLOTS self.now }
        ensures sound { IsWalk SLOTS self.now }
    {
        let limit = self.list.limit() as u64;
        let slots = (limit - self.place as u64) * SLOTS as u64;
        slots.saturating_sub(self.slot as u64) + (limit - self.copies.len() as u64)
    }

    /// Whether the object at a place of the list is touched.
    pub fn touched(&self, place: usize) -> bool
        requires { place < length self.now.list }
        ensures { result ≡ has self.now.touched (slice_index self.now.list place) }
    {
        self.touched[self.list.ids()[place] as usize]
    }

    /// The copy of the object at a place of the list, which was copied.
    pub fn copy(&self, place: usize) -> &Seen<SLOTS>
        requires { place < length self.now.copies }
        ensures { (d : ℕ × Copy) → slice_index_or self.now.copies place d ≡ (slice_index self.now.list place, copy_of_seen result.now) }
    {
        &self.copies[place]
    }

    /// The ids that the copy has in its slots, 0 for null, of the object at a place of the list, which was
    /// copied.
    pub fn targets(&self, place: usize) -> &[u32]
        requires { place < length self.now.copies }
        ensures { (d : ℕ × Copy) → result.now ≡ (slice_index_or self.now.copies place d).1.targets }
    {
        &self.copies[place].slots
    }

    /// How many pointers, strong and weak, the copy of the object at a place of the list counts, which was
    /// copied.
    pub fn pointers(&self, place: usize) -> u64
        requires { place < length self.now.copies }
        ensures { (d : ℕ × Copy) → result ≡ (slice_index_or self.now.copies place d).1.strong + (slice_index_or self.now.copies place d).1.weak }
    {
        let copy = &self.copies[place];
        u64::from(copy.strong) + u64::from(copy.weak)
    }
}
