//! The slots of a round's objects, as they were copied, and a way from each to the next one that names the same object.
ghost use Rattle.std.specs.Prelude.{◌≡◌, ◌≢◌, ℕ, ◌+◌, ◌-◌, ◌*◌, ◌<◌, ◌≤◌, List, [], ◌++◌, ◌∷◌, length, replicate, slice_index_or, vec_len, vec_capacity, Contains, IfOk};
ghost use Rattle.green_walk.specs.Greening.{copied_slots};
ghost use Rattle.green_walk.specs.Linked.{IsNextNaming, AreLinked, AreRowsOf, bare, slots_of, target_at};
ghost use Rattle.cell_page.specs.Format.{IsSlotCount};

use crate::Memory;
use red_walk::Red;
use std::alloc::Global;
use std::marker::Model;

/// What a slot of an object held when the object was copied.
#[derive(Clone, Copy, PartialEq, Eq, Debug)]
pub struct CopiedSlot {
    pub(crate) id: u32,
    pub(crate) slot: u8,
    pub(crate) target: u32,
}

/// The slots of all copied objects, in order.
///
/// Room for all is taken when it is made. To find the slots that name an object costs as much as there are such slots.
#[derive(Debug, Drop)]
pub(crate) struct CopiedSlots<const SLOTS: usize> {
    limit: u32,
    /// The objects.
    ids: Vec<u32>,
    /// What the slots of each object held.
    rows: Vec<[u32; SLOTS]>,
    /// For each id the first slot that names it. What stands there for null, and for an id that no slot names, means nothing.
    first: Vec<u32>,
    /// For each slot that isn't null the next one that names the same object, or the number of slots. There are as many of these
    /// as slots were ever copied at once, and room for all.
    next: Vec<u32>,
}

impl<const SLOTS: usize> Model for CopiedSlots<SLOTS> {
    ghost use Rattle.std.specs.Prelude.{vec_capacity};
    ghost use Rattle.green_walk.specs.Linked.{SlotList, AreLinksInside, slots_of};

    ghost Value = { SlotList };

    ghost view = { λ a. record { slots = slots_of a.ids.items a.rows.items; limit = a.limit } };

    ghost invariant = { λ a. AreLinksInside SLOTS a.ids.items a.rows.items a.limit (vec_capacity a.ids) (vec_capacity a.rows) (vec_capacity a.next) a.first.items a.next.items };
}

/// Appends an object with its slots, for which there is room.
fn push_object<const SLOTS: usize>(
    ids: &mut Vec<u32>,
    rows: &mut Vec<[u32; SLOTS]>,
    id: u32,
    targets: [u32; SLOTS],
)
    requires ids { vec_len ids.old < vec_capacity ids.old }
    requires rows { vec_len rows.old < vec_capacity rows.old }
    ensures ids { ids.new.items ≡ ids.old.items ++ id ∷ [] }
    ensures rows { rows.new.items ≡ rows.old.items ++ targets.entry ∷ [] }
    ensures long { length targets.entry ≡ SLOTS }
    ensures ids_room { vec_capacity ids.old ≤ vec_capacity ids.new }
    ensures rows_room { vec_capacity rows.old ≤ vec_capacity rows.new }
{
    let _ = ids.push(id);
    let _ = rows.push(targets);
}

/// Appends all objects of the round, which were copied, with their slots.
fn push_all<const SLOTS: usize>(ids: &mut Vec<u32>, rows: &mut Vec<[u32; SLOTS]>, red: &Red<SLOTS>)
    requires none { (ids.old.items ≡ []) × (rows.old.items ≡ []) }
    requires copied { length red.now.list ≡ length red.now.copies }
    requires room { (red.now.limit ≤ vec_capacity ids.old) × (red.now.limit ≤ vec_capacity rows.old) }
    ensures slots { slots_of ids.new.items rows.new.items ≡ copied_slots red.now.copies }
    ensures long { AreRowsOf SLOTS rows.new.items }
    ensures lengths { (length ids.new.items ≡ length red.now.list) × (length rows.new.items ≡ length red.now.list) }
    ensures few { length rows.new.items ≤ red.now.limit }
    ensures ids_room { vec_capacity ids.old ≤ vec_capacity ids.new }
    ensures rows_room { vec_capacity rows.old ≤ vec_capacity rows.new }
{
    let list = red.list();
    for place in 0..list.len() {
        push_object(ids, rows, list[place], red.copy(place).slots);
    }
}

/// What the slot at a place of the list held.
#[inline(always)]
fn target_in<const SLOTS: usize>(rows: &[[u32; SLOTS]], place: usize) -> u32
    requires size { IsSlotCount SLOTS }
    requires long { AreRowsOf SLOTS rows.now }
    requires within { place < SLOTS * length rows.now }
    ensures { result ≡ target_at (bare rows.now) place }
{
    rows[place / SLOTS][place % SLOTS]
}

/// The slot at a place of the list.
#[inline(always)]
fn slot_in<const SLOTS: usize>(ids: &[u32], rows: &[[u32; SLOTS]], place: usize) -> CopiedSlot
    requires size { IsSlotCount SLOTS }
    requires long { AreRowsOf SLOTS rows.now }
    requires each { length rows.now ≡ length ids.now }
    requires within { place < SLOTS * length rows.now }
    ensures { (d : CopiedSlot) → result ≡ slice_index_or (slots_of ids.now rows.now) place d }
{
    let slot = place % SLOTS;
    CopiedSlot {
        id: ids[place / SLOTS],
        slot: slot as u8,
        target: rows[place / SLOTS][slot],
    }
}

/// The first slot from this one on that names the object, which isn't null, or the number of slots, where the slots from there on
/// are linked.
#[inline(always)]
fn first_from<const SLOTS: usize>(rows: &[[u32; SLOTS]], first: &[u32], from: usize, id: u32) -> u32
    requires size { IsSlotCount SLOTS }
    requires long { AreRowsOf SLOTS rows.now }
    requires some { id ≢ 0 }
    requires linked { (next : List ℕ) × (limit : ℕ) × (length first.now ≡ limit + 1) × (id ≤ limit) × AreLinked (bare rows.now) from limit first.now next }
    requires within { from ≤ SLOTS * length rows.now }
    requires few { length rows.now ≤ 65536 }
    ensures { IsNextNaming (bare rows.now) id from result }
{
    let place = first[id as usize];
    let count = SLOTS * rows.len();
    if place as usize >= from && (place as usize) < count && target_in(rows, place as usize) == id {
        place
    } else {
        count as u32
    }
}

/// Links one slot, where those after it are linked. A null one has no link.
#[inline(always)]
fn link<const SLOTS: usize>(
    rows: &[[u32; SLOTS]],
    first: &mut Vec<u32>,
    next: &mut Vec<u32>,
    object: usize,
    slot: usize,
)
    requires size { IsSlotCount SLOTS }
    requires long { AreRowsOf SLOTS rows.now }
    requires object { object < length rows.now }
    requires slot { slot < SLOTS }
    requires few { length rows.now ≤ 65536 }
    requires room { SLOTS * length rows.now ≤ length next.old.items }
    requires linked { (limit : ℕ) × (length first.old.items ≡ limit + 1) × AreLinked (bare rows.now) (SLOTS * object + slot + 1) limit first.old.items next.old.items }
    ensures linked { (limit : ℕ) → length first.old.items ≡ limit + 1 → AreLinked (bare rows.now) (SLOTS * object + slot + 1) limit first.old.items next.old.items → AreLinked (bare rows.now) (SLOTS * object + slot) limit first.new.items next.new.items }
    ensures firsts { length first.new.items ≡ length first.old.items }
    ensures nexts { length next.new.items ≡ length next.old.items }
    ensures room { vec_capacity next.old ≤ vec_capacity next.new }
{
    let target = rows[object][slot];
    if target != 0 && (target as usize) < first.len() {
        let at = SLOTS * object + slot;
        next[at] = first_from(rows, first, at + 1, target);
        first[target as usize] = at as u32;
    }
}

/// Links the slots of one object, from the last one on, where those of the objects after it are linked.
#[inline(always)]
fn link_object<const SLOTS: usize>(
    rows: &[[u32; SLOTS]],
    first: &mut Vec<u32>,
    next: &mut Vec<u32>,
    object: usize,
)
    requires size { IsSlotCount SLOTS }
    requires long { AreRowsOf SLOTS rows.now }
    requires object { object < length rows.now }
    requires few { length rows.now ≤ 65536 }
    requires room { SLOTS * length rows.now ≤ length next.old.items }
    requires linked { (limit : ℕ) × (length first.old.items ≡ limit + 1) × AreLinked (bare rows.now) (SLOTS * (object + 1)) limit first.old.items next.old.items }
    ensures linked { (limit : ℕ) → length first.old.items ≡ limit + 1 → AreLinked (bare rows.now) (SLOTS * (object + 1)) limit first.old.items next.old.items → AreLinked (bare rows.now) (SLOTS * object) limit first.new.items next.new.items }
    ensures firsts { length first.new.items ≡ length first.old.items }
    ensures nexts { length next.new.items ≡ length next.old.items }
    ensures room { vec_capacity next.old ≤ vec_capacity next.new }
{
    for done in 0..SLOTS {
        link(rows, first, next, object, SLOTS - 1 - done);
    }
}

/// Lengthens the links to so many, for which there is room. What stands in a new one means nothing yet.
fn lengthen(next: &mut Vec<u32>, count: usize)
    requires { count ≤ vec_capacity next.old }
    ensures links { next.new.items ≡ next.old.items ++ replicate (count - length next.old.items) 0 }
    ensures capacity { vec_capacity next.old ≤ vec_capacity next.new }
{
    if next.len() < count {
        let _ = next.resize(count, 0);
    }
}

/// Links all slots, from those of the last object on.
fn link_all<const SLOTS: usize>(rows: &[[u32; SLOTS]], first: &mut Vec<u32>, next: &mut Vec<u32>)
    requires size { IsSlotCount SLOTS }
    requires long { AreRowsOf SLOTS rows.now }
    requires few { length rows.now ≤ 65536 }
    requires room { SLOTS * length rows.now ≤ length next.old.items }
    requires some { (limit : ℕ) × (length first.old.items ≡ limit + 1) }
    ensures linked { (limit : ℕ) → length first.old.items ≡ limit + 1 → AreLinked (bare rows.now) 0 limit first.new.items next.new.items }
    ensures firsts { length first.new.items ≡ length first.old.items }
    ensures nexts { length next.new.items ≡ length next.old.items }
    ensures room { vec_capacity next.old ≤ vec_capacity next.new }
{
    for done in 0..rows.len() {
        link_object(rows, first, next, rows.len() - 1 - done);
    }
}

impl<const SLOTS: usize> CopiedSlots<SLOTS> {
    /// No slot, with room for the objects of the ids from 1 to `ids`. Out of memory is its only error.
    pub(crate) fn new(alloc: Global, ids: u32) -> Result<CopiedSlots<SLOTS>, Memory>
        requires size { IsSlotCount SLOTS }
        requires few { ids < 65536 }
        ensures { IfOk result (λ copied. copied ≡ record { slots = []; limit = ids }) }
    {
        let objects = Vec::with_capacity(alloc, ids as usize)?;
        let rows = Vec::with_capacity(alloc, ids as usize)?;
        let first = vec![in alloc; 0; ids as usize + 1]?;
        let next = Vec::with_capacity(alloc, SLOTS * ids as usize)?;
        Ok(CopiedSlots {
            limit: ids,
            ids: objects,
            rows,
            first,
            next,
        })
    }

    /// Takes the slots of the round's objects, which were all copied.
    pub(crate) fn start(&mut self, red: &Red<SLOTS>)
        requires limit { self.old.limit ≡ red.now.limit }
        requires copied { length red.now.list ≡ length red.now.copies }
        ensures slots { self.new ≡ record self.old { slots = copied_slots red.now.copies } }
        ensures few { length self.new.slots ≤ red.now.limit * SLOTS }
        ensures within { (s : CopiedSlot) → Contains self.new.slots s → s.slot < SLOTS }
    {
        self.ids.clear();
        self.rows.clear();
        push_all(&mut self.ids, &mut self.rows, red);
        lengthen(&mut self.next, SLOTS * self.rows.len());
        link_all(&self.rows, &mut self.first, &mut self.next);
    }

    /// How many slots there are.
    pub(crate) fn len(&self) -> usize
        ensures { result ≡ length self.now.slots }
    {
        SLOTS * self.rows.len()
    }

    /// The slot at a place of the list.
    pub(crate) fn at(&self, place: usize) -> CopiedSlot
        requires { place < length self.now.slots }
        ensures { (d : CopiedSlot) → result ≡ slice_index_or self.now.slots place d }
    {
        slot_in(&self.ids, &self.rows, place)
    }

    /// The place of the first slot that names the object, which isn't null, or the number of slots.
    pub(crate) fn first_naming(&self, id: u32) -> usize
        requires some { id ≢ 0 }
        requires small { id ≤ self.now.limit }
        ensures { IsNextNaming self.now.slots id 0 result }
    {
        first_from(&self.rows, &self.first, 0, id) as usize
    }

    /// The place of the next slot that names the same object as the slot at this place, which isn't null, or the number of slots.
    pub(crate) fn next_naming(&self, place: usize) -> usize
        requires within { place < length self.now.slots }
        requires some { target_at self.now.slots place ≢ 0 }
        requires small { target_at self.now.slots place ≤ self.now.limit }
        ensures { IsNextNaming self.now.slots (target_at self.now.slots place) (place + 1) result }
    {
        self.next[place] as usize
    }
}
