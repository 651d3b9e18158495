//! The locks in rows, each beside the id of its object.
ghost use Rattle.std.specs.Prelude.{◌≡◌, ◌≢◌, ℕ, ◌<◌, ◌≤◌, ◌^◌, [], ◌∷◌, ◌++◌, vec_len, vec_capacity, length, nat_eq, slice_index, None, IfSome, IfNone, OnOk, OnErr};
ghost use Rattle.std.specs.Map.{lookup};
ghost use Rattle.std.specs.Option.{option_copied, option_copied_mut};
ghost use Rattle.strict_locks.specs.Rows.{ArePlaced, Grows, Puts};

use crate::object_lock::ObjectLock;
use std::alloc::{AllocError, Global};
use std::marker::Model;

/// For how many locks room is asked for at the opening, which is as many as a store has ids at most. Memory that holds no lock
/// yet costs nothing, and no lock is ever copied.
const FIRST_ROOM: usize = 8_192;

/// The locks of the objects that are held.
///
/// A look-up reads the object's place and compares the id that stands there, so it costs the same however
/// many objects are held. The first lock of an id makes places for it and for all ids below it. So memory is
/// in proportion to the greatest id that was ever locked; a store has 8,192 ids at most.
#[derive(Debug, Drop)]
pub(crate) struct LockRows {
    ids: Vec<u32>,
    locks: Vec<ObjectLock>,
    /// For each id its place. What stands there for an id that has no lock means nothing.
    places: Vec<u32>,
}

impl Model for LockRows {
    ghost use Rattle.std.specs.List.{zip};
    ghost use Rattle.strict_locks.specs.Locks.{Table};
    ghost use Rattle.strict_locks.specs.Rows.{AreRows};

    ghost Value = { Table };

    ghost view = { λ a. zip a.ids.items a.locks.items };

    ghost invariant = { λ a. AreRows a.ids.items a.locks.items a.places.items };
}

/// Appends the id, for which there is room.
fn push_into_room(ids: &mut Vec<u32>, id: u32)
    requires { vec_len ids.old < vec_capacity ids.old }
    ensures { ids.new.items ≡ ids.old.items ++ id ∷ [] }
{
    let _ = ids.push(id);
}

/// Makes a place for the id, and for each one below it that has none.
fn make(places: &mut Vec<u32>, id: u32) -> Result<(), AllocError>
    requires { length places.old.items ≤ 2 ^ 32 }
    ensures grows { Grows places.old.items places.new.items }
    ensures made { OnOk result (id < length places.new.items) }
{
    for _ in places.len()..id as usize + 1 {
        places.push(0)?;
    }
    Ok(())
}

/// Sees that the id has a place.
#[inline(always)]
pub(crate) fn open(places: &mut Vec<u32>, id: u32) -> Result<(), AllocError>
    requires { length places.old.items ≤ 2 ^ 32 }
    ensures grows { Grows places.old.items places.new.items }
    ensures opened { OnOk result (id < length places.new.items) }
{
    if (id as usize) < places.len() {
        return Ok(());
    }
    make(places, id)
}

/// The place at which the id stands.
#[inline(always)]
pub(crate) fn place_of(ids: &Vec<u32>, places: &Vec<u32>, id: u32) -> Option<usize>
    requires { ArePlaced ids.now.items places.now.items }
    ensures found { IfSome result (λ place. (place < length ids.now.items) × (slice_index ids.now.items place ≡ id)) }
    ensures missing { IfNone result ((place : ℕ) → place < length ids.now.items → slice_index ids.now.items place ≢ id) }
{
    let place = *places.get(id as usize)? as usize;
    if place < ids.len() && ids[place] == id {
        Some(place)
    } else {
        None
    }
}

impl LockRows {
    ghost use Rattle.strict_locks.specs.RowLends.{LendsLock};
    ghost use Rattle.std.specs.Borrow.{sem};

    /// No object is held. Where there is no memory for the first locks yet, each takes its own.
    pub(crate) fn new(alloc: Global) -> LockRows
        ensures { result ≡ [] }
    {
        let mut locks = Vec::new(alloc);
        let _ = locks.reserve(FIRST_ROOM);
        LockRows {
            ids: Vec::new(alloc),
            locks,
            places: Vec::new(alloc),
        }
    }

    /// The lock of the object.
    #[inline(always)]
    pub(crate) fn get(&self, id: u32) -> Option<&ObjectLock>
        ensures value { option_copied result ≡ lookup (nat_eq id) self.now }
    {
        match place_of(&self.ids, &self.places, id) {
            Some(place) => Some(&self.locks[place]),
            None => None,
        }
    }

    /// The lock of the object, to change it.
    #[inline(always)]
    pub(crate) fn get_mut(&mut self, id: u32) -> Option<&mut ObjectLock>
        ensures* writes_back { sem 𝓛 (LendsLock self.entry id result) }
        ensures value { option_copied_mut result ≡ lookup (nat_eq id) self.old }
    {
        match place_of(&self.ids, &self.places, id) {
            Some(place) => Some(&mut self.locks[place]),
            None => None,
        }
    }

    /// Adds the lock of an object that has none. Out of memory leaves the locks as they were.
    pub(crate) fn push(&mut self, id: u32, lock: ObjectLock) -> Result<(), AllocError>
        requires { lookup (nat_eq id) self.old ≡ None }
        ensures puts { OnOk result (Puts self.old self.new id lock) }
        ensures err { OnErr result (self.new ≡ self.old) }
    {
        open(&mut self.places, id)?;
        self.ids.reserve(1)?;
        self.locks.push(lock)?;
        self.places[id as usize] = self.ids.len() as u32;
        push_into_room(&mut self.ids, id);
        Ok(())
    }

    /// Takes the lock of the object away. The last one moves into its place.
    pub(crate) fn remove(&mut self, id: u32)
        ensures gone { lookup (nat_eq id) self.new ≡ None }
        ensures others { (x : ℕ) → x ≢ id → lookup (nat_eq x) self.new ≡ lookup (nat_eq x) self.old }
    {
        let Some(place) = place_of(&self.ids, &self.places, id) else {
            return;
        };
        self.ids.swap_remove(place);
        self.locks.swap_remove(place);
        if place < self.ids.len() {
            let moved = self.ids[place];
            self.places[moved as usize] = place as u32;
        }
    }
}
