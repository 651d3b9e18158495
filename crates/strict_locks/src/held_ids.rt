//! The objects that one client holds.
ghost use Rattle.std.specs.List.{list_any, IsDistinct};
ghost use Rattle.std.specs.Ordering.{nat_cmp, eq_by_cmp};
ghost use Rattle.std.specs.BTreeMap.{is_at};
ghost use Rattle.std.specs.Prelude.{◌≡◌, ℕ, [], ◌∷◌, ◌++◌, ◌&&◌, ◌==◌, not, false, OnOk, OnErr};

use crate::rows::{open, place_of};
use std::alloc::{AllocError, Global};
use std::marker::Model;

/// The objects that a client holds: a list of them, and for each id its place there. So one is taken out at the same cost however many
/// there are.
///
/// Its memory is in proportion to the greatest id that the client ever held.
#[derive(Debug, Drop)]
pub(crate) struct HeldIds {
    ids: Vec<u32>,
    /// For each id its place. What stands there for an id that isn't in the list means nothing.
    places: Vec<u32>,
}

impl Model for HeldIds {
    ghost use Rattle.std.specs.Prelude.{List, ℕ};
    ghost use Rattle.strict_locks.specs.Rows.{AreNoted};

    ghost Value = { List ℕ };

    ghost view = { λ a. a.ids.items };

    ghost invariant = { λ a. AreNoted a.ids.items a.places.items };
}

impl HeldIds {
    /// No object is held. It takes no memory.
    pub(crate) fn new(alloc: Global) -> HeldIds
        ensures { result ≡ [] }
    {
        HeldIds {
            ids: Vec::new(alloc),
            places: Vec::new(alloc),
        }
    }

    /// The objects, each once.
    pub(crate) fn items(&self) -> &[u32]
        ensures value { result.now ≡ self.now }
        ensures once { IsDistinct (eq_by_cmp nat_cmp) self.now }
    {
        self.ids.as_slice()
    }

    /// Adds an object that isn't there. Out of memory leaves those that are.
    pub(crate) fn insert(&mut self, id: u32) -> Result<(), AllocError>
        requires { list_any (is_at (nat_cmp id)) self.old ≡ false }
        ensures ok { OnOk result (self.new ≡ self.old ++ id ∷ []) }
        ensures err { OnErr result (self.new ≡ self.old) }
    {
        open(&mut self.places, id)?;
        let place = self.ids.len() as u32;
        self.ids.push(id)?;
        self.places[id as usize] = place;
        Ok(())
    }

    /// Takes the object out, where it is there. The last one moves into its place.
    pub(crate) fn remove(&mut self, id: u32)
        ensures { (x : ℕ) → list_any (is_at (nat_cmp x)) self.new ≡ (not (x == id) && list_any (is_at (nat_cmp x)) self.old) }
    {
        let Some(place) = place_of(&self.ids, &self.places, id) else {
            return;
        };
        self.ids.swap_remove(place);
        if place < self.ids.len() {
            let moved = self.ids[place];
            self.places[moved as usize] = place as u32;
        }
    }

    /// Takes all objects out, and keeps the room.
    pub(crate) fn clear(&mut self)
        ensures { self.new ≡ [] }
    {
        self.ids.clear();
    }
}
