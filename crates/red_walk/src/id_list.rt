//! A list of ids, each at most once.
ghost use Rattle.std.specs.Prelude.{◌≡◌, ℕ, ◌<◌, ◌≤◌, ◌^◌, [], ◌∷◌, ◌++◌, length, slice_index, vec_len, vec_capacity, true, false, IfOk, IfSome, Some};
ghost use Rattle.red_walk.specs.Ids.{IsIdList};
ghost use Rattle.ref_tables.specs.Queue.{has};

use crate::Memory;
use std::alloc::Global;
use std::marker::Model;

/// Ids in the order in which they joined, each at most once.
///
/// The ids run from 1 to the limit that the list was made with. Room for all of them is taken at the
/// beginning, so that no later call takes memory. No call but `clear` goes over the list.
#[derive(Debug, Drop)]
pub struct IdList {
    limit: u32,
    order: Vec<u32>,
    /// For each id its place. What stands there for an id that isn't in the list means nothing.
    places: Vec<u32>,
}

impl Model for IdList {
    ghost use Rattle.std.specs.Prelude.{vec_capacity};
    ghost use Rattle.red_walk.specs.Ids.{Ids, IsIdListInside};

    ghost Value = { Ids };

    ghost view = { λ a. record { ids = a.order.items; limit = a.limit } };

    ghost invariant = { λ a. IsIdListInside a.order.items (vec_capacity a.order) a.places.items a.limit };
}

/// Appends the id, for which there is room.
fn push_into_room(order: &mut Vec<u32>, id: u32)
    requires { vec_len order.old < vec_capacity order.old }
    ensures ids { order.new.items ≡ order.old.items ++ id ∷ [] }
    ensures capacity { vec_capacity order.old ≤ vec_capacity order.new }
{
    let _ = order.push(id);
}

impl IdList {
    /// The empty list, with room for the ids from 1 to `ids`. Out of memory is its only error.
    pub fn new(alloc: Global, ids: u32) -> Result<IdList, Memory>
        ensures empty { IfOk result (λ list. list ≡ record { ids = []; limit = ids }) }
        ensures sound { IfOk result (λ list. IsIdList list.ids list.limit) }
    {
        let order = Vec::with_capacity(alloc, ids as usize)?;
        let places = vec![in alloc; 0; ids as usize + 1]?;
        Ok(IdList {
            limit: ids,
            order,
            places,
        })
    }

    /// Lets all ids go.
    pub fn clear(&mut self)
        ensures empty { self.new ≡ record self.old { ids = [] } }
        ensures sound { IsIdList self.new.ids self.new.limit }
    {
        self.order.clear();
    }

    /// Appends an id that isn't in the list.
    pub fn push(&mut self, id: u32)
        requires within { (1 ≤ id) × (id ≤ self.old.limit) }
        requires new { has self.old.ids id ≡ false }
        ensures joins { self.new ≡ record self.old { ids = self.old.ids ++ id ∷ [] } }
        ensures sound { IsIdList self.new.ids self.new.limit }
    {
        self.places[id as usize] = self.order.len() as u32;
        push_into_room(&mut self.order, id);
    }

    /// The id's place in the list, counted from 0, and `None` where it isn't in the list.
    pub fn place(&self, id: u32) -> Option<usize>
        ensures found { IfSome result (λ place. (place < length self.now.ids) × (slice_index self.now.ids place ≡ id)) }
        ensures only { (place : ℕ) → place < length self.now.ids → slice_index self.now.ids place ≡ id → result ≡ Some place }
        ensures within { IfSome result (λ place. (1 ≤ id) × (id ≤ self.now.limit)) }
    {
        let place = *self.places.get(id as usize)? as usize;
        if place < self.order.len() && self.order[place] == id {
            Some(place)
        } else {
            None
        }
    }

    /// Whether the id is in the list.
    pub fn has(&self, id: u32) -> bool
        ensures has { result ≡ has self.now.ids id }
        ensures within { result ≡ true → (1 ≤ id) × (id ≤ self.now.limit) }
    {
        self.place(id).is_some()
    }

    /// The greatest id that may join.
    pub(crate) fn limit(&self) -> u32
        ensures { result ≡ self.now.limit }
    {
        self.limit
    }

    /// The ids, of which there are at most as many as the limit. None stands there twice.
    pub fn ids(&self) -> &[u32]
        ensures ids { result.now ≡ self.now.ids }
        ensures sound { IsIdList self.now.ids self.now.limit }
    {
        self.order.as_slice()
    }
}
