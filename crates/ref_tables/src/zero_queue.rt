//! The queue of objects without strong references.
ghost use Rattle.std.specs.Prelude.{◌≡◌, ◌≤◌, ◌∷◌, [], length, IfOk, MatchOption};
ghost use Rattle.ref_tables.specs.Queue.{has, without, IsQueue};

use crate::Memory;
use crate::ring::{Link, link_last, neighbours, unlink, unlinked};
use indexmap::IndexMap;
use std::alloc::Global;
use std::marker::Model;

/// The objects that no strong reference leads to, by their ids, in the order in which they joined.
/// No id stands in it twice.
///
/// The ids run from 1 to the limit that the queue was made with. Room for all of them is taken at
/// the beginning, so that no later call takes memory. `push`, `pop` and `drop_id` cost the same
/// however long the queue is: each id that is in it knows the one before it and the one after it,
/// and a mark for each id tells whether it is in it.
#[derive(Debug, Drop)]
pub struct ZeroQueue {
    /// The greatest id that may join.
    limit: u32,
    /// How many ids are in the queue.
    count: u32,
    /// The neighbours of each id, be it in the queue or not, so that no key ever joins or leaves. At 0 stand the last and
    /// the first id.
    links: IndexMap<u32, Link>,
    /// By the id, whether it is in the queue.
    present: Vec<bool>,
}

impl Model for ZeroQueue {
    ghost use Rattle.ref_tables.specs.Queue.{Queue, IsQueueInside};
    ghost use Rattle.ref_tables.specs.Ring.{along, next_of};

    ghost Value = { Queue };

    ghost view = { λ a. record { ids = along (next_of a.links) a.count 0; limit = a.limit } };

    ghost invariant = { λ a. IsQueueInside (along (next_of a.links) a.count 0) a.count a.links a.present.items a.limit };
}

impl ZeroQueue {
    ghost use Rattle.ref_tables.specs.Queue.{joined, AreWithin};

    /// The empty queue, with room for the ids from 1 to `ids`. Out of memory is its only error.
    pub fn new(alloc: Global, ids: u32) -> Result<ZeroQueue, Memory>
        ensures { IfOk result (λ queue. queue ≡ record { ids = []; limit = ids }) }
    {
        let links = unlinked(alloc, ids)?;
        let present = vec![in alloc; false; ids as usize + 1]?;
        Ok(ZeroQueue {
            limit: ids,
            count: 0,
            links,
            present,
        })
    }

    /// Lets the id join at the end. An id that is present stays at its place.
    pub fn push(&mut self, id: u32)
        requires { (1 ≤ id) × (id ≤ self.old.limit) }
        ensures { self.new ≡ record self.old { ids = joined self.old.ids id } }
    {
        if self.present[id as usize] {
            return;
        }
        link_last(&mut self.links, id);
        self.present[id as usize] = true;
        self.count += 1;
    }

    /// Takes the first id out, and gives `None` exactly where the queue is empty.
    pub fn pop(&mut self) -> Option<u32>
        ensures first { MatchOption result ((self.old.ids ≡ []) × (self.new.ids ≡ [])) (λ id. self.old.ids ≡ id ∷ self.new.ids) }
        ensures limit { self.new.limit ≡ self.old.limit }
    {
        let id = neighbours(&self.links, 0).next;
        if id == 0 {
            return None;
        }
        self.drop_id(id);
        Some(id)
    }

    /// Whether the id is present.
    fn holds(&self, id: u32) -> bool
        ensures { result ≡ has self.now.ids id }
    {
        match self.present.get(id as usize) {
            Some(present) => *present,
            None => false,
        }
    }

    /// Takes the id out where it is present. The others keep their order.
    pub fn drop_id(&mut self, id: u32)
        ensures { self.new ≡ record self.old { ids = without self.old.ids id } }
    {
        if !self.holds(id) {
            return;
        }
        unlink(&mut self.links, id);
        self.present[id as usize] = false;
        self.count -= 1;
    }

    /// How many ids the queue has. No id is in it twice, each is within the limits, and so there are no more of them than
    /// the limit.
    pub fn len(&self) -> u32
        ensures length { result ≡ length self.now.ids }
        ensures once { IsQueue self.now.ids }
        ensures within { AreWithin self.now.ids self.now.limit }
        ensures few { result ≤ self.now.limit }
    {
        self.count
    }
}
