//! The sweep of the condemned objects.
ghost use Rattle.std.specs.Prelude.{◌≡◌, ℕ, [], length, IfOk};
ghost use Rattle.green_walk.specs.Sweeping.{IsSweep, IsAnswer, next, started, found, unemptied, unfreed};

use crate::Memory;
use crate::verdict::Verdict;
use std::alloc::Global;
use std::marker::Model;

/// What the sweep asks for next.
#[derive(Clone, Copy, PartialEq, Eq, Debug)]
pub enum SweepAt {
    /// The next reference in a slot of this object is removed.
    Slots {
        /// The object.
        id: u32,
    },
    /// This object is freed.
    Free {
        /// The object.
        id: u32,
    },
    /// All condemned objects were freed.
    End,
}

/// What the caller of a walk found and did.
#[derive(Clone, Copy, PartialEq, Eq, Debug)]
pub enum Found {
    /// There was nothing to do: no slot of the object holds a reference any more, a seed is passed over, or a slot
    /// isn't to change.
    Nothing,
    /// The event was made.
    Made {
        /// The object that was asked for; at a slot of a green object, the target of the pointer that was made strong.
        id: u32,
    },
    /// A strong pointer leads to the seed, so there is nothing to do for it.
    Strong,
}

/// The order in which the condemned objects are emptied and freed: first the slots of each, then each
/// object itself, both in the order of the round's list.
#[derive(Debug, Drop)]
pub struct Sweep {
    limit: u32,
    list: Vec<u32>,
    emptied: usize,
    freed: usize,
}

impl Model for Sweep {
    ghost use Rattle.std.specs.Prelude.{vec_capacity};
    ghost use Rattle.green_walk.specs.Sweeping.{SweepState, sweeping_of, AreInStep};

    ghost Value = { SweepState };

    ghost view = { λ a. sweeping_of a.list.items a.emptied a.freed a.limit };

    ghost invariant = { λ a. AreInStep a.list.items a.emptied a.freed a.limit (vec_capacity a.list) };
}

impl Sweep {
    /// Nothing to sweep, with room for the ids from 1 to `ids`. Out of memory is its only error.
    pub fn new(alloc: Global, ids: u32) -> Result<Sweep, Memory>
        ensures idle { IfOk result (λ sweep. sweep ≡ started [] ids) }
        ensures sound { IfOk result (λ sweep. IsSweep sweep) }
    {
        let list = Vec::with_capacity(alloc, ids as usize)?;
        Ok(Sweep {
            limit: ids,
            list,
            emptied: 0,
            freed: 0,
        })
    }

    /// Begins with what the verdict condemns.
    pub fn start(&mut self, verdict: &Verdict)
        requires { verdict.now.limit ≡ self.old.limit }
        ensures started { self.new ≡ started verdict.now.condemned self.old.limit }
        ensures sound { IsSweep self.new }
    {
        self.list.clear();
        let _ = self.list.extend_from_slice(verdict.condemned());
        self.emptied = 0;
        self.freed = 0;
    }

    /// What the sweep asks for next.
    pub fn next(&self) -> SweepAt
        ensures next { result ≡ next self.now }
        // What holds of every sweep.
        ensures sound { IsSweep self.now }
    {
        if self.emptied < self.list.len() {
            return SweepAt::Slots {
                id: self.list[self.emptied],
            };
        }
        if self.freed < self.list.len() {
            return SweepAt::Free {
                id: self.list[self.freed],
            };
        }
        SweepAt::End
    }

    /// How many of the condemned objects may still hold a reference.
    pub fn unemptied(&self) -> u32
        ensures { result ≡ length (unemptied self.now) }
    {
        (self.list.len() - self.emptied) as u32
    }

    /// How many of the condemned objects weren't freed.
    pub fn unfreed(&self) -> u32
        ensures { result ≡ length (unfreed self.now) }
    {
        (self.list.len() - self.freed) as u32
    }

    /// Takes the answer to what was asked for: a reference of the object was removed, or none was left; or
    /// the object was freed.
    pub fn found(&mut self, what: Found)
        requires { IsAnswer (next self.old) what }
        ensures found { self.new ≡ found self.old what }
        ensures sound { IsSweep self.new }
    {
        match what {
            Found::Nothing => self.emptied += 1,
            Found::Made { .. } => {
                if self.emptied == self.list.len() {
                    self.freed += 1;
                }
            }
            Found::Strong => {}
        }
    }
}
