//! Which objects of a round are locked.
ghost use Rattle.std.specs.Prelude.{◌≡◌, ℕ, ◌<◌, false, length, replicate, slice_set, slice_index_or, IfOk};

use crate::Memory;
use std::alloc::Global;
use std::marker::Model;

/// A truth value for each place of a round's list: whether some client has a lock on the object there.
///
/// The caller sets those of all objects before a verdict.
#[derive(Debug, Drop)]
pub struct LockView {
    row: Vec<bool>,
}

impl Model for LockView {
    ghost use Rattle.std.specs.Prelude.{List, Bool};

    ghost Value = { List Bool };

    ghost view = { λ a. a.row.items };
}

impl LockView {
    /// As many values as there are ids, none of them true. Out of memory is its only error.
    pub fn new(alloc: Global, ids: u32) -> Result<LockView, Memory>
        ensures { IfOk result (λ view. view ≡ replicate ids false) }
    {
        let row = vec![in alloc; false; ids as usize]?;
        Ok(LockView { row })
    }

    /// Sets the value of one place.
    pub fn set(&mut self, place: usize, locked: bool)
        requires { place < length self.old }
        ensures { self.new ≡ slice_set self.old place locked }
    {
        self.row[place] = locked;
    }

    /// The value of one place.
    pub(crate) fn get(&self, place: usize) -> bool
        requires { place < length self.now }
        ensures { result ≡ slice_index_or self.now place false }
    {
        self.row[place]
    }
}
