//! Lists of ids.
ghost use Rattle.std.specs.Prelude.{◌≡◌, IfOk};
ghost use Rattle.std.specs.List.Sorted.{IsStrictlyIncreasing};
ghost use Rattle.plain_model.specs.Machine.{least_free};

use crate::memory::Memory;
use std::alloc::Global;
use std::collections::BTreeSet;
use std::marker::Model;

/// A list of ids.
#[derive(Debug, Drop)]
pub struct Ids {
    items: Vec<u32>,
}

impl Model for Ids {
    ghost use Rattle.std.specs.Prelude.{List, ℕ};

    ghost Value = { List ℕ };

    ghost view = { λ a. a.items.items };
}

impl Ids {
    /// The ids of the set.
    pub(crate) fn from_set(alloc: Global, set: &BTreeSet<u32>) -> Result<Ids, Memory>
        ensures keys { IfOk result (λ ids. ids ≡ set.now.keys) }
        ensures ascending { IfOk result (λ ids. IsStrictlyIncreasing ids) }
    {
        let items = set.iter().copied().collect(alloc)?;
        Ok(Ids { items })
    }

    /// The ids, in their order.
    pub fn items(&self) -> &[u32]
        ensures { result.now ≡ self.now }
    {
        self.items.as_slice()
    }
}

impl From<Vec<u32>> for Ids {
    ghost use Rattle.std.specs.Prelude.{◌≡◌};

    ghost from_gives = { λ v ids. ids ≡ v.items };

    fn from(items: Vec<u32>) -> Ids {
        Ids { items }
    }
}

/// The least of the ids from 1 to `ids` that isn't stored.
pub(crate) fn free_id(stored: &BTreeSet<u32>, ids: u32) -> Option<u32>
    ensures { result ≡ least_free stored.now.keys 1 ids }
{
    for i in 0..ids {
        let id = i + 1;
        if !stored.contains(&id) {
            return Some(id);
        }
    }
    None
}
