//! The client that stands in the way of a lock.
ghost use Rattle.std.specs.Prelude.{◌≡◌, ◌||◌};
ghost use Rattle.plain_model.specs.Machine.{is_among, least_other};

use crate::transaction::Transaction;
use std::collections::BTreeMap;

/// The least other client that owns or shares the object.
pub(crate) fn owning_blocker(active: &BTreeMap<u8, Transaction>, pass: u8, id: u32) -> Option<u8>
    ensures { result ≡ least_other (λ t. is_among id t.owned || is_among id t.shared) pass active.now.entries }
{
    for (other, transaction) in active {
        if *other != pass && transaction.holds(id) {
            return Some(*other);
        }
    }
    None
}

/// The least other client that owns the object.
pub(crate) fn sharing_blocker(active: &BTreeMap<u8, Transaction>, pass: u8, id: u32) -> Option<u8>
    ensures { result ≡ least_other (λ t. is_among id t.owned) pass active.now.entries }
{
    for (other, transaction) in active {
        if *other != pass && transaction.owns(id) {
            return Some(*other);
        }
    }
    None
}
