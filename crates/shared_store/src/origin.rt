//! What no call of a journal changes.

use cell_page::Cell;
use core_store::Limits;
use std::collections::LinkedList;
use std::marker::Model;

/// What no call of a journal changes: its limits, the cells and the ids of its opening, and the disk's count of faults then. This
/// type is for contracts alone, and no value of it is made.
pub struct JournalOrigin<const SLOTS: usize> {
    limits: Limits,
    opening: LinkedList<Cell<SLOTS>>,
    ids: u32,
    faults: u64,
}

impl<const SLOTS: usize> Model for JournalOrigin<SLOTS> {
    ghost use Rattle.core_store.specs.Opening.{store_of};
    ghost use Rattle.shared_store.specs.Chronicles.View.{Origin};

    ghost Value = { Origin };

    ghost view = { λ s. record { limits = s.limits; opening = store_of s.opening; ids = s.ids; faults = s.faults } };
}
