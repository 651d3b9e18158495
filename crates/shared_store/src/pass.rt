//! What one thread has of the store.
ghost use Rattle.std.specs.Prelude.{◌≡◌};
ghost use Rattle.shared_store.specs.Passes.{AreMarked};

use crate::chronicle::JournalChronicle;
use crate::refused::Refused;
use core_store::Frame;
use disk_model::Disk;
use latch_table::Hold;
use std::marker::Model;

/// A client's part of the store, or a collector's: its number, and what it knows. Between calls it has no word.
#[derive(Drop)]
pub struct Pass<const SLOTS: usize, D: Disk> {
    pub(crate) hold: Hold<JournalChronicle<SLOTS, D>, Frame<SLOTS>>,
    pub(crate) main: bool,
    pub(crate) number: u8,
    pub(crate) has_txn: bool,
    pub(crate) seen: u64,
    pub(crate) refused: Refused,
    /// Of the main pass: whether the client of this number has a transaction, of each whose pass was joined.
    pub(crate) left: [bool; 256],
}

/// Contracts see the store that it is of, what it knows, and how often it was refused.
impl<const SLOTS: usize, D: Disk> Model for Pass<SLOTS, D> {
    ghost use Rattle.shared_store.specs.Passes.{PassView, IsPass};

    ghost Value = { PassView SLOTS };

    ghost view = { λ p. record { table = p.hold.table; view = p.hold.view; refused = p.refused } };

    ghost invariant = { λ p. IsPass p.hold p.main p.number p.has_txn p.seen p.refused p.left };
}

impl<const SLOTS: usize, D: Disk> Pass<SLOTS, D> {
    /// The number of the client. The first pass of a store has 0, which is no client's.
    pub fn number(&self) -> u8
        ensures { result ≡ self.now.view.station.name }
    {
        self.number
    }

    /// Whether the client of this number has a transaction.
    pub fn has_txn(&self) -> bool
        ensures { result ≡ self.now.view.knowledge.truth }
    {
        self.has_txn
    }

    /// A length that the history had.
    pub fn seen(&self) -> u64
        ensures { result ≡ self.now.view.knowledge.seen }
    {
        self.seen
    }

    /// How often this pass, and those that were joined into it, were refused on account of the disk, the history or the log.
    pub fn refused(&self) -> Refused
        ensures refused { result ≡ self.now.refused }

        // Each count above 0 has its mark, which the journal of `close` has too.
        ensures marked { AreMarked self.now.refused self.now.view.knowledge.marks }
    {
        self.refused
    }

    /// How many passes were ever made on this store, the first one included, if this is the main one.
    pub fn made(&self) -> u32
        ensures { result ≡ self.now.view.station.last }
    {
        self.hold.made()
    }
}
