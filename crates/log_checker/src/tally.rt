//! The tally of the commits of a log.
ghost use Rattle.std.specs.Prelude.{◌≡◌, ◌+◌, ◌-◌, ◌<◌, ◌≤◌, ◌^◌, ◌∷◌, ◌++◌, [], ℕ, List, IfOk, OnOk, OnErr, length};
ghost use Rattle.plain_model.specs.declared.write.Write.{Write as PlainWrite};
ghost use Rattle.cell_model.specs.Cells.{Cell as StoredCell};
ghost use Rattle.cell_model.specs.Graph.{graph_of};
ghost use Rattle.cell_page.specs.Format.{IsSlotCount};
ghost use Rattle.log_record.specs.declared.record.Record.{Record as LogRecord};
ghost use Rattle.log_record.specs.declared.record.Record.TheVariants.{OfCells};
ghost use Rattle.log_record.specs.Spelling.{IsPass, HasSpelling, HasCellSpelling};
ghost use Rattle.log_replay.specs.Replays.{IsWithin};
ghost use Rattle.log_checker.specs.FoldedObjects.{IsInside};
ghost use Rattle.log_checker.specs.Tallies.{Tells, noted, left, IsCommitted, IsStep, IsWithinCells, IsTallying};

use crate::folded_objects::Objects;
use crate::open_writes::OpenWrites;
use log_record::{CellRecord, Record};
use log_replay::Replay;
use plain_model::{Graph, Memory, Place, Write};
use std::alloc::Global;
use std::marker::Model;

/// The objects that the commits of a log left of those of a base, and the writes of the transactions that are open. Nothing else of
/// the log is kept.
#[derive(Drop)]
pub(crate) struct Tally<const SLOTS: usize> {
    objects: Objects<SLOTS>,
    pending: OpenWrites,
    commits: u32,
}

/// Contracts see the objects, each in the cell of its id, the open writes of each client, and the number of commits.
impl<const SLOTS: usize> Model for Tally<SLOTS> {
    ghost use Rattle.log_checker.specs.Tallies.{Tallying, IsTallying};

    ghost Value = { Tallying };

    ghost view = { λ t. record { cells = t.objects; pending = t.pending; commits = t.commits } };

    ghost invariant = { λ t. IsTallying SLOTS (record { cells = t.objects; pending = t.pending; commits = t.commits }) };
}

impl<const SLOTS: usize> Tally<SLOTS> {
    /// A tally over the objects that a replay has, before the first record.
    pub(crate) fn over(alloc: Global, replay: &Replay<SLOTS>) -> Result<Tally<SLOTS>, Memory>
        requires { IsSlotCount SLOTS }
        ensures { IfOk result (Tells {slots = SLOTS} replay.now.cells []) }
    {
        let _last = replay.last_id();
        Ok(Tally {
            objects: Objects::of(alloc, replay)?,
            pending: OpenWrites::new(alloc)?,
            commits: 0,
        })
    }

    /// What holds of each tally.
    fn know(&self)
        ensures { IsTallying SLOTS self.now }
    {
        let _commits = self.commits;
    }

    /// How many commits there were.
    pub(crate) fn commits(&self) -> u32
        ensures { result ≡ self.now.commits }
    {
        self.commits
    }

    /// The graph of the objects that the commits left. Out of memory is its only error.
    pub(crate) fn graph(&self, alloc: Global) -> Result<Graph, Memory>
        ensures { IfOk result (λ g. g ≡ graph_of self.now.cells) }
    {
        self.objects.graph(alloc)
    }

    /// The client wrote once more. Out of memory changes nothing.
    fn note(&mut self, pass: u8, write: Write) -> Result<(), Memory>
        requires client { IsPass pass }
        requires inside { IsInside SLOTS (length self.old.cells) write }
        ensures ok { OnOk result (self.new ≡ noted pass write self.old) }
        ensures err { OnErr result (self.new ≡ self.old) }
    {
        self.pending.note(pass, write)
    }

    /// The client's open transaction ends without a commit, or one begins.
    fn leave(&mut self, pass: u8)
        requires { IsPass pass }
        ensures { self.new ≡ left pass self.old }
    {
        self.pending.clear(pass);
    }

    /// The client's open transaction is committed.
    fn commit(&mut self, pass: u8)
        requires client { IsPass pass }
        requires room { self.old.commits + 1 < 2 ^ 32 }
        ensures { IsCommitted SLOTS pass self.old self.new }
    {
        self.objects.write_all(self.pending.writes(pass));
        self.pending.clear(pass);
        self.commits += 1;
    }

    /// What a record of single cells does to a tally. Out of memory changes nothing.
    #[inline(always)]
    fn step(&mut self, r: &CellRecord) -> Result<(), Memory>
        requires spelled { HasCellSpelling SLOTS r.now }
        requires within { IsWithin (length self.old.cells - 1) r.now }
        requires room { self.old.commits + 1 < 2 ^ 32 }
        ensures ok { OnOk result (IsStep SLOTS r.now self.old self.new) }
        ensures err { OnErr result (self.new ≡ self.old) }
    {
        match *r {
            CellRecord::Begin { pass } | CellRecord::AbortEnd { pass } => {
                self.leave(pass);
                Ok(())
            }
            CellRecord::Commit { pass } => {
                self.commit(pass);
                Ok(())
            }
            CellRecord::Make { pass, id } => self.note(
                pass,
                Write {
                    id,
                    place: Place::Whole,
                    value: 0,
                },
            ),
            CellRecord::Store {
                pass,
                id,
                slot,
                new_target,
                ..
            } => self.note(
                pass,
                Write {
                    id,
                    place: Place::Slot(slot),
                    value: new_target as u64,
                },
            ),
            CellRecord::Pay {
                pass,
                id,
                new_value,
                ..
            } => self.note(
                pass,
                Write {
                    id,
                    place: Place::Payload,
                    value: new_value,
                },
            ),
            _ => Ok(()),
        }
    }

    /// Takes the next record of the log, which is one of single cells, as [`Tally::take`] does.
    pub(crate) fn take_of_cells(&mut self, r: &CellRecord) -> Result<(), Memory>
        requires spelled { HasCellSpelling SLOTS r.now }
        requires within { IsWithin (length self.old.cells - 1) r.now }
        requires room { self.old.commits + 1 < 2 ^ 32 }
        ensures told { (base : List StoredCell) (rs : List (LogRecord SLOTS)) → Tells base rs self.old → OnOk result (Tells base (rs ++ OfCells r.now ∷ []) self.new) }
        ensures sized { length self.new.cells ≡ length self.old.cells }
        ensures counted { self.new.commits ≤ self.old.commits + 1 }
        ensures err { OnErr result (self.new ≡ self.old) }
    {
        self.know();
        self.step(r)
    }

    /// Takes the next record of the log. Out of memory is its only error, and changes nothing.
    pub(crate) fn take(&mut self, rec: &Record<SLOTS>) -> Result<(), Memory>
        requires spelled { HasSpelling rec.now }
        requires within { IsWithinCells (length self.old.cells) rec.now }
        requires room { self.old.commits + 1 < 2 ^ 32 }
        ensures told { (base : List StoredCell) (rs : List (LogRecord SLOTS)) → Tells base rs self.old → OnOk result (Tells base (rs ++ rec.now ∷ []) self.new) }
        ensures sized { length self.new.cells ≡ length self.old.cells }
        ensures counted { self.new.commits ≤ self.old.commits + 1 }
        ensures err { OnErr result (self.new ≡ self.old) }
    {
        match rec {
            Record::OfCells(r) => self.take_of_cells(r),
            Record::Image { .. } | Record::Turn { .. } => Ok(()),
        }
    }
}
