//! A sink in memory.
ghost use Rattle.std.specs.Prelude.{◌≡◌, ◌<◌, ◌⊎◌, ℕ, [], length, Some, IsErr, IfOk, OnOk, OnErr};
ghost use Rattle.std.specs.Io.{WritesAtMost};
ghost use Rattle.std.specs.Io.KnownBytes.{WriteAppends};
ghost use Rattle.disk_model.specs.Causes.{HasCause};
ghost use Rattle.outside_io.specs.MemorySink.{FailsNext, after_fault, after_starving, after_piece};

use crate::sink::{Sink, WriteFailed};
use std::alloc::Global;
use std::marker::Model;

/// Bytes that were written to memory, and a list of the writes that are to fail.
#[derive(Debug, Drop)]
pub struct MemorySink {
    bytes: Vec<u8>,
    calls: u64,
    fails: Vec<u64>,
    faults: u64,
    starved: u64,
}

impl Model for MemorySink {
    ghost use Rattle.outside_io.specs.MemorySink.{SinkState};

    ghost Value = { SinkState };

    ghost view = { λ s. record {
      written = s.bytes.items;
      calls = s.calls;
      fails = s.fails.items;
      faults = s.faults;
      starved = s.starved;
    } };
}

impl MemorySink {
    /// Holds nothing yet, and fails the writes of these numbers. Writes are counted from 1 on, up to
    /// 2^64 - 1, where the count stands still.
    pub fn new(alloc: Global, fails: Vec<u64>) -> MemorySink
        ensures { result
            ≡ record { written = []; calls = 0; fails = fails.items; faults = 0; starved = 0 } }
    {
        MemorySink {
            bytes: Vec::new(alloc),
            calls: 0,
            fails,
            faults: 0,
            starved: 0,
        }
    }

    /// What was written.
    pub fn bytes(&self) -> &[u8]
        ensures { result.now ≡ self.now.written }
    {
        self.bytes.as_slice()
    }

    /// How many writes failed, up to 2^64 - 1.
    pub fn faults(&self) -> u64
        ensures { result ≡ self.now.faults }
    {
        self.faults
    }

    /// How many writes failed because they found no memory, up to 2^64 - 1.
    pub fn starved(&self) -> u64
        ensures { result ≡ self.now.starved }
    {
        self.starved
    }
}

impl Sink for MemorySink {
    ghost written = { λ s. Some s.written };

    ghost faults = { λ s. s.faults };

    /// Takes the whole piece, or fails where the number of this write is on the list or there is no
    /// memory.
    fn write(&mut self, piece: &[u8]) -> Result<usize, WriteFailed>
        ensures bound { WritesAtMost result piece.now }
        ensures progress { IfOk result (λ n. 0 < length piece.now → 0 < n) }
        ensures bytes { WriteAppends (Some self.old.written) (Some self.new.written) result piece.now }
        ensures cause { HasCause self.old.faults self.new.faults result }

        // What a write takes.
        ensures whole { IfOk result (λ n. n ≡ length piece.now) }
        ensures after_ok { OnOk result (self.new ≡ after_piece self.old piece.now) }

        // Which writes fail: those on the list, and beside them only one that found no memory.
        ensures listed { FailsNext self.old → IsErr result × (self.new ≡ after_fault self.old) }
        ensures unlisted { OnErr result (FailsNext self.old
            ⊎ ((0 < length piece.now) × (self.new ≡ after_starving self.old))) }
    {
        self.calls = self.calls.saturating_add(1);
        if self.fails.contains(&self.calls) {
            self.faults = self.faults.saturating_add(1);
            return Err(WriteFailed);
        }
        if self.bytes.extend_from_slice(piece).is_err() {
            self.starved = self.starved.saturating_add(1);
            self.faults = self.faults.saturating_add(1);
            return Err(WriteFailed);
        }
        Ok(piece.len())
    }
}
