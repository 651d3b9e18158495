//! A source in memory.
ghost use Rattle.std.specs.Prelude.{◌≡◌, ◌↔◌, ℕ, length, min, take, drop, ◌++◌, Some, IsErr, IfOk, OnErr};
ghost use Rattle.std.specs.Io.{ReadsAtMost};
ghost use Rattle.std.specs.Io.KnownBytes.{ReadConsumes};
ghost use Rattle.disk_model.specs.Causes.{HasCause};
ghost use Rattle.outside_io.specs.MemorySource.{FailsNext, after_fault, after_bytes};

use crate::source::{ReadFailed, Source};
use std::marker::Model;

/// Bytes in memory, and a list of the reads that are to fail.
#[derive(Debug, Drop)]
pub struct MemorySource {
    bytes: Vec<u8>,
    at: usize,
    calls: u64,
    fails: Vec<u64>,
    faults: u64,
}

impl Model for MemorySource {
    ghost use Rattle.std.specs.Prelude.{◌≤◌, length, drop};
    ghost use Rattle.outside_io.specs.MemorySource.{SourceState};

    ghost Value = { SourceState };

    ghost view = { λ s. record {
      left = drop s.at s.bytes.items;
      calls = s.calls;
      fails = s.fails.items;
      faults = s.faults;
    } };

    ghost invariant = { λ s. s.at ≤ length s.bytes.items };
}

impl MemorySource {
    /// Gives these bytes, and fails the reads of these numbers. Reads are counted from 1 on, up to
    /// 2^64 - 1, where the count stands still.
    pub fn new(bytes: Vec<u8>, fails: Vec<u64>) -> MemorySource
        ensures { result ≡ record { left = bytes.items; calls = 0; fails = fails.items; faults = 0 } }
    {
        MemorySource {
            bytes,
            at: 0,
            calls: 0,
            fails,
            faults: 0,
        }
    }

    /// How many reads failed, up to 2^64 - 1.
    pub fn faults(&self) -> u64
        ensures { result ≡ self.now.faults }
    {
        self.faults
    }
}

impl Source for MemorySource {
    ghost left = { λ s. Some s.left };

    ghost faults = { λ s. s.faults };

    /// Gives as many bytes as fit and are left, or fails where the number of this read is on the
    /// list.
    fn read(&mut self, into: &mut [u8]) -> Result<usize, ReadFailed>
        ensures bound { ReadsAtMost result into.new }
        ensures bytes { ReadConsumes (Some self.old.left) (Some self.new.left) result into.new }
        ensures cause { HasCause self.old.faults self.new.faults result }

        // Which reads fail, and that nothing but the counts changes then.
        ensures listed { IsErr result ↔ FailsNext self.old }
        ensures after_err { OnErr result ((self.new ≡ after_fault self.old) × (into.new ≡ into.old)) }

        // What each other read gives. The rest of the buffer stays.
        ensures count { IfOk result (λ n. n ≡ min (length into.old) (length self.old.left)) }
        ensures buffer { IfOk result (λ n. into.new ≡ take n self.old.left ++ drop n into.old) }
        ensures after_ok { IfOk result (λ n. self.new ≡ after_bytes self.old n) }
    {
        self.calls = self.calls.saturating_add(1);
        if self.fails.contains(&self.calls) {
            self.faults = self.faults.saturating_add(1);
            return Err(ReadFailed);
        }
        let count = copy_front(&self.bytes[self.at..], into);
        self.at += count;
        Ok(count)
    }
}

/// Copies as many bytes as both have, and tells how many.
fn copy_front(bytes: &[u8], into: &mut [u8]) -> usize
    ensures count { result ≡ min (length into.old) (length bytes.now) }
    ensures buffer { into.new ≡ take result bytes.now ++ drop result into.old }
    ensures split { bytes.now ≡ take result into.new ++ drop result bytes.now }
{
    let count = into.len().min(bytes.len());
    into[..count].copy_from_slice(&bytes[..count]);
    count
}
