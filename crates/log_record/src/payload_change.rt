//! The changes of payloads, which are most records of many a log, read by themselves.

ghost use Rattle.std.specs.Prelude.{◌≡◌, ◌≤◌, ℕ, length, IfSome, IfNone};
ghost use Rattle.log_record.specs.declared.record.Record.TheVariants.{OfCells};
ghost use Rattle.log_record.specs.Spelling.{BeginsWith};
ghost use Rattle.log_record.specs.declared.payload_change.PayloadChange.{PayloadChange};
ghost use Rattle.log_record.specs.Changes.{change_record};

use crate::bytes::{u32_at, u64_at};
use crate::cell_record::CellRecord;
use crate::rules::is_pass;

/// The number of the kind [`CellRecord::Pay`].
const PAY: u8 = 4;

/// How many bytes such a record takes.
const PAY_LEN: usize = 22;

/// A record of a changed payload: the fields of [`CellRecord::Pay`].
#[derive(Clone, Copy, PartialEq, Eq, Debug)]
pub struct PayloadChange {
    /// The client's number, from 1 to 64.
    pub pass: u8,
    /// The object, from 1 on.
    pub id: u32,
    /// The payload before.
    pub old_value: u64,
    /// The payload now.
    pub new_value: u64,
}

impl PayloadChange {
    /// The change as one of the records of single cells.
    #[inline(always)]
    pub fn record(&self) -> CellRecord
        ensures { result ≡ change_record self.now }
    {
        CellRecord::Pay {
            pass: self.pass,
            id: self.id,
            old_value: self.old_value,
            new_value: self.new_value,
        }
    }

    /// The change of a payload whose spelling the bytes begin with, and how many bytes that has. Since it is of one kind it is
    /// handed out in a few registers, in a part of the time of [`CellRecord::read`].
    #[inline(always)]
    pub fn read(bytes: &[u8]) -> Option<(PayloadChange, usize)>
        // What is read stands there.
        ensures some { IfSome result (λ found. (slots : ℕ) → BeginsWith {slots = slots} bytes.now (OfCells (change_record found.0)) found.1) }

        // Where nothing is read no change of a payload does.
        ensures none { IfNone result ((slots : ℕ) (change : PayloadChange) (len : ℕ) → BeginsWith {slots = slots} bytes.now (OfCells (change_record change)) len → ⊥) }
    {
        if bytes.len() < PAY_LEN {
            return None;
        }
        if bytes[0] != PAY {
            return None;
        }
        let change = PayloadChange {
            pass: bytes[1],
            id: u32_at(bytes, 2),
            old_value: u64_at(bytes, 6),
            new_value: u64_at(bytes, 14),
        };
        if !is_pass(change.pass) {
            return None;
        }
        if change.id == 0 {
            return None;
        }
        Some((change, PAY_LEN))
    }
}
