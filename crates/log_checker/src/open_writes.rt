//! The writes of each client's open transaction.
ghost use Rattle.std.specs.Prelude.{◌≡◌, ◌<◌, ◌++◌, ◌∷◌, [], IfOk, OnOk, OnErr, length, replicate, slice_index_or, slice_set};

use plain_model::{Memory, Write};
use std::alloc::Global;
use std::marker::Model;

/// How many rows there are: the clients have the numbers from 1 to 64, and row 0 is that of none.
const ROWS: usize = 65;

/// The writes of one client's open transaction, oldest first.
#[derive(Drop)]
struct Row {
    writes: Vec<Write>,
}

impl Model for Row {
    ghost use Rattle.std.specs.Prelude.{List};
    ghost use Rattle.plain_model.specs.declared.write.Write.{Write};

    ghost Value = { List Write };

    ghost view = { λ r. r.writes.items };
}

impl Row {
    /// No write. It takes no memory.
    fn new(alloc: Global) -> Row
        ensures { result ≡ [] }
    {
        Row {
            writes: Vec::new(alloc),
        }
    }

    /// One write more. Out of memory leaves the row as it was.
    fn push(&mut self, write: Write) -> Result<(), Memory>
        ensures ok { OnOk result (self.new ≡ self.old ++ write ∷ []) }
        ensures err { OnErr result (self.new ≡ self.old) }
    {
        self.writes.push(write)?;
        Ok(())
    }

    /// The writes, in their order.
    fn writes(&self) -> &[Write]
        ensures { result.now ≡ self.now }
    {
        self.writes.as_slice()
    }

    /// No write any more. It keeps its memory.
    fn clear(&mut self)
        ensures { self.new ≡ [] }
    {
        self.writes.clear();
    }
}

/// The writes of each client's open transaction, in a row of its own at the client's number.
#[derive(Drop)]
pub(crate) struct OpenWrites {
    rows: Vec<Row>,
}

impl Model for OpenWrites {
    ghost use Rattle.std.specs.Prelude.{List};
    ghost use Rattle.plain_model.specs.declared.write.Write.{Write};

    ghost Value = { List (List Write) };

    ghost view = { λ o. o.rows.items };
}

impl OpenWrites {
    /// No client wrote.
    pub(crate) fn new(alloc: Global) -> Result<OpenWrites, Memory>
        ensures { IfOk result (λ o. o ≡ replicate 65 []) }
    {
        let mut rows = Vec::new(alloc);
        for client in 0..ROWS {
            rows.push(Row::new(alloc))?;
        }
        Ok(OpenWrites { rows })
    }

    /// The client wrote once more. Out of memory changes nothing.
    pub(crate) fn note(&mut self, pass: u8, write: Write) -> Result<(), Memory>
        requires { pass < length self.old }
        ensures ok { OnOk result (self.new ≡ slice_set self.old pass (slice_index_or self.old pass [] ++ write ∷ [])) }
        ensures err { OnErr result (self.new ≡ self.old) }
    {
        self.rows[pass as usize].push(write)
    }

    /// The client's writes, in their order.
    pub(crate) fn writes(&self, pass: u8) -> &[Write]
        requires { pass < length self.now }
        ensures { result.now ≡ slice_index_or self.now pass [] }
    {
        self.rows[pass as usize].writes()
    }

    /// The client has no writes any more. Their memory is kept.
    pub(crate) fn clear(&mut self, pass: u8)
        requires { pass < length self.old }
        ensures { self.new ≡ slice_set self.old pass [] }
    {
        self.rows[pass as usize].clear();
    }
}
