//! What clients are to do.
ghost use Rattle.std.specs.Prelude.{◌≡◌, ◌≢◌, [], ◌∷◌, ◌++◌, OnOk, OnErr};
ghost use Rattle.client_pass.specs.Scripts.{AddsToLast};

use plain_model::{Call, Memory};
use std::alloc::Global;
use std::marker::Model;

/// The calls of a transaction after its `Begin`, with the `Commit` or `Abort` that ends it. Where they leave it open it is
/// aborted.
#[derive(Debug, Drop)]
pub struct Calls {
    items: Vec<Call>,
}

/// Contracts see a list.
impl Model for Calls {
    ghost use Rattle.std.specs.Prelude.{List};
    ghost use Rattle.plain_model.specs.declared.calls.Call.{Call as TransactionCall};

    ghost Value = { List TransactionCall };

    ghost view = { λ c. c.items.items };
}

impl Calls {
    /// No calls. It takes no memory.
    pub fn new(alloc: Global) -> Calls
        ensures { result ≡ [] }
    {
        Calls {
            items: Vec::new(alloc),
        }
    }

    /// The calls in their order.
    pub fn items(&self) -> &[Call]
        ensures { result.now ≡ self.now }
    {
        self.items.as_slice()
    }

    /// Appends a call. Out of memory leaves the calls as they were.
    pub fn push(&mut self, item: Call) -> Result<(), Memory>
        ensures ok { OnOk result (self.new ≡ self.old ++ item ∷ []) }
        ensures err { OnErr result (self.new ≡ self.old) }
    {
        self.items.push(item)?;
        Ok(())
    }
}

/// A client's transactions.
#[derive(Debug, Drop)]
pub struct Txns {
    items: Vec<Calls>,
}

/// Contracts see a list.
impl Model for Txns {
    ghost use Rattle.std.specs.Prelude.{List};
    ghost use Rattle.plain_model.specs.declared.calls.Call.{Call as TransactionCall};

    ghost Value = { List (List TransactionCall) };

    ghost view = { λ t. t.items.items };
}

impl Txns {
    /// No transactions. It takes no memory.
    pub fn new(alloc: Global) -> Txns
        ensures { result ≡ [] }
    {
        Txns {
            items: Vec::new(alloc),
        }
    }

    /// The transactions in their order.
    pub fn items(&self) -> &[Calls]
        ensures { result.now ≡ self.now }
    {
        self.items.as_slice()
    }

    /// Appends a transaction. Out of memory leaves the transactions as they were.
    pub fn push(&mut self, item: Calls) -> Result<(), Memory>
        ensures ok { OnOk result (self.new ≡ self.old ++ item ∷ []) }
        ensures err { OnErr result (self.new ≡ self.old) }
    {
        self.items.push(item)?;
        Ok(())
    }

    /// Appends a call to the last transaction. Out of memory leaves the transactions as they were.
    pub fn push_call(&mut self, call: Call) -> Result<(), Memory>
        requires { self.old ≢ [] }
        ensures ok { OnOk result (AddsToLast self.old call self.new) }
        ensures err { OnErr result (self.new ≡ self.old) }
    {
        let last = self.items.as_slice().len() - 1;
        self.items[last].push(call)
    }
}

/// A client's number, and its transactions.
#[derive(Debug, Drop)]
pub struct ClientScript {
    /// The number, from 1 to 64.
    pub pass: u8,
    /// The transactions, one after another.
    pub txns: Txns,
}
