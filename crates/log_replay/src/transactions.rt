//! The transactions that haven't ended in a row: each stands at its client's number.

ghost use Rattle.std.specs.Prelude.{◌≡◌, ◌<◌, ◌≤◌, [], Some, IfSome, IfNone, OnOk, OnErr, length, slice_get};
ghost use Rattle.std.specs.Option.{option_copied, option_copied_mut};
ghost use Rattle.std.specs.Ordering.{nat_cmp};
ghost use Rattle.std.specs.BTreeMap.{insert_entry, is_at};
ghost use Rattle.std.specs.Map.{remove_entry};
ghost use Rattle.restart_laws.specs.Unended.{unended_at};
ghost use Rattle.log_replay.specs.Rows.{entries_of};

use crate::Memory;
use crate::transaction::Transaction;
use std::alloc::Global;
use std::marker::Model;

/// The clients whose transactions haven't ended, each with its transaction.
#[derive(Debug, Drop)]
pub(crate) struct Transactions {
    /// The transaction of each client, at its number. The clients after the last row have none.
    rows: Vec<Option<Transaction>>,
}

/// Contracts see the entries, ascending by clients.
impl Model for Transactions {
    ghost use Rattle.log_replay.specs.Rows.{UnendedClients, AreRowsInside, entries_of};

    ghost Value = { UnendedClients };

    ghost view = { λ a. record { entries = entries_of a.rows.items } };

    ghost invariant = { λ a. AreRowsInside a.rows.items };
}

impl Transactions {
    ghost use Rattle.log_replay.specs.Lends.{LendsTransaction};
    ghost use Rattle.std.specs.Borrow.{sem};

    /// No client has one. It takes no memory.
    pub(crate) fn new(alloc: Global) -> Transactions
        ensures empty { result.entries ≡ [] }
    {
        Transactions {
            rows: Vec::new(alloc),
        }
    }

    /// The client's transaction.
    pub(crate) fn get(&self, pass: u8) -> Option<&Transaction>
        ensures value { option_copied result ≡ unended_at self.now.entries pass }
    {
        match self.rows.get(pass as usize) {
            Some(row) => row.as_ref(),
            None => None,
        }
    }

    /// The client's transaction, to change it.
    #[inline(always)]
    pub(crate) fn get_mut(&mut self, pass: u8) -> Option<&mut Transaction>
        ensures* writes_back { sem 𝓛 (LendsTransaction self.entry pass result) }
        ensures value { option_copied_mut result ≡ unended_at self.old.entries pass }
    {
        match self.rows.get_mut(pass as usize) {
            Some(Some(transaction)) => Some(transaction),
            Some(None) => None,
            None => None,
        }
    }

    /// The client has this transaction now, in place of any that it had. Out of memory is its only error, and changes
    /// nothing.
    pub(crate) fn insert(&mut self, pass: u8, transaction: Transaction) -> Result<(), Memory>
        ensures entries { OnOk result (self.new.entries ≡ insert_entry nat_cmp self.old.entries pass transaction) }
        ensures err { OnErr result (self.new.entries ≡ self.old.entries) }
    {
        open(&mut self.rows, pass)?;
        self.rows[pass as usize] = Some(transaction);
        Ok(())
    }

    /// The client has no transaction any more.
    pub(crate) fn remove(&mut self, pass: u8)
        ensures entries { self.new.entries ≡ remove_entry (is_at (nat_cmp pass)) self.old.entries }
    {
        if let Some(row) = self.rows.get_mut(pass as usize) {
            *row = None;
        }
    }

    /// The first client that has a transaction, and its transaction.
    pub(crate) fn first(&self) -> Option<(u8, &Transaction)>
        ensures some { IfSome result (λ e. slice_get self.now.entries 0 ≡ Some (e.0, e.1.now)) }
        ensures none { IfNone result (self.now.entries ≡ []) }
    {
        first(&self.rows)
    }
}

/// Sees that the client has a row.
fn open(rows: &mut Vec<Option<Transaction>>, pass: u8) -> Result<(), Memory>
    requires { length rows.old.items ≤ 256 }
    ensures same { entries_of rows.new.items ≡ entries_of rows.old.items }
    ensures few { length rows.new.items ≤ 256 }
    ensures opened { OnOk result (pass < length rows.new.items) }
{
    for _ in rows.len()..pass as usize + 1 {
        rows.push(None)?;
    }
    Ok(())
}

/// The client of the first row that has a transaction, and that transaction.
fn first(rows: &Vec<Option<Transaction>>) -> Option<(u8, &Transaction)>
    requires { length rows.now.items ≤ 256 }
    ensures some { IfSome result (λ e. slice_get (entries_of rows.now.items) 0 ≡ Some (e.0, e.1.now)) }
    ensures none { IfNone result (entries_of rows.now.items ≡ []) }
{
    for pass in 0..rows.len() {
        if let Some(transaction) = rows[pass].as_ref() {
            return Some((pass as u8, transaction));
        }
    }
    None
}
