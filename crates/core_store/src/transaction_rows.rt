//! The transactions of clients in a row: each stands at its client's number.
ghost use Rattle.std.specs.Prelude.{◌≡◌, ◌<◌, ◌≤◌, not, is_some, Some, OnOk, length, option_map, slice_get};
ghost use Rattle.core_store.specs.TransactionRows.{entries_of};

use crate::transaction::Transaction;
use plain_model::Memory;

/// Sees that the client has a row.
pub(crate) fn open(rows: &mut Vec<Option<Transaction>>, pass: u8) -> Result<(), Memory>
    requires { length rows.old.items ≤ 256 }
    ensures same { entries_of rows.new.items ≡ entries_of rows.old.items }
    ensures few { length rows.new.items ≤ 256 }
    ensures opened { OnOk result (pass < length rows.new.items) }
{
    for _ in rows.len()..pass as usize + 1 {
        rows.push(None)?;
    }
    Ok(())
}

/// Lets the row have the transaction, and tells whether it had none.
pub(crate) fn put(row: &mut Option<Transaction>, transaction: Transaction) -> bool
    ensures empty { result ≡ not (is_some row.old) }
    ensures after { row.new ≡ Some transaction }
{
    row.replace(transaction).is_none()
}

/// The client of the first row that has a transaction.
pub(crate) fn first(rows: &Vec<Option<Transaction>>) -> Option<u8>
    requires { length rows.now.items ≤ 256 }
    ensures { result ≡ option_map (λ e. e.0) (slice_get (entries_of rows.now.items) 0) }
{
    for pass in 0..rows.len() {
        if rows[pass].is_some() {
            return Some(pass as u8);
        }
    }
    None
}
