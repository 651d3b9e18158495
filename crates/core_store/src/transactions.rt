//! The transactions of the active clients.
ghost use Rattle.std.specs.Prelude.{◌≡◌, ◌≢◌, ℕ, ◌<◌, [], length, Ok, IfOk, IfErr, IfSome, IfNone, IsSome, OnOk, OnErr, Some, None, is_some, option_map, slice_get};
ghost use Rattle.std.specs.Option.{option_map_or, option_copied, option_copied_mut};
ghost use Rattle.std.specs.List.{last_or};
ghost use Rattle.std.specs.List.Sorted.{IsStrictlySortedBy};
ghost use Rattle.std.specs.Ordering.{nat_cmp};
ghost use Rattle.std.specs.BTreeMap.{insert_entry, is_at};
ghost use Rattle.std.specs.Map.{remove_entry, keys_of};
ghost use Rattle.core_store.specs.Transactions.{Running, just_begun, loaded, running_at, writing, forgetting, undoing};
ghost use Rattle.core_store.specs.Refusals.{HasSubject, HasSource, IsStoreRefusal, subject_refusal, if_not_running};
ghost use Rattle.core_store.specs.Tables.{changed_at};

use crate::transaction::Transaction;
use crate::transaction_rows;
use plain_model::{Memory, Reply, Write};
use std::alloc::Global;
use std::marker::Model;

/// The active clients, each with its transaction.
#[derive(Debug, Drop)]
pub(crate) struct Transactions {
    /// The transaction of each client, at its number. The clients after the last row have none.
    rows: Vec<Option<Transaction>>,
    /// How many clients have one.
    count: usize,
}

impl Model for Transactions {
    ghost use Rattle.core_store.specs.TransactionRows.{ActiveClients, AreRowsInside, entries_of};

    ghost Value = { ActiveClients };

    ghost view = { λ a. record { entries = entries_of a.rows.items } };

    ghost invariant = { λ a. AreRowsInside a.rows.items a.count };
}

impl Transactions {
    ghost use Rattle.core_store.specs.TransactionLends.{LendsTransaction};
    ghost use Rattle.std.specs.Borrow.{sem};

    /// No client is active. It takes no memory.
    pub(crate) fn new(alloc: Global) -> Transactions
        ensures empty { result.entries ≡ [] }
    {
        Transactions {
            rows: Vec::new(alloc),
            count: 0,
        }
    }

    /// How many clients are active. Their entries ascend.
    pub(crate) fn len(&self) -> usize
        ensures len { result ≡ length self.now.entries }
        ensures ordered { IsStrictlySortedBy nat_cmp (keys_of self.now.entries) }
    {
        self.count
    }

    /// The least active client: that of the first entry, since the clients ascend.
    pub(crate) fn least(&self) -> Option<u8>
        ensures first { result ≡ option_map (λ e. e.0) (slice_get self.now.entries 0) }
        ensures ordered { IsStrictlySortedBy nat_cmp (keys_of self.now.entries) }
    {
        if self.count == 0 {
            return None;
        }
        transaction_rows::first(&self.rows)
    }

    /// The client's transaction.
    pub(crate) fn get(&self, pass: u8) -> Option<&Transaction>
        ensures value { option_copied result ≡ running_at self.now.entries pass }
    {
        match self.rows.get(pass as usize) {
            Some(row) => row.as_ref(),
            None => None,
        }
    }

    /// Whether the client is active.
    pub(crate) fn has(&self, pass: u8) -> bool
        ensures { result ≡ is_some (running_at self.now.entries pass) }
    {
        self.get(pass).is_some()
    }

    /// The client's transaction, to change it.
    pub(crate) fn get_mut(&mut self, pass: u8) -> Option<&mut Transaction>
        ensures* writes_back { sem 𝓛 (LendsTransaction self.entry pass result) }
        ensures value { option_copied_mut result ≡ running_at self.old.entries pass }
    {
        match self.rows.get_mut(pass as usize) {
            Some(Some(transaction)) => Some(transaction),
            Some(None) => None,
            None => None,
        }
    }

    /// The client has this transaction now, in place of any that it had. Out of memory is its only error, and changes
    /// nothing.
    pub(crate) fn insert(&mut self, pass: u8, transaction: Transaction) -> Result<(), Memory>
        ensures entries { OnOk result (self.new.entries ≡ insert_entry nat_cmp self.old.entries pass transaction) }
        ensures here { OnOk result (running_at self.new.entries pass ≡ Some transaction) }
        ensures others { OnOk result ((q : ℕ) → q ≢ pass → running_at self.new.entries q ≡ running_at self.old.entries q) }
        ensures was_ordered { IsStrictlySortedBy nat_cmp (keys_of self.old.entries) }
        ensures err { OnErr result (self.new.entries ≡ self.old.entries) }
    {
        transaction_rows::open(&mut self.rows, pass)?;
        if transaction_rows::put(&mut self.rows[pass as usize], transaction) {
            self.count += 1;
        }
        Ok(())
    }

    /// The client has no transaction any more. It gives the one that it had.
    pub(crate) fn remove(&mut self, pass: u8) -> Option<Transaction>
        ensures value { result ≡ running_at self.old.entries pass }
        ensures entries { self.new.entries ≡ remove_entry (is_at (nat_cmp pass)) self.old.entries }
        ensures here { running_at self.new.entries pass ≡ None }
        ensures others { (q : ℕ) → q ≢ pass → running_at self.new.entries q ≡ running_at self.old.entries q }
        ensures unchanged { IfNone result (self.new.entries ≡ self.old.entries) }
    {
        match self.rows.get_mut(pass as usize) {
            Some(row) => {
                let ended = row.take();
                if ended.is_some() {
                    self.count -= 1;
                }
                ended
            }
            None => None,
        }
    }
}

/// The object that a register of the client names; or the refusal, the first that applies: it has no transaction, the
/// transaction is being undone, the register is empty.
pub(crate) fn subject(transactions: &Transactions, pass: u8, r: u8) -> Result<u32, Reply>
    requires { r < 8 }
    ensures ok { IfOk result (HasSubject (running_at transactions.now.entries pass) r) }
    ensures err { IfErr result (λ reply. subject_refusal (running_at transactions.now.entries pass) r ≡ Some reply) }
{
    match transactions.get(pass) {
        Some(transaction) => transaction.subject(r),
        None => Err(Reply::NoTxn),
    }
}

/// The registers of the client; empty ones where it has no transaction.
pub(crate) fn registers(transactions: &Transactions, pass: u8) -> [Option<u32>; 8]
    ensures { IfSome (running_at transactions.now.entries pass) (λ t. result ≡ t.registers) }
{
    match transactions.get(pass) {
        Some(transaction) => transaction.registers(),
        None => [None; 8],
    }
}

/// The refusal where the client has no transaction, or one that is being undone.
pub(crate) fn not_running(transactions: &Transactions, pass: u8) -> Option<Reply>
    ensures { result ≡ if_not_running (running_at transactions.now.entries pass) }
{
    match transactions.get(pass) {
        None => Some(Reply::NoTxn),
        Some(transaction) if transaction.is_aborting() => Some(Reply::Aborting),
        Some(_) => None,
    }
}

/// The object that a `Store` changes and the id that it lays; or the refusal, the first that applies.
pub(crate) fn subject_and_source(
    transactions: &Transactions,
    pass: u8,
    r: u8,
    from: Option<u8>,
) -> Result<(u32, u32), Reply>
    requires register { r < 8 }
    requires source { IfSome from (λ f. f < 8) }
    ensures ok { IfOk result (λ o. HasSubject (running_at transactions.now.entries pass) r o.0 × HasSource (running_at transactions.now.entries pass) from (Ok o.1)) }
    ensures err { IfErr result (IsStoreRefusal (running_at transactions.now.entries pass) r from) }
{
    match transactions.get(pass) {
        Some(transaction) => transaction.subject_and_source(r, from),
        None => Err(Reply::NoTxn),
    }
}

/// What the last write of the client replaced that can be undone and isn't.
pub(crate) fn last_replaced(transactions: &Transactions, pass: u8) -> Option<Write>
    ensures { result ≡ option_map_or (λ t. last_or None t.replaced) (running_at transactions.now.entries pass) None }
{
    transactions.get(pass)?.last_replaced()
}

/// The client loads a register.
pub(crate) fn load(transactions: &mut Transactions, pass: u8, r: u8, value: Option<u32>)
    requires { r < 8 }
    ensures { transactions.new.entries ≡ changed_at pass (loaded r value) transactions.old.entries }
{
    if let Some(transaction) = transactions.get_mut(pass) {
        transaction.load(r, value);
    }
}

/// Notes what one write more of the client replaced. Out of memory is its only error, and changes nothing.
#[inline(always)]
pub(crate) fn note(transactions: &mut Transactions, pass: u8, replaced: Write) -> Result<(), Memory>
    ensures ok { OnOk result (transactions.new.entries ≡ changed_at pass (writing replaced) transactions.old.entries) }
    ensures err { OnErr result (transactions.new.entries ≡ transactions.old.entries) }
{
    match transactions.get_mut(pass) {
        Some(transaction) => transaction.note(replaced),
        None => Ok(()),
    }
}

/// Takes back what was noted last for the client.
pub(crate) fn forget(transactions: &mut Transactions, pass: u8)
    ensures { transactions.new.entries ≡ changed_at pass forgetting transactions.old.entries }
{
    if let Some(transaction) = transactions.get_mut(pass) {
        transaction.forget();
    }
}

/// What the last write of the client replaced that wasn't undone: that write is undone now. `None` where nothing is left
/// to undo.
pub(crate) fn undo(transactions: &mut Transactions, pass: u8) -> Option<Write>
    ensures last { result ≡ option_map_or (λ t. last_or None t.replaced) (running_at transactions.old.entries pass) None }
    ensures some { IsSome result → transactions.new.entries ≡ changed_at pass undoing transactions.old.entries }
    ensures none { result ≡ None → transactions.new.entries ≡ transactions.old.entries }
{
    transactions.get_mut(pass)?.undo()
}
