//! The end of a transaction: its locks go, it owes nothing more, and what it alone named joins the queue.
ghost use Rattle.std.specs.Prelude.{◌≡◌, ℕ, ◌+◌, ◌<◌, ◌≤◌, Some, length, true, Bool};
ghost use Rattle.ref_tables.specs.Queue.{has};
ghost use Rattle.core_store.specs.Transactions.{Running, running_at};
ghost use Rattle.core_store.specs.Views.{view_of};
ghost use Rattle.core_store.specs.Steps.{Ends, TakesAt, AreNames, is_queued, JoinsIfQueued, NamesNothing};

use crate::references;
use crate::tables::Tables;
use cell_page::ROOT;

impl<const SLOTS: usize> Tables<SLOTS> {
    /// The client's transaction is over: it gives its locks back, owes nothing more and names nothing any more.
    pub(crate) fn end(&mut self, pass: u8)
        requires within { (id : ℕ) → has ((view_of self.old).references pass) id ≡ true → (1 ≤ id) × (id ≤ self.old.ids) }
        requires marks { length (view_of self.old).zeros ≡ self.old.ids + 1 }
        ensures ends { Ends (view_of self.old) (view_of self.new) pass }
        ensures least { (t : Running) → running_at self.old.transactions.entries pass ≡ Some t → self.new.owed + (length t.replaced + 1) ≡ self.old.owed }
        ensures owed { self.new.owed ≤ self.old.owed }
    {
        self.locks.drop_all(pass);
        self.drop_transaction(pass);
        self.queue_named(pass);
    }

    /// The client has no transaction any more, and owes nothing.
    fn drop_transaction(&mut self, pass: u8)
        ensures same { view_of self.new ≡ record (view_of self.old) { transactions = self.new.transactions.entries; owed = self.new.owed } }
        ensures takes { TakesAt self.old.transactions.entries self.new.transactions.entries pass }
        ensures least { (t : Running) → running_at self.old.transactions.entries pass ≡ Some t → self.new.owed + (length t.replaced + 1) ≡ self.old.owed }
        ensures owed { self.new.owed ≤ self.old.owed }
    {
        if let Some(transaction) = self.transactions.remove(pass) {
            self.owed -= transaction.left();
            self.owed -= 1;
        }
    }

    /// Lets the objects that only the client named join the queue where no strong pointer leads to them. The client
    /// names nothing any more.
    fn queue_named(&mut self, pass: u8)
        requires within { (id : ℕ) → has ((view_of self.old).references pass) id ≡ true → (1 ≤ id) × (id ≤ self.old.ids) }
        requires marks { length (view_of self.old).zeros ≡ self.old.ids + 1 }
        ensures unnamed { NamesNothing (view_of self.old) (view_of self.new) pass }
        ensures owed { self.new.owed ≡ self.old.owed }
    {
        references::collect_targets(&mut self.named, self.references.entries(pass));
        self.references.end(pass);
        for place in 0..self.named.ids().len() {
            let id = self.named.ids()[place];
            self.join_queue(id);
        }
    }

    /// Lets the object join the queue where it is to.
    pub(crate) fn join_queue(&mut self, id: u32)
        requires within { (1 ≤ id) × (id ≤ self.old.ids) }
        requires marked { id < length (view_of self.old).zeros }
        ensures joins { JoinsIfQueued (view_of self.old) (view_of self.new) id }
        ensures named { self.new.named ≡ self.old.named }
    {
        if !self.is_queued(id) {
            return;
        }
        self.queue.push(id);
    }

    /// Whether an object is to join the queue: it is live and isn't the root, no strong pointer leads to it, it isn't in
    /// the open round, and no transaction names it.
    fn is_queued(&self, id: u32) -> bool
        requires { id < length (view_of self.now).zeros }
        ensures { (named : ℕ → Bool) → AreNames (view_of self.now).references named → result ≡ is_queued (view_of self.now) named id }
    {
        if !self.zeros[id as usize] || id == ROOT {
            return false;
        }
        if self.free.contains(id) || self.round.holds(id) {
            return false;
        }
        !self.references.names(id)
    }
}
