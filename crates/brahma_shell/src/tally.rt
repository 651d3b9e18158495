//! What happened in a store, counted.
ghost use Rattle.std.specs.Prelude.{◌≡◌, ◌+◌, ◌-◌, ◌^◌, count_by};
ghost use Rattle.brahma_shell.specs.Points.{entries_in};
ghost use Rattle.brahma_shell.specs.Tally.{no_tally, one_if, IsSmall, is_commit, is_abort, is_busy, is_deletion};

use core_store::Notes;
use plain_model::{Call, Entry, Reply};

/// How many entries of a history are of these kinds.
#[derive(Clone, Copy, PartialEq, Eq, Debug)]
pub(crate) struct Tally {
    /// Commits that were done.
    pub(crate) commits: u64,
    /// Aborts that were done.
    pub(crate) aborts: u64,
    /// Replies that a client is in the way.
    pub(crate) busy: u64,
    /// Deletions.
    pub(crate) deleted: u64,
}

/// Whether a client was told that its commit was done.
fn is_commit(entry: &Entry) -> bool
    ensures { result ≡ is_commit entry.now }
{
    matches!(
        entry,
        Entry::Call {
            call: Call::Commit,
            reply: Reply::Done,
            ..
        }
    )
}

/// Whether a client was told that its abort was done.
fn is_abort(entry: &Entry) -> bool
    ensures { result ≡ is_abort entry.now }
{
    matches!(
        entry,
        Entry::Call {
            call: Call::Abort,
            reply: Reply::Done,
            ..
        }
    )
}

/// Whether a client was told that another one is in its way.
fn is_busy(entry: &Entry) -> bool
    ensures { result ≡ is_busy entry.now }
{
    matches!(
        entry,
        Entry::Call {
            reply: Reply::Busy { .. },
            ..
        }
    )
}

/// Whether an object was deleted.
fn is_deletion(entry: &Entry) -> bool
    ensures { result ≡ is_deletion entry.now }
{
    matches!(entry, Entry::Delete { .. })
}

impl Tally {
    /// Of no entry.
    fn new() -> Tally
        ensures { result ≡ no_tally }
    {
        Tally {
            commits: 0,
            aborts: 0,
            busy: 0,
            deleted: 0,
        }
    }

    /// With one entry more.
    fn with(self, entry: &Entry) -> Tally
        requires { IsSmall self (2 ^ 64 - 1) }
        ensures commits { result.commits ≡ self.commits + one_if (is_commit entry.now) }
        ensures aborts { result.aborts ≡ self.aborts + one_if (is_abort entry.now) }
        ensures busy { result.busy ≡ self.busy + one_if (is_busy entry.now) }
        ensures deleted { result.deleted ≡ self.deleted + one_if (is_deletion entry.now) }
    {
        Tally {
            commits: self.commits + one_if(is_commit(entry)),
            aborts: self.aborts + one_if(is_abort(entry)),
            busy: self.busy + one_if(is_busy(entry)),
            deleted: self.deleted + one_if(is_deletion(entry)),
        }
    }
}

/// One where it is so.
fn one_if(so: bool) -> u64
    ensures { result ≡ one_if so }
{
    if so { 1 } else { 0 }
}

/// What the notes' entries come to.
pub(crate) fn tally_of(notes: &Notes) -> Tally
    ensures commits { result.commits ≡ count_by is_commit (entries_in notes.now.list) }
    ensures aborts { result.aborts ≡ count_by is_abort (entries_in notes.now.list) }
    ensures busy { result.busy ≡ count_by is_busy (entries_in notes.now.list) }
    ensures deleted { result.deleted ≡ count_by is_deletion (entries_in notes.now.list) }
{
    let mut tally = Tally::new();
    // No more are counted than there are.
    let _ = notes.len();
    for note in notes.iter() {
        tally = tally.with(&note.entry);
    }
    tally
}
