//! How the work of clients ends.
ghost use Rattle.std.specs.Prelude.{◌≡◌, ◌⊎◌, ◌≤◌};
ghost use Rattle.client_pass.specs.Workings.{weight};

use plain_model::Reply;

/// How a client's work, or a run of several, ended.
#[derive(Clone, Copy, PartialEq, Eq, Debug)]
pub enum WorkEnd {
    /// All was done.
    Finished,
    /// The disk failed a call, this one or one before. This was the store's reply.
    Disk { reply: Reply },
    /// The history or the log is full. This was the store's reply.
    Limit { reply: Reply },
    /// Out of memory.
    Memory,
}

/// How a run of several clients ended.
pub type RunEnd = WorkEnd;

impl WorkEnd {
    /// The end of two that worked beside each other: that of the disk comes before that of a limit, and this before want of
    /// memory.
    pub(crate) fn with(self, other: WorkEnd) -> WorkEnd
        ensures one { (result ≡ self) ⊎ (result ≡ other) }
        ensures worst { (weight self ≤ weight result) × (weight other ≤ weight result) }
        ensures finished { result ≡ WorkEnd.Finished → (self ≡ WorkEnd.Finished) × (other ≡ WorkEnd.Finished) }
    {
        match (self, other) {
            (WorkEnd::Disk { .. }, _) => self,
            (_, WorkEnd::Disk { .. }) => other,
            (WorkEnd::Limit { .. }, _) => self,
            (_, WorkEnd::Limit { .. }) => other,
            (WorkEnd::Memory, _) => self,
            (WorkEnd::Finished, _) => other,
        }
    }
}
