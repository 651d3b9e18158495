//! What a store sees to by itself.
ghost use Rattle.std.specs.Prelude.{◌≡◌, ◌≤◌, max};

/// When a store makes a checkpoint, and how much it collects; and what the log had when the last transaction began.
#[derive(Clone, Copy)]
pub(crate) struct Tending {
    /// So many bytes of the log may be in use where a transaction begins. Where more are, a checkpoint is made first.
    pub(crate) log: u64,

    /// So many steps of the collector follow a commit at most.
    pub(crate) steps: u32,

    /// So many bytes of the log were in use when the last transaction began.
    pub(crate) begun: u64,
    ghost room: { begun ≤ max 15 log },
}

impl Tending {
    /// The same with the number of bytes that are in use, where a transaction begins.
    pub(crate) fn at_beginning(self, used: u64) -> Tending
        requires { used ≤ max 15 self.log }
        ensures log { result.log ≡ self.log }
        ensures steps { result.steps ≡ self.steps }
        ensures begun { result.begun ≡ used }
    {
        Tending {
            log: self.log,
            steps: self.steps,
            begun: used,
        }
    }
}
