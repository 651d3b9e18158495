//! How far a journal may grow.

ghost use Rattle.std.specs.Prelude.{◌≡◌};

/// How far a journal may grow.
#[derive(Clone, Copy, PartialEq, Eq, Debug)]
pub struct Limits {
    /// How many entries the history may have, those counted that the active transactions owe: at most 1,048,576.
    pub trace: u64,
    /// How many bytes the log may have, those counted that the active transactions owe: at most 1,071,644,672. Whoever keeps a
    /// log of the journal keeps to it; a journal alone has none.
    pub log: u64,
}

impl Limits {
    /// The greatest limits, which the program uses.
    pub const GREATEST: Limits = Limits {
        trace: 1_048_576,
        log: 1_071_644_672,
    };

    /// The numbers of the greatest limits.
    pub fn greatest()
        ensures { Limits.GREATEST ≡ record { trace = 1048576; log = 1071644672 } }
    {}
}
