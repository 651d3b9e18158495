//! How often a pass was refused on account of the disk, the history or the log.
ghost use Rattle.std.specs.Prelude.{◌≡◌};

/// How many answers said so, up to 2^64 − 1, of this pass and of those that were joined into it.
#[derive(Clone, Copy, PartialEq, Eq, Debug)]
pub struct Refused {
    /// The disk failed a call, this one or one before.
    pub disk: u64,
    /// The history has no room left.
    pub trace: u64,
    /// The log has no room left.
    pub log: u64,
}
