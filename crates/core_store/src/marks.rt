//! Which answers the calls on a journal gave.

/// Which answers the calls on a journal gave. None is taken back.
#[derive(Clone, Copy, PartialEq, Eq, Debug)]
pub struct Marks {
    /// The disk failed a commit. A journal alone has no disk, and never sets it.
    pub disk: bool,
    /// A call was answered that the history is full.
    pub trace: bool,
    /// A call was answered that the log is full. A journal alone has no log, and never sets it.
    pub log: bool,
}
