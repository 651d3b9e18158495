//! Why a store isn't opened.
use std::fmt;
use thiserror::Error;

/// A part of a store that can be damaged.
#[derive(Clone, Copy, Debug, PartialEq, Eq)]
pub enum Place {
    /// One of the two log areas.
    LogA,
    /// The other one.
    LogB,
    /// The page of this number, from 0.
    Page(u16),
}

impl fmt::Display for Place {
    fn fmt<W: fmt::Write>(&self, f: &mut fmt::Formatter<W>) -> fmt::Result {
        match self {
            Place::LogA => write!(f, "log A"),
            Place::LogB => write!(f, "log B"),
            Place::Page(page) => write!(f, "page {page}"),
        }
    }
}

/// Why a store isn't opened.
#[derive(Clone, Copy, Debug, PartialEq, Eq, Error)]
pub enum OpenRefusal {
    /// The disk failed a call. Its count of faults rose.
    #[error("a disk call failed")]
    Disk,
    /// A part of the store is damaged.
    #[error("{place} is damaged at byte {at}")]
    Damaged {
        /// Which part.
        place: Place,
        /// The offset in it, in bytes.
        at: u64,
    },
    /// The super area is empty.
    #[error("there is no store")]
    NoStore,
    /// The log begins with a version of the format that isn't known.
    #[error("the version {byte} is not known")]
    UnknownVersion {
        /// The byte of the version.
        byte: u8,
    },
    /// An object breaks a rule of the store. Reading alone tests none, and never answers so.
    #[error("object {id} breaks rule {rule}")]
    Unsound {
        /// The object.
        id: u32,
        /// The number of the rule.
        rule: u8,
    },
    /// Out of memory.
    #[error("out of memory")]
    Memory,
    /// The log area has no room for the undo of what had not ended, and for what begins a further batch after it. Reading
    /// alone asks for no room, and never answers so.
    #[error("the log has no room to go on")]
    LogFull,
}
