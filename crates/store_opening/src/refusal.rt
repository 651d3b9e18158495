//! Why the log of a store isn't read.
ghost use Rattle.std.specs.Prelude.{◌≡◌, ℕ};
ghost use Rattle.store_opening.specs.Refusals.{told};
ghost use Rattle.gate_log.specs.declared.refusal.LogRefusal.TheVariants.{LogFull};
ghost use Rattle.store_opening.specs.declared.refusal.ReadRefusal.TheVariants.{Memory};

use gate_log::LogRefusal;
use std::alloc::AllocError;
use thiserror::Error;

/// Why the log of a store isn't read.
#[derive(Clone, Copy, Debug, PartialEq, Eq, Error)]
pub enum ReadRefusal {
    /// The disk failed a call. Its count of faults rose.
    #[error("a disk call failed")]
    Disk,
    /// The area is no log of a store.
    #[error("the log is damaged at byte {at}")]
    Damaged {
        /// The offset in the log area, in bytes, where it stops to be one.
        at: u64,
    },
    /// The log begins with a version of the format that isn't known.
    #[error("the version {byte} is not known")]
    UnknownVersion {
        /// The byte of the version.
        byte: u8,
    },
    /// Out of memory.
    #[error("out of memory")]
    Memory,
}

/// The same refusal of a log that is read, which is never full.
pub(crate) fn told(refusal: LogRefusal) -> ReadRefusal
    requires { (used : ℕ) → refusal ≡ LogFull used → ⊥ }
    ensures { result ≡ told refusal }
{
    match refusal {
        LogRefusal::Disk => ReadRefusal::Disk,
        LogRefusal::Damaged { at } => ReadRefusal::Damaged { at },
        LogRefusal::Memory => ReadRefusal::Memory,
        LogRefusal::LogFull { .. } => unreachable!(),
    }
}

impl From<AllocError> for ReadRefusal {
    ghost from_gives = { λ _ refusal. refusal ≡ Memory };

    fn from(_: AllocError) -> Self {
        ReadRefusal::Memory
    }
}
