//! Why a lock is refused.
ghost use Rattle.std.specs.Prelude.{◌≡◌};
ghost use Rattle.strict_locks.specs.declared.refusal.LockRefusal.TheVariants.{Memory};

use std::alloc::{AllocError, AllocFailed};

/// Why a lock was not granted. The table is then as it was.
#[derive(Clone, Copy, PartialEq, Eq, Debug)]
pub enum LockRefusal {
    /// Another client's lock stands in the way; the least such client.
    Busy { pass: u8 },
    /// Nobody stands in the way, but the table can't grow: out of memory.
    Memory,
}

impl From<AllocError> for LockRefusal {
    ghost from_gives = { λ _ refusal. refusal ≡ Memory };

    fn from(_error: AllocError) -> LockRefusal {
        LockRefusal::Memory
    }
}
