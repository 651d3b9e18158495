//! Why a log isn't shown as text.
ghost use Rattle.std.specs.Prelude.{◌≡◌};
ghost use Rattle.log_printing.specs.declared.view_refusal.ViewRefusal.TheVariants.{Memory};

use std::alloc::AllocError;
use thiserror::Error;

/// Why a log isn't shown as text.
#[derive(Clone, Copy, Debug, PartialEq, Eq, Error)]
pub enum ViewRefusal {
    /// Exactly where the area isn't a log of a store of so many pages.
    #[error("the log is damaged at byte {at}")]
    Damaged {
        /// The offset in the area, in bytes, of the first fault.
        at: u64,
    },
    /// Out of memory.
    #[error("out of memory")]
    Memory,
}

impl From<AllocError> for ViewRefusal {
    ghost from_gives = { λ _ refusal. refusal ≡ Memory };

    fn from(_: AllocError) -> Self {
        ViewRefusal::Memory
    }
}
