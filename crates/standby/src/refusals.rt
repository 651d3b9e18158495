//! What a standby answers in place of a promotion.
ghost use Rattle.std.specs.Prelude.{◌≡◌};
ghost use Rattle.standby.specs.declared.refusals.PromoteRefusal.TheVariants.{Disk, Memory};

use restart_store::InitRefusal;
use std::alloc::AllocError;
use thiserror::Error;

/// Why a standby isn't promoted.
#[derive(Clone, Copy, Debug, PartialEq, Eq, Error)]
pub enum PromoteRefusal {
    /// The disk failed a call. Its count of faults rose.
    #[error("a disk call failed")]
    Disk,
    /// The cells of the base after the whole batches break a store rule, or what has not ended can't be undone.
    #[error("object {id} breaks the store rule {rule}")]
    Unsound {
        /// The object: the least one that breaks the rule, or that of the first change that can't be undone.
        id: u32,
        /// The rule: 1 that the root is live, 2 that slots name live objects, 3 that counts are exact, 4 that no strong pointers
        /// lead from an object back to it, 5 that what has not ended can be undone. It is the least one that is broken.
        rule: u8,
    },
    /// Out of memory, in this call or in one that fed the standby.
    #[error("out of memory")]
    Memory,
    /// The number of pages and the pages are not all there.
    #[error("the stream ends after {len} bytes, inside of its pages")]
    NoBase {
        /// How many bytes the standby was fed with.
        len: u64,
    },
}

impl From<AllocError> for PromoteRefusal {
    ghost from_gives = { λ _ refusal. refusal ≡ Memory };

    fn from(_: AllocError) -> Self {
        PromoteRefusal::Memory
    }
}

impl From<InitRefusal> for PromoteRefusal {
    ghost from_gives = { λ _ refusal. refusal ≡ Disk };

    fn from(_: InitRefusal) -> Self {
        PromoteRefusal::Disk
    }
}
