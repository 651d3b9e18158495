//! What a checker answers in place of a verdict.
ghost use Rattle.std.specs.Prelude.{◌≡◌};
ghost use Rattle.log_checker.specs.declared.refusal.CheckRefusal.TheVariants.{Memory};

use std::alloc::AllocError;
use thiserror::Error;

/// Why there is no verdict on a stream.
#[derive(Clone, Copy, Debug, PartialEq, Eq, Error)]
pub enum CheckRefusal {
    /// The number of pages and the pages are not all there.
    #[error("the stream ends after {len} bytes, inside of its pages")]
    NoBase {
        /// How many bytes the checker was fed with.
        len: u64,
    },
    /// The cells of the base after the whole batches break a store rule, or what has not ended can't be undone.
    #[error("object {id} breaks the store rule {rule}")]
    Unsound {
        /// The object: the least one that breaks the rule, or that of the first change that can't be undone.
        id: u32,
        /// The rule: 1 that the root is live, 2 that slots name live objects, 3 that counts are exact, 4 that no strong pointers
        /// lead from an object back to it, 5 that what has not ended can be undone. It is the least one that is broken.
        rule: u8,
    },
    /// Out of memory, in this call or in one that fed the checker.
    #[error("out of memory")]
    Memory,
}

impl From<AllocError> for CheckRefusal {
    ghost from_gives = { λ _ refusal. refusal ≡ Memory };

    fn from(_: AllocError) -> Self {
        CheckRefusal::Memory
    }
}
