//! What a checker finds.

/// The verdict on a stream.
#[derive(Clone, Copy, Debug, PartialEq, Eq)]
pub struct Verdict {
    /// How many commits are in the whole batches.
    pub commits: u32,
    /// Where the stored objects are not the effect of just these commits, in their order: the least id that the root of one graph
    /// reaches and that of the other doesn't, or whose objects differ. `None` where both are the same.
    pub differs: Option<u32>,
}
