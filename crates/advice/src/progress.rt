//! How far a count has come.

/// The bytes of a kibibyte.
pub(crate) const KIBIBYTE: u64 = 1 << 10;

/// The bytes of a mebibyte.
pub(crate) const MEBIBYTE: u64 = 1 << 20;

/// Adds to a count. Answers what it is now, where it passed a multiple of this size by that.
pub(crate) fn passed(count: &mut u64, more: u64, size: u64) -> Option<u64> {
    let before = count.checked_div(size)?;
    *count = count.saturating_add(more);
    if before < count.checked_div(size)? {
        Some(*count)
    } else {
        None
    }
}
