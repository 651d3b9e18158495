//! How a client stands to a lock that it wants.

/// How a client stands to a lock that it wants on an object.
#[derive(Clone, Copy, PartialEq, Eq, Debug)]
pub(crate) enum Standing {
    /// Other clients stand in the way; the least of them.
    Blocked(u8),
    /// The client has this very lock.
    Granted,
    /// The client holds the object by another lock, and nobody stands in the way.
    Held,
    /// The client doesn't hold the object, and nobody stands in the way.
    Free,
}
