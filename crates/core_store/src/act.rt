//! What a note tells of the collector.

/// Which event of the collector a note is of.
#[derive(Clone, Copy, PartialEq, Eq, Debug)]
pub enum Act {
    /// The first object of the queue was passed over, since a strong pointer leads to it or a transaction names it.
    Skip {
        /// The object, which left the queue.
        id: u32,
    },
    /// A round opened with the first object of the queue.
    Start {
        /// The object, which left the queue.
        id: u32,
    },
    /// The slots and counts of an object of the round were copied.
    Scan {
        /// The object.
        id: u32,
    },
    /// The verdict came: it was settled which objects of the round are to be freed.
    Judge,
    /// The round closed.
    End,
    /// Cells changed, as the note's record says.
    Change,
    /// The event isn't the collector's.
    Other,
}
