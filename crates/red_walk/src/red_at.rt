//! What the red walk asks for.

/// What the red walk asks for next.
#[derive(Clone, Copy, PartialEq, Eq, Debug)]
pub enum RedAt {
    /// A look at this slot of the object: a strong pointer there is made weak.
    Look {
        /// The object.
        id: u32,
        /// The slot, counted from 0.
        slot: u8,
    },
    /// A copy of the object's slots and counts.
    Copy {
        /// The object.
        id: u32,
    },
    /// The verdict: all objects of the round were copied.
    Verdict,
}
