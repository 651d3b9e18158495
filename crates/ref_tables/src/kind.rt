//! What a client did with a reference.

/// What a client did with the target of an entry.
#[derive(Clone, Copy, PartialEq, Eq, Debug)]
pub enum Kind {
    /// It made the object.
    Made,
    /// It laid a reference to the object into a slot.
    Put,
    /// It took a reference to the object out of a slot.
    Cut,
    /// It had the object in a register when it gave a shared lock back.
    Held,
}

/// An entry of the temporary reference table: the object's id, and what the client did with it.
#[derive(Clone, Copy, PartialEq, Eq, Debug)]
pub struct TempRef {
    /// The object's id.
    pub target: u32,
    /// What the client did with it.
    pub kind: Kind,
}
