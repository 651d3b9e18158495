//! Writes of transactions.

/// What a write sets: a slot, the payload, or the whole object, which is new then, with null slots and payload 0.
#[derive(Clone, Copy, PartialEq, Eq, Debug)]
pub enum Place {
    Slot(u8),
    Payload,
    Whole,
}

/// A write that a transaction made: the value goes to this place of the object with this id.
#[derive(Clone, Copy, PartialEq, Eq, Debug)]
pub struct Write {
    pub id: u32,
    pub place: Place,
    pub value: u64,
}
