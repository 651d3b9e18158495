//! References to objects.
ghost use Rattle.std.specs.Prelude.{◌≡◌};

/// The id of an object, and the register of the open transaction that has it.
#[derive(Clone, Copy, PartialEq, Eq, Debug)]
pub(crate) struct Held {
    pub(crate) id: u32,
    pub(crate) register: u8,
}

/// A reference to an object that a transaction reached. It lives as long as the transaction borrows the store.
#[derive(Clone, Copy)]
pub struct Ref<'t> {
    held: Held,

    /// Nothing is read here: it makes the lifetime part of the type.
    of: &'t (),
}

impl<'t> Ref<'t> {
    /// The reference of an object that is held.
    pub(crate) fn new(held: Held) -> Ref<'t>
        ensures { result.held ≡ held }
    {
        Ref { held, of: &() }
    }

    /// What is held.
    pub(crate) fn held(self) -> Held
        ensures { result ≡ self.entry.held }
    {
        self.held
    }

    /// The id of the object. Two references are to one object where they have the same id.
    pub fn id(self) -> u32
        ensures { result ≡ self.entry.held.id }
    {
        self.held.id
    }
}
