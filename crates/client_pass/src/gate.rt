//! What stands round the calls of a client.

/// Is told of each call of a client's worker: of one that is made again since another client was in its way anew, but not of
/// those that only found a word held. So the number of the call is that of its entry among those of the client.
pub trait Gate: Sync {
    /// The client makes its call of this number, counted from 1.
    fn before(&self, pass: u8, n: u32);

    /// The client's call of this number was answered.
    fn after(&self, pass: u8, n: u32);
}

/// A gate that stands open.
#[derive(Clone, Copy, PartialEq, Eq, Debug)]
pub struct OpenGate;

impl Gate for OpenGate {
    fn before(&self, pass: u8, n: u32) {
        let _nothing = (pass, n);
    }

    fn after(&self, pass: u8, n: u32) {
        let _nothing = (pass, n);
    }
}
