//! The clients of a generator.
ghost use Rattle.std.specs.Prelude.{◌≡◌, ◌<◌, true, length, slice_index};
ghost use Rattle.call_generator.specs.Generator.{waiting, has_left, ends, after_call, IsWithin};

use plain_model::Call;

/// A client of a generator.
#[derive(Clone, Copy, PartialEq, Eq, Debug)]
pub struct Client {
    /// How many of its transactions haven't ended yet.
    pub left: u16,
    /// How many calls it has made since its transaction began, where it is in one.
    pub calls: Option<u8>,
}

impl Client {
    /// Whether it has a transaction left.
    fn has_left(&self) -> bool
        ensures { result ≡ has_left self.now }
    {
        self.left > 0
    }

    /// The client after a call that it asked.
    pub(crate) fn after(&self, call: &Call) -> Client
        requires within { IsWithin self.now }
        requires left { has_left self.now ≡ true }
        ensures { result ≡ after_call self.now call.now }
    {
        if ends(call) {
            return Client {
                left: self.left - 1,
                calls: None,
            };
        }
        let calls = match self.calls {
            Some(calls) => calls + 1,
            None => 0,
        };
        Client {
            left: self.left,
            calls: Some(calls),
        }
    }
}

/// Whether the call ends its client's transaction.
fn ends(call: &Call) -> bool
    ensures { result ≡ ends call.now }
{
    matches!(call, Call::Commit | Call::Abort)
}

/// How many clients have a transaction left.
pub(crate) fn count_waiting(clients: &[Client]) -> usize
    ensures { result ≡ length (waiting clients.now) }
{
    let mut count = 0;
    for client in clients {
        if client.has_left() {
            count += 1;
        }
    }
    count
}

/// The index of the client with a transaction left that has so many others before it.
pub(crate) fn waiting_at(clients: &[Client], place: usize) -> usize
    requires within { place < length (waiting clients.now) }
    ensures { result ≡ slice_index (waiting clients.now) place }
{
    let mut before = 0;
    for (index, client) in clients.iter().enumerate() {
        if client.has_left() {
            if before == place {
                return index;
            }
            before += 1;
        }
    }
    0
}
