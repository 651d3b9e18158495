//! What is to be measured.
ghost use Rattle.std.specs.Prelude.{◌≤◌};

/// How clients come to the store.
#[derive(Clone, Copy)]
pub(crate) enum How {
    /// Each in a thread of its own, with a pass of the shared store.
    Shared,
    /// Each in a thread of its own, with a lock round one journal.
    Mutex,
    /// All in one thread, in turn.
    Alone,
}

/// What clients ask.
#[derive(Clone, Copy, PartialEq, Eq)]
pub(crate) enum Mix {
    /// Each call reads the payload of the client's object.
    Reads,
    /// Each tenth call sets it.
    Writes,
}

/// What is to be measured.
#[derive(Clone, Copy)]
pub(crate) struct Order {
    pub(crate) how: How,
    pub(crate) clients: u8,
    pub(crate) mix: Mix,
    ghost few: { clients ≤ 4 },
}

impl Order {
    /// What these words ask, if that is anything.
    pub(crate) fn of(how: &str, clients: &str, mix: &str) -> Option<Order> {
        let how = match how {
            "shared" => How::Shared,
            "mutex" => How::Mutex,
            "alone" => How::Alone,
            _ => return None,
        };
        let clients = match clients {
            "1" => 1,
            "2" => 2,
            "4" => 4,
            _ => return None,
        };
        let mix = match mix {
            "reads" => Mix::Reads,
            "writes" => Mix::Writes,
            _ => return None,
        };
        Some(Order { how, clients, mix })
    }
}
