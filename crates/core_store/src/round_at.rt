//! What the collector is about to do.
ghost use Rattle.std.specs.Prelude.{◌≡◌};
ghost use Rattle.core_store.specs.Steppings.{bytes_at};

/// What the collector looks at or does next. The clauses on its steps speak of it.
#[derive(Clone, Copy, PartialEq, Eq, Debug)]
pub enum RoundAt {
    /// No round is open: the first object of the queue is taken out.
    Queue,
    /// A look at this slot of an object of the round: a strong pointer there is made weak.
    Look {
        /// The object.
        id: u32,
        /// The slot, counted from 0.
        slot: u8,
    },
    /// A copy of the object's slots and counts.
    Copy {
        /// The object.
        id: u32,
    },
    /// The verdict.
    Judge,
    /// A look at this slot of a condemned object: a pointer there is removed.
    Cut {
        /// The object.
        id: u32,
        /// The slot, counted from 0.
        slot: u8,
    },
    /// The condemned object is freed.
    Free {
        /// The object.
        id: u32,
    },
    /// A look at a seed: whether a strong pointer leads to it.
    Seed {
        /// The object.
        id: u32,
    },
    /// A look at this slot of an object that is to be flipped or to get a strong pointer: whether it holds a strong one.
    Test {
        /// The object.
        id: u32,
        /// The slot, counted from 0.
        slot: u8,
    },
    /// The seed is flipped.
    Flip {
        /// The object.
        id: u32,
    },
    /// A look at this slot: a strong pointer there to the object that was flipped is made weak.
    Into {
        /// The object whose slot it is.
        from: u32,
        /// The slot, counted from 0.
        slot: u8,
        /// The object that was flipped.
        to: u32,
    },
    /// A look at this slot of a green object: whether its target may get a strong pointer.
    Out {
        /// The object whose slot it is.
        from: u32,
        /// The slot, counted from 0.
        slot: u8,
    },
    /// The weak pointer in this slot of a green object is made strong.
    Strengthen {
        /// The object whose slot it is.
        from: u32,
        /// The slot, counted from 0.
        slot: u8,
        /// The object to which it leads.
        to: u32,
    },
    /// The round closes.
    End,
}

impl RoundAt {
    /// How many bytes the record of the event here has, and 0 where there is none.
    pub fn record_length(self) -> u64
        ensures { result ≡ bytes_at self }
    {
        match self {
            RoundAt::Look { .. } | RoundAt::Into { .. } | RoundAt::Strengthen { .. } => 10,
            RoundAt::Cut { .. } => 11,
            RoundAt::Free { .. } | RoundAt::Flip { .. } => 5,
            RoundAt::Queue
            | RoundAt::Copy { .. }
            | RoundAt::Judge
            | RoundAt::Seed { .. }
            | RoundAt::Test { .. }
            | RoundAt::Out { .. }
            | RoundAt::End => 0,
        }
    }
}
