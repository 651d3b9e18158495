//! What the green walk asks for.
ghost use Rattle.std.specs.Prelude.{◌≡◌, drop};
ghost use Rattle.green_walk.specs.Greening.{first_seed};

/// What the green walk asks for next.
#[derive(Clone, Copy, PartialEq, Eq, Debug)]
pub enum GreenAt {
    /// A seed: where a strong pointer leads to it, it becomes green; where none leads to it and none out of it, it is
    /// flipped.
    Seed {
        /// The object.
        id: u32,
    },
    /// A look at this slot: a strong pointer in it to the object that was flipped is made weak.
    Into {
        /// The object whose slot it is.
        from: u32,
        /// The slot, counted from 0.
        slot: u8,
        /// The object that was flipped.
        to: u32,
    },
    /// A look at this slot of a green object: its pointer is made strong where its target waits, no strong pointer leads
    /// to that, and none out of it.
    Out {
        /// The object whose slot it is.
        from: u32,
        /// The slot, counted from 0.
        slot: u8,
    },
    /// All seeds are done.
    End,
}

/// A test whether a strong pointer leads out of an object, as far as it has come.
#[derive(Clone, Copy, PartialEq, Eq, Debug)]
pub struct Test {
    /// The object.
    pub id: u32,
    /// The slot that is looked at next; where all slots were looked at, their number.
    pub slot: u8,
}

/// The first seed after so many that are done, or the end.
pub(crate) fn seed_after(seeds: &[u32], done: usize) -> GreenAt
    ensures { result ≡ first_seed (drop done seeds.now) }
{
    if done < seeds.len() {
        GreenAt::Seed { id: seeds[done] }
    } else {
        GreenAt::End
    }
}
