//! An inner object with two sides.
ghost use Rattle.std.specs.Prelude.{◌≡◌, ◌<◌, ◌*◌, ◌^◌, ◌%◌};
ghost use Rattle.std.specs.Int.Bits.{bit_or};

/// An inner object with a bit number, the two objects that it names, and the guides whose bits lead to them from the root's slot.
#[derive(Clone, Copy, Debug)]
pub(crate) struct Fork {
    pub(crate) id: u32,
    pub(crate) bit: u64,
    pub(crate) low: u32,
    pub(crate) high: u32,
    pub(crate) guide: u64,
    pub(crate) turned: u64,
}

/// The fork at an object to which the guide's bits lead, with this bit number and these sides.
pub(crate) fn fork_at(id: u32, bit: u64, sides: (u32, u32), guide: u64) -> Fork
    requires number { bit < 64 }
    ensures { result ≡ record { id = id; bit = bit; low = sides.0; high = sides.1; guide = guide; turned = bit_or guide (1 * 2 ^ bit % 2 ^ 64) } }
{
    Fork {
        id,
        bit,
        low: sides.0,
        high: sides.1,
        guide,
        turned: guide | (1 << bit),
    }
}
