//! Where kept counts differ from found ones.
ghost use Rattle.std.specs.Prelude.{◌≡◌};

use std::marker::Model;

/// The counts of one id, as its frame keeps them and as the recount found them. Each is the strong count times 2^32, and
/// the weak count.
#[derive(Clone, Copy, PartialEq, Eq, Debug)]
pub struct Difference {
    /// The id.
    pub id: u32,
    /// What the frame keeps.
    pub kept: u64,
    /// What the recount found.
    pub found: u64,
}

/// A list of differences.
#[derive(Debug, Drop)]
pub struct Differences {
    items: Vec<Difference>,
}

impl Model for Differences {
    ghost use Rattle.std.specs.Prelude.{List};
    ghost use Rattle.auditor.specs.declared.difference.Difference.{Difference};

    ghost Value = { List Difference };

    ghost view = { λ d. d.items.items };
}

impl Differences {
    /// The differences, ascending by id.
    pub fn items(&self) -> &[Difference]
        ensures { result.now ≡ self.now }
    {
        self.items.as_slice()
    }
}

impl From<Vec<Difference>> for Differences {
    ghost use Rattle.std.specs.Prelude.{◌≡◌};

    ghost from_gives = { λ v list. list ≡ v.items };

    fn from(items: Vec<Difference>) -> Differences {
        Differences { items }
    }
}
