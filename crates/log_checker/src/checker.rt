//! The checker.
ghost use Rattle.std.specs.Prelude.{◌≡◌, [], ◌++◌, true, ◌↔◌, ℕ, List, None, Some, OnOk, IsErrOf};
ghost use Rattle.cell_page.specs.Format.{IsSlotCount};
ghost use Rattle.ship_stream.specs.declared.refusal.FeedRefusal.{FeedRefusal as Refusal};
ghost use Rattle.ship_stream.specs.declared.stage.Stage.TheVariants.{Ended as HasEnded};
ghost use Rattle.log_checker.specs.Feeds.{Follows};

use crate::gathered::Gathered;
use crate::taking::take_piece;
use ship_stream::{Feed, FeedRefusal};
use std::alloc::Global;
use std::marker::Model;

/// A checker, which is fed with a stream: the number of pages, the pages of a base, and the log after them.
///
/// It keeps the pages, as the records of the whole batches left them, the objects that the commits alone left, the writes of the open
/// transactions, and the bytes of the part that is not whole yet; so it does not grow with the length of the stream.
#[derive(Drop)]
pub struct Checker<const SLOTS: usize> {
    pub(crate) alloc: Global,
    pub(crate) feed: Feed<SLOTS>,
    pub(crate) gathered: Gathered<SLOTS>,
    pub(crate) refused: Option<FeedRefusal>,
}

/// Contracts see the reader of the stream, what is made of the parts that came whole, and how it was refused.
impl<const SLOTS: usize> Model for Checker<SLOTS> {
    ghost use Rattle.cell_page.specs.Format.{IsSlotCount};
    ghost use Rattle.log_checker.specs.Checking.{Checking};
    ghost use Rattle.log_checker.specs.Feeds.{IsChecker};

    ghost Value = { Checking SLOTS };

    ghost view = { λ s. record { feed = s.feed; checked = s.gathered; refused = s.refused } };

    ghost invariant = { λ s. IsSlotCount SLOTS × IsChecker {slots = SLOTS} (record { feed = s.feed; checked = s.gathered; refused = s.refused }) };
}

impl<const SLOTS: usize> Checker<SLOTS> {
    /// A checker that was fed with nothing, of a store whose objects have so many slots. It takes no memory.
    pub fn new(alloc: Global) -> Checker<SLOTS>
        requires { IsSlotCount SLOTS }
        ensures follows { Follows [] result }
        ensures unrefused { result.refused ≡ None }
    {
        Checker {
            alloc,
            feed: Feed::new(alloc),
            gathered: Gathered::new(alloc),
            refused: None,
        }
    }

    /// Feeds the checker with the next piece of the stream, of any length. The records of each batch that is whole then, with the
    /// commit byte after it, are done to the base, and their commits to the plain fold. What comes after the closed commit byte is
    /// ignored.
    ///
    /// [`FeedRefusal::Damaged`] comes exactly where the bytes so far show a fault, and is at the first one in the order of the stream.
    /// After it each later call answers the same. [`FeedRefusal::Memory`] leaves a checker that is spent: some front of the piece was
    /// fed, and each later call answers the same.
    pub fn feed(&mut self, piece: &[u8]) -> Result<(), FeedRefusal>
        ensures follows { (bytes : List ℕ) → Follows bytes self.old → Follows (bytes ++ piece.now) self.new }
        ensures fed { OnOk result (self.new.refused ≡ None) }
        ensures refused { (refusal : Refusal) → IsErrOf result refusal → self.new.refused ≡ Some refusal }

        // A checker that was refused answers the same again, and stays as it is.
        ensures again { (refusal : Refusal) → self.old.refused ≡ Some refusal → IsErrOf result refusal × (self.new ≡ self.old) }
    {
        if let Some(refusal) = self.refused {
            return Err(refusal);
        }
        match take_piece(self.alloc, &mut self.feed, &mut self.gathered, piece) {
            Ok(()) => Ok(()),
            Err(refusal) => {
                self.refused = Some(refusal);
                Err(refusal)
            }
        }
    }

    /// Whether the closed commit byte came. What comes after it is ignored.
    pub fn ended(&self) -> bool
        ensures { (result ≡ true) ↔ (self.now.feed.stage ≡ HasEnded) }
    {
        self.feed.ended()
    }
}
