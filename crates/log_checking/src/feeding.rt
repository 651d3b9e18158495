//! A checker that is fed from a source.
ghost use Rattle.std.specs.Prelude.{◌≡◌, ◌≤◌, ◌++◌, ℕ, List, [], length, None, Some, Ok, IsErrOf};
ghost use Rattle.cell_page.specs.Format.{IsSlotCount};
ghost use Rattle.ship_stream.specs.declared.refusal.FeedRefusal.{FeedRefusal as Refusal};
ghost use Rattle.ship_stream.specs.declared.stage.Stage.TheVariants.{Ended};
ghost use Rattle.log_checker.specs.Feeds.{Follows};
ghost use Rattle.log_checking.specs.declared.feeding.Fed.TheVariants.{More, Whole};
ghost use Rattle.standby_feeding.specs.Streams.{AreBytes};
ghost use Rattle.standby_feeding.specs.Feedings.{HasFeedCause};
ghost use Rattle.log_checking.specs.Feedings.{HasFed, FeedsAll, HasFedFrom};

use log_checker::Checker;
use outside_io::Source;
use ship_stream::FeedRefusal;
use standby_feeding::FeedFault;
use std::alloc::Global;

/// How many bytes are asked of the source at a time.
const PIECE: usize = 65_536;

/// What is known of a stream after a piece of it.
#[derive(Clone, Copy, Debug, PartialEq, Eq)]
pub(crate) enum Fed {
    /// More may come.
    More,
    /// All that belongs to it came: the closed commit byte, or all that the source has.
    Whole,
}

/// Feeds the checker with bytes of the stream, and tells whether more may come.
fn feed_bytes<const SLOTS: usize>(
    checker: &mut Checker<SLOTS>,
    bytes: &[u8],
) -> Result<Fed, FeedRefusal>
    ensures bytes { AreBytes bytes.now }
    ensures follows { («front» : List ℕ) → Follows «front» checker.old → Follows («front» ++ bytes.now) checker.new }
    ensures more { result ≡ Ok More → (checker.new.refused ≡ None) × (checker.new.feed.stage ≡ Ended → ⊥) }
    ensures whole { result ≡ Ok Whole → (checker.new.refused ≡ None) × (checker.new.feed.stage ≡ Ended) }
    ensures refused { (refusal : Refusal) → IsErrOf result refusal → checker.new.refused ≡ Some refusal }
{
    match checker.feed(bytes) {
        Ok(()) => {}
        Err(refusal) => return Err(refusal),
    }
    if checker.ended() {
        return Ok(Fed::Whole);
    }
    Ok(Fed::More)
}

/// Feeds the checker with the bytes that the source gives next, as many as the piece has room for at most, and tells whether more may
/// come.
fn feed_piece<R: Source, const SLOTS: usize>(
    source: &mut R,
    checker: &mut Checker<SLOTS>,
    piece: &mut [u8],
) -> Result<Fed, FeedFault>
    requires room { 1 ≤ length piece.old }
    requires unrefused { checker.old.refused ≡ None }
    ensures fed { HasFed (R.left source.old) (R.left source.new) checker.old checker.new result }
    ensures cause { HasFeedCause (R.faults source.old) (R.faults source.new) result }
    ensures length { length piece.new ≡ length piece.old }
{
    let count = match source.read(piece) {
        Ok(count) => count,
        Err(_) => return Err(FeedFault::Read),
    };
    if count == 0 {
        return Ok(Fed::Whole);
    }
    match feed_bytes(checker, &piece[..count]) {
        Ok(fed) => Ok(fed),
        Err(FeedRefusal::Damaged { at }) => Err(FeedFault::Damaged { at }),
        Err(FeedRefusal::Memory) => Err(FeedFault::Memory),
    }
}

/// Feeds the checker with what the source gives, up to its end or to the closed commit byte of the stream, piece by piece.
fn feed_all<R: Source, const SLOTS: usize>(
    source: &mut R,
    checker: &mut Checker<SLOTS>,
    piece: &mut [u8],
) -> Result<(), FeedFault>
    requires count { IsSlotCount SLOTS }
    requires room { 1 ≤ length piece.old }
    requires fresh { Follows [] checker.old }
    requires unrefused { checker.old.refused ≡ None }
    ensures fed { FeedsAll (R.left source.old) (R.left source.new) checker.new result }
    ensures cause { HasFeedCause (R.faults source.old) (R.faults source.new) result }
{
    'pieces: loop {
        match feed_piece(source, checker, piece) {
            Ok(Fed::More) => {}
            Ok(Fed::Whole) => return Ok(()),
            Err(fault) => return Err(fault),
        }
    }
}

/// A checker that was fed with what the source gave, up to its end or to the closed commit byte of the stream, in pieces of a fixed
/// size.
pub(crate) fn feed_from<R: Source, const SLOTS: usize>(
    alloc: Global,
    source: &mut R,
) -> Result<Checker<SLOTS>, FeedFault>
    requires count { IsSlotCount SLOTS }
    ensures fed { HasFedFrom SLOTS (R.left source.old) (R.left source.new) result }
    ensures cause { HasFeedCause (R.faults source.old) (R.faults source.new) result }
{
    let mut checker = Checker::new(alloc);
    let mut piece = [0; PIECE];
    match feed_all(source, &mut checker, &mut piece) {
        Ok(()) => Ok(checker),
        Err(fault) => Err(fault),
    }
}
