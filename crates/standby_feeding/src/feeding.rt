//! A standby that is fed from a source.
ghost use Rattle.std.specs.Prelude.{◌≡◌, ◌≤◌, ◌++◌, ℕ, List, [], length, None, Some, Ok, IsErrOf};
ghost use Rattle.cell_page.specs.Format.{IsSlotCount};
ghost use Rattle.ship_stream.specs.declared.refusal.FeedRefusal.{FeedRefusal as Refusal};
ghost use Rattle.ship_stream.specs.declared.stage.Stage.TheVariants.{Ended};
ghost use Rattle.standby.specs.Feeds.{Follows};
ghost use Rattle.standby_feeding.specs.declared.feeding.Fed.TheVariants.{More, Whole};
ghost use Rattle.standby_feeding.specs.Streams.{AreBytes};
ghost use Rattle.standby_feeding.specs.Feedings.{HasFed, FeedsAll, HasFedFrom, HasFeedCause};

use crate::fault::FeedFault;
use outside_io::Source;
use ship_stream::FeedRefusal;
use standby::Standby;
use std::alloc::Global;

/// How many bytes are asked of the source at a time.
const PIECE: usize = 65_536;

/// What is known of a stream after a piece of it.
#[derive(Clone, Copy, Debug, PartialEq, Eq)]
pub(crate) enum Fed {
    /// More may come.
    More,
    /// All that belongs to it came: the closed commit byte, or all that the source has.
    Whole,
}

/// Feeds the standby with bytes of the stream, and tells whether more may come.
fn feed_bytes<const SLOTS: usize>(
    standby: &mut Standby<SLOTS>,
    bytes: &[u8],
) -> Result<Fed, FeedRefusal>
    ensures bytes { AreBytes bytes.now }
    ensures follows { («front» : List ℕ) → Follows «front» standby.old → Follows («front» ++ bytes.now) standby.new }
    ensures more { result ≡ Ok More → (standby.new.refused ≡ None) × (standby.new.feed.stage ≡ Ended → ⊥) }
    ensures whole { result ≡ Ok Whole → (standby.new.refused ≡ None) × (standby.new.feed.stage ≡ Ended) }
    ensures refused { (refusal : Refusal) → IsErrOf result refusal → standby.new.refused ≡ Some refusal }
{
    match standby.feed(bytes) {
        Ok(()) => {}
        Err(refusal) => return Err(refusal),
    }
    if standby.ended() {
        return Ok(Fed::Whole);
    }
    Ok(Fed::More)
}

/// Feeds the standby with the bytes that the source gives next, as many as the piece has room for at most, and tells whether more may
/// come.
fn feed_piece<R: Source, const SLOTS: usize>(
    source: &mut R,
    standby: &mut Standby<SLOTS>,
    piece: &mut [u8],
) -> Result<Fed, FeedFault>
    requires room { 1 ≤ length piece.old }
    requires unrefused { standby.old.refused ≡ None }
    ensures fed { HasFed (R.left source.old) (R.left source.new) standby.old standby.new result }
    ensures cause { HasFeedCause (R.faults source.old) (R.faults source.new) result }
    ensures length { length piece.new ≡ length piece.old }
{
    let count = match source.read(piece) {
        Ok(count) => count,
        Err(_) => return Err(FeedFault::Read),
    };
    if count == 0 {
        return Ok(Fed::Whole);
    }
    match feed_bytes(standby, &piece[..count]) {
        Ok(fed) => Ok(fed),
        Err(FeedRefusal::Damaged { at }) => Err(FeedFault::Damaged { at }),
        Err(FeedRefusal::Memory) => Err(FeedFault::Memory),
    }
}

/// Feeds the standby with what the source gives, up to its end or to the closed commit byte of the stream, piece by piece.
fn feed_all<R: Source, const SLOTS: usize>(
    source: &mut R,
    standby: &mut Standby<SLOTS>,
    piece: &mut [u8],
) -> Result<(), FeedFault>
    requires count { IsSlotCount SLOTS }
    requires room { 1 ≤ length piece.old }
    requires fresh { Follows [] standby.old }
    requires unrefused { standby.old.refused ≡ None }
    ensures fed { FeedsAll (R.left source.old) (R.left source.new) standby.new result }
    ensures cause { HasFeedCause (R.faults source.old) (R.faults source.new) result }
{
    'pieces: loop {
        match feed_piece(source, standby, piece) {
            Ok(Fed::More) => {}
            Ok(Fed::Whole) => return Ok(()),
            Err(fault) => return Err(fault),
        }
    }
}

/// A standby that was fed with what the source gave, up to its end or to the closed commit byte of the stream, in pieces of a fixed
/// size.
pub(crate) fn feed_from<R: Source, const SLOTS: usize>(
    alloc: Global,
    source: &mut R,
) -> Result<Standby<SLOTS>, FeedFault>
    requires count { IsSlotCount SLOTS }
    ensures fed { HasFedFrom SLOTS (R.left source.old) (R.left source.new) result }
    ensures cause { HasFeedCause (R.faults source.old) (R.faults source.new) result }
{
    let mut standby = Standby::new(alloc);
    let mut piece = [0; PIECE];
    match feed_all(source, &mut standby, &mut piece) {
        Ok(()) => Ok(standby),
        Err(fault) => Err(fault),
    }
}
