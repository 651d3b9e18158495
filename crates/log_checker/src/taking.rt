//! A piece of a stream, taken part by part.
ghost use Rattle.std.specs.Prelude.{◌≡◌, ◌≤◌, ◌++◌, ℕ, List, length, take, IfOk, OnOk, IfSome, IfNone, IsErrOf};
ghost use Rattle.cell_page.specs.Format.{IsSlotCount};
ghost use Rattle.ship_stream.specs.declared.refusal.FeedRefusal.TheVariants.{Damaged};
ghost use Rattle.ship_stream.specs.Reading.{Reading};
ghost use Rattle.standby.specs.Damage.{IsDamagedAt};
ghost use Rattle.log_checker.specs.Checking.{IsReadInto};
ghost use Rattle.log_checker.specs.Feeds.{HasRead, IsFedWith};

use crate::gathered::Gathered;
use ship_stream::{Feed, FeedRefusal, Records};
use std::alloc::Global;

/// Gives the reader the memory of records that are done with, if there are some.
fn reuse<const SLOTS: usize>(feed: &mut Feed<SLOTS>, done: Option<Records<SLOTS>>)
    ensures { feed.new ≡ feed.old }
{
    if let Some(records) = done {
        feed.reuse(records);
    }
}

/// Takes the next part from the front of the piece. Tells how many bytes it took, or nothing where it took them all and no part came
/// whole.
fn take_part<const SLOTS: usize>(
    alloc: Global,
    feed: &mut Feed<SLOTS>,
    gathered: &mut Gathered<SLOTS>,
    piece: &[u8],
) -> Result<Option<usize>, FeedRefusal>
    requires slots { IsSlotCount SLOTS }
    requires reads { (r : Reading SLOTS) × (bytes : List ℕ) × IsReadInto r bytes feed.old gathered.old }
    ensures some { IfOk result (λ found. IfSome found (λ n. (1 ≤ n) × (n ≤ length piece.now))) }
    ensures more { IfOk result (λ found. IfSome found (λ n.
        (r : Reading SLOTS) (bytes : List ℕ) → IsReadInto r bytes feed.old gathered.old → (next : Reading SLOTS) × IsReadInto next (bytes ++ take n piece.now) feed.new gathered.new)) }
    ensures all { IfOk result (λ found. IfNone found (
        (r : Reading SLOTS) (bytes : List ℕ) → IsReadInto r bytes feed.old gathered.old → HasRead r (bytes ++ piece.now) feed.new gathered.new)) }
    ensures damaged { (r : Reading SLOTS) (bytes : List ℕ) (at : ℕ) → IsReadInto r bytes feed.old gathered.old → IsErrOf result (Damaged at) → IsDamagedAt SLOTS (bytes ++ piece.now) at }
{
    match feed.next(piece) {
        Ok((taken, Some(part))) => match gathered.take(alloc, part) {
            Ok(done) => {
                reuse(feed, done);
                Ok(Some(taken))
            }
            Err(refusal) => Err(refusal),
        },
        Ok((_, None)) => Ok(None),
        Err(refusal) => Err(refusal),
    }
}

/// Takes a piece, part by part, until no further part of it is whole.
///
/// [`FeedRefusal::Damaged`] is at the first fault that the bytes so far show, exactly where they show one.
pub(crate) fn take_piece<const SLOTS: usize>(
    alloc: Global,
    feed: &mut Feed<SLOTS>,
    gathered: &mut Gathered<SLOTS>,
    piece: &[u8],
) -> Result<(), FeedRefusal>
    requires slots { IsSlotCount SLOTS }
    requires reads { (r : Reading SLOTS) × (bytes : List ℕ) × IsReadInto r bytes feed.old gathered.old }
    ensures took { (r : Reading SLOTS) (bytes : List ℕ) → IsReadInto r bytes feed.old gathered.old → OnOk result (IsFedWith (bytes ++ piece.now) feed.new gathered.new) }
    ensures damaged { (r : Reading SLOTS) (bytes : List ℕ) (at : ℕ) → IsReadInto r bytes feed.old gathered.old → IsErrOf result (Damaged at) → IsDamagedAt SLOTS (bytes ++ piece.now) at }
{
    let mut left = piece;
    'parts: while let Some(taken) = take_part(alloc, feed, gathered, left)? {
        left = &left[taken..];
    }
    Ok(())
}
