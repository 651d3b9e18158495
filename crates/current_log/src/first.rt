//! The first batch of a log, which tells how many pages the store has.
ghost use Rattle.std.specs.Prelude.{◌≡◌, ◌⊎◌, ℕ, IfOk, IfErr, IfSome, IfNone, IsErrOf};
ghost use Rattle.cell_page.specs.Format.{IsSlotCount};
ghost use Rattle.log_record.specs.Spelling.{known_version};
ghost use Rattle.store_opening.specs.Firsts.{IsUnknownTurn, IsFirstBody, IsDamagedFirst};
ghost use Rattle.current_log.specs.declared.first.FirstRefusal.TheVariants.{Damaged, UnknownVersion};

use log_record::Record;

/// The kind of the record that a log begins with, and how many bytes that has.
const TURN: u8 = 14;

const TURN_LEN: usize = 4;

/// Where the first record of a log stands in its area, and where the next one would.
const FIRST_AT: u64 = 5;

const SECOND_AT: u64 = 9;

/// Why the first batch isn't the one of a store.
#[derive(Clone, Copy, Debug, PartialEq, Eq)]
pub(crate) enum FirstRefusal {
    /// It isn't one `Turn` alone.
    Damaged {
        /// The offset in the log area, in bytes, of the first record that may not stand there.
        at: u64,
    },
    /// It is a `Turn` of a version that isn't known.
    UnknownVersion {
        /// The byte of the version.
        byte: u8,
    },
}

/// The one version of the format that is known.
fn known_version<const SLOTS: usize>() -> u8
    requires { IsSlotCount SLOTS }
    ensures { result ≡ known_version SLOTS }
{
    if SLOTS == 6 { 1 } else { 2 }
}

/// The version of the `Turn` that the body is, where it is one of a version that isn't known.
fn unknown_version<const SLOTS: usize>(body: &[u8]) -> Option<u8>
    requires { IsSlotCount SLOTS }
    ensures some { IfSome result (λ number. IsUnknownTurn SLOTS number body.now) }
    ensures none { IfNone result ((number : ℕ) → IsUnknownTurn SLOTS number body.now → ⊥) }
{
    if body.len() != TURN_LEN {
        return None;
    }
    if body[0] != TURN {
        return None;
    }
    let number = body[1];
    if number == known_version::<SLOTS>() {
        return None;
    }
    Some(number)
}

/// How many pages the store has, by the body of its log's first batch.
pub(crate) fn first_pages<const SLOTS: usize>(body: &[u8]) -> Result<u16, FirstRefusal>
    requires { IsSlotCount SLOTS }
    ensures first { IfOk result (λ pages. IsFirstBody SLOTS pages body.now) }
    ensures version { (byte : ℕ) → IsErrOf result (UnknownVersion byte) → IsUnknownTurn SLOTS byte body.now }
    ensures damaged { (at : ℕ) → IsErrOf result (Damaged at) → IsDamagedFirst SLOTS at body.now }
{
    if let Some(byte) = unknown_version::<SLOTS>(body) {
        return Err(FirstRefusal::UnknownVersion { byte });
    }
    match Record::<SLOTS>::read(body) {
        Ok((Record::Turn { pages, .. }, len)) => {
            if len < body.len() {
                return Err(FirstRefusal::Damaged { at: SECOND_AT });
            }
            Ok(pages)
        }
        Ok((Record::OfCells(_), _)) => Err(FirstRefusal::Damaged { at: FIRST_AT }),
        Ok((Record::Image { .. }, _)) => Err(FirstRefusal::Damaged { at: FIRST_AT }),
        Err(_) => Err(FirstRefusal::Damaged { at: FIRST_AT }),
    }
}
