//! The bytes of an area, written piece by piece.
ghost use Rattle.std.specs.Prelude.{◌≡◌, ◌+◌, ◌≤◌, ◌<◌, ◌^◌, ℕ, List, [], length, take, drop, IfErr, IfSome, OnOk, IsErrOf};
ghost use Rattle.std.specs.Io.KnownBytes.{Appends};
ghost use Rattle.script_lines.specs.Output.{AppendsFront};
ghost use Rattle.store_opening.specs.Looks.{IsLookedAt};
ghost use Rattle.stream_writing.specs.declared.copy.CopyFault.TheVariants.{Disk, Write};
ghost use Rattle.stream_writing.specs.Copied.{HasCopied, HasCopyCause};

use disk_model::{Area, Disk};
use outside_io::Sink;
use script_lines::write_all;

/// How many bytes are read and written at a time.
const PIECE: usize = 65_536;

/// Why not all bytes were copied.
#[derive(Clone, Copy, Debug, PartialEq, Eq)]
pub(crate) enum CopyFault {
    /// The disk failed a call.
    Disk,
    /// The sink failed a call.
    Write,
}

/// Writes the bytes of the area from this offset on, as many as the piece has, which they then fill.
fn copy_piece<D: Disk, W: Sink>(
    disk: &mut D,
    area: Area,
    at: u64,
    piece: &mut [u8],
    out: &mut W,
) -> Result<(), CopyFault>
    requires within { IfSome (D.content disk.old area) (λ c. at + length piece.old ≤ length c) }
    ensures copied { OnOk result (Appends (W.written out.old) (W.written out.new) piece.new) }
    ensures bytes { OnOk result (IfSome (D.content disk.old area) (λ c. piece.new ≡ take (length piece.old) (drop at c))) }
    ensures write { IsErrOf result Write → AppendsFront (W.written out.old) (W.written out.new) piece.new
        × IfSome (D.content disk.old area) (λ c. piece.new ≡ take (length piece.old) (drop at c)) }
    ensures disk { IsErrOf result Disk → Appends (W.written out.old) (W.written out.new) [] }
    ensures looks { IsLookedAt D.content D.may_leave D.moment D.left_since disk.old disk.new }
    ensures cause { HasCopyCause (D.faults disk.old) (D.faults disk.new) (W.faults out.old) (W.faults out.new) result }
    ensures length { length piece.new ≡ length piece.old }
{
    match disk.read_at(area, at, piece) {
        Ok(()) => match write_all(out, piece) {
            Ok(()) => Ok(()),
            Err(_) => Err(CopyFault::Write),
        },
        Err(_) => Err(CopyFault::Disk),
    }
}

/// Writes the first bytes of the area, so many, in pieces of at most so many bytes as the piece has.
fn copy_by<D: Disk, W: Sink>(
    disk: &mut D,
    area: Area,
    len: u64,
    piece: &mut [u8],
    out: &mut W,
) -> Result<(), CopyFault>
    requires some { 1 ≤ length piece.old }
    requires within { IfSome (D.content disk.old area) (λ c. len ≤ length c) }
    ensures copied { OnOk result (HasCopied (D.content disk.old area) len (W.written out.old) (W.written out.new)) }
    ensures write { IsErrOf result Write → IfSome (D.content disk.old area) (λ c. AppendsFront (W.written out.old) (W.written out.new) (take len c)) }
    ensures disk { IsErrOf result Disk → (count : ℕ) × (count ≤ len) × HasCopied (D.content disk.old area) count (W.written out.old) (W.written out.new) }
    ensures looks { IsLookedAt D.content D.may_leave D.moment D.left_since disk.old disk.new }
    ensures cause { HasCopyCause (D.faults disk.old) (D.faults disk.new) (W.faults out.old) (W.faults out.new) result }
{
    let mut at = 0;
    'pieces: while at < len {
        let count = (len - at).min(piece.len() as u64) as usize;
        match copy_piece(disk, area, at, &mut piece[..count], out) {
            Ok(()) => at += count as u64,
            Err(fault) => return Err(fault),
        }
    }
    Ok(())
}

/// Writes the first bytes of the area, so many, in pieces of a fixed size.
pub(crate) fn copy_front<D: Disk, W: Sink>(
    disk: &mut D,
    area: Area,
    len: u64,
    out: &mut W,
) -> Result<(), CopyFault>
    requires within { IfSome (D.content disk.old area) (λ c. len ≤ length c) }
    ensures copied { OnOk result (HasCopied (D.content disk.old area) len (W.written out.old) (W.written out.new)) }
    ensures write { IsErrOf result Write → IfSome (D.content disk.old area) (λ c. AppendsFront (W.written out.old) (W.written out.new) (take len c)) }
    ensures disk { IsErrOf result Disk → (count : ℕ) × (count ≤ len) × HasCopied (D.content disk.old area) count (W.written out.old) (W.written out.new) }
    ensures looks { IsLookedAt D.content D.may_leave D.moment D.left_since disk.old disk.new }
    ensures cause { HasCopyCause (D.faults disk.old) (D.faults disk.new) (W.faults out.old) (W.faults out.new) result }
{
    let mut piece = [0; PIECE];
    copy_by(disk, area, len, &mut piece, out)
}
