//! Numbers in bytes, the high byte first.

ghost use Rattle.std.specs.Prelude.{◌≡◌, ◌+◌, ◌-◌, ◌≤◌, ◌<◌, ◌++◌, ◌∷◌, [], length, take, replicate};
ghost use Rattle.std.specs.Int.{w16, w32, w64, to_be_bytes};
ghost use Rattle.cell_page.specs.Fields.{number_at};

/// The number of two bytes at an offset.
#[tactic(auto, unfolding(crate::specs::Fields::number_at))]
pub(crate) fn u16_at(bytes: &[u8], at: usize) -> u16
    requires { at + 2 ≤ length bytes.now }
    ensures { result ≡ number_at w16 bytes.now at }
{
    u16::from_be_bytes([bytes[at], bytes[at + 1]])
}

/// The number of four bytes at an offset.
#[tactic(auto, unfolding(crate::specs::Fields::number_at))]
pub(crate) fn u32_at(bytes: &[u8], at: usize) -> u32
    requires { at + 4 ≤ length bytes.now }
    ensures { result ≡ number_at w32 bytes.now at }
{
    u32::from_be_bytes([bytes[at], bytes[at + 1], bytes[at + 2], bytes[at + 3]])
}

/// The number of eight bytes at an offset.
#[tactic(auto, unfolding(crate::specs::Fields::number_at))]
pub(crate) fn u64_at(bytes: &[u8], at: usize) -> u64
    requires { at + 8 ≤ length bytes.now }
    ensures { result ≡ number_at w64 bytes.now at }
{
    u64::from_be_bytes([
        bytes[at],
        bytes[at + 1],
        bytes[at + 2],
        bytes[at + 3],
        bytes[at + 4],
        bytes[at + 5],
        bytes[at + 6],
        bytes[at + 7],
    ])
}

/// Writes a piece at an offset, and keeps what stands before it.
fn put(into: &mut [u8], at: usize, piece: &[u8])
    requires { at + length piece.now ≤ length into.old }
    ensures { take (at + length piece.now) into.new ≡ take at into.old ++ piece.now }
{
    let end = at + piece.len();
    into[at..end].copy_from_slice(piece);
}

/// Writes a byte at an offset.
pub(crate) fn put_u8(into: &mut [u8], at: usize, byte: u8)
    requires { at < length into.old }
    ensures { take (at + 1) into.new ≡ take at into.old ++ byte ∷ [] }
{
    into[at] = byte;
}

/// Writes a number of two bytes at an offset.
pub(crate) fn put_u16(into: &mut [u8], at: usize, number: u16)
    requires { at + 2 ≤ length into.old }
    ensures { take (at + 2) into.new ≡ take at into.old ++ to_be_bytes w16 number }
{
    put(into, at, &number.to_be_bytes());
}

/// Writes a number of four bytes at an offset.
pub(crate) fn put_u32(into: &mut [u8], at: usize, number: u32)
    requires { at + 4 ≤ length into.old }
    ensures { take (at + 4) into.new ≡ take at into.old ++ to_be_bytes w32 number }
{
    put(into, at, &number.to_be_bytes());
}

/// Writes a number of eight bytes at an offset.
pub(crate) fn put_u64(into: &mut [u8], at: usize, number: u64)
    requires { at + 8 ≤ length into.old }
    ensures { take (at + 8) into.new ≡ take at into.old ++ to_be_bytes w64 number }
{
    put(into, at, &number.to_be_bytes());
}

/// Writes zero bytes from an offset to the end.
pub(crate) fn put_zeros(into: &mut [u8], at: usize)
    requires { at ≤ length into.old }
    ensures { into.new ≡ take at into.old ++ replicate (length into.old - at) 0 }
{
    into[at..].fill(0);
}
