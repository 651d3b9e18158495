//! The batches of a log area.
ghost use Rattle.std.specs.Prelude.{◌≡◌, ◌+◌, ◌<◌, ◌≤◌, ◌++◌, ℕ, List, length, None, IfOk, IfErr, IfSome, IfNone, OnOk, take};
ghost use Rattle.std.specs.Int.{w32, to_be_bytes};
ghost use Rattle.gate_log.specs.Batches.{sized, IsBody, most_bytes};
ghost use Rattle.gate_log.specs.CommitBytes.{IsBatchAt, IsClosedAt, IsDamaged};

/// A log area has no more bytes.
const MOST: usize = 1 << 30;

/// How many bytes the length of a body takes.
const LENGTH: usize = 4;

/// An open commit byte.
const OPEN: u8 = 1;

/// The length that stands in front of these bytes.
pub(crate) fn size_in(bytes: &[u8]) -> u32
    requires { 4 ≤ length bytes.now }
    ensures { to_be_bytes w32 result ≡ take 4 bytes.now }
{
    u32::from_be_bytes([bytes[0], bytes[1], bytes[2], bytes[3]])
}

/// The body whose length stands in front of these bytes, where both are whole.
fn sized_body(bytes: &[u8]) -> Option<&[u8]>
    ensures some { IfSome result (λ body. IsBody body.now × (rest : List ℕ) × (bytes.now ≡ sized body.now ++ rest)) }
    ensures none { IfNone result ((body rest : List ℕ) → IsBody body → bytes.now ≡ sized body ++ rest → ⊥) }
{
    if bytes.len() < LENGTH {
        return None;
    }
    let size = size_in(bytes) as usize;
    if size == 0 || bytes.len() - LENGTH < size {
        return None;
    }
    Some(&bytes[LENGTH..LENGTH + size])
}

/// The body of the batch at this offset of the area, or nothing where a closed commit byte stands there, which isn't the first one.
/// Else the area is damaged, and this is the place.
pub(crate) fn body_at(area: &[u8], at: usize) -> Result<Option<&[u8]>, u64>
    requires { at ≤ length area.now }
    ensures batch { IfOk result (λ read. IfSome read (λ body. IsBatchAt at body.now area.now)) }
    ensures within { IfOk result (λ read. IfSome read (λ body. at + 5 + length body.now ≤ length area.now)) }
    ensures closed { IfOk result (λ read. read ≡ None → (0 < at) × IsClosedAt at area.now) }
    ensures short { OnOk result (length area.now ≤ most_bytes) }
    ensures damaged { IfErr result (λ place. IsDamaged at place area.now) }
{
    if area.len() > MOST {
        return Err(MOST as u64);
    }
    if area.len() == at {
        return Err(at as u64);
    }
    if area[at] != OPEN {
        return if at == 0 { Err(0) } else { Ok(None) };
    }
    match sized_body(&area[at + 1..]) {
        Some(body) => Ok(Some(body)),
        None => Err(at as u64),
    }
}
