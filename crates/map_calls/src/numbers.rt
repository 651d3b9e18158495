//! What a field spells.
ghost use Rattle.std.specs.Prelude.{◌≡◌};
ghost use Rattle.script_lines.specs.Numbers.{payload_of, pick_of};

use script_lines::seed_of;

/// The number below 2^64 that a field spells: a key or a value.
pub(crate) fn payload_of(field: &[u8]) -> Option<u64>
    ensures { result ≡ payload_of field.now }
{
    seed_of(field)
}

/// The pick that a field names: below 2^32.
pub(crate) fn pick_of(field: &[u8]) -> Option<u32>
    ensures { result ≡ pick_of field.now }
{
    let number = payload_of(field)?;
    if number > 4_294_967_295 {
        return None;
    }
    Some(number as u32)
}
