//! The fields of a line.
ghost use Rattle.std.specs.Prelude.{◌≡◌, ◌<◌, [], ◌∷◌, not, MatchOption, position, length};
ghost use Rattle.script_lines.specs.Fields.{is_blank, fields_of};
ghost use Rattle.map_calls.specs.Operands.{listed};

/// The fields after the first one.
#[derive(Clone, Copy)]
pub(crate) enum Operands<'a> {
    Nil,
    One(&'a [u8]),
    Two(&'a [u8], &'a [u8]),
}

fn is_blank(byte: u8) -> bool
    ensures { result ≡ is_blank byte }
{
    byte == b' ' || byte == b'\t'
}

/// Where the first field begins.
fn field_start(bytes: &[u8]) -> Option<usize>
    ensures { result ≡ position (λ b. not (is_blank b)) bytes.now }
{
    bytes.iter().position(|b| !is_blank(*b))
}

/// Where the first blank is.
fn blank_start(bytes: &[u8]) -> Option<usize>
    ensures { result ≡ position is_blank bytes.now }
{
    bytes.iter().position(|b| is_blank(*b))
}

/// The first field, and bytes after it that hold the other fields.
pub(crate) fn next_field(bytes: &[u8]) -> Option<(&[u8], &[u8])>
    ensures { MatchOption result (fields_of bytes.now ≡ [])
        (λ p. fields_of bytes.now ≡ p.0.now ∷ fields_of p.1.now) }
{
    let Some(start) = field_start(bytes) else {
        return None;
    };
    let field = &bytes[start..];
    match blank_start(field) {
        Some(end) => Some((&field[..end], &field[end + 1..])),
        None => Some((field, &field[field.len()..])),
    }
}

/// All fields of the bytes, where there are at most two.
pub(crate) fn operands_of(bytes: &[u8]) -> Option<Operands<'_>>
    ensures { MatchOption result (2 < length (fields_of bytes.now))
        (λ o. fields_of bytes.now ≡ listed o) }
{
    let Some((first, rest)) = next_field(bytes) else {
        return Some(Operands::Nil);
    };
    let Some((second, rest)) = next_field(rest) else {
        return Some(Operands::One(first));
    };
    match next_field(rest) {
        None => Some(Operands::Two(first, second)),
        Some(_) => None,
    }
}
