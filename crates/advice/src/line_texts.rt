//! A line of a script as a terminal shows it, with a mark under a field.
use crate::line_faults::next_field;
use arrayvec::ArrayString;

/// How many characters of a line are shown at most.
const ROOM: usize = 160;

/// A text of one line.
pub(crate) type Text = ArrayString<ROOM>;

/// The bytes as text: what is no printable character of ASCII is shown as a space or a question mark.
pub(crate) fn shown(line: &[u8]) -> Text {
    let mut text = ArrayString::new();
    for byte in line {
        let shown = match *byte {
            b'\t' => ' ',
            b' '..=b'~' => char::from(*byte),
            _ => '?',
        };
        let _ = text.try_push(shown);
    }
    text
}

/// What is left of a line after its first fields, so many, or after all where it has fewer.
fn behind_fields(line: &[u8], count: usize) -> &[u8] {
    let mut rest = line;
    for _ in 0..count {
        match next_field(rest) {
            Some((_, behind)) => rest = behind,
            None => return rest,
        }
    }
    rest
}

/// Where the field of this index stands, counted from 0, and how long it is. Where the line has no such field, that is after its
/// last one.
fn place_of(line: &[u8], index: usize) -> (usize, usize) {
    let rest = behind_fields(line, index);
    let start = line.len().saturating_sub(rest.len());
    match next_field(rest) {
        Some((field, behind)) => {
            let blanks = rest.len() - behind.len() - field.len();
            (start.saturating_add(blanks), field.len())
        }
        None => (start.saturating_add(1), 1),
    }
}

/// Spaces, and marks under the field of this index.
pub(crate) fn marks(line: &[u8], index: usize) -> Text {
    let (start, count) = place_of(line, index);
    let mut text = ArrayString::new();
    for _ in 0..start {
        let _ = text.try_push(' ');
    }
    for _ in 0..count {
        let _ = text.try_push('^');
    }
    text
}
