//! Which field of a line is wrong. The grammar itself is asked, with beginnings of the line that examples bring to an end.
ghost use Rattle.std.specs.Prelude.{◌≤◌, ◌+◌, IfSome, length};

use crate::line_shapes::{Expected, MOST_FIELDS, SHAPES, Shape};
use arrayvec::ArrayVec;
use script_lines::accepted;

/// How many bytes a line has room for that is tried.
const ROOM: usize = 192;

/// As many ids as a store has at most, so that each page is there.
const MOST_IDS: u32 = 8192;

/// The first field of a line that is wrong.
#[derive(Clone, Copy)]
pub struct Fault {
    /// Which one, counted from 0. It may be the one that is missing.
    pub index: usize,
    /// What is expected there.
    pub expected: Expected,
}

fn is_blank(byte: u8) -> bool {
    byte == b' ' || byte == b'\t'
}

/// The first field, and the bytes after it.
pub(crate) fn next_field(bytes: &[u8]) -> Option<(&[u8], &[u8])>
    ensures { IfSome result (λ p. length p.0.now + length p.1.now ≤ length bytes.now) }
{
    let start = bytes.iter().position(|b| !is_blank(*b))?;
    let field = &bytes[start..];
    match field.iter().position(|b| is_blank(*b)) {
        Some(end) => Some((&field[..end], &field[end..])),
        None => Some((field, &field[field.len()..])),
    }
}

/// How many fields there are, as far as a line of the grammar has them, and one more.
fn fields_in(line: &[u8]) -> usize
    ensures { result ≤ 6 }
{
    let mut rest = line;
    for count in 0..MOST_FIELDS + 1 {
        match next_field(rest) {
            Some((_, behind)) => rest = behind,
            None => return count,
        }
    }
    MOST_FIELDS + 1
}

/// Adds a field, where there is room.
fn add_field(tried: &mut ArrayVec<u8, ROOM>, field: &[u8]) -> Option<()> {
    for byte in field {
        tried.try_push(*byte).ok()?;
    }
    tried.try_push(b' ').ok()
}

/// Adds the fields of the line from the one number to the other, as far as it has them.
fn add_fields(tried: &mut ArrayVec<u8, ROOM>, line: &[u8], from: usize, to: usize) -> Option<()> {
    let mut rest = line;
    for index in 0..to {
        let Some((field, behind)) = next_field(rest) else {
            return Some(());
        };
        if index >= from {
            add_field(tried, field)?;
        }
        rest = behind;
    }
    Some(())
}

/// Whether the first fields of the line, so many, go on to a line of the grammar with those of the shape after them.
fn fits(line: &[u8], count: usize, shape: &Shape) -> bool {
    let mut tried = ArrayVec::new();
    match add_fields(&mut tried, line, 0, count) {
        Some(()) => {}
        None => return false,
    }
    match add_fields(&mut tried, shape.line.as_bytes(), count, MOST_FIELDS) {
        Some(()) => accepted(MOST_IDS, 1, tried.as_slice()).is_some(),
        None => false,
    }
}

/// What is expected after the first fields of the line, so many, where they are the beginning of a line of the grammar.
fn expected_behind(line: &[u8], count: usize) -> Option<Expected> {
    for shape in &SHAPES {
        if fits(line, count, shape) {
            return Some(match shape.fields.get(count) {
                Some(expected) => *expected,
                None => Expected::Nothing,
            });
        }
    }
    None
}

/// The first field of a line that is wrong, where the grammar doesn't accept the line. What stands before it is the beginning of a
/// line of the grammar, and with it that is no longer so.
pub fn fault_in(line: &[u8]) -> Option<Fault> {
    if accepted(MOST_IDS, 1, line).is_some() {
        return None;
    }
    let count = fields_in(line);
    for left in 0..count + 1 {
        let index = count - left;
        if let Some(expected) = expected_behind(line, index) {
            return Some(Fault { index, expected });
        }
    }
    None
}
