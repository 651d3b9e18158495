//! A record as a printed line.
ghost use Rattle.std.specs.Prelude.{◌≡◌, ◌+◌, ◌<◌, ◌≤◌, ◌++◌, [], ◌∷◌, codes, length, decimal};
ghost use Rattle.arrayvec.specs.ArrayString.{array_string_len};
ghost use Rattle.plain_model.specs.Text.{numbers};
ghost use Rattle.cell_page.specs.Format.{flag};
ghost use Rattle.log_printing.specs.Text.{name_of, fields_of, record_text, line_at};

use arrayvec::ArrayString;
use itoa::Buffer;
use log_record::{CellRecord, Record};

/// How many bytes a line is given room for. The longest has fewer.
pub const LINE_ROOM: usize = 208;

/// Appends a blank and the digits of a number.
fn push_field(line: &mut ArrayString<LINE_ROOM>, number: u64)
    requires { array_string_len line.old + 21 ≤ LINE_ROOM }
    ensures text { line.new.bytes ≡ line.old.bytes ++ 32 ∷ decimal number }
    ensures short { array_string_len line.new ≤ array_string_len line.old + 21 }
{
    let mut digits = Buffer::new();
    line.push_str(" ");
    line.push_str(digits.format(number));
}

/// Appends a blank and 1 or 0.
fn push_flag(line: &mut ArrayString<LINE_ROOM>, is: bool)
    requires { array_string_len line.old + 21 ≤ LINE_ROOM }
    ensures text { line.new.bytes ≡ line.old.bytes ++ 32 ∷ decimal (flag is) }
    ensures short { array_string_len line.new ≤ array_string_len line.old + 21 }
{
    let number = if is { 1 } else { 0 };
    push_field(line, number);
}

/// Appends the numbers of a client and of an object, each after a blank.
fn push_object(line: &mut ArrayString<LINE_ROOM>, pass: u8, id: u32)
    requires { array_string_len line.old + 42 ≤ LINE_ROOM }
    ensures text { line.new.bytes ≡ line.old.bytes ++ 32 ∷ decimal pass ++ 32 ∷ decimal id }
    ensures short { array_string_len line.new ≤ array_string_len line.old + 42 }
{
    push_field(line, u64::from(pass));
    push_field(line, u64::from(id));
}

/// Appends a target, or a value, and the truth value that belongs to it, each after a blank.
fn push_side(line: &mut ArrayString<LINE_ROOM>, side: u64, is: bool)
    requires { array_string_len line.old + 42 ≤ LINE_ROOM }
    ensures text { line.new.bytes ≡ line.old.bytes ++ 32 ∷ decimal side ++ 32 ∷ decimal (flag is) }
    ensures short { array_string_len line.new ≤ array_string_len line.old + 42 }
{
    push_field(line, side);
    push_flag(line, is);
}

/// Appends a blank and the name of a record of single cells.
fn push_name(line: &mut ArrayString<LINE_ROOM>, rec: &CellRecord)
    requires { array_string_len line.old + 11 ≤ LINE_ROOM }
    ensures text { line.new.bytes ≡ line.old.bytes ++ 32 ∷ name_of rec.now }
    ensures short { array_string_len line.new ≤ array_string_len line.old + 11 }
{
    match rec {
        CellRecord::Begin { .. } => line.push_str(" Begin"),
        CellRecord::Make { .. } => line.push_str(" Make"),
        CellRecord::Store { .. } => line.push_str(" Store"),
        CellRecord::Pay { .. } => line.push_str(" Pay"),
        CellRecord::Commit { .. } => line.push_str(" Commit"),
        CellRecord::Undo { .. } => line.push_str(" Undo"),
        CellRecord::AbortEnd { .. } => line.push_str(" AbortEnd"),
        CellRecord::Weaken { .. } => line.push_str(" Weaken"),
        CellRecord::Strengthen { .. } => line.push_str(" Strengthen"),
        CellRecord::Flip { .. } => line.push_str(" Flip"),
        CellRecord::CutDead { .. } => line.push_str(" CutDead"),
        CellRecord::Free { .. } => line.push_str(" Free"),
    }
}

/// Appends the fields of a record of single cells, each after a blank.
fn push_fields(line: &mut ArrayString<LINE_ROOM>, rec: &CellRecord)
    requires { array_string_len line.old + 168 ≤ LINE_ROOM }
    ensures text { line.new.bytes ≡ line.old.bytes ++ numbers (fields_of rec.now) }
    ensures short { array_string_len line.new ≤ array_string_len line.old + 168 }
{
    match *rec {
        CellRecord::Begin { pass } | CellRecord::Commit { pass } | CellRecord::AbortEnd { pass } =>
            push_field(line, u64::from(pass)),
        CellRecord::Make { pass, id } => push_object(line, pass, id),
        CellRecord::Store {
            pass,
            id,
            slot,
            old_target,
            old_strong,
            new_target,
            new_bit,
            new_strong,
        } => {
            push_object(line, pass, id);
            push_field(line, u64::from(slot));
            push_side(line, u64::from(old_target), old_strong);
            push_side(line, u64::from(new_target), new_bit);
            push_flag(line, new_strong);
        }
        CellRecord::Pay {
            pass,
            id,
            old_value,
            new_value,
        } => {
            push_object(line, pass, id);
            push_field(line, old_value);
            push_field(line, new_value);
        }
        CellRecord::Undo {
            pass,
            place,
            from_strong,
            to_bit,
            id,
            from,
            to,
        } => {
            push_object(line, pass, id);
            push_field(line, u64::from(place));
            push_side(line, from, from_strong);
            push_side(line, to, to_bit);
        }
        CellRecord::Weaken { id, slot, target } | CellRecord::Strengthen { id, slot, target } => {
            push_field(line, u64::from(id));
            push_field(line, u64::from(slot));
            push_field(line, u64::from(target));
        }
        CellRecord::CutDead {
            id,
            slot,
            target,
            was_strong,
        } => {
            push_field(line, u64::from(id));
            push_field(line, u64::from(slot));
            push_field(line, u64::from(target));
            push_flag(line, was_strong);
        }
        CellRecord::Flip { id } | CellRecord::Free { id } => push_field(line, u64::from(id)),
    }
}

/// Appends a blank, and the name and the fields of a record.
fn push_record<const SLOTS: usize>(line: &mut ArrayString<LINE_ROOM>, rec: &Record<SLOTS>)
    requires { array_string_len line.old + 179 ≤ LINE_ROOM }
    ensures text { line.new.bytes ≡ line.old.bytes ++ 32 ∷ record_text rec.now }
    ensures short { array_string_len line.new ≤ array_string_len line.old + 179 }
{
    match rec {
        Record::OfCells(cells) => {
            push_name(line, cells);
            push_fields(line, cells);
        }
        Record::Image { page, .. } => {
            line.push_str(" Image");
            push_field(line, u64::from(*page));
        }
        Record::Turn { version, pages } => {
            line.push_str(" Turn");
            push_field(line, u64::from(*version));
            push_field(line, u64::from(*pages));
        }
    }
}

/// The line of a record that stands at this offset of the log area, with its line feed. It takes no memory.
pub fn record_line<const SLOTS: usize>(at: u64, rec: &Record<SLOTS>) -> ArrayString<LINE_ROOM>
    ensures { result.bytes ≡ line_at at rec.now }
{
    let mut line = ArrayString::new();
    let mut digits = Buffer::new();
    line.push_str(digits.format(at));
    push_record(&mut line, rec);
    line.push_str("\n");
    line
}
