//! Printed lines.
ghost use Rattle.std.specs.Prelude.{◌≡◌, ◌+◌, ◌≤◌, ◌++◌, length, IfOk, OnOk, string_bytes, decimal};
ghost use Rattle.arrayvec.specs.ArrayString.{array_string_len};
ghost use Rattle.map_calls.specs.Output.{put_line, put_full_line, found_line, deleted_line, pair_text, list_line, reopened_line, keys_line, no_map_line, value_text};

use arrayvec::ArrayString;
use itoa::Buffer;
use plain_model::Memory;
use std::alloc::Global;

/// The bytes that the longest printed line takes but for that of `list`.
pub const LINE_ROOM: usize = 64;

/// Appends the number's decimal digits.
fn push_number(line: &mut ArrayString<LINE_ROOM>, number: u64)
    requires { array_string_len line.old + 20 ≤ 64 }
    ensures text { line.new.bytes ≡ line.old.bytes ++ decimal number }
    ensures short { array_string_len line.new ≤ array_string_len line.old + 20 }
{
    let mut digits = Buffer::new();
    line.push_str(digits.format(number));
}

/// Appends the value, or the word for none.
fn push_value(line: &mut ArrayString<LINE_ROOM>, none: &str, value: Option<u64>)
    requires room { array_string_len line.old + 20 ≤ 64 }
    requires word { length none.now ≤ 20 }
    ensures text { line.new.bytes ≡ line.old.bytes ++ value_text none.now value }
    ensures short { array_string_len line.new ≤ array_string_len line.old + 20 }
{
    match value {
        Some(value) => push_number(line, value),
        None => line.push_str(none),
    }
}

/// The line of a `put`, by the value that the key had. It takes no memory.
pub fn put_line(old: Option<u64>) -> ArrayString<LINE_ROOM>
    ensures { result.bytes ≡ put_line old }
{
    let mut line = ArrayString::new();
    line.push_str("put: ");
    push_value(&mut line, "new", old);
    line.push_str("\n");
    line
}

/// The line of a `put` for which no room is left. It takes no memory.
pub fn put_full_line() -> ArrayString<LINE_ROOM>
    ensures { result.bytes ≡ put_full_line }
{
    let mut line = ArrayString::new();
    line.push_str("put: full\n");
    line
}

/// The line of a `get`, by the key's value. It takes no memory.
pub fn found_line(value: Option<u64>) -> ArrayString<LINE_ROOM>
    ensures { result.bytes ≡ found_line value }
{
    let mut line = ArrayString::new();
    line.push_str("get: ");
    push_value(&mut line, "none", value);
    line.push_str("\n");
    line
}

/// The line of a `del`, by the value that the key had. It takes no memory.
pub fn deleted_line(old: Option<u64>) -> ArrayString<LINE_ROOM>
    ensures { result.bytes ≡ deleted_line old }
{
    let mut line = ArrayString::new();
    line.push_str("del: ");
    push_value(&mut line, "none", old);
    line.push_str("\n");
    line
}

/// The line of a crash, after which the map has so many keys. It takes no memory.
pub fn reopened_line(keys: u64) -> ArrayString<LINE_ROOM>
    ensures { result.bytes ≡ reopened_line keys }
{
    let mut line = ArrayString::new();
    line.push_str("crash: keys ");
    push_number(&mut line, keys);
    line.push_str("\n");
    line
}

/// The last line: how many keys the map has. It takes no memory.
pub fn keys_line(keys: u64) -> ArrayString<LINE_ROOM>
    ensures { result.bytes ≡ keys_line keys }
{
    let mut line = ArrayString::new();
    line.push_str("keys ");
    push_number(&mut line, keys);
    line.push_str("\n");
    line
}

/// The last line where the store keeps no map, since this object breaks it. It takes no memory.
pub fn no_map_line(id: u32) -> ArrayString<LINE_ROOM>
    ensures { result.bytes ≡ no_map_line id }
{
    let mut line = ArrayString::new();
    line.push_str("refused: object ");
    push_number(&mut line, u64::from(id));
    line.push_str(" map\n");
    line
}

/// Appends a blank, the key, an equals sign and the value.
fn push_pair(line: &mut String, key: u64, value: u64) -> Result<(), Memory>
    ensures { OnOk result (string_bytes line.new ≡ string_bytes line.old ++ pair_text (key, value)) }
{
    let mut digits = Buffer::new();
    line.push_str(" ")?;
    line.push_str(digits.format(key))?;
    line.push_str("=")?;
    line.push_str(digits.format(value))?;
    Ok(())
}

/// The line of a `list`: each key with its value, in this order.
pub fn list_line(alloc: Global, pairs: &[(u64, u64)]) -> Result<String, Memory>
    ensures { IfOk result (λ line. string_bytes line ≡ list_line pairs.now) }
{
    let mut line = String::from_str(alloc, "list:")?;
    for pair in pairs {
        push_pair(&mut line, pair.0, pair.1)?;
    }
    line.push_str("\n")?;
    Ok(line)
}
