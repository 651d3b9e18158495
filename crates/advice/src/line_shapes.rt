//! The shapes of a script's lines, as examples that the grammar accepts.

/// What is expected at a place of a line.
#[derive(Clone, Copy)]
pub enum Expected {
    /// A client's number, or one of the words `gc`, `clean`, `turn`, `crash`.
    Party,
    /// What a client does.
    Verb,
    /// A register's number.
    Register,
    /// A slot's number.
    Slot,
    /// A register's number, or `-`.
    Source,
    /// A number below 2^64.
    Payload,
    /// A page of the store.
    Page,
    /// A number below 2^32.
    Pick,
    /// `step` or `all`.
    Steps,
    /// The end of the line.
    Nothing,
}

/// How many fields a line has at most.
pub(crate) const MOST_FIELDS: usize = 5;

/// A line that the grammar accepts, and what each of its fields is.
pub(crate) struct Shape {
    pub(crate) line: &'static str,
    pub(crate) fields: [Expected; MOST_FIELDS],
}

/// The shape whose client has this verb, and these fields after it.
macro_rules! client_shape {
    ($line:literal, $first:ident, $second:ident, $third:ident) => {
        Shape {
            line: $line,
            fields: [
                Expected::Party,
                Expected::Verb,
                Expected::$first,
                Expected::$second,
                Expected::$third,
            ],
        }
    };
}

/// The shape of a line without a client.
macro_rules! lone_shape {
    ($line:literal, $second:ident) => {
        Shape {
            line: $line,
            fields: [
                Expected::Party,
                Expected::$second,
                Expected::Nothing,
                Expected::Nothing,
                Expected::Nothing,
            ],
        }
    };
}

/// One shape for each line of the grammar. Of two whose lines may begin alike, the one stands first whose last field the other
/// one's line can't have: so the first shape that a beginning fits is its own.
pub(crate) static SHAPES: [Shape; 15] = [
    client_shape!("1 store 0 0 -", Register, Slot, Source),
    client_shape!("1 read 0 0 0", Register, Slot, Register),
    client_shape!("1 set 0 18446744073709551615", Register, Payload, Nothing),
    client_shape!("1 make 0", Register, Nothing, Nothing),
    client_shape!("1 get 0", Register, Nothing, Nothing),
    client_shape!("1 release 0", Register, Nothing, Nothing),
    client_shape!("1 begin", Nothing, Nothing, Nothing),
    client_shape!("1 commit", Nothing, Nothing, Nothing),
    client_shape!("1 abort", Nothing, Nothing, Nothing),
    client_shape!("1 undo", Nothing, Nothing, Nothing),
    lone_shape!("gc step", Steps),
    lone_shape!("gc all", Steps),
    lone_shape!("crash 4294967295", Pick),
    lone_shape!("clean 0", Page),
    lone_shape!("turn", Nothing),
];
