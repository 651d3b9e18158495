//! The verbs of a script.
ghost use Rattle.std.specs.Prelude.{◌≡◌, [], ◌∷◌, MatchOption};
ghost use Rattle.script_lines.specs.Fields.{fields_of};
ghost use Rattle.script_lines.specs.Grammar.{verb_of};

use crate::fields::next_field;

/// What a client's line is for.
#[derive(Clone, Copy, PartialEq, Eq, Debug)]
pub(crate) enum Verb {
    Begin,
    Read,
    Make,
    Store,
    Get,
    Set,
    Release,
    Commit,
    Abort,
    Undo,
}

/// The verb that a field spells.
#[inline(always)]
pub(crate) fn verb_of(field: &[u8]) -> Option<Verb>
    ensures { result ≡ verb_of field.now }
{
    match field {
        b"begin" => Some(Verb::Begin),
        b"read" => Some(Verb::Read),
        b"make" => Some(Verb::Make),
        b"store" => Some(Verb::Store),
        b"get" => Some(Verb::Get),
        b"set" => Some(Verb::Set),
        b"release" => Some(Verb::Release),
        b"commit" => Some(Verb::Commit),
        b"abort" => Some(Verb::Abort),
        b"undo" => Some(Verb::Undo),
        _ => None,
    }
}

/// The first field, the verb that it spells, and bytes after it that hold the other fields. It is quick where a common verb
/// stands in front, before one space or the end.
#[inline(always)]
pub(crate) fn next_verb(bytes: &[u8]) -> Option<(&[u8], Option<Verb>, &[u8])>
    ensures { MatchOption result (fields_of bytes.now ≡ [])
        (λ p. (fields_of bytes.now ≡ p.0.now ∷ fields_of p.2.now) × (p.1 ≡ verb_of p.0.now)) }
{
    match bytes {
        [b's', b'e', b't', b' ', rest @ ..] => Some((&bytes[..3], Some(Verb::Set), rest)),
        [b'g', b'e', b't', b' ', rest @ ..] => Some((&bytes[..3], Some(Verb::Get), rest)),
        [b'm', b'a', b'k', b'e', b' ', rest @ ..] => Some((&bytes[..4], Some(Verb::Make), rest)),
        [b'r', b'e', b'a', b'd', b' ', rest @ ..] => Some((&bytes[..4], Some(Verb::Read), rest)),
        [b's', b't', b'o', b'r', b'e', b' ', rest @ ..] => {
            Some((&bytes[..5], Some(Verb::Store), rest))
        }
        [b'b', b'e', b'g', b'i', b'n'] => Some((bytes, Some(Verb::Begin), &bytes[5..])),
        [b'c', b'o', b'm', b'm', b'i', b't'] => Some((bytes, Some(Verb::Commit), &bytes[6..])),
        _ => {
            let (field, rest) = next_field(bytes)?;
            Some((field, verb_of(field), rest))
        }
    }
}
