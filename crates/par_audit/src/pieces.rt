//! Pieces of a list, of one size.
ghost use Rattle.std.specs.Prelude.{◌≡◌, ◌<◌, ◌*◌, ℕ};
ghost use Rattle.par_audit.specs.Pieces.{piece_at};

/// The piece of this number, from 0: so many items, or what is left of them.
pub(crate) fn piece_at<T>(items: &[T], number: usize, size: usize) -> &[T]
    requires { number * size < 18446744073709551616 }
    ensures { result.now ≡ piece_at size items.now number }
{
    let start = (number * size).min(items.len());
    let rest = &items[start..];
    &rest[..size.min(rest.len())]
}
