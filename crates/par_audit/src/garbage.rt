//! The count of garbage.
ghost use Rattle.std.specs.Prelude.{◌≡◌, ◌≤◌, cond, count_by};
ghost use Rattle.std.specs.List.{range_with_len};
ghost use Rattle.par_audit.specs.Marks.{is_marked};

use crate::marks::has_mark;

/// One if so, else none.
#[inline(always)]
fn one_if(so: bool) -> u32
    ensures value { result ≡ cond so 1 0 }
    ensures few { result ≤ 1 }
{
    if so { 1 } else { 0 }
}

/// How many of so many ids, from 1 on, are marked as those of objects that the root doesn't reach.
pub fn garbage_in(unreached: &[u64], ids: u32) -> u32
    ensures { result ≡ count_by (is_marked unreached.now) (range_with_len 1 ids) }
{
    let mut count = 0;
    for i in 0..ids {
        count += one_if(has_mark(unreached, i + 1));
    }
    count
}
