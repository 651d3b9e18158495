//! The least difference of two graphs.
ghost use Rattle.std.specs.Prelude.{IfOk};
ghost use Rattle.log_checker.specs.Differences.{IsDifference};

use crate::id_lists::least_apart;
use plain_model::{Graph, Memory, reach};
use std::alloc::Global;

/// The id of the root.
const ROOT: u32 = 1;

/// The least id that the root of one graph reaches and that of the other doesn't, or that both reach and whose objects differ.
/// `None` exactly where both roots reach the same ids and the graphs have the same objects there. Out of memory is its only error.
pub(crate) fn least_difference(
    alloc: Global,
    one: &Graph,
    other: &Graph,
) -> Result<Option<u32>, Memory>
    ensures { IfOk result (IsDifference one.now other.now) }
{
    let left = reach(alloc, one, &[ROOT])?;
    let right = reach(alloc, other, &[ROOT])?;
    Ok(least_apart(left.items(), right.items(), one.items(), other.items()))
}
