//! The disk calls that lengthen an area.
ghost use Rattle.std.specs.Prelude.{◌≡◌, ◌+◌, ◌≤◌, ◌^◌, ◌++◌, ℕ, List, Some, length, option_map, OnOk, IfSome};
ghost use Rattle.disk_model.specs.Causes.{HasCause};
ghost use Rattle.disk_model.specs.Told.{KeepsAll, KeepsOthers, IsSettled, Leaves, IsImageBut};
ghost use Rattle.disk_model.specs.Time.{LeavesOnlyImages};
ghost use Rattle.disk_model.specs.declared.area.Area.TheVariants.{Pages};
ghost use Rattle.opened_store.specs.Lengths.{Extends, lengthened, HasLengthCause};

use disk_model::{Area, Disk, DiskFailed};
use std::alloc::Global;

/// Why the area isn't lengthened.
#[derive(Clone, Copy, Debug, PartialEq, Eq)]
pub(crate) enum LengthRefusal {
    /// The disk failed a call. Its count of faults rose.
    Disk,
    /// Out of memory.
    Memory,
}

/// Writes these bytes at the end of the pages area, which has so many, and makes them last.
///
/// At each moment a power loss leaves the bytes from before, and any after them.
fn write_behind<D: Disk>(disk: &mut D, len: u64, bytes: &[u8]) -> Result<(), DiskFailed>
    requires len { IfSome (D.content disk.old Pages) (λ c. len ≡ length c) }
    ensures left { (c : List ℕ) → IsSettled D.content D.may_leave disk.old Pages → D.content disk.old Pages ≡ Some c → Leaves D.may_leave disk.new Pages (Extends c) }
    ensures moments { (c : List ℕ) → IsSettled D.content D.may_leave disk.old Pages → D.content disk.old Pages ≡ Some c
        → LeavesOnlyImages D.moment D.left_since disk.old disk.new (IsImageBut D.may_leave disk.old Pages (Extends c)) }
    ensures longer { OnOk result (IfSome (D.content disk.new Pages) (λ c. length c ≡ len + length bytes.now)) }
    ensures bytes { OnOk result (D.content disk.new Pages ≡ option_map (λ c. c ++ bytes.now) (D.content disk.old Pages)) }
    ensures settled { OnOk result (IsSettled D.content D.may_leave disk.new Pages) }
    ensures keeps { KeepsOthers D.content D.may_leave disk.old disk.new Pages }
    ensures cause { HasCause (D.faults disk.old) (D.faults disk.new) result }
{
    disk.write_at(Area::Pages, len, bytes)?;
    disk.sync(Area::Pages)?;
    Ok(())
}

/// Lengthens the pages area by zero bytes to so many, where it has fewer, and makes it last.
///
/// At each moment a power loss leaves the bytes from before, and any after them. An area that has so many stays as it is,
/// and a power loss leaves nothing new.
pub(crate) fn lengthen<D: Disk>(
    alloc: Global,
    disk: &mut D,
    wanted: u64,
) -> Result<(), LengthRefusal>
    requires few { wanted ≤ 2 ^ 24 }
    ensures left { (c : List ℕ) → IsSettled D.content D.may_leave disk.old Pages → D.content disk.old Pages ≡ Some c → Leaves D.may_leave disk.new Pages (Extends c) }
    ensures moments { (c : List ℕ) → IsSettled D.content D.may_leave disk.old Pages → D.content disk.old Pages ≡ Some c
        → LeavesOnlyImages D.moment D.left_since disk.old disk.new (IsImageBut D.may_leave disk.old Pages (Extends c)) }
    ensures longer { OnOk result (IfSome (D.content disk.new Pages) (λ c. wanted ≤ length c)) }
    ensures bytes { OnOk result (D.content disk.new Pages ≡ option_map (lengthened wanted) (D.content disk.old Pages)) }
    ensures settled { IsSettled D.content D.may_leave disk.old Pages → OnOk result (IsSettled D.content D.may_leave disk.new Pages) }
    ensures long_enough { (c : List ℕ) → D.content disk.old Pages ≡ Some c → wanted ≤ length c → KeepsAll D.content D.may_leave disk.old disk.new }
    ensures keeps { KeepsOthers D.content D.may_leave disk.old disk.new Pages }
    ensures cause { HasLengthCause (D.faults disk.old) (D.faults disk.new) result }
{
    let len = match disk.len(Area::Pages) {
        Ok(len) => len,
        Err(_) => return Err(LengthRefusal::Disk),
    };
    if wanted <= len {
        return Ok(());
    }
    let zeros = match vec![in alloc; 0u8; (wanted - len) as usize] {
        Ok(zeros) => zeros,
        Err(_) => return Err(LengthRefusal::Memory),
    };
    match write_behind(disk, len, &zeros) {
        Ok(()) => Ok(()),
        Err(_) => Err(LengthRefusal::Disk),
    }
}
