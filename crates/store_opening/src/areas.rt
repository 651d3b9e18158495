//! The areas of the disk before anything of them is used.
ghost use Rattle.std.specs.Prelude.{◌≡◌, IfOk, IfSome, OnOk};
ghost use Rattle.disk_model.specs.Causes.{HasCause};
ghost use Rattle.disk_model.specs.Told.{IsSettled};
ghost use Rattle.disk_model.specs.declared.area.Area.TheVariants.{Super};
ghost use Rattle.gate_log.specs.State.{IsLogArea};
ghost use Rattle.gate_log.specs.OnDisk.{named_by};
ghost use Rattle.store_opening.specs.Looks.{IsLookedAt};

use disk_model::{Area, Disk, DiskFailed};

/// Makes what the four areas read last.
///
/// At `Ok` a loss of power leaves in each area what it reads. [`DiskFailed`] comes only where the disk's count of faults
/// rose in this call.
pub fn sync_areas<D: Disk>(disk: &mut D) -> Result<(), DiskFailed>
    ensures settled { OnOk result ((area : _) → IsSettled D.content D.may_leave disk.new area) }
    ensures looks { IsLookedAt D.content D.may_leave D.moment D.left_since disk.old disk.new }
    ensures cause { HasCause (D.faults disk.old) (D.faults disk.new) result }
{
    disk.sync(Area::Pages)?;
    disk.sync(Area::LogA)?;
    disk.sync(Area::LogB)?;
    disk.sync(Area::Super)?;
    Ok(())
}

/// The log area that the super area names, or nothing where the super area is empty: then there is no store.
///
/// [`DiskFailed`] comes only where the disk's count of faults rose in this call.
pub fn named_area<D: Disk>(disk: &mut D) -> Result<Option<Area>, DiskFailed>
    ensures named { IfOk result (λ named. IfSome (D.content disk.old Super) (λ bytes. named ≡ named_by bytes)) }
    ensures area { IfOk result (λ named. IfSome named IsLogArea) }
    ensures looks { IsLookedAt D.content D.may_leave D.moment D.left_since disk.old disk.new }
    ensures cause { HasCause (D.faults disk.old) (D.faults disk.new) result }
{
    let len = disk.len(Area::Super)?;
    if len == 0 {
        return Ok(None);
    }
    let mut byte = [0];
    disk.read_at(Area::Super, 0, &mut byte)?;
    if byte[0] % 2 == 0 {
        Ok(Some(Area::LogA))
    } else {
        Ok(Some(Area::LogB))
    }
}
