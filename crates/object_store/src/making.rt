//! A store that is made anew.
ghost use Rattle.std.specs.Prelude.{◌≡◌, OnOk};
ghost use Rattle.disk_model.specs.Areas.{in_area};
ghost use Rattle.disk_model.specs.Causes.{HasCause};
ghost use Rattle.disk_model.specs.Told.{EachImage};
ghost use Rattle.disk_model.specs.Time.{LeavesOnlyImages};
ghost use Rattle.restart_store.specs.Fresh.{IsMade, IsMaking, fresh_store};
ghost use Rattle.object_store.specs.Seen.{object_slots};

use crate::SLOTS;
use crate::options::Options;
use disk_model::Disk;
use restart_store::{InitRefusal, init};

/// Makes the disk anew as a store with the root alone, whatever it held. It takes no memory.
///
/// At `Ok` the disk reads as that store, for good. At each moment a loss of power leaves the old store (of whose super area the last
/// bytes may be gone), or no store, or the new one, whatever it answers. [`InitRefusal::Disk`] comes only where the disk's count of
/// faults rose in this call.
pub fn make<D: Disk>(disk: &mut D, options: Options) -> Result<(), InitRefusal>
    ensures made { OnOk result ((area : _) → IsMade D.content D.may_leave disk.old disk.new area (in_area (fresh_store object_slots options.pages 0) area)) }
    ensures images { OnOk result (EachImage D.may_leave disk.new (λ image. image ≡ fresh_store object_slots options.pages 0)) }
    ensures moments { LeavesOnlyImages D.moment D.left_since disk.old disk.new (IsMaking D.may_leave disk.old object_slots options.pages) }
    ensures cause { HasCause (D.faults disk.old) (D.faults disk.new) result }
{
    init::<D, SLOTS>(disk, options.pages())
}
