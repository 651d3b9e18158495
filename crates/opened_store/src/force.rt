//! The batch of an undo.
ghost use Rattle.std.specs.Prelude.{◌≡◌, ◌↔◌, ℕ, ◌+◌, ◌<◌, ◌≤◌, ◌⊎◌, List, [], true, option_map, IfErr, OnOk, IsErrOf, ⊤};
ghost use Rattle.disk_model.specs.Told.{KeepsOthers, EachImage, IsImage, IsImageBut};
ghost use Rattle.disk_model.specs.Time.{LeavesOnlyImages};
ghost use Rattle.gate_log.specs.Batches.{most_bytes};
ghost use Rattle.gate_log.specs.declared.stage.Stage.TheVariants.{Standing};
ghost use Rattle.gate_log.specs.OnDisk.{IsOn, HasLog, HasEither, with_batch};
ghost use Rattle.gate_log.specs.State.{used, batch_length, forced_area};
ghost use Rattle.store_opening.specs.declared.open_refusal.OpenRefusal.TheVariants.{Disk, Memory, LogFull};
ghost use Rattle.store_opening.specs.Store.{HasOpenCause};

use disk_model::Disk;
use gate_log::GateLog;
use store_opening::OpenRefusal;

/// A log area has no more bytes than this.
const MOST: u64 = 1 << 30;

/// How many bytes a batch takes in front of its body: a commit byte and a length.
const HEAD: u64 = 5;

/// How many bytes a batch with this body takes. Without a body there is none.
fn batch_len(body: &[u8]) -> u64
    ensures { result ≡ batch_length body.now }
{
    if body.is_empty() {
        return 0;
    }
    HEAD + body.len() as u64
}

/// Whether the log area has no room for a batch with this body, and for two commit bytes and a length after it.
fn lacks_room(log: &GateLog, body: &[u8]) -> bool
    ensures { (result ≡ true) ↔ (most_bytes < used log.now + batch_length body.now) }
{
    MOST < log.used().saturating_add(batch_len(body))
}

/// Makes the records of an undo last, as one batch after those of the log; where there are none, no disk call is made.
///
/// At each moment of the call a power loss leaves what it might have left before, or the batches from before, or them and
/// this one. [`OpenRefusal::Disk`] comes only where the disk's count of faults rose in this call. [`OpenRefusal::LogFull`]
/// comes exactly where the log area has no room for this batch, and for two commit bytes and a length after it, with which
/// a further one begins. [`OpenRefusal::Memory`] comes for want of memory, and not where there is nothing to undo. Both come
/// before any disk call.
pub fn force_undo<D: Disk>(log: &mut GateLog, disk: &mut D, bytes: &[u8]) -> Result<(), OpenRefusal>
    requires standing { log.old.stage ≡ Standing }
    requires empty { log.old.tail ≡ [] }
    requires on { (batches : List (List ℕ)) × IsOn D.may_leave log.old disk.old batches }
    ensures on { (batches : List (List ℕ)) → IsOn D.may_leave log.old disk.old batches
        → OnOk result (IsOn D.may_leave log.new disk.new (with_batch batches bytes.now)) }
    ensures images { (batches : List (List ℕ)) → IsOn D.may_leave log.old disk.old batches
        → OnOk result (EachImage D.may_leave disk.new (HasLog (with_batch batches bytes.now))) }
    ensures moments { (batches : List (List ℕ)) → IsOn D.may_leave log.old disk.old batches
        → LeavesOnlyImages D.moment D.left_since disk.old disk.new (λ image. IsImage D.may_leave disk.old image ⊎ HasEither batches (with_batch batches bytes.now) image) }
    ensures others { LeavesOnlyImages D.moment D.left_since disk.old disk.new (IsImageBut D.may_leave disk.old log.old.area (λ _. ⊤)) }
    ensures stands { OnOk result ((log.new.stage ≡ Standing) × (log.new.tail ≡ [])) }
    ensures durable { OnOk result (log.new.durable ≡ log.old.durable + batch_length bytes.now) }
    ensures bounded { OnOk result (used log.new ≤ most_bytes) }
    ensures area { log.new.area ≡ log.old.area }
    ensures keeps { KeepsOthers D.content D.may_leave disk.old disk.new log.old.area }
    ensures bytes { OnOk result (D.content disk.new log.old.area ≡ option_map (forced_area log.old.durable bytes.now) (D.content disk.old log.old.area)) }
    ensures full { IsErrOf result LogFull ↔ (most_bytes < used log.old + batch_length bytes.now) }
    ensures none { bytes.now ≡ [] → (disk.new ≡ disk.old) × IfErr result (λ e. e ≡ LogFull) }
    ensures untouched { IfErr result (λ e. (e ≡ Disk → ⊥) → disk.new ≡ disk.old) }
    ensures refusals { IfErr result (λ e. (e ≡ Disk) ⊎ ((e ≡ Memory) ⊎ (e ≡ LogFull))) }
    ensures cause { HasOpenCause (D.faults disk.old) (D.faults disk.new) result }
{
    if lacks_room(log, bytes) {
        return Err(OpenRefusal::LogFull);
    }
    match log.append(MOST, 0, bytes) {
        Ok(()) => match log.force(disk) {
            Ok(()) => Ok(()),
            Err(_) => Err(OpenRefusal::Disk),
        },
        Err(_) => Err(OpenRefusal::Memory), // There is room.
    }
}
