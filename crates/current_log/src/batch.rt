//! The batches of a log area, as the disk reads them now, whatever a power loss may leave.
ghost use Rattle.std.specs.Prelude.{◌≡◌, ◌⊎◌, ◌+◌, ◌<◌, ◌≤◌, ◌^◌, ℕ, length, take, drop, slice_index, None, IfOk, IfErr, IfSome, OnOk, IsErrOf};
ghost use Rattle.std.specs.Int.{w32, to_be_bytes};
ghost use Rattle.disk_model.specs.Causes.{HasCause};
ghost use Rattle.gate_log.specs.declared.refusal.LogRefusal.TheVariants.{Disk, Damaged, Memory};
ghost use Rattle.gate_log.specs.Batches.{most_bytes};
ghost use Rattle.gate_log.specs.CommitBytes.{IsBatchAt, IsClosedAt, IsDamaged, IsCaused};
ghost use Rattle.store_opening.specs.Looks.{IsLookedAt};
ghost use Rattle.current_log.specs.Window.{IsWindow};

use crate::window::{ROOM, Window, find};
use disk_model::{Area, Disk, DiskFailed};
use gate_log::LogRefusal;
use std::alloc::{AllocError, Global};
use std::mem;

/// A log area has no more bytes.
const MOST: u64 = 1 << 30;

/// An open commit byte.
const OPEN: u8 = 1;

/// The byte at this offset. The area has at least `len` bytes.
fn read_byte<D: Disk>(
    disk: &mut D,
    area: Area,
    len: u64,
    window: &mut Window,
    at: u64,
) -> Result<u8, DiskFailed>
    requires within { at + 1 ≤ len }
    requires there { IfSome (D.content disk.old area) (λ c. len ≤ length c) }
    requires window { IsWindow (D.content disk.old area) window.old }
    ensures byte { IfOk result (λ byte. IfSome (D.content disk.old area) (λ c. byte ≡ slice_index c at)) }
    ensures window { IsWindow (D.content disk.new area) window.new }
    ensures looks { IsLookedAt D.content D.may_leave D.moment D.left_since disk.old disk.new }
    ensures cause { HasCause (D.faults disk.old) (D.faults disk.new) result }
{
    let start = find(disk, area, len, window, at, 1)?;
    Ok(window.bytes[start])
}

/// The number that these bytes are.
fn number(bytes: [u8; 4]) -> u32
    ensures { to_be_bytes w32 result ≡ bytes }
{
    u32::from_be_bytes(bytes)
}

/// The number in the four bytes at this offset. The area has at least `len` bytes.
fn read_size<D: Disk>(
    disk: &mut D,
    area: Area,
    len: u64,
    window: &mut Window,
    at: u64,
) -> Result<u32, DiskFailed>
    requires within { at + 4 ≤ len }
    requires there { IfSome (D.content disk.old area) (λ c. len ≤ length c) }
    requires window { IsWindow (D.content disk.old area) window.old }
    ensures size { IfOk result (λ size. IfSome (D.content disk.old area) (λ c. to_be_bytes w32 size ≡ take 4 (drop at c))) }
    ensures window { IsWindow (D.content disk.new area) window.new }
    ensures looks { IsLookedAt D.content D.may_leave D.moment D.left_since disk.old disk.new }
    ensures cause { HasCause (D.faults disk.old) (D.faults disk.new) result }
{
    let start = find(disk, area, len, window, at, 4)?;
    let bytes = &window.bytes[start..start + 4];
    Ok(number([bytes[0], bytes[1], bytes[2], bytes[3]]))
}

/// A body of this many bytes, at this offset, which is too long for a window. It takes the memory of the spare one.
fn read_long_body<D: Disk>(
    alloc: Global,
    disk: &mut D,
    area: Area,
    at: u64,
    size: u32,
    spare: &mut Vec<u8>,
) -> Result<Vec<u8>, LogRefusal>
    requires { IfSome (D.content disk.old area) (λ c. at + size ≤ length c) }
    ensures body { IfOk result (λ body. (length body.items ≡ size) × IfSome (D.content disk.old area) (λ c. body.items ≡ take size (drop at c))) }
    ensures refusals { IfErr result (λ e. (e ≡ Disk) ⊎ (e ≡ Memory)) }
    ensures looks { IsLookedAt D.content D.may_leave D.moment D.left_since disk.old disk.new }
    ensures cause { IsCaused (D.faults disk.old) (D.faults disk.new) result }
{
    let mut body = mem::replace(spare, Vec::new(alloc));
    if let Err(AllocError) = body.resize(size as usize, 0) {
        return Err(LogRefusal::Memory);
    }
    disk.read_at(area, at, &mut body)?;
    Ok(body)
}

/// These bytes. They take the memory of the spare ones.
fn copy(alloc: Global, bytes: &[u8], spare: &mut Vec<u8>) -> Result<Vec<u8>, AllocError>
    ensures { IfOk result (λ body. body.items ≡ bytes.now) }
{
    let mut body = mem::replace(spare, Vec::new(alloc));
    body.clear();
    body.extend_from_slice(bytes)?;
    Ok(body)
}

/// A body of this many bytes, at this offset. It takes the memory of the spare one. The area has at least `len` bytes.
fn read_body<D: Disk>(
    alloc: Global,
    disk: &mut D,
    area: Area,
    len: u64,
    window: &mut Window,
    at: u64,
    size: u32,
    spare: &mut Vec<u8>,
) -> Result<Vec<u8>, LogRefusal>
    requires within { at + size ≤ len }
    requires there { IfSome (D.content disk.old area) (λ c. len ≤ length c) }
    requires window { IsWindow (D.content disk.old area) window.old }
    ensures body { IfOk result (λ body. (length body.items ≡ size) × IfSome (D.content disk.old area) (λ c. body.items ≡ take size (drop at c))) }
    ensures refusals { IfErr result (λ e. (e ≡ Disk) ⊎ (e ≡ Memory)) }
    ensures window { IsWindow (D.content disk.new area) window.new }
    ensures looks { IsLookedAt D.content D.may_leave D.moment D.left_since disk.old disk.new }
    ensures cause { IsCaused (D.faults disk.old) (D.faults disk.new) result }
{
    if size as usize > ROOM {
        return read_long_body(alloc, disk, area, at, size, spare);
    }
    let start = find(disk, area, len, window, at, size as usize)?;
    match copy(alloc, &window.bytes[start..start + size as usize], spare) {
        Ok(body) => Ok(body),
        Err(AllocError) => Err(LogRefusal::Memory),
    }
}

/// The body of the batch at this offset, or nothing where a closed commit byte stands there. The body takes the memory of
/// the spare one.
///
/// Of an area that is told, [`LogRefusal::Damaged`] comes exactly where the area is damaged at this commit byte, and tells the
/// place. [`LogRefusal::Disk`] comes only where the disk's count of faults rose in this call.
pub(crate) fn read_batch<D: Disk>(
    alloc: Global,
    disk: &mut D,
    area: Area,
    window: &mut Window,
    at: u64,
    spare: &mut Vec<u8>,
) -> Result<Option<Vec<u8>>, LogRefusal>
    requires few { at < 2 ^ 40 }
    requires window { IsWindow (D.content disk.old area) window.old }
    ensures batch { IfOk result (λ read. IfSome read (λ body. IfSome (D.content disk.old area) (IsBatchAt at body.items))) }
    ensures small { IfOk result (λ read. IfSome read (λ body. at + 5 + length body.items ≤ most_bytes)) }
    ensures closed { IfOk result (λ read. (read ≡ None) → (0 < at) × IfSome (D.content disk.old area) (IsClosedAt at)) }
    ensures short { OnOk result (IfSome (D.content disk.old area) (λ c. length c ≤ most_bytes)) }
    ensures window { OnOk result (IsWindow (D.content disk.new area) window.new) }
    ensures damaged { (place : ℕ) → IsErrOf result (Damaged place) → IfSome (D.content disk.old area) (IsDamaged at place) }
    ensures refusals { IfErr result (λ e. (e ≡ Disk) ⊎ (e ≡ Memory) ⊎ ((place : ℕ) × (e ≡ Damaged place))) }
    ensures looks { IsLookedAt D.content D.may_leave D.moment D.left_since disk.old disk.new }
    ensures cause { IsCaused (D.faults disk.old) (D.faults disk.new) result }
{
    let len = disk.len(area)?;
    if len > MOST {
        return Err(LogRefusal::Damaged { at: MOST });
    }
    if len <= at {
        return Err(LogRefusal::Damaged { at });
    }
    if read_byte(disk, area, len, window, at)? != OPEN {
        return if at == 0 {
            Err(LogRefusal::Damaged { at })
        } else {
            Ok(None)
        };
    }
    if len < at + 5 {
        return Err(LogRefusal::Damaged { at });
    }
    let size = read_size(disk, area, len, window, at + 1)?;
    if size == 0 {
        return Err(LogRefusal::Damaged { at });
    }
    if len < at + 5 + size as u64 {
        return Err(LogRefusal::Damaged { at });
    }
    let body = read_body(alloc, disk, area, len, window, at + 5, size, spare)?;
    Ok(Some(body))
}
