//! A part of a log area that is held in memory.
ghost use Rattle.std.specs.Prelude.{◌≡◌, ◌+◌, ◌≤◌, ◌^◌, ℕ, List, length, take, drop, slice_index, IfOk, IfSome, OnOk};
ghost use Rattle.std.specs.Int.{w32, to_be_bytes};
ghost use Rattle.disk_model.specs.Causes.{HasCause};
ghost use Rattle.store_opening.specs.Looks.{IsLookedAt};
ghost use Rattle.log_printing.specs.Window.{IsWindow};

use current_log::FoundLog;
use disk_model::{Area, Disk, DiskFailed};

/// How many bytes are held at most.
pub(crate) const ROOM: usize = 4096;

/// How many bytes the length of a body takes.
const LENGTH: usize = 4;

/// Bytes of a log area that were read, which begin at some offset of it.
#[derive(Drop)]
pub(crate) struct Window {
    pub(crate) bytes: [u8; ROOM],
    from: u64,
    count: usize,
}

impl Window {
    /// It holds nothing.
    pub(crate) fn new() -> Window
        ensures { (len : ℕ) (area : _) → IfSome area (λ c. len ≤ length c) → IsWindow len area result }
    {
        Window {
            bytes: [0; ROOM],
            from: 0,
            count: 0,
        }
    }
}

/// Reads the bytes of the area from this offset on, so many, into the front of the buffer.
fn read_front<D: Disk>(
    disk: &mut D,
    area: Area,
    at: u64,
    bytes: &mut [u8; ROOM],
    size: usize,
) -> Result<(), DiskFailed>
    requires few { size ≤ ROOM }
    requires within { IfSome (D.content disk.old area) (λ c. at + size ≤ length c) }
    ensures bytes { OnOk result (IfSome (D.content disk.old area) (λ c. take size bytes.new ≡ take size (drop at c))) }
    ensures looks { IsLookedAt D.content D.may_leave D.moment D.left_since disk.old disk.new }
    ensures cause { HasCause (D.faults disk.old) (D.faults disk.new) result }
{
    disk.read_at(area, at, &mut bytes[..size])
}

/// Where in the window the bytes of the log stand from this offset on, so many. They are read where the window doesn't hold them.
pub(crate) fn find<D: Disk>(
    disk: &mut D,
    log: FoundLog,
    window: &mut Window,
    at: u64,
    size: usize,
) -> Result<usize, DiskFailed>
    requires few { size ≤ ROOM }
    requires within { at + size ≤ log.len }
    requires window { IsWindow log.len (D.content disk.old log.area) window.old }
    ensures inside { IfOk result (λ start. start + size ≤ ROOM) }
    ensures bytes { IfOk result (λ start. IfSome (D.content disk.old log.area) (λ c. take size (drop start window.new.bytes) ≡ take size (drop at (take log.len c)))) }
    ensures window { IsWindow log.len (D.content disk.new log.area) window.new }
    ensures looks { IsLookedAt D.content D.may_leave D.moment D.left_since disk.old disk.new }
    ensures cause { HasCause (D.faults disk.old) (D.faults disk.new) result }
{
    if window.from <= at && size <= window.count {
        let start = at - window.from;
        if start <= (window.count - size) as u64 {
            return Ok(start as usize);
        }
    }
    let count = (log.len - at).min(ROOM as u64) as usize;
    window.count = 0;
    window.from = 0;
    read_front(disk, log.area, at, &mut window.bytes, count)?;
    window.from = at;
    window.count = count;
    Ok(0)
}

/// The byte of the log at this offset.
pub(crate) fn byte_at<D: Disk>(
    disk: &mut D,
    log: FoundLog,
    window: &mut Window,
    at: u64,
) -> Result<u8, DiskFailed>
    requires within { at + 1 ≤ log.len }
    requires window { IsWindow log.len (D.content disk.old log.area) window.old }
    ensures byte { IfOk result (λ byte. IfSome (D.content disk.old log.area) (λ c. byte ≡ slice_index (take log.len c) at)) }
    ensures window { IsWindow log.len (D.content disk.new log.area) window.new }
    ensures looks { IsLookedAt D.content D.may_leave D.moment D.left_since disk.old disk.new }
    ensures cause { HasCause (D.faults disk.old) (D.faults disk.new) result }
{
    let start = find(disk, log, window, at, 1)?;
    Ok(window.bytes[start])
}

/// The number that these bytes are.
fn number(bytes: [u8; LENGTH]) -> u32
    ensures { to_be_bytes w32 result ≡ bytes }
{
    u32::from_be_bytes(bytes)
}

/// The number in the four bytes of the log at this offset.
pub(crate) fn size_at<D: Disk>(
    disk: &mut D,
    log: FoundLog,
    window: &mut Window,
    at: u64,
) -> Result<u32, DiskFailed>
    requires within { at + 4 ≤ log.len }
    requires window { IsWindow log.len (D.content disk.old log.area) window.old }
    ensures size { IfOk result (λ size. IfSome (D.content disk.old log.area) (λ c. to_be_bytes w32 size ≡ take 4 (drop at (take log.len c)))) }
    ensures window { IsWindow log.len (D.content disk.new log.area) window.new }
    ensures looks { IsLookedAt D.content D.may_leave D.moment D.left_since disk.old disk.new }
    ensures cause { HasCause (D.faults disk.old) (D.faults disk.new) result }
{
    let start = find(disk, log, window, at, LENGTH)?;
    let bytes = &window.bytes[start..start + LENGTH];
    Ok(number([bytes[0], bytes[1], bytes[2], bytes[3]]))
}
