//! A part of an area that is held in memory.
ghost use Rattle.std.specs.Prelude.{◌≡◌, ◌+◌, ◌≤◌, ℕ, List, length, take, drop, IfOk, IfSome, OnOk};
ghost use Rattle.disk_model.specs.Causes.{HasCause};
ghost use Rattle.store_opening.specs.Looks.{IsLookedAt};
ghost use Rattle.current_log.specs.Window.{IsWindow};

use disk_model::{Area, Disk, DiskFailed};

/// How many bytes are held at most.
pub(crate) const ROOM: usize = 16_384;

/// Bytes of an area that were read, which begin at some offset of it. So that it is asked once for many batches.
#[derive(Drop)]
pub(crate) struct Window {
    pub(crate) bytes: [u8; ROOM],
    from: u64,
    count: usize,
}

impl Window {
    /// It holds nothing.
    pub(crate) fn new() -> Window
        ensures { (area : _) → IsWindow area result }
    {
        Window {
            bytes: [0; ROOM],
            from: 0,
            count: 0,
        }
    }
}

/// Reads the bytes of the area from this offset on, so many, into the front of the buffer.
fn read_front<D: Disk>(
    disk: &mut D,
    area: Area,
    at: u64,
    bytes: &mut [u8; ROOM],
    size: usize,
) -> Result<(), DiskFailed>
    requires few { size ≤ ROOM }
    requires within { IfSome (D.content disk.old area) (λ c. at + size ≤ length c) }
    ensures bytes { OnOk result (IfSome (D.content disk.old area) (λ c. take size bytes.new ≡ take size (drop at c))) }
    ensures looks { IsLookedAt D.content D.may_leave D.moment D.left_since disk.old disk.new }
    ensures cause { HasCause (D.faults disk.old) (D.faults disk.new) result }
{
    disk.read_at(area, at, &mut bytes[..size])
}

/// Where in the window the bytes of the area stand from this offset on, so many. They are read where the window doesn't hold them. The
/// area has at least `len` bytes.
pub(crate) fn find<D: Disk>(
    disk: &mut D,
    area: Area,
    len: u64,
    window: &mut Window,
    at: u64,
    size: usize,
) -> Result<usize, DiskFailed>
    requires few { size ≤ ROOM }
    requires within { at + size ≤ len }
    requires there { IfSome (D.content disk.old area) (λ c. len ≤ length c) }
    requires window { IsWindow (D.content disk.old area) window.old }
    ensures inside { IfOk result (λ start. start + size ≤ ROOM) }
    ensures bytes { IfOk result (λ start. IfSome (D.content disk.old area) (λ c. take size (drop start window.new.bytes) ≡ take size (drop at c))) }
    ensures window { IsWindow (D.content disk.new area) window.new }
    ensures looks { IsLookedAt D.content D.may_leave D.moment D.left_since disk.old disk.new }
    ensures cause { HasCause (D.faults disk.old) (D.faults disk.new) result }
{
    if window.from <= at && size <= window.count {
        let start = at - window.from;
        if start <= (window.count - size) as u64 {
            return Ok(start as usize);
        }
    }
    let count = (len - at).min(ROOM as u64) as usize;
    window.count = 0;
    window.from = 0;
    read_front(disk, area, at, &mut window.bytes, count)?;
    window.from = at;
    window.count = count;
    Ok(0)
}
