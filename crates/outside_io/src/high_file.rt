//! Files whose descriptors are those of no standard stream.
ghost use Rattle.std.specs.Prelude.{pos, ◌<ℤ◌, IfOk};
ghost use Rattle.std.specs.Fd.{file_raw_fd};

use std::fs::{File, Files, OpenOptions};
use std::io;
use std::io::ErrorKind;
use std::os::fd::AsRawFd;
use std::path::Path;

/// The descriptor of the standard error, which is the greatest one of the standard streams.
const STANDARD_ERROR: i32 = 2;

/// Opens a file under a descriptor of 3 or more.
///
/// The system gives a file the least descriptor that is free. Where a program starts with a standard stream closed, that is the
/// stream's own: what is then printed goes into the file, and what the file has is read as the input. So the file gets another
/// descriptor here, and the stream's stays free: each call on the stream fails, as it has to where the stream is closed.
pub(crate) fn open_high<R: Files<File = File>>(
    files: &R,
    how: &OpenOptions,
    path: Path<'_>,
) -> io::Result<File>
    ensures high { IfOk result (λ file. pos 2 <ℤ file_raw_fd file) }
{
    let file = how.open(files, path)?;
    if file.as_raw_fd() > STANDARD_ERROR {
        return Ok(file);
    }
    // A copy's descriptor is 3 or more, and it is closed at an `exec`, as the first one is. That one is closed here.
    let high = file.try_clone()?;
    if high.as_raw_fd() > STANDARD_ERROR {
        Ok(high)
    } else {
        Err(ErrorKind::Unsupported.into())
    }
}
