//! Runs of the disk of the operating system, each in a folder of its own below the one that the test runs in.
use disk_model::{Area, Disk, DiskFailed};
use outside_io::{HostDisk, LockRefusal};
use std::alloc::AllocError;
use std::os::unix::fs::symlink;
use std::process::Abort;
use std::rt::Files;
use std::test::Fail;
use std::{fs, io};

/// Makes the folder anew, without a file.
fn make_empty(rt: &(impl Files + Alloc), folder: &str) -> io::Result<()> {
    if fs::exists(rt, folder)? {
        fs::remove_dir_all(rt, folder)?;
    }
    fs::create_dir(rt, folder)
}

/// Writes the bytes there.
fn put(
    disk: &mut HostDisk<HostRuntime>,
    area: Area,
    at: u64,
    bytes: &[u8],
) -> Result<(), DiskFailed> {
    disk.write_at(area, at, bytes)
}

/// Makes the writes to the area last.
fn sync<D: Disk>(disk: &mut D, area: Area) -> Result<(), DiskFailed> {
    disk.sync(area)
}

/// Cuts the area off after so many bytes.
fn cut(disk: &mut HostDisk<HostRuntime>, area: Area, len: u64) -> Result<(), DiskFailed> {
    disk.cut(area, len)
}

/// Reads the first byte of the area.
fn read_first(disk: &mut HostDisk<HostRuntime>, area: Area) -> Result<(), DiskFailed> {
    disk.read_at(area, 0, &mut [0])
}

/// Writes, cuts, writes again at the new end, and syncs.
fn fill(disk: &mut HostDisk<HostRuntime>) -> Result<(), DiskFailed> {
    put(disk, Area::Pages, 0, b"abcdXYZ")?;
    cut(disk, Area::Pages, 4)?;
    put(disk, Area::Pages, 4, b"!")?;
    sync(disk, Area::Pages)
}

/// The last three of five bytes.
fn last_three(disk: &mut HostDisk<HostRuntime>) -> Result<[u8; 3], DiskFailed> {
    let mut bytes = [0; 3];
    disk.read_at(Area::Pages, 2, &mut bytes)?;
    Ok(bytes)
}

/// The disk has what `fill` left.
fn expect_filled(rt: &impl Abort, disk: &mut HostDisk<HostRuntime>) {
    assert!(rt; disk.len(Area::Pages) == Ok(5));
    assert!(rt; last_three(disk) == Ok(*b"cd!"));
}

/// The file has these bytes.
fn expect_file(rt: &(impl Files + Alloc + Abort), path: &str, wanted: &[u8]) -> io::Result<()> {
    assert!(rt; fs::read(rt, path)?.as_slice() == wanted);
    Ok(())
}

/// The call succeeded.
fn expect_done(rt: &impl Abort, answer: Result<(), DiskFailed>) {
    assert!(rt; answer.is_ok());
}

/// The call failed, and so many calls have failed by now.
fn expect_failed(
    rt: &impl Abort,
    answer: Result<(), DiskFailed>,
    disk: &HostDisk<HostRuntime>,
    faults: u64,
) {
    assert!(rt; answer.is_err());
    assert!(rt; disk.faults() == faults);
}

/// What was written is read, and again from a disk that is opened anew.
fn write_and_read(rt: &impl Abort, files: HostRuntime, folder: &str) -> Result<(), AllocError> {
    let mut disk = HostDisk::new(files.alloc(), files, folder)?;
    expect_done(rt, fill(&mut disk));
    expect_filled(rt, &mut disk);
    let mut again = HostDisk::new(files.alloc(), files, folder)?;
    expect_filled(rt, &mut again);
    Ok(())
}

#[test]
fn what_was_written_is_found_again(rt: HostRuntime) -> Result<(), Fail> {
    make_empty(&rt, "host_bytes")?;
    write_and_read(&rt, rt, "host_bytes")?;
    expect_file(&rt, "host_bytes/brahma.pages", b"abcd!")?;
    assert!(rt;
        !fs::exists(&rt, "host_bytes/brahma.loga")?,
        "no call asked for it"
    );
    fs::remove_dir_all(&rt, "host_bytes")?;
    Ok(())
}

/// Three calls past the end of an area fail.
fn go_past_the_end(rt: &impl Abort, files: HostRuntime, folder: &str) -> Result<(), AllocError> {
    let mut disk = HostDisk::new(files.alloc(), files, folder)?;
    let written = put(&mut disk, Area::LogA, 1, b"a");
    expect_failed(rt, written, &disk, 1);
    let shortened = cut(&mut disk, Area::LogB, 1);
    expect_failed(rt, shortened, &disk, 2);
    let read = read_first(&mut disk, Area::Super);
    expect_failed(rt, read, &disk, 3);
    Ok(())
}

/// Each of those calls makes the area's file and leaves it empty.
#[test]
fn what_goes_past_the_end_fails(rt: HostRuntime) -> Result<(), Fail> {
    make_empty(&rt, "host_ends")?;
    go_past_the_end(&rt, rt, "host_ends")?;
    for path in [
        "host_ends/brahma.loga",
        "host_ends/brahma.logb",
        "host_ends/brahma.super",
    ] {
        expect_file(&rt, path, b"")?;
    }
    fs::remove_dir_all(&rt, "host_ends")?;
    Ok(())
}

/// A device that is always full takes no bytes, and can't be synced. After that the pages can't be synced either.
fn sync_a_full_device(rt: &impl Abort, files: HostRuntime, folder: &str) -> Result<(), AllocError> {
    let mut disk = HostDisk::new(files.alloc(), files, folder)?;
    expect_done(rt, sync(&mut disk, Area::Pages));
    let written = put(&mut disk, Area::LogA, 0, b"a");
    expect_failed(rt, written, &disk, 1);
    let synced = sync(&mut disk, Area::LogA);
    expect_failed(rt, synced, &disk, 2);
    let later = sync(&mut disk, Area::Pages);
    expect_failed(rt, later, &disk, 3);
    Ok(())
}

#[test]
fn no_sync_succeeds_after_a_failed_one(rt: HostRuntime) -> Result<(), Fail> {
    make_empty(&rt, "host_full")?;
    symlink(&rt, "/dev/full", "host_full/brahma.loga")?;
    sync_a_full_device(&rt, rt, "host_full")?;
    fs::remove_dir_all(&rt, "host_full")?;
    Ok(())
}

#[test]
fn a_second_opener_is_refused(rt: HostRuntime) -> Result<(), Fail> {
    make_empty(&rt, "host_lock")?;
    let first = HostDisk::locked(rt.alloc(), rt, "host_lock")?;
    let second = HostDisk::locked(rt.alloc(), rt, "host_lock");
    assert!(rt; matches!(second, Err(LockRefusal::InUse)));
    drop(first);
    assert!(rt;
        HostDisk::locked(rt.alloc(), rt, "host_lock").is_ok(),
        "the lock is free again"
    );
    fs::remove_dir_all(&rt, "host_lock")?;
    let nowhere = HostDisk::locked(rt.alloc(), rt, "host_lock");
    assert!(rt;
        matches!(nowhere, Err(LockRefusal::Failed(_))),
        "there is no folder"
    );
    Ok(())
}
