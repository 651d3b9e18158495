//! Why the disk can't be had, or failed a call.
use crate::ending::{Doing, Known};
use disk_model::Area;
use outside_io::LockRefusal;
use std::io;
use std::io::ErrorKind;

/// The file of an area.
fn file_of(area: Area) -> &'static str {
    match area {
        Area::Pages => "brahma.pages",
        Area::LogA => "brahma.loga",
        Area::LogB => "brahma.logb",
        Area::Super => "brahma.super",
    }
}

/// What a failure of the operating system mostly comes of here, and the way on.
fn hint_of(kind: ErrorKind) -> Option<&'static str> {
    match kind {
        ErrorKind::PermissionDenied => {
            Some(
                "who runs this needs the rights to read and write the four files, and to make files in their folder",
            )
        }
        ErrorKind::ReadOnlyFilesystem => Some(
            "the file system is mounted read-only; a store is written also where it is only looked at",
        ),
        ErrorKind::StorageFull | ErrorKind::QuotaExceeded => Some(
            "no space is left: make room, and run again",
        ),
        ErrorKind::FileTooLarge => Some(
            "a limit on the size of files was met (`ulimit -f`): raise it, and run again",
        ),
        ErrorKind::NotFound => Some(
            "the folder is gone, or a file of the store was removed, renamed or replaced meanwhile",
        ),
        ErrorKind::IsADirectory | ErrorKind::InvalidInput | ErrorKind::FilesystemLoop => {
            Some(
                "each file of the store has to be a plain one, as long as the store left it: no link, no device, no pipe and no folder",
            )
        }
        ErrorKind::InvalidData => Some(
            "another program changed the length of a file while this one had the store",
        ),
        ErrorKind::Unsupported => Some(
            "the file system has no lock for files, or all low descriptors are taken",
        ),
        _ => None,
    }
}

/// Says what a failure mostly comes of, where that is known.
fn say_hint<P: Eprint>(err: &P, error: &io::Error) {
    if let Some(hint) = hint_of(error.kind()) {
        let _ = eprintln!(err; "brahma: {hint}");
    }
}

/// Says why the lock of the store can't be had.
pub fn explain_lock<P: Eprint>(err: &P, refusal: &LockRefusal) {
    match refusal {
        LockRefusal::Failed(error) => {
            let _ = eprintln!(err; "brahma: the store of this folder can't be had: {error}");
            say_hint(err, error);
        }
        LockRefusal::InUse => {
            let _ = eprintln!(err;
                "brahma: another program has opened the store of this folder; run again when it has ended"
            );
        }
        LockRefusal::Memory => explain_memory(err),
    }
}

/// Says that memory was out.
pub(crate) fn explain_memory<P: Eprint>(err: &P) {
    let _ = eprintln!(err;
        "brahma: memory was out; the call that found none changed nothing, and each commit that was answered ok stays"
    );
    let _ = eprintln!(err;
        "brahma: give the program more (`ulimit -v`, the limit of a container), and run again"
    );
}

/// Says which call the disk failed, and how to go on.
pub(crate) fn explain_disk<P: Eprint>(err: &P, known: &Known<'_>) {
    if let Some(failed) = known.failed {
        let (act, file) = (failed.act, file_of(failed.area));
        let _ = match &known.reason {
            Some(reason) => eprintln!(err; "brahma: the disk failed {act} of {file}: {reason}"),
            None => eprintln!(err; "brahma: the disk failed {act} of {file}"),
        };
    }
    if let Some(reason) = &known.reason {
        say_hint(err, reason);
    }
    let _ = match known.doing {
        Doing::Init | Doing::Standby => eprintln!(err;
            "brahma: there may be no store now; look at the disk, and make it again"
        ),
        Doing::Map => eprintln!(err;
            "brahma: each line that was answered stays; the next one may be done or not. Look at the disk, and run again"
        ),
        _ => {
            eprintln!(err;
                "brahma: each commit answered ok stays; one answered fault may be there or not. Look at the disk, and run again"
            )
        }
    };
}
