//! The file of one area. No contract says which bytes it has.
use crate::high_file::open_high;
use crate::reason::Reason;
use disk_model::DiskFailed;
use std::alloc::{AllocError, Global};
use std::fs::{File, Files, Metadata, OpenOptions, TryLockError};
use std::io::ErrorKind;
use std::marker::Model;
use std::os::unix::fs::{FileExt, MetadataExt, OpenOptionsExt, fchown};
use std::path::{Path, PathBuf};
use std::{fs, io};

/// How many bytes a copy takes at a time.
const PIECE: usize = 16_384;

/// An open file, and how many bytes it is to have, where that was asked and no call on it failed since. Whoever works on the
/// files has their lock, so nobody else is to change the number, nor what lies under the name.
///
/// Its descriptor is never that of a standard stream.
#[derive(Drop)]
pub(crate) struct OpenFile {
    file: File,
    len: Option<u64>,
    device: u64,
    node: u64,
    /// Whether it was written or cut since it was made durable.
    is_changed: bool,
}

impl Model for OpenFile {
    ghost use Rattle.std.specs.Prelude.{ℤ, pos, ◌<ℤ◌};
    ghost use Rattle.std.specs.Fd.{file_raw_fd};

    ghost Value = { ℤ };

    ghost view = { λ s. file_raw_fd s.file };

    ghost invariant = { λ s. pos 2 <ℤ file_raw_fd s.file };
}

impl OpenFile {
    /// Opens the file. Its length isn't asked yet.
    fn open<R: Files<File = File>>(
        files: &R,
        how: &OpenOptions,
        path: Path<'_>,
    ) -> io::Result<OpenFile> {
        let file = open_high(files, how, path)?;
        let told = file.metadata()?;
        Ok(OpenFile {
            file,
            len: None,
            device: told.dev(),
            node: told.ino(),
            is_changed: false,
        })
    }

    /// Whether a name is that of this file: a plain one, no link to it, and none that lies in its place by now.
    fn is_told_by(&self, told: &Metadata) -> bool {
        told.is_file() && told.dev() == self.device && told.ino() == self.node
    }

    /// How many bytes the file is to have: as many as it had when that was asked first, and what was done to it since.
    pub(crate) fn len(&mut self) -> io::Result<u64> {
        if let Some(len) = self.len {
            return Ok(len);
        }
        let len = self.file.metadata()?.len();
        self.len = Some(len);
        Ok(len)
    }

    /// Fails where the file has fewer bytes than so many, and else gives how many it has.
    fn require_bytes(&mut self, count: u64) -> io::Result<u64> {
        let len = self.len()?;
        if len < count {
            return Err(ErrorKind::InvalidInput.into());
        }
        Ok(len)
    }

    /// Fills the buffer with the bytes from this offset on. All of them have to be there.
    pub(crate) fn read_at(&mut self, at: u64, into: &mut [u8]) -> io::Result<()> {
        self.require_bytes(at.saturating_add(into.len() as u64))?;
        self.file.read_exact_at(into, at)
    }

    /// Fails where the file doesn't lie under this name any more, or has another number of bytes than it is to have: what lies elsewhere,
    /// or was cut off by somebody else, nobody finds again.
    fn require_place<R: Files<File = File>>(
        &self,
        files: &R,
        path: Path<'_>,
        reason: &mut Reason,
    ) -> Result<(), DiskFailed> {
        let told = reason.hear(fs::symlink_metadata(files, path))?;
        if !self.is_told_by(&told) {
            return Err(reason.keep_kind(ErrorKind::NotFound));
        }
        if self.len.is_none_or(|len| len == told.len()) {
            Ok(())
        } else {
            Err(reason.keep_kind(ErrorKind::InvalidData))
        }
    }

    /// Writes the bytes at this offset, which can't be past the end.
    fn write_at(&mut self, at: u64, bytes: &[u8]) -> io::Result<()> {
        let len = self.require_bytes(at)?;
        self.len = None;
        self.is_changed = true;
        self.file.write_all_at(bytes, at)?;
        self.len = Some(len.max(at.saturating_add(bytes.len() as u64)));
        Ok(())
    }

    /// Takes the bytes from this length on away. The file can't be shorter.
    fn cut(&mut self, len: u64) -> io::Result<()> {
        self.require_bytes(len)?;
        self.len = None;
        self.is_changed = true;
        self.file.set_len(len)?;
        self.len = Some(len);
        Ok(())
    }

    /// Makes the bytes last. Where nothing was written since that was done last, the file has to lie under this name; else the write
    /// asked.
    fn sync<R: Files<File = File>>(
        &mut self,
        files: &R,
        path: Path<'_>,
        reason: &mut Reason,
    ) -> Result<(), DiskFailed> {
        if !self.is_changed {
            self.require_place(files, path, reason)?;
        }
        reason.hear(self.file.sync_data())?;
        self.is_changed = false;
        Ok(())
    }

    /// Takes the lock of the file, without waiting.
    ///
    /// Who had the lock until now may have put a new file under the name since this one was opened. Then the file counts as locked
    /// by somebody else.
    fn try_lock<R: Files<File = File>>(
        &self,
        files: &R,
        path: Path<'_>,
    ) -> Result<(), TryLockError> {
        self.file.try_lock()?;
        let told = fs::symlink_metadata(files, path).map_err(TryLockError::Error)?;
        if self.is_told_by(&told) {
            Ok(())
        } else {
            Err(TryLockError::WouldBlock)
        }
    }

    /// A new file under this name, which isn't there yet, with the bytes of this one, its owner as far as the system allows that,
    /// and its rights. The bytes last, and the file has a lock.
    fn copied<R: Files<File = File>>(&mut self, files: &R, path: Path<'_>) -> io::Result<OpenFile> {
        let mut how = OpenOptions::new();
        how.read(true).write(true).create_new(true).mode(0o600);
        let mut copy = OpenFile::open(files, &how, path)?;
        copy.take_bytes(self)?;
        let told = self.file.metadata()?;
        let _ = fchown(&copy.file, Some(told.uid()), Some(told.gid()));
        copy.file.set_permissions(told.permissions())?;
        copy.file.sync_all()?;
        copy.file.try_lock().map_err(io::Error::from)?;
        Ok(copy)
    }

    /// Writes what the other file has into this one, which is empty.
    fn take_bytes(&mut self, other: &mut OpenFile) -> io::Result<()> {
        let mut piece = [0; PIECE];
        let len = other.len()?;
        for at in (0..len).step_by(PIECE) {
            let count = (len - at).min(PIECE as u64) as usize;
            other.read_at(at, &mut piece[..count])?;
            self.write_at(at, &piece[..count])?;
        }
        Ok(())
    }
}

/// The file of an area, and whether it was opened.
#[derive(Drop)]
pub(crate) struct AreaFile {
    path: PathBuf,
    open: Option<OpenFile>,
}

impl AreaFile {
    /// The file of this name in the folder, not opened yet.
    pub(crate) fn new(alloc: Global, folder: Path<'_>, name: &str) -> Result<AreaFile, AllocError> {
        Ok(AreaFile {
            path: folder.join(alloc, name)?,
            open: None,
        })
    }

    /// The open file. The first call opens it.
    pub(crate) fn opened<R: Files<File = File>>(
        &mut self,
        files: &R,
        folder: Path<'_>,
    ) -> io::Result<&mut OpenFile> {
        if self.open.is_none() {
            let file = open_for_good(files, folder, self.path.as_path())?;
            self.open = Some(file);
        }
        Ok(self.open.as_mut().unwrap())
    }

    /// Opens the file, where no call did yet.
    #[inline(always)]
    pub(crate) fn require_open<R: Files<File = File>>(
        &mut self,
        files: &R,
        folder: Path<'_>,
        reason: &mut Reason,
    ) -> Result<(), DiskFailed> {
        if self.open.is_some() {
            return Ok(());
        }
        self.open_first(files, folder, reason)
    }

    /// Opens the file, at the first call on it.
    #[inline(never)]
    fn open_first<R: Files<File = File>>(
        &mut self,
        files: &R,
        folder: Path<'_>,
        reason: &mut Reason,
    ) -> Result<(), DiskFailed> {
        match self.opened(files, folder) {
            Ok(_) => Ok(()),
            Err(error) => Err(reason.keep(error)),
        }
    }

    /// Writes the bytes at this offset, which can't be past the end. The file has to be open, and to lie under its name, with as many
    /// bytes as it is to have.
    pub(crate) fn write_at<R: Files<File = File>>(
        &mut self,
        files: &R,
        at: u64,
        bytes: &[u8],
        reason: &mut Reason,
    ) -> Result<(), DiskFailed> {
        match &mut self.open {
            Some(open) => {
                open.require_place(files, self.path.as_path(), reason)?;
                reason.hear(open.write_at(at, bytes))
            }
            None => Err(reason.keep_kind(ErrorKind::NotFound)),
        }
    }

    /// Writes the byte that commits what was written before it. That write asked where the file lies. The file has to be open.
    pub(crate) fn commit_at(
        &mut self,
        at: u64,
        byte: &[u8],
        reason: &mut Reason,
    ) -> Result<(), DiskFailed> {
        match &mut self.open {
            Some(open) => reason.hear(open.write_at(at, byte)),
            None => Err(reason.keep_kind(ErrorKind::NotFound)),
        }
    }

    /// Takes the bytes from this length on away. The file has to be open and can't be shorter, and has to lie under its name, with as
    /// many bytes as it is to have.
    pub(crate) fn cut<R: Files<File = File>>(
        &mut self,
        files: &R,
        len: u64,
        reason: &mut Reason,
    ) -> Result<(), DiskFailed> {
        match &mut self.open {
            Some(open) => {
                open.require_place(files, self.path.as_path(), reason)?;
                reason.hear(open.cut(len))
            }
            None => Err(reason.keep_kind(ErrorKind::NotFound)),
        }
    }

    /// Makes what the file reads last. The file has to be open.
    pub(crate) fn sync<R: Files<File = File>>(
        &mut self,
        files: &R,
        reason: &mut Reason,
    ) -> Result<(), DiskFailed> {
        match &mut self.open {
            Some(open) => open.sync(files, self.path.as_path(), reason),
            None => Err(reason.keep_kind(ErrorKind::NotFound)),
        }
    }

    /// Takes the lock of the file, without waiting. The first call opens it.
    pub(crate) fn try_lock<R: Files<File = File>>(
        &mut self,
        files: &R,
        folder: Path<'_>,
    ) -> Result<(), TryLockError> {
        self.opened(files, folder).map_err(TryLockError::Error)?;
        match &self.open {
            Some(open) => open.try_lock(files, self.path.as_path()),
            None => Err(TryLockError::WouldBlock),
        }
    }

    /// Puts a new file with the same bytes, which last, in the place of this one, if there is one. Until then the new file has the
    /// spare name, under which there is none.
    ///
    /// It is locked before it gets the name, so that nobody else can get the lock of the name in between.
    pub(crate) fn renew<R: Files<File = File>>(
        &mut self,
        files: &R,
        spare: Path<'_>,
    ) -> io::Result<()> {
        let path = self.path.as_path();
        if self.open.is_none() && !fs::exists(files, path)? {
            return Ok(());
        }
        if self.open.is_none() {
            let mut how = OpenOptions::new();
            how.read(true).write(true);
            self.open = Some(open_plain(files, &how, path)?);
        }
        if let Some(open) = &mut self.open {
            let copy = open.copied(files, spare)?;
            fs::rename(files, spare, path)?;
            self.open = Some(copy);
        }
        Ok(())
    }
}

/// Opens the file, made empty where it isn't there, and then syncs its folder, so that its name lasts.
///
/// The folder is synced where the file was there too, since whoever made it may have ended before that.
fn open_for_good<R: Files<File = File>>(
    files: &R,
    folder: Path<'_>,
    path: Path<'_>,
) -> io::Result<OpenFile> {
    let mut how = OpenOptions::new();
    how.read(true).write(true).create(true);
    let file = open_plain(files, &how, path)?;
    sync_folder(files, folder)?;
    Ok(file)
}

/// Opens a plain file: no folder, no device, and no link to anything.
fn open_plain<R: Files<File = File>>(
    files: &R,
    how: &OpenOptions,
    path: Path<'_>,
) -> io::Result<OpenFile> {
    let file = OpenFile::open(files, how, path)?;
    if file.is_told_by(&fs::symlink_metadata(files, path)?) {
        Ok(file)
    } else {
        Err(ErrorKind::InvalidInput.into())
    }
}

/// Makes the names in the folder last.
pub(crate) fn sync_folder<R: Files<File = File>>(files: &R, folder: Path<'_>) -> io::Result<()> {
    open_high(files, OpenOptions::new().read(true), folder)?.sync_all()
}
