//! The files under a disk of the operating system. No contract says which bytes they have.
use crate::area_file::{AreaFile, sync_folder};
use crate::high_file::open_high;
use crate::reason::Reason;
use disk_model::{Area, DiskFailed};
use std::alloc::{AllocError, Global};
use std::fs::{File, Files, OpenOptions, TryLockError};
use std::io::ErrorKind;
use std::path::{Path, PathBuf};
use std::{fs, io};

/// A file for each area.
#[derive(Drop)]
struct AreaFiles {
    pages: AreaFile,
    log_a: AreaFile,
    log_b: AreaFile,
    super_area: AreaFile,
}

impl AreaFiles {
    /// The files of this folder, none of them opened yet.
    fn new(alloc: Global, folder: Path<'_>) -> Result<AreaFiles, AllocError> {
        Ok(AreaFiles {
            pages: AreaFile::new(alloc, folder, "brahma.pages")?,
            log_a: AreaFile::new(alloc, folder, "brahma.loga")?,
            log_b: AreaFile::new(alloc, folder, "brahma.logb")?,
            super_area: AreaFile::new(alloc, folder, "brahma.super")?,
        })
    }

    /// The file of this area.
    fn of(&mut self, area: Area) -> &mut AreaFile {
        match area {
            Area::Pages => &mut self.pages,
            Area::LogA => &mut self.log_a,
            Area::LogB => &mut self.log_b,
            Area::Super => &mut self.super_area,
        }
    }

    /// Renews each file, by way of the spare name.
    fn renew<R: Files<File = File>>(&mut self, files: &R, spare: Path<'_>) -> io::Result<()> {
        self.pages.renew(files, spare)?;
        self.log_a.renew(files, spare)?;
        self.log_b.renew(files, spare)?;
        self.super_area.renew(files, spare)
    }
}

/// A file for each area, all in one folder.
///
/// Beside them lies, from the lock on to a good end, an empty file as a mark of the run. Where a run finds the mark of another one, that
/// one did not end well: it was killed, or a call failed, maybe a sync. The system may then keep in memory, and give to whoever reads,
/// what never reached the medium, and count it as written, so that no later sync writes it. So each file is renewed then. The mark is
/// not synced: where it is lost, so is what the system kept in memory.
#[derive(Drop)]
pub(crate) struct HostFiles<R: Files<File = File>> {
    files: R,
    folder: PathBuf,
    areas: AreaFiles,
    mark: PathBuf,
    has_mark: bool,
    spare: PathBuf,
    reason: Reason,
}

impl<R: Files<File = File> + Drop> HostFiles<R> {
    /// The files of this folder, none of them opened yet.
    pub(crate) fn new(alloc: Global, files: R, folder: &str) -> Result<HostFiles<R>, AllocError> {
        let path = Path::new(folder);
        Ok(HostFiles {
            files,
            folder: PathBuf::from_str(alloc, folder)?,
            areas: AreaFiles::new(alloc, path)?,
            mark: path.join(alloc, "brahma.open")?,
            has_mark: false,
            spare: path.join(alloc, "brahma.new")?,
            reason: Reason::none(),
        })
    }

    /// Takes the lock of the super area's file. It is held until these files are dropped.
    pub(crate) fn lock(&mut self) -> Result<(), TryLockError> {
        let folder = self.folder.as_path();
        self.areas.super_area.try_lock(&self.files, folder)
    }

    /// Marks that a run has begun, and renews the files where another run did not end well. They have to be locked.
    pub(crate) fn begin(&mut self) -> io::Result<()> {
        self.drop_spare()?;
        let mut how = OpenOptions::new();
        how.write(true).create_new(true);
        match open_high(&self.files, &how, self.mark.as_path()) {
            Ok(_) => {}
            Err(error) if error.kind() == ErrorKind::AlreadyExists => self.renew()?,
            Err(error) => return Err(error),
        }
        self.has_mark = true;
        Ok(())
    }

    /// Takes the mark of the run away, where it has one. If that fails the next run renews the files, and nothing else comes of it.
    pub(crate) fn end(&self) {
        if self.has_mark {
            let _ = fs::remove_file(&self.files, self.mark.as_path());
        }
    }

    /// Puts a new file in the place of each one, with the same bytes, and makes that last. Where it fails no part of a new one is left.
    fn renew(&mut self) -> io::Result<()> {
        if let Err(error) = self.areas.renew(&self.files, self.spare.as_path()) {
            let _ = self.drop_spare();
            return Err(error);
        }
        sync_folder(&self.files, self.folder.as_path())
    }

    /// Removes what is left of a new file.
    fn drop_spare(&self) -> io::Result<()> {
        match fs::remove_file(&self.files, self.spare.as_path()) {
            Err(error) if error.kind() == ErrorKind::NotFound => Ok(()),
            answer => answer,
        }
    }

    /// Why the first call failed, where one did.
    pub(crate) fn reason(&self) -> Option<io::Error> {
        self.reason.first()
    }

    /// Fails as after a sync that failed.
    pub(crate) fn fail(&mut self) -> DiskFailed {
        self.reason.keep_kind(ErrorKind::Other)
    }

    /// How many bytes the area has.
    pub(crate) fn len(&mut self, area: Area) -> Result<u64, DiskFailed> {
        let folder = self.folder.as_path();
        match self.areas.of(area).opened(&self.files, folder) {
            Ok(file) => self.reason.hear(file.len()),
            Err(error) => Err(self.reason.keep(error)),
        }
    }

    /// Fills the buffer with the bytes of the area from this offset on. All of them have to be there.
    pub(crate) fn read_at(
        &mut self,
        area: Area,
        at: u64,
        into: &mut [u8],
    ) -> Result<(), DiskFailed> {
        let folder = self.folder.as_path();
        match self.areas.of(area).opened(&self.files, folder) {
            Ok(file) => self.reason.hear(file.read_at(at, into)),
            Err(error) => Err(self.reason.keep(error)),
        }
    }

    /// Writes the bytes at this offset of the area, which can't be past the end.
    ///
    /// A single byte that goes into a log area commits the batch that was written before it. Each other write asks first whether the file
    /// still lies under its name, with as many bytes as it is to have.
    pub(crate) fn write_at(&mut self, area: Area, at: u64, bytes: &[u8]) -> Result<(), DiskFailed> {
        let folder = self.folder.as_path();
        let file = self.areas.of(area);
        file.require_open(&self.files, folder, &mut self.reason)?;
        if matches!(area, Area::LogA | Area::LogB) && bytes.len() == 1 {
            file.commit_at(at, bytes, &mut self.reason)
        } else {
            file.write_at(&self.files, at, bytes, &mut self.reason)
        }
    }

    /// Takes the bytes of the area from this length on away. The area can't be shorter.
    pub(crate) fn cut(&mut self, area: Area, len: u64) -> Result<(), DiskFailed> {
        let folder = self.folder.as_path();
        let file = self.areas.of(area);
        file.require_open(&self.files, folder, &mut self.reason)?;
        file.cut(&self.files, len, &mut self.reason)
    }

    /// Makes what the area reads last.
    pub(crate) fn sync(&mut self, area: Area) -> Result<(), DiskFailed> {
        let folder = self.folder.as_path();
        let file = self.areas.of(area);
        file.require_open(&self.files, folder, &mut self.reason)?;
        file.sync(&self.files, &mut self.reason)
    }
}
