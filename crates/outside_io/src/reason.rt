//! Why the first call on the files failed.
use disk_model::DiskFailed;
use std::io;
use std::io::ErrorKind;

/// Why the first call failed, where one did. It is for a message alone.
///
/// What the operating system answers is long. So it is kept here as soon as it comes, and the calls above answer only that it came.
#[derive(Drop)]
pub(crate) struct Reason {
    first: Option<io::Error>,
}

impl Reason {
    /// No call failed.
    pub(crate) fn none() -> Reason {
        Reason { first: None }
    }

    /// Why the first call failed.
    pub(crate) fn first(&self) -> Option<io::Error> {
        self.first
    }

    /// A call failed for this reason.
    #[inline(never)]
    pub(crate) fn keep(&mut self, error: io::Error) -> DiskFailed {
        if self.first.is_none() {
            self.first = Some(error);
        }
        DiskFailed
    }

    /// A call failed for a reason of this kind.
    #[inline(never)]
    pub(crate) fn keep_kind(&mut self, kind: ErrorKind) -> DiskFailed {
        self.keep(kind.into())
    }

    /// What the operating system answered, with the reason kept where that is an error.
    #[inline(always)]
    pub(crate) fn hear<T>(&mut self, answer: io::Result<T>) -> Result<T, DiskFailed> {
        match answer {
            Ok(value) => Ok(value),
            Err(error) => Err(self.keep(error)),
        }
    }
}
