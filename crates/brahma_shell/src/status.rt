//! The program's statuses.

/// The command was done: the script was read to its end, and each of its lines was done.
pub(crate) const DONE: u8 = 0;

/// The words have no reading.
pub(crate) const USAGE: u8 = 2;

/// A line of the script was refused, or a stream.
pub(crate) const SCRIPT_REFUSED: u8 = 3;

/// The source failed.
pub(crate) const READ_FAULT: u8 = 4;

/// The sink failed.
pub(crate) const WRITE_FAULT: u8 = 5;

/// The disk failed.
pub(crate) const DISK_FAULT: u8 = 6;

/// The disk holds no store, or none that is sound.
pub(crate) const STORE_REFUSED: u8 = 7;

/// Out of memory.
pub(crate) const OUT_OF_MEMORY: u8 = 8;

/// The history is full, or the log; or the log has no room to go on where a store is opened.
pub(crate) const LIMIT: u8 = 9;
