//! What the program hands back.
ghost use Rattle.std.specs.Prelude.{◌≡◌};
ghost use Rattle.brahma_shell.specs.Ended.{disk_in};

use disk_model::Disk;
use logged_journal::LoggedJournal;
use script_lines::SLOTS;

/// What the program hands back with its status.
#[derive(Drop)]
pub enum Ended<D: Disk> {
    /// The disk. No journal stands on it.
    Shut(D),
    /// The journal that the command left, which holds the disk.
    Kept(LoggedJournal<SLOTS, D>),
}

impl<D: Disk> Ended<D> {
    /// The disk. It takes no memory.
    pub fn disk(self) -> D
        ensures { result ≡ disk_in self }
    {
        match self {
            Ended::Shut(disk) => disk,
            Ended::Kept(journal) => journal.into_disk(),
        }
    }
}
