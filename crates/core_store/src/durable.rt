//! What of a journal outlasts a crash.
ghost use Rattle.core_store.specs.Safe.{DurableAllLaw, DurableKeptLaw, JournalCrashLaw};

/// Where a safe journal makes all its notes durable, they are what a crash keeps, and stay so until a commit is done. A
/// store that crashed opens to what they say, and its graph is one that the crash may leave.
pub fn durable_notes_outlast_crashes()
    ensures forced { DurableAllLaw }
    ensures later { DurableKeptLaw }
    ensures crash { JournalCrashLaw }
{}
