//! That the trait [`Disk`](crate::Disk) promises no more than a plain disk has, and that a disk in memory
//! loses no more than it may.
ghost use Rattle.disk_model.specs.PlainLaws.{plain-write, plain-cut, whole-write, whole-cut, plain-sync, plain-look, plain-loss, plain-reads, plain-counts_now, plain-only_now};
ghost use Rattle.disk_model.specs.MemoryLaws.{loss-leaves-image};

/// Take a disk by the plain definition: a crash leaves an area with a length between the least and the
/// greatest since its last sync, and with the synced byte at each synced offset in no range written
/// since; all else is open, and a call that failed counts as one that may be done. Such a disk keeps
/// what the trait promises: for writes and cuts, whole or in part, for syncs, for calls that change
/// nothing and for power losses.
pub fn crash_images_keep_the_promises()
    ensures write { plain-write }
    ensures cut { plain-cut }
    ensures write_whole { whole-write }
    ensures cut_whole { whole-cut }
    ensures sync { plain-sync }
    ensures look { plain-look }
    ensures power_loss { plain-loss }
    ensures reads { plain-reads }
    ensures counts_now { plain-counts_now }
    ensures only_now { plain-only_now }
{}

/// What a disk in memory reads after a power loss is one of the images that a power loss may leave of
/// it: some first pending changes done, the next one perhaps torn, and no other. One choice gives all
/// four areas at once.
pub fn power_losses_leave_images()
    ensures { loss-leaves-image }
{}
