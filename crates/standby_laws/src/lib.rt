//! What a standby has that was fed with a base of a store and with the first bytes of its log after that. Each law is the contract of
//! a function with an empty body, so that the check accepts this crate only where each law is proved.
#![tactic(auto)]

ghost use Rattle.standby_laws.specs.Fronts.{BeginLaw, LaterLaw, FrontLaw, StaysLaw};

/// A store that makes a checkpoint goes on from it, batch by batch of its log. The pages that have no image in the log stay in place.
pub fn logs_go_on_from_checkpoints()
    ensures begin { BeginLaw }
    ensures later { LaterLaw }
{}

/// A standby that was fed with the base of a store, and with any first bytes of the log after it, is promoted to what the store would
/// have opened to, had it lost power when its log had just the batches that are whole in these bytes. So it has the objects and the
/// reach of the committed graph after some front of the commits, which has each one that was acknowledged by then.
pub fn streams_give_fronts()
    ensures { FrontLaw }
{}

/// What a crash may leave of a store has the objects and the reach of the committed graph after some front of its commits. So it is
/// with all the commits of later too, however the store goes on: what a standby has stays a front of what the store did.
pub fn fronts_stay_fronts()
    ensures { StaysLaw }
{}
