//! Calls of the store, of which a run needs no more than that the pass stays the one that it is.
ghost use Rattle.share_runs.specs.Passes.{IsClientOf, IsToCall, StaysOf};

use crate::untold::UntoldDisk;
use plain_model::{Call, Reply};
use script_lines::SLOTS;
use shared_store::{Pass, Store};
use std::sync::Wait;
use std::thread;

/// A store of the runs on threads.
pub(crate) type TestStore = Store<SLOTS, UntoldDisk>;

/// A pass of it.
pub(crate) type TestPass = Pass<SLOTS, UntoldDisk>;

/// Makes the call, again as long as another pass has a word that it needs.
pub(crate) fn ask_on<R: Wait>(rt: &R, store: &TestStore, pass: &mut TestPass, call: &Call) -> Reply
    requires of { IsClientOf store.now pass.old }
    requires call { IsToCall call.now }
    ensures { StaysOf store.now pass.old pass.new }
{
    'tries: for _ in rt.forever() {
        match store.call(pass, call) {
            Reply::Again { .. } => thread::yield_now(),
            reply => return reply,
        }
    }
    unreachable!()
}
