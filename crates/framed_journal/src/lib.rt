//! A journal with its log and all its frames, on one thread: the frames that a call wants are held, the call is made on
//! them, and they are put back.
#![tactic(auto)]

mod framed;
mod holding;

pub use framed::FramedJournal;
