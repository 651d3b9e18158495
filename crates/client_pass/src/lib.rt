//! Clients on threads of their own, each with a script of transactions.
//!
//! A client's worker makes the calls of its script, one after another. A call that finds a word held by another pass is made
//! again. A call that finds another client in its way is made again too; at the eighth time the transaction is aborted and tried
//! again, and at the fourth such abort it is given up. [`run_all`] runs a worker for each client, with the collector beside them.
#![tactic(auto)]

mod asking;
mod attempts;
mod collecting;
mod ends;
mod gate;
mod running;
mod script;
mod working;

pub use ends::{RunEnd, WorkEnd};
pub use gate::{Gate, OpenGate};
pub use running::run_all;
pub use script::{Calls, ClientScript, Txns};
pub use working::work;
