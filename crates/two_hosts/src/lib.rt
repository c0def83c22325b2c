//! A recording of two hosts that talk over one connection: host 0 opens it and sends, host 1 listens and receives.
//!
//! Each host has a recorder of its own, an application thread, and three threads for its segments and its timers. At
//! the end, both books are merged into a trace and a witness that explains it, as the contract of `record` states.
//!
//! - `plan`: the plan of a recording, and what both hosts begin with (`specs/Plans`)
//! - `caller`: an application thread at its recorder
//! - `applications`: what both applications do
//! - `wire`: what becomes of the segments in transit
//! - `threads`: both applications and the loops of both recorders
//! - `fault`: why there is no recording
//! - `ends`: whether a trace shows that all rounds ended
//! - `laws`: that the end of all rounds is reported exactly if all was received and both applications closed
//! - `recording`: the whole recording
#![tactic(auto)]

mod applications;
mod caller;
mod ends;
mod fault;
mod laws;
mod plan;
mod recording;
mod threads;
mod wire;

pub use fault::RecordFault;
pub use laws::rounds_have_ended;
pub use plan::Plan;
pub use recording::{Books, Recording, record, record_books};
pub use wire::{Talk, Wire};
