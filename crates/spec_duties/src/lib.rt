//! Duties and limits: what a host must do, by when, and how often at most.
//!
//! Duties watch the steps of the model and add refusals; nothing here is part of the model's state, and no step has
//! another effect for them. A duty is kept for each endpoint, each segment in an inbox and each segment that was built.
//! It has a deadline, and is late at a moment that is after the deadline and the slack of the header.
//!
//! This crate has no code, only the values that duties keep and the definitions. `duties` implements them.
//!
//! - `views`: what duties read of an endpoint; `events`: what a step does at one
//! - `owed`: what an endpoint owes; `tables`: what is kept for listeners and built segments
//! - `strict`: what is kept for the stricter duties of version 6; `answering`: what is kept of calls that wait
//! - `observations`: all that duties read of the world at a step
//!
//! The definitions:
//!
//! - `specs/Deadlines`: when a duty is late
//! - `specs/Acknowledge`, `specs/Expire`, `specs/Retransmit`, `specs/Probe`, `specs/Start`, `specs/Reset`: a duty of an
//!   endpoint each: when it arises, by when it is due, and what ends it
//! - `specs/Resent`, `specs/Excess`: how often positions and acknowledgments are sent at most
//! - `specs/Credits`: which acknowledgments need a segment that came, in version 6
//! - `specs/Dropped`: which segments may be dropped, and which of them ask for an acknowledgment
//! - `specs/Strict`: the duties that are stricter in version 6, or have later deadlines; `specs/Sampling`: when round
//!   trips are measured at least; `specs/Answering`: by when a call that waits is answered
//! - `specs/Blocks`: which positions a selective acknowledgment reports as received; `specs/Kept`: which positions an
//!   endpoint keeps of a segment; `specs/Arrivals`: what reaches an endpoint, with its timestamps, and what it
//!   acknowledges
//! - `specs/Owed`: all that an endpoint owes; `specs/Observations`: what a step shows of the world
//! - `specs/Watching`: the rules of a step, and what is kept after it; `specs/End`: the comparison after the last step
#![tactic(auto)]

mod answering;
mod events;
mod observations;
mod owed;
mod strict;
mod tables;
mod views;

pub use answering::{Awaited, CallChange, OpenCall, Ready, SocketChange, Waitable, Waiting};
pub use events::{Event, Sending};
pub use observations::{
    Arrival, Block, Blocks, BuiltChange, Droppable, Dropping, InboxChange, Kept, Observation,
    Queueing, Sampling, SynChange, TouchedEndpoint, Untruth,
};
pub use owed::{Lates, Owed, Probing};
pub use strict::{StrictOwed, Unsent};
pub use tables::{Built, Listening};
pub use views::View;
