//! The model: what two TCP hosts may do (RFC 9293, RFC 6298, RFC 5681, in one fixed profile).
//!
//! The definitions are in `specs/`, in two layers. `spec_network` has the tables by number, the threads and the wires.
//! This crate has what is below them: one body for each host and the acts on it, which know no table number, no thread
//! and no other host. The code has only the values that they use: endpoints, built segments, listeners with their
//! queues, sockets. The crates above implement the operations on them.
//!
//! - `endpoint`: endpoints, built segments, listeners, and what socket numbers name
//! - `arrived`: a segment as its receiving endpoint reads it; `queue`: a listen queue
//! - `profile`: the profile of congestion control that a header names
//!
//! The definitions:
//!
//! - `specs/Endpoints`: endpoints; `specs/HostTcp`: the body of a host, and look-ups in it; `specs/Same`: comparisons
//! - `specs/Calls`, `specs/Makes`, `specs/Arrives`, each with its folder: socket calls, building segments, processing
//!   segments
//! - `specs/Timeouts`, `specs/Recovery`, `specs/Reset`, `specs/Wire`: expiries, fast recovery, resets in answer to
//!   segments, the wire; all these have the names of the modules of `endpoint` that implement them
//! - `specs/Machine`: the whole model of two hosts; `specs/Steps`: the step for a line of a witness
//! - `specs/Forgetting`: what may be discarded; `specs/Bounds`: the bounds of all state after a number of steps
#![tactic(auto)]

mod arrived;
mod endpoint;
mod profile;
mod queue;

pub use arrived::Arrived;
pub use endpoint::{
    Emission, Endpoint, EndpointId, Fault, Listener, Socket, SocketTarget, Stream, TextTaken,
    Windows, giver, window_in,
};
pub use profile::profile_of;
pub use queue::Queue;
