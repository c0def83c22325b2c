//! The model's state of a case: two hosts, threads with their calls, how many segments were made, and how many steps
//! were done. Each kind of step is one function of `World`, which checks the rules and does the step if none is broken;
//! for each, a function whose name begins with `admits_` only checks.
//!
//! `specs/Worlds.antt` defines the state of a case, `specs/Kinds.antt` a host's state after each kind of step,
//! `specs/Calls.antt` what a call may answer, and `specs/Sides.antt` both hosts' state after a step of one of them.
//! `specs/Kept.antt` states the invariant of every world here, so that counts and positions never overflow. `step_of`
//! of `spec_tcp` defines which step a label means.
//!
//! - `world`: the state of a case, and every step except the effect of a call
//! - `calls`: the effect of a call, and the two rules of its answer
//! - `queries`: further queries of a world
//! - `fault`: why a step was refused
//! - `host_pair`: the two hosts, one of which acts; `host`: one host's state, and each step there
//!
//! The tables of a host and of the threads, and how lines change them:
//!
//! - `threads`: where each thread is, and the lines that begin and end a call
//! - `made`: segments that were made, and the lines that send them
//! - `arrivals`: the lines of arrivals, and what waits in an inbox
//!
//! One host's TCP state below its tables:
//!
//! - `host_tcp`: endpoints, listeners and sockets, and how they are found. Its folder has a file for each event, with
//!   its rules and its effect: `calls`, `makes`, `arrives` (with the rules of a reset), `timeouts`, `recovery`
//! - `endpoints`: found by their ports, and each changed in its place; `listeners`: found by their ports, with their
//!   queues
//! - `laws`: limits of counts and positions
//!
//! Functions that only hand a call or an answer on are inlined, which saves a copy of it.
#![tactic(auto)]

mod arrivals;
mod calls;
mod endpoints;
mod fault;
mod host;
mod host_pair;
mod host_tcp;
mod laws;
mod listeners;
mod made;
mod queries;
mod threads;
mod world;

pub use calls::{admits_effect, call_allowed, do_call};
pub use fault::StepFault;
pub use host_tcp::HostTcp;
pub use laws::{acts_keep, emissions_are_small, have_room, kept_longer};
pub use made::Made;
pub use spec_tcp::{Endpoint, Listener};
pub use world::World;
