//! What one host records of its own TCP: a core that chooses among the steps that the model permits, and records each.
//!
//! A core has a world of its own host only. Steps change it, and so do segments of the other host that are brought,
//! that is, put on that host's wire here so that they may arrive. Contracts see the core's entries, its ring, its last
//! tick and the count of its events; the world is the one to which the entries lead. The contract of each event states
//! exactly what it adds (`specs/*Events`), and what it leaves if memory ran out. Only permitted entries are added, so
//! the entries are a run of the host after every event (`IsRecorded`). The recordings of two cores, after any events
//! (`specs/CoreWorlds`), are two matching books; merged, they are a run of both hosts and a placement of its lines
//! (crate `spec_merge`). Contracts don't say which of the permitted steps a core chooses, except where the pages on
//! recording hosts do.
//!
//! - `tick`, `transit`, `item`, `entry`: when events are, segments in transit, and the entries of a recording
//! - `recording`: the entries of one host, with the world that they leave
//! - `host_core`: the core, and what every event uses
//! - `begin`, `attempt`, `answers`, `answered`: calls, and the answer that a call has now, never `again`
//! - `pump`, `next_segment`, `outgoing`: a segment is made and sent; `resets`: resets that answer a segment, and wait
//! - `deadline_queue`, `affected`: which endpoints are to be visited, and which a step may change
//! - `send_states`, `plans`, `greatest`: what a core remembers of its endpoints, what it would make at one, and its
//!   choice of windows
//! - `arrive`: a segment arrives, and is taken, answered or dropped
//! - `timers`: a timer expires
//! - `laws`: what a host sent stays on its wire, and what is brought names it; two cores record two matching books
#![tactic(auto)]

mod affected;
mod answered;
mod answers;
mod arrive;
mod attempt;
mod begin;
mod deadline_queue;
mod entry;
mod greatest;
mod host_core;
mod item;
mod laws;
mod next_segment;
mod outgoing;
mod plans;
mod pump;
mod recording;
mod resets;
mod send_states;
mod tick;
mod timers;
mod transit;

pub use answered::Answered;
pub use entry::Entry;
pub use host_core::{CoreConfig, HostCore};
pub use item::Item;
pub use laws::{core_worlds_are_books, what_flew_is_named};
pub use recording::Recording;
pub use tick::{Key, Tick};
pub use transit::Flying;
