//! What a yes with a slack says of the duties and limits of version 5, in terms of the trace's lines and the witness's
//! steps.
//!
//! If a witness explains a trace whose header gives a slack, then segments were handled, sent, acknowledged and sent
//! again in time, and nothing was sent too often. Each statement is about places in the list of steps; what duties keep
//! between the steps doesn't appear in it. This crate has no code, only laws.
//!
//! - `laws`: the laws, each the contract of a call that does nothing; `strict_laws`: those of version 6 alone
//!
//! The definitions:
//!
//! - `specs/Places`: what steps do with segments, by the lines and numbers that they name
//! - `specs/Segments`: each segment that arrived was handled; each that was sent had just been built
//! - `specs/Made`: in version 6, each segment that was built was sent
//! - `specs/Drops`: each segment that was dropped may be; what was next in order was kept
//! - `specs/Happens`: what happens at an endpoint
//! - `specs/Answered`: in version 6, an answer is built after what it answers, and sent in time
//! - `specs/Soon`: by when acknowledgments, retransmissions, probes and waiting data are sent
//! - `specs/Asking`: which dropped segments ask for an acknowledgment, and by when it is sent
//! - `specs/Expiries`, `specs/Probes`: by when retransmission timers expire and closed windows are probed
//! - `specs/Resets`: by when aborted connections, and children of closed listeners, are reset
//! - `specs/Repeats`, `specs/Counts`: how often positions and mere acknowledgments are sent at most
#![tactic(auto)]

mod laws;
mod strict_laws;

pub use laws::{
    aborts_are_reset, acknowledgments_are_few, arrivals_are_handled, children_are_reset,
    drops_are_answered, drops_are_lawful, events_are_steps, expiries_are_followed,
    expiries_are_in_time, next_is_kept, nothing_is_resent_twice, probes_are_in_time,
    probes_are_sent, receipts_are_answered, repeats_stay_within, sendings_are_fresh, work_is_begun,
};
pub use strict_laws::{
    closed_windows_are_probed, drops_are_answered_after, receipts_are_answered_after,
    what_is_built_is_sent,
};
