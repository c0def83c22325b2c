//! What a yes with a slack says in version 6 of calls that wait, of acknowledgments without news, and of round trips.
//!
//! Each statement is about places in the list of steps, and about what the steps do in the model; what duties keep
//! between the steps doesn't appear in it. This crate has no code, only laws.
//!
//! - `laws`: the laws, each the contract of a call that does nothing
//!
//! The definitions:
//!
//! - `specs/Awaiting`: a call that waits gets its answer in time
//! - `specs/Earning`: an acknowledgment without news is sent for a segment that came
//! - `specs/Measuring`: round trips are measured
#![tactic(auto)]

mod laws;

pub use laws::{acknowledgments_are_earned, calls_are_answered, samples_are_taken};
