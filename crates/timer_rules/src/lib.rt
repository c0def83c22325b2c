//! When the timers of an endpoint may expire, and its retransmission timeout (RFC 6298; RFC 9293, 3.8.6.1 and 3.6.1).
//! All times and moments are in microseconds.
//!
//! - `timers`: the timers of an endpoint; samples, arming, back-off, expiries
//! - `fault`: why an expiry was refused
//! - `laws`: the same in the words of RFC 6298
//!
//! `specs/Timeouts` and `specs/Timers` have the formulas. `spec_tcp/specs` defines which event arms or stops which
//! timer, and which round trips may be sampled; `endpoint` implements it.
#![tactic(auto)]

mod fault;
mod laws;
mod timers;

pub use fault::TimerFault;
pub use laws::{
    back_off_is_exponential, expiries_are_apart, expiry_is_exact, never_passes_a_minute,
    samples_are_exact, samples_are_smooth, timeout_is_bounded,
};
pub use timers::{LONGEST_RTO, Timers};
