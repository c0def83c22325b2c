//! The model of a case with its duties: each step of the model, watched.
//!
//! `spec_duties` has the definitions; `Cases` there joins duties with the model. Nothing is kept and nothing refused if
//! the header says `slack any`. A step looks up a bounded number of entries; only the end walks endpoints and inboxes,
//! once. As in `duties`, functions that pass on what a step shows are inlined: it has some 500 bytes, which each call
//! would copy.
//!
//! - `cases`: a case with its duties: each step, and the comparison at the end
//! - `observations`: what a step shows of the world; `calls`: the same for the effect of a call; `dropped`: for a
//!   segment that is dropped; `sampling`: whether a round trip is measured; `credits`: whether a credit is earned;
//!   `syns`: what is done with a SYN; `blocks`: which positions a selective acknowledgment reports;
//!   `kept`: which ones an endpoint keeps, and whether what it sends reports others; `arrivals`: what reaches an
//!   endpoint, and the timestamps of a segment
//! - `waiting`: calls that wait, and what is kept of them
//! - `case_end`: what is late at the end; `laws`: what duties read of the world and of the header
#![tactic(auto)]

mod arrivals;
mod blocks;
mod calls;
mod case_end;
mod cases;
mod credits;
mod dropped;
mod kept;
mod laws;
mod observations;
mod sampling;
mod syns;
mod waiting;

pub use case_end::late_at_end;
pub use cases::{Case, apply_hidden, take_line};
pub use kept::untrue_at;
pub use laws::{
    case_judged_alike, case_rules_ascend, less_judged_shows_the_same, nothing_discarded_is_seen,
    slack_is_not_read,
};
pub use observations::{observe_hidden, observe_line, view_in};
pub use waiting::{note_waits, waiting_on};
