//! Duties and limits: what a host must do, by when, and how often at most. They watch the steps of the model and add
//! refusals; no step has another effect for them.
//!
//! `spec_duties` has the definitions, in a file for each duty. Here is what is kept between steps, the rules of a step,
//! and what is kept after it, given what the step shows of the world. `watched` computes that, and joins both with the
//! model. Each function looks up a bounded number of entries.
//!
//! - `steps`: the rules of a step, and what is kept after it; `steps/strict`: the same for the stricter duties
//! - `owed`: what an endpoint owes; `acknowledge`, `expire`, `retransmit`, `probe`, `start`, `reset`: a duty each
//! - `strict`: the duties that version 6 changes; `strict_tables`: what is kept for them
//! - `answering`: by when a call that waits is answered; `answer_tables`, `steps/answers`: what is kept of such calls
//! - `resent`, `excess`, `credits`: the limits; `sampling`: when round trips are measured at least
//! - `dropped`: which segments may be dropped, and what a dropped one asks for
//! - `views`, `deadlines`: what duties read of an endpoint; when one is late
//! - `per_host`: a value for each host
//! - `laws`: what a greater slack accepts
//!
//! Each function of a step is inlined. Otherwise what a step shows (`Observation`, some 400 bytes) is copied from one
//! to the next, which takes as long as all that they compute.
#![tactic(auto)]

mod acknowledge;
mod answer_tables;
mod answering;
mod credits;
mod deadlines;
mod dropped;
mod excess;
mod expire;
mod laws;
mod owed;
mod per_host;
mod probe;
mod resent;
mod reset;
mod retransmit;
mod sampling;
mod start;
mod steps;
mod strict;
mod strict_tables;
mod views;

pub use acknowledge::acknowledge_due;
pub use answering::{answer_due, unanswered_since};
pub use credits::earliest_credit;
pub use deadlines::{is_late, is_late_at_once, judged_slack};
pub use dropped::{
    Target, acknowledges_less, asks, discards, dropping_of, has_content, is_below_irs,
    is_challenged, meets_closed_window, processing_place, reads_old_numbers,
};
pub use expire::expiry_due;
pub use laws::{less_late_is_more_accepted, nothing_is_judged, slack_is_hardly_noted};
pub use owed::{admits_lates, either, lates_of, none_late};
pub use probe::probing_due;
pub use reset::reset_since;
pub use start::start_due;
pub use steps::{Duties, rule_of};
pub use strict::{coarse_expiry_due, coarse_probing_due, with_brought};
pub use views::{unborn, view_of};
