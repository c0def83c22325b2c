//! What a run says of data in flight if neither the model nor what is kept of that data refuses one of its steps.
//!
//! A yes in version 6 means that the case's steps are such a run. The statements are about places in the list of steps
//! and about what `observe` shows of them. What is kept of data in flight between the steps doesn't appear in it. This
//! crate has no code, only laws.
//!
//! Each law is the contract of a call that does nothing:
//!
//! - `laws`: data that is sent again
//! - `blocks`: selective acknowledgments
//!
//! The definitions:
//!
//! - `specs/Places`: the steps of a run by their places, and what they do at an endpoint
//! - `specs/Reported`: what a block reported isn't sent again in fast recovery
//! - `specs/Holding`: the blocks that are sent are true
//! - `specs/Peers`: what a block reports was received by the peer
//! - `specs/Reasons`: without selective acknowledgments, nothing is sent again without a new reason
#![tactic(auto)]

mod blocks;
mod laws;

pub use blocks::{blocks_are_true, reports_are_taken};
pub use laws::{repeats_have_reasons, what_was_reported_stays};
