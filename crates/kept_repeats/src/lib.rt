//! When an endpoint sends again what it sent before, if both SYNs permitted selective acknowledgments.
//!
//! A yes in version 6 means that the case's steps are a run of which data in flight refuses no step. The statements
//! here follow from that, as those of `kept_flights` do, and are about the same places in the list of steps. This crate
//! has no code, only laws.
//!
//! Each law is the contract of a call that does nothing; all are in `laws`.
//!
//! The definitions:
//!
//! - `specs/Voiding`: what a block reported isn't sent again before a timeout
//! - `specs/Deliveries`: what is lost, since something was delivered that was built later
//! - `specs/Rescues`: what is sent again without another reason is a rescue
#![tactic(auto)]

mod laws;

pub use laws::{only_timeouts_void_reports, repeats_are_rescues, rescues_come_once};
