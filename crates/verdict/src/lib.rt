//! Verdicts, and the rules that they name.
//!
//! - `rule`: the rules that a step may break, by name
//! - `report`: a verdict, and its line of output
//!
//! `interval_order` defines when a rule is broken for the first six and the last, and `spec_step` for the others;
//! `checker` defines the verdict of a case. `specs/Rules` and `specs/VerdictText` define the texts.
#![tactic(auto)]

mod report;
mod rule;

pub use report::{Verdict, print_verdict};
pub use rule::Rule;
