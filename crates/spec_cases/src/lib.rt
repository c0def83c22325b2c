//! A case: the model, with what is kept beside it.
//!
//! This crate has no code, only definitions.
//!
//! - `specs/Cases`: the model with its data in flight and its duties: the rules of a step, and what is known after it
//! - `specs/Slack`: what a greater slack accepts
#![tactic(auto)]
