//! A case, read once, and replayed step by step.
//!
//! The programs around the checker need more than a verdict: the values of a case, and the world and its duties before
//! and after each step. The verdict is `checker`'s, and the verdicts don't depend on this crate. Each function is
//! proved only to be safe and to return.
//!
//! - `texts`: the two texts of a case, and their lines
//! - `case`: the values of a case and its verdict; where the verdict refuses it
//! - `replay`: the world and its duties before and after each step; `debts`: what endpoints owe, and what is late;
//!   `unsent`: segments that were built and are late; `touched`: the endpoint that a step touches,
//!   and what it knows of losses
//! - `refusal`: what a verdict refuses, as values; `reasons`: what two rules of sending compare
//! - `unused_lines`: the lines of a trace, which are read as steps use them
//! - `calls`: what a call names
#![tactic(auto)]

mod calls;
mod case;
mod debts;
mod reasons;
mod refusal;
mod replay;
mod texts;
mod touched;
mod unsent;
mod unused_lines;

pub use calls::socket_of;
pub use case::{Case, Refusal};
pub use debts::{Debt, Debtor, Late, debts_of};
pub use reasons::{Reason, congestion_reason, end_of, old_data_reason};
pub use refusal::{Refused, refused_by};
pub use replay::{Replay, ReplayFault, has_room};
pub use texts::{Texts, line_at};
pub use unsent::Held;
