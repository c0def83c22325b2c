//! Answers to cases: their lines, their exit statuses, and their order.
//!
//! `specs/Output` defines the line and the status of an answer.
//!
//! - `gathered`: lines of answers that are written at once
//! - `line`: the line of an answer
//! - `slots`: answers in the slots of their cases
//! - `status`: the exit status of a yes, of a no, and of a case without a verdict
#![tactic(auto)]

mod gathered;
mod line;
mod slots;
mod status;

pub use gathered::Gathered;
pub use line::{append_line, line_of};
pub use slots::put_at;
pub use status::{DEVICE, MEMORY, REFUSED, exit_status, status_of};
