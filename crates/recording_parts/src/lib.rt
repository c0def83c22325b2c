//! What the hosts that record themselves decide in one step each: `stack_core` and `recorder` call these
//! functions. They are a crate of their own so that faulty implementations of them are refused without proving those
//! crates again. Each contract says which result there is, except that `told_shift` may always return None.
//!
//! - `steps`: what a core does if the model permits it
//! - `calls`: how calls end
//! - `segments`: whose a segment is, and what it carries
//! - `merge`: the order of entries, and which segment is the first that wasn't sent
//! - `seats`: the count of answers, and whether each seat was handed in
#![tactic(auto)]

mod calls;
mod merge;
mod seats;
mod segments;
mod steps;

pub use calls::{call_end, on_no_socket};
pub use merge::{first_found, is_lesser};
pub use seats::{are_all, count_answer};
pub use segments::{GREATEST_SHIFT, is_own, payload_of, told_shift};
pub use steps::{Due, choice_if, due_if, plan_if, with_bytes};
