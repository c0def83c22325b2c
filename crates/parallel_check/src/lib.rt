//! Many cases, checked by several threads.
//!
//! ```text
//! let answers = check_many_plain(alloc, &[case.into_bytes()])?;
//! let explained = Verdict::Yes { lines: 4, hidden: 2 };
//! assert!(rt; answers.as_slice() == [Ok(explained)].as_slice());
//! ```
//!
//! - `check_many`: by so many workers, 1 to 64; `check_many_slices`: the same for borrowed cases
//! - `Gate`: what a worker calls before and after each case
//! - `check_many_plain`: the same on the thread of the caller, with the same answers
//! - `CaseResult`: the answer to one case
//!
//! Each worker takes the first case that none has taken, checks it, and keeps the answer with the case's number. The
//! answers are then put in the order of the cases: they are those of a single thread, whatever the number of workers
//! and whichever ended first (`specs/Answers`). No clause says that two threads ran at once, or how long one took.
//!
//! Private modules:
//!
//! - `work`: the workers, and the call that starts them
//! - `gather`: the answers of the workers, in the order of the cases
//! - `plain`: the same on the thread of the caller
#![tactic(auto)]

mod gather;
mod plain;
mod work;

pub use plain::{CaseResult, check_many_plain};
pub use work::{Gate, check_many, check_many_slices};
