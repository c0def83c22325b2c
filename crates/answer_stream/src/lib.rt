//! Many cases of one input, answered by several threads while it is read.
//!
//! ```text
//! let status = answer_cases(rt, alloc, 4, &mut reader, &mut writer);
//! ```
//!
//! Each worker takes a batch of cases, checks them, and prints their answers once all answers before them are printed.
//! A batch is the next case and those after it that the reader has at hand as a whole, up to a limit (`batch`): a
//! worker waits for input only before it has a case. So an answer is printed, and flushed, before the next case has to
//! be written. A worker holds one batch; of the answers that wait for an earlier one there are fewer than
//! `MOST_WAITING`, and those of one batch per worker. Whatever the number of workers, the answers are printed in the
//! order of the cases (`specs/Endings`). No clause says that two threads ran at once, how many cases a batch has, or
//! that an answer is printed before the next case is read.
//!
//! Private modules:
//!
//! - `stream`: which input and which writer the threads share
//! - `source`: the input, which one worker at a time reads; `state`: whether it has a further case
//! - `batch`: cases that are taken at once, and the lines of their answers; `long`: a line that isn't held
//! - `printer`: the answers, which one worker at a time prints
//! - `work`: the workers, and the call that starts them
//! - `run`: the whole run, with its status
#![tactic(auto)]

mod batch;
mod long;
mod printer;
mod run;
mod source;
mod state;
mod stream;
mod work;

pub use run::answer_cases;
