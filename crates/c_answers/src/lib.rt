//! Answers to a case in numbers, and strings in memory that C gives: what `tcpwit_c` exports, as a library.
//!
//! - `answer`: an answer to a case, in numbers (`specs/Answers`); `numbers`: back from them
//! - `checks`: the verdict on a case
//! - `strings`: text in memory that C gives (`specs/Strings`)
#![tactic(auto)]

mod answer;
mod checks;
mod numbers;
mod strings;

pub use answer::Answer;
pub use checks::{answer_to_case, answer_to_texts};
pub use strings::{write_answer_line, write_rule_name};
