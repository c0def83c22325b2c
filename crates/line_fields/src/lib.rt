//! The common parts of the texts of traces and witnesses: lines, fields, answers, and faults.
//!
//! A text is read line by line; this crate turns a line's bytes into a cursor over its fields, each with its columns. A
//! reader of a value reads fields from the cursor, and returns the first fault with its place. Each reader is specified
//! as a function on the list of the remaining fields (`specs/Reading`). `specs/Spelling` and `specs/Answers` define how
//! values are spelled: each field is a fixed text, or bytes in hex with digits of either case.
//!
//! Lines and fields:
//!
//! - `source_lines`: the next line of a text, of which only one line is kept in memory
//! - `lines`: a line's end and its limits, and lines with a fixed text
//! - `first_line`: the first line of a witness, and the numbers of the lines of its steps
//! - `fields`: the cursor, and the numbers, hosts and bytes that it reads
//! - `plain`: fields as they are usually written, read without a fault
//! - `first_field`: where the first field of a text ends, and the number that it spells
//! - `last_field`: the last field of a line, whose digits are read later
//! - `fault`: why a text can't be read, and where
//!
//! Digits:
//!
//! - `digits`: numbers in decimal and bytes in hex, digit by digit
//! - `blocks`: bytes in hex, read sixteen at a time; `hex_digits`: written so
//!
//! Words for values, read and printed:
//!
//! - `hosts`: the numbers of hosts, and how many were recorded
//! - `states`, `timers`: the names of states and of timers
//! - `congestion`, `lateness`: how much of congestion control is judged, and how late a host may be
//! - `control`: the sender's congestion control, and how its window may grow
//! - `answers`: the answers of calls, which are in both texts
//! - `output`: words, numbers and answers, appended to a `Vec` as bytes
#![tactic(auto)]

mod answers;
mod blocks;
mod congestion;
mod control;
mod digits;
mod fault;
mod fields;
mod first_field;
mod first_line;
mod hex_digits;
mod hosts;
mod last_field;
mod lateness;
mod lines;
mod output;
mod plain;
mod source_lines;
mod states;
mod timers;

pub use answers::{AnswerWord, answer, answer_law, answer_word_named, plain_answer};
pub use case_forms::{OutOfMemory, Span};
pub use congestion::{judged, judged_name};
pub use control::{growth, growth_name, sender, sender_name};
pub use digits::hex_onto;
pub use fault::{FaultKind, SourceFault, TextFault, keep_fault, none_kept};
pub use fields::{Fields, Token, is_text};
pub use first_line::{FIRST_STEP, first_text, step_line};
pub use hosts::{host_number, hosted};
pub use lateness::slack;
pub use lines::{checked_fields, checked_line, expect_line, without_line_end};
pub use output::{
    push_answer, push_end, push_hex, push_host, push_line, push_number, push_space, push_word,
};
pub use segment::SegFault;
pub use source_lines::{after_line, next_line, require_line};
pub use states::{state_name, state_named};
pub use timers::{timer, timer_name};
