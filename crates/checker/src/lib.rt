//! Whether a witness explains a trace.
//!
//! ```text
//! let case = format!(in alloc; "{}{}", trace, witness)?;
//! let verdict = check_case(alloc, case.as_bytes())?;
//! assert!(rt; verdict == Verdict::Yes { lines: 4, hidden: 2 });
//! ```
//!
//! - `check_case`: a case in one text, the trace and then its witness; `CaseFault`: why there is no verdict
//! - `check_reader`: the same for a reader, judged while it is read; `check_streams`: a case in two texts
//! - `check`: a trace and a witness that are in memory
//! - `print_case`: both as one text, which is a case with their verdict
//! - the laws, such as `explained_is_yes`: what holds for every trace and witness; each is the contract of a call that
//!   does nothing
//!
//! A witness is replayed once, step by step: `interval_order` decides whether the step may take its line now, and
//! `spec_step` whether the model permits it. `specs/Explains` defines what a yes means, by places in the two lists;
//! read it first. `specs/Meaning` is the whole contract of a verdict, which each function that judges a case cites.
//! `specs/Headline` says what follows from a yes for the bytes that receives returned, in terms of lines
//! and steps only; `specs/Judges` what each verdict says; `specs/Verdicts` which verdict it is; `specs/Consequences`
//! what follows from a yes for streams and windows. `specs/Ahead` defines what is left of a trace that is read one line
//! ahead, `specs/Streaming` and `specs/Turns` how far a case has come, and `specs/Texts` what both texts give.
//!
//! Private modules:
//!
//! - `case`: a case in one text, which is split and then judged as in `two_texts`
//! - `one_text`: a case in one text, judged while it is read
//! - `two_texts`: a case in two texts, judged while they are read
//! - `ahead`: a trace that is read one line ahead
//! - `offering`: the lines that a step's moment reaches, and a line that a step names before it is reached
//! - `turns`: what a turn does: it reads a step, does it, and says no if it is refused
//! - `lists`: a trace and a witness that are in memory
//! - `verdicts`: the loop with a turn for each step, and the verdict at the end of the witness
//! - `steps`: the steps of a witness, of a text or of a list
//! - `replay`: what one step does to the window and the world
//! - `printed`: a trace and its witness as one text
//! - `laws`: when the verdict is yes and what it counts; that a yes stays one if less is judged; which line is taken
//!   first; that receives return a prefix of what the peer's sends accepted; what else follows for streams, windows and
//!   peers, also after the first n steps; that the verdict stays if the trace is printed and read again, or both are
//!   printed as a case; and that a trace may have two witnesses
#![tactic(auto)]

mod ahead;
mod case;
mod laws;
mod lists;
mod offering;
mod one_text;
mod printed;
mod replay;
mod steps;
mod turns;
mod two_texts;
mod verdicts;

pub use case::{CaseFault, check_case};
pub use laws::{
    any_names_no_duty, earlier_lines_are_taken_first, explained_follows, explained_is_yes,
    less_judged_stays_yes, less_late_stays_yes, peers_are_met, printed_case, receives_begin_sends,
    streams_at_each_moment, two_witnesses_of_one_trace, verdict_means, verdict_when_read_again,
    what_a_verdict_means, yes_counts_all_lines,
};
pub use lists::check;
pub use one_text::check_reader;
pub use printed::print_case;
pub use two_texts::check_streams;
