//! What cases contain, in plain words.
//!
//! Most of the types here print a part of a line: `out.show(&CallWords(&call))`, where `out` is a `Sheet`. The verdicts
//! don't depend on this crate. Each function is proved only to be safe and to return.
//!
//! - `shown`: bytes of a text, escaped; the line that reports a text's fault
//! - `words`: hosts, flags, calls and answers; `events`: segments, lines and steps
//! - `numbers`: numbers on the wire as positions
//! - `sheet`: a text that is written in pieces
//! - `rules`: what each rule refuses, its usual causes, and its sections of RFCs; `causes`: what may be known at a step
#![tactic(auto)]

mod causes;
mod events;
mod numbers;
mod rules;
mod sheet;
mod shown;
mod words;

pub use causes::Known;
pub use events::{EventWords, SegmentWords, StepWords};
pub use numbers::Numbers;
pub use rules::{Control, LEVEL_RULES, Meaning, about};
pub use sheet::Sheet;
pub use shown::{Shown, fault_line, is_shown};
pub use words::{AnswerFields, AnswerWords, CallWords, FlagWords, HostName, word_if};
