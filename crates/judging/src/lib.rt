//! How much of the RFCs a recorded run follows.
//!
//! Few stacks follow RFC 5681 to the letter. So a trace is rewritten in version 5 of the texts, or kept in version 6,
//! once for each level of the header line `congestion`, from a chosen one on, until `checker` accepts the witness that
//! `witness_search` finds. The answer is the first level with a yes, and what each level before it refused first, as
//! `replayed` reads it from the case. A level that a duty refuses is tried without duties, too, until one has a yes
//! then. The time is linear in the size of the trace, and a budget bounds what the search spends on going back at each
//! level. Of a long transfer, the search has the text and the parsed trace in memory; the parsed trace is freed before
//! the case is judged, whose event lines aren't copied. Each function is proved only to be safe and to return.
//!
//! - `judge`, `Judgement`: the answer for a trace, the level with a yes, and the case of the last level
//! - `Settings`: how a trace is judged, from which level on
//! - `Level`, `level_name`, `sentence`: a level that was tried, its name, and what it refused
//! - `is_stricter`: which of two levels is stricter
//! - `Answer`: a verdict, and which line of the trace it refuses
//! - `Connections`: how many the case has
//! - `Slack`: how late a host may be with its duties
//!
//! Private modules:
//!
//! - `judgement`: the levels, one after the other
//! - `version_five`: a trace in version 5 or 6
//! - `one_level`: the case that is found at one level, and its verdict
//! - `levels`: what is known of each level, and whether duties alone refuse it
//! - `connections`: how many connections it has, and how many were established
//! - `sentences`: what a yes says, and what a no refuses
#![tactic(auto)]

mod connections;
mod judgement;
mod levels;
mod one_level;
mod sentences;
mod version_five;

pub use connections::Connections;
pub use judgement::{Judgement, Settings, judge};
pub use levels::{Answer, Level, is_stricter};
pub use one_level::JudgeFault;
pub use sentences::{level_name, sentence};
pub use version_five::{GREATEST_SLACK, Slack};
