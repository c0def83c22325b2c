//! Finds a witness for a trace that has none.
//!
//! `tcpwit check` judges what is found, so no proof depends on this crate. Its functions are proved only to run safely
//! and to return. It contains no rule of TCP: `endpoint_state`'s `World` decides which steps are permitted.
//!
//! A trace becomes a case:
//!
//! - `search_options`: what a search is asked for
//! - `found`: what a search found, and how it ended
//! - `added_lines`: the lines that are added to the trace
//! - `case_text`: the text of the case, in pieces; `witness_text`: those of the witness
//! - `trace_lines`: whether a case has every line of its trace
//!
//! If a line can't be explained, other choices are tried before it:
//!
//! - `retries`: the attempts, within a budget
//! - `alternatives`: what else could have been chosen before a line
//! - `together`: what else could have been chosen at several lines at once
//! - `round_trips`: round trips that a host may not have measured
//! - `candidates`: a list of these, each with one choice or several
//!
//! One pass over the lines gives each line the steps that explain it:
//!
//! - `attempt`: a pass and what it found
//! - `pass`: what a pass knows, and the order in which it does things
//!   - `sent_segments`: a segment is built when its line shows that it was sent
//!   - `unseen`: segments that were built, and that no line shows
//!   - `arrivals`: an arrival is processed at once or late, answered by a reset or dropped
//!   - `echoes`: what the timestamp that a segment echoes shows of an arrival
//!   - `effects`: a call has its effect as soon as the model permits the answer that its end shows
//!   - `expiries`: expiries that the trace shows, and lines that are added for others
//! - `ways`: how a host does, throughout a run, what the RFCs leave open
//! - `choices`: what is chosen at lines where more than one step is possible
//! - `progress`: the world after the steps so far, the steps that it can do, and what its hosts owe
//! - `log`: the witness that a pass writes, at which line it is, and on what its steps depend
//! - `findings`: what a pass finds
//! - `later_lines`: what later lines show: ends of calls, segments that are sent
//! - `calls`: calls that had no effect yet
//! - `copies`: sent segments that have no copy yet
//! - `late`: arrivals that are processed late
//! - `key`: endpoints, by their host and ports
//! - `stop`: why a step isn't done
//! - `watch`: steps that duties judge, too
#![tactic(auto)]

mod added_lines;
mod alternatives;
mod attempt;
mod calls;
mod candidates;
mod case_text;
mod choices;
mod copies;
mod findings;
mod found;
mod key;
mod late;
mod later_lines;
mod log;
mod pass;
mod progress;
mod retries;
mod round_trips;
mod search_options;
mod stop;
mod together;
mod trace_lines;
mod watch;
mod ways;
mod witness_text;

pub use added_lines::AddedLines;
pub use case_text::{CaseText, Pieces};
pub use found::{Ending, Found, FoundCase, find, find_within, find_witness};
pub use search_options::{SearchOptions, ShownExpiries, USUAL_BUDGET};
pub use trace_lines::{CaseLines, Comparison, case_lines};
pub use ways::{Unusual, WayWords, Ways};
