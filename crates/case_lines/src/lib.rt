//! The lines of a case: which ones belong to its trace, and event lines that wait until steps take them.
//!
//! ```text
//! let mut lines = TextLines::new(alloc, source, TextEnd::Case);
//! lines.require_line(1)?;
//! while lines.next_line(number)? {
//!     number = read(lines.raw());
//! }
//! if lines.has_met() {
//!     judge_steps(lines.into_source());
//! }
//! ```
//!
//! - `TextLines`: the lines of a source, read on request; `TextEnd`: where the text of the trace ends
//! - `version_named`: the version that the first line of a trace names; `first_text`: the first line of a version
//! - `KeptLines`: event lines in order, in little memory; `Record`, `KeptEvent`: what is kept of one line
//!
//! A case is a trace and its witness, in one text. Its trace ends before the first line that begins a witness of the
//! version that the first line names. `specs/CaseLines` defines which lines belong to the trace (`trace_rows`) and
//! which follow the first line of the witness (`witness_rows`); read it first. `specs/FirstLine` defines the first
//! line, and `specs/TextLeft` what is left of the lines. `trace_reader` reads the lines as a header and events.
//!
//! An event line is large as a `Line`: it has room for each kind of event, and an observed segment is in it twice, as
//! bytes and field by field. Kept here, a line takes 24 bytes; one that can have bytes takes 4 more, and its own bytes
//! once. A segment is decoded again when it is taken. Each chunk's memory is rounded up. A line that was read comes as
//! a `Line` (`push`), or as its record and the digits of its bytes, which are then read into their place
//! (`push_spelled`).
//!
//! Contracts see `KeptLines` as a list of lines. `specs/Lines` defines which lines can be kept, and what it means to
//! take one. `specs/Records` defines which lines the records and bytes of a chunk stand for, and `specs/Spelled` which
//! bytes digits spell. For callers, `proofs/TakesLemmas` states what an item tells about the lines.
//!
//! Private modules:
//!
//! - `first_line`: the first line, which names the version
//! - `text_lines`: the lines of the text, which ends before the witness if it is a case
//! - `queue`: `KeptLines`, the lines in order, in chunks
//! - `chunk`: up to 2048 lines with consecutive numbers, or 64 KiB of bytes, in three pieces of memory, which are freed
//!   once all lines are taken
//! - `record`: what is kept of one line beside its number and its bytes
#![tactic(auto)]

mod chunk;
mod first_line;
mod queue;
mod record;
mod text_lines;

pub use first_line::{first_text, version_named};
pub use queue::KeptLines;
pub use record::{KeptEvent, Record};
pub use text_lines::{TextEnd, TextLines};
