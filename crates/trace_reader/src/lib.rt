//! The text of a trace: reading it, with the first fault and its place, and printing it.
//!
//! ```text
//! let trace = read_trace(alloc, text)?;
//! assert!(rt; trace.lines.as_slice().len() == 4);
//! let printed = print_trace(alloc, &trace)?;
//! ```
//!
//! - `Trace`, `Header`, `Line`, `Event`, `Call`, `Answer`, `Wire`: the contents of a trace
//! - `read_trace`: a whole text; `TextFault`, `FaultKind`, `Span`: the first fault, and its place
//! - `TraceReader`: a text whose lines are read on request; `SourceFault`: a fault, or a read that failed
//! - `print_trace`: the text of a trace
//!
//! A text has a header of six lines (seven in version 2, eight in version 3, nine in version 4, ten in version 5,
//! twelve in version 6), followed by event lines. `specs/TraceText` defines which text is the text of which trace; read
//! it first. `specs/Headers`, `specs/EventLines`, `specs/Events` and `specs/Calls` define the forms of the lines;
//! `line_fields` those of single fields. `case_lines` reads the lines of the text, and decides where the trace of a
//! case ends. This crate only reads lines; `checker` decides whether a trace can be explained.
//!
//! Private modules:
//!
//! - `from_bytes`: a whole text, read from bytes, using the reader of `stream`
//! - `stream`: the reader of a text whose lines are read on request
//! - `header`: the header, by its lines
//! - `first_line`: the first line, read as the version that it names
//! - `late_lines`: the lines after line 6, which version 1 doesn't have; `control_lines`: those of version 6 alone
//! - `named_lines`: lines of a header that are a name and a value
//! - `events`: events, and event lines, each read alone; `kept_events`: an event line that is kept; `plain`: one that
//!   is written as usual, whose bytes are read into their place
//! - `calls`: the calls that a thread may begin
//! - `wires`: segments in hex
//! - `printer`: the printer of a trace; `header_printer`: that of its header
//! - `laws`: the reported fault is the first one, by tables of what each field must be (`specs/HeaderForms`,
//!   `specs/EventForms`)
#![tactic(auto)]

mod calls;
mod control_lines;
mod events;
mod first_line;
mod from_bytes;
mod header;
mod header_printer;
mod kept_events;
mod late_lines;
mod laws;
mod named_lines;
mod plain;
mod printer;
mod stream;
mod wires;

pub use case_forms::{
    Answer, Call, Event, Header, Host, Initial, Judged, Line, Lines, State, Timer, Trace, Version,
    Wire,
};
pub use case_lines::version_named;
pub use counted::Counted;
pub use events::event_line;
pub use from_bytes::read_trace;
pub use laws::{event_line_faults, first_event_fault, header_faults, trace_faults};
pub use line_fields::{FaultKind, SegFault, SourceFault, Span, TextFault, Token};
pub use printer::{event_bytes, line_in_memory, print_law, print_trace, printable_law};
pub use stream::TraceReader;
