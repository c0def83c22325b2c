//! What the program does with its command line, its reader and its writer.
//!
//! `main` reads the words after the program's name once, by `request_of`, and `run_request` does what they request. It
//! returns the exit status. Each answer is one line of output, and for `many` one per case.
//!
//! - `given`: the words of the command line, as text (`specs/GivenWords`)
//! - `request`: what the words request (`specs/Requests`); each command's words have a definition of their own
//!   (`specs/CommandLine`, `specs/FileWords`, `specs/ManyWords`, `specs/RecordWords`). The crate `help` has those for
//!   help.
//! - `options`: an option that comes first, and its number, which `clap` reads (`specs/Options`)
//! - `file_words`: the options for a case in two files
//! - `record_words`: the options of a recording, and its plan (`specs/RecordReading`)
//! - `program`: the whole run, by request (`specs/Endings`) or by words
//! - `commands`: the commands that open no file. Only `many`, which is in `answer_stream`, and `record` start threads.
//! - `files`: the run on a case in two files
//! - `record`: the case that is recorded and printed (`specs/Recorded`)
//! - `argument`: the segment that a hex text encodes (`specs/HexText`)
//! - `segment_line`: the line and the status of a segment (`specs/SegmentText`)
//! - `lines`: a line of output (`specs/Output`), and the lines that say why there is no other
//!
//! `checker` defines which answer a case has, and `counted` what counts as a failure.
#![tactic(auto)]

mod argument;
mod commands;
mod file_words;
mod files;
mod given;
mod lines;
mod options;
mod program;
mod record;
mod record_words;
mod request;
mod segment_line;

pub use file_words::file_names;
pub use files::{INPUT_BYTES, run_files};
pub use given::given_words;
pub use lines::answer_bad_memory;
pub use program::{run, run_all, run_request};
pub use request::{Command, Request, request_of};
