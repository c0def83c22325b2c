//! The text of a witness, read and printed.
//!
//! ```text
//! let witness = read_witness(alloc, text)?;
//! assert!(rt; witness.steps.as_slice().len() == 6);
//! let printed = print_witness(alloc, &witness)?;
//! ```
//!
//! - `Witness`, `Step`, `Label`: the contents of a witness; `SegmentPlan`, `TakeChoice`, `NamedLine`: the contents of
//!   labels
//! - `read_witness`: a whole text; `TextFault`, `FaultKind`, `Span`: the first fault, and its place
//! - `StepReader`: a text whose steps are read on request; `SourceFault`: a fault, or a read that failed
//! - `print_witness`: the text of a witness, which reads back as the same witness; `push_witness`: the same, appended
//!   to a `Vec`; `push_step`: one step of it
//!
//! A text is bytes. Its first line is one of `witness 1` to `witness 5`, by its version. Each further line is a step: a
//! moment in microseconds and a label, one of `L`, `D`, `M`, `T`, `K`, `R` and `F` with its fields.
//! `specs/WitnessText` defines which text is the text of which witness (`IsWitnessText`), and which fault comes first
//! (`witness_of`); read it first. `specs/Labels` defines how a label is spelled. `interval_order` checks whether
//! moments rise and each line is used once. `line_fields` reads lines, fields and answers.
//!
//! Private modules:
//!
//! - `from_bytes`: one step, and a whole witness, using the reader of `stream`
//! - `stream`: the reader of a text whose steps are read on request
//! - `first_line`: the first line of a witness
//! - `plain`: a step as it is usually written, read without a fault to return
//! - `labels`: what a step does
//! - `parts`: the parts of labels: endpoints, inbox entries, yes or no, optional numbers
//! - `flags`: the flags of a segment to build, as letters
//! - `printer`: the text of a witness
//! - `laws`: the reported fault is the first one, by tables of what each field must be (`specs/StepForms`)
#![tactic(auto)]

mod first_line;
mod flags;
mod from_bytes;
mod labels;
mod laws;
mod parts;
mod plain;
mod printer;
mod stream;

pub use case_forms::{
    Extras, Flags, Label, NamedLine, OutOfMemory, Recovery, SegmentPlan, Span, Step, Steps,
    TakeChoice, Version, Witness,
};
pub use counted::Counted;
pub use first_line::begins_witness;
pub use from_bytes::{read_step, read_step_into, read_witness, read_witness_for};
pub use laws::{step_faults, witness_faults};
pub use line_fields::{FaultKind, SourceFault, TextFault};
pub use printer::{
    label_bytes, print_law, print_witness, printable_law, push_step, push_witness, step_in_memory,
};
pub use stream::StepReader;
