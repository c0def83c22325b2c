//! The contents of a case, as values: the header and the event lines of its trace, and the steps of its witness.
//!
//! `trace_reader` and `witness` read and print the texts of these values. `interval_order` (the order of lines),
//! `endpoint_state` and `spec_step` (the model) and `checker` define what the values mean.
//!
//! - `calls`: hosts, socket calls, their answers, and the states of an endpoint (RFC 9293, 3.3.2)
//! - `version`: the versions of the texts, and which RFC gives the first congestion window
//! - `trace`: spans, the header, observed segments, event lines, and a whole trace
//! - `timer`: the timers of an endpoint, and the windows chosen when one expires or fast recovery begins
//! - `steps`: labels, plans of segments, the choice when a segment is processed, and a whole witness
//! - `named_line`: a trace line that a step uses, by its number
//! - `taken_line`: the same line, by its content
//! - `limits`: the greatest moment, counter and position, and the limits on events and steps
#![tactic(auto)]

mod calls;
mod limits;
mod named_line;
mod steps;
mod taken_line;
mod timer;
mod trace;
mod version;

pub use calls::{Answer, Call, Host, Ports, State};
pub use limits::{
    GREATEST_COUNTER, GREATEST_MOMENT, GREATEST_POSITION, MOST_EVENTS, MOST_STEPS, POSITIONS,
};
pub use named_line::{Extras, NamedLine};
pub use segment::OutOfMemory;
pub use steps::{Flags, Label, SegmentPlan, Step, Steps, TakeChoice, Takes, Witness};
pub use taken_line::{Expired, TakenLine};
pub use timer::{Expiry, Recovery, RecoveryChange, RtoChoice, Timer};
pub use trace::{Event, Header, Line, Lines, Span, Trace, Wire};
pub use version::{Growth, Initial, Judged, Sender, Version};
