//! A step of the model, given by its label: whether it breaks a rule, and the world after it.
//!
//! `step_of` of `spec_tcp` defines which step a label means. Nothing here knows the order of lines: `interval_order`
//! defines which line a step may take. The world, and what each step does to it, is defined in `endpoint_state`.
//!
//! - `step`: any step: the least rule that it breaks, and the world after it
//! - `line`: a step that takes a line; `hidden`: a step that takes none
//! - `wires`: what is on a host's wire under a line, and putting a segment there, which isn't a step
//! - `laws`: the less of congestion control is judged, the more is accepted
//!
//! Functions that only hand a step on are inlined, which saves a copy of it.
#![tactic(auto)]

mod hidden;
mod laws;
mod line;
mod step;
mod wires;

pub use endpoint_state::StepFault;
pub use hidden::Hidden;
pub use laws::{less_judged_is_more_accepted, profiles_are_kept};
pub use line::take_line;
pub use spec_tcp::Emission;
pub use step::{Act, Label, ModelStep, act_of, admits, apply};
pub use wires::{bring, sent};
