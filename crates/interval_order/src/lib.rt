//! The order of lines: which lines of a trace wait for their step, and which step may use a line.
//!
//! A `Window` receives each line of the trace and then each step of the witness. It isn't one of TCP's windows: in this
//! crate, its name is `PendingLines`, the lines that wait for their step. `specs/Orders` defines its view,
//! `specs/OrderRules` which rules a step breaks, and `specs/Placed` when a list of steps places a list of lines.
//! `specs/Waits` has the invariant of pending lines. The model above this crate defines everything else that a step
//! does.
//!
//! - `pending_lines`: the lines that wait for their step, and the steps that may use them
//! - `lines`: when a line is to be offered, and the verdict if one is left over
//! - `laws`: which later lines matter to a step, and how many lines wait; each law is the contract of a call that does
//!   nothing
#![tactic(auto)]

mod laws;
mod lines;
mod pending_lines;

pub use laws::{few_lines_wait, late_lines_are_refused, later_lines_dont_matter};
pub use lines::{is_reached, left_over};
pub use pending_lines::PendingLines as Window;
