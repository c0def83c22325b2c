//! When outstanding data may be sent again.
//!
//! `spec_flights` has the definitions. Here is what is kept between steps, which rules a step breaks, and what is kept
//! after it, given what the step shows of the world. `watched` computes that, and joins it with the model and its
//! duties. The parts of what is kept of an endpoint are in `flight_parts`, and what it knows of outstanding positions
//! in `scoreboard`, which says how long a step takes.
//!
//! - `flight`: what is kept of an endpoint; `free`: what may be sent again
//! - `undoing`: when an acknowledgment shows that a recovery wasn't needed
//! - `standing`: what an endpoint knows of a position that it sent, for explanations; `probe_standing`: what keeps it
//!   from probing for a loss
//! - `flights`: what is kept of all endpoints, what it refuses, and what is kept after a step
//! - `laws`: what follows from steps that aren't refused
#![tactic(auto)]

mod flight;
mod flights;
mod free;
mod laws;
mod probe_standing;
mod standing;
mod undoing;

pub use flight_parts::Untrue;
pub use flights::Flights;
pub use laws::what_is_told_stays;
pub use probe_standing::{ProbeStanding, ProbeWait};
pub use scoreboard::{Fate, Loss};
pub use standing::Standing;
