//! What a sender knows of its outstanding positions.
//!
//! `spec_flights` has the definitions; `flights` keeps a scoreboard of each endpoint. A step takes time that grows with
//! the logarithm of what is kept, and with the ranges, runs and segments that it takes out, or passes once for each
//! recovery.
//!
//! - `scoreboard`: what is known of outstanding positions; `walk`: what is in flight of them; `steps`: what a step
//!   changes of it
//! - `late`: what is lost; `delivered`: what an acknowledgment delivers
//! - `earlier`: whether something is delivered that was built before a timeout
//! - `fates`: what is known of a position, for explanations
#![tactic(auto)]

mod delivered;
mod earlier;
mod fates;
mod late;
mod scoreboard;
mod steps;
mod walk;

pub use fates::{Fate, Loss};
pub use scoreboard::Scoreboard;
pub use steps::Now;
