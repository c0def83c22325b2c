//! When outstanding data may be sent again: once for each reason (RFC 6298, 5.4 and 5.5; RFC 5681, 3.2; RFC 6582, 3.2).
//!
//! What is kept of data in flight watches the steps of the model, as duties do, and adds refusals; no step has another
//! effect for it. It is kept in version 6 alone, at every level and slack.
//!
//! This crate has no code, only the values that are kept and the definitions. `flight_parts`, `scoreboard` and
//! `flights` implement them.
//!
//! - `sides`: what the two SYNs permitted; `recovery`: from which loss an endpoint recovers; `stretch`: some positions;
//!   `making`: segments that were built; `reports`: what blocks report; `probing`: probes for a loss;
//!   `undoing`: whether a recovery was needed; `clocks`: the timestamps of an endpoint and of its peer
//!
//! The definitions:
//!
//! - `specs/Sides`: which endpoints acknowledge selectively
//! - `specs/Recovering`: up to which position an endpoint recovers from a loss
//! - `specs/Probing`: when a probe for a loss is due, and until when it is on its way
//! - `specs/Undoing`: when an acknowledgment shows that a recovery wasn't needed
//! - `specs/Scoreboard`: what is known of outstanding positions, and what building a segment changes of it
//! - `specs/Late`: what is lost, since something that was sent later was delivered
//! - `specs/Delivered`: what an acknowledgment delivers, by its number and by its blocks
//! - `specs/Marks`: which positions may be sent again, and for which reasons
//! - `specs/Clocks`: which segments are too old by their timestamps, or lack them, so that they may be dropped
//! - `specs/Echoes`: which timestamps the line of a segment may show
//! - `specs/Held`: what an endpoint holds of its peer's stream beyond what is next in order, and may report
//! - `specs/Flights`: what is kept of each endpoint, what it refuses, and what is kept after a step
#![tactic(auto)]

mod clocks;
mod making;
mod probing;
mod recovery;
mod reports;
mod sides;
mod stretch;
mod undoing;

pub use clocks::{Clocks, Echoable, Newest};
pub use making::{Latest, Making};
pub use probing::{Probe, Probing};
pub use recovery::Recovery;
pub use reports::Reports;
pub use sides::Sides;
pub use stretch::Stretch;
pub use undoing::{Again, Began, Undoing};
