//! The parts of what is kept of an endpoint with data in flight, each by itself.
//!
//! `spec_flights` has the definitions. `scoreboard` has the part that is left, what is known of outstanding positions,
//! and `flights` joins all. Each round of edits reads its whole crate, so the functions that need neither are here.
//! Positions are those of a stream, 0 for its SYN.
//!
//! - `sides`: which endpoints acknowledge selectively
//! - `clocks`: what is known of timestamps, and which segments are too old by them, or lack them; `echoes`: which
//!   timestamps the line of a segment may show
//! - `recovering`: up to which position an endpoint recovers from a loss
//! - `probing`: when a probe for a loss is due, and until when it is on its way
//! - `marks`: which positions a segment holds, which ones a step marks, and from which it takes the mark
//! - `reports`: what SACK blocks report; `numbers`: under which numbers segments are built and sent
//! - `undoing`: what was sent again first in a recovery, and whether an acknowledgment answers something earlier
//! - `held`: what an endpoint holds of its peer's stream beyond what is next in order, and what it may report
#![tactic(auto)]

mod clocks;
mod echoes;
mod held;
mod marks;
mod numbers;
mod probing;
mod recovering;
mod reports;
mod sides;
mod undoing;

pub use clocks::{clocks_after, excused_at, no_clocks};
pub use echoes::{mistimed_by, note_echoes};
pub use held::{Untrue, is_untrue, note_held, why_untrue};
pub use marks::{
    goes_again, making_length, marked_by, old_part, opens_probed, outstanding, stretch_built,
    taken_by,
};
pub use numbers::{number_after, number_built, number_sent};
pub use probing::{
    is_due, is_early_probe, is_none, not_probing, probe_moment, probe_timeout, probing_after,
};
pub use recovering::{is_recovering, is_repairing, none_begun, recovery_after};
pub use reports::{add_reports, read_reports, remove_reports};
pub use sides::{are_selective, neither, sides_after};
pub use undoing::{again_built, again_shown, answers_earlier, needed};
