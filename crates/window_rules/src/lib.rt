//! How much an endpoint may send: the window that its peer offers (RFC 9293, 3.8.6) and the congestion window
//! (RFC 5681).
//!
//! Each call returns the greatest value that a sender may choose; it may always choose less. All values are bytes;
//! windows and thresholds are at most 4294967295.
//!
//! - `control`: the boundary of congestion control: what happened, what is allowed then, and its state
//! - `congestion`: the state of an endpoint's congestion control
//! - `windows`: how far new data may reach, and the first congestion window
//! - `growth`: what acknowledgments do to the congestion window
//! - `losses`: what timeouts and fast recovery do to it
//! - `laws`: that the answers are the greatest values that the RFCs allow, and what follows
//!
//! The files of the same names in specs/ have the formulas.
#![tactic(auto)]

mod congestion;
mod control;
mod growth;
mod laws;
mod losses;
mod windows;

pub use congestion::Congestion;
pub use control::{At, Control, Profile, Signal};
pub use growth::{SlowStart, counted_after, may_grow, on_duplicate};
pub use laws::{
    control_counts, control_is_greatest, control_takes_choice, counts_once, edges_are_exact,
    growth_is_gentle, growth_is_greatest, less_judged_is_more_allowed, loss_halves,
    losses_are_greatest, no_profile_is_read, recovery_is_greatest,
};
pub use losses::{on_fast, on_timeout, recovery_window};
pub use windows::{
    GREATEST_WINDOW, congestion_edge, initial_window, initial_window_6928, offered_edge,
    scaled_window,
};
