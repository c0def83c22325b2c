//! Sequence numbers and the positions that they number (RFC 9293, 3.4).
//!
//! A position counts what a host sends on one connection: its SYN has position 0, data byte k has position 1 + k, its
//! FIN the position after the last byte. Positions don't wrap. Their numbers do: they go up from a base, the initial
//! sequence number, modulo 2^32. Nothing here allocates memory.
//!
//! - `word`: a number on the wire, from a position and back
//! - `window`: ranges of positions
//! - `laws`: a number reads back, near positions with one number are equal, and which position is found
//!
//! `specs/Numbers` defines numbers and when one reads as a position; `specs/Near` computes that position.
#![tactic(auto)]

mod laws;
mod window;
mod word;

pub use laws::{nearby_positions_differ, numbers_are_found_near, numbers_read_back};
pub use window::in_window;
pub use word::{Word, number, read_near};
