//! The limits of the values in a case and of a run.

/// The greatest moment that a text can contain, in microseconds.
pub const GREATEST_MOMENT: u64 = 1_000_000_000_000_000_000;

/// The greatest counter of a recorded event.
pub const GREATEST_COUNTER: u64 = 1_000_000_000_000_000_000;

/// The greatest position in a stream that a text can contain.
pub const GREATEST_POSITION: u64 = 1_000_000_000_000_000_000;

/// All positions that a run reaches are below this.
pub const POSITIONS: u64 = 1 << 63;

/// How many events a host may record, at most.
pub const MOST_EVENTS: u64 = 10_000_000;

/// A run has fewer steps than this.
pub const MOST_STEPS: u64 = 40_000_000;
