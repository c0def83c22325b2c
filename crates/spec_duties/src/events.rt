//! What a step does at an endpoint.

use case_forms::{Flags, RecoveryChange, SegmentPlan, Timer};

/// A segment that is sent.
#[derive(Clone, Copy)]
pub struct Sending {
    pub flags: Flags,
    /// The position of its sequence number.
    pub pos: u64,
    /// How many positions it occupies (SEG.LEN).
    pub length: u128,
    /// Whether its line shows the acknowledgment number from before the text that was taken as it was built.
    pub before_text: bool,
}

/// What a step does at an endpoint.
#[derive(Clone, Copy)]
pub enum Event {
    /// The effect of `open`: the endpoint is new.
    Opens,
    /// The effect of another call on its socket. `aborts`: that of `abort`.
    Calls {
        aborts: bool,
    },
    /// `T`: it processes a segment, or a listener does, which creates it.
    Processes {
        /// How many positions the segment occupies (SEG.LEN).
        length: u128,
        rst: bool,
    },
    /// `K`: it drops a segment.
    Drops {
        /// Whether this asks for an acknowledgment.
        asks: bool,
        /// Whether the segment has bytes or a FIN; such answers aren't limited.
        unlimited: bool,
    },
    /// `M`: it builds a segment.
    Builds(SegmentPlan),
    /// The line of sending a segment that it built.
    Sends(Sending),
    /// The line of a timer that expires.
    Expires(Timer),
    /// `F`: fast recovery begins. `U`: a recovery is undone.
    Recovers(RecoveryChange),
}
