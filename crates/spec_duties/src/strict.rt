//! What is kept for the stricter duties of version 6.

/// What an endpoint owes by the stricter duties, and since when. Moments are in microseconds.
#[derive(Clone, Copy)]
pub struct StrictOwed {
    /// Since when an acknowledgment is owed for which no segment was built yet.
    pub acknowledge: Option<u64>,
    /// Since when the oldest unacknowledged position is to be sent again: an expiry of the retransmission timer.
    pub retransmit: Option<u64>,
    /// Since when a closed window is to be probed: an expiry of the persist timer.
    pub probe: Option<u64>,
    /// When the retransmission timer last got its whole time again: the window was opened, or the oldest unacknowledged
    /// position was built again; 0 before.
    pub restarted: u64,
    /// From which position on a round trip is to be measured: what was built since the last measurement, or since the
    /// last retransmission if that was later; 0 before.
    pub timed: u64,
    /// The greatest window that the peer offered, in bytes.
    pub widest: u32,
    /// When it sent its last ten segments with ACK, the last one first.
    pub answered: [Option<u64>; 10],
    /// When it last sent a keep-alive: an empty segment just below the oldest unacknowledged position.
    pub kept_alive: Option<u64>,
}

/// A segment that was built and not sent yet.
#[derive(Clone, Copy)]
pub struct Unsent {
    /// When it was built, in microseconds.
    pub since: u64,
    /// Since when the acknowledgment is owed that it brings.
    pub acknowledge: Option<u64>,
    /// Whether it need not be sent.
    pub spared: bool,
    /// Whether it does nothing but acknowledge, and needs a credit when it is sent.
    pub costs: bool,
    /// Whether it is a keep-alive.
    pub keeps_alive: bool,
}
