//! What an endpoint owes.

/// Probes of a closed window (RFC 9293, 3.8.6.1).
#[derive(Clone, Copy)]
pub struct Probing {
    /// The moment of the last probe, or that at which the window was closed, in microseconds.
    pub since: u64,
    /// By which factor the time between probes was raised; it is doubled at each probe.
    pub factor: u32,
}

/// Which duties of an endpoint are late.
#[derive(Clone, Copy)]
pub struct Lates {
    pub acknowledge: bool,
    pub expire: bool,
    pub retransmit: bool,
    pub probe: bool,
    pub start: bool,
    pub reset: bool,
}

/// What an endpoint owes, and since when. Moments are in microseconds.
#[derive(Clone, Copy)]
pub struct Owed {
    /// Since when an acknowledgment is owed.
    pub acknowledge: Option<u64>,
    /// When the offered window was last opened; 0 before.
    pub opened: u64,
    /// Since when the oldest unacknowledged position is to be sent again: an expiry of the retransmission timer.
    pub retransmit: Option<u64>,
    /// Since when any segment is to be sent: an expiry of the persist timer.
    pub probe: Option<u64>,
    /// The probes of the window, while it is closed and bytes are left.
    pub probing: Option<Probing>,
    /// Since when something waits to be sent and nothing is outstanding.
    pub start: Option<u64>,
    /// Since when a reset is owed, because of `abort`.
    pub reset: Option<u64>,
    /// Nothing below this position may be sent again.
    pub again: u64,
    /// How many segments came, less the empty acknowledgments that were sent.
    pub answers: u32,
    /// When it last sent a segment with ACK.
    pub acknowledged: Option<u64>,
}
