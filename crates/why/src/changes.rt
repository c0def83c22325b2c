//! What a step changes at an endpoint, for congestion control.

use case_forms::POSITIONS;
use endpoint_state::Endpoint;
use window_rules::{Congestion, SlowStart, counted_after, may_grow};

/// The values of an endpoint that congestion control depends on.
#[derive(Clone, Copy)]
pub(crate) struct Values {
    /// The oldest position that isn't acknowledged.
    pub una: u64,
    /// The position after everything sent.
    pub sent: u64,
    /// Expiries of the retransmission timer since a new acknowledgment.
    pub backoffs: u32,
    pub congestion: Congestion,
    /// Up to where the program's data reaches and the peer's window is open.
    pub ready: u64,
}

/// What happened between two sets of values.
#[derive(Clone, Copy)]
pub(crate) enum Change {
    /// The own SYN is acknowledged.
    Begins,
    /// This many positions are newly acknowledged.
    Acknowledged(u64),
    /// A duplicate acknowledgment arrived.
    Duplicate,
    /// The retransmission timer expired.
    Timeout,
    /// Fast recovery begins.
    Recovery,
    Other,
}

impl Values {
    pub(crate) fn new(endpoint: &Endpoint) -> Values {
        Values {
            una: endpoint.stream.snd_una,
            sent: endpoint.snd_max(),
            backoffs: endpoint.backoffs,
            congestion: endpoint.control.values,
            ready: ready_end(endpoint),
        }
    }

    /// Where a segment of SMSS bytes would end that follows everything sent.
    pub(crate) fn next_end(&self) -> u64 {
        self.sent.saturating_add(u64::from(self.congestion.smss))
    }

    /// What one step changed.
    pub(crate) fn change(&self, after: &Values) -> Change {
        if self.una == 0 && 0 < after.una {
            Change::Begins
        } else if self.una < after.una {
            Change::Acknowledged(after.una.saturating_sub(self.una))
        } else if self.backoffs < after.backoffs {
            Change::Timeout
        } else if !self.congestion.fast && after.congestion.fast {
            Change::Recovery
        } else if self.congestion.dup < after.congestion.dup {
            Change::Duplicate
        } else {
            Change::Other
        }
    }
}

// Up to where the program's data reaches and the peer's window is open.
fn ready_end(endpoint: &Endpoint) -> u64 {
    let wnd = u64::from(endpoint.window.snd_wnd);
    let edge = endpoint.stream.snd_una.saturating_add(wnd);
    edge.min(endpoint.stream.accepted.end())
}

/// The greatest window after an acknowledgment of this many positions. All other values but `counted` stay.
pub(crate) fn grown(slow: SlowStart, was: &Congestion, acked: u64) -> Congestion {
    if acked < POSITIONS && was.counted < POSITIONS {
        Congestion {
            cwnd: may_grow(slow, was, acked) as u32,
            counted: counted_after(was, acked),
            ..*was
        }
    } else {
        *was
    }
}
