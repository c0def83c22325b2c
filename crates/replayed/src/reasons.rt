//! What the rules `congestion` and `old-data` compare: how much is sent, and what is retransmitted.

use crate::debts::Late;
use case_forms::{POSITIONS, SegmentPlan};
use endpoint_state::Endpoint;

/// Why a case is refused, for the rules `congestion` and `old-data` and for duties that are late.
#[derive(Clone, Copy)]
pub enum Reason {
    /// `congestion`: new data ends this many bytes beyond the congestion edge.
    Beyond {
        bytes: u64,
        /// The congestion window, in bytes.
        cwnd: u64,
    },
    /// `old-data`: the segment begins beyond everything sent.
    Gap {
        /// The position at which it begins.
        pos: u64,
        /// The position after everything sent.
        sent: u64,
    },
    /// `old-data`: the segment begins below the oldest position that isn't acknowledged.
    Acknowledged {
        /// The position at which it begins.
        pos: u64,
        una: u64,
    },
    /// `old-data`: outstanding data may not be retransmitted now.
    Again {
        /// It is a SYN.
        syn: bool,
    },
    /// Rules 42 to 49: a duty is late.
    Late(Late),
    /// Any other rule.
    Other,
}

/// The position after the last byte of a segment.
pub fn end_of(plan: &SegmentPlan) -> u64 {
    plan.pos.saturating_add(u64::from(plan.len))
}

/// Why a segment with new data breaks `congestion`.
pub fn congestion_reason(endpoint: &Endpoint, plan: &SegmentPlan) -> Reason {
    let snd_una = endpoint.stream.snd_una;
    if snd_una >= POSITIONS {
        return Reason::Other;
    }
    let bytes = end_of(plan).saturating_sub(endpoint.control.send_edge(snd_una));
    let cwnd = u64::from(endpoint.control.values.cwnd);
    Reason::Beyond { bytes, cwnd }
}

/// Why a segment breaks `old-data`.
pub fn old_data_reason(endpoint: &Endpoint, plan: &SegmentPlan) -> Reason {
    let (pos, syn) = (plan.pos, plan.flags.syn);
    let (sent, una) = (endpoint.snd_max(), endpoint.stream.snd_una);
    if pos > sent {
        Reason::Gap { pos, sent }
    } else if pos < una {
        Reason::Acknowledged { pos, una }
    } else {
        Reason::Again { syn }
    }
}
