//! How the congestion window grows in congestion avoidance (RFC 5681, 3.1).

use super::WayWords;
use window_rules::Congestion;

/// How it grows.
#[derive(Clone, Copy, PartialEq, Eq)]
pub(crate) enum Growth {
    /// At each acknowledgment, by a part of a segment: the usual way.
    EachAck,
    /// By a whole segment, once a whole window is acknowledged.
    Bytes,
}

const BYTES: WayWords = WayWords {
    name: "bytes",
    does: "counts acknowledged bytes in congestion avoidance (RFC 5681, 3.1)",
};

impl Growth {
    /// What the way is called. None: it's the usual one.
    pub(crate) fn words(self) -> Option<WayWords> {
        match self {
            Growth::EachAck => None,
            Growth::Bytes => Some(BYTES),
        }
    }

    /// The way that has this name.
    pub(crate) fn named(name: &str) -> Option<Growth> {
        (name == BYTES.name).then_some(Growth::Bytes)
    }

    /// The other way.
    pub(crate) fn other(self) -> Growth {
        match self {
            Growth::EachAck => Growth::Bytes,
            Growth::Bytes => Growth::EachAck,
        }
    }

    /// The congestion window after an acknowledgment that permits at most this one, in bytes.
    pub(crate) fn window(self, values: &Congestion, greatest: u32) -> u32 {
        let is_avoiding = !values.fast && values.ssthresh <= values.cwnd;
        match self {
            Growth::Bytes if is_avoiding && greatest < values.cwnd.saturating_add(values.smss) => {
                greatest.min(values.cwnd)
            }
            Growth::Bytes | Growth::EachAck => greatest,
        }
    }
}
