//! When a position was first built, and whether it was retransmitted: round trips are measured only on data sent once
//! (RFC 6298, 3).

/// The transmission of one position.
#[derive(Clone, Copy)]
pub struct Transmission {
    /// The moment at which a segment with this position was first built, in microseconds.
    pub moment: u64,
    /// Whether a segment with this position was built again since.
    pub again: bool,
}
