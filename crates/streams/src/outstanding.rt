//! What a sender knows of a position that it built and nobody acknowledged: what is in flight and what is lost follow
//! from it (RFC 6675, 4; RFC 8985, 6.2).

/// The last making of one position.
#[derive(Clone, Copy)]
pub struct Outstanding {
    /// The number of the segment that was built last with this position.
    pub number: u64,
    /// When that segment was built, in microseconds.
    pub moment: u64,
    /// Whether another segment with this position was built before it.
    pub again: bool,
    /// Whether this is the last position of that segment.
    pub last: bool,
}
