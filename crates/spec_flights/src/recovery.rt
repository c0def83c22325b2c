//! From which loss an endpoint recovers.

/// The last recovery from a loss that an endpoint began.
#[derive(Clone, Copy)]
pub struct Recovery {
    /// The position after all that was sent when it began; 0 if none began, or it ended.
    pub point: u64,
    /// Whether it is fast recovery, and not one by a timeout.
    pub is_fast: bool,
}
