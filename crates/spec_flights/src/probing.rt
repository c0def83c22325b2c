//! Probes for the loss of what was sent last.

/// How far a probe for a loss is (RFC 8985, 7).
#[derive(Clone, Copy)]
pub enum Probe {
    /// None is due, and none is on its way.
    Nothing,
    /// It is due.
    Due,
    /// It was built, and ended at this position.
    Out(u64),
}

/// What is known of probes for a loss.
#[derive(Clone, Copy)]
pub struct Probing {
    pub probe: Probe,
    /// When something was last acknowledged, or sent for the first time, in microseconds. `None`: nothing was yet.
    pub quiet: Option<u64>,
}
