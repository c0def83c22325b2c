//! A segment that was built, and the one that was delivered last.

/// A segment with positions that an endpoint built.
#[derive(Clone, Copy)]
pub struct Making {
    /// Its number.
    pub number: u32,
    /// When it was built, in microseconds.
    pub moment: u64,
}

/// The segment that was built last of those of which something was delivered (RFC 8985, 6.2, step 2).
#[derive(Clone, Copy)]
pub struct Latest {
    /// Its number.
    pub number: u64,
    /// How long after it was built that was noticed, in microseconds.
    pub round_trip: u64,
}
