//! What duties keep for each listener and for each segment that was built.

/// A listener, as duties see it.
#[derive(Clone, Copy)]
pub struct Listening {
    /// How many of its children are neither accepted nor CLOSED.
    pub children: u32,
    /// When it was closed, in microseconds.
    pub closed: Option<u64>,
}

/// A segment that was built and not sent yet.
#[derive(Clone, Copy)]
pub struct Built {
    /// When it was built, in microseconds.
    pub since: u64,
    /// Whether it acknowledges and does nothing else: it is empty, and announced no more window.
    pub counts: bool,
}
