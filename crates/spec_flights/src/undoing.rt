//! Whether a recovery from a loss was needed.

use seqno::Word;

/// The first segment in a recovery that was built with outstanding positions.
#[derive(Clone, Copy)]
pub struct Again {
    /// The number under which it was built.
    pub number: u32,
    /// Its lowest position.
    pub pos: u64,
    /// Its timestamp (TSval, RFC 7323, 3.2). `None`: its line hasn't shown one.
    pub clock: Option<Word>,
}

/// The timeout with which a recovery began.
#[derive(Clone, Copy)]
pub struct Began {
    /// The oldest unacknowledged position then.
    pub snd_una: u64,
    /// The number of the last segment with positions that was built before.
    pub newest: u32,
}

/// What is known of the last recovery that began.
#[derive(Clone, Copy)]
pub struct Undoing {
    pub again: Option<Again>,
    /// `None`: it is fast recovery.
    pub timeout: Option<Began>,
    /// Whether it wasn't needed, so that it may be undone.
    pub is_spurious: bool,
}
