//! Timestamps of an endpoint and of its peer.

use seqno::Word;

/// The segment with the greatest number of those of an endpoint whose lines have shown a timestamp.
#[derive(Clone, Copy)]
pub struct Newest {
    /// The number under which it was built.
    pub number: u32,
    /// Its own timestamp (TSval).
    pub value: Word,
}

/// Which timestamps a segment may echo: from the first to the second, on the circle of all values.
#[derive(Clone, Copy)]
pub struct Echoable {
    pub from: Word,
    pub upto: Word,
}

/// What is known of timestamps at an endpoint (RFC 7323, 3.2, 4.3 and 5.3).
#[derive(Clone, Copy)]
pub struct Clocks {
    /// Whether its own SYN had them.
    pub own: bool,
    /// Whether the SYN that it took had them.
    pub peers: bool,
    /// The clock of its peer that it echoes (TS.Recent), if it took none from what it dropped. `None`: that SYN had
    /// none.
    pub recent: Option<Word>,
    /// The newest clock of its peer, of what it acknowledged when that came. `None`: that SYN had none.
    pub most: Option<Word>,
    /// The greatest position that it acknowledged at least, and at most: a segment that wasn't sent yet may still have
    /// the acknowledgment number from before the text of its moment.
    pub told: u64,
    pub told_most: u64,
    /// `None`: no line of its segments has shown a timestamp.
    pub newest: Option<Newest>,
}
