//! All that duties read of the world at a step.

use crate::answering::{CallChange, SocketChange};
use crate::events::Event;
use crate::views::View;
use case_forms::Host;
use segment::TimestampPair;

/// What a step does to an inbox.
#[derive(Clone, Copy)]
pub enum InboxChange {
    Nothing,
    /// A segment enters it with this line.
    Enters(u64),
    /// The segment of this line is processed, dropped or answered.
    Leaves(u64),
}

/// What a step does to the segments that were built.
#[derive(Clone, Copy)]
pub enum BuiltChange {
    Nothing,
    /// A segment is built, under this number.
    Builds(u32),
    /// The segment of this number is sent.
    Sends(u32),
}

/// What a step does to a listener, by its host and place, besides creating a child.
#[derive(Clone, Copy)]
pub enum Queueing {
    Nothing,
    /// It loses a child that isn't CLOSED, since that is accepted.
    Accepts { host: Host, listener: u32 },
    /// It is closed.
    Closes { host: Host, listener: u32 },
}

/// Whether a segment that could be processed need not be.
#[derive(Clone, Copy)]
pub enum Droppable {
    No,
    Yes,
    /// Only if the listener at this place has at least `backlog` children that are neither accepted nor CLOSED.
    IfFull { listener: u32, backlog: u16 },
    /// Only if it acknowledges so many positions less than the endpoint at this place has acknowledged that they are
    /// more than any window that the peer offered.
    IfStale { place: u32, behind: u64 },
}

/// Whether a step at an endpoint measures a round trip.
#[derive(Clone, Copy)]
pub enum Sampling {
    /// It could not, or versions 1 to 5 don't ask.
    Nothing,
    /// It does.
    Measures,
    /// It could, by the acknowledgment of this position, and doesn't.
    Skips(u64),
}

/// What a step does with a SYN. Versions 1 to 5 don't ask.
#[derive(Clone, Copy)]
pub enum SynChange {
    Nothing,
    /// An endpoint sends its own SYN. `permits`: its options permit selective acknowledgments (RFC 2018, 2).
    Sends { permits: bool },
    /// An endpoint takes the SYN of its peer, or a listener does, which creates the endpoint. `alone`: the endpoint
    /// sent its own, and this one doesn't acknowledge it (RFC 9293, 3.5, simultaneous initiation).
    Takes { permits: bool, alone: bool },
    /// The SYN that an endpoint in SYN-RECEIVED took comes again, and is dropped.
    ComesAgain,
}

/// Positions that the peer reported to have: from `from` to before `upto`.
#[derive(Clone, Copy)]
pub struct Block {
    pub from: u64,
    pub upto: u64,
}

/// The blocks of a selective acknowledgment, each in its place; a list of options has room for no more (RFC 2018, 3).
/// `None`: there is none in that place, or it reports nothing that is outstanding.
#[derive(Clone, Copy)]
pub struct Blocks {
    pub first: Option<Block>,
    pub second: Option<Block>,
    pub third: Option<Block>,
    pub fourth: Option<Block>,
}

/// Positions of the peer's stream that processing a segment keeps: from `from` to before `upto`; none if `upto` isn't
/// above `from`. Some may have been kept before.
#[derive(Clone, Copy)]
pub struct Kept {
    pub from: u64,
    pub upto: u64,
}

/// A segment that reaches an endpoint, as that reads it.
#[derive(Clone, Copy)]
pub struct Arrival {
    /// The position of its sequence number.
    pub pos: u64,
    /// The position of its acknowledgment number; 0 if it has none.
    pub ack: u64,
    /// How many positions it occupies (SEG.LEN).
    pub length: u128,
}

/// A segment that is dropped.
#[derive(Clone, Copy)]
pub struct Dropping {
    pub host: Host,
    /// Whether the model permits processing it.
    pub takeable: bool,
    pub droppable: Droppable,
    /// Whether it has to be answered with a reset.
    pub answerable: bool,
}

/// An endpoint that a step touches.
#[derive(Clone, Copy)]
pub struct TouchedEndpoint {
    pub host: Host,
    /// Its place in the order of creation.
    pub place: u32,
    pub event: Event,
    /// The endpoint before the step.
    pub before: View,
}

/// What the line of a segment shows that may not be: the rule that it breaks. Versions 1 to 5 don't ask.
#[derive(Clone, Copy)]
pub enum Untruth {
    /// Its blocks report what its sender doesn't hold, or weren't permitted (RFC 2018, 2 to 4).
    Blocks,
    /// It doesn't echo the timestamp that it has to (RFC 7323, 3.2 and 4.3).
    Echo,
    /// Its own timestamp is older than one that was built before (RFC 7323, 5.2).
    Clock,
}

/// All that duties read of the world at a step.
#[derive(Clone, Copy)]
pub struct Observation {
    pub touched: Option<TouchedEndpoint>,
    pub inbox_change: InboxChange,
    pub built_change: BuiltChange,
    pub queueing: Queueing,
    /// The segment that the step drops.
    pub dropping: Option<Dropping>,
    /// Whether the step discards what is next in order.
    pub discards: bool,
    pub sampling: Sampling,
    /// Whether the endpoint earns a credit by it, with which it may send an acknowledgment.
    pub earns: bool,
    pub syn_change: SynChange,
    /// Which positions the segment that is processed reports as received, by its blocks. Versions 1 to 5 don't ask.
    pub blocks: Blocks,
    /// What is kept of that segment. Versions 1 to 5 don't ask.
    pub kept: Kept,
    /// The timestamps of the segment that is sent, processed or dropped (RFC 7323, 3.2). `None`: it has none, or
    /// versions 1 to 5 don't ask.
    pub stamps: Option<TimestampPair>,
    /// The segment that is processed or dropped. `None`: it is a reset, or reaches no endpoint that knows the peer's
    /// SYN. Versions 1 to 5 don't ask.
    pub arrival: Option<Arrival>,
    /// The position that the segment which is built or sent acknowledges at least: before it is sent, it may still have
    /// the acknowledgment number from before the text of its moment. 0: it acknowledges nothing, or versions 1 to 5
    /// don't ask.
    pub acked: u64,
    /// What it does to the call of a thread, and to a socket. Versions 1 to 5 don't ask.
    pub call_change: CallChange,
    pub socket_change: SocketChange,
}
