//! Selective acknowledgments: blocks that should be sent, and what the first of them reports (RFC 2018, 4). They are
//! looked at from version 6 on, where both SYNs permitted them.

use crate::found::{Found, Lines, Stretch, Who};
use crate::notes::Note;
use crate::review::Review;
use crate::waits::Now;
use case_forms::{Event, OutOfMemory, POSITIONS, SegmentPlan, Wire};
use flights::Flights;
use segment::sack_block;
use seqno::{number, read_near};
use spec_tcp::{Endpoint, EndpointId};
use std::alloc::Global;
use std::fmt;
use std::mem::replace;
use streams::Ranges;

// So many bytes of options leave room for one more with a block: options have at most 40, and it has 10 (RFC 2018, 3).
const WITH_ROOM: usize = 30;

/// Segments with bytes or a FIN that came to an endpoint: from one to the next, it built no acknowledgment, or they
/// came at one moment.
#[derive(Drop)]
struct Batch {
    /// The positions that they have.
    positions: Ranges,
    count: u64,
    /// Bytes of each one are kept, and lie beyond a gap.
    are_beyond: bool,
}

impl Batch {
    // No segment.
    fn new(alloc: Global) -> Batch {
        Batch {
            positions: Ranges::new(alloc),
            count: 0,
            are_beyond: true,
        }
    }
}

/// The last two batches of an endpoint. An acknowledgment may be built before the last one comes, or within it, and be
/// seen afterwards.
#[derive(Drop)]
pub(crate) struct Batches {
    earlier: Batch,
    last: Batch,
    /// When a segment came last.
    moment: u64,
    /// Since then, the endpoint built an acknowledgment.
    answered: bool,
    /// The position after the bytes that were kept beyond a gap before the last batch, and with it.
    kept_before: u64,
    kept: u64,
}

impl Batches {
    /// No segment came.
    pub(crate) fn new(alloc: Global) -> Batches {
        Batches {
            earlier: Batch::new(alloc),
            last: Batch::new(alloc),
            moment: 0,
            answered: true,
            kept_before: 0,
            kept: 0,
        }
    }

    /// A segment with these positions comes. `beyond`: its bytes that are kept beyond a gap.
    pub(crate) fn add(
        &mut self,
        alloc: Global,
        came: Stretch,
        beyond: Option<Stretch>,
        moment: u64,
    ) -> Result<(), OutOfMemory> {
        if self.answered && self.moment != moment {
            self.earlier = replace(&mut self.last, Batch::new(alloc));
            self.kept_before = self.kept;
        }
        self.last.positions.add(came.first, came.end)?;
        self.last.count = self.last.count.saturating_add(1);
        self.last.are_beyond = self.last.are_beyond && beyond.is_some();
        self.moment = moment;
        self.answered = false;
        self.kept = beyond.map_or(0, |bytes| bytes.end).max(self.kept);
        Ok(())
    }

    // Whether bytes are kept beyond a gap, before which this position is expected, and an acknowledgment that is seen
    // now was built when some were: they were kept before the last batch, or that is a single segment.
    fn knows_kept(&self, next: u64) -> bool {
        next < self.kept_before || self.last.count == 1 && next < self.kept
    }

    // Whether an acknowledgment, the first one after the last batch, has to begin with a block of the last two batches,
    // and begins with other bytes.
    fn are_passed_over(&self, first: Stretch) -> bool {
        let (earlier, last) = (&self.earlier, &self.last);
        let meets = earlier.positions.meets(first.first, first.end)
            || last.positions.meets(first.first, first.end);
        !self.answered && earlier.are_beyond && last.are_beyond && !meets
    }

    // What is wrong with the blocks of an acknowledgment that is built now, of which this is the first.
    fn fault_of(&self, next: u64, first: Option<Stretch>) -> BlockFault {
        match first {
            None if self.knows_kept(next) => BlockFault::NoBlock(self.kept),
            Some(first) if self.are_passed_over(first) => BlockFault::Other(first),
            None | Some(_) => BlockFault::Nothing,
        }
    }
}

/// What is wrong with the blocks of a segment.
#[derive(Clone, Copy)]
pub(crate) enum BlockFault {
    /// Nothing is.
    Nothing,
    /// There is none, though bytes are kept beyond a gap, up to this position.
    NoBlock(u64),
    /// The first one reports these bytes, and nothing of what came last.
    Other(Stretch),
}

/// Acknowledgments without blocks of an endpoint, with none between them that needs no block, or has one.
#[derive(Clone, Copy)]
pub(crate) struct Blockless {
    who: Who,
    times: u64,
    lines: Lines,
    /// The position after the bytes that are kept.
    kept: u64,
}

impl fmt::Display for Blockless {
    fn fmt<W: fmt::Write>(&self, f: &mut fmt::Formatter<W>) -> fmt::Result {
        match self.times {
            1 => write!(f, "an acknowledgment")?,
            times => write!(f, "{times} acknowledgments")?,
        }
        let last = self.kept.saturating_sub(1);
        write!(
            f,
            " without SACK blocks, but keeps bytes beyond a gap, up to {last} (RFC 2018, 4)"
        )
    }
}

impl Note {
    /// Takes an acknowledgment that is sent. If it doesn't lack blocks, those before it that do have come to an end.
    pub(crate) fn take_blocks(
        &mut self,
        found: &mut Found,
        fault: BlockFault,
        now: Now,
    ) -> Result<(), OutOfMemory> {
        if let BlockFault::NoBlock(kept) = fault {
            let times = self.blockless.map_or(0, |blockless| blockless.times);
            let first = self
                .blockless
                .map_or(now.line, |blockless| blockless.lines.0);
            self.blockless = Some(Blockless {
                who: now.who,
                times: times.saturating_add(1),
                lines: Lines(first, now.line),
                kept,
            });
            return Ok(());
        }
        self.say_blockless(found)?;
        self.blockless = None;
        if let BlockFault::Other(bytes) = fault {
            let others = "not with what came last (RFC 2018, 4)";
            let what = &format_args!("{bytes}, {others}");
            found.add(now.line, now.who, "begins its SACK blocks with", what)?;
        }
        Ok(())
    }

    /// Remarks on the last acknowledgments without blocks, if there are any.
    pub(crate) fn say_blockless(&self, found: &mut Found) -> Result<(), OutOfMemory> {
        match self.blockless {
            Some(blockless) => found.add_at(blockless.lines, blockless.who, "sends", &blockless),
            None => Ok(()),
        }
    }
}

impl Review<'_> {
    /// An endpoint makes a segment of this number. The result is what is wrong with its blocks.
    pub(crate) fn block_fault(
        &mut self,
        flights: &Flights,
        id: EndpointId,
        endpoint: &Endpoint,
        plan: &SegmentPlan,
        made: u32,
    ) -> BlockFault {
        if !plan.flags.ack || plan.flags.syn || plan.flags.rst {
            return BlockFault::Nothing;
        }
        let wire = wire_of(self, made);
        let Some(batches) = self.batches.get_mut(&(id.host as u8, id.number)) else {
            return BlockFault::Nothing;
        };
        let fault = match wire {
            Some(wire) if flights.is_selective(id.host, id.number) => {
                fault_on_wire(batches, endpoint, wire)
            }
            Some(_) | None => BlockFault::Nothing,
        };
        batches.answered = true;
        fault
    }
}

// How a line shows the segment of this number. None: no line does.
fn wire_of<'c>(review: &Review<'c>, made: u32) -> Option<&'c Wire> {
    match &review.case.line(*review.shown.get(&made)?)?.event {
        Event::Sent(_, wire) => Some(wire),
        _ => None,
    }
}

// What is wrong with the blocks of an acknowledgment that an endpoint makes, and a line shows like this. One without
// room for a block has none, and one that shows an earlier number was built before the text that came last.
fn fault_on_wire(batches: &Batches, endpoint: &Endpoint, wire: &Wire) -> BlockFault {
    let next = endpoint.rcv_nxt();
    let shows_next = endpoint
        .irs
        .is_some_and(|irs| number(irs, next).0 == wire.seg.ack.0);
    let bytes = wire.bytes.as_slice();
    let has_none = sack_block(bytes, 0).is_none();
    if !shows_next || has_none && WITH_ROOM < wire.seg.options.len() {
        return BlockFault::Nothing;
    }
    if has_none {
        return batches.fault_of(next, None);
    }
    match first_reported(endpoint, next, bytes) {
        Some(first) => batches.fault_of(next, Some(first)),
        None => BlockFault::Nothing,
    }
}

// What the first block of a segment reports. None: it has no block, or that reports nothing.
fn first_reported(endpoint: &Endpoint, next: u64, bytes: &[u8]) -> Option<Stretch> {
    let (block, irs) = (sack_block(bytes, 0)?, endpoint.irs?);
    if POSITIONS <= next {
        return None;
    }
    let left = read_near(next, irs, block.left)?;
    let right = read_near(next, irs, block.right)?;
    Stretch::up_to(left, right)
}
