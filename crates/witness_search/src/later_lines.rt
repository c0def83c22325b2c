//! What later lines show: ends of calls, and segments that are sent. Lines are named by their places among the event
//! lines, from 0.

use crate::key::EndpointKey;
use case_forms::{Event, Header, Line, OutOfMemory, Wire};
use segment::Flag;
use seqno::Word;
use std::alloc::Global;
use std::collections::BTreeMap;

// For each endpoint that has any, places, the first one last.
type Chains = BTreeMap<EndpointKey, Vec<usize>>;

// Adds a place that precedes all others of its endpoint.
fn put_first(chains: &mut Chains, key: EndpointKey, place: usize) -> Result<(), OutOfMemory> {
    chains.entry(key)?.or_default().push(place)?;
    Ok(())
}

/// The moment before which only what is sent may be built, or a duty is late after the last line (version 6); 0: there
/// is no such moment.
pub(crate) fn sent_before(header: &Header, lines: &[Line]) -> u64 {
    match (header.slack, lines.last()) {
        (Some(slack), Some(last)) if header.version.says_sender() => {
            last.moment.saturating_sub(slack)
        }
        _ => 0,
    }
}

/// What later lines show.
#[derive(Drop)]
pub(crate) struct LaterLines {
    /// For the place of each beginning, that of its end.
    ends: BTreeMap<usize, usize>,
    /// For each thread, the place of the first end after what was read, if no beginning precedes it.
    ended: BTreeMap<u32, usize>,
    /// The lines that show a segment sent.
    sent: Chains,
    /// Of these, the lines of resets.
    resets: Chains,
}

impl LaterLines {
    /// What the lines of a trace show.
    pub(crate) fn new(alloc: Global, lines: &[Line]) -> Result<LaterLines, OutOfMemory> {
        let mut later = LaterLines {
            ends: BTreeMap::new(alloc),
            ended: BTreeMap::new(alloc),
            sent: BTreeMap::new(alloc),
            resets: BTreeMap::new(alloc),
        };
        later.read_all(lines)?;
        Ok(later)
    }

    // Reads the lines from the last to the first.
    fn read_all(&mut self, lines: &[Line]) -> Result<(), OutOfMemory> {
        for (place, line) in lines.iter().enumerate().rev() {
            self.read(place, line)?;
        }
        Ok(())
    }

    fn read(&mut self, place: usize, line: &Line) -> Result<(), OutOfMemory> {
        match &line.event {
            Event::CallBegin(_) => {
                if let Some(end) = self.ended.remove(&line.thread) {
                    self.ends.insert(place, end)?;
                }
            }
            Event::CallEnd(_) => {
                self.ended.insert(line.thread, place)?;
            }
            Event::Sent(host, wire) => {
                let key = EndpointKey::sender(*host, wire);
                if wire.seg.has(Flag::Rst) {
                    put_first(&mut self.resets, key, place)?;
                }
                put_first(&mut self.sent, key, place)?;
            }
            Event::Came(..) | Event::Expired(..) => {}
        }
        Ok(())
    }

    /// The place of the end of the call that begins at a place. None: it is open at the end of the trace.
    pub(crate) fn end_of(&self, begin: usize) -> Option<usize> {
        self.ends.get(&begin).copied()
    }
}

// The places that are left of chains.
#[derive(Drop)]
struct Left<'t> {
    chains: &'t Chains,
    /// How many are left, for each endpoint of which any were removed.
    counts: BTreeMap<EndpointKey, usize>,
}

impl<'t> Left<'t> {
    // The places of an endpoint that are left, the first one last.
    fn places(&self, key: EndpointKey) -> &'t [usize] {
        let Some(places) = self.chains.get(&key) else {
            return &[];
        };
        match self.counts.get(&key) {
            Some(count) => places.get(..*count).unwrap_or(&[]),
            None => places.as_slice(),
        }
    }

    // Removes the places of an endpoint up to and including this one.
    fn pass(&mut self, key: EndpointKey, place: usize) -> Result<(), OutOfMemory> {
        let places = self.places(key);
        let passed = places.iter().rev().take_while(|first| **first <= place);
        let left = places.len().saturating_sub(passed.count());
        if left < places.len() {
            self.counts.insert(key, left)?;
        }
        Ok(())
    }
}

/// A line that shows a segment sent.
#[derive(Clone, Copy)]
pub(crate) struct Shown<'t> {
    /// The endpoint that sends it.
    pub key: EndpointKey,
    pub place: usize,
    pub wire: &'t Wire,
}

/// The segments that are sent from the current line on.
#[derive(Drop)]
pub(crate) struct Outgoing<'t> {
    lines: &'t [Line],
    /// The lines whose segments weren't built yet.
    unbuilt: Left<'t>,
    /// Of these, the lines of resets.
    resets: Left<'t>,
    /// For the place of a line whose segment was built before, the number of the segment.
    built: BTreeMap<usize, u32>,
    /// For each endpoint, the number of the last SYN that it sent.
    pub syns: BTreeMap<EndpointKey, Word>,
}

impl<'t> Outgoing<'t> {
    /// All segments of a trace.
    pub(crate) fn all(alloc: Global, lines: &'t [Line], later: &'t LaterLines) -> Outgoing<'t> {
        let all = |chains| Left {
            chains,
            counts: BTreeMap::new(alloc),
        };
        Outgoing {
            lines,
            unbuilt: all(&later.sent),
            resets: all(&later.resets),
            built: BTreeMap::new(alloc),
            syns: BTreeMap::new(alloc),
        }
    }

    // The first line of an endpoint that is left.
    fn first(&self, left: &Left<'_>, key: EndpointKey) -> Option<Shown<'t>> {
        let place = *left.places(key).last()?;
        match &self.lines.get(place)?.event {
            Event::Sent(_, wire) => Some(Shown { key, place, wire }),
            _ => None,
        }
    }

    /// The next line of an endpoint whose segment wasn't built yet.
    pub(crate) fn next(&self, key: EndpointKey) -> Option<Shown<'t>> {
        self.first(&self.unbuilt, key)
    }

    /// The next line of an endpoint whose segment is a reset that wasn't built yet.
    pub(crate) fn next_reset(&self, key: EndpointKey) -> Option<Shown<'t>> {
        self.first(&self.resets, key)
    }

    /// Whether the segment of a line was built.
    pub(crate) fn is_built(&self, place: usize) -> bool {
        self.built.contains_key(&place)
    }

    /// The segment of a line was built, under this number.
    pub(crate) fn build(&mut self, shown: Shown<'_>, made: u32) -> Result<(), OutOfMemory> {
        self.built.insert(shown.place, made)?;
        self.pass(shown)
    }

    /// The reset of a line was built, under this number, in answer to an arrival.
    pub(crate) fn build_reset(&mut self, shown: Shown<'_>, made: u32) -> Result<(), OutOfMemory> {
        self.built.insert(shown.place, made)?;
        self.resets.pass(shown.key, shown.place)
    }

    /// The segment of a line is sent. The result is its number, if it was built before.
    pub(crate) fn start_sending(&mut self, shown: Shown<'_>) -> Result<Option<u32>, OutOfMemory> {
        self.pass(shown)?;
        Ok(self.built.remove(&shown.place))
    }

    // The segments of an endpoint up to this line count as built.
    fn pass(&mut self, shown: Shown<'_>) -> Result<(), OutOfMemory> {
        self.unbuilt.pass(shown.key, shown.place)?;
        self.resets.pass(shown.key, shown.place)
    }
}
