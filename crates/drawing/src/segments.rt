//! The labels of segments. Each direction of a connection has what its last label said, so that a number is repeated
//! only where it changes.

use case_forms::{Event, Flags, Host, Line, OutOfMemory, Version};
use plain_words::{FlagWords, Numbers, Sheet};
use segment::{Flag, Segment};
use std::alloc::Global;
use std::collections::BTreeMap;
use window_rules::scaled_window;

// A host, its own port and the peer's.
type Direction = (u8, u16, u16);

// What the last label of a direction said.
#[derive(Clone, Copy)]
struct Said {
    length: usize,
    ack: Option<u32>,
    window: Option<u32>,
}

const NOTHING: Said = Said {
    length: 0,
    ack: None,
    window: None,
};

/// What the labels of segments depend on.
#[derive(Drop)]
pub(crate) struct SegmentLabels {
    version: Version,
    numbers: Numbers,
    /// The shift in the latest SYN.
    shifts: BTreeMap<Direction, Option<u8>>,
    said: BTreeMap<Direction, Said>,
    /// The ports of each host's last label.
    ports: BTreeMap<u8, (u16, u16)>,
}

impl SegmentLabels {
    pub(crate) fn new(alloc: Global, version: Version) -> SegmentLabels {
        SegmentLabels {
            version,
            numbers: Numbers::new(alloc, version),
            shifts: BTreeMap::new(alloc),
            said: BTreeMap::new(alloc),
            ports: BTreeMap::new(alloc),
        }
    }

    /// Reads a line. A SYN carries its sender's initial sequence number and shift.
    pub(crate) fn read(&mut self, line: &Line) -> Result<(), OutOfMemory> {
        self.numbers.read(line)?;
        let (sender, seg) = match &line.event {
            Event::Sent(host, wire) => (*host, &wire.seg),
            Event::Came(host, wire) => (host.other(), &wire.seg),
            Event::CallBegin(_) | Event::CallEnd(_) | Event::Expired(..) => return Ok(()),
        };
        if seg.has(Flag::Syn) {
            self.shifts.insert(direction_of(sender, seg), seg.scale)?;
        }
        Ok(())
    }

    /// Writes the label of a segment that a host sends: its flags, what it carries, and what it acknowledges and
    /// offers, if that changed. The ports are named if the host's last label was of another connection.
    pub(crate) fn label(
        &mut self,
        words: &mut Sheet,
        host: Host,
        seg: &Segment,
    ) -> Result<(), OutOfMemory> {
        let direction = direction_of(host, seg);
        let said = self.said.get(&direction).copied().unwrap_or(NOTHING);
        self.name_ports(words, host, seg)?;
        let begun = words.len();
        push_flags(words, seg);
        let length = self.extent(words, host, seg, said);
        let is_bare = words.len() == begun;
        let ack = self.acknowledgment(words, host, seg, said, is_bare);
        let window = self.window(words, host, seg, said);
        self.said.insert(
            direction,
            Said {
                length,
                ack,
                window,
            },
        )?;
        Ok(())
    }

    fn name_ports(
        &mut self,
        words: &mut Sheet,
        host: Host,
        seg: &Segment,
    ) -> Result<(), OutOfMemory> {
        let ports = (seg.src, seg.dst);
        match self.ports.insert(host as u8, ports)? {
            Some(last) if last != ports => {
                words.say("{} -> {}: ", &[u64::from(seg.src), u64::from(seg.dst)]);
            }
            _ => {}
        }
        Ok(())
    }

    // What a segment carries, from its first position to that after its last byte; how many bytes, if that changed.
    fn extent(&self, words: &mut Sheet, host: Host, seg: &Segment, said: Said) -> usize {
        let (first, length) = (self.numbers.position(host, seg), seg.payload.len());
        let end = first.wrapping_add(u32::try_from(length).unwrap_or(u32::MAX));
        let (first, end) = (u64::from(first), u64::from(end));
        if seg.has(Flag::Syn) {
            words.say("{} ", &[first]);
        }
        match length {
            0 if seg.has(Flag::Rst) || seg.has(Flag::Fin) => words.say("{} ", &[first]),
            0 => {}
            _ if seg.has(Flag::Syn) => words.say("+{} ", &[length as u64]),
            _ if length == said.length => words.say("{}..{} ", &[first, end]),
            _ => words.say("{}..{} ({}) ", &[first, end, length as u64]),
        }
        if length == 0 { said.length } else { length }
    }

    // The acknowledgment, if it changed, or if the label has nothing else.
    fn acknowledgment(
        &self,
        words: &mut Sheet,
        host: Host,
        seg: &Segment,
        said: Said,
        is_bare: bool,
    ) -> Option<u32> {
        if !seg.has(Flag::Ack) {
            return said.ack;
        }
        let position = self.numbers.acknowledged(host, seg);
        if is_bare || said.ack != Some(position) {
            words.say("ack {} ", &[u64::from(position)]);
        }
        Some(position)
    }

    // The window in bytes, if it changed. That of a reset means nothing.
    fn window(&self, words: &mut Sheet, host: Host, seg: &Segment, said: Said) -> Option<u32> {
        if seg.has(Flag::Rst) {
            return said.window;
        }
        let window = scaled_window(seg.window, self.shift(host, seg));
        if said.window != Some(window) {
            words.say("win {}", &[u64::from(window)]);
        }
        Some(window)
    }

    // By how many bits a segment's window is shifted. Windows are scaled if both SYNs have a shift, but never in a SYN.
    fn shift(&self, host: Host, seg: &Segment) -> u8 {
        if seg.has(Flag::Syn) || !self.version.scales() {
            return 0;
        }
        let back = (host.other() as u8, seg.dst, seg.src);
        match (self.shift_of(direction_of(host, seg)), self.shift_of(back)) {
            (Some(shift), Some(_)) => shift,
            _ => 0,
        }
    }

    fn shift_of(&self, direction: Direction) -> Option<u8> {
        match self.shifts.get(&direction) {
            Some(shift) => *shift,
            None => None,
        }
    }
}

fn direction_of(host: Host, seg: &Segment) -> Direction {
    (host as u8, seg.src, seg.dst)
}

// The flags. Nearly every segment has ACK, so it is named only with SYN, and if a segment should have it.
fn push_flags(words: &mut Sheet, seg: &Segment) {
    let (ack, syn, rst) = (seg.has(Flag::Ack), seg.has(Flag::Syn), seg.has(Flag::Rst));
    let fin = seg.has(Flag::Fin);
    if syn || rst || fin {
        let ack = syn && ack;
        words.show(&FlagWords(Flags { ack, rst, syn, fin }));
    }
    if !ack && !syn && !rst {
        words.put("no ACK ");
    }
}
