//! Numbers on the wire as positions, counted from the initial sequence numbers that a trace shows.

use case_forms::{Event, Host, Line, OutOfMemory, Version};
use segment::{Flag, Segment};
use std::alloc::Global;
use std::collections::BTreeMap;

// A host, its own port and the peer's.
type ConnectionKey = (u8, u16, u16);

/// The latest initial sequence numbers that lines showed.
#[derive(Drop)]
pub struct Numbers {
    first: BTreeMap<ConnectionKey, u32>,
    half: bool,
}

impl Numbers {
    pub fn new(alloc: Global, version: Version) -> Numbers {
        let (first, half) = (BTreeMap::new(alloc), version.is_half());
        Numbers { first, half }
    }

    /// Reads a line. A SYN sent carries its host's initial sequence number; in a half case, a SYN received carries the
    /// other host's.
    pub fn read(&mut self, line: &Line) -> Result<(), OutOfMemory> {
        let (sender, seg) = match &line.event {
            Event::Sent(host, wire) => (*host, &wire.seg),
            Event::Came(host, wire) if self.half => (host.other(), &wire.seg),
            _ => return Ok(()),
        };
        if seg.has(Flag::Syn) {
            let key = connection_key(sender, seg.src, seg.dst);
            self.first.insert(key, seg.seq.0)?;
        }
        Ok(())
    }

    /// The position of a segment of a host, modulo 2^32; its number if no SYN was seen.
    pub fn position(&self, host: Host, seg: &Segment) -> u32 {
        self.from(connection_key(host, seg.src, seg.dst), seg.seq.0)
    }

    /// The position that a segment of a host acknowledges.
    pub fn acknowledged(&self, host: Host, seg: &Segment) -> u32 {
        self.from(connection_key(host.other(), seg.dst, seg.src), seg.ack.0)
    }

    fn from(&self, key: ConnectionKey, number: u32) -> u32 {
        number.wrapping_sub(self.first.get(&key).copied().unwrap_or(0))
    }
}

fn connection_key(host: Host, lport: u16, rport: u16) -> ConnectionKey {
    (host as u8, lport, rport)
}
