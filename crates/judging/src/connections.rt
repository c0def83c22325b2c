//! How many connections a case has, and how many of them were established.

use case_forms::{Event, Header, Host, Label, Line, OutOfMemory, SegmentPlan};
use segment::Flag;
use std::alloc::Global;
use std::collections::BTreeSet;
use witness_search::Found;

/// The connections of a case, if its verdict is yes.
#[derive(Clone, Copy)]
pub struct Connections {
    /// How many SYNs began one. In a half case, the SYN-ACK of host 0 counts, too.
    pub begun: u64,
    /// How many of their endpoints received the peer's SYN and an acknowledgment of their own.
    pub established: u64,
}

// A host, its port and the peer's port.
type Ports = (u8, u16, u16);

/// A trace, and the witness that was found for it.
#[derive(Clone, Copy)]
pub(crate) struct Explained<'t> {
    /// The header of the case.
    pub header: &'t Header,
    /// The lines of the trace, without added ones.
    pub lines: &'t [Line],
    pub found: &'t Found,
}

/// Counts the connections of a case.
pub(crate) fn connections_of(
    alloc: Global,
    case: Explained<'_>,
) -> Result<Connections, OutOfMemory> {
    let is_half = case.header.version.is_half();
    let mut connections = Connections {
        begun: 0,
        established: 0,
    };
    let mut waiting = BTreeSet::new(alloc);
    for step in case.found.witness.steps.as_slice() {
        match &step.label {
            Label::M { host, plan } if begins(plan, is_half) => {
                waiting.insert((*host as u8, plan.lport, plan.rport))?;
                connections.begun = connections.begun.saturating_add(1);
            }
            Label::T { host, line, .. } => {
                if let Some(ports) = case.acknowledged_at(*host, *line)
                    && waiting.remove(&ports)
                {
                    connections.established = connections.established.saturating_add(1);
                }
            }
            Label::M { .. } | Label::L(_) | Label::D { .. } => {}
            Label::K { .. } | Label::R { .. } | Label::F { .. } => {}
        }
    }
    Ok(connections)
}

// Whether a segment is the first SYN of an endpoint that opens a connection. In a half case, no other host opens it.
fn begins(plan: &SegmentPlan, is_half: bool) -> bool {
    plan.iss.is_some() && (is_half || !plan.flags.ack)
}

impl<'t> Explained<'t> {
    // The line of this number in the case. None: there is no such event line in the trace.
    fn line(self, number: u64) -> Option<&'t Line> {
        let place = number.checked_sub(self.header.first_event_line())?;
        let place = usize::try_from(place).ok()?;
        self.lines.get(self.found.added.place_in_trace(place)?)
    }

    // The ports of the endpoint that processes the segment of a line, if that has ACK and isn't a reset. The first such
    // segment after the endpoint's SYN acknowledges it, or the step would break `ack-range`; the peer's SYN came before
    // it or with it.
    fn acknowledged_at(self, host: Host, line: u64) -> Option<Ports> {
        match &self.line(line)?.event {
            Event::Came(_, wire) if wire.seg.has(Flag::Ack) && !wire.seg.has(Flag::Rst) => {
                Some((host as u8, wire.seg.dst, wire.seg.src))
            }
            _ => None,
        }
    }
}
