//! The header and the event lines of a trace.

ghost use Rattle.std.specs.Prelude.{◌≡◌, [], ◌∷◌, ◌++◌, IfOk, OnOk, OnErr};
ghost use Rattle.segment.specs.Layout.{IsSegment};
ghost use Rattle.case_forms.specs.Traces.{first_event_line};

use crate::OutOfMemory;
use crate::calls::{Answer, Call, Host};
use crate::timer::Timer;
use crate::version::{Growth, Initial, Judged, Sender, Version};
use segment::{Bytes, Segment};
use std::alloc::Global;
use std::marker::Model;

/// Byte columns of a line, from 0, half open. Lines are counted from 1.
#[derive(Clone, Copy, Debug, PartialEq, Eq)]
pub struct Span {
    pub line: u64,
    pub start: usize,
    pub stop: usize,
}

/// The header of a trace. Times are in microseconds.
#[derive(Clone, Copy)]
pub struct Header {
    pub version: Version,
    /// How much later than its line a step may be, 0 to 10^9.
    pub skew: u64,
    /// The maximum segment lifetime (RFC 9293, 3.4.2), 1 to 3600000000.
    pub msl: u64,
    /// The clock granularity of the retransmission timer (RFC 6298, 2), 0 to 60000000.
    pub grain: u64,
    /// The least retransmission timeout (RFC 6298, 2.4), 0 to 60000000.
    pub minrto: u64,
    /// How many children a listen queue may hold beyond its backlog.
    pub extra: u16,
    /// Which RFC gives the first congestion window; `Rfc5681` in version 1, whose texts don't state it.
    pub initial: Initial,
    /// How much of congestion control is judged; `Full` in versions 1 to 3, whose texts don't state it.
    pub congestion: Judged,
    /// How late a host may be with what it must do, 0 to 10^18; `None` (`any`) if that isn't judged. Versions 1 to 4,
    /// whose texts don't state it, have `None`.
    pub slack: Option<u64>,
    /// Which RFC describes the sender's congestion control; `Reno` in versions 1 to 5, whose texts don't state it.
    pub sender: Sender,
    /// What a sender may add to its congestion window in slow start; `OneSegment` in versions 1 to 5, whose texts don't
    /// state it.
    pub growth: Growth,
}

impl Header {
    /// The number of the first event line, which follows the lines of the header.
    pub fn first_event_line(&self) -> u64
        ensures { result ≡ first_event_line self.now }
    {
        self.version.first_event_line()
    }
}

/// An observed segment: its bytes, at most 65515, and the result of `segment::decode` on them. The segment always
/// matches the bytes: a constructor has to prove it, and `is_segment` states it.
#[derive(Drop)]
pub struct Wire {
    pub bytes: Bytes,
    /// The segment that the bytes encode (RFC 9293, 3.1).
    pub seg: Segment,
}

impl Model for Wire {
    ghost use Rattle.segment.specs.Layout.{IsSegment};
    ghost use Rattle.case_forms.specs.Wires.{Seen};

    ghost Value = { Seen };

    ghost view = { λ a. record { bytes = a.bytes; seg = a.seg } };

    ghost invariant = { λ a. IsSegment a.bytes a.seg };

    ghost inverse = { λ s. record { bytes = s.bytes; seg = s.seg } };
}

impl Wire {
    /// The segment of every wire is what its bytes encode: a call that does nothing, whose contract states this.
    pub fn is_segment(&self)
        ensures { IsSegment self.now.bytes self.now.seg }
    {
        let _ = &self.seg;
    }

    /// An equal wire. The error means that memory ran out.
    pub fn copy(&self) -> Result<Wire, OutOfMemory>
        ensures { IfOk result (λ wire. wire ≡ self.now) }
    {
        Ok(Wire {
            bytes: self.bytes.copy()?,
            seg: self.seg.copy()?,
        })
    }
}

/// The content of an event line.
#[derive(Drop)]
pub enum Event {
    /// `B`: the thread begins a call.
    CallBegin(Call),
    /// `E`: its open call ends with this answer.
    CallEnd(Answer),
    /// `O host hex`: a segment of the host was seen on the wire.
    Sent(Host, Wire),
    /// `I host hex`: a segment arrived at the host.
    Came(Host, Wire),
    /// `T host lport rport timer`: a timer expired at the host's endpoint at these ports, local and remote.
    Expired(Host, u16, u16, Timer),
}

impl Event {
    /// An equal event. The error means that memory ran out.
    pub fn copy(&self) -> Result<Event, OutOfMemory>
        ensures { IfOk result (λ event. event ≡ self.now) }
    {
        match self {
            Event::CallBegin(call) => Ok(Event::CallBegin(call.copy()?)),
            Event::CallEnd(answer) => Ok(Event::CallEnd(answer.copy()?)),
            Event::Sent(host, wire) => Ok(Event::Sent(*host, wire.copy()?)),
            Event::Came(host, wire) => Ok(Event::Came(*host, wire.copy()?)),
            Event::Expired(host, local, remote, timer) => {
                Ok(Event::Expired(*host, *local, *remote, *timer))
            }
        }
    }
}

/// An event line of a trace.
#[derive(Drop)]
pub struct Line {
    /// Its number among all lines of the trace, including the header's.
    pub number: u64,
    /// When it was recorded, in microseconds.
    pub moment: u64,
    pub thread: u32,
    pub event: Event,
    /// The whole line, without its end.
    pub span: Span,
}

impl Line {
    /// An equal line. The error means that memory ran out.
    pub fn copy(&self) -> Result<Line, OutOfMemory>
        ensures { IfOk result (λ line. line ≡ self.now) }
    {
        Ok(Line {
            number: self.number,
            moment: self.moment,
            thread: self.thread,
            event: self.event.copy()?,
            span: self.span,
        })
    }
}

/// The event lines of a trace, which contracts see as a list.
#[derive(Drop)]
pub struct Lines {
    items: Vec<Line>,
}

impl Model for Lines {
    ghost use Rattle.std.specs.Prelude.{List};
    ghost use Rattle.case_forms.specs.declared.trace.Line.{Line};

    ghost Value = { List Line };

    ghost view = { λ a. a.items.items };
}

impl Lines {
    /// No lines.
    pub fn new(alloc: Global) -> Self
        ensures { result ≡ [] }
    {
        Lines {
            items: Vec::new(alloc),
        }
    }

    /// Appends a line. If memory runs out, the lines don't change.
    pub fn push(&mut self, line: Line) -> Result<(), OutOfMemory>
        ensures ok { OnOk result (self.new ≡ self.old ++ line ∷ []) }
        ensures err { OnErr result (self.new ≡ self.old) }
    {
        self.items.push(line)?;
        Ok(())
    }

    /// The lines in order.
    pub fn as_slice(&self) -> &[Line]
        ensures { result.now ≡ self.now }
    {
        self.items.as_slice()
    }

    /// An equal copy. The error means that memory ran out.
    pub fn copy(&self) -> Result<Lines, OutOfMemory>
        ensures { IfOk result (λ lines. lines ≡ self.now) }
    {
        let mut copied = Lines::new(*self.items.allocator());
        for line in self.items.as_slice() {
            copied.push(line.copy()?)?;
        }
        Ok(copied)
    }
}

/// A trace: its header and its event lines.
#[derive(Drop)]
pub struct Trace {
    pub header: Header,
    pub lines: Lines,
}

impl Trace {
    /// An equal trace. The error means that memory ran out.
    pub fn copy(&self) -> Result<Trace, OutOfMemory>
        ensures { IfOk result (λ trace. trace ≡ self.now) }
    {
        Ok(Trace {
            header: self.header,
            lines: self.lines.copy()?,
        })
    }
}
