//! The remarks that were found, in the order of their places, and parts of them in words. Bytes and FINs are named by
//! their positions.

use crate::covered::Covered;
use crate::review::Remarks;
use case_forms::{Header, Host, OutOfMemory};
use plain_words::HostName;
use spec_tcp::Endpoint;
use std::alloc::Global;
use std::collections::BTreeMap;
use std::fmt::{self, Display};

/// Remarks in the order of finding, one after another in a text.
#[derive(Drop)]
pub(crate) struct Found {
    text: String,
    /// By the line that a remark begins at, and its number: the line that it ends at, and where it begins and ends in
    /// the text.
    places: BTreeMap<(u64, u64), (u64, usize, usize)>,
    /// What rules say, so that it is no remark.
    pub covered: Covered,
}

impl Found {
    /// No remark so far on a case with this header.
    pub(crate) fn new(alloc: Global, header: &Header) -> Found {
        Found {
            text: String::new(alloc),
            places: BTreeMap::new(alloc),
            covered: Covered::by(header),
        }
    }

    /// One more remark, on one line.
    pub(crate) fn add(
        &mut self,
        line: u64,
        who: Who,
        does: &str,
        what: &impl Display,
    ) -> Result<(), OutOfMemory> {
        self.add_at(Lines(line, line), who, does, what)
    }

    /// One more remark: in these lines, who does what.
    pub(crate) fn add_at(
        &mut self,
        at: Lines,
        who: Who,
        does: &str,
        what: &impl Display,
    ) -> Result<(), OutOfMemory> {
        let key = (at.0, self.places.len() as u64);
        let begin = self.text.len();
        writeln!(self.text, "{at}: {who} {does} {what}")?;
        self.places.insert(key, (at.1, begin, self.text.len()))?;
        Ok(())
    }

    /// All of them.
    pub(crate) fn remarks(&self, alloc: Global) -> Result<Remarks, OutOfMemory> {
        let (mut text, mut places) = (String::new(alloc), Vec::new(alloc));
        for ((first, _), (last, begin, end)) in self.places.iter() {
            text.push_str(self.text.get(*begin..*end).unwrap_or(""))?;
            places.push((*first != AT_THE_END).then_some((*first, *last)))?;
        }
        Ok(Remarks { text, places })
    }
}

/// The lines of a remark, from the first to the last.
#[derive(Clone, Copy)]
pub(crate) struct Lines(pub u64, pub u64);

/// The place of what is remarked at the end, after every line.
pub(crate) const AT_THE_END: u64 = u64::MAX;

impl Display for Lines {
    fn fmt<W: fmt::Write>(&self, f: &mut fmt::Formatter<W>) -> fmt::Result {
        let Lines(first, last) = *self;
        if first == AT_THE_END {
            write!(f, "at the end")
        } else if first == last {
            write!(f, "line {first}")
        } else {
            write!(f, "lines {first} to {last}")
        }
    }
}

/// Who is meant.
#[derive(Clone, Copy)]
pub(crate) enum Who {
    Endpoint { host: Host, lport: u16, rport: u16 },
    Listener { host: Host, port: u16 },
    /// The call of a thread, by the line that begins it.
    Call { thread: u32, line: u64 },
}

impl Who {
    /// An endpoint of a host.
    pub(crate) fn from_endpoint(host: Host, endpoint: &Endpoint) -> Who {
        let (lport, rport) = (endpoint.lport, endpoint.rport);
        Who::Endpoint { host, lport, rport }
    }
}

impl Display for Who {
    fn fmt<W: fmt::Write>(&self, f: &mut fmt::Formatter<W>) -> fmt::Result {
        match self {
            Who::Endpoint { host, lport, rport } => {
                write!(f, "{}'s endpoint {lport} -> {rport}", HostName(*host))
            }
            Who::Listener { host, port } => {
                write!(f, "{}'s listener on port {port}", HostName(*host))
            }
            Who::Call { thread, line } => write!(f, "thread {thread}'s call in line {line}"),
        }
    }
}

/// Bytes that follow each other, by the position of the first and the position after the last.
#[derive(Clone, Copy)]
pub(crate) struct Stretch {
    pub first: u64,
    pub end: u64,
}

impl Stretch {
    /// The bytes from one position up to another, which is none of them. None: there are none.
    pub(crate) fn up_to(first: u64, end: u64) -> Option<Stretch> {
        (first < end).then_some(Stretch { first, end })
    }

    /// Those of the bytes that are in this range. None: there are none.
    pub(crate) fn within(self, first: u64, end: u64) -> Option<Stretch> {
        Stretch::up_to(self.first.max(first), self.end.min(end))
    }
}

impl Display for Stretch {
    fn fmt<W: fmt::Write>(&self, f: &mut fmt::Formatter<W>) -> fmt::Result {
        let (first, last) = (self.first, self.end.saturating_sub(1));
        if first == last {
            write!(f, "byte {first}")
        } else {
            write!(f, "bytes {first} to {last}")
        }
    }
}

/// Retransmissions from a position, which are counted.
#[derive(Clone, Copy)]
pub(crate) struct Repeats {
    pub who: Who,
    pub position: u64,
    /// They are of a SYN with ACK.
    pub is_syn_ack: bool,
    pub times: u64,
    pub lines: Lines,
}

impl Repeats {
    /// One more, in this line.
    pub(crate) fn add(&mut self, line: u64) {
        let first = if self.times == 0 { line } else { self.lines.0 };
        self.lines = Lines(first, line);
        self.times = self.times.saturating_add(1);
    }

    /// Remarks on them, unless a rule judges them.
    pub(crate) fn say(&self, found: &mut Found, how: &impl Display) -> Result<(), OutOfMemory> {
        if found.covered.repeats && !self.is_syn_ack {
            return Ok(());
        }
        let what = &format_args!("{self} {how}");
        found.add_at(self.lines, self.who, "retransmits", what)
    }
}

// What is sent again, and how many times; once is not said.
impl Display for Repeats {
    fn fmt<W: fmt::Write>(&self, f: &mut fmt::Formatter<W>) -> fmt::Result {
        match self.position {
            0 => write!(f, "its SYN")?,
            position => write!(f, "position {position}")?,
        }
        match self.times {
            1 => Ok(()),
            2 => write!(f, " twice"),
            times => write!(f, " {times} times"),
        }
    }
}

/// A time of so many microseconds. From 1,000 on it is in milliseconds, and from 1,000,000 on in seconds, both with at
/// most three decimals, rounded down.
#[derive(Clone, Copy)]
pub(crate) struct Time(pub u64);

impl Display for Time {
    fn fmt<W: fmt::Write>(&self, f: &mut fmt::Formatter<W>) -> fmt::Result {
        let (thousandths, unit) = match self.0 {
            0..=999 => return write!(f, "{} us", self.0),
            1_000..=999_999 => (self.0, "ms"),
            time => (time / 1_000, "s"),
        };
        let (whole, rest) = (thousandths / 1_000, thousandths % 1_000);
        write!(f, "{whole}")?;
        match (rest / 100, rest / 10 % 10, rest % 10) {
            (0, 0, 0) => {}
            (a, 0, 0) => write!(f, ".{a}")?,
            (a, b, 0) => write!(f, ".{a}{b}")?,
            (a, b, c) => write!(f, ".{a}{b}{c}")?,
        }
        write!(f, " {unit}")
    }
}
