//! A trace in version 5: another header, and the same event lines. A trace of version 6 stays one.

use bstr::ByteSlice;
use case_forms::{Header, Judged, Lines, OutOfMemory, Trace, Version};
use line_fields::TextFault;
use std::alloc::Global;
use trace_reader::{Counted, TraceReader, print_trace};

/// The header of a trace.
pub(crate) fn header_of(alloc: Global, text: &[u8]) -> Result<Header, TextFault> {
    let mut reader = TraceReader::new(alloc, Counted::new(text));
    Ok(reader.header()?)
}

/// The text of a header.
pub(crate) fn header_text(alloc: Global, header: &Header) -> Result<Vec<u8>, OutOfMemory> {
    let (header, lines) = (*header, Lines::new(alloc));
    print_trace(alloc, &Trace { header, lines })
}

/// How late a host may be with its duties.
#[derive(Clone, Copy)]
pub enum Slack {
    /// As the trace says if it has version 5 or 6, else a second.
    Usual,
    /// So many microseconds, at most `GREATEST_SLACK`.
    Given(u64),
    /// Duties aren't judged.
    Any,
}

/// The greatest slack that a header can have, in microseconds.
pub const GREATEST_SLACK: u64 = 1_000_000_000_000_000_000;

const SECOND: u64 = 1_000_000;

impl Slack {
    /// The slack for a trace with this header, in microseconds. None: duties aren't judged.
    pub(crate) fn under(self, header: &Header) -> Option<u64> {
        match self {
            Slack::Usual if header.version.says_slack() => header.slack,
            Slack::Usual => Some(SECOND),
            Slack::Given(slack) => Some(slack),
            Slack::Any => None,
        }
    }
}

/// The strictest level at which a trace with this header can be judged: version 6 doesn't judge the congestion window.
pub(crate) fn strictest_level(header: &Header) -> Judged {
    if header.version.says_sender() {
        Judged::Recovery
    } else {
        Judged::Full
    }
}

/// The header in version 5, or 6 if the trace has that, at this level and with this slack. What an older version
/// doesn't say is read as it is judged: RFC 5681 gives the first window.
pub(crate) fn header_at(header: &Header, level: Judged, slack: Option<u64>) -> Header {
    let version = match header.version {
        Version::One | Version::Two | Version::Four | Version::Five => Version::Five,
        Version::Three | Version::FourHalf | Version::FiveHalf => Version::FiveHalf,
        Version::Six | Version::SixHalf => header.version,
    };
    Header {
        version,
        congestion: level,
        slack,
        ..*header
    }
}

/// The text from the line of this number on.
pub(crate) fn events_of(text: &[u8], first: u64) -> &[u8] {
    let above = usize::try_from(first.saturating_sub(1)).unwrap_or(usize::MAX);
    let mut at: usize = 0;
    for raw in text.lines_with_terminator().take(above) {
        at = at.saturating_add(raw.len());
    }
    text.get(at..).unwrap_or(&[])
}
