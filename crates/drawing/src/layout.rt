//! The measures of a picture, in pixels; y grows downward.
//!
//! From the left, a picture has the numbers of the lines, their times, the labels of host 0, the hosts, and the labels
//! of host 1. The hosts are drawn in coordinates of their own, since the columns to their left are placed last.

use case_forms::Host;

/// The space around the picture, and between its columns.
pub(crate) const MARGIN: u64 = 10;

/// The height of a row.
pub(crate) const ROW: u64 = 20;

/// The base lines of the hosts' names, of the key, and of the threads' numbers.
pub(crate) const NAMES: u64 = 20;

pub(crate) const KEY: u64 = 42;

pub(crate) const THREADS: u64 = 64;

/// The middle of the first row.
pub(crate) const TOP: u64 = 86;

/// By how much the base line of a text is below the middle of its row.
pub(crate) const BASE: u64 = 4;

/// The width of a letter of a label, and of one in the columns of numbers and times.
pub(crate) const LETTER: u64 = 7;

pub(crate) const DIGIT: u64 = 6;

/// Where host 0 is drawn, in the coordinates of the hosts: the bars of its calls need as much room to its left.
pub(crate) const ZERO: u64 = 200;

/// From a host to the middle of the bar beside it, and from there to the next bar, without the thread's digits.
pub(crate) const BAR: u64 = 12;

/// The greatest distance between two bars.
pub(crate) const MOST_PITCH: u64 = 26;

/// How many threads of a host have bars of their own. There is room for these, and for one that the others share.
pub(crate) const MOST_BARS: u64 = 6;

/// From host 0 to host 1, and in a half case to the peer, which is not recorded.
pub(crate) const SPAN: u64 = 420;

pub(crate) const HALF_SPAN: u64 = 260;

/// The room that the peer's name needs on either side of its line.
pub(crate) const PEER: u64 = 66;

/// The lengths of arrows whose other ends aren't drawn: of a segment that is sent, and of one that arrives. They
/// differ, so that such arrows in neighboring rows don't seem to be connected.
pub(crate) const SENT: u64 = 90;

pub(crate) const ARRIVING: u64 = 50;

/// The length of an arrow in the key, and the space between two entries.
pub(crate) const SAMPLE: u64 = 24;

pub(crate) const ENTRY: u64 = 18;

/// The hosts, from left to right.
#[derive(Clone, Copy)]
pub(crate) struct Hosts {
    pub is_half: bool,
    /// From the middle of a bar to that of the next one.
    pub pitch: u64,
}

impl Hosts {
    /// From host 0 to the other host, or to the peer.
    pub(crate) fn span(self) -> u64 {
        if self.is_half { HALF_SPAN } else { SPAN }
    }

    /// So many pixels from a host, toward the other one.
    pub(crate) fn inside(self, host: Host, pixels: u64) -> u64 {
        match host {
            Host::Zero => ZERO.saturating_add(pixels),
            Host::One => ZERO.saturating_add(self.span()).saturating_sub(pixels),
        }
    }

    /// So many pixels from a host, away from the other one.
    fn outside(self, host: Host, pixels: u64) -> u64 {
        match host {
            Host::Zero => ZERO.saturating_sub(pixels),
            Host::One => ZERO.saturating_add(self.span()).saturating_add(pixels),
        }
    }

    /// The middle of a bar.
    pub(crate) fn bar(self, host: Host, place: u64) -> u64 {
        self.outside(host, place.saturating_mul(self.pitch).saturating_add(BAR))
    }

    /// How much room the bars of a host need beside it.
    pub(crate) fn room(self, bars: u64) -> u64 {
        bars.saturating_mul(self.pitch).saturating_add(BAR)
    }
}
