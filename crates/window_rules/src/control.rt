//! Congestion control at its boundary: what happened to an endpoint (`Signal`), the greatest window and threshold that
//! its profile then allows, and the values after one was chosen.

ghost use Rattle.std.specs.Prelude.{◌≡◌, ◌≤◌, ◌<◌, ◌+◌, ◌^◌};
ghost use Rattle.std.specs.Prelude.{if◌then◌else◌};
ghost use Rattle.window_rules.specs.Control.{after, began, bounds_windows, control_edge, counts_duplicates};
ghost use Rattle.window_rules.specs.Control.{first_window, greatest, greatest_bounded, may_recover, slow_start_of};
ghost use Rattle.window_rules.specs.Counts.{HasCounts, IsFit};

use crate::congestion::Congestion;
use crate::growth::{SlowStart, counted_after, may_grow, on_duplicate};
use crate::losses::{on_fast, on_timeout, recovery_window};
use crate::windows::{GREATEST_WINDOW, congestion_edge, initial_window, initial_window_6928};

/// The rules that an endpoint's congestion control follows.
#[derive(Clone, Copy)]
pub enum Profile {
    /// RFC 5681.
    Rfc5681 {
        /// How much slow start adds.
        slow: SlowStart,
    },
    /// The same, with the first window of RFC 6928.
    Rfc6928 {
        /// How much slow start adds.
        slow: SlowStart,
    },
    /// No window and no threshold is bounded. Fast recovery begins as in RFC 5681, 3.2.
    Unbounded,
    /// No window and no threshold is bounded, and fast recovery may begin at any time.
    NoControl,
}

impl Profile {
    /// Whether congestion windows and slow start thresholds are bounded.
    pub fn bounds_windows(self) -> bool
        ensures { result ≡ bounds_windows self }
    {
        match self {
            Profile::Rfc5681 { .. } | Profile::Rfc6928 { .. } => true,
            Profile::Unbounded | Profile::NoControl => false,
        }
    }

    /// Whether fast recovery needs duplicate acknowledgments (RFC 5681, 3.2, step 2).
    pub fn counts_duplicates(self) -> bool
        ensures { result ≡ counts_duplicates self }
    {
        match self {
            Profile::Rfc5681 { .. } | Profile::Rfc6928 { .. } | Profile::Unbounded => true,
            Profile::NoControl => false,
        }
    }

    /// How much slow start adds: what is permitted, if no window is bounded.
    pub fn slow_start(self) -> SlowStart
        ensures { result ≡ slow_start_of self }
    {
        match self {
            Profile::Rfc5681 { slow } | Profile::Rfc6928 { slow } => slow,
            Profile::Unbounded | Profile::NoControl => SlowStart::Permitted,
        }
    }
}

/// What happened to an endpoint. All counts and sizes are bytes.
#[derive(Clone, Copy)]
pub enum Signal {
    /// The peer's SYN was received, and it doesn't acknowledge the endpoint's own.
    Syn {
        /// The greatest payload of a segment, from the options of the SYN.
        smss: u32,
    },
    /// The own SYN is acknowledged.
    SynAcked {
        /// The greatest payload of a segment.
        smss: u32,
        /// Whether the SYN was sent more than once.
        syn_lost: bool,
    },
    /// Positions are newly acknowledged after the SYN was.
    NewAck {
        /// How many.
        acked: u64,
    },
    /// A duplicate acknowledgment was processed (RFC 5681, 2).
    Duplicate,
    /// Any other segment was processed.
    Other,
    /// The retransmission timer expired.
    Timeout {
        /// How much is outstanding: sent and not acknowledged.
        flight: u64,
        /// Whether the SYN is not acknowledged.
        syn_pending: bool,
        /// Whether it expired before, and nothing new was acknowledged since.
        again: bool,
    },
    /// Fast recovery begins.
    Recovery {
        /// How much is outstanding: sent and not acknowledged.
        flight: u64,
        /// The slow start threshold that is chosen.
        ssthresh: u32,
    },
}

/// When it happened.
#[derive(Clone, Copy)]
pub struct At {
    /// In microseconds.
    pub moment: u64,
    /// The smoothed round trip before, in microseconds, if one was measured.
    pub srtt: Option<u64>,
}

/// The congestion control of an endpoint.
#[derive(Clone, Copy)]
pub struct Control {
    /// The window and the values that it depends on.
    pub values: Congestion,
    /// The rules. No signal changes them.
    pub profile: Profile,
}

impl Control {
    /// Before anything is sent.
    pub fn start(profile: Profile) -> Control
        ensures { result ≡ began profile }
    {
        Control {
            values: Congestion::start(),
            profile,
        }
    }

    /// The greatest congestion window and the greatest slow start threshold, in bytes, that the signal allows at this
    /// moment (RFC 5681, 3.1 and 3.2; RFC 6928, 2).
    pub fn greatest(&self, signal: Signal, at: At) -> (u64, u64)
        ensures { result ≡ greatest self.now signal at }
    {
        if self.profile.bounds_windows() {
            self.greatest_bounded(signal, at)
        } else {
            (GREATEST_WINDOW, GREATEST_WINDOW)
        }
    }

    // The same if windows are bounded.
    fn greatest_bounded(&self, signal: Signal, at: At) -> (u64, u64)
        ensures { result ≡ greatest_bounded self.now signal at }
    {
        let same = self.values.ssthresh as u64;
        match signal {
            Signal::Syn { .. } => (self.values.cwnd as u64, same),
            Signal::SynAcked { smss, syn_lost } => (
                first_window(self.profile, smss, syn_lost),
                same,
            ),
            Signal::NewAck { acked } => (
                may_grow(self.profile.slow_start(), &self.values, acked),
                same,
            ),
            Signal::Duplicate => (on_duplicate(&self.values), same),
            Signal::Other => (self.values.cwnd as u64, same),
            Signal::Timeout {
                flight,
                syn_pending,
                again,
            } => { on_timeout(&self.values, flight, syn_pending, again) }
            Signal::Recovery { flight, ssthresh } => (
                recovery_window(&self.values, ssthresh),
                on_fast(&self.values, flight).1,
            ),
        }
    }

    /// Congestion control after the signal, with the window and, at a loss, the threshold that were chosen, in bytes.
    pub fn after(&self, signal: Signal, at: At, cwnd: u32, ssthresh: u32) -> Control
        requires counts { HasCounts self.now }
        requires fit { IsFit signal }
        ensures { result ≡ after self.now signal at cwnd ssthresh }
    {
        let mut then = *self;
        then.values.cwnd = cwnd;
        match signal {
            Signal::Syn { smss } => {
                then.values.smss = smss;
            }
            Signal::SynAcked { smss, .. } => {
                then.values.smss = smss;
                then.values.dup = 0;
                then.values.fast = false;
            }
            Signal::NewAck { acked } => {
                then.values.counted = counted_after(&self.values, acked);
                then.values.dup = 0;
                then.values.fast = false;
            }
            Signal::Duplicate => {
                then.values.dup = self.values.dup + 1;
            }
            Signal::Other => {}
            Signal::Timeout { .. } => {
                then.values.ssthresh = ssthresh;
                then.values.counted = 0;
                then.values.dup = 0;
                then.values.fast = false;
            }
            Signal::Recovery { .. } => {
                then.values.ssthresh = ssthresh;
                then.values.fast = true;
            }
        }
        then
    }

    /// The position at which new data ends at most, given the oldest unacknowledged position `una`, which is below 2^63
    /// (RFC 5681, 3.1 and 3.2). It is beyond every window that a peer can offer if no congestion window is bounded.
    pub fn send_edge(&self, una: u64) -> u64
        requires { una < 2 ^ 63 }
        ensures { result ≡ control_edge una self.now }
    {
        let edge = congestion_edge(una, &self.values);
        if self.profile.bounds_windows() {
            edge
        } else {
            edge + (1 << 40)
        }
    }

    /// Whether fast recovery may begin: from the third duplicate acknowledgment on, and not if it already began (RFC
    /// 5681, 3.2, step 2); at any time if the profile needs no duplicates.
    pub fn may_recover(&self) -> bool
        ensures { result ≡ may_recover self.now }
    {
        !self.profile.counts_duplicates() || (3 <= self.values.dup && !self.values.fast)
    }
}

// The greatest window in bytes once the SYN is acknowledged.
fn first_window(profile: Profile, smss: u32, syn_lost: bool) -> u64
    ensures { result ≡ first_window profile smss syn_lost }
{
    match profile {
        Profile::Rfc5681 { .. } => initial_window(smss, syn_lost),
        Profile::Rfc6928 { .. } => initial_window_6928(smss),
        Profile::Unbounded | Profile::NoControl => GREATEST_WINDOW,
    }
}
