//! The state of an endpoint's congestion control (RFC 5681).

ghost use Rattle.std.specs.Prelude.{◌≡◌};
ghost use Rattle.window_rules.specs.Windows.{start};

/// The congestion window of an endpoint and the values that it depends on. All but `dup` and `fast` are bytes.
#[derive(Clone, Copy)]
pub struct Congestion {
    /// The congestion window.
    pub cwnd: u32,
    /// The slow start threshold.
    pub ssthresh: u32,
    /// The greatest payload of a segment that is sent (SMSS).
    pub smss: u32,
    /// What was acknowledged in congestion avoidance and has not yet made cwnd grow, below 2^63.
    pub counted: u64,
    /// How many duplicate acknowledgments arrived since the last new one.
    pub dup: u32,
    /// Whether the endpoint is in fast recovery.
    pub fast: bool,
}

impl Congestion {
    /// Before anything is sent: cwnd 0, the greatest ssthresh, segments of 536 bytes (RFC 5681, 3.1; RFC 9293, 3.7.1).
    pub fn start() -> Congestion
        ensures { result ≡ start }
    {
        Congestion {
            cwnd: 0,
            ssthresh: u32::MAX,
            smss: 536,
            counted: 0,
            dup: 0,
            fast: false,
        }
    }
}
