//! What is read of an endpoint beside the model.

use case_forms::State;
use timer_rules::Timers;

/// What duties, and what is kept of data in flight, read of an endpoint. Positions and windows are those of
/// RFC 9293, 3.3.1.
#[derive(Clone, Copy)]
pub struct View {
    pub state: State,
    /// Whether `close` closed its socket.
    pub closed: bool,
    /// Whether a reset is due, and the endpoint has an initial number, so that it can build one.
    pub resets: bool,
    /// The place of the listener that created it, until it is accepted.
    pub listener: Option<u32>,
    /// The oldest unacknowledged position (SND.UNA).
    pub snd_una: u64,
    /// The position after all that was sent (SND.MAX).
    pub snd_max: u64,
    /// The offered window in bytes (SND.WND).
    pub snd_wnd: u32,
    /// The position after the last byte that `send` accepted (END).
    pub end: u64,
    /// Whether sending was ended.
    pub ended: bool,
    /// The next position expected from the peer (RCV.NXT).
    pub rcv_nxt: u64,
    /// The greatest position that its own windows reached (RCV.NXT + RCV.WND).
    pub rcv_adv: u64,
    /// The position at which bytes end at most, by the congestion window (RFC 5681, 3.1).
    pub congestion_edge: u128,
    /// The maximum segment size for sending, in bytes (SMSS).
    pub smss: u32,
    /// How many duplicate acknowledgments came since the last new one.
    pub dup: u32,
    /// Whether it is in fast recovery (RFC 5681, 3.2).
    pub fast: bool,
    pub timers: Timers,
    /// How often the timeout was doubled since the last acknowledgment of new data (RFC 6298, 5.5).
    pub backoffs: u32,
}
