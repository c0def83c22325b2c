//! The timers of an endpoint, and the values chosen when one expires or fast recovery begins.

/// The timers of an endpoint that can expire.
#[derive(Clone, Copy)]
pub enum Timer {
    /// `rto`: sent data was not acknowledged in time (RFC 6298, 5).
    Rto,
    /// `persist`: it is time to probe a zero window (RFC 9293, 3.8.6.1).
    Persist,
    /// `2msl`: the wait in TIME-WAIT is over (RFC 9293, 3.3.2).
    Msl2,
    /// `giveup`: the endpoint retransmitted often enough, or waited long enough, to give up (RFC 9293, 3.8.3).
    Giveup,
    /// `pto`: it is time to probe for a loss at the end of a flight (RFC 8985, 7.2); from version 6 on.
    Pto,
}

/// A timer that expires, of the endpoint at these ports.
#[derive(Clone, Copy)]
pub struct Expiry {
    pub lport: u16,
    pub rport: u16,
    pub timer: Timer,
}

/// The values chosen when a retransmission timer expires, both in bytes (RFC 5681, 3.1).
#[derive(Clone, Copy)]
pub struct RtoChoice {
    pub cwnd: u32,
    pub ssthresh: u32,
}

/// What becomes of a recovery.
#[derive(Clone, Copy)]
pub enum RecoveryChange {
    /// Fast recovery begins (RFC 5681, 3.2).
    Begins,
    /// It was spurious, and is undone (RFC 4015, 3.2); from version 6 on.
    IsUndone,
}

/// A recovery of the endpoint at these ports begins or is undone, with the chosen congestion window and slow start
/// threshold, both in bytes.
#[derive(Clone, Copy)]
pub struct Recovery {
    pub change: RecoveryChange,
    pub lport: u16,
    pub rport: u16,
    pub cwnd: u32,
    pub ssthresh: u32,
}
