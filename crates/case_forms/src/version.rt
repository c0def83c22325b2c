//! The versions of a trace and its witness.

ghost use Rattle.std.specs.Prelude.{◌≡◌};
ghost use Rattle.case_forms.specs.Versions.{first_line_of, is_half, says_sender, says_slack, scales};

/// The version of a text. A trace and its witness have the same version.
#[derive(Clone, Copy, PartialEq, Eq)]
pub enum Version {
    /// Windows count bytes as written, without scaling.
    One,
    /// Windows may be scaled (RFC 7323, 2), and the trace names the RFC that gives the first congestion window.
    Two,
    /// The same for a half case: only host 0 is recorded.
    Three,
    /// Like version 2, and the trace states how much of congestion control is judged.
    Four,
    /// Like version 3, and the trace states how much of congestion control is judged. Its texts have version 4.
    FourHalf,
    /// Like version 4, and the trace states how late a host may be with what it must do.
    Five,
    /// The same for a half case. Its texts have version 5.
    FiveHalf,
    /// Like version 5, with stronger duties, and the trace names the sender's congestion control.
    Six,
    /// The same for a half case. Its texts have version 6.
    SixHalf,
}

impl Version {
    /// The number of the first event line of a trace, which follows the lines of the header.
    pub fn first_event_line(self) -> u64
        ensures { result ≡ first_line_of self }
    {
        match self {
            Version::One => 7,
            Version::Two => 8,
            Version::Three => 9,
            Version::Four | Version::FourHalf => 10,
            Version::Five | Version::FiveHalf => 11,
            Version::Six | Version::SixHalf => 13,
        }
    }

    /// Whether windows may be scaled.
    pub fn scales(self) -> bool
        ensures { result ≡ scales self }
    {
        match self {
            Version::One => false,
            Version::Two
            | Version::Three
            | Version::Four
            | Version::FourHalf
            | Version::Five
            | Version::FiveHalf
            | Version::Six
            | Version::SixHalf => true,
        }
    }

    /// Whether only host 0 is recorded.
    pub fn is_half(self) -> bool
        ensures { result ≡ is_half self }
    {
        match self {
            Version::One | Version::Two | Version::Four | Version::Five | Version::Six => false,
            Version::Three | Version::FourHalf | Version::FiveHalf | Version::SixHalf => true,
        }
    }

    /// Whether the header states how late a host may be.
    pub fn says_slack(self) -> bool
        ensures { result ≡ says_slack self }
    {
        match self {
            Version::One | Version::Two | Version::Three | Version::Four | Version::FourHalf => {
                false
            }
            Version::Five | Version::FiveHalf | Version::Six | Version::SixHalf => true,
        }
    }

    /// Whether the header names the sender's congestion control, and duties are the stronger ones of version 6.
    pub fn says_sender(self) -> bool
        ensures { result ≡ says_sender self }
    {
        match self {
            Version::One
            | Version::Two
            | Version::Three
            | Version::Four
            | Version::FourHalf
            | Version::Five
            | Version::FiveHalf => false,
            Version::Six | Version::SixHalf => true,
        }
    }
}

/// Which RFC gives the first congestion window.
#[derive(Clone, Copy)]
pub enum Initial {
    /// Two to four segments, one if a SYN was lost (RFC 5681, 3.1).
    Rfc5681,
    /// Ten segments (RFC 6928, 2).
    Rfc6928,
}

/// How much of congestion control is judged.
#[derive(Clone, Copy)]
pub enum Judged {
    /// The congestion window, the slow start threshold, and when outstanding data may be retransmitted (RFC 5681, 3.1
    /// and 3.2; RFC 6298, 5).
    Full,
    /// When outstanding data may be retransmitted: after a timeout or three duplicate acknowledgments (RFC 5681, 3.2;
    /// RFC 6298, 5).
    Recovery,
    /// No part of congestion control.
    NoControl,
}

/// Which RFC describes the sender's congestion control.
#[derive(Clone, Copy)]
pub enum Sender {
    /// Reno or NewReno (RFC 5681, RFC 6582).
    Reno,
    /// CUBIC (RFC 9438).
    Cubic,
}

/// What a sender may add to its congestion window in slow start, at an acknowledgment of new data. SMSS is the size of
/// a full segment.
#[derive(Clone, Copy)]
pub enum Growth {
    /// SMSS (RFC 5681, 3.1).
    OneSegment,
    /// SMSS, or what is acknowledged, up to 2 SMSS (RFC 3465, 2.3).
    TwoSegments,
    /// SMSS, or what is acknowledged (RFC 9406, 4.2).
    Any,
}
