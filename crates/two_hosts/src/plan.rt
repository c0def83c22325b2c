//! The plan of a recording, and what both hosts begin with.

ghost use Rattle.std.specs.Prelude.{◌≡◌};
ghost use Rattle.two_hosts.specs.Plans.{congestion_of, header_of};

use case_forms::{Growth, Header, Initial, Judged, Sender, Version};
use recorder::CoreConfig;

/// Host 0's first initial send sequence number, two short of the end of the number space (RFC 9293, 3.4.1).
pub(crate) const CLIENT_ISS: u32 = 4_294_967_294;

/// Host 1's first initial send sequence number.
pub(crate) const SERVER_ISS: u32 = 100;

/// The port on which host 1 listens.
pub(crate) const SERVER_PORT: u16 = 80;

/// The port from which host 0 opens.
pub(crate) const CLIENT_PORT: u16 = 4_000;

/// The application thread of host 0.
pub(crate) const CLIENT_THREAD: u32 = 2;

/// The application thread of host 1.
pub(crate) const SERVER_THREAD: u32 = 3;

/// How many bytes are sent in a round.
pub(crate) const ROUND_BYTES: usize = 64;

/// The plan of a recording.
#[derive(Clone, Copy)]
pub struct Plan {
    /// How many rounds there are.
    pub rounds: u16,
    /// One in this many segments of each host is lost; none if it is 0.
    pub lose: u32,
    /// The version of the texts.
    pub version: Version,
}

// How much of congestion control is judged: all, where a text can say so.
fn congestion_of(version: Version) -> Judged
    ensures { result ≡ congestion_of version }
{
    if version.says_sender() {
        Judged::NoControl
    } else {
        Judged::Full
    }
}

/// The header of a recording. Version 2 has the initial window of RFC 6928.
pub(crate) fn header_of(version: Version) -> Header
    ensures { result ≡ header_of version }
{
    Header {
        version,
        skew: 0,
        msl: 3_600_000_000,
        grain: 1_000,
        minrto: 200_000,
        extra: 1,
        initial: match version {
            Version::One => Initial::Rfc5681,
            Version::Two
            | Version::Three
            | Version::Four
            | Version::FourHalf
            | Version::Five
            | Version::FiveHalf
            | Version::Six
            | Version::SixHalf => Initial::Rfc6928,
        },
        congestion: congestion_of(version),
        slack: None,
        sender: Sender::Reno,
        growth: Growth::OneSegment,
    }
}

/// How the core of a host chooses. A header of version 1 has no scaled windows, so there the shift means nothing.
pub(crate) fn config_of(first_iss: u32) -> CoreConfig {
    CoreConfig {
        mss: 536,
        ring: 4_096,
        first_iss,
        shift: Some(2),
    }
}
