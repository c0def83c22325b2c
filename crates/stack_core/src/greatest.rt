//! The greatest congestion values that steps allow, in bytes (RFC 5681; RFC 6928). A core uses them if the model
//! permits it.

use case_forms::{Header, RtoChoice};
use endpoint::{greatest_at_recovery, greatest_taking, greatest_values};
use endpoint_state::Endpoint;
use spec_tcp::{Arrived, Emission};

/// The greatest congestion window once an endpoint took a segment, or 0 if the endpoint is past the greatest position.
pub(crate) fn cwnd_at_arrival(
    header: &Header,
    endpoint: &Endpoint,
    m: &Emission,
    moment: u64,
) -> u32 {
    match Arrived::checked_read(header.version, endpoint, m) {
        Some(m) => narrowed(greatest_taking(endpoint, &m, moment)),
        None => 0,
    }
}

/// The greatest congestion window and slow start threshold once fast recovery began (RFC 5681, 3.2).
pub(crate) fn at_recovery(endpoint: &Endpoint, moment: u64) -> RtoChoice {
    growth_to(greatest_at_recovery(endpoint, moment))
}

/// The same once the retransmission timer expired (RFC 5681, 3.1).
pub(crate) fn at_timeout(endpoint: &Endpoint, moment: u64) -> RtoChoice {
    growth_to(greatest_values(endpoint, moment))
}

fn growth_to(greatest: (u64, u64)) -> RtoChoice {
    RtoChoice {
        cwnd: narrowed(greatest.0),
        ssthresh: narrowed(greatest.1),
    }
}

fn narrowed(value: u64) -> u32 {
    value.min(u64::from(u32::MAX)) as u32
}
