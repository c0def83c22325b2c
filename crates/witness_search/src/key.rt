//! Endpoints, by their host and ports.

use case_forms::{Event, Host, Line, Ports, Wire};
use spec_tcp::Emission;

/// An endpoint of a host.
#[derive(Clone, Copy, PartialEq, Eq, PartialOrd, Ord)]
pub(crate) struct EndpointKey {
    host: u8,
    pub lport: u16,
    pub rport: u16,
}

/// The number of a host.
pub(crate) fn number_of(host: Host) -> u8 {
    u8::from(host == Host::One)
}

impl EndpointKey {
    /// The endpoint of a host with these ports.
    pub(crate) fn new(host: Host, lport: u16, rport: u16) -> EndpointKey {
        EndpointKey {
            host: number_of(host),
            lport,
            rport,
        }
    }

    /// The endpoint of a host that sends a segment.
    pub(crate) fn sender(host: Host, wire: &Wire) -> EndpointKey {
        EndpointKey::new(host, wire.seg.src, wire.seg.dst)
    }

    /// The endpoint of a host for which a segment is meant.
    pub(crate) fn receiver(host: Host, m: &Emission) -> EndpointKey {
        EndpointKey::new(host, m.rport, m.lport)
    }

    /// The endpoint whose segment or timer a line shows. None: the line shows a call.
    pub(crate) fn of_line(line: &Line) -> Option<EndpointKey> {
        match &line.event {
            Event::Sent(host, wire) => Some(EndpointKey::sender(*host, wire)),
            Event::Came(host, wire) => Some(EndpointKey::new(*host, wire.seg.dst, wire.seg.src)),
            Event::Expired(host, lport, rport, _) => Some(EndpointKey::new(*host, *lport, *rport)),
            Event::CallBegin(_) | Event::CallEnd(_) => None,
        }
    }

    /// Whether a step can build its segments: the text of a step has no port 0.
    pub(crate) fn can_build(self) -> bool {
        self.lport != 0 && self.rport != 0
    }

    /// Its host.
    pub(crate) fn host(self) -> Host {
        if self.host == 0 {
            Host::Zero
        } else {
            Host::One
        }
    }

    /// Its ports.
    pub(crate) fn ports(self) -> Ports {
        Ports {
            lport: self.lport,
            rport: self.rport,
        }
    }

    /// The other host's endpoint of the same connection.
    pub(crate) fn peer(self) -> EndpointKey {
        EndpointKey::new(self.host().other(), self.rport, self.lport)
    }
}
