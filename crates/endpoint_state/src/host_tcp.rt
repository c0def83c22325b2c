//! One host's TCP state: its endpoints, listeners and sockets, and how they are found.
//!
//! Its folder has a file for each event, with its rules and its effect:
//!
//! - `calls`: socket calls
//! - `makes`: a segment is made
//! - `arrives`: a segment arrives, and the rules of a reset that answers one
//! - `timeouts`: a timer expires
//! - `recovery`: fast recovery begins

ghost use Rattle.std.specs.Prelude.{◌≡◌, length, slice_get, None, Some, IfErr, IfOk, OnErr};
ghost use Rattle.std.specs.Option.{option_copied};
ghost use Rattle.verdict.specs.declared.rule.Rule.TheVariants.{NoEndpoint};
ghost use Rattle.spec_tcp.specs.HostTcp.{empty, endpoint_of, given, is_connected, if_live, is_listening, listener_on};
ghost use Rattle.spec_tcp.specs.HostTcp.{place_of, socket_target};

mod arrives;
mod calls;
mod makes;
mod recovery;
mod timeouts;

use crate::endpoints::Endpoints;
use crate::listeners::Listeners;
use spec_tcp::{Endpoint, Listener, Socket, SocketTarget};
use std::alloc::Global;
use std::marker::Model;
use tables::Table;
use verdict::Rule;

/// One host's TCP state. Contracts see it as the record `HostTcp` of the definitions.
#[derive(Drop)]
pub struct HostTcp {
    pub(crate) endpoints: Endpoints,
    pub(crate) listeners: Listeners,
    /// What each given socket number names. No entry is ever removed.
    pub(crate) sockets: Table<Socket>,
}

impl Model for HostTcp {
    ghost use Rattle.spec_tcp.specs.HostTcp.{HostTcp};

    ghost Value = { HostTcp };

    ghost view = { λ a. record { endpoints = a.endpoints; listeners = a.listeners; sockets = a.sockets.entries } };
}

impl HostTcp {
    /// A host at its start, without endpoints, listeners or sockets.
    pub fn new(alloc: Global) -> HostTcp
        ensures { result ≡ empty }
    {
        HostTcp {
            endpoints: Endpoints::new(alloc),
            listeners: Listeners::new(alloc),
            sockets: Table::new(alloc),
        }
    }

    /// Whether the socket number was given at this host.
    pub fn is_given(&self, number: u32) -> bool
        ensures { result ≡ given self.now number }
    {
        self.sockets.contains(u64::from(number))
    }

    /// How many socket numbers were given at this host.
    pub fn socket_count(&self) -> usize
        ensures { result ≡ length self.now.sockets }
    {
        self.sockets.len()
    }

    /// How many endpoints this host had so far.
    pub fn endpoint_count(&self) -> usize
        ensures { result ≡ length self.now.endpoints }
    {
        self.endpoints.len()
    }

    /// What a socket number names. None: it is not live.
    pub fn target(&self, number: u32) -> Option<SocketTarget>
        ensures { result ≡ socket_target self.now number }
    {
        match self.sockets.get(u64::from(number)) {
            Some(socket) => if_live(*socket),
            None => None,
        }
    }

    /// The place of the endpoint created last with these ports, its own and the peer's. None: there was none.
    pub fn place_of(&self, lport: u16, rport: u16) -> Option<u32>
        ensures { result ≡ place_of self.now lport rport }
    {
        self.endpoints.place_of(lport, rport)
    }

    /// The endpoint at a place. None: there is no such place.
    pub fn endpoint_at(&self, place: u32) -> Option<&Endpoint>
        ensures { option_copied result ≡ slice_get self.now.endpoints place }
    {
        self.endpoints.get(place)
    }

    /// The listener at a place. None: there is no such place.
    pub fn listener_at(&self, place: u32) -> Option<&Listener>
        ensures { option_copied result ≡ slice_get self.now.listeners place }
    {
        self.listeners.get(place)
    }

    /// The endpoint created last with these ports, closed or not. None: there was none.
    pub fn endpoint_of(&self, lport: u16, rport: u16) -> Option<&Endpoint>
        ensures { option_copied result ≡ endpoint_of self.now lport rport }
    {
        match self.place_of(lport, rport) {
            Some(place) => self.endpoint_at(place),
            None => None,
        }
    }

    // The place of the endpoint created last with these ports, and the endpoint. The error is the rule `NoEndpoint`:
    // there was none.
    fn endpoint_on(&self, lport: u16, rport: u16) -> Result<(u32, &Endpoint), Rule>
        ensures place { IfOk result (λ found. place_of self.now lport rport ≡ Some found.0) }
        ensures there { IfOk result (λ found. slice_get self.now.endpoints found.0 ≡ Some found.1.now) }
        ensures rule { IfErr result (λ rule. rule ≡ NoEndpoint) }
        ensures none { OnErr result (endpoint_of self.now lport rport ≡ None) }
    {
        let Some(place) = self.place_of(lport, rport) else {
            return Err(Rule::NoEndpoint);
        };
        let Some(endpoint) = self.endpoint_at(place) else {
            return Err(Rule::NoEndpoint);
        };
        Ok((place, endpoint))
    }

    /// Whether there is an endpoint of these ports that is not CLOSED.
    pub fn is_connected(&self, lport: u16, rport: u16) -> bool
        ensures { result ≡ is_connected self.now lport rport }
    {
        match self.endpoint_of(lport, rport) {
            Some(endpoint) => !endpoint.state.is_closed(),
            None => false,
        }
    }

    /// The place of the open listener on a port. None: no listener is open there.
    pub fn listener_on(&self, port: u16) -> Option<u32>
        ensures { result ≡ listener_on self.now port }
    {
        self.listeners.listener_on(port)
    }

    /// Whether a listener is open on a port.
    pub fn is_listening(&self, port: u16) -> bool
        ensures { result ≡ is_listening self.now port }
    {
        self.listener_on(port).is_some()
    }
}

fn if_live(socket: Socket) -> Option<SocketTarget>
    ensures { result ≡ if_live socket }
{
    if socket.live {
        Some(socket.target)
    } else {
        None
    }
}
