//! Calls that had no effect yet.

use crate::key::{EndpointKey, number_of};
use case_forms::{Answer, Call, Host, OutOfMemory};
use endpoint_state::World;
use spec_tcp::SocketTarget;
use std::alloc::Global;
use std::collections::{BTreeMap, VecDeque};

/// What a call means: a host, whether it's an endpoint or a listener, and its place there.
pub(crate) type Meant = (u8, bool, u32);

/// The endpoint of a host at a place.
pub(crate) fn endpoint_at(host: Host, place: u32) -> Meant {
    (number_of(host), true, place)
}

/// The listener of a host at a place.
pub(crate) fn listener_at(host: Host, place: u32) -> Meant {
    (number_of(host), false, place)
}

/// A call that began.
#[derive(Clone, Copy)]
pub(crate) struct Pending {
    pub thread: u32,
    /// The place of its beginning among the event lines.
    pub begin: usize,
    /// The place of its end. None: it is open at the end of the trace.
    pub end: Option<usize>,
}

/// For each listener and endpoint, calls that wait there. Some of them may have had their effect.
#[derive(Drop)]
pub(crate) struct Waiting(BTreeMap<Meant, VecDeque<Pending>>);

impl Waiting {
    // Adds a call after all others.
    fn put(&mut self, meant: Meant, pending: Pending) -> Result<(), OutOfMemory> {
        self.0.entry(meant)?.or_default().push_back(pending)?;
        Ok(())
    }

    /// The call that so many others precede.
    pub(crate) fn get(&self, meant: Meant, before: usize) -> Option<Pending> {
        self.0.get(&meant)?.get(before).copied()
    }

    /// Removes the call that so many others precede.
    pub(crate) fn remove(&mut self, meant: Meant, before: usize) -> Option<Pending> {
        self.0.get_mut(&meant)?.remove(before)
    }
}

/// The calls that had no effect yet.
#[derive(Drop)]
pub(crate) struct Calls {
    /// For each thread, the place at which such a call began.
    pub open: BTreeMap<u32, usize>,
    /// The calls whose end is known, in the order of their beginnings.
    pub ended: Waiting,
    /// The calls that are open at the end of the trace.
    pub unended: Waiting,
    /// For an endpoint whose ports are in use, the call that would open it.
    pub opens: BTreeMap<EndpointKey, Pending>,
}

impl Calls {
    pub(crate) fn new(alloc: Global) -> Calls {
        Calls {
            open: BTreeMap::new(alloc),
            ended: Waiting(BTreeMap::new(alloc)),
            unended: Waiting(BTreeMap::new(alloc)),
            opens: BTreeMap::new(alloc),
        }
    }

    /// Whether a thread's call that began at a place had no effect yet.
    pub(crate) fn is_open(&self, thread: u32, begin: usize) -> bool {
        self.open.get(&thread).copied() == Some(begin)
    }

    /// A call waits at a listener or an endpoint.
    pub(crate) fn put(&mut self, meant: Meant, pending: Pending) -> Result<(), OutOfMemory> {
        match pending.end {
            Some(_) => self.ended.put(meant, pending),
            None => self.unended.put(meant, pending),
        }
    }
}

// The socket number that a call names.
fn socket_of(call: &Call) -> Option<u32> {
    match call {
        Call::Listen(..) | Call::Connect(..) => None,
        Call::Await(socket)
        | Call::Accept(socket)
        | Call::Send(socket, _)
        | Call::Recv(socket, _)
        | Call::Shut(socket)
        | Call::Close(socket)
        | Call::Abort(socket)
        | Call::Status(socket) => Some(*socket),
    }
}

// The host that has the socket of a call, and what it is there.
fn target_of(world: &World, call: &Call) -> Option<(Host, SocketTarget)> {
    let socket = socket_of(call)?;
    match world.body(Host::Zero).target(socket) {
        Some(target) => Some((Host::Zero, target)),
        None => Some((Host::One, world.body(Host::One).target(socket)?)),
    }
}

/// What a call means. None: it opens something, or its socket number is not live.
pub(crate) fn meant_by(world: &World, call: &Call) -> Option<Meant> {
    match target_of(world, call)? {
        (host, SocketTarget::ListenerAt(place)) => Some(listener_at(host, place)),
        (host, SocketTarget::EndpointAt(place)) => Some(endpoint_at(host, place)),
    }
}

/// The ports of a host's endpoint at a place. None: there is no such place.
pub(crate) fn key_at(world: &World, host: Host, place: u32) -> Option<EndpointKey> {
    let endpoint = world.body(host).endpoint_at(place)?;
    Some(EndpointKey::new(host, endpoint.lport, endpoint.rport))
}

/// The endpoint that a thread's open call means. None: it means none.
pub(crate) fn key_of_call(world: &World, thread: u32) -> Option<EndpointKey> {
    match world.pending_call(thread)? {
        Call::Connect(host, lport, rport) => Some(EndpointKey::new(*host, *lport, *rport)),
        call => key_of_socket(world, call),
    }
}

// The endpoint whose socket a call names. None: it names no socket, or that of a listener.
fn key_of_socket(world: &World, call: &Call) -> Option<EndpointKey> {
    match target_of(world, call)? {
        (host, SocketTarget::EndpointAt(place)) => key_at(world, host, place),
        (_, SocketTarget::ListenerAt(_)) => None,
    }
}

/// The answer that a call is supposed to have had that is open at the end of the trace. None: it is supposed to have
/// had no effect.
pub(crate) fn supposed_answer(call: &Call) -> Option<Answer> {
    match call {
        Call::Send(_, bytes) => Some(Answer::Given(u32::try_from(bytes.len()).ok()?)),
        Call::Shut(_) | Call::Close(_) | Call::Abort(_) => Some(Answer::Done),
        Call::Listen(..)
        | Call::Connect(..)
        | Call::Await(_)
        | Call::Accept(_)
        | Call::Recv(..)
        | Call::Status(_) => None,
    }
}
