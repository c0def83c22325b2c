//! The hosts of calls, and the bars of their threads.

ghost use Rattle.std.specs.Prelude.{◌<◌};

use crate::layout::MOST_BARS;
use case_forms::{Answer, Call, Host, Line, OutOfMemory};
use std::alloc::Global;
use std::collections::BTreeMap;

/// A call that is open.
#[derive(Clone, Copy)]
pub(crate) struct Open {
    pub host: Host,
    /// The number of the line that began it.
    pub line: u64,
    /// Whether it returns a socket number.
    pub opens: bool,
}

/// The threads of a host, in the order in which they are drawn. The first ones have bars of their own; all others
/// share one.
#[derive(Drop)]
pub(crate) struct Threads {
    pub drawn: Vec<u32>,
    places: BTreeMap<u32, u64>,
}

impl Threads {
    fn new(alloc: Global) -> Threads {
        Threads {
            drawn: Vec::new(alloc),
            places: BTreeMap::new(alloc),
        }
    }

    /// The place of a thread's bar.
    pub(crate) fn place(&mut self, thread: u32) -> Result<u64, OutOfMemory> {
        if let Some(place) = self.places.get(&thread) {
            return Ok(*place);
        }
        let place = (self.drawn.len() as u64).min(MOST_BARS);
        self.places.insert(thread, place)?;
        self.drawn.push(thread)?;
        Ok(place)
    }

    /// How many bars there are beside each other.
    pub(crate) fn bars(&self) -> u64 {
        (self.drawn.len() as u64).min(MOST_BARS.saturating_add(1))
    }
}

/// What is known of threads and socket numbers.
#[derive(Drop)]
pub(crate) struct Callers {
    sockets: BTreeMap<u32, Host>,
    pub open: BTreeMap<u32, Open>,
    zero: Threads,
    one: Threads,
}

impl Callers {
    pub(crate) fn new(alloc: Global) -> Callers {
        Callers {
            sockets: BTreeMap::new(alloc),
            open: BTreeMap::new(alloc),
            zero: Threads::new(alloc),
            one: Threads::new(alloc),
        }
    }

    /// The threads of a host.
    pub(crate) fn threads_of(&self, host: Host) -> &Threads {
        match host {
            Host::Zero => &self.zero,
            Host::One => &self.one,
        }
    }

    /// Whether no bar is drawn.
    pub(crate) fn is_empty(&self) -> bool {
        self.zero.drawn.is_empty() && self.one.drawn.is_empty()
    }

    /// The place of the bar of a host's thread.
    pub(crate) fn place(&mut self, host: Host, thread: u32) -> Result<u64, OutOfMemory> {
        match host {
            Host::Zero => self.zero.place(thread),
            Host::One => self.one.place(thread),
        }
    }

    /// A thread begins a call. The answer is its host.
    pub(crate) fn begin(&mut self, begun: &Line, call: &Call) -> Result<Host, OutOfMemory> {
        let (thread, line) = (begun.thread, begun.number);
        let opens = matches!(call, Call::Listen(..) | Call::Connect(..) | Call::Accept(_));
        let host = self.host_of(call);
        self.open.insert(thread, Open { host, line, opens })?;
        Ok(host)
    }

    fn host_of(&self, call: &Call) -> Host {
        let known = match call {
            Call::Listen(host, ..) | Call::Connect(host, ..) => Some(host),
            Call::Await(socket)
            | Call::Accept(socket)
            | Call::Send(socket, _)
            | Call::Recv(socket, _)
            | Call::Shut(socket)
            | Call::Close(socket)
            | Call::Abort(socket)
            | Call::Status(socket) => self.sockets.get(socket),
        };
        known.copied().unwrap_or(Host::Zero)
    }

    /// A thread's call ends. The answer is the call.
    pub(crate) fn end(&mut self, thread: u32, got: &Answer) -> Result<Option<Open>, OutOfMemory> {
        let open = self.open.get(&thread).copied();
        if let (Some(open), Answer::Given(number)) = (open, got) {
            if open.opens {
                self.sockets.insert(*number, open.host)?;
            }
        }
        self.open.remove(&thread);
        Ok(open)
    }
}
