//! What is kept of calls that wait, for version 6.

use case_forms::Host;
use spec_tcp::SocketTarget;

/// What a call waits for.
#[derive(Clone, Copy)]
pub enum Awaited {
    /// Bytes, or their end: `recv`.
    Bytes,
    /// That the connection is established: `await`.
    Connection,
    /// A child of a listener: `accept`.
    Child,
}

/// A call that waits on a live socket.
#[derive(Clone, Copy)]
pub struct Waiting {
    pub host: Host,
    /// What its socket number names.
    pub target: SocketTarget,
    pub awaited: Awaited,
}

/// Which calls on a socket may be answered `again`, since what they wait for isn't there.
#[derive(Clone, Copy)]
pub struct Waitable {
    pub bytes: bool,
    pub connection: bool,
    pub child: bool,
}

/// Since when no call on a live socket has to wait, by what it waits for, in microseconds. None: it may have to.
#[derive(Clone, Copy)]
pub struct Ready {
    pub bytes: Option<u64>,
    pub connection: Option<u64>,
    pub child: Option<u64>,
}

/// The open call of a thread. Moments are in microseconds.
#[derive(Clone, Copy)]
pub enum OpenCall {
    /// It has no answer yet.
    Waits {
        /// When it began.
        since: u64,
        /// Its socket number.
        socket: u32,
        awaited: Awaited,
    },
    /// It has another answer than `again`, which the program did not get yet.
    Answered {
        /// Since when the answer is owed.
        since: u64,
        host: Host,
        /// What its socket number names.
        target: SocketTarget,
    },
}

/// What a step does to the call of a thread.
#[derive(Clone, Copy)]
pub enum CallChange {
    Nothing,
    /// A call begins that may have to wait.
    Begins {
        thread: u32,
        socket: u32,
        awaited: Awaited,
    },
    /// It gets its answer. `waiting` is None if that is `again`, or if its socket isn't live.
    Answers {
        thread: u32,
        waiting: Option<Waiting>,
    },
    /// The program gets the answer.
    Ends(u32),
}

/// What a step does to a socket.
#[derive(Clone, Copy)]
pub enum SocketChange {
    Nothing,
    /// A call returns this new socket number.
    Gives { host: Host, socket: u32 },
    /// What a socket number names is shut; the number stays live.
    Shuts { host: Host, target: SocketTarget },
    /// What a socket number names is closed or aborted; the number isn't live any more.
    Closes { host: Host, target: SocketTarget },
}
