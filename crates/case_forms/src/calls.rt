//! Socket calls and their answers.

ghost use Rattle.std.specs.Prelude.{◌≡◌, IfOk};
ghost use Rattle.case_forms.specs.Hosts.{other};
ghost use Rattle.case_forms.specs.States.{is_closed, is_fin_wait_2, is_syn_received, is_syn_sent, is_time_wait};

use crate::OutOfMemory;
use segment::Bytes;

/// One of the two hosts of a case.
#[derive(Clone, Copy, PartialEq, Eq)]
pub enum Host {
    /// Host 0.
    Zero,
    /// Host 1.
    One,
}

impl Host {
    /// The other of the two hosts.
    pub fn other(self) -> Host
        ensures { result ≡ other self }
    {
        match self {
            Host::Zero => Host::One,
            Host::One => Host::Zero,
        }
    }
}

/// The ports of an endpoint, 1 to 65535.
#[derive(Clone, Copy, PartialEq, Eq)]
pub struct Ports {
    /// The local port.
    pub lport: u16,
    /// The peer's port.
    pub rport: u16,
}

/// The state of an endpoint (RFC 9293, 3.3.2). `Listen` is the answer for a listener.
#[derive(Clone, Copy, PartialEq, Eq)]
pub enum State {
    Closed,
    Listen,
    SynSent,
    SynReceived,
    Established,
    FinWait1,
    FinWait2,
    CloseWait,
    Closing,
    LastAck,
    TimeWait,
}

impl State {
    /// Whether it is CLOSED.
    pub fn is_closed(self) -> bool
        ensures { result ≡ is_closed self }
    {
        matches!(self, State::Closed)
    }

    /// Whether it is SYN-SENT.
    pub fn is_syn_sent(self) -> bool
        ensures { result ≡ is_syn_sent self }
    {
        matches!(self, State::SynSent)
    }

    /// Whether it is SYN-RECEIVED.
    pub fn is_syn_received(self) -> bool
        ensures { result ≡ is_syn_received self }
    {
        matches!(self, State::SynReceived)
    }

    /// Whether it is FIN-WAIT-2.
    pub fn is_fin_wait_2(self) -> bool
        ensures { result ≡ is_fin_wait_2 self }
    {
        matches!(self, State::FinWait2)
    }

    /// Whether it is TIME-WAIT.
    pub fn is_time_wait(self) -> bool
        ensures { result ≡ is_time_wait self }
    {
        matches!(self, State::TimeWait)
    }
}

/// A socket call (RFC 9293, 3.9.1). Ports are 1 to 65535. A socket number may be any number, whether or not a call
/// returned it.
#[derive(Drop)]
pub enum Call {
    /// `listen h port backlog`: open a listener on a port of host h, with a queue for `backlog` children.
    Listen(Host, u16, u16),
    /// `open h lport rport`: connect a local port of host h to a port of the other host.
    Connect(Host, u16, u16),
    /// `await H`: whether the endpoint was connected.
    Await(u32),
    /// `accept H`: take the first child of a listener's queue.
    Accept(u32),
    /// `send H hex`: send these bytes, 1 to 65535 of them.
    Send(u32, Bytes),
    /// `recv H max`: receive at most `max` bytes.
    Recv(u32, u16),
    /// `shut H`: end sending.
    Shut(u32),
    /// `close H`: close what socket number H names.
    Close(u32),
    /// `abort H`: abort what socket number H names.
    Abort(u32),
    /// `status H`: the state of what socket number H names.
    Status(u32),
}

/// The answer of a call.
#[derive(PartialEq, Eq, Drop)]
pub enum Answer {
    /// `ok`
    Done,
    /// `ok N`: the new socket number, or a count of bytes.
    Given(u32),
    /// `data hex`: the received bytes, 1 to 65535.
    Bytes(Bytes),
    /// `again`: not yet.
    Again,
    /// `eof`: all bytes up to the peer's FIN were returned.
    Eof,
    /// `closed`: sending was ended, or the connection no longer exists.
    Closed,
    /// `notconn`: the connection doesn't exist, or not yet.
    NotConn,
    /// `refused`: the peer refused the connection with a reset.
    Refused,
    /// `reset`: the peer reset the connection (RFC 9293, 3.10.7.4).
    Reset,
    /// `timeout`: the endpoint gave up (RFC 9293, 3.8.3).
    Timeout,
    /// `inuse`: the port is in use.
    InUse,
    /// `badsocket`: the socket number is not live.
    BadSocket,
    /// `state NAME`
    State(State),
}

impl Call {
    /// An equal call. The error means that memory ran out.
    pub fn copy(&self) -> Result<Call, OutOfMemory>
        ensures { IfOk result (λ call. call ≡ self.now) }
    {
        match self {
            Call::Listen(host, port, backlog) => Ok(Call::Listen(*host, *port, *backlog)),
            Call::Connect(host, local, remote) => Ok(Call::Connect(*host, *local, *remote)),
            Call::Await(socket) => Ok(Call::Await(*socket)),
            Call::Accept(socket) => Ok(Call::Accept(*socket)),
            Call::Send(socket, bytes) => Ok(Call::Send(*socket, bytes.copy()?)),
            Call::Recv(socket, max) => Ok(Call::Recv(*socket, *max)),
            Call::Shut(socket) => Ok(Call::Shut(*socket)),
            Call::Close(socket) => Ok(Call::Close(*socket)),
            Call::Abort(socket) => Ok(Call::Abort(*socket)),
            Call::Status(socket) => Ok(Call::Status(*socket)),
        }
    }
}

impl Answer {
    /// An equal answer. The error means that memory ran out.
    pub fn copy(&self) -> Result<Answer, OutOfMemory>
        ensures { IfOk result (λ answer. answer ≡ self.now) }
    {
        match self {
            Answer::Done => Ok(Answer::Done),
            Answer::Given(number) => Ok(Answer::Given(*number)),
            Answer::Bytes(bytes) => Ok(Answer::Bytes(bytes.copy()?)),
            Answer::Again => Ok(Answer::Again),
            Answer::Eof => Ok(Answer::Eof),
            Answer::Closed => Ok(Answer::Closed),
            Answer::NotConn => Ok(Answer::NotConn),
            Answer::Refused => Ok(Answer::Refused),
            Answer::Reset => Ok(Answer::Reset),
            Answer::Timeout => Ok(Answer::Timeout),
            Answer::InUse => Ok(Answer::InUse),
            Answer::BadSocket => Ok(Answer::BadSocket),
            Answer::State(state) => Ok(Answer::State(*state)),
        }
    }
}
