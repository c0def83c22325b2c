//! Hosts, flags, calls and answers in words.

use case_forms::{Answer, Call, Flags, Host};
use line_fields::state_name;
use std::fmt::{self, Display};

/// The word if the condition is true, else nothing.
pub fn word_if(is_so: bool, word: &'static str) -> &'static str {
    if is_so { word } else { "" }
}

/// A host by its number, such as `host 0`.
#[derive(Clone, Copy)]
pub struct HostName(pub Host);

impl fmt::Display for HostName {
    fn fmt<W: fmt::Write>(&self, f: &mut fmt::Formatter<W>) -> fmt::Result {
        f.write_str(match self.0 {
            Host::Zero => "host 0",
            Host::One => "host 1",
        })
    }
}

/// The names of flags, each with a space after it; `- ` if there are none.
#[derive(Clone, Copy)]
pub struct FlagWords(pub Flags);

impl fmt::Display for FlagWords {
    fn fmt<W: fmt::Write>(&self, f: &mut fmt::Formatter<W>) -> fmt::Result {
        let flags = self.0;
        let (syn, rst) = (word_if(flags.syn, "SYN "), word_if(flags.rst, "RST "));
        let (fin, ack) = (word_if(flags.fin, "FIN "), word_if(flags.ack, "ACK "));
        let is_bare = !flags.syn && !flags.rst && !flags.fin && !flags.ack;
        for word in [syn, rst, fin, ack, word_if(is_bare, "- ")] {
            write!(f, "{word}")?;
        }
        Ok(())
    }
}

/// A call, with counts instead of bytes.
#[derive(Clone, Copy)]
pub struct CallWords<'c>(pub &'c Call);

impl fmt::Display for CallWords<'_> {
    fn fmt<W: fmt::Write>(&self, f: &mut fmt::Formatter<W>) -> fmt::Result {
        match self.0 {
            Call::Listen(host, port, backlog) => listen(f, *host, *port, *backlog),
            Call::Connect(host, lport, rport) => open(f, *host, *lport, *rport),
            Call::Send(socket, bytes) => send(f, *socket, bytes.len()),
            Call::Recv(socket, most) => receive(f, *socket, *most),
            Call::Await(socket) => on_socket(f, "await", *socket),
            Call::Accept(socket) => on_socket(f, "accept", *socket),
            Call::Shut(socket) => on_socket(f, "shut", *socket),
            Call::Close(socket) => on_socket(f, "close", *socket),
            Call::Abort(socket) => on_socket(f, "abort", *socket),
            Call::Status(socket) => on_socket(f, "status", *socket),
        }
    }
}

// A call on a socket, in the words of the text. A function for each form is quicker to prove than one for all.
fn on_socket<W: fmt::Write>(f: &mut fmt::Formatter<W>, call: &str, socket: u32) -> fmt::Result {
    write!(f, "{call} {socket}")
}

fn send<W: fmt::Write>(f: &mut fmt::Formatter<W>, socket: u32, count: usize) -> fmt::Result {
    write!(f, "send {socket}, {count} bytes")
}

fn receive<W: fmt::Write>(f: &mut fmt::Formatter<W>, socket: u32, most: u16) -> fmt::Result {
    write!(f, "recv {socket}, at most {most}")
}

fn listen<W: fmt::Write>(
    f: &mut fmt::Formatter<W>,
    host: Host,
    port: u16,
    backlog: u16,
) -> fmt::Result {
    let host = HostName(host);
    write!(f, "listen at {host} on port {port}, backlog {backlog}")
}

fn open<W: fmt::Write>(
    f: &mut fmt::Formatter<W>,
    host: Host,
    lport: u16,
    rport: u16,
) -> fmt::Result {
    let host = HostName(host);
    write!(f, "open at {host}, port {lport} to {rport}")
}

/// An answer after a space, with a count instead of bytes.
#[derive(Clone, Copy)]
pub struct AnswerWords<'a>(pub &'a Answer);

impl fmt::Display for AnswerWords<'_> {
    fn fmt<W: fmt::Write>(&self, f: &mut fmt::Formatter<W>) -> fmt::Result {
        match self.0 {
            Answer::Bytes(bytes) => write!(f, " data, {} bytes", bytes.len()),
            answer => AnswerFields(answer).fmt(f),
        }
    }
}

/// The fields of an answer as a text has them, each after a space.
#[derive(Clone, Copy)]
pub struct AnswerFields<'a>(pub &'a Answer);

impl fmt::Display for AnswerFields<'_> {
    fn fmt<W: fmt::Write>(&self, f: &mut fmt::Formatter<W>) -> fmt::Result {
        match self.0 {
            Answer::Given(count) => fields(f, "ok", count),
            Answer::Bytes(bytes) => fields(f, "data", &Hex(bytes.as_slice())),
            Answer::State(state) => fields(f, "state", &state_name(*state)),
            answer => write!(f, " {}", answer_word(answer)),
        }
    }
}

// Two fields.
fn fields<W: fmt::Write>(
    f: &mut fmt::Formatter<W>,
    first: &str,
    second: &impl Display,
) -> fmt::Result {
    write!(f, " {first} {second}")
}

// The first field of an answer.
fn answer_word(answer: &Answer) -> &'static str {
    match answer {
        Answer::Done | Answer::Given(_) => "ok",
        Answer::Bytes(_) => "data",
        Answer::State(_) => "state",
        Answer::Again => "again",
        Answer::Eof => "eof",
        Answer::Closed => "closed",
        Answer::NotConn => "notconn",
        Answer::Refused => "refused",
        Answer::Reset => "reset",
        Answer::Timeout => "timeout",
        Answer::InUse => "inuse",
        Answer::BadSocket => "badsocket",
    }
}

// Bytes as hex digits.
#[derive(Clone, Copy)]
struct Hex<'b>(&'b [u8]);

impl fmt::Display for Hex<'_> {
    fn fmt<W: fmt::Write>(&self, f: &mut fmt::Formatter<W>) -> fmt::Result {
        for byte in self.0 {
            write!(f, "{byte:02x}")?;
        }
        Ok(())
    }
}
