//! What is kept of one line beside its number and its bytes.

ghost use Rattle.std.specs.Prelude.{◌≡◌, ℕ, List, IfOk, OnOk, OnErr, Ok, Some, false, []};
ghost use Rattle.case_lines.specs.Lines.{IsPlain};
ghost use Rattle.case_lines.specs.Records.{answer_bytes, bytes_of, call_bytes, event_of, line_of, seen_of};
ghost use Rattle.case_lines.specs.Records.{has_bytes, len_count};
ghost use Rattle.case_lines.specs.Spelled.{is_seen};
ghost use Rattle.case_forms.specs.declared.trace.Event.TheVariants as events;

use case_forms::{Answer, Call, Event, Host, Line, OutOfMemory, Span, State, Timer, Wire};
use segment::{Bytes, decode};
use std::alloc::{AllocError, Global};
use std::mem::size_of;

/// A line without its number and its bytes.
#[derive(Clone, Copy)]
pub struct Record {
    /// When the line was recorded, in microseconds.
    pub moment: u64,
    pub thread: u32,
    /// The column at which the line ends.
    pub stop: u32,
    pub event: KeptEvent,
}

/// An event without its bytes. The variants have the names of those of `Call`, `Answer` and `Event`; there is one enum,
/// since a tag within a tag would take more memory. For the same reason, the most that a call receives is before its
/// socket.
#[derive(Clone, Copy)]
pub enum KeptEvent {
    Listen(Host, u16, u16),
    Connect(Host, u16, u16),
    Await(u32),
    Accept(u32),
    Send(u32),
    Recv(u16, u32),
    Shut(u32),
    Close(u32),
    Abort(u32),
    Status(u32),
    Done,
    Given(u32),
    Bytes,
    Again,
    Eof,
    Closed,
    NotConn,
    Refused,
    Reset,
    Timeout,
    InUse,
    BadSocket,
    State(State),
    Sent(Host),
    Came(Host),
    Expired(Host, u16, u16, Timer),
}

// Each of a chunk's lines takes this much, and those with bytes the bytes and their number.
const _: () = prove!(size_of::<Record>() == 24);

impl KeptEvent {
    /// Whether an event of this kind has bytes, of which there may be none.
    #[inline(always)]
    pub(crate) fn has_bytes(self) -> bool
        ensures { result ≡ has_bytes self }
    {
        matches!(
            self,
            KeptEvent::Send(_) | KeptEvent::Bytes | KeptEvent::Sent(_) | KeptEvent::Came(_)
        )
    }

    /// Whether it is a segment that was seen.
    #[inline(always)]
    pub(crate) fn is_seen(self) -> bool
        ensures { result ≡ is_seen self }
    {
        matches!(self, KeptEvent::Sent(_) | KeptEvent::Came(_))
    }

    /// How many lengths are kept for it: one, if it has bytes.
    #[inline(always)]
    pub(crate) fn len_count(self) -> usize
        ensures { result ≡ len_count self }
    {
        if self.has_bytes() { 1 } else { 0 }
    }
}

/// The bytes of an event, or none.
#[inline(always)]
pub(crate) fn bytes_of(event: &Event) -> &[u8]
    ensures { result.now ≡ bytes_of event.now }
{
    match event {
        Event::CallBegin(Call::Send(_, bytes)) => bytes.as_slice(),
        Event::CallEnd(Answer::Bytes(bytes)) => bytes.as_slice(),
        Event::Sent(_, wire) => wire.bytes.as_slice(),
        Event::Came(_, wire) => wire.bytes.as_slice(),
        _ => &[],
    }
}

/// What is kept of a line beside its number and its bytes.
#[tactic(auto, unfolding(crate::specs::Records::line_of))]
#[inline(always)]
pub(crate) fn record_of(line: &Line) -> Record
    requires { IsPlain line.now }
    ensures line { line_of line.now.number result (bytes_of line.now.event) ≡ line.now }
    ensures none { has_bytes result.event ≡ false → bytes_of line.now.event ≡ [] }
{
    Record {
        moment: line.moment,
        thread: line.thread,
        stop: line.span.stop as u32,
        event: kept_event(&line.event),
    }
}

// What is kept of an event beside its bytes.
#[tactic(auto, using(crate::proofs::RecordLemmas::seen_of_is), unfolding(crate::specs::Records::event_of))]
#[inline(always)]
fn kept_event(event: &Event) -> KeptEvent
    ensures event { event_of result (bytes_of event.now) ≡ event.now }
    ensures none { has_bytes result ≡ false → bytes_of event.now ≡ [] }
{
    match event {
        Event::CallBegin(call) => kept_call(call),
        Event::CallEnd(answer) => kept_answer(answer),
        Event::Sent(host, wire) => {
            wire.is_segment();
            KeptEvent::Sent(*host)
        }
        Event::Came(host, wire) => {
            wire.is_segment();
            KeptEvent::Came(*host)
        }
        Event::Expired(host, local, remote, timer) => {
            KeptEvent::Expired(*host, *local, *remote, *timer)
        }
    }
}

#[tactic(auto, unfolding(crate::specs::Records::event_of))]
#[inline(always)]
fn kept_call(call: &Call) -> KeptEvent
    ensures event { event_of result (call_bytes call.now) ≡ events.CallBegin call.now }
    ensures none { has_bytes result ≡ false → call_bytes call.now ≡ [] }
{
    match call {
        Call::Listen(host, port, backlog) => KeptEvent::Listen(*host, *port, *backlog),
        Call::Connect(host, local, remote) => KeptEvent::Connect(*host, *local, *remote),
        Call::Await(socket) => KeptEvent::Await(*socket),
        Call::Accept(socket) => KeptEvent::Accept(*socket),
        Call::Send(socket, _) => KeptEvent::Send(*socket),
        Call::Recv(socket, most) => KeptEvent::Recv(*most, *socket),
        Call::Shut(socket) => KeptEvent::Shut(*socket),
        Call::Close(socket) => KeptEvent::Close(*socket),
        Call::Abort(socket) => KeptEvent::Abort(*socket),
        Call::Status(socket) => KeptEvent::Status(*socket),
    }
}

#[tactic(auto, unfolding(crate::specs::Records::event_of))]
#[inline(always)]
fn kept_answer(answer: &Answer) -> KeptEvent
    ensures event { event_of result (answer_bytes answer.now) ≡ events.CallEnd answer.now }
    ensures none { has_bytes result ≡ false → answer_bytes answer.now ≡ [] }
{
    match answer {
        Answer::Done => KeptEvent::Done,
        Answer::Given(number) => KeptEvent::Given(*number),
        Answer::Bytes(_) => KeptEvent::Bytes,
        Answer::Again => KeptEvent::Again,
        Answer::Eof => KeptEvent::Eof,
        Answer::Closed => KeptEvent::Closed,
        Answer::NotConn => KeptEvent::NotConn,
        Answer::Refused => KeptEvent::Refused,
        Answer::Reset => KeptEvent::Reset,
        Answer::Timeout => KeptEvent::Timeout,
        Answer::InUse => KeptEvent::InUse,
        Answer::BadSocket => KeptEvent::BadSocket,
        Answer::State(state) => KeptEvent::State(*state),
    }
}

/// Makes the line of a record with this number and these bytes the item. The error means that memory ran out; the item
/// then doesn't change.
#[tactic(auto, unfolding(crate::specs::Records::line_of))]
#[inline(always)]
pub(crate) fn line_into(
    alloc: Global,
    number: u64,
    kept: &Record,
    bytes: &[u8],
    item: &mut Option<Line>,
) -> Result<(), OutOfMemory>
    ensures ok { OnOk result (item.new ≡ Some (line_of number kept.now bytes.now)) }
    ensures err { OnErr result (item.new ≡ item.old) }
{
    if kept.event.has_bytes() {
        return line_with_bytes(alloc, number, kept, bytes, item);
    }
    *item = Some(Line {
        number,
        moment: kept.moment,
        thread: kept.thread,
        event: event_alone(kept.event),
        span: Span {
            line: number,
            start: 0,
            stop: kept.stop as usize,
        },
    });
    Ok(())
}

// The same, for any event.
#[tactic(auto, unfolding(crate::specs::Records::line_of))]
#[inline(never)]
fn line_with_bytes(
    alloc: Global,
    number: u64,
    kept: &Record,
    bytes: &[u8],
    item: &mut Option<Line>,
) -> Result<(), OutOfMemory>
    ensures ok { OnOk result (item.new ≡ Some (line_of number kept.now bytes.now)) }
    ensures err { OnErr result (item.new ≡ item.old) }
{
    let event = event_of(alloc, kept.event, bytes)?;
    *item = Some(Line {
        number,
        moment: kept.moment,
        thread: kept.thread,
        event,
        span: Span {
            line: number,
            start: 0,
            stop: kept.stop as usize,
        },
    });
    Ok(())
}

// The event of a record whose kind of event has no bytes.
#[tactic(auto, unfolding(crate::specs::Records::event_of))]
#[inline(always)]
fn event_alone(event: KeptEvent) -> Event
    requires { has_bytes event ≡ false }
    ensures { (bytes : List ℕ) → result ≡ event_of event bytes }
{
    match event {
        KeptEvent::Listen(host, port, backlog) => {
            Event::CallBegin(Call::Listen(host, port, backlog))
        }
        KeptEvent::Connect(host, local, remote) => {
            Event::CallBegin(Call::Connect(host, local, remote))
        }
        KeptEvent::Await(socket) => Event::CallBegin(Call::Await(socket)),
        KeptEvent::Accept(socket) => Event::CallBegin(Call::Accept(socket)),
        KeptEvent::Recv(most, socket) => Event::CallBegin(Call::Recv(socket, most)),
        KeptEvent::Shut(socket) => Event::CallBegin(Call::Shut(socket)),
        KeptEvent::Close(socket) => Event::CallBegin(Call::Close(socket)),
        KeptEvent::Abort(socket) => Event::CallBegin(Call::Abort(socket)),
        KeptEvent::Status(socket) => Event::CallBegin(Call::Status(socket)),
        KeptEvent::Done => Event::CallEnd(Answer::Done),
        KeptEvent::Given(number) => Event::CallEnd(Answer::Given(number)),
        KeptEvent::Again => Event::CallEnd(Answer::Again),
        KeptEvent::Eof => Event::CallEnd(Answer::Eof),
        KeptEvent::Closed => Event::CallEnd(Answer::Closed),
        KeptEvent::NotConn => Event::CallEnd(Answer::NotConn),
        KeptEvent::Refused => Event::CallEnd(Answer::Refused),
        KeptEvent::Reset => Event::CallEnd(Answer::Reset),
        KeptEvent::Timeout => Event::CallEnd(Answer::Timeout),
        KeptEvent::InUse => Event::CallEnd(Answer::InUse),
        KeptEvent::BadSocket => Event::CallEnd(Answer::BadSocket),
        KeptEvent::State(state) => Event::CallEnd(Answer::State(state)),
        KeptEvent::Expired(host, local, remote, timer) => {
            Event::Expired(host, local, remote, timer)
        }
        KeptEvent::Send(_) | KeptEvent::Bytes | KeptEvent::Sent(_) | KeptEvent::Came(_) => {
            unreachable!()
        }
    }
}

#[tactic(auto, unfolding(crate::specs::Records::event_of))]
fn event_of(alloc: Global, event: KeptEvent, bytes: &[u8]) -> Result<Event, OutOfMemory>
    ensures { IfOk result (λ whole. whole ≡ event_of event bytes.now) }
{
    match event {
        KeptEvent::Listen(host, port, backlog) => begin(Call::Listen(host, port, backlog)),
        KeptEvent::Connect(host, local, remote) => begin(Call::Connect(host, local, remote)),
        KeptEvent::Await(socket) => begin(Call::Await(socket)),
        KeptEvent::Accept(socket) => begin(Call::Accept(socket)),
        KeptEvent::Send(socket) => begin(Call::Send(socket, Bytes::from_slice(alloc, bytes)?)),
        KeptEvent::Recv(most, socket) => begin(Call::Recv(socket, most)),
        KeptEvent::Shut(socket) => begin(Call::Shut(socket)),
        KeptEvent::Close(socket) => begin(Call::Close(socket)),
        KeptEvent::Abort(socket) => begin(Call::Abort(socket)),
        KeptEvent::Status(socket) => begin(Call::Status(socket)),
        KeptEvent::Done => end(Answer::Done),
        KeptEvent::Given(number) => end(Answer::Given(number)),
        KeptEvent::Bytes => end(Answer::Bytes(Bytes::from_slice(alloc, bytes)?)),
        KeptEvent::Again => end(Answer::Again),
        KeptEvent::Eof => end(Answer::Eof),
        KeptEvent::Closed => end(Answer::Closed),
        KeptEvent::NotConn => end(Answer::NotConn),
        KeptEvent::Refused => end(Answer::Refused),
        KeptEvent::Reset => end(Answer::Reset),
        KeptEvent::Timeout => end(Answer::Timeout),
        KeptEvent::InUse => end(Answer::InUse),
        KeptEvent::BadSocket => end(Answer::BadSocket),
        KeptEvent::State(state) => end(Answer::State(state)),
        KeptEvent::Sent(host) => Ok(Event::Sent(host, wire_of(alloc, bytes)?)),
        KeptEvent::Came(host) => Ok(Event::Came(host, wire_of(alloc, bytes)?)),
        KeptEvent::Expired(host, local, remote, timer) => {
            Ok(Event::Expired(host, local, remote, timer))
        }
    }
}

#[inline(always)]
fn begin(call: Call) -> Result<Event, OutOfMemory>
    ensures { result ≡ Ok (events.CallBegin call) }
{
    Ok(Event::CallBegin(call))
}

#[inline(always)]
fn end(answer: Answer) -> Result<Event, OutOfMemory>
    ensures { result ≡ Ok (events.CallEnd answer) }
{
    Ok(Event::CallEnd(answer))
}

// The bytes with the segment that they encode. The bytes of a kept line encode one, so the error means that memory ran
// out.
#[tactic(auto, unfolding(crate::specs::Records::seen_of))]
#[inline(always)]
fn wire_of(alloc: Global, bytes: &[u8]) -> Result<Wire, OutOfMemory>
    ensures { IfOk result (λ wire. wire ≡ seen_of bytes.now) }
{
    match decode(alloc, bytes) {
        Ok(seg) => Ok(Wire {
            bytes: Bytes::from_slice(alloc, bytes)?,
            seg,
        }),
        Err(_) => Err(AllocError),
    }
}
