//! The printer of a trace.

ghost use Rattle.std.specs.Prelude.{◌≡◌, ◌<◌, ◌∷◌, [], ◌++◌, ℕ, List, Ok, IfOk, OnOk, map, slice_index};
ghost use Rattle.std.specs.List.{concat, AllByRecursion};
ghost use Rattle.std.specs.Fmt.{decimal};
ghost use Rattle.case_forms.specs.declared.trace.Trace.{Trace};
ghost use Rattle.case_forms.specs.Limits.{Has16, Has32, HasAnswerBits, HasCallBits};
ghost use Rattle.line_fields.specs.Hosts.{host_number};
ghost use Rattle.line_fields.specs.Spelling.{IsBytePiece, plain, hex, number, printed, printed_line, printed_behind};
ghost use Rattle.trace_reader.specs.Calls.{call_pieces};
ghost use Rattle.trace_reader.specs.Events.{event_pieces};
ghost use Rattle.trace_reader.specs.EventLines.{line_pieces};
ghost use Rattle.trace_reader.specs.TraceText.{IsTraceText, trace_of};
ghost use Rattle.trace_reader.specs.Printable.{HasEventBits, IsInMemory, IsPrintableTrace, with_columns};
ghost use Rattle.trace_reader.specs.Printed.{header_text, trace_text};

use crate::header_printer::push_header;
use case_forms::{Answer, Call, Event, Host, Line, OutOfMemory, Trace};
use line_fields::{
    push_answer, push_end, push_hex, push_host, push_number, push_space, push_word, timer_name,
};
use std::alloc::Global;

// Writes a number after a space.
fn push_next(out: &mut Vec<u8>, number: u64) -> Result<(), OutOfMemory>
    ensures { OnOk result (out.new.items ≡ out.old.items ++ 32 ∷ decimal number) }
{
    push_space(out)?;
    push_number(out, number)
}

// Writes a word and a socket number, each after a space.
fn push_socket(out: &mut Vec<u8>, word: &str, socket: u32) -> Result<(), OutOfMemory>
    ensures { OnOk result (out.new.items ≡ out.old.items ++ printed_behind (plain word.now ∷ number socket ∷ [])) }
{
    push_space(out)?;
    push_word(out, word)?;
    push_next(out, u64::from(socket))
}

// Writes a word and a host, each after a space.
fn push_host_word(out: &mut Vec<u8>, word: &str, host: Host) -> Result<(), OutOfMemory>
    ensures { OnOk result (out.new.items
        ≡ out.old.items ++ printed_behind (plain word.now ∷ number (host_number host) ∷ [])) }
{
    push_space(out)?;
    push_word(out, word)?;
    push_space(out)?;
    push_host(out, host)
}

// Writes a word, a host and two numbers, each after a space.
fn push_ports(
    out: &mut Vec<u8>,
    word: &str,
    host: Host,
    first: u16,
    second: u16,
) -> Result<(), OutOfMemory>
    ensures { OnOk result (out.new.items ≡ out.old.items
        ++ printed_behind (plain word.now ∷ number (host_number host) ∷ number first ∷ number second ∷ [])) }
{
    push_host_word(out, word, host)?;
    push_next(out, u64::from(first))?;
    push_next(out, u64::from(second))
}

// Writes the fields of a call, each after a space.
fn push_call(out: &mut Vec<u8>, call: &Call) -> Result<(), OutOfMemory>
    ensures { OnOk result (out.new.items ≡ out.old.items ++ printed_behind (call_pieces call.now)) }
{
    match call {
        Call::Listen(host, port, backlog) => push_ports(out, "listen", *host, *port, *backlog),
        Call::Connect(host, local, remote) => push_ports(out, "open", *host, *local, *remote),
        Call::Await(socket) => push_socket(out, "await", *socket),
        Call::Accept(socket) => push_socket(out, "accept", *socket),
        Call::Send(socket, bytes) => {
            push_socket(out, "send", *socket)?;
            push_space(out)?;
            push_hex(out, bytes.as_slice())
        }
        Call::Recv(socket, max) => {
            push_socket(out, "recv", *socket)?;
            push_next(out, u64::from(*max))
        }
        Call::Shut(socket) => push_socket(out, "shut", *socket),
        Call::Close(socket) => push_socket(out, "close", *socket),
        Call::Abort(socket) => push_socket(out, "abort", *socket),
        Call::Status(socket) => push_socket(out, "status", *socket),
    }
}

// Writes a letter, a host and the bytes of a segment, each after a space.
fn push_seen(out: &mut Vec<u8>, letter: &str, host: Host, bytes: &[u8]) -> Result<(), OutOfMemory>
    ensures { OnOk result (out.new.items ≡ out.old.items
        ++ printed_behind (plain letter.now ∷ number (host_number host) ∷ hex bytes.now ∷ [])) }
{
    push_host_word(out, letter, host)?;
    push_space(out)?;
    push_hex(out, bytes)
}

// Writes the fields of an event, each after a space.
fn push_event(out: &mut Vec<u8>, event: &Event) -> Result<(), OutOfMemory>
    ensures { OnOk result (out.new.items ≡ out.old.items ++ printed_behind (event_pieces event.now)) }
{
    match event {
        Event::CallBegin(call) => {
            push_word(out, " B")?;
            push_call(out, call)
        }
        Event::CallEnd(answer) => {
            push_word(out, " E")?;
            push_answer(out, answer)
        }
        Event::Sent(host, wire) => push_seen(out, "O", *host, wire.bytes.as_slice()),
        Event::Came(host, wire) => push_seen(out, "I", *host, wire.bytes.as_slice()),
        Event::Expired(host, local, remote, timer) => {
            push_ports(out, "T", *host, *local, *remote)?;
            push_space(out)?;
            push_word(out, timer_name(*timer))
        }
    }
}

// Writes an event line.
fn push_line(out: &mut Vec<u8>, line: &Line) -> Result<(), OutOfMemory>
    ensures { OnOk result (out.new.items ≡ out.old.items ++ printed_line (line_pieces line.now)) }
{
    push_number(out, line.moment)?;
    push_space(out)?;
    push_number(out, u64::from(line.thread))?;
    push_event(out, &line.event)?;
    push_end(out)?;
    Ok(())
}

/// The text of a trace, each line ended with LF. The error means that memory ran out.
pub fn print_trace(alloc: Global, trace: &Trace) -> Result<Vec<u8>, OutOfMemory>
    ensures text { IfOk result (λ text. text.items ≡ trace_text trace.now) }
    ensures memory { IfOk result (λ text. AllByRecursion IsInMemory trace.now.lines) }
{
    let mut out = Vec::new(alloc);
    push_header(&mut out, &trace.header)?;
    for line in trace.lines.as_slice() {
        push_line(&mut out, line)?;
        line_in_memory(line);
    }
    Ok(out)
}

/// If a trace has a text, reading what is printed gives the trace again, with the same spans.
pub fn print_law()
    ensures { (t : Trace) (text : List ℕ) → IsTraceText t text → IsTraceText t (trace_text t) }
{}

/// A trace is printed as its text, with the spans of that text, if and only if it is within the limits.
pub fn printable_law()
    ensures printed { (t : Trace) → IsPrintableTrace t → IsTraceText (with_columns t) (trace_text t) }
    ensures read { (t : Trace) → IsPrintableTrace t → trace_of (trace_text t) ≡ Ok (with_columns t) }
    ensures only { (t : Trace) (text : List ℕ) → IsTraceText (with_columns t) text → IsPrintableTrace t }
{}

// The elements of a slice of bytes are below 256, as its type says.
fn slice_bytes(bytes: &[u8])
    ensures { (i : ℕ) → slice_index bytes.now i < 256 }
{}

// So are those of owned bytes.
fn own_bytes(bytes: &segment::Bytes)
    ensures { (i : ℕ) → slice_index bytes.now i < 256 }
{
    slice_bytes(bytes.as_slice());
}

// A call's bytes are bytes.
fn call_bytes(call: &Call)
    ensures { AllByRecursion IsBytePiece (call_pieces call.now) }
{
    if let Call::Send(_, bytes) = call {
        own_bytes(bytes);
    }
}

/// An event's bytes are bytes, as the types of its values ensure.
pub fn event_bytes(event: &Event)
    ensures { AllByRecursion IsBytePiece (event_pieces event.now) }
{
    match event {
        Event::CallBegin(call) => call_bytes(call),
        Event::CallEnd(Answer::Bytes(bytes)) => own_bytes(bytes),
        Event::CallEnd(_) => (),
        Event::Sent(_, wire) => own_bytes(&wire.bytes),
        Event::Came(_, wire) => own_bytes(&wire.bytes),
        Event::Expired(_, _, _, _) => (),
    }
}

// A number of 16 bits, as its type says.
fn bits16(n: u16)
    ensures { Has16 n }
{}

// The same for one of 32 bits.
fn bits32(n: u32)
    ensures { Has32 n }
{}

// The numbers of a call are in the ranges of their types.
fn call_bits(call: &Call)
    ensures { HasCallBits call.now }
{
    match call {
        Call::Listen(_, first, second) | Call::Connect(_, first, second) => {
            bits16(*first);
            bits16(*second);
        }
        Call::Recv(socket, max) => {
            bits32(*socket);
            bits16(*max);
        }
        Call::Await(socket)
        | Call::Accept(socket)
        | Call::Send(socket, _)
        | Call::Shut(socket)
        | Call::Close(socket)
        | Call::Abort(socket)
        | Call::Status(socket) => bits32(*socket),
    }
}

// The same for that of an answer.
fn answer_bits(answer: &Answer)
    ensures { HasAnswerBits answer.now }
{
    if let Answer::Given(count) = answer {
        bits32(*count);
    }
}

// The same for those of an event; and the bytes of a segment encode it.
fn event_bits(event: &Event)
    ensures { HasEventBits event.now }
{
    match event {
        Event::CallBegin(call) => call_bits(call),
        Event::CallEnd(answer) => answer_bits(answer),
        Event::Sent(_, wire) | Event::Came(_, wire) => wire.is_segment(),
        Event::Expired(_, local, remote, _) => {
            bits16(*local);
            bits16(*remote);
        }
    }
}

/// The types of a line's values ensure these limits: its numbers are in their ranges, its bytes are bytes, and those of
/// a segment encode it.
pub fn line_in_memory(line: &Line)
    ensures { IsInMemory line.now }
{
    bits32(line.thread);
    event_bits(&line.event);
    event_bytes(&line.event);
}
