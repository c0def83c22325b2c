//! The calls that a thread may begin.

ghost use Rattle.std.specs.Prelude.{◌≡◌};
ghost use Rattle.line_fields.specs.Reading.{Gives};
ghost use Rattle.line_fields.specs.Choice.{kind_named, kind_field};
ghost use Rattle.trace_reader.specs.Calls.{call_name, all_call_words};
ghost use Rattle.trace_reader.specs.CallFields.{listen_fields, open_fields, send_fields, recv_fields, call_field};

use case_forms::{Call, Version};
use line_fields::{FaultKind, Fields, TextFault, is_text};
use std::alloc::Global;

const MAX_BACKLOG: u64 = 65_535;

// The greatest count of bytes of one `send`.
const MAX_SEND: usize = 65_535;

// The greatest count of bytes that one `recv` may request.
const MAX_RECV: u64 = 65_535;

/// The first word of a call.
#[derive(Clone, Copy)]
pub(crate) enum CallWord {
    Listen,
    Open,
    Await,
    Accept,
    Send,
    Recv,
    Shut,
    Close,
    Abort,
    Status,
}

/// The first word of a call that a field spells.
pub(crate) fn call_word_named(text: &[u8]) -> Option<CallWord>
    ensures { result ≡ kind_named call_name all_call_words text.now }
{
    if is_text(text, "listen") {
        Some(CallWord::Listen)
    } else if is_text(text, "open") {
        Some(CallWord::Open)
    } else if is_text(text, "await") {
        Some(CallWord::Await)
    } else if is_text(text, "accept") {
        Some(CallWord::Accept)
    } else if is_text(text, "send") {
        Some(CallWord::Send)
    } else if is_text(text, "recv") {
        Some(CallWord::Recv)
    } else if is_text(text, "shut") {
        Some(CallWord::Shut)
    } else if is_text(text, "close") {
        Some(CallWord::Close)
    } else if is_text(text, "abort") {
        Some(CallWord::Abort)
    } else if is_text(text, "status") {
        Some(CallWord::Status)
    } else {
        None
    }
}

// The next field, which is the first word of a call.
fn call_word(fields: &mut Fields) -> Result<CallWord, TextFault>
    ensures { Gives (λ word. (word, fields.new)) result (kind_field call_name all_call_words fields.old) }
{
    let name = fields.next()?;
    match call_word_named(name.text) {
        Some(word) => Ok(word),
        None => Err(name.fault(FaultKind::Field)),
    }
}

// What follows `listen`.
#[tactic(auto, unfolding(crate::specs::CallFields::listen_fields))]
fn listen(version: Version, fields: &mut Fields) -> Result<Call, TextFault>
    ensures { Gives (λ call. (call, fields.new)) result (listen_fields version fields.old) }
{
    let host = fields.host(version)?;
    let port = fields.port()?;
    let backlog = fields.number(0, MAX_BACKLOG)? as u16;
    Ok(Call::Listen(host, port, backlog))
}

// What follows `open`.
#[tactic(auto, unfolding(crate::specs::CallFields::open_fields))]
fn open(version: Version, fields: &mut Fields) -> Result<Call, TextFault>
    ensures { Gives (λ call. (call, fields.new)) result (open_fields version fields.old) }
{
    let host = fields.host(version)?;
    let local = fields.port()?;
    let remote = fields.port()?;
    Ok(Call::Connect(host, local, remote))
}

// What follows `send`.
#[tactic(auto, unfolding(crate::specs::CallFields::send_fields))]
fn send(alloc: Global, fields: &mut Fields) -> Result<Call, TextFault>
    ensures { Gives (λ call. (call, fields.new)) result (send_fields fields.old) }
{
    let socket = fields.number32()?;
    let bytes = fields.hex(alloc, MAX_SEND)?;
    Ok(Call::Send(socket, bytes))
}

// What follows `recv`.
#[tactic(auto, unfolding(crate::specs::CallFields::recv_fields))]
fn recv(fields: &mut Fields) -> Result<Call, TextFault>
    ensures { Gives (λ call. (call, fields.new)) result (recv_fields fields.old) }
{
    let socket = fields.number32()?;
    let max = fields.number(1, MAX_RECV)? as u16;
    Ok(Call::Recv(socket, max))
}

/// A call, in a text of this version.
#[tactic(auto, unfolding(crate::specs::CallFields::call_field))]
pub(crate) fn call(alloc: Global, version: Version, fields: &mut Fields) -> Result<Call, TextFault>
    ensures { Gives (λ call. (call, fields.new)) result (call_field version fields.old) }
{
    match call_word(fields)? {
        CallWord::Listen => listen(version, fields),
        CallWord::Open => open(version, fields),
        CallWord::Send => send(alloc, fields),
        CallWord::Recv => recv(fields),
        CallWord::Await => Ok(Call::Await(fields.number32()?)),
        CallWord::Accept => Ok(Call::Accept(fields.number32()?)),
        CallWord::Shut => Ok(Call::Shut(fields.number32()?)),
        CallWord::Close => Ok(Call::Close(fields.number32()?)),
        CallWord::Abort => Ok(Call::Abort(fields.number32()?)),
        CallWord::Status => Ok(Call::Status(fields.number32()?)),
    }
}
