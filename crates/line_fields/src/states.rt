//! The names of states.

ghost use Rattle.std.specs.Prelude.{◌≡◌};
ghost use Rattle.line_fields.specs.Reading.{Gives};
ghost use Rattle.line_fields.specs.Choice.{kind_named, kind_field};
ghost use Rattle.line_fields.specs.States.{state_name, all_states};

use crate::fault::{FaultKind, TextFault};
use crate::fields::{Fields, is_text};
use case_forms::State;

/// The name of a state (RFC 9293, 3.3.2).
pub fn state_name(state: State) -> &'static str
    ensures { result.now ≡ state_name state }
{
    match state {
        State::Closed => "CLOSED",
        State::Listen => "LISTEN",
        State::SynSent => "SYN-SENT",
        State::SynReceived => "SYN-RECEIVED",
        State::Established => "ESTABLISHED",
        State::FinWait1 => "FIN-WAIT-1",
        State::FinWait2 => "FIN-WAIT-2",
        State::CloseWait => "CLOSE-WAIT",
        State::Closing => "CLOSING",
        State::LastAck => "LAST-ACK",
        State::TimeWait => "TIME-WAIT",
    }
}

/// The state with that name.
pub fn state_named(text: &[u8]) -> Option<State>
    ensures { result ≡ kind_named state_name all_states text.now }
{
    if is_text(text, "CLOSED") {
        Some(State::Closed)
    } else if is_text(text, "LISTEN") {
        Some(State::Listen)
    } else if is_text(text, "SYN-SENT") {
        Some(State::SynSent)
    } else if is_text(text, "SYN-RECEIVED") {
        Some(State::SynReceived)
    } else if is_text(text, "ESTABLISHED") {
        Some(State::Established)
    } else if is_text(text, "FIN-WAIT-1") {
        Some(State::FinWait1)
    } else if is_text(text, "FIN-WAIT-2") {
        Some(State::FinWait2)
    } else if is_text(text, "CLOSE-WAIT") {
        Some(State::CloseWait)
    } else if is_text(text, "CLOSING") {
        Some(State::Closing)
    } else if is_text(text, "LAST-ACK") {
        Some(State::LastAck)
    } else if is_text(text, "TIME-WAIT") {
        Some(State::TimeWait)
    } else {
        None
    }
}

/// The next field, the name of a state. The error is Field if it is missing or is no name.
pub(crate) fn state(fields: &mut Fields) -> Result<State, TextFault>
    ensures { Gives (λ state. (state, fields.new)) result (kind_field state_name all_states fields.old) }
{
    let name = fields.next()?;
    match state_named(name.text) {
        Some(state) => Ok(state),
        None => Err(name.fault(FaultKind::Field)),
    }
}
