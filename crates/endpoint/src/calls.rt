//! Which answers socket calls may have at one endpoint (RFC 9293, 3.10.1 to 3.10.6).
//!
//! - `accept`: the answers at a listener, and an endpoint that is accepted
//! - `send`, `receive`: SEND and RECEIVE, and the endpoint afterwards
//! - `close`: CLOSE and ABORT, and the endpoint afterwards

ghost use Rattle.spec_tcp.specs.Calls.Await.{await_allows, is_not_connected, tells, tells_fault, is_closed_answer};
ghost use Rattle.spec_tcp.specs.Calls.{endpoint_allows};
ghost use Rattle.spec_tcp.specs.Same.{same_state};
ghost use Rattle.std.specs.Prelude.{◌≡◌};

pub(crate) mod accept;
pub(crate) mod close;
pub(crate) mod receive;
pub(crate) mod send;

use crate::calls::close::shut_allows;
use crate::calls::receive::recv_allows;
use crate::calls::send::send_allows;
use case_forms::{Answer, Call, State, Version};
use spec_tcp::{Endpoint, Fault};

/// Whether a call on a live socket number of an endpoint may have this answer now, in a text of this version.
pub fn endpoint_allows(version: Version, endpoint: &Endpoint, call: &Call, answer: &Answer) -> bool
    ensures { result ≡ endpoint_allows version endpoint.now call.now answer.now }
{
    match call {
        Call::Await(_) => await_allows(endpoint, answer),
        Call::Accept(_) => is_not_connected(answer),
        Call::Send(_, bytes) => send_allows(version, endpoint, bytes.as_slice(), answer),
        Call::Recv(_, most) => recv_allows(version, endpoint, *most, answer),
        Call::Shut(_) => shut_allows(version, endpoint, answer),
        Call::Close(_) | Call::Abort(_) => matches!(answer, Answer::Done),
        Call::Status(_) => match answer {
            Answer::State(told) => is_state(*told, endpoint.state),
            Answer::Done
            | Answer::Given(_)
            | Answer::Bytes(_)
            | Answer::Again
            | Answer::Eof
            | Answer::Closed
            | Answer::NotConn
            | Answer::Refused
            | Answer::Reset
            | Answer::Timeout
            | Answer::InUse
            | Answer::BadSocket => false,
        },
        Call::Listen(..) | Call::Connect(..) => false,
    }
}

fn tells(fault: Fault, answer: &Answer) -> bool
    ensures { result ≡ tells fault answer.now }
{
    match fault {
        Fault::Refused => matches!(answer, Answer::Refused),
        Fault::Reset => matches!(answer, Answer::Reset),
        Fault::Timeout => matches!(answer, Answer::Timeout),
    }
}

pub(crate) fn tells_fault(endpoint: &Endpoint, answer: &Answer) -> bool
    ensures { result ≡ tells_fault endpoint.now answer.now }
{
    match endpoint.fault {
        Some(fault) => tells(fault, answer),
        None => false,
    }
}

fn await_allows(endpoint: &Endpoint, answer: &Answer) -> bool
    ensures { result ≡ await_allows endpoint.now answer.now }
{
    match answer {
        Answer::Done => endpoint.fault.is_none() && endpoint.is_up(),
        Answer::Again => endpoint.fault.is_none() && !endpoint.is_up(),
        Answer::Given(_)
        | Answer::Bytes(_)
        | Answer::Eof
        | Answer::Closed
        | Answer::NotConn
        | Answer::Refused
        | Answer::Reset
        | Answer::Timeout
        | Answer::InUse
        | Answer::BadSocket
        | Answer::State(_) => tells_fault(endpoint, answer),
    }
}

pub(crate) fn is_not_connected(answer: &Answer) -> bool
    ensures { result ≡ is_not_connected answer.now }
{
    matches!(answer, Answer::NotConn)
}

pub(crate) fn is_closed_answer(answer: &Answer) -> bool
    ensures { result ≡ is_closed_answer answer.now }
{
    matches!(answer, Answer::Closed)
}

fn is_state(told: State, state: State) -> bool
    ensures { result ≡ same_state told state }
{
    told == state
}
