//! SEND: its answers, and the endpoint afterwards.

ghost use Rattle.spec_tcp.specs.Bounds.{HasRoom};
ghost use Rattle.spec_tcp.specs.Calls.Send.{after_send, sends_some, open_send_allows, send_allows};
ghost use Rattle.spec_tcp.specs.Forgetting.{forget_endpoint};
ghost use Rattle.std.specs.Prelude.{◌≡◌, OnOk, OnErr, take};

use crate::calls::{is_closed_answer, is_not_connected, tells_fault};
use case_forms::{Answer, State, Version};
use segment::OutOfMemory;
use spec_tcp::Endpoint;

fn sends_some(bytes: &[u8], answer: &Answer) -> bool
    ensures { result ≡ sends_some bytes.now answer.now }
{
    match answer {
        Answer::Given(count) => 1 <= *count && *count as usize <= bytes.len(),
        Answer::Again => true,
        Answer::Done
        | Answer::Bytes(_)
        | Answer::Eof
        | Answer::Closed
        | Answer::NotConn
        | Answer::Refused
        | Answer::Reset
        | Answer::Timeout
        | Answer::InUse
        | Answer::BadSocket
        | Answer::State(_) => false,
    }
}

fn open_send_allows(state: State, bytes: &[u8], answer: &Answer) -> bool
    ensures { result ≡ open_send_allows state bytes.now answer.now }
{
    match state {
        State::SynSent | State::SynReceived => {
            is_not_connected(answer) || sends_some(bytes, answer)
        }
        State::Established | State::CloseWait => sends_some(bytes, answer),
        State::Closed
        | State::Listen
        | State::FinWait1
        | State::FinWait2
        | State::Closing
        | State::LastAck
        | State::TimeWait => is_closed_answer(answer),
    }
}

pub(crate) fn send_allows(
    version: Version,
    endpoint: &Endpoint,
    bytes: &[u8],
    answer: &Answer,
) -> bool
    ensures { result ≡ send_allows version endpoint.now bytes.now answer.now }
{
    if endpoint.fault.is_some() {
        return tells_fault(endpoint, answer)
            || ((version.says_sender() || endpoint.stream.ended) && is_closed_answer(answer));
    }
    if endpoint.stream.ended {
        return is_closed_answer(answer);
    }
    open_send_allows(endpoint.state, bytes, answer)
}

/// Accepts the first bytes of a `send`, this many; all of them if there are no more. If memory runs out, the endpoint
/// doesn't change.
pub fn send(endpoint: &mut Endpoint, bytes: &[u8], count: u32) -> Result<(), OutOfMemory>
    requires { HasRoom endpoint.old }
    ensures ok { OnOk result (endpoint.new ≡ forget_endpoint (after_send bytes.now count endpoint.old)) }
    ensures err { OnErr result (endpoint.new ≡ endpoint.old) }
{
    let snd_una = endpoint.stream.snd_una;
    endpoint.stream.accepted.accept(first_bytes(bytes, count))?;
    endpoint.stream.accepted.forget_below(snd_una);
    Ok(())
}

fn first_bytes(bytes: &[u8], count: u32) -> &[u8]
    ensures { result.now ≡ take count bytes.now }
{
    let count = bytes.len().min(count as usize);
    &bytes[..count]
}
