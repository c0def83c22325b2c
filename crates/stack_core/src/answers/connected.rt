//! The answer that a call has at an endpoint (RFC 9293, 3.9.1 and 3.10).

ghost use Rattle.std.specs.Prelude.{◌≡◌, ◌≤◌, ℕ, nat_lt, true, false, length, Some, IfNone, IfOk};
ghost use Rattle.std.specs.Option.{IfSome};
ghost use Rattle.case_forms.specs.declared.calls.Answer.TheVariants as answers;
ghost use Rattle.spec_tcp.specs.Calls.{endpoint_allows};
ghost use Rattle.spec_tcp.specs.Calls.Await.{await_allows, tells};
ghost use Rattle.spec_tcp.specs.Calls.Close.{shut_allows};
ghost use Rattle.spec_tcp.specs.Calls.Receive.{recv_allows};
ghost use Rattle.spec_tcp.specs.Calls.Send.{send_allows, sends_some};
ghost use Rattle.spec_tcp.specs.Machine.{gives};
ghost use Rattle.streams.specs.Received.{waiting};
ghost use Rattle.stack_core.specs.Answers.{IfSendWaits, IsOnSocket, SendWaits, is_again, unacknowledged};
ghost use Rattle.stack_core.specs.Cores.{IsCallWithin};

use case_forms::{Answer, Call, OutOfMemory, State, Version};
use endpoint_state::Endpoint;
use segment::Bytes;
use spec_tcp::Fault;
use std::alloc::Global;

/// The answer of a call on a socket number of this endpoint. None: the call waits. The error is that memory ran out.
pub(crate) fn at_endpoint(
    alloc: Global,
    version: Version,
    endpoint: &Endpoint,
    call: &Call,
    ring: u16,
) -> Result<Option<Answer>, OutOfMemory>
    requires within { IsCallWithin call.now }
    requires socket { IsOnSocket call.now }
    ensures some { IfOk result (λ o. IfSome o (λ a. endpoint_allows version endpoint.now call.now a ≡ true)) }
    ensures once { IfOk result (λ o. IfSome o (λ a. is_again a ≡ false)) }
    ensures gives { IfOk result (λ o. IfSome o (λ a. (n : ℕ) → gives call.now a ≡ Some n → ⊥)) }
    ensures none { IfOk result (λ o. IfNone o ((endpoint_allows version endpoint.now call.now answers.Again ≡ true)
        × IfSendWaits ring endpoint.now call.now)) }
{
    match call {
        Call::Await(_) => Ok(await_answer(endpoint)),
        Call::Accept(_) => Ok(Some(Answer::NotConn)),
        Call::Send(_, bytes) => Ok(send_answer(version, endpoint, bytes, ring)),
        Call::Recv(_, most) => recv_answer(alloc, version, endpoint, *most),
        Call::Shut(_) => Ok(Some(shut_answer(version, endpoint))),
        Call::Close(_) | Call::Abort(_) => Ok(Some(Answer::Done)),
        Call::Status(_) => Ok(Some(Answer::State(endpoint.state))),
        Call::Listen(_, _, _) | Call::Connect(_, _, _) => unreachable!(),
    }
}

// How the endpoint failed.
fn fault_answer(fault: Fault) -> Answer
    ensures tells { tells fault result ≡ true }
    ensures once { is_again result ≡ false }
{
    match fault {
        Fault::Refused => Answer::Refused,
        Fault::Reset => Answer::Reset,
        Fault::Timeout => Answer::Timeout,
    }
}

fn await_answer(endpoint: &Endpoint) -> Option<Answer>
    ensures some { IfSome result (λ a. await_allows endpoint.now a ≡ true) }
    ensures once { IfSome result (λ a. is_again a ≡ false) }
    ensures none { IfNone result (await_allows endpoint.now answers.Again ≡ true) }
{
    match endpoint.fault {
        Some(fault) => Some(fault_answer(fault)),
        None => {
            if endpoint.is_up() {
                Some(Answer::Done)
            } else {
                None
            }
        }
    }
}

fn shut_answer(version: Version, endpoint: &Endpoint) -> Answer
    ensures allowed { shut_allows version endpoint.now result ≡ true }
    ensures once { is_again result ≡ false }
{
    match endpoint.fault {
        Some(fault) => fault_answer(fault),
        None => {
            if endpoint.state.is_syn_sent() {
                Answer::NotConn
            } else {
                Answer::Done
            }
        }
    }
}

fn send_answer(version: Version, endpoint: &Endpoint, bytes: &Bytes, ring: u16) -> Option<Answer>
    requires some { 1 ≤ length bytes.now }
    ensures some { IfSome result (λ a. send_allows version endpoint.now bytes.now a ≡ true) }
    ensures once { IfSome result (λ a. is_again a ≡ false) }
    ensures none { IfNone result ((send_allows version endpoint.now bytes.now answers.Again ≡ true)
        × SendWaits ring endpoint.now) }
{
    match endpoint.fault {
        Some(fault) => Some(fault_answer(fault)),
        None => {
            if endpoint.stream.ended {
                return Some(Answer::Closed);
            }
            match endpoint.state {
                State::SynSent | State::SynReceived => None,
                State::Established | State::CloseWait => room_answer(endpoint, bytes, ring),
                _ => Some(Answer::Closed),
            }
        }
    }
}

// As many bytes as the ring has room for. None: it has none.
fn room_answer(endpoint: &Endpoint, bytes: &Bytes, ring: u16) -> Option<Answer>
    requires some { 1 ≤ length bytes.now }
    ensures some { IfSome result (λ a. sends_some bytes.now a ≡ true) }
    ensures once { IfSome result (λ a. is_again a ≡ false) }
    ensures none { IfNone result (ring ≤ unacknowledged endpoint.now) }
{
    let waiting = unacknowledged(endpoint);
    if u64::from(ring) <= waiting {
        return None;
    }
    let room = ring as usize - waiting as usize;
    Some(Answer::Given(room.min(bytes.len()) as u32))
}

fn unacknowledged(endpoint: &Endpoint) -> u64
    ensures { result ≡ unacknowledged endpoint.now }
{
    endpoint
        .stream
        .accepted
        .end()
        .saturating_sub(endpoint.stream.snd_una.max(1))
}

fn recv_answer(
    alloc: Global,
    version: Version,
    endpoint: &Endpoint,
    most: u16,
) -> Result<Option<Answer>, OutOfMemory>
    requires most { 1 ≤ most }
    ensures some { IfOk result (λ o. IfSome o (λ a. recv_allows version endpoint.now most a ≡ true)) }
    ensures once { IfOk result (λ o. IfSome o (λ a. is_again a ≡ false)) }
    ensures none { IfOk result (λ o. IfNone o (recv_allows version endpoint.now most answers.Again ≡ true)) }
{
    if endpoint.stream.receive.has_waiting() {
        return Ok(Some(read_answer(alloc, version, endpoint, most)?));
    }
    if endpoint.stream.receive.is_ended() {
        return Ok(Some(Answer::Eof));
    }
    match endpoint.fault {
        Some(fault) => Ok(Some(fault_answer(fault))),
        None => Ok(None),
    }
}

// The bytes that wait, as many as were requested.
#[tactic(auto, using(crate::proofs::AnswerLemmas::read_allowed))]
fn read_answer(
    alloc: Global,
    version: Version,
    endpoint: &Endpoint,
    most: u16,
) -> Result<Answer, OutOfMemory>
    requires most { 1 ≤ most }
    requires waiting { nat_lt 0 (length (waiting endpoint.now.stream.receive)) ≡ true }
    ensures allowed { IfOk result (λ a. recv_allows version endpoint.now most a ≡ true) }
    ensures once { IfOk result (λ a. is_again a ≡ false) }
{
    let bytes = endpoint.stream.receive.read(alloc, most as usize)?;
    Ok(Answer::Bytes(Bytes::from(bytes)))
}
