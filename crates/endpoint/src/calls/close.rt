//! CLOSE and ABORT: their answers, and the endpoint afterwards.

ghost use Rattle.spec_tcp.specs.Bounds.{HasRoom};
ghost use Rattle.spec_tcp.specs.Calls.Close.{after_shut, after_close, shut_down, after_abort, orphaned, ended_state};
ghost use Rattle.spec_tcp.specs.Calls.Close.{is_shut_already, resets_at_abort, shut_allows};
ghost use Rattle.spec_tcp.specs.Forgetting.{forget_endpoint};
ghost use Rattle.std.specs.Prelude.{◌≡◌};

use crate::calls::tells_fault;
use case_forms::{Answer, State, Version};
use spec_tcp::Endpoint;

// Sending was ended, or the endpoint is CLOSED: from version 6 on, `shut` may say so (RFC 9293, 3.10.4).
fn is_shut_already(version: Version, endpoint: &Endpoint) -> bool
    ensures { result ≡ is_shut_already version endpoint.now }
{
    version.says_sender() && (endpoint.stream.ended || endpoint.state.is_closed())
}

pub(crate) fn shut_allows(version: Version, endpoint: &Endpoint, answer: &Answer) -> bool
    ensures { result ≡ shut_allows version endpoint.now answer.now }
{
    match answer {
        Answer::Done => {
            endpoint.fault.is_none() && (version.says_sender() || !endpoint.state.is_syn_sent())
        }
        Answer::NotConn => {
            endpoint.fault.is_some()
                || endpoint.state.is_syn_sent()
                || is_shut_already(version, endpoint)
        }
        Answer::Given(_)
        | Answer::Bytes(_)
        | Answer::Again
        | Answer::Eof
        | Answer::Closed
        | Answer::Refused
        | Answer::Reset
        | Answer::Timeout
        | Answer::InUse
        | Answer::BadSocket
        | Answer::State(_) => tells_fault(endpoint, answer),
    }
}

/// `shut`: sending is ended, and a FIN is to be sent (RFC 9293, 3.10.4). An endpoint in SYN-SENT becomes CLOSED.
pub fn shut(endpoint: &mut Endpoint)
    requires { HasRoom endpoint.old }
    ensures { endpoint.new ≡ forget_endpoint (after_shut endpoint.old) }
{
    end_sending(endpoint);
}

/// `close`: sending is ended, and the socket number is no longer live. An endpoint in SYN-SENT becomes CLOSED.
pub fn close(endpoint: &mut Endpoint)
    requires { HasRoom endpoint.old }
    ensures { endpoint.new ≡ forget_endpoint (after_close endpoint.old) }
{
    end_sending(endpoint);
    endpoint.closed = true;
}

/// `abort`: the endpoint is CLOSED at once, and a reset is due if the peer may know of it (RFC 9293, 3.10.5).
pub fn abort(endpoint: &mut Endpoint)
    requires { HasRoom endpoint.old }
    ensures { endpoint.new ≡ forget_endpoint (after_abort endpoint.old) }
{
    end_at_once(endpoint);
}

/// The listener at this place is closed: its children that were not accepted are aborted, any other endpoint stays
/// unchanged.
pub fn orphan(listener: u32, endpoint: &mut Endpoint)
    requires { HasRoom endpoint.old }
    ensures { endpoint.new ≡ forget_endpoint (orphaned listener endpoint.old) }
{
    if endpoint.listener == Some(listener) {
        end_at_once(endpoint);
    }
}

/// CLOSED: all timers are off.
pub(crate) fn shut_down(endpoint: &mut Endpoint)
    ensures { endpoint.new ≡ shut_down endpoint.old }
{
    endpoint.state = State::Closed;
    endpoint.timers.stop_all();
}

fn ended_state(state: State) -> State
    ensures { result ≡ ended_state state }
{
    match state {
        State::Established => State::FinWait1,
        State::CloseWait => State::LastAck,
        State::Closed
        | State::Listen
        | State::SynSent
        | State::SynReceived
        | State::FinWait1
        | State::FinWait2
        | State::Closing
        | State::LastAck
        | State::TimeWait => state,
    }
}

fn end_sending(endpoint: &mut Endpoint)
    ensures { endpoint.new ≡ after_shut endpoint.old }
{
    endpoint.stream.ended = true;
    if endpoint.state.is_syn_sent() {
        shut_down(endpoint);
    } else {
        endpoint.state = ended_state(endpoint.state);
    }
}

fn resets_at_abort(state: State) -> bool
    ensures { result ≡ resets_at_abort state }
{
    matches!(
        state,
        State::SynReceived
            | State::Established
            | State::FinWait1
            | State::FinWait2
            | State::CloseWait
    )
}

fn end_at_once(endpoint: &mut Endpoint)
    ensures { endpoint.new ≡ after_abort endpoint.old }
{
    let reset_due = endpoint.reset_due || resets_at_abort(endpoint.state);
    shut_down(endpoint);
    endpoint.reset_due = reset_due;
}
