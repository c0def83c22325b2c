//! The answers of a listener, and an endpoint that is accepted.

ghost use Rattle.spec_tcp.specs.Bounds.{HasRoom};
ghost use Rattle.spec_tcp.specs.Calls.Accept.{ended_allows, listener_allows, open_allows, open_shut_allows};
ghost use Rattle.spec_tcp.specs.Forgetting.{forget_endpoint};
ghost use Rattle.std.specs.Prelude.{◌≡◌, None, not};

use crate::calls::is_not_connected;
use case_forms::{Answer, Call, State, Version};
use spec_tcp::{Endpoint, Listener, Queue};

/// Whether a call on a live socket number of a listener may have this answer now, in a text of this version. From
/// version 6 on, `shut` may have ended the listener.
pub fn listener_allows(version: Version, listener: &Listener, call: &Call, answer: &Answer) -> bool
    ensures { result
        ≡ listener_allows version (not listener.now.is_open) listener.now.queue call.now answer.now }
{
    if version.says_sender() && !listener.is_open {
        ended_allows(call, answer)
    } else {
        open_allows(version, &listener.queue, call, answer)
    }
}

// A listener that `shut` ended is CLOSED (RFC 9293, 3.10.2 to 3.10.6).
fn ended_allows(call: &Call, answer: &Answer) -> bool
    ensures { result ≡ ended_allows call.now answer.now }
{
    match call {
        Call::Accept(_) | Call::Await(_) | Call::Send(..) | Call::Recv(..) | Call::Shut(_) => {
            is_not_connected(answer)
        }
        Call::Close(_) | Call::Abort(_) => matches!(answer, Answer::Done),
        Call::Status(_) => matches!(answer, Answer::State(State::Closed)),
        Call::Listen(..) | Call::Connect(..) => false,
    }
}

fn open_allows(version: Version, queue: &Queue, call: &Call, answer: &Answer) -> bool
    ensures { result ≡ open_allows version queue.now call.now answer.now }
{
    match call {
        Call::Accept(_) => match queue.first() {
            Some(_) => matches!(answer, Answer::Given(_)),
            None => matches!(answer, Answer::Again),
        },
        Call::Await(_) | Call::Send(..) | Call::Recv(..) => is_not_connected(answer),
        Call::Shut(_) => open_shut_allows(version, answer),
        Call::Close(_) | Call::Abort(_) => matches!(answer, Answer::Done),
        Call::Status(_) => matches!(answer, Answer::State(State::Listen)),
        Call::Listen(..) | Call::Connect(..) => false,
    }
}

/// Whether `shut` of an open listener may have this answer, in a text of this version: from version 6 on, it may end
/// the listener (RFC 9293, 3.10.4).
pub fn open_shut_allows(version: Version, answer: &Answer) -> bool
    ensures { result ≡ open_shut_allows version answer.now }
{
    match answer {
        Answer::NotConn => true,
        Answer::Done => version.says_sender(),
        Answer::Given(_)
        | Answer::Bytes(_)
        | Answer::Again
        | Answer::Eof
        | Answer::Closed
        | Answer::Refused
        | Answer::Reset
        | Answer::Timeout
        | Answer::InUse
        | Answer::BadSocket
        | Answer::State(_) => false,
    }
}

/// A child is accepted: it no longer belongs to its listener.
pub fn accept(endpoint: &mut Endpoint)
    requires { HasRoom endpoint.old }
    ensures { endpoint.new ≡ forget_endpoint (record endpoint.old { listener = None }) }
{
    endpoint.listener = None;
}
