//! RECEIVE: its answers, and the endpoint afterwards.

ghost use Rattle.spec_tcp.specs.Bounds.{HasRoom};
ghost use Rattle.spec_tcp.specs.Calls.Receive.{after_recv, is_read_out, is_unconnected, recv_allows};
ghost use Rattle.spec_tcp.specs.Forgetting.{forget_endpoint};
ghost use Rattle.std.specs.Prelude.{◌≡◌, ◌≤◌, length};
ghost use Rattle.streams.specs.Received.{waiting};

use crate::calls::tells_fault;
use case_forms::{Answer, Version};
use spec_tcp::Endpoint;

fn is_read_out(endpoint: &Endpoint) -> bool
    ensures { result ≡ is_read_out endpoint.now }
{
    endpoint.stream.receive.is_ended() && !endpoint.stream.receive.has_waiting()
}

// There is no connection: none yet, or from version 6 on, one that failed (RFC 9293, 3.10.3).
fn is_unconnected(version: Version, endpoint: &Endpoint) -> bool
    ensures { result ≡ is_unconnected version endpoint.now }
{
    if endpoint.fault.is_some() {
        version.says_sender()
    } else {
        !endpoint.is_up()
    }
}

pub(crate) fn recv_allows(version: Version, endpoint: &Endpoint, most: u16, answer: &Answer) -> bool
    ensures { result ≡ recv_allows version endpoint.now most answer.now }
{
    match answer {
        Answer::Bytes(bytes) => {
            1 <= bytes.len()
                && bytes.len() <= most as usize
                && endpoint.stream.receive.starts_with(bytes.as_slice())
        }
        Answer::Eof => is_read_out(endpoint),
        Answer::Again => {
            endpoint.fault.is_none()
                && !endpoint.stream.receive.has_waiting()
                && !is_read_out(endpoint)
        }
        Answer::NotConn => is_unconnected(version, endpoint),
        Answer::Done
        | Answer::Given(_)
        | Answer::Closed
        | Answer::Refused
        | Answer::Reset
        | Answer::Timeout
        | Answer::InUse
        | Answer::BadSocket
        | Answer::State(_) => tells_fault(endpoint, answer),
    }
}

/// Delivers and discards the bytes of a `recv`, which are the next waiting ones.
pub fn deliver(endpoint: &mut Endpoint, bytes: &[u8])
    requires room { HasRoom endpoint.old }
    requires waiting { length bytes.now ≤ length (waiting endpoint.old.stream.receive) }
    ensures { endpoint.new ≡ forget_endpoint (after_recv bytes.now endpoint.old) }
{
    endpoint.stream.receive.deliver(bytes.len());
}
