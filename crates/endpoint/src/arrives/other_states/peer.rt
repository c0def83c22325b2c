//! Whose segment it is.

ghost use Rattle.spec_tcp.specs.Arrives.OtherStates.Peer.{is_from_peer};
ghost use Rattle.spec_tcp.specs.Same.{same_endpoint};
ghost use Rattle.std.specs.Option.{option_map_or};
ghost use Rattle.std.specs.Prelude.{◌≡◌, false, true};

use crate::same::same_endpoint;
use spec_tcp::{Arrived, Endpoint, EndpointId};

/// Whether the peer built it for this endpoint, or before it knew its peer. A reset in answer to a segment belongs to
/// the endpoint that built that segment.
pub(crate) fn is_from_peer(me: EndpointId, endpoint: &Endpoint, m: &Arrived<'_>) -> bool
    ensures { result ≡ is_from_peer me endpoint.now m.now }
{
    if m.is_reset_reply() {
        return same_endpoint(m.sender(), me);
    }
    is_peer(endpoint, m.sender()) && may_be_for(m, me)
}

fn is_peer(endpoint: &Endpoint, sender: EndpointId) -> bool
    ensures { result ≡ option_map_or (λ peer. same_endpoint peer sender) endpoint.now.stream.peer false }
{
    match endpoint.stream.peer {
        Some(peer) => same_endpoint(peer, sender),
        None => false,
    }
}

fn may_be_for(m: &Arrived<'_>, me: EndpointId) -> bool
    ensures { result ≡ option_map_or (λ peer_at_send. same_endpoint peer_at_send me) m.now.peer_at_send true }
{
    match m.peer_at_send() {
        Some(peer_at_send) => same_endpoint(peer_at_send, me),
        None => true,
    }
}
