//! Which endpoints of a host a step may change, besides one that it creates.

ghost use Rattle.std.specs.Prelude.{◌≡◌};
ghost use Rattle.std.specs.Option.{option_copied, option_map_or};
ghost use Rattle.spec_tcp.specs.HostTcp.{place_of, queue_of};
ghost use Rattle.stack_core.specs.declared.deadline_queue.Affected.TheVariants.{Nobody};
ghost use Rattle.stack_core.specs.Cores.{own_body, world};
ghost use Rattle.stack_core.specs.Affected.{affected_by_call, affected_by_effect, affected_by_end, affected_in_queue};
ghost use Rattle.stack_core.specs.Affected.{affected_target, affected_at};

use crate::deadline_queue::Affected;
use crate::host_core::HostCore;
use case_forms::Call;
use endpoint_state::HostTcp;
use spec_tcp::SocketTarget;

impl HostCore {
    // The endpoint of these ports, its own and the peer's.
    pub(crate) fn affected_at(&self, lport: u16, rport: u16) -> Affected
        ensures { result ≡ affected_at (place_of (own_body self.now) lport rport) }
    {
        affected_at(self.recording.body().place_of(lport, rport))
    }

    // What the effect of a thread's open call may change.
    pub(crate) fn affected_by_thread(&self, thread: u32) -> Affected
        ensures { result ≡ affected_by_effect self.now.recorded.me (world self.now) thread }
    {
        let pending = self.recording.pending_call(thread);
        affected_by_effect(self.recording.body(), pending)
    }
}

fn affected_at(place: Option<u32>) -> Affected
    ensures { result ≡ affected_at place }
{
    match place {
        Some(place) => Affected::Place(place),
        None => Affected::Nobody,
    }
}

fn affected_by_effect(body: &HostTcp, call: Option<&Call>) -> Affected
    ensures { result ≡ option_map_or (affected_by_call body.now) (option_copied call.entry) Nobody }
{
    match call {
        Some(call) => affected_by_call(body, call),
        None => Affected::Nobody,
    }
}

// What the effect of a call may change: the endpoint of its socket number, the child that is accepted, or the children
// of a listener that ends.
fn affected_by_call(body: &HostTcp, call: &Call) -> Affected
    ensures { result ≡ affected_by_call body.now call.now }
{
    match call {
        Call::Accept(number) => match body.target(*number) {
            Some(SocketTarget::ListenerAt(place)) => affected_in_queue(body, place),
            Some(SocketTarget::EndpointAt(_)) | None => Affected::Nobody,
        },
        Call::Send(number, _) | Call::Recv(number, _) => affected_target(body.target(*number)),
        Call::Shut(number) | Call::Close(number) | Call::Abort(number) => {
            affected_by_end(body.target(*number))
        }
        Call::Listen(_, _, _) | Call::Connect(_, _, _) | Call::Await(_) | Call::Status(_) => {
            Affected::Nobody
        }
    }
}

fn affected_in_queue(body: &HostTcp, place: u32) -> Affected
    ensures { result ≡ affected_in_queue (queue_of body.now place) }
{
    let Some(listener) = body.listener_at(place) else {
        return Affected::Nobody;
    };
    match listener.queue.first() {
        Some(child) => Affected::Place(child),
        None => Affected::Nobody,
    }
}

fn affected_target(target: Option<SocketTarget>) -> Affected
    ensures { result ≡ option_map_or affected_target target Nobody }
{
    match target {
        Some(SocketTarget::EndpointAt(place)) => Affected::Place(place),
        Some(SocketTarget::ListenerAt(_)) | None => Affected::Nobody,
    }
}

fn affected_by_end(target: Option<SocketTarget>) -> Affected
    ensures { result ≡ option_map_or affected_by_end target Nobody }
{
    match target {
        Some(SocketTarget::EndpointAt(place)) => Affected::Place(place),
        Some(SocketTarget::ListenerAt(_)) => Affected::All,
        None => Affected::Nobody,
    }
}
