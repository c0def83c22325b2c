//! The answer that a call has now, if it has one: never `again`.

ghost use Rattle.std.specs.Prelude.{◌≡◌, ℕ, true, false, is_some, slice_get, Some, IfNone, IfOk};
ghost use Rattle.std.specs.Option.{IfSome};
ghost use Rattle.case_forms.specs.declared.calls.Answer.TheVariants as answers;
ghost use Rattle.spec_tcp.specs.HostTcp.{has_ended, queue_of};
ghost use Rattle.spec_tcp.specs.Calls.{call_allows, socket_allows};
ghost use Rattle.spec_tcp.specs.Calls.Accept.{ended_allows, listener_allows, open_allows};
ghost use Rattle.spec_tcp.specs.Machine.{gives};
ghost use Rattle.stack_core.specs.Answers.{IsNamed, IsOnSocket, Waits, WaitsAt, is_again};
ghost use Rattle.stack_core.specs.Cores.{IsCallWithin};

mod connected;

use crate::answers::connected::at_endpoint;
use case_forms::{Answer, Call, OutOfMemory, State, Version};
use endpoint_state::HostTcp;
use recording_parts::on_no_socket;
use spec_tcp::SocketTarget;
use std::alloc::Global;

/// The answer of a call at the host that it means, in a text of this version; it may give the next socket number. A
/// send is answered with the number of bytes that the ring has room for, at least one. None: the call waits. The error
/// is that memory ran out.
pub(crate) fn choose(
    alloc: Global,
    version: Version,
    body: &HostTcp,
    call: &Call,
    next: u32,
    ring: u16,
) -> Result<Option<Answer>, OutOfMemory>
    requires named { IsNamed body.now }
    requires within { IsCallWithin call.now }
    ensures some { IfOk result (λ o. IfSome o (λ a. call_allows version body.now call.now a ≡ true)) }
    ensures once { IfOk result (λ o. IfSome o (λ a. is_again a ≡ false)) }
    ensures gives { IfOk result (λ o. IfSome o (λ a. (n : ℕ) → gives call.now a ≡ Some n → n ≡ next)) }
    ensures none { IfOk result (λ o. IfNone o (Waits version ring body.now call.now)) }
{
    match call {
        Call::Listen(_, port, _) => Ok(Some(if body.is_listening(*port) {
            Answer::InUse
        } else {
            Answer::Given(next)
        })),
        Call::Connect(_, lport, rport) => Ok(Some(if body.is_connected(*lport, *rport) {
            Answer::InUse
        } else {
            Answer::Given(next)
        })),
        Call::Await(number)
        | Call::Accept(number)
        | Call::Send(number, _)
        | Call::Recv(number, _)
        | Call::Shut(number)
        | Call::Close(number)
        | Call::Abort(number)
        | Call::Status(number) => on_socket(alloc, version, body, *number, call, next, ring),
    }
}

// The same for a call on a socket number.
fn on_socket(
    alloc: Global,
    version: Version,
    body: &HostTcp,
    number: u32,
    call: &Call,
    next: u32,
    ring: u16,
) -> Result<Option<Answer>, OutOfMemory>
    requires named { IsNamed body.now }
    requires within { IsCallWithin call.now }
    requires socket { IsOnSocket call.now }
    ensures some { IfOk result (λ o. IfSome o (λ a. socket_allows version body.now number call.now a ≡ true)) }
    ensures once { IfOk result (λ o. IfSome o (λ a. is_again a ≡ false)) }
    ensures gives { IfOk result (λ o. IfSome o (λ a. (n : ℕ) → gives call.now a ≡ Some n → n ≡ next)) }
    ensures none { IfOk result (λ o. IfNone o ((socket_allows version body.now number call.now answers.Again ≡ true)
        × WaitsAt ring body.now number call.now)) }
{
    match body.target(number) {
        None => Ok(on_no_socket()),
        Some(SocketTarget::ListenerAt(place)) => Ok(at_listener(version, body, place, call, next)),
        Some(SocketTarget::EndpointAt(place)) => match body.endpoint_at(place) {
            Some(endpoint) => at_endpoint(alloc, version, endpoint, call, ring),
            // The number is live, so its endpoint exists.
            None => unreachable!(),
        },
    }
}

// The same for a call on a listener.
fn at_listener(
    version: Version,
    body: &HostTcp,
    place: u32,
    call: &Call,
    next: u32,
) -> Option<Answer>
    requires socket { IsOnSocket call.now }
    ensures some { IfSome result (λ a.
        listener_allows version (has_ended body.now place) (queue_of body.now place) call.now a ≡ true) }
    ensures once { IfSome result (λ a. is_again a ≡ false) }
    ensures gives { IfSome result (λ a. (n : ℕ) → gives call.now a ≡ Some n → n ≡ next) }
    ensures none { IfNone result
        (listener_allows version (has_ended body.now place) (queue_of body.now place) call.now answers.Again ≡ true) }
{
    if version.says_sender() && has_ended(body, place) {
        Some(at_ended(call))
    } else {
        at_open(version, body, place, call, next)
    }
}

// The same for one that `shut` ended.
fn at_ended(call: &Call) -> Answer
    requires socket { IsOnSocket call.now }
    ensures some { ended_allows call.now result ≡ true }
    ensures once { is_again result ≡ false }
    ensures gives { (n : ℕ) → gives call.now result ≡ Some n → ⊥ }
{
    match call {
        Call::Close(_) | Call::Abort(_) => Answer::Done,
        Call::Status(_) => Answer::State(State::Closed),
        Call::Accept(_) | Call::Await(_) | Call::Send(_, _) | Call::Recv(_, _) | Call::Shut(_) => {
            Answer::NotConn
        }
        Call::Listen(_, _, _) | Call::Connect(_, _, _) => unreachable!(),
    }
}

// The same for an open one.
fn at_open(version: Version, body: &HostTcp, place: u32, call: &Call, next: u32) -> Option<Answer>
    requires socket { IsOnSocket call.now }
    ensures some { IfSome result (λ a. open_allows version (queue_of body.now place) call.now a ≡ true) }
    ensures once { IfSome result (λ a. is_again a ≡ false) }
    ensures gives { IfSome result (λ a. (n : ℕ) → gives call.now a ≡ Some n → n ≡ next) }
    ensures none { IfNone result (open_allows version (queue_of body.now place) call.now answers.Again ≡ true) }
{
    match call {
        Call::Accept(_) => {
            if has_child(body, place) {
                Some(Answer::Given(next))
            } else {
                None
            }
        }
        Call::Close(_) | Call::Abort(_) => Some(Answer::Done),
        Call::Status(_) => Some(Answer::State(State::Listen)),
        Call::Await(_) | Call::Send(_, _) | Call::Recv(_, _) | Call::Shut(_) => {
            Some(Answer::NotConn)
        }
        Call::Listen(_, _, _) | Call::Connect(_, _, _) => unreachable!(),
    }
}

// Whether `shut` ended a listener.
fn has_ended(body: &HostTcp, place: u32) -> bool
    ensures { result ≡ has_ended body.now place }
{
    match body.listener_at(place) {
        Some(listener) => !listener.is_open,
        None => false,
    }
}

// Whether a child is in a listener's queue.
fn has_child(body: &HostTcp, place: u32) -> bool
    ensures { result ≡ is_some (slice_get (queue_of body.now place) 0) }
{
    match body.listener_at(place) {
        Some(listener) => listener.queue.first().is_some(),
        None => false,
    }
}
