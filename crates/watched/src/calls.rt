//! What duties read of the world at the effect of a call.
//! `lib.rt` says why functions here are inlined.

ghost use Rattle.std.specs.Prelude.{◌≡◌, ◌<◌, ◌^◌, if◌then◌else◌, length, IsTrue, None, Some};
ghost use Rattle.case_forms.specs.declared.calls.Answer.{Answer};
ghost use Rattle.case_forms.specs.declared.calls.Host.TheVariants.{Zero, One};
ghost use Rattle.case_forms.specs.declared.trace.Header.{Header};
ghost use Rattle.spec_network.specs.HostRules.{aim_of};
ghost use Rattle.spec_network.specs.Hosts as network;
ghost use Rattle.spec_network.specs.Hosts.{Effect};
ghost use Rattle.spec_network.specs.Tables.{on, pick};
ghost use Rattle.spec_tcp.specs.Bounds.{most_steps};
ghost use Rattle.spec_tcp.specs.HostTcp.{given, has_ended, queue_of};
ghost use Rattle.spec_tcp.specs.Machine.{aim, tcp, tcp_shape};
ghost use Rattle.spec_duties.specs.Observations.{observe_accept, accepting, observe_call, observe_close, is_done};
ghost use Rattle.spec_duties.specs.Observations.{on_target};
ghost use Rattle.spec_duties.specs.Observations.{observe_open, observe_opened, observe_other, observe_pending, observe};
ghost use Rattle.spec_duties.specs.Observations.{unseen};

use crate::observations::{at_next, at_place, touching, unseen};
use crate::waiting::{answering, socket_changing};
use case_forms::{Answer, Call, Host};
use endpoint_state::{HostTcp, World};
use spec_duties::{CallChange, Event, Observation, Queueing, SocketChange};
use spec_tcp::SocketTarget;

fn is_done(answer: &Answer) -> bool
    ensures { result ≡ is_done answer.now }
{
    matches!(answer, Answer::Done)
}

// A listener loses the first child of its queue, unless that is CLOSED.
#[inline(always)]
fn accepting(host: Host, b: &HostTcp, place: u32) -> Queueing
    ensures { result ≡ accepting host b.now place (queue_of b.now place) }
{
    let Some(listener) = b.listener_at(place) else {
        return Queueing::Nothing;
    };
    let Some(child) = listener.queue.first() else {
        return Queueing::Nothing;
    };
    let Some(endpoint) = b.endpoint_at(child) else {
        return Queueing::Nothing;
    };
    if endpoint.state.is_closed() {
        Queueing::Nothing
    } else {
        Queueing::Accepts {
            host,
            listener: place,
        }
    }
}

#[inline(always)]
fn observe_accept(host: Host, b: &HostTcp, answer: &Answer, target: SocketTarget) -> Observation
    ensures { result ≡ observe_accept host b.now answer.now target }
{
    let SocketTarget::ListenerAt(place) = target else {
        return unseen();
    };
    match answer {
        Answer::Given(_) => Observation {
            queueing: accepting(host, b, place),
            ..unseen()
        },
        Answer::Done
        | Answer::Bytes(_)
        | Answer::Again
        | Answer::Eof
        | Answer::Closed
        | Answer::NotConn
        | Answer::Refused
        | Answer::Reset
        | Answer::Timeout
        | Answer::InUse
        | Answer::BadSocket
        | Answer::State(_) => unseen(),
    }
}

// Whether `shut` ended the listener.
fn has_ended(b: &HostTcp, place: u32) -> bool
    ensures { result ≡ has_ended b.now place }
{
    match b.listener_at(place) {
        Some(listener) => !listener.is_open,
        None => false,
    }
}

#[inline(always)]
fn observe_close(
    host: Host,
    b: &HostTcp,
    aborts: bool,
    answer: &Answer,
    target: SocketTarget,
) -> Observation
    ensures { result ≡ observe_close host b.now aborts answer.now target }
{
    match target {
        SocketTarget::EndpointAt(place) => {
            touching(at_place(host, b, Event::Calls { aborts }, place))
        }
        SocketTarget::ListenerAt(listener) => {
            if is_done(answer) && !has_ended(b, listener) {
                Observation {
                    queueing: Queueing::Closes { host, listener },
                    ..unseen()
                }
            } else {
                unseen()
            }
        }
    }
}

#[inline(always)]
fn observe_other(host: Host, b: &HostTcp, target: SocketTarget) -> Observation
    ensures { result ≡ observe_other host b.now target }
{
    match target {
        SocketTarget::EndpointAt(place) => {
            touching(at_place(host, b, Event::Calls { aborts: false }, place))
        }
        SocketTarget::ListenerAt(_) => unseen(),
    }
}

#[inline(always)]
fn observe_opened(host: Host, b: &HostTcp, answer: &Answer) -> Observation
    requires { length b.now.endpoints < 2 ^ 32 }
    ensures { result ≡ observe_opened host b.now answer.now }
{
    match answer {
        Answer::Given(_) => touching(at_next(host, b, Event::Opens)),
        Answer::Done
        | Answer::Bytes(_)
        | Answer::Again
        | Answer::Eof
        | Answer::Closed
        | Answer::NotConn
        | Answer::Refused
        | Answer::Reset
        | Answer::Timeout
        | Answer::InUse
        | Answer::BadSocket
        | Answer::State(_) => unseen(),
    }
}

// A call with this answer, at the host that it applies to.
#[inline(always)]
fn observe_call(host: Host, b: &HostTcp, call: &Call, answer: &Answer) -> Observation
    requires { length b.now.endpoints < 2 ^ 32 }
    ensures { result ≡ observe_call host b.now call.now answer.now }
{
    match call {
        Call::Connect(_, _, _) => observe_opened(host, b, answer),
        Call::Accept(number) => match b.target(*number) {
            Some(target) => observe_accept(host, b, answer, target),
            None => unseen(),
        },
        Call::Send(number, _) => match b.target(*number) {
            Some(target) => observe_other(host, b, target),
            None => unseen(),
        },
        Call::Shut(number) | Call::Close(number) => match b.target(*number) {
            Some(target) => observe_close(host, b, false, answer, target),
            None => unseen(),
        },
        Call::Abort(number) => match b.target(*number) {
            Some(target) => observe_close(host, b, is_done(answer), answer, target),
            None => unseen(),
        },
        Call::Listen(_, _, _) | Call::Await(_) | Call::Recv(_, _) | Call::Status(_) => unseen(),
    }
}

/// The host that gave a socket number. None: neither did.
pub(crate) fn giver(world: &World, number: u32) -> Option<Host>
    ensures { result ≡ (if given (pick world.now.world.hosts Zero).body number then Some Zero
        else if given (pick world.now.world.hosts One).body number then Some One else None) }
{
    spec_tcp::giver(
        world.body(Host::Zero).is_given(number),
        world.body(Host::One).is_given(number),
    )
}

// Whether duties see nothing of the effect of a call, whatever its answer is.
#[tactic(auto, using(crate::proofs::CallLemmas::observe_no))]
fn is_unwatched(call: &Call) -> bool
    ensures { IsTrue result → (h : Header) (w : network.World tcp_shape) (answer : Answer)
        → observe_pending h w answer call.now ≡ unseen }
{
    match call {
        Call::Listen(_, _, _) | Call::Await(_) | Call::Recv(_, _) | Call::Status(_) => true,
        Call::Connect(_, _, _)
        | Call::Accept(_)
        | Call::Send(_, _)
        | Call::Shut(_)
        | Call::Close(_)
        | Call::Abort(_) => false,
    }
}

/// The host that a call applies to. None: neither gave its socket number.
pub(crate) fn meant(world: &World, call: &Call) -> Option<Host>
    ensures { (h : Header) → result ≡ aim_of (tcp h) world.now.world.hosts (aim call.now) }
{
    match call {
        Call::Listen(host, _, _) => Some(*host),
        Call::Connect(host, _, _) => Some(*host),
        Call::Await(number) => giver(world, *number),
        Call::Accept(number) => giver(world, *number),
        Call::Send(number, _) => giver(world, *number),
        Call::Recv(number, _) => giver(world, *number),
        Call::Shut(number) => giver(world, *number),
        Call::Close(number) => giver(world, *number),
        Call::Abort(number) => giver(world, *number),
        Call::Status(number) => giver(world, *number),
    }
}

// An open call with this answer, at the host that it applies to.
#[tactic(auto, using(crate::proofs::PlaceLemmas::places_fit))]
#[inline(always)]
fn observe_pending(world: &World, call: &Call, answer: &Answer) -> Observation
    requires { world.now.steps < most_steps }
    ensures { (h : Header) → result ≡ observe_pending h world.now.world answer.now call.now }
{
    if is_unwatched(call) {
        return unseen();
    }
    let Some(host) = meant(world, call) else {
        return unseen();
    };
    world.is_kept();
    observe_call(host, world.body(host), call, answer)
}

// With what is judged of answers.
#[inline(always)]
fn observe_open(world: &World, thread: u32, call: &Call, answer: &Answer) -> Observation
    requires { world.now.steps < most_steps }
    ensures { result ≡ observe_open world.now.header world.now.world thread answer.now call.now }
{
    let seen = observe_pending(world, call, answer);
    if world.header().version.says_sender() {
        Observation {
            call_change: answering(world, thread, answer, call),
            socket_change: socket_changing(world, answer, call),
            ..seen
        }
    } else {
        Observation {
            call_change: CallChange::Nothing,
            socket_change: SocketChange::Nothing,
            ..seen
        }
    }
}

/// What duties read of the world at the effect of a thread's open call, with this answer.
#[tactic(auto, using(crate::proofs::CallLemmas::effect_is))]
#[inline(always)]
pub(crate) fn observe_effect(
    world: &World,
    moment: u64,
    thread: u32,
    answer: &Answer,
) -> Observation
    requires { world.now.steps < most_steps }
    ensures { result ≡ observe world.now.header moment world.now.world (Effect thread answer.now) }
{
    match world.pending_call(thread) {
        Some(call) => observe_open(world, thread, call, answer),
        None => unseen(),
    }
}
