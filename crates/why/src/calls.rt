//! The rules of threads and calls.

use crate::allowed::{endpoint_named, say_allowed};
use crate::described::describe;
use crate::scene::{Scene, witness_line};
use crate::states::say_way_out;
use crate::wire::first_difference;
use case_forms::{Answer, Call, Event, Host, Label};
use endpoint_state::World;
use plain_words::{AnswerFields, AnswerWords, CallWords, HostName, Sheet};
use spec_tcp::{EndpointId, SocketTarget};

// Of data with more bytes than this, only the length is shown.
const SHOWN: usize = 60;

/// Writes the open call of a thread.
pub(crate) fn describe_thread(out: &mut Sheet, scene: &Scene, thread: u32) {
    let world = scene.world;
    match (world.pending_call(thread), world.given_answer(thread)) {
        (None, None) => out.say("thread {} has no open call\n", &[u64::from(thread)]),
        (Some(call), _) => {
            say_begun(out, scene, thread);
            out.put(": ");
            out.show(&CallWords(call));
            out.put("; it hasn't taken effect yet\n");
        }
        (None, Some(answer)) => {
            say_begun(out, scene, thread);
            let effect = effect_at(scene, thread);
            out.say(
                ", took effect in line {} of the witness, with the answer",
                &[effect],
            );
            say_answer(out, answer);
        }
    }
}

// Writes where the open call began: the last used line that began a call of the thread; 0 if there is none.
fn say_begun(out: &mut Sheet, scene: &Scene, thread: u32) {
    let begun = begun_at(scene, thread);
    out.say(
        "the open call of thread {}, begun in trace line {}",
        &[u64::from(thread), begun],
    );
}

fn begun_at(scene: &Scene, thread: u32) -> u64 {
    for line in scene.lines().iter().rev() {
        if line.thread == thread
            && matches!(&line.event, Event::CallBegin(_))
            && scene.used_by(line.number).is_some()
        {
            return line.number;
        }
    }
    0
}

// The line of the witness with the last effect of a thread before the step; 0 if there is none.
fn effect_at(scene: &Scene, thread: u32) -> u64 {
    witness_line(
        scene.before.iter().rposition(|step| {
            matches!(&step.label, Label::D { thread: other, .. } if *other == thread)
        }),
    )
}

// Writes an answer, and of long data only the length.
fn say_answer(out: &mut Sheet, answer: &Answer) {
    match answer {
        Answer::Bytes(bytes) if SHOWN < bytes.len() => {
            out.show(&AnswerWords(answer));
            out.put("\n");
        }
        answer => {
            out.show(&AnswerFields(answer));
            out.put("\n");
        }
    }
}

/// Writes the answer of an `E` line, the thread's call, and the first byte in which its data differs from that of the
/// effect.
pub(crate) fn describe_end(out: &mut Sheet, scene: &Scene, thread: u32, answer: &Answer) {
    out.put("the line has the answer");
    say_answer(out, answer);
    describe_thread(out, scene, thread);
    let given = scene.world.given_answer(thread);
    if let (Answer::Bytes(told), Some(Answer::Bytes(given))) = (answer, given) {
        let (told, given) = (told.as_slice(), given.as_slice());
        first_difference(out, "byte", "in the effect", given, told);
    }
}

/// Where a socket number was returned before.
pub(crate) fn socket(out: &mut Sheet, scene: &Scene, number: u32) {
    if let Some(host) = giver(scene.world, number) {
        let host = HostName(host);
        out.say(
            "socket number {} was returned before, at ",
            &[u64::from(number)],
        );
        out.show(&host);
        out.put("; each is returned once, at either host\n");
    }
    describe_named(out, scene, number);
}

/// What the call refers to, and the answers that it may have.
pub(crate) fn call_answer(out: &mut Sheet, scene: &Scene, thread: u32, answer: &Answer) {
    let Some(call) = scene.world.pending_call(thread) else {
        return;
    };
    describe_object(out, scene, call);
    out.put("the witness has the answer:");
    say_answer(out, answer);
    out.put("allowed there:");
    say_allowed(out, scene, call);
    out.put("\n");
    match (call, answer) {
        (Call::Status(socket), Answer::State(_)) => say_way_on(out, scene, *socket),
        _ => {}
    }
}

// Writes what leads out of the state of a socket's endpoint.
fn say_way_on(out: &mut Sheet, scene: &Scene, socket: u32) {
    match endpoint_named(scene.world, socket) {
        Some(endpoint) => say_way_out(out, endpoint),
        None => {}
    }
}

// Writes what a call refers to.
fn describe_object(out: &mut Sheet, scene: &Scene, call: &Call) {
    let world = scene.world;
    match call {
        Call::Listen(host, port, _) => match world.body(*host).listener_on(*port) {
            Some(place) => describe_listener(out, world, *host, place),
            None => {}
        },
        Call::Connect(host, lport, rport) => match world.body(*host).place_of(*lport, *rport) {
            Some(place) => describe_at(out, scene, *host, place),
            None => {}
        },
        Call::Await(socket)
        | Call::Accept(socket)
        | Call::Send(socket, _)
        | Call::Recv(socket, _)
        | Call::Shut(socket)
        | Call::Close(socket)
        | Call::Abort(socket)
        | Call::Status(socket) => describe_named(out, scene, *socket),
    }
}

fn describe_at(out: &mut Sheet, scene: &Scene, host: Host, number: u32) {
    describe(out, scene, EndpointId { host, number });
}

/// The host that returned a socket number. None: neither did.
pub(crate) fn giver(world: &World, socket: u32) -> Option<Host> {
    spec_tcp::giver(
        world.body(Host::Zero).is_given(socket),
        world.body(Host::One).is_given(socket),
    )
}

// Writes what a socket number names at the host that returned it.
fn describe_named(out: &mut Sheet, scene: &Scene, socket: u32) {
    let world = scene.world;
    let Some(host) = giver(world, socket) else {
        out.say(
            "socket number {} was never returned\n",
            &[u64::from(socket)],
        );
        return;
    };
    match world.body(host).target(socket) {
        Some(SocketTarget::EndpointAt(place)) => describe_at(out, scene, host, place),
        Some(SocketTarget::ListenerAt(place)) => describe_listener(out, world, host, place),
        None => out.say(
            "socket number {} was closed or aborted\n",
            &[u64::from(socket)],
        ),
    }
}

// Writes a host's listener.
fn describe_listener(out: &mut Sheet, world: &World, host: Host, place: u32) {
    let Some(listener) = world.body(host).listener_at(place) else {
        return;
    };
    let (host, port, children) = (HostName(host), listener.port, listener.queue.len());
    if !listener.is_open {
        out.show(&host);
        out.say("'s listener on port {} was shut\n", &[u64::from(port)]);
        return;
    }
    out.put("before the step, ");
    out.show(&host);
    out.say(
        "'s listener on port {}, children in its queue: {}\n",
        &[u64::from(port), children as u64],
    );
}
