//! The answers that a call may have.

use crate::calls::giver;
use crate::scene::Scene;
use case_forms::{Answer, Call, State};
use endpoint_state::{Endpoint, World, call_allowed};
use plain_words::{AnswerFields, Sheet, Shown, word_if};
use spec_tcp::SocketTarget;
use std::alloc::Global;

// The answers with neither a number nor bytes.
const WORDS: [Answer; 21] = [
    Answer::Done,
    Answer::Again,
    Answer::Eof,
    Answer::Closed,
    Answer::NotConn,
    Answer::Refused,
    Answer::Reset,
    Answer::Timeout,
    Answer::InUse,
    Answer::BadSocket,
    Answer::State(State::Closed),
    Answer::State(State::Listen),
    Answer::State(State::SynSent),
    Answer::State(State::SynReceived),
    Answer::State(State::Established),
    Answer::State(State::FinWait1),
    Answer::State(State::FinWait2),
    Answer::State(State::CloseWait),
    Answer::State(State::Closing),
    Answer::State(State::LastAck),
    Answer::State(State::TimeWait),
];

/// Writes the answers that a call may have, with `or` between them.
pub(crate) fn say_allowed(out: &mut Sheet, scene: &Scene, call: &Call) {
    let (world, start) = (scene.world, out.len());
    say_words(out, world, call);
    let or = word_if(start < out.len(), " or");
    match call {
        Call::Send(_, bytes) if call_allowed(world, call, &Answer::Given(1)).is_ok() => {
            out.put(or);
            out.say(" ok N with N from 1 to {}", &[bytes.len() as u64]);
        }
        Call::Recv(socket, most) => match endpoint_named(world, *socket) {
            Some(endpoint) => say_bytes(out, scene, or, endpoint, *most),
            None => {}
        },
        Call::Listen(..) | Call::Connect(..) | Call::Accept(_)
            if call_allowed(world, call, &Answer::Given(u32::MAX)).is_ok() => {
            out.put(or);
            out.put(" ok N with a number N that was never returned");
        }
        Call::Listen(..)
        | Call::Connect(..)
        | Call::Await(_)
        | Call::Accept(_)
        | Call::Send(..)
        | Call::Shut(_)
        | Call::Close(_)
        | Call::Abort(_)
        | Call::Status(_) => {}
    }
}

// Writes those of `WORDS` that a call may have.
fn say_words(out: &mut Sheet, world: &World, call: &Call) {
    let start = out.len();
    for answer in &WORDS {
        if call_allowed(world, call, answer).is_ok() {
            let or = word_if(start < out.len(), " or");
            out.put(or);
            out.show(&AnswerFields(answer));
        }
    }
}

/// The endpoint that a socket number names. None: it names none.
pub(crate) fn endpoint_named(world: &World, socket: u32) -> Option<&Endpoint> {
    let body = world.body(giver(world, socket)?);
    match body.target(socket)? {
        SocketTarget::EndpointAt(place) => body.endpoint_at(place),
        SocketTarget::ListenerAt(_) => None,
    }
}

// Writes the bytes that `recv` may return, at most this many.
fn say_bytes(out: &mut Sheet, scene: &Scene, or: &str, endpoint: &Endpoint, most: u16) {
    match endpoint.stream.receive.read(scene.alloc, usize::from(most)) {
        Ok(bytes) => say_data(out, scene.alloc, or, bytes.as_slice()),
        Err(error) => out.note(Err(error)),
    }
}

fn say_data(out: &mut Sheet, alloc: Global, or: &str, bytes: &[u8]) {
    if bytes.is_empty() {
        return;
    }
    out.put(or);
    out.say(" data with 1 to {} bytes of ", &[bytes.len() as u64]);
    match hex::encode(alloc, bytes) {
        Ok(digits) => out.show(&Shown(digits.as_bytes())),
        Err(error) => out.note(Err(error)),
    }
}
