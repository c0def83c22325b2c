//! What both applications do.

ghost use Rattle.std.specs.Prelude.{◌≡◌, ◌<◌, ◌+◌, IfOk, IfSome, length};
ghost use Rattle.case_forms.specs.declared.calls.Host.TheVariants.{Zero, One};
ghost use Rattle.spec_network.specs.Tables.{lane};

use crate::caller::{Caller, Halt};
use crate::plan::{CLIENT_PORT, ROUND_BYTES, SERVER_PORT};
use case_forms::{Answer, Call, Host, OutOfMemory};
use recorder::{Receipt, Recorder, Seat, Site};
use segment::Bytes;
use std::alloc::Global;
use std::sync::Wait;

// The bytes of a round that are not sent yet.
fn round_bytes(alloc: Global, round: u16, sent: usize) -> Result<Bytes, OutOfMemory>
    requires { sent < 64 }
    ensures { IfOk result (λ bytes. length bytes + sent ≡ 64) }
{
    let all = [(round % 256) as u8; ROUND_BYTES];
    Bytes::from_slice(alloc, &all[sent..])
}

// Sends the bytes of a round, in as many calls as it takes.
fn send_round<L: Site, R: Wait>(
    rt: &R,
    alloc: Global,
    recorder: &Recorder<L>,
    caller: &mut Caller<L>,
    socket: u32,
    round: u16,
) -> Result<(), Halt>
    requires lane { lane caller.old.seat.thread ≡ L.host }
    requires own { lane socket ≡ L.host }
    ensures { caller.new.seat.thread ≡ caller.old.seat.thread }
{
    let mut sent = 0;
    for _ in 0..ROUND_BYTES {
        if sent >= ROUND_BYTES {
            break;
        }
        let bytes = round_bytes(alloc, round, sent)?;
        caller.ask(rt, recorder, Call::Send(socket, bytes))?;
        sent = sent.saturating_add(caller.number()? as usize);
    }
    Ok(())
}

// How many bytes a call asks for if this many are left.
fn most_of(left: usize) -> u16
    requires { 0 < left }
    ensures { 0 < result }
{
    left.min(ROUND_BYTES) as u16
}

// Receives the bytes of a round, in as many calls as it takes.
fn receive_round<L: Site, R: Wait>(
    rt: &R,
    recorder: &Recorder<L>,
    caller: &mut Caller<L>,
    socket: u32,
) -> Result<(), Halt>
    requires lane { lane caller.old.seat.thread ≡ L.host }
    requires own { lane socket ≡ L.host }
    ensures { caller.new.seat.thread ≡ caller.old.seat.thread }
{
    let mut left = ROUND_BYTES;
    for _ in 0..ROUND_BYTES {
        if left == 0 {
            break;
        }
        caller.ask(rt, recorder, Call::Recv(socket, most_of(left)))?;
        match caller.answer() {
            Some(Answer::Bytes(bytes)) => left = left.saturating_sub(bytes.len()),
            _ => return Err(Halt::Refused),
        }
    }
    Ok(())
}

// Host 0's application: it opens, sends all rounds, ends sending and closes.
fn talk_as_client<L: Site, R: Wait>(
    rt: &R,
    alloc: Global,
    recorder: &Recorder<L>,
    caller: &mut Caller<L>,
    rounds: u16,
) -> Result<(), Halt>
    requires lane { lane caller.old.seat.thread ≡ L.host }
    requires host { L.host ≡ Zero }
    ensures { caller.new.seat.thread ≡ caller.old.seat.thread }
{
    let socket = caller.socket(
        rt,
        recorder,
        Call::Connect(Host::Zero, CLIENT_PORT, SERVER_PORT),
    )?;
    caller.ask_ok(rt, recorder, Call::Await(socket))?;
    for round in 0..rounds {
        send_round(rt, alloc, recorder, caller, socket, round)?;
    }
    caller.ask_ok(rt, recorder, Call::Shut(socket))?;
    caller.ask_ok(rt, recorder, Call::Close(socket))
}

/// Host 1's application listens, which is answered at once.
pub(crate) fn listen<L: Site, R: Wait>(
    rt: &R,
    recorder: &Recorder<L>,
    caller: &mut Caller<L>,
) -> Result<u32, Halt>
    requires lane { lane caller.old.seat.thread ≡ L.host }
    requires host { L.host ≡ One }
    ensures thread { caller.new.seat.thread ≡ caller.old.seat.thread }
    ensures own { IfOk result (λ n. lane n ≡ L.host) }
{
    caller.socket(rt, recorder, Call::Listen(Host::One, SERVER_PORT, 1))
}

// Host 1's application, which listens: it accepts, receives all rounds, reads to the end and closes.
fn talk_as_server<L: Site, R: Wait>(
    rt: &R,
    recorder: &Recorder<L>,
    caller: &mut Caller<L>,
    listener: u32,
    rounds: u16,
) -> Result<(), Halt>
    requires lane { lane caller.old.seat.thread ≡ L.host }
    requires own { lane listener ≡ L.host }
    ensures { caller.new.seat.thread ≡ caller.old.seat.thread }
{
    let socket = caller.socket(rt, recorder, Call::Accept(listener))?;
    for _ in 0..rounds {
        receive_round(rt, recorder, caller, socket)?;
    }
    caller.ask(rt, recorder, Call::Recv(socket, 1))?;
    match caller.answer() {
        Some(Answer::Eof) => {}
        _ => return Err(Halt::Refused),
    }
    caller.ask_ok(rt, recorder, Call::Close(socket))
}

/// An application thread that ended.
#[derive(Drop)]
pub(crate) struct Ended<L: Site> {
    pub(crate) seat: Seat<L>,
    pub(crate) receipts: Vec<Receipt>,
    /// Whether it ended as planned.
    pub(crate) whole: bool,
}

/// Runs host 0's application.
pub(crate) fn run_client<L: Site, R: Wait>(
    rt: &R,
    alloc: Global,
    recorder: &Recorder<L>,
    seat: Seat<L>,
    rounds: u16,
) -> Ended<L>
    requires lane { lane seat.thread ≡ L.host }
    requires host { L.host ≡ Zero }
{
    let mut caller = Caller::new(alloc, seat);
    let whole = talk_as_client(rt, alloc, recorder, &mut caller, rounds).is_ok();
    let (seat, receipts) = caller.leave();
    Ended {
        seat,
        receipts,
        whole,
    }
}

/// Runs host 1's application, which listens.
pub(crate) fn run_server<L: Site, R: Wait>(
    rt: &R,
    recorder: &Recorder<L>,
    caller: Caller<L>,
    listener: Option<u32>,
    rounds: u16,
) -> Ended<L>
    requires lane { lane caller.seat.thread ≡ L.host }
    requires own { IfSome listener (λ n. lane n ≡ L.host) }
{
    let mut caller = caller;
    let whole = match listener {
        Some(listener) => talk_as_server(rt, recorder, &mut caller, listener, rounds).is_ok(),
        None => false,
    };
    let (seat, receipts) = caller.leave();
    Ended {
        seat,
        receipts,
        whole,
    }
}
