//! Both applications and the loops of both recorders, each in a thread of its own.

ghost use Rattle.std.specs.Prelude.{◌≡◌, IfSome};
ghost use Rattle.case_forms.specs.declared.calls.Host.TheVariants.{Zero, One};
ghost use Rattle.spec_network.specs.Tables.{lane};

use crate::applications::{Ended, listen, run_client, run_server};
use crate::caller::Caller;
use crate::fault::RecordFault;
use crate::wire::Wire;
use case_forms::OutOfMemory;
use crossbeam_channel::{Receiver, Sender, unbounded};
use recorder::{Flying, Recorder, Seat, Site, WireFate};
use std::alloc::Global;
use std::sync::Wait;
use std::thread;
use std::thread::{JoinHandle, Scope, Threads};

/// How many turns each loop has.
pub(crate) const TURNS: u64 = 2_000_000;

/// Both ends of the wire for a host's segments, and what becomes of them.
#[derive(Drop)]
pub(crate) struct Way<F: Drop> {
    out: Sender<Flying, Global>,
    from: Receiver<Flying, Global>,
    fate: F,
    taken: u64,
}

impl<F: Drop> Way<F> {
    /// A new wire for segments, with this fate.
    pub(crate) fn new(alloc: Global, wire: Wire<F>) -> Result<Way<F>, OutOfMemory> {
        let (out, from) = unbounded::<Flying, Global>(alloc)?;
        let Wire { fate, taken } = wire;
        Ok(Way {
            out,
            from,
            fate,
            taken,
        })
    }
}

// A host's side of both wires: where its segments are sent and what becomes of them, and where those of the other host
// arrive.
#[derive(Drop)]
struct Link<F: Drop> {
    out: Sender<Flying, Global>,
    fate: F,
    from: Receiver<Flying, Global>,
    taken: u64,
}

// Both sides of the wire for host 0's segments and of the one back.
fn links_of<F: Drop, G: Drop>(there: Way<F>, back: Way<G>) -> (Link<F>, Link<G>) {
    let zero = Link {
        out: there.out,
        fate: there.fate,
        from: back.from,
        taken: back.taken,
    };
    let one = Link {
        out: back.out,
        fate: back.fate,
        from: there.from,
        taken: there.taken,
    };
    (zero, one)
}

/// The recorder of a host, and the seat of its application.
#[derive(Drop)]
pub(crate) struct Place<'a, L: Site> {
    pub(crate) recorder: &'a Recorder<L>,
    pub(crate) seat: Seat<L>,
}

/// Runs both applications and all loops until they end. The error if a thread can't be started: out of memory if memory
/// is refused at that time, else a fault of the device.
pub(crate) fn run_threads<
    L: Site + Send + Sync,
    M: Site + Send + Sync,
    F: WireFate + Send + Drop,
    G: WireFate + Send + Drop,
    R: Threads + Wait + Sync,
>(
    rt: &R,
    alloc: Global,
    rounds: u16,
    client: Place<L>,
    server: Place<M>,
    there: Way<F>,
    back: Way<G>,
) -> Result<(Ended<L>, Ended<M>), RecordFault>
    requires hosts { (L.host ≡ Zero) × (M.host ≡ One) }
    requires lanes { (lane client.seat.thread ≡ Zero) × (lane server.seat.thread ≡ One) }
{
    let Place {
        recorder: zero,
        seat: asker,
    } = client;
    let Place {
        recorder: one,
        seat: server,
    } = server;

    // Host 1 listens before host 0 opens.
    let mut server = Caller::new(alloc, server);
    let listener = listen(rt, one, &mut server).ok();
    let (zero_link, one_link) = links_of(there, back);
    thread::scope(
        thread::scope_env(),
        rt,
        |scope|
            requires { (L.host ≡ Zero) × (lane asker.thread ≡ L.host) × (lane server.seat.thread ≡ M.host)
                × IfSome listener (λ n. lane n ≡ M.host) }
        {
            let loops = start_loops(scope, rt, zero, one, zero_link);
            let others = start_loops(scope, rt, one, zero, one_link);
            let serves = start(
                scope,
                move ||
                    requires { (lane server.seat.thread ≡ M.host) × IfSome listener (λ n. lane n ≡ M.host) }
                { serve(rt, zero, one, server, listener, rounds) },
            );
            let asks = start(
                scope,
                move ||
                    requires { (L.host ≡ Zero) × (lane asker.thread ≡ L.host) }
                { ask(rt, alloc, zero, one, asker, rounds) },
            );
            let all = loops && others && serves.is_some() && asks.is_some();
            let refusal = why_not(alloc, all);
            end_both(rt, zero, one, refusal, asks, serves)
        },
    )
}

// Host 0's application in its thread. If it halts, all else ends.
fn ask<L: Site, M: Site, R: Wait>(
    rt: &R,
    alloc: Global,
    zero: &Recorder<L>,
    one: &Recorder<M>,
    seat: Seat<L>,
    rounds: u16,
) -> Ended<L>
    requires lane { lane seat.thread ≡ L.host }
    requires host { L.host ≡ Zero }
{
    let ended = run_client(rt, alloc, zero, seat, rounds);
    stop_unless(rt, zero, one, ended.whole);
    ended
}

// Host 1's application in its thread.
fn serve<L: Site, M: Site, R: Wait>(
    rt: &R,
    zero: &Recorder<L>,
    one: &Recorder<M>,
    caller: Caller<M>,
    listener: Option<u32>,
    rounds: u16,
) -> Ended<M>
    requires lane { lane caller.seat.thread ≡ M.host }
    requires own { IfSome listener (λ n. lane n ≡ M.host) }
{
    let ended = run_server(rt, one, caller, listener, rounds);
    stop_unless(rt, zero, one, ended.whole);
    ended
}

// Waits for both applications, and then ends the loops. If a thread was refused, ends all at once.
fn end_both<L: Site, M: Site, R: Threads + Wait>(
    rt: &R,
    zero: &Recorder<L>,
    one: &Recorder<M>,
    refusal: Option<RecordFault>,
    asks: Option<JoinHandle<Ended<L>>>,
    serves: Option<JoinHandle<Ended<M>>>,
) -> Result<(Ended<L>, Ended<M>), RecordFault> {
    if refusal.is_some() {
        stop_both(rt, zero, one);
    }
    let asked = join(rt, asks);
    let served = join(rt, serves);
    stop_both(rt, zero, one);
    match (refusal, asked, served) {
        (None, Some(asked), Some(served)) => Ok((asked, served)),
        (Some(fault), _, _) => Err(fault),
        _ => Err(RecordFault::Device),
    }
}

// How many blocks of memory are requested, and how large the first is: as large as a thread's stack by default.
const ASKED_BLOCKS: usize = 32;

const STACK_BYTES: usize = 8_388_608;

// More memory than a thread takes as it starts.
fn ask_room(alloc: Global) -> Result<usize, OutOfMemory> {
    let mut blocks: Vec<Vec<u8>> = Vec::new(alloc);
    blocks.reserve(ASKED_BLOCKS)?;
    let mut bytes = STACK_BYTES;
    for _ in 0..ASKED_BLOCKS {
        let mut block = Vec::new(alloc);
        block.reserve(bytes)?;
        blocks.push(block)?;
        bytes = 4_096;
    }
    Ok(blocks.len())
}

// Why not all threads started, found while those that did hold their memory. A refused thread gives no cause, so memory
// is requested: if that is refused, memory is the cause.
fn why_not(alloc: Global, all: bool) -> Option<RecordFault> {
    if all {
        return None;
    }
    match ask_room(alloc) {
        Ok(_) => Some(RecordFault::Device),
        Err(_) => Some(RecordFault::OutOfMemory),
    }
}

// A thread of the scope. If it is refused, it is requested once more: a refusal of memory may be the only one. None: it
// is refused again.
fn start<'s, E, F: FnOnce() -> T + Send + Drop + 's, T: Send + Drop + 's>(
    scope: &Scope<'s, E>,
    work: F,
) -> Option<JoinHandle<T>>
    requires { F.pre work }
{
    match scope.spawn(work) {
        Ok(handle) => Some(handle),
        Err(refused) => scope.spawn(refused.value).ok(),
    }
}

// Starts the loops of a host, each in a thread of its own, for which the scope waits. The result is whether all of them
// started.
fn start_loops<
    's,
    E,
    L: Site + Send + Sync + 's,
    M: Site + Send + Sync + 's,
    F: WireFate + Send + Drop + 's,
    R: Threads + Wait + Sync + 's,
>(
    scope: &Scope<'s, E>,
    rt: &'s R,
    mine: &'s Recorder<L>,
    other: &'s Recorder<M>,
    link: Link<F>,
) -> bool {
    let Link {
        out,
        fate,
        from,
        taken,
    } = link;
    let lets_out = start(scope, move || let_out(rt, mine, other, out, fate)).is_some();
    let lets_in = start(scope, move || let_in(rt, mine, other, from, taken)).is_some();
    let lets_pass = start(scope, move || let_pass(rt, mine, other)).is_some();
    lets_out && lets_in && lets_pass
}

// What a thread returned, once it ended. None: it was not started.
fn join<T: Drop, R: Threads + Wait>(rt: &R, handle: Option<JoinHandle<T>>) -> Option<T> {
    let handle = handle?;
    Some(handle.join(rt))
}

fn stop_both<L: Site, M: Site, R: Wait>(rt: &R, zero: &Recorder<L>, one: &Recorder<M>) {
    zero.stop(rt);
    one.stop(rt);
}

// An application that halts ends all else.
fn stop_unless<L: Site, M: Site, R: Wait>(
    rt: &R,
    zero: &Recorder<L>,
    one: &Recorder<M>,
    whole: bool,
) {
    if !whole {
        stop_both(rt, zero, one);
    }
}

// Sends a host's segments. When it ends, all else does.
fn let_out<L: Site, M: Site, F: WireFate + Drop, R: Wait>(
    rt: &R,
    mine: &Recorder<L>,
    other: &Recorder<M>,
    out: Sender<Flying, Global>,
    fate: F,
) {
    let _ = mine.pump_loop_by(rt, out, fate, TURNS);
    stop_both(rt, mine, other);
}

// Receives the other host's segments, this many of them. When it ends, all else does.
fn let_in<L: Site, M: Site, R: Wait>(
    rt: &R,
    mine: &Recorder<L>,
    other: &Recorder<M>,
    from: Receiver<Flying, Global>,
    turns: u64,
) {
    let _ = mine.receive_loop(rt, from, turns);
    stop_both(rt, mine, other);
}

// Lets a host's time pass. When it ends, all else does.
fn let_pass<L: Site, M: Site, R: Wait>(rt: &R, mine: &Recorder<L>, other: &Recorder<M>) {
    let _ = mine.timer_loop(rt, TURNS);
    stop_both(rt, mine, other);
}
