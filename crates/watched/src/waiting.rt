//! Calls that wait: what a step does to them, and what is kept of them after it.
//! `lib.rt` says why functions here are inlined.

ghost use Rattle.std.specs.Prelude.{◌≡◌, if◌then◌else◌, OnOk};
ghost use Rattle.case_forms.specs.declared.trace.Header.{Header};
ghost use Rattle.spec_network.specs.HostRules.{aim_of};
ghost use Rattle.spec_network.specs.Tables.{on, pick};
ghost use Rattle.spec_tcp.specs.HostTcp.{socket_target};
ghost use Rattle.spec_tcp.specs.Machine.{aim, gives, tcp};
ghost use Rattle.spec_duties.specs.Answering.{answer_seen, answering, answering_on, beginning, call_for, closing};
ghost use Rattle.spec_duties.specs.Answering.{closing_on, is_again, judged_call, listener_seen, may_wait};
ghost use Rattle.spec_duties.specs.Answering.{seen_again, shutting_on, socket_changing, socket_given};
ghost use Rattle.spec_duties.specs.Answering.{socket_noted, touched_seen};
ghost use Rattle.spec_duties.specs.Answering.{waitable, waiting_on, waits_after};
ghost use Rattle.spec_duties.specs.Observations.{observe_turn, unseen};
ghost use Rattle.spec_duties.specs.declared.answering.CallChange.TheVariants as call_change;
ghost use Rattle.spec_duties.specs.declared.answering.SocketChange.TheVariants as socket_change;

use crate::calls::{giver, meant};
use crate::observations::unseen;
use case_forms::{Answer, Call, Header, Host, OutOfMemory, Version};
use duties::Duties;
use endpoint_state::{HostTcp, World};
use spec_duties::{
    Awaited, CallChange, Observation, SocketChange, TouchedEndpoint, Waitable, Waiting,
};
use spec_tcp::SocketTarget;

fn is_again(answer: &Answer) -> bool
    ensures { result ≡ is_again answer.now }
{
    matches!(answer, Answer::Again)
}

/// A call that waits on this socket number, if that is live.
pub fn waiting_on(world: &World, awaited: Awaited, socket: u32) -> Option<Waiting>
    ensures { (h : Header) → result ≡ waiting_on h world.now.world awaited socket }
{
    let host = giver(world, socket)?;
    let target = world.body(host).target(socket)?;
    Some(Waiting {
        host,
        target,
        awaited,
    })
}

// What the beginning of a call does to the call of its thread.
fn beginning(thread: u32, call: &Call) -> CallChange
    ensures { result ≡ beginning thread call.now }
{
    let (socket, awaited) = match call {
        Call::Recv(socket, _) => (*socket, Awaited::Bytes),
        Call::Await(socket) => (*socket, Awaited::Connection),
        Call::Accept(socket) => (*socket, Awaited::Child),
        Call::Listen(_, _, _)
        | Call::Connect(_, _, _)
        | Call::Send(_, _)
        | Call::Shut(_)
        | Call::Close(_)
        | Call::Abort(_)
        | Call::Status(_) => return CallChange::Nothing,
    };
    CallChange::Begins {
        thread,
        socket,
        awaited,
    }
}

// What it does to it, if answers are judged.
#[inline(always)]
fn judged_call(header: &Header, change: CallChange) -> CallChange
    ensures { result ≡ judged_call header.now change }
{
    if header.version.says_sender() {
        change
    } else {
        CallChange::Nothing
    }
}

/// What duties see of the beginning of a call.
#[inline(always)]
pub(crate) fn observe_begin(header: &Header, thread: u32, call: &Call) -> Observation
    ensures { result ≡ observe_turn header.now (beginning thread call.now) }
{
    Observation {
        call_change: judged_call(header, beginning(thread, call)),
        ..unseen()
    }
}

/// What they see of its end.
#[inline(always)]
pub(crate) fn observe_end(header: &Header, thread: u32) -> Observation
    ensures { result ≡ observe_turn header.now (call_change.Ends thread) }
{
    Observation {
        call_change: judged_call(header, CallChange::Ends(thread)),
        ..unseen()
    }
}

fn answering_on(
    world: &World,
    thread: u32,
    answer: &Answer,
    awaited: Awaited,
    socket: u32,
) -> CallChange
    ensures { (h : Header) → result ≡ answering_on h world.now.world thread answer.now awaited socket }
{
    let waiting = if is_again(answer) {
        None
    } else {
        waiting_on(world, awaited, socket)
    };
    CallChange::Answers { thread, waiting }
}

/// What the effect of a call, with this answer, does to the call of its thread.
pub(crate) fn answering(world: &World, thread: u32, answer: &Answer, call: &Call) -> CallChange
    ensures { (h : Header) → result ≡ answering h world.now.world thread answer.now call.now }
{
    match call {
        Call::Recv(socket, _) => answering_on(world, thread, answer, Awaited::Bytes, *socket),
        Call::Await(socket) => answering_on(world, thread, answer, Awaited::Connection, *socket),
        Call::Accept(socket) => answering_on(world, thread, answer, Awaited::Child, *socket),
        Call::Listen(_, _, _)
        | Call::Connect(_, _, _)
        | Call::Send(_, _)
        | Call::Shut(_)
        | Call::Close(_)
        | Call::Abort(_)
        | Call::Status(_) => CallChange::Nothing,
    }
}

// The socket number in the answer of a call.
fn gives(call: &Call, answer: &Answer) -> Option<u32>
    ensures { result ≡ gives call.now answer.now }
{
    let Answer::Given(number) = answer else {
        return None;
    };
    match call {
        Call::Listen(_, _, _) | Call::Connect(_, _, _) | Call::Accept(_) => Some(*number),
        Call::Await(_)
        | Call::Send(_, _)
        | Call::Recv(_, _)
        | Call::Shut(_)
        | Call::Close(_)
        | Call::Abort(_)
        | Call::Status(_) => None,
    }
}

fn shutting_on(host: Host, b: &HostTcp, socket: u32) -> SocketChange
    ensures { result ≡ shutting_on host b.now socket }
{
    match b.target(socket) {
        Some(target) => SocketChange::Shuts { host, target },
        None => SocketChange::Nothing,
    }
}

fn closing_on(host: Host, b: &HostTcp, socket: u32) -> SocketChange
    ensures { result ≡ closing_on host b.now socket }
{
    match b.target(socket) {
        Some(target) => SocketChange::Closes { host, target },
        None => SocketChange::Nothing,
    }
}

// Whether the effect of a call, with this answer, ends the socket number, or shuts what it names.
fn closing(host: Host, b: &HostTcp, answer: &Answer, call: &Call) -> SocketChange
    ensures { result ≡ closing host b.now answer.now call.now }
{
    if !matches!(answer, Answer::Done) {
        return SocketChange::Nothing;
    }
    match call {
        Call::Shut(socket) => shutting_on(host, b, *socket),
        Call::Close(socket) | Call::Abort(socket) => closing_on(host, b, *socket),
        Call::Listen(_, _, _)
        | Call::Connect(_, _, _)
        | Call::Accept(_)
        | Call::Await(_)
        | Call::Send(_, _)
        | Call::Recv(_, _)
        | Call::Status(_) => SocketChange::Nothing,
    }
}

/// What the effect of a call, with this answer, does to a socket.
pub(crate) fn socket_changing(world: &World, answer: &Answer, call: &Call) -> SocketChange
    ensures { (h : Header) → result ≡ socket_changing h world.now.world answer.now call.now }
{
    let Some(host) = meant(world, call) else {
        return SocketChange::Nothing;
    };
    match gives(call, answer) {
        Some(socket) => SocketChange::Gives { host, socket },
        None => closing(host, world.body(host), answer, call),
    }
}

fn may_wait(b: &HostTcp, target: SocketTarget, awaited: Awaited) -> bool
    ensures { result ≡ may_wait b.now target awaited }
{
    let call = match awaited {
        Awaited::Bytes => Call::Recv(0, 0),
        Awaited::Connection => Call::Await(0),
        Awaited::Child => Call::Accept(0),
    };
    b.target_allows(Version::Six, &call, &Answer::Again, target)
}

// Which calls on a socket may have to wait.
fn waitable(b: &HostTcp, target: SocketTarget) -> Waitable
    ensures { result ≡ waitable b.now target }
{
    Waitable {
        bytes: may_wait(b, target, Awaited::Bytes),
        connection: may_wait(b, target, Awaited::Connection),
        child: may_wait(b, target, Awaited::Child),
    }
}

fn see_again(
    world: &World,
    duties: &mut Duties,
    moment: u64,
    host: Host,
    target: SocketTarget,
) -> Result<(), OutOfMemory>
    ensures { OnOk result (duties.new ≡ record duties.old {
      waits = seen_again world.now.world moment host target duties.old.waits;
    }) }
{
    let may = waitable(world.body(host), target);
    duties.note_waitable(moment, host, target, may)
}

fn see_listener(
    world: &World,
    duties: &mut Duties,
    moment: u64,
    host: Host,
    listener: Option<u32>,
) -> Result<(), OutOfMemory>
    ensures { OnOk result (duties.new ≡ record duties.old {
      waits = listener_seen world.now.world moment host listener duties.old.waits;
    }) }
{
    match listener {
        Some(place) => see_again(world, duties, moment, host, SocketTarget::ListenerAt(place)),
        None => Ok(()),
    }
}

fn see_touched(
    world: &World,
    duties: &mut Duties,
    moment: u64,
    touched: &Option<TouchedEndpoint>,
) -> Result<(), OutOfMemory>
    ensures { OnOk result (duties.new ≡ record duties.old {
      waits = touched_seen world.now.world moment touched.now duties.old.waits;
    }) }
{
    let Some(touched) = touched else {
        return Ok(());
    };
    let target = SocketTarget::EndpointAt(touched.place);
    see_again(world, duties, moment, touched.host, target)?;
    see_listener(world, duties, moment, touched.host, touched.before.listener)
}

fn see_answer(
    world: &World,
    duties: &mut Duties,
    moment: u64,
    change: CallChange,
) -> Result<(), OutOfMemory>
    ensures { OnOk result (duties.new ≡ record duties.old {
      waits = answer_seen world.now.world moment change duties.old.waits;
    }) }
{
    match change {
        CallChange::Answers {
            waiting: Some(waiting),
            ..
        } => see_again(world, duties, moment, waiting.host, waiting.target),
        CallChange::Nothing
        | CallChange::Begins { .. }
        | CallChange::Answers { waiting: None, .. }
        | CallChange::Ends(_) => Ok(()),
    }
}

fn note_given(
    world: &World,
    duties: &mut Duties,
    moment: u64,
    host: Host,
    target: Option<SocketTarget>,
) -> Result<(), OutOfMemory>
    ensures { OnOk result (duties.new ≡ record duties.old {
      waits = socket_given world.now.world moment host target duties.old.waits;
    }) }
{
    match target {
        Some(target) => {
            let may = waitable(world.body(host), target);
            duties.note_given(moment, host, target, may)
        }
        None => Ok(()),
    }
}

fn note_socket(
    world: &World,
    duties: &mut Duties,
    moment: u64,
    change: SocketChange,
) -> Result<(), OutOfMemory>
    ensures { OnOk result (duties.new ≡ record duties.old {
      waits = socket_noted world.now.world moment change duties.old.waits;
    }) }
{
    match change {
        SocketChange::Nothing => Ok(()),
        SocketChange::Gives { host, socket } => {
            let target = world.body(host).target(socket);
            note_given(world, duties, moment, host, target)
        }
        SocketChange::Shuts { host, target } => see_again(world, duties, moment, host, target),
        SocketChange::Closes { host, target } => duties.note_closed(host, target),
    }
}

/// Notes what is kept of calls that wait after a step that shows this and leads to this world. If memory runs out, the
/// duties are of no use any more.
pub fn note_waits(
    world: &World,
    duties: &mut Duties,
    moment: u64,
    seen: &Observation,
) -> Result<(), OutOfMemory>
    ensures { OnOk result (duties.new ≡ record duties.old {
      waits = waits_after world.now.world moment seen.now.touched seen.now.call_change seen.now.socket_change
          duties.old.waits;
    }) }
{
    duties.note_call(moment, seen.call_change)?;
    see_touched(world, duties, moment, &seen.touched)?;
    see_answer(world, duties, moment, seen.call_change)?;
    note_socket(world, duties, moment, seen.socket_change)
}
