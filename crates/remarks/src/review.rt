//! The review of a case: its replay, and what is remembered beside it.

use crate::arrivals::Reset;
use crate::blocks::Batches;
use crate::found::Found;
use crate::notes::{Again, Note, Permit};
use crate::sendings::Sending;
use case_forms::{Call, Event, Extras, Host, Label, NamedLine, OutOfMemory, RecoveryChange, Step};
use endpoint_state::World;
use replayed::{Case, Replay, ReplayFault, socket_of};
use spec_tcp::{Endpoint, EndpointId, SocketTarget};
use std::alloc::Global;
use std::collections::BTreeMap;

/// The remarks on a case.
#[derive(Drop)]
pub struct Remarks {
    /// A line for each; empty if there is none.
    pub text: String,
    /// For each, the first and the last line of the trace that it is about. None: it is about the end.
    pub places: Vec<Option<(u64, u64)>>,
}

/// Remarks on a case with a yes, or up to the step that is refused. There is none on a case without a verdict.
pub fn remark(alloc: Global, case: &Case<'_>) -> Result<Remarks, ReplayFault> {
    let mut review = Review::new(alloc, case);
    let remarked = review.replay(alloc);
    drop(review);
    remarked
}

/// A case up to a step.
#[derive(Drop)]
pub(crate) struct Review<'c> {
    pub case: &'c Case<'c>,
    /// The moment of the last step.
    pub moment: u64,
    pub found: Found,
    /// By the host of an endpoint and its place there.
    pub notes: BTreeMap<(u8, u32), Note>,
    /// What came last to it, from version 6 on.
    pub batches: BTreeMap<(u8, u32), Batches>,
    pub alloc: Global,
    /// The segments that were made, by their numbers, and the lines that show them.
    pub made: BTreeMap<u32, Sending>,
    pub shown: BTreeMap<u32, u64>,
    /// What was retransmitted last from a position of an endpoint, by its `position_key`.
    pub again: BTreeMap<(u8, u32, u64), Again>,
    /// Bytes and FINs that were kept beyond a gap, by their first position: the position after them.
    pub held: BTreeMap<(u8, u32, u64), u64>,
    /// For each thread in a call, the line that begins it.
    pub calls: BTreeMap<u32, u64>,
    /// For each host and ports, its own and the peer's, what arrived last, if that is a reset.
    pub resets: BTreeMap<(u8, u16, u16), Reset>,
}

impl<'c> Review<'c> {
    // A review before the first step.
    fn new(alloc: Global, case: &'c Case<'c>) -> Review<'c> {
        Review {
            case,
            moment: 0,
            found: Found::new(alloc, &case.trace.header),
            notes: BTreeMap::new(alloc),
            batches: BTreeMap::new(alloc),
            alloc,
            made: BTreeMap::new(alloc),
            shown: BTreeMap::new(alloc),
            again: BTreeMap::new(alloc),
            held: BTreeMap::new(alloc),
            calls: BTreeMap::new(alloc),
            resets: BTreeMap::new(alloc),
        }
    }

    // Replays the case.
    fn replay(&mut self, alloc: Global) -> Result<Remarks, ReplayFault> {
        let mut replay = Replay::new(alloc, self.case);
        let remarked = self.run(alloc, &mut replay);
        drop(replay);
        remarked
    }
}

impl Review<'_> {
    // Replays the steps before the refused one, or all.
    fn run(&mut self, alloc: Global, replay: &mut Replay<'_>) -> Result<Remarks, ReplayFault> {
        if self.case.verdict.is_ok() {
            self.read_shown()?;
            for step in self.case.steps_before_refusal() {
                self.moment = step.moment;
                self.step(replay, step)?;
            }
            self.finish(alloc, replay.world())?;
        }
        Ok(self.found.remarks(alloc)?)
    }

    // Remembers which segments lines show.
    fn read_shown(&mut self) -> Result<(), OutOfMemory> {
        for step in self.case.steps.as_slice() {
            if let Label::L(named) = &step.label
                && let Extras::One(made) = named.extras
                && let Some(line) = self.case.line(named.number)
                && let Event::Sent(..) = &line.event
            {
                self.shown.insert(made, named.number)?;
            }
        }
        Ok(())
    }

    // Reviews most steps before they change the world, and the lines after that.
    fn step(&mut self, replay: &mut Replay<'_>, step: &Step) -> Result<(), ReplayFault> {
        let world = replay.world();
        match &step.label {
            Label::D { thread, .. } => return self.effect(replay, step, *thread),
            Label::T { host, line, choice } => {
                return self.process(replay, step, (*host, *line), choice.keep);
            }
            Label::M { host, plan } => self.make(replay, *host, plan)?,
            Label::K { host, line } => {
                if let Some(arrival) = self.arrive(world, *host, *line)? {
                    self.receive(&arrival, false)?;
                    if !replay.is_excused(step) {
                        self.drop_arrival(world, &arrival)?;
                    }
                }
            }
            Label::R { host, line } => {
                self.arrive(world, *host, *line)?;
            }
            Label::F { host, recovery } if recovery.change == RecoveryChange::Begins => {
                if let Some((id, _)) = endpoint_of(world, *host, recovery.lport, recovery.rport) {
                    self.note(id)?.permits.add(Permit::Recovery);
                }
            }
            Label::F { .. } | Label::L(_) => {}
        }
        replay.apply(step)?;
        if let Label::L(named) = &step.label {
            self.use_line(replay.world(), *named)?;
        }
        Ok(())
    }

    fn use_line(&mut self, world: &World, named: NamedLine) -> Result<(), OutOfMemory> {
        let Some(line) = self.case.line(named.number) else {
            return Ok(());
        };
        match (&line.event, named.extras) {
            (Event::CallBegin(_), _) => {
                self.calls.insert(line.thread, line.number)?;
            }
            (Event::CallEnd(_), _) => {
                self.calls.remove(&line.thread);
            }
            (Event::Sent(..), Extras::One(made)) => self.send(world, made, line.number)?,
            (Event::Expired(host, lport, rport, timer), _) => {
                if let Some((id, _)) = endpoint_of(world, *host, *lport, *rport) {
                    self.expire(world, id, *timer, line.number)?;
                }
            }
            (Event::Came(host, _), _) => self.count_asked(world, *host, line.number)?,
            (Event::Sent(..), _) => {}
        }
        Ok(())
    }

    // A thread's call has its effect. It may end what its socket number names, so that is looked up before.
    fn effect(
        &mut self,
        replay: &mut Replay<'_>,
        step: &Step,
        thread: u32,
    ) -> Result<(), ReplayFault> {
        let line = self.calls.get(&thread).copied().unwrap_or(0);
        let call = call_in(self.case, line);
        let named = call.and_then(|call| endpoint_named(replay.world(), call));
        replay.apply(step)?;
        let world = replay.world();
        let changed = match call {
            Some(Call::Connect(host, lport, rport)) => endpoint_of(world, *host, *lport, *rport),
            Some(
                Call::Listen(..)
                | Call::Await(_)
                | Call::Accept(_)
                | Call::Send(..)
                | Call::Recv(..)
                | Call::Shut(_)
                | Call::Close(_)
                | Call::Abort(_)
                | Call::Status(_),
            )
            | None => named.and_then(|id| Some((id, endpoint_at(world, id)?))),
        };
        if let Some((id, endpoint)) = changed {
            if let Some(Call::Abort(_)) = call {
                self.note(id)?.aborted = endpoint.state.is_closed();
            }
            self.touch(world, id, line)?;
        }
        Ok(())
    }

    /// What came last to an endpoint.
    pub(crate) fn came(&mut self, id: EndpointId) -> Result<&mut Batches, OutOfMemory> {
        let key = (id.host as u8, id.number);
        let new = Batches::new(self.alloc);
        Ok(self.batches.entry(key)?.or_insert(new))
    }

    /// What is remembered of an endpoint.
    pub(crate) fn note(&mut self, id: EndpointId) -> Result<&mut Note, OutOfMemory> {
        let key = (id.host as u8, id.number);
        Ok(self.notes.entry(key)?.or_default())
    }
}

/// The call that begins in a line.
pub(crate) fn call_in<'c>(case: &'c Case<'_>, line: u64) -> Option<&'c Call> {
    match &case.line(line)?.event {
        Event::CallBegin(call) => Some(call),
        _ => None,
    }
}

// The endpoint that a call names by its socket number.
fn endpoint_named(world: &World, call: &Call) -> Option<EndpointId> {
    let socket = socket_of(call)?;
    endpoint_at_socket(world, Host::Zero, socket).or(endpoint_at_socket(world, Host::One, socket))
}

fn endpoint_at_socket(world: &World, host: Host, socket: u32) -> Option<EndpointId> {
    match world.body(host).target(socket)? {
        SocketTarget::EndpointAt(number) => Some(EndpointId { host, number }),
        SocketTarget::ListenerAt(_) => None,
    }
}

/// The endpoint of a host that was created last with these ports. None: there was none.
pub(crate) fn endpoint_of(
    world: &World,
    host: Host,
    lport: u16,
    rport: u16,
) -> Option<(EndpointId, &Endpoint)> {
    let number = world.body(host).place_of(lport, rport)?;
    let id = EndpointId { host, number };
    Some((id, endpoint_at(world, id)?))
}

/// The endpoint at a place.
pub(crate) fn endpoint_at(world: &World, id: EndpointId) -> Option<&Endpoint> {
    world.body(id.host).endpoint_at(id.number)
}
