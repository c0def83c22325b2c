//! A method that does a step writes it down if it was done.

ghost use Rattle.std.specs.Prelude.{◌<◌, OnOk};
ghost use Rattle.spec_tcp.specs.Bounds.{most_steps};
ghost use Rattle.spec_step.specs.Acts.{IsSmall};

use super::{Progress, Will, saturated};
use crate::key::EndpointKey;
use crate::log::extras_of;
use crate::stop::Stop;
use crate::watch::Watch;
use case_forms::{
    Answer, Call, Expired, Extras, GREATEST_POSITION, Host, Label, MOST_STEPS, NamedLine,
    OutOfMemory, Recovery, SegmentPlan, TakeChoice, TakenLine, Wire,
};
use endpoint_state::{StepFault, World};
use spec_step::{Hidden, ModelStep};
use verdict::Rule;

// Whether the world may do one more step.
fn has_room(world: &World) -> Result<(), Stop>
    ensures { OnOk result (world.now.steps < most_steps) }
{
    if world.steps() < MOST_STEPS {
        Ok(())
    } else {
        Err(Stop::TooManySteps)
    }
}

// The label of a step that takes no line.
fn label_of(step: Hidden<'_>) -> Result<Label<NamedLine>, OutOfMemory> {
    Ok(match step {
        Hidden::Effect { thread, answer } => Label::D {
            thread,
            answer: answer.copy()?,
        },
        Hidden::Build { host, plan } => Label::M { host, plan: *plan },
        Hidden::Process { host, line, choice } => Label::T { host, line, choice },
        Hidden::Drop { host, line } => Label::K { host, line },
        Hidden::Reset { host, line } => Label::R { host, line },
        Hidden::Recover { host, recovery } => Label::F { host, recovery },
    })
}

impl Progress {
    // Whether something is kept beside the model: what hosts owe, or, from version 6 on, data in flight.
    fn is_watched(&self) -> bool {
        self.slack().is_some() || self.is_strict()
    }

    // Whether the version is 6 or later: then calls that wait are judged, too.
    fn is_strict(&self) -> bool {
        self.world.header().version.says_sender()
    }

    // How a step that is done now is judged beside the model.
    fn watch(&self, will: Will) -> Watch {
        Watch {
            slack: self.slack(),
            moment: self.log.moment,
            forgives: self.log.forgives && will == Will::Insist,
        }
    }

    // Does a step that takes a line and is judged beside the model.
    fn watch_line(&mut self, line: TakenLine, will: Will) -> Result<(), StepFault>
        requires { self.old.world.steps < most_steps }
    {
        let watch = self.watch(will);
        let broken = watch.line(&mut self.world, &mut self.beside, line)?;
        self.log.forgive(broken);
        Ok(())
    }

    // Does a step that takes no line.
    fn do_hidden(&mut self, step: Hidden<'_>, will: Will) -> Result<(), StepFault>
        requires steps { self.old.world.steps < most_steps }
        requires small { IsSmall step }
    {
        if !self.is_watched() {
            return step.apply(&mut self.world, self.log.moment);
        }
        let watch = self.watch(will);
        let broken = watch.hidden(&mut self.world, &mut self.beside, step)?;
        self.log.forgive(broken);
        Ok(())
    }

    // Does a step that takes no line, and writes it down, also if it isn't done and nothing else is left to do. What it
    // answers is copied only then.
    fn hidden(&mut self, step: Hidden<'_>, will: Will) -> Result<(), Stop>
        requires { IsSmall step }
    {
        has_room(&self.world)?;
        let done = self.do_hidden(step, will);
        if done.is_ok() || will == Will::Insist {
            self.log.push_step(label_of(step)?)?;
        }
        Ok(done?)
    }

    /// The current line begins a call.
    pub(crate) fn begin(&mut self, thread: u32, call: &Call) -> Result<u64, Stop> {
        has_room(&self.world)?;
        let (line, call) = (self.log.number, call.copy()?);
        let done = if self.is_strict() {
            self.watch_line(TakenLine::CallBegin { line, thread, call }, Will::Insist)
        } else {
            self.world.begin(thread, call)
        };
        self.log.push_current(Extras::Bare, done)
    }

    /// The current line ends a call.
    pub(crate) fn finish(&mut self, thread: u32, answer: &Answer) -> Result<u64, Stop> {
        has_room(&self.world)?;
        let line = self.log.number;
        let done = if self.is_strict() {
            let answer = answer.copy()?;
            self.watch_line(
                TakenLine::CallEnd {
                    line,
                    thread,
                    answer,
                },
                Will::Insist,
            )
        } else {
            self.world.finish(thread, answer)
        };
        self.log.push_current(Extras::Bare, done)
    }

    /// A host sends a built segment with the current line.
    pub(crate) fn send(&mut self, host: Host, made: u32, wire: &Wire) -> Result<u64, Stop> {
        has_room(&self.world)?;
        let (line, moment) = (self.log.number, self.log.moment);
        let wire = wire.copy()?;
        let done = if self.is_watched() {
            self.watch_line(
                TakenLine::Sent {
                    line,
                    host,
                    made,
                    wire,
                },
                Will::Insist,
            )
        } else {
            self.world.send(host, line, made, wire, moment)
        };
        self.log.push_current(Extras::One(made), done)
    }

    /// A segment of the host that isn't recorded arrives with the current line.
    pub(crate) fn hear(&mut self, host: Host, wire: &Wire) -> Result<u64, Stop> {
        has_room(&self.world)?;
        let (line, moment) = (self.log.number, self.log.moment);
        let done = if self.is_watched() {
            let wire = wire.copy()?;
            self.watch_line(TakenLine::Heard { line, host, wire }, Will::Insist)
        } else {
            self.world.hear(host, line, wire, moment)
        };
        self.log.push_current(Extras::Bare, done)
    }

    /// A copy of another line's segment arrives with the current line.
    pub(crate) fn arrive(&mut self, host: Host, copied: u64, wire: &Wire) -> Result<u64, Stop> {
        has_room(&self.world)?;
        let (line, moment) = (self.log.number, self.log.moment);
        let wire = wire.copy()?;
        let done = if self.is_watched() {
            self.watch_line(
                TakenLine::Came {
                    line,
                    host,
                    copied,
                    wire,
                },
                Will::Insist,
            )
        } else {
            self.world.arrive(host, line, copied, wire, moment)
        };
        self.log.push_current(Extras::One(saturated(copied)), done)
    }

    // A timer expires with the next line.
    fn expire_by(&mut self, key: EndpointKey, expired: Expired, will: Will) -> Result<(), StepFault>
        requires { self.old.world.steps < most_steps }
    {
        let (host, ports, line) = (key.host(), key.ports(), self.log.number);
        if self.is_watched() {
            self.watch_line(
                TakenLine::Expired {
                    line,
                    host,
                    ports,
                    expired,
                },
                will,
            )
        } else {
            Ok(self.world.expire(host, ports, expired, self.log.moment)?)
        }
    }

    /// A timer expires with the current line.
    pub(crate) fn expire(&mut self, key: EndpointKey, expired: Expired) -> Result<u64, Stop> {
        has_room(&self.world)?;
        let done = self.expire_by(key, expired, Will::Insist);
        self.note_expiry(key, expired);
        self.log.push_current(extras_of(expired), done)
    }

    // The ways of the hosts see an expiry.
    fn note_expiry(&mut self, key: EndpointKey, expired: Expired) {
        if let Expired::Rto(_) = expired {
            self.log.ways.expire(key);
        }
    }

    /// A timer expires with an added line, which precedes the first line that has no step yet.
    pub(crate) fn add_line(&mut self, key: EndpointKey, expired: Expired) -> Result<(), Stop> {
        has_room(&self.world)?;
        self.expire_by(key, expired, Will::Try)?;
        self.note_expiry(key, expired);
        self.log.push_added(key, expired)
    }

    /// A thread's open call has its effect, with this answer.
    pub(crate) fn effect(&mut self, thread: u32, answer: &Answer, will: Will) -> Result<(), Stop> {
        self.hidden(Hidden::Effect { thread, answer }, will)
    }

    /// A host builds a segment. The result is the segment's number. If no step can build it, none is written down.
    pub(crate) fn make(&mut self, host: Host, plan: SegmentPlan, will: Will) -> Result<u32, Stop> {
        if plan.pos > GREATEST_POSITION {
            return Err(Stop::OutOfMemory);
        }
        let key = EndpointKey::new(host, plan.lport, plan.rport);
        if !key.can_build() {
            return Err(Stop::Broken(Rule::NotMade));
        }
        let max = self.built_at(key);
        self.hidden(Hidden::Build { host, plan: &plan }, will)?;
        self.log.ways.build(key, max, &plan)?;
        Ok(self.world.count())
    }

    // The position after all that an endpoint built.
    fn built_at(&self, key: EndpointKey) -> u64 {
        self.endpoint(key).map_or(0, |endpoint| endpoint.snd_max())
    }

    /// A host processes the segment that arrived with a line.
    pub(crate) fn take(
        &mut self,
        host: Host,
        line: u64,
        choice: TakeChoice,
        will: Will,
    ) -> Result<(), Stop> {
        self.hidden(Hidden::Process { host, line, choice }, will)
    }

    /// A host drops the segment that arrived with a line.
    pub(crate) fn drop_arrival(&mut self, host: Host, line: u64, will: Will) -> Result<(), Stop> {
        self.hidden(Hidden::Drop { host, line }, will)
    }

    /// A host answers the segment that arrived with a line by a reset. The result is the reset's number.
    pub(crate) fn reply_with_reset(&mut self, host: Host, line: u64) -> Result<u32, Stop> {
        self.hidden(Hidden::Reset { host, line }, Will::Try)?;
        Ok(self.world.count())
    }

    /// An endpoint enters fast recovery.
    pub(crate) fn recover(&mut self, key: EndpointKey, recovery: Recovery) -> Result<(), Stop> {
        let (host, max) = (key.host(), self.built_at(key));
        self.hidden(Hidden::Recover { host, recovery }, Will::Try)?;
        Ok(self.log.ways.recover(key, max)?)
    }

    /// Whether an endpoint recovers from a loss, and this may be undone.
    pub(crate) fn may_undo(&self, key: EndpointKey) -> bool {
        let host = key.host();
        match self.world.body(host).place_of(key.lport, key.rport) {
            Some(place) => self.beside.may_undo(&self.world, host, place),
            None => false,
        }
    }

    /// An endpoint undoes its recovery.
    pub(crate) fn undo(&mut self, key: EndpointKey, recovery: Recovery) -> Result<(), Stop> {
        let host = key.host();
        self.hidden(Hidden::Recover { host, recovery }, Will::Try)?;
        self.log.ways.undo(key);
        Ok(())
    }

    /// An endpoint processed an acknowledgment of what is below a position.
    pub(crate) fn acknowledge(&mut self, key: EndpointKey, ack: u64) {
        self.log.ways.acknowledge(key, ack);
    }

    /// Whether the model permits a host to build a segment now.
    pub(crate) fn admits_making(&self, host: Host, plan: &SegmentPlan) -> bool {
        let Ok(()) = has_room(&self.world) else {
            return false;
        };
        plan.pos <= GREATEST_POSITION && self.world.admits_making(host, plan).is_ok()
    }
}
