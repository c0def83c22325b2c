//! A case up to the refused step: the world before it, and what the step is about.

use crate::allowed::endpoint_named;
use crate::other_windows::OtherWindows;
use crate::restarts::Restarts;
use case_forms::{
    Answer, Event, Extras, Header, Host, Label, Line, NamedLine, Recovery, SegmentPlan, Step,
    TakeChoice, Timer, Wire,
};
use duties::{Duties, view_of};
use endpoint_state::{Endpoint, World};
use flights::{Flights, ProbeStanding, Standing};
use replayed::{Case, Debtor, Held, Refusal, Replay, ReplayFault, line_at, socket_of};
use spec_tcp::{Arrived, Emission, EndpointId};
use std::alloc::Global;
use std::collections::BTreeMap;

/// The steps before the refused one, or all steps if none is refused, and what they leave.
#[derive(Drop)]
pub(crate) struct Past<'c> {
    alloc: Global,
    replay: Replay<'c>,
    /// For each line used, the line of the witness that used it.
    used: BTreeMap<u64, u64>,
    /// If the refused step builds a segment, other windows of the endpoint that builds it.
    others: Option<OtherWindows>,
    /// If the refused step builds a segment or a retransmission timer expires, when that timer was armed.
    restarts: Option<Restarts>,
}

impl<'c> Past<'c> {
    /// A case before its first step.
    pub(crate) fn new(alloc: Global, case: &'c Case<'c>) -> Past<'c> {
        Past {
            alloc,
            replay: Replay::new(alloc, case),
            used: BTreeMap::new(alloc),
            others: OtherWindows::from_step(alloc, case.refused_step()),
            restarts: Restarts::from_step(case, case.refused_step()),
        }
    }

    /// Does the steps.
    pub(crate) fn run(&mut self) -> Result<(), ReplayFault> {
        let steps = self.replay.case().steps_before_refusal();
        for (place, step) in steps.iter().enumerate() {
            if let Label::L(named) = &step.label {
                self.used.insert(named.number, witness_line(Some(place)))?;
            }
            self.do_step(step)?;
        }
        if let Some(restarts) = &mut self.restarts {
            restarts.follow(self.replay.world());
        }
        Ok(())
    }

    fn do_step(&mut self, step: &Step) -> Result<(), ReplayFault> {
        if let Some(restarts) = &mut self.restarts {
            restarts.follow(self.replay.world());
        }
        let Some(others) = &mut self.others else {
            return self.replay.apply(step);
        };
        others.note(self.replay.world(), step);
        self.replay.apply(step)?;
        others.follow(self.replay.world(), step.moment)?;
        Ok(())
    }

    /// What is known after the steps.
    pub(crate) fn scene(&self) -> Scene<'_> {
        let (replay, case) = (&self.replay, self.replay.case());
        let step = case.refused_step();
        Scene {
            alloc: self.alloc,
            case,
            before: case.steps_before_refusal(),
            step,
            world: replay.world(),
            duties: replay.duties(),
            flights: replay.flights(),
            used: &self.used,
            others: self.others.as_ref(),
            restarts: self.restarts,
            touched: match step {
                Some(step) => replay.touched(step),
                None => None,
            },
            debtor: replay.debtor(),
            held: replay.held(),
            standing: match step {
                Some(step) => replay.standing(step),
                None => None,
            },
        }
    }
}

/// What is known at the refused step, or after the last step if none is refused.
#[derive(Clone, Copy)]
pub(crate) struct Scene<'c> {
    pub alloc: Global,
    case: &'c Case<'c>,
    /// The steps before the refused one.
    pub before: &'c [Step],
    /// The refused step. None: a rule is broken after the last step.
    pub step: Option<&'c Step>,
    pub world: &'c World,
    pub duties: &'c Duties,
    pub flights: &'c Flights,
    /// For each line used, the line of the witness that used it.
    pub used: &'c BTreeMap<u64, u64>,
    /// If the step builds a segment, other windows of the endpoint that builds it.
    pub others: Option<&'c OtherWindows>,
    /// If the step builds a segment or a retransmission timer expires, when that timer was armed.
    restarts: Option<Restarts>,
    /// The endpoint that the step touches. None: it touches none, or creates one.
    pub touched: Option<EndpointId>,
    /// The endpoint whose duty is late at the step or after the last one. None: the rule is none of 44 to 49.
    pub debtor: Option<Debtor>,
    /// The segment that was built and is late, if the header has version 6. None: none is.
    pub held: Option<Held>,
    /// If both SYNs permitted SACK, what the endpoint knows of losses when the step sends data again or begins fast
    /// recovery, and may not. The header has version 6.
    pub standing: Option<Standing>,
}

/// The step that built a segment.
#[derive(Clone, Copy)]
pub(crate) struct BuiltBy<'c> {
    /// Its line of the witness.
    pub line: u64,
    /// The text of that line.
    pub text: &'c [u8],
    pub step: &'c Step,
}

/// What a step is about, and the endpoint that it concerns.
#[derive(Clone, Copy)]
pub(crate) enum Object<'s> {
    /// The effect of a thread's call, with this answer.
    Effect(u32, &'s Answer),
    /// The end of a thread's call, with this answer.
    End(u32, &'s Answer),
    Building(Building<'s>),
    /// A line that shows a built segment, which has this number, as sent.
    Sent(&'s Emission, u32, &'s Wire),
    /// A line that shows a copy of a sent segment as received.
    Came(&'s Emission, &'s Wire),
    Processing(Processing<'s>),
    /// A segment that is processed where no connection is open, with this choice.
    Listening(Host, &'s Emission, TakeChoice),
    /// A segment that a reset answers.
    Answered(Host, &'s Emission),
    Expiring(Expiring<'s>),
    /// Fast recovery begins.
    Recovering(&'s Endpoint, Recovery),
    /// Something else, or its endpoint or its segment doesn't exist.
    Other,
}

/// A segment that an endpoint builds.
#[derive(Clone, Copy)]
pub(crate) struct Building<'s> {
    pub host: Host,
    pub plan: &'s SegmentPlan,
    pub endpoint: &'s Endpoint,
}

/// A segment that an endpoint processes.
#[derive(Clone, Copy)]
pub(crate) struct Processing<'s> {
    pub host: Host,
    pub endpoint: &'s Endpoint,
    pub m: &'s Emission,
    pub choice: TakeChoice,
}

/// A timer of an endpoint that expires with the step's line.
#[derive(Clone, Copy)]
pub(crate) struct Expiring<'s> {
    pub endpoint: &'s Endpoint,
    pub timer: Timer,
}

impl<'c> Scene<'c> {
    pub(crate) fn header(&self) -> &'c Header {
        &self.case.trace.header
    }

    /// The event lines of the trace.
    pub(crate) fn lines(&self) -> &'c [Line] {
        self.case.trace.lines.as_slice()
    }

    /// Where the case is refused.
    pub(crate) fn refusal(&self) -> Refusal<'c> {
        self.case.refusal()
    }

    /// The moment of the last step before the refused one.
    pub(crate) fn last_moment(&self) -> u64 {
        match self.before.last() {
            Some(step) => step.moment,
            None => 0,
        }
    }

    /// The moment of the step.
    pub(crate) fn moment(&self) -> u64 {
        match self.step {
            Some(step) => step.moment,
            None => 0,
        }
    }

    /// The label of the step. None: a rule is broken after the last step.
    pub(crate) fn label(&self) -> Option<&'c Label<NamedLine>> {
        Some(&self.step?.label)
    }

    /// The line of the witness that used a line of the trace. None: none did before the step.
    pub(crate) fn used_by(&self, line: u64) -> Option<u64> {
        self.used.get(&line).copied()
    }

    /// The step that built the segment of this number. None: none did before the refused step.
    pub(crate) fn built_by(&self, number: u32) -> Option<BuiltBy<'c>> {
        let case = self.case;
        let witness = case.texts.witness;
        let mut count: u32 = 0;
        for (place, step) in self.before.iter().enumerate() {
            if let Label::M { .. } | Label::R { .. } = &step.label {
                count = count.saturating_add(1);
                if count == number {
                    let line = witness_line(Some(place));
                    let text = line_at(witness, line)?;
                    return Some(BuiltBy { line, text, step });
                }
            }
        }
        None
    }

    /// The line of the trace with this number. None: the trace has no such event line.
    pub(crate) fn line(&self, number: u64) -> Option<&'c Line> {
        self.case.line(number)
    }

    /// The endpoint of a host with these ports, closed or not.
    pub(crate) fn endpoint(&self, host: Host, lport: u16, rport: u16) -> Option<&Endpoint> {
        self.world.body(host).endpoint_of(lport, rport)
    }

    /// The endpoint of a segment's ports, closed or not.
    pub(crate) fn taker(&self, host: Host, m: &Emission) -> Option<&Endpoint> {
        self.endpoint(host, m.rport, m.lport)
    }

    /// A segment as an endpoint reads it. None: the endpoint is beyond the greatest position.
    pub(crate) fn as_read<'m>(&self, endpoint: &Endpoint, m: &'m Emission) -> Option<Arrived<'m>> {
        Arrived::checked_read(self.header().version, endpoint, m)
    }

    /// The line of the trace that the step uses, by its number; 0 if it uses none.
    pub(crate) fn named(&self) -> NamedLine {
        match self.label() {
            Some(Label::L(named)) => *named,
            _ => NamedLine {
                number: 0,
                extras: Extras::Bare,
            },
        }
    }

    /// Since when the retransmission timer would run if a new acknowledgment hadn't restarted it, if an expiry at the
    /// step is then on time. The step lets the timer expire or builds a segment.
    pub(crate) fn unrestarted(&self) -> Option<u64> {
        let endpoint = match self.object() {
            Object::Expiring(it) => it.endpoint,
            Object::Building(it) => it.endpoint,
            _ => return None,
        };
        let rto = endpoint.timers.rto;
        self.restarts?.fitting(self.header(), rto, self.moment())
    }

    /// The endpoint that the step touches, that its call or its segment names, or whose duty is late.
    pub(crate) fn concerned(&self) -> Option<&Endpoint> {
        if let Some(id) = self.touched {
            return self.world.body(id.host).endpoint_at(id.number);
        }
        if let Some(Debtor { id, .. }) = self.debtor {
            return self.world.body(id.host).endpoint_at(id.number);
        }
        match self.label()? {
            Label::D { thread, .. } => {
                endpoint_named(self.world, socket_of(self.world.pending_call(*thread)?)?)
            }
            Label::R { host, line } => self.taker(*host, self.world.waiting(*host, *line)?),
            _ => None,
        }
    }

    /// Whether an endpoint may probe for a loss, and if not, why. None: the version is 1 to 5.
    pub(crate) fn probe_standing(&self, id: EndpointId) -> Option<ProbeStanding> {
        let endpoint = self.world.body(id.host).endpoint_at(id.number)?;
        let view = view_of(endpoint);
        self.flights
            .probe_standing(self.header(), id.host, id.number, &view)
    }

    /// Whether the step builds a segment.
    pub(crate) fn builds(&self) -> bool {
        self.others.is_some()
    }

    /// What the step is about.
    pub(crate) fn object(&self) -> Object {
        self.known_object().unwrap_or(Object::Other)
    }

    fn known_object(&self) -> Option<Object> {
        Some(match self.label()? {
            Label::L(named) => return self.object_of_line(*named),
            Label::D { thread, answer } => Object::Effect(*thread, answer),
            Label::M { host, plan } => Object::Building(Building {
                host: *host,
                plan,
                endpoint: self.endpoint(*host, plan.lport, plan.rport)?,
            }),
            Label::T { host, line, choice } => return self.processed(*host, *line, *choice),
            Label::R { host, line } => Object::Answered(*host, self.world.waiting(*host, *line)?),
            Label::F { host, recovery } => {
                let endpoint = self.endpoint(*host, recovery.lport, recovery.rport)?;
                Object::Recovering(endpoint, *recovery)
            }
            Label::K { .. } => return None,
        })
    }

    fn object_of_line(&self, named: NamedLine) -> Option<Object> {
        let (line, extra) = (self.line(named.number)?, first_extra(named.extras));
        Some(match &line.event {
            Event::CallBegin(_) => return None,
            Event::CallEnd(answer) => Object::End(line.thread, answer),
            Event::Sent(host, wire) => {
                Object::Sent(self.world.made(*host, extra)?.emission(), extra, wire)
            }
            Event::Came(host, wire) => {
                Object::Came(self.world.sent(host.other(), u64::from(extra))?, wire)
            }
            Event::Expired(host, lport, rport, timer) => Object::Expiring(Expiring {
                endpoint: self.endpoint(*host, *lport, *rport)?,
                timer: *timer,
            }),
        })
    }

    fn processed(&self, host: Host, line: u64, choice: TakeChoice) -> Option<Object> {
        let m = self.world.waiting(host, line)?;
        Some(match self.taker(host, m) {
            Some(endpoint) if !endpoint.state.is_closed() => Object::Processing(Processing {
                host,
                endpoint,
                m,
                choice,
            }),
            _ => Object::Listening(host, m, choice),
        })
    }
}

/// The first extra number of a step that uses a line; 0 if it has none.
pub(crate) fn first_extra(extras: Extras) -> u32 {
    match extras {
        Extras::Bare => 0,
        Extras::One(first) | Extras::Two(first, _) => first,
    }
}

/// The line of the witness that has the step of this place; 0 if there is none.
pub(crate) fn witness_line(place: Option<usize>) -> u64 {
    place.map_or(0, |place| (place as u64).saturating_add(2))
}
