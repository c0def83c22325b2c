//! What a pass knows, and the order in which it does things.

mod arrivals;
mod echoes;
mod effects;
mod expiries;
mod sent_segments;
mod unseen;

use crate::attempt::{End, Failure};
use crate::calls::{Calls, key_of_call};
use crate::choices::{Change, Choices, Remedy};
use crate::copies::Copies;
use crate::findings::Findings;
use crate::key::EndpointKey;
use crate::late::{Late, Waiting};
use crate::later_lines::{LaterLines, Outgoing};
use crate::progress::{Overdue, Progress};
use crate::search_options::ShownExpiries;
use crate::stop::Stop;
use crate::together::length_of;
use crate::ways::Ways;
use case_forms::{Event, Header, Line, OutOfMemory, Timer};
use std::alloc::{AllocError, Global};
use std::collections::BTreeMap;
use std::mem::swap;
use verdict::Rule;

/// A trace for which a witness is sought.
#[derive(Clone, Copy)]
pub(crate) struct Sought<'t> {
    pub alloc: Global,
    pub header: &'t Header,
    pub lines: &'t [Line],
    pub later: &'t LaterLines,
    /// How the hosts do what the RFCs leave open.
    pub ways: Ways,
    /// The hosts whose expiries the trace shows.
    pub expiries: ShownExpiries,
    /// Whether what a duty refuses is done if nothing else is left to do.
    pub forgives: bool,
}

/// A pass over the lines of a trace.
#[derive(Drop)]
pub(crate) struct Pass<'t> {
    sought: Sought<'t>,
    choices: &'t Choices,
    progress: Progress,
    outgoing: Outgoing<'t>,
    copies: Copies<'t>,
    calls: Calls,
    /// For its place, an arrival that waits until a later line.
    waiting: BTreeMap<usize, Waiting>,
    /// Arrivals that are processed late.
    late: Late,
}

impl<'t> Pass<'t> {
    /// A pass before the first line.
    pub(crate) fn new(sought: Sought<'t>, choices: &'t Choices) -> Pass<'t> {
        let alloc = sought.alloc;
        Pass {
            sought,
            choices,
            progress: Progress::new(&sought),
            outgoing: Outgoing::all(alloc, sought.lines, sought.later),
            copies: Copies::new(alloc),
            calls: Calls::new(alloc),
            waiting: BTreeMap::new(alloc),
            late: Late::new(alloc),
        }
    }

    /// Goes over the lines. The result is how the pass ended.
    pub(crate) fn run(&mut self) -> Result<End, OutOfMemory> {
        let explained = self.explain_all();
        let place = self.progress.log.place();
        match explained {
            Ok(()) => Ok(self.end_of_lines()),
            Err(Stop::Broken(rule)) => Ok(End::Refused(self.failure(place, rule))),
            Err(Stop::TooManySteps) => Ok(End::TooManySteps { place }),
            Err(Stop::OutOfMemory) => Err(AllocError),
        }
    }

    // How a pass ended that explained all lines.
    fn end_of_lines(&self) -> End {
        if self.progress.log.findings.forgiven.is_some() {
            return End::Whole;
        }
        match self.progress.overdue_at_end() {
            Some(Overdue { rule, key }) => {
                let place = self.sought.lines.len();
                End::Refused(Failure { place, rule, key })
            }
            None => End::Whole,
        }
    }

    // The step of the line at a place breaks a rule.
    fn failure(&self, place: usize, rule: Rule) -> Failure {
        let world = self.progress.world();
        let key = match self.sought.lines.get(place) {
            Some(line) => EndpointKey::of_line(line).or(key_of_call(world, line.thread)),
            None => None,
        };
        Failure { place, rule, key }
    }

    fn explain_all(&mut self) -> Result<(), Stop> {
        let lines = self.sought.lines;
        for (place, line) in lines.iter().enumerate() {
            self.progress.log.go_to(place, line.moment);
            self.prepare(place)?;
            self.explain(line)?;
            self.build_chosen(place)?;
            self.end_waits(place)?;
        }
        Ok(())
    }

    fn explain(&mut self, line: &'t Line) -> Result<(), Stop> {
        match &line.event {
            Event::CallBegin(call) => self.begin(line.thread, call),
            Event::CallEnd(answer) => self.end(line.thread, answer),
            Event::Sent(host, wire) => self.send(*host, wire),
            Event::Came(host, wire) => self.receive(*host, wire),
            Event::Expired(host, lport, rport, timer) => {
                self.expire_shown(EndpointKey::new(*host, *lport, *rport), *timer)
            }
        }
    }

    // Does what was chosen to happen before the line at a place.
    fn prepare(&mut self, place: usize) -> Result<(), Stop> {
        let choices = self.choices;
        for choice in choices.at(place) {
            if let Change::Before(at, remedy) = choice.change {
                let is_applied = self.apply(at, remedy)?;
                self.progress.log.count_choice(is_applied);
            }
        }
        Ok(())
    }

    // Lets something happen at an endpoint. The result is whether it did.
    fn apply(&mut self, at: EndpointKey, remedy: Remedy) -> Result<bool, Stop> {
        let timer = match remedy {
            Remedy::Rto => Timer::Rto,
            Remedy::Persist => Timer::Persist,
            Remedy::Pto if !self.builds_next(at) => return Ok(false),
            Remedy::Pto => Timer::Pto,
            Remedy::TimeWaitOver => Timer::Msl2,
            Remedy::Recovery => return self.progress.try_recovery(at),
        };
        self.try_expiry(at, timer)
    }

    // Whether the current line shows that an endpoint sends bytes or a FIN, which aren't built yet.
    fn builds_next(&self, at: EndpointKey) -> bool {
        match self.outgoing.next(at) {
            Some(shown) => { shown.place == self.progress.log.place() && 0 < length_of(shown.wire) }
            None => false,
        }
    }

    // Builds the segments that were chosen to be built after the line at a place.
    fn build_chosen(&mut self, place: usize) -> Result<(), Stop> {
        let choices = self.choices;
        for choice in choices.at(place) {
            let is_built = match choice.change {
                Change::Build(later) => self.make_early(later)?,
                Change::BuildUnseen(at, unseen) => self.make_unseen(at, unseen, u64::MAX)?,
                Change::Fate(_) => choice.place == place,
                Change::WaitUntil(_) | Change::Before(..) => false,
            };
            self.progress.log.count_choice(is_built);
        }
        Ok(())
    }

    // What waits until after the line at a place goes on.
    fn end_waits(&mut self, place: usize) -> Result<(), Stop> {
        let choices = self.choices;
        for choice in choices.at(place) {
            if choice.change == Change::WaitUntil(place) {
                self.end_wait(choice.place)?;
                self.progress.log.count_choice(true);
            }
        }
        Ok(())
    }

    // The arrival or the call of the line at a place waits no longer.
    fn end_wait(&mut self, waiting: usize) -> Result<(), Stop> {
        let lines = self.sought.lines;
        let Some(line) = lines.get(waiting) else {
            return Ok(());
        };
        match (&line.event, self.waiting.remove(&waiting)) {
            (Event::Came(..), Some(arrived)) => {
                self.take_turn(arrived, self.choices.arrival(waiting))
            }
            (Event::CallBegin(call), _) if self.calls.is_open(line.thread, waiting) => {
                self.try_first(waiting, line.thread, call)
            }
            _ => Ok(()),
        }
    }

    /// Exchanges what was found for something else. The result is how many steps were done.
    pub(crate) fn exchange(&mut self, findings: &mut Findings) -> u64 {
        swap(findings, &mut self.progress.log.findings);
        self.progress.world().steps()
    }
}
