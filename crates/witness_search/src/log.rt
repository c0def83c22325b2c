//! The witness that a pass writes, at which line of the trace the pass is, and on what its steps depend.

use crate::findings::{Added, Findings, Forgiven};
use crate::key::EndpointKey;
use crate::pass::Sought;
use crate::search_options::ShownExpiries;
use crate::stop::Stop;
use crate::ways::WayState;
use case_forms::{Expired, Extras, Label, NamedLine, Span, Step};
use endpoint_state::StepFault;
use verdict::Rule;

/// What was done and found, and at which line; and what decides, besides the world, which step is done. It is apart
/// from the world: a method that changes a field of a value that has a world takes long to prove.
#[derive(Drop)]
pub(crate) struct Log {
    pub findings: Findings,
    /// The place of the current line, from 0.
    place: usize,
    /// The place of the first line that has no step yet.
    next: usize,
    /// The number that the next line gets in the trace with added lines.
    pub number: u64,
    /// The moment of the current line, in microseconds.
    pub moment: u64,
    /// The ways of both hosts, and what they depend on.
    pub ways: WayState,
    /// The hosts whose expiries the trace shows.
    pub expiries: ShownExpiries,
    /// Whether what duties refuse is done if nothing else is left to do.
    pub forgives: bool,
}

/// The numbers that a step adds to the line of an expiry.
pub(crate) fn extras_of(expired: Expired) -> Extras {
    match expired {
        Expired::Rto(growth) => Extras::Two(growth.cwnd, growth.ssthresh),
        Expired::Persist | Expired::Msl2 | Expired::Giveup | Expired::Pto => Extras::Bare,
    }
}

impl Log {
    /// Before the first line.
    pub(crate) fn new(sought: &Sought<'_>) -> Log {
        Log {
            findings: Findings::new(sought.alloc),
            place: 0,
            next: 0,
            number: sought.header.first_event_line(),
            moment: 0,
            ways: WayState::new(sought.alloc, sought.ways),
            expiries: sought.expiries,
            forgives: sought.forgives,
        }
    }

    /// The line at this place is the current one.
    pub(crate) fn go_to(&mut self, place: usize, moment: u64) {
        self.place = place;
        self.next = place;
        self.moment = moment;
    }

    pub(crate) fn place(&self) -> usize {
        self.place
    }

    /// Whether the line at a place has no step yet.
    pub(crate) fn is_ahead(&self, place: usize) -> bool {
        self.next <= place
    }

    /// Writes a step down.
    pub(crate) fn push_step(&mut self, label: Label<NamedLine>) -> Result<(), Stop> {
        let span = Span {
            line: 0,
            start: 0,
            stop: 0,
        };
        self.findings.steps.push(Step {
            moment: self.moment,
            label,
            span,
        })?;
        Ok(())
    }

    /// The next step breaks this rule of a duty, if any, and is done all the same.
    pub(crate) fn forgive(&mut self, broken: Option<Rule>) {
        if let (Some(rule), None) = (broken, self.findings.forgiven) {
            self.findings.forgiven = Some(Forgiven {
                before: self.findings.steps.as_slice().len(),
                added: self.findings.added.len(),
                place: self.place,
                rule,
            });
        }
    }

    /// A choice did something, or not.
    pub(crate) fn count_choice(&mut self, is_effective: bool) {
        let effective = &mut self.findings.effective;
        *effective = effective.saturating_add(u64::from(is_effective));
    }

    // Writes down the step of the next line, with these extra numbers. The result is the line's number.
    fn push_line(&mut self, extras: Extras) -> Result<u64, Stop> {
        let number = self.number;
        self.push_step(Label::L(NamedLine { number, extras }))?;
        self.number = number.saturating_add(1);
        Ok(number)
    }

    /// Writes down the step of the current line, even if it was refused: the witness then ends with it. The result is
    /// the line's number.
    pub(crate) fn push_current(
        &mut self,
        extras: Extras,
        done: Result<(), StepFault>,
    ) -> Result<u64, Stop> {
        let number = self.push_line(extras)?;
        self.next = self.place.saturating_add(1);
        done?;
        Ok(number)
    }

    /// Writes down an expiry with an added line.
    pub(crate) fn push_added(&mut self, key: EndpointKey, expired: Expired) -> Result<(), Stop> {
        self.push_line(extras_of(expired))?;
        self.findings.added.push(Added {
            before: self.next,
            moment: self.moment,
            key,
            timer: expired.timer(),
        })?;
        Ok(())
    }
}
