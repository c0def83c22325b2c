//! A pass, and what it found.

use crate::choices::Choices;
use crate::findings::Findings;
use crate::key::EndpointKey;
use crate::pass::{Pass, Sought};
use case_forms::OutOfMemory;
use std::alloc::Global;
use verdict::Rule;

/// A line that no step explains.
#[derive(Clone, Copy)]
pub(crate) struct Failure {
    /// Its place among the event lines, from 0.
    pub place: usize,
    /// The rule that the last step breaks.
    pub rule: Rule,
    /// The endpoint to which the line applies. None: it may be any.
    pub key: Option<EndpointKey>,
}

/// How a pass ended.
#[derive(Clone, Copy)]
pub(crate) enum End {
    /// All lines are explained.
    Whole,
    /// A step was refused.
    Refused(Failure),
    /// The line at this place needs more steps than a case can have.
    TooManySteps { place: usize },
}

/// A pass over the lines, and what it found.
#[derive(Drop)]
pub(crate) struct Attempt {
    pub findings: Findings,
    pub end: End,
    /// How many steps it took, and 1.
    pub cost: u64,
}

impl Attempt {
    /// Before any pass.
    pub(crate) fn new(alloc: Global) -> Attempt {
        Attempt {
            findings: Findings::new(alloc),
            end: End::Whole,
            cost: 0,
        }
    }

    /// Makes a pass over the lines with these choices. Its result replaces that of an earlier one.
    pub(crate) fn search(
        &mut self,
        sought: Sought<'_>,
        choices: &Choices,
    ) -> Result<(), OutOfMemory> {
        let mut pass = Pass::new(sought, choices);
        let end = pass.run();
        self.cost = pass.exchange(&mut self.findings).saturating_add(1);
        drop(pass);
        self.end = end?;
        Ok(())
    }

    /// Where a step was refused. None: none was.
    pub(crate) fn failure(&self) -> Option<Failure> {
        match self.end {
            End::Refused(failure) => Some(failure),
            End::Whole | End::TooManySteps { .. } => None,
        }
    }

    /// Whether it explains the line at this place, and so all lines before it.
    pub(crate) fn explains(&self, place: usize) -> bool {
        self.failure().is_none_or(|failure| failure.place > place)
    }
}
