//! The world of a case, and its duties, before and after each step.

ghost use Rattle.std.specs.Prelude.{◌<◌, IsTrue};
ghost use Rattle.spec_tcp.specs.Bounds.{most_steps};
ghost use Rattle.spec_step.specs.Acts.{IsSmall};

use crate::case::Case;
use case_forms::{Extras, GREATEST_POSITION, Line, MOST_STEPS, Step};
use duties::Duties;
use endpoint_state::{StepFault, World};
use flights::Flights;
use line_fields::{SourceFault, TextFault};
use spec_step::{Act, Hidden, act_of};
use std::alloc::{AllocError, AllocFailed, Global};
use thiserror::Error;
use watched::{apply_hidden, take_line};

/// Why a case can't be replayed.
#[derive(Clone, Copy, Debug, Error)]
pub enum ReplayFault {
    /// The world has had as many steps as it can have. No witness that can be read has so many.
    #[error("too many steps: a world has at most 40,000,000")]
    TooManySteps,
    /// Memory ran out.
    #[error("out of memory")]
    OutOfMemory,
}

// The texts that are replayed were read before, so reading them again fails only if memory runs out.
impl From<TextFault> for ReplayFault {
    fn from(_fault: TextFault) -> ReplayFault {
        ReplayFault::OutOfMemory
    }
}

impl From<SourceFault> for ReplayFault {
    fn from(fault: SourceFault) -> ReplayFault {
        ReplayFault::from(TextFault::from(fault))
    }
}

impl From<AllocError> for ReplayFault {
    fn from(_e: AllocError) -> ReplayFault {
        ReplayFault::OutOfMemory
    }
}

impl<T: Drop> From<AllocFailed<T>> for ReplayFault {
    fn from(_e: AllocFailed<T>) -> ReplayFault {
        ReplayFault::OutOfMemory
    }
}

/// A replay of a case.
#[derive(Drop)]
pub struct Replay<'c> {
    case: &'c Case<'c>,
    pub(crate) watched: watched::Case,
}

impl<'c> Replay<'c> {
    /// A replay before the first step.
    pub fn new(alloc: Global, case: &'c Case<'c>) -> Replay<'c> {
        Replay {
            case,
            watched: watched::Case::start(alloc, &case.trace.header),
        }
    }

    /// The world after the steps that were done.
    pub fn world(&self) -> &World {
        self.watched.world()
    }

    /// What its hosts owe after these steps. Nothing, if the header has no slack.
    pub fn duties(&self) -> &Duties {
        self.watched.duties()
    }

    /// What is kept of data in flight after these steps: nothing in versions 1 to 5.
    pub fn flights(&self) -> &Flights {
        self.watched.flights()
    }

    /// The case that is replayed.
    pub fn case(&self) -> &'c Case<'c> {
        self.case
    }

    /// Does the steps before the refused one, or all of them.
    pub fn run(&mut self) -> Result<(), ReplayFault> {
        for step in self.case.steps_before_refusal() {
            self.apply(step)?;
        }
        Ok(())
    }

    /// Does a step. After one that a duty refuses, the replay is of no use.
    pub fn apply(&mut self, step: &Step) -> Result<(), ReplayFault> {
        match act_of(&step.label) {
            Act::Line(named) => match self.case.line(named.number) {
                Some(line) => {
                    apply_taken(&mut self.watched, step.moment, line.copy()?, named.extras)
                }
                None => Ok(()),
            },
            Act::Hidden(hidden) => apply_other(&mut self.watched, step.moment, &hidden),
        }
    }
}

/// Uses a line, whose segment isn't copied. After a step that a duty refuses, the case is of no use.
pub(crate) fn apply_taken(
    watched: &mut watched::Case,
    moment: u64,
    line: Line,
    extras: Extras,
) -> Result<(), ReplayFault> {
    if !may_go_on(watched) {
        return Err(ReplayFault::TooManySteps);
    }
    unless_broken(take_line(watched, moment, line, extras))
}

/// Does a step that uses no line, in the same way.
pub(crate) fn apply_other(
    watched: &mut watched::Case,
    moment: u64,
    step: &Hidden<'_>,
) -> Result<(), ReplayFault> {
    if !may_go_on(watched) {
        return Err(ReplayFault::TooManySteps);
    }
    if !is_small(step) {
        return Ok(());
    }
    unless_broken(apply_hidden(watched, moment, step))
}

// A step that breaks a rule isn't done, which is no fault.
fn unless_broken(done: Result<(), StepFault>) -> Result<(), ReplayFault> {
    match done {
        Ok(()) | Err(StepFault::Broken(_)) => Ok(()),
        Err(StepFault::OutOfMemory) => Err(ReplayFault::OutOfMemory),
    }
}

/// Whether a world can do one more step. It always can in a replay of a case that can be read.
pub fn has_room(world: &World) -> bool
    ensures { IsTrue result → world.now.steps < most_steps }
{
    world.steps() < MOST_STEPS
}

// The same for a case.
fn may_go_on(watched: &watched::Case) -> bool
    ensures { IsTrue result → watched.now.steps < most_steps }
{
    watched.steps() < MOST_STEPS
}

/// Whether the position that a step names is within limits; no witness that can be read has another.
pub(crate) fn is_small(step: &Hidden<'_>) -> bool
    ensures { IsTrue result → IsSmall step.now }
{
    match step {
        Hidden::Build { plan, .. } => plan.pos <= GREATEST_POSITION,
        _ => true,
    }
}
