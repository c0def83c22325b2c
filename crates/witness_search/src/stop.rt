//! Why a step isn't done.

use endpoint_state::StepFault;
use std::alloc::{AllocError, AllocFailed};
use verdict::Rule;

/// Why a step isn't done. The world is unchanged then.
#[derive(Clone, Copy)]
pub(crate) enum Stop {
    /// The step breaks this rule and no lesser one.
    Broken(Rule),
    /// A case can't have more steps.
    TooManySteps,
    OutOfMemory,
}

impl From<StepFault> for Stop {
    fn from(fault: StepFault) -> Stop {
        match fault {
            StepFault::Broken(rule) => Stop::Broken(rule),
            StepFault::OutOfMemory => Stop::OutOfMemory,
        }
    }
}

impl From<AllocError> for Stop {
    fn from(_error: AllocError) -> Stop {
        Stop::OutOfMemory
    }
}

impl<T: Drop> From<AllocFailed<T>> for Stop {
    fn from(_error: AllocFailed<T>) -> Stop {
        Stop::OutOfMemory
    }
}

/// What a step gave. None: it breaks a rule.
pub(crate) fn permitted<T: Drop>(done: Result<T, Stop>) -> Result<Option<T>, Stop> {
    match done {
        Ok(given) => Ok(Some(given)),
        Err(Stop::Broken(_)) => Ok(None),
        Err(stop) => Err(stop),
    }
}
