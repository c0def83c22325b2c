//! Why a step was refused.

ghost use Rattle.std.specs.Prelude.{◌≡◌};
ghost use Rattle.endpoint_state.specs.declared.fault.StepFault.TheVariants as faults;

use std::alloc::{AllocError, AllocFailed};
use thiserror::Error;
use verdict::Rule;

/// Why a step was refused. The world is unchanged then.
#[derive(Clone, Copy, Debug, PartialEq, Eq, Error)]
pub enum StepFault {
    /// The step breaks this rule and no lesser one.
    #[error("the step breaks the rule {0}")]
    Broken(Rule),
    /// The step breaks no rule, and memory ran out.
    #[error("out of memory")]
    OutOfMemory,
}

impl From<Rule> for StepFault {
    ghost from_gives = { λ rule fault. fault ≡ faults.Broken rule };

    fn from(rule: Rule) -> StepFault {
        StepFault::Broken(rule)
    }
}

impl From<AllocError> for StepFault {
    ghost from_gives = { λ _ fault. fault ≡ faults.OutOfMemory };

    fn from(_error: AllocError) -> StepFault {
        StepFault::OutOfMemory
    }
}

impl<T: Drop> From<AllocFailed<T>> for StepFault {
    ghost from_gives = { λ _ fault. fault ≡ faults.OutOfMemory };

    fn from(_error: AllocFailed<T>) -> StepFault {
        StepFault::OutOfMemory
    }
}
