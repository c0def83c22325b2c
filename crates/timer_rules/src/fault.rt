//! Why a timer cannot expire.

use thiserror::Error;

/// Why an expiry was refused. The timers don't change.
#[derive(Clone, Copy, Debug, PartialEq, Eq, Error)]
pub enum TimerFault {
    /// The timer is not armed.
    #[error("the timer is off")]
    Off,
    /// The moment is before the earliest at which the timer may expire.
    #[error("the timer may not expire yet")]
    Early,
}
