//! Why there is no recording.

use case_forms::OutOfMemory;
use recorder::{MergeFault, RecFault};
use thiserror::Error;

/// Why there is no recording.
#[derive(Clone, Copy, Debug, PartialEq, Eq, Error)]
pub enum RecordFault {
    /// A thread couldn't be started, or the books couldn't be finished or merged, for another reason than memory.
    #[error("the recording can't be made")]
    Device,
    /// Memory ran out.
    #[error("out of memory")]
    OutOfMemory,
}

impl From<OutOfMemory> for RecordFault {
    fn from(_: OutOfMemory) -> RecordFault {
        RecordFault::OutOfMemory
    }
}

impl From<RecFault> for RecordFault {
    fn from(fault: RecFault) -> RecordFault {
        match fault {
            RecFault::OutOfMemory => RecordFault::OutOfMemory,
            RecFault::Stopped | RecFault::SeatTaken => RecordFault::Device,
        }
    }
}

impl From<MergeFault> for RecordFault {
    fn from(fault: MergeFault) -> RecordFault {
        match fault {
            MergeFault::OutOfMemory => RecordFault::OutOfMemory,
            MergeFault::Stranger { .. } => RecordFault::Device,
        }
    }
}
