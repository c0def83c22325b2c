//! Why bytes are not a segment, and why a segment can't be encoded.

ghost use Rattle.std.specs.Prelude.{◌≡◌};
ghost use Rattle.segment.specs.Faults.{fault_name};
ghost use Rattle.segment.specs.declared.fault.SegFault.TheVariants as seg;
ghost use Rattle.segment.specs.declared.fault.EncFault.TheVariants as enc;

use std::alloc::{AllocError, AllocFailed};
use thiserror::Error;

/// Why bytes are not a segment. If several faults apply, the first in this order is reported.
#[derive(Clone, Copy, Debug, PartialEq, Eq, Error)]
pub enum SegFault {
    /// There are too few bytes for a header.
    #[error("a segment has at least 20 bytes")]
    Short,
    /// The data offset is too small for a header, or the header extends past the end of the bytes.
    #[error("the data offset is below 5 or passes the end")]
    Offset,
    /// An option's length byte is missing, below 2, or extends past the end of the options.
    #[error("an option's length is missing, too small or passes the end")]
    OptionLength,
    /// There are too many bytes for a segment.
    #[error("a segment has at most 65515 bytes")]
    TooLong,
    /// Memory ran out; the bytes may be valid.
    #[error("out of memory")]
    OutOfMemory,
}

impl SegFault {
    /// The name under which it is printed.
    pub fn name(self) -> &'static str
        ensures { result.now ≡ fault_name self }
    {
        match self {
            SegFault::Short => "short",
            SegFault::Offset => "offset",
            SegFault::OptionLength => "option-length",
            SegFault::TooLong => "too-long",
            SegFault::OutOfMemory => "memory",
        }
    }
}

/// Why a segment can't be encoded.
#[derive(Clone, Copy, Debug, PartialEq, Eq, Error)]
pub enum EncFault {
    /// There would be too many bytes for a segment.
    #[error("a segment has at most 65515 bytes")]
    TooLong,
    /// Memory ran out; the segment may be valid.
    #[error("out of memory")]
    OutOfMemory,
}

impl From<AllocError> for SegFault {
    ghost from_gives = { λ _ e. e ≡ seg.OutOfMemory };

    fn from(_e: AllocError) -> SegFault {
        SegFault::OutOfMemory
    }
}

impl From<AllocError> for EncFault {
    ghost from_gives = { λ _ e. e ≡ enc.OutOfMemory };

    fn from(_e: AllocError) -> EncFault {
        EncFault::OutOfMemory
    }
}

impl<T: Drop> From<AllocFailed<T>> for EncFault {
    ghost from_gives = { λ _ e. e ≡ enc.OutOfMemory };

    fn from(_e: AllocFailed<T>) -> EncFault {
        EncFault::OutOfMemory
    }
}
