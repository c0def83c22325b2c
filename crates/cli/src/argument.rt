//! The segment that the argument of `segment` encodes.

ghost use Rattle.cli.specs.HexText.{Gives};

use hex::FromHexError;
use segment::{SegFault, Segment, decode};
use std::alloc::Global;
use thiserror::Error;

/// Why a text encodes no segment.
#[derive(Clone, Copy, Debug, PartialEq, Eq, Error)]
pub(crate) enum ArgumentFault {
    /// It isn't hex: the count of its digits is odd, or a digit is wrong.
    #[error("the text is no hex")]
    Hex,
    /// Its bytes encode no segment.
    #[error("the bytes are no segment")]
    Segment(SegFault),
    /// Memory ran out; the text may be right.
    #[error("out of memory")]
    OutOfMemory,
}

/// The segment that a hex text encodes, in upper or lower case, or the first fault.
pub(crate) fn read_segment(alloc: Global, text: &str) -> Result<Segment, ArgumentFault>
    ensures { Gives result text.now }
{
    let bytes = match hex::decode(alloc, text.as_bytes()) {
        Ok(bytes) => bytes,
        Err(FromHexError::OutOfMemory) => return Err(ArgumentFault::OutOfMemory),
        Err(_) => return Err(ArgumentFault::Hex),
    };
    match decode(alloc, bytes.as_slice()) {
        Ok(segment) => Ok(segment),
        Err(SegFault::OutOfMemory) => Err(ArgumentFault::OutOfMemory),
        Err(fault) => Err(ArgumentFault::Segment(fault)),
    }
}
