//! Segments in hex.

ghost use Rattle.line_fields.specs.Reading.{Gives};
ghost use Rattle.trace_reader.specs.Wires.{wire_field};

use case_forms::Wire;
use line_fields::{FaultKind, Fields, TextFault};
use segment::{SegFault, decode};
use std::alloc::Global;

/// The next field, a segment in hex. Wrong digits are Hex; bytes that are not a segment are Segment, with the reason.
#[tactic(auto, using(crate::proofs::WireLemmas::wire_field_is))]
pub(crate) fn wire(alloc: Global, fields: &mut Fields) -> Result<Wire, TextFault>
    ensures { Gives (λ wire. (wire, fields.new)) result (wire_field fields.old) }
{
    let (token, bytes) = fields.next_hex(alloc)?;
    match decode(alloc, bytes.as_slice()) {
        Ok(seg) => Ok(Wire { bytes, seg }),
        Err(SegFault::OutOfMemory) => Err(TextFault::out_of_memory()),
        Err(fault) => Err(token.fault(FaultKind::Segment(fault))),
    }
}
