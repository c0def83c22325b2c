//! How a made segment is sent.

ghost use Rattle.std.specs.Prelude.{◌≡◌, ◌≤◌, IfOk, true, length};
ghost use Rattle.case_forms.specs.declared.trace.Header.{Header};
ghost use Rattle.segment.specs.Layout.{IsSegment};
ghost use Rattle.spec_tcp.specs.Wire.{matches_sent};
ghost use Rattle.stack_core.specs.Outgoing.{flag_bits, greatest_payload, segment_of, told_ack};

use crate::transit::Flying;
use case_forms::{Flags, OutOfMemory, Wire};
use recording_parts::payload_of;
use segment::{Bytes, EncFault, SegFault, Segment, decode, encode};
use seqno::Word;
use spec_tcp::Emission;
use std::alloc::{AllocError, Global};

/// How a made segment is sent, and the segment then in transit.
#[derive(Drop)]
pub(crate) struct Outgoing {
    pub(crate) wire: Wire,
    pub(crate) flying: Flying,
}

/// A made segment as it is sent, with this MSS option if there is one, and with its shift if it is a SYN that has one.
/// The error is that memory ran out.
pub(crate) fn wire_of(alloc: Global, m: &Emission, mss: Option<u16>) -> Result<Wire, OutOfMemory>
    requires short { length m.now.payload ≤ greatest_payload }
    ensures shows { IfOk result (λ w. (h : Header) → matches_sent h w m.now ≡ true) }
    ensures reads { IfOk result (λ w. IsSegment w.bytes w.seg) }
{
    let segment = segment_of(alloc, m, mss)?;
    let bytes = match encode(alloc, &segment) {
        Ok(bytes) => bytes,
        Err(EncFault::OutOfMemory) => return Err(AllocError),
        Err(EncFault::TooLong) => unreachable!(),
    };
    let seg = match decode(alloc, bytes.as_slice()) {
        Ok(seg) => seg,
        Err(SegFault::OutOfMemory) => return Err(AllocError),
        // What was written reads again.
        Err(_) => unreachable!(),
    };
    Ok(Wire {
        bytes: Bytes::from(bytes),
        seg,
    })
}

// The fields of the segment that is sent.
fn segment_of(alloc: Global, m: &Emission, mss: Option<u16>) -> Result<Segment, OutOfMemory>
    ensures { IfOk result (λ s. s ≡ segment_of m.now mss) }
{
    Ok(Segment {
        src: m.lport,
        dst: m.rport,
        seq: m.seq,
        ack: told_ack(m),
        flags: flag_bits(m.flags),
        window: m.window,
        mss,
        scale: if m.flags.syn { m.shift } else { None },
        options: Bytes::from_slice(alloc, &[])?,
        payload: payload_of(m)?,
    })
}

// The number that it acknowledges, or 0 without ACK.
fn told_ack(m: &Emission) -> Word
    ensures { result ≡ told_ack m.now }
{
    if m.flags.ack { m.ack_seq } else { Word(0) }
}

fn flag_bits(flags: Flags) -> u8
    ensures { result ≡ flag_bits flags }
{
    let ack = if flags.ack { 16u8 } else { 0 };
    let rst = if flags.rst { 4u8 } else { 0 };
    let syn = if flags.syn { 2u8 } else { 0 };
    let fin = if flags.fin { 1u8 } else { 0 };
    ack + rst + syn + fin
}
