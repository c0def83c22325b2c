//! Decoding a segment.

ghost use Rattle.std.specs.Prelude.{◌≡◌, ◌≢◌, ◌+◌, ◌≤◌, IfOk, IfErr, MatchResult, length, true, false};
ghost use Rattle.byteorder.specs.Endian.{big_from};
ghost use Rattle.segment.specs.declared.fault.SegFault.TheVariants.{OutOfMemory};
ghost use Rattle.segment.specs.declared.fault.SegFault.{SegFault};
ghost use Rattle.segment.specs.declared.fields.Segment.{Segment};
ghost use Rattle.segment.specs.Layout.{IsSegment, IsFault};
ghost use Rattle.segment.specs.Reading.{Gives, ReadsByLayout, segment_of};

use crate::bytes::Bytes;
use crate::fault::SegFault;
use crate::fields::Segment;
use crate::options::parse_options;
use crate::{HEADER_LEN, MAX_LEN};
use byteorder::{BigEndian, ByteOrder};
use seqno::Word;
use std::alloc::Global;

// The number in the two bytes from a place on.
fn u16_at(bytes: &[u8], place: usize) -> u16
    requires { place + 2 ≤ length bytes.now }
    ensures { result ≡ big_from place 2 bytes.now }
{
    BigEndian::read_u16(&bytes[place..])
}

/// The number in the four bytes from a place on.
pub(crate) fn u32_at(bytes: &[u8], place: usize) -> u32
    requires { place + 4 ≤ length bytes.now }
    ensures { result ≡ big_from place 4 bytes.now }
{
    BigEndian::read_u32(&bytes[place..])
}

// Reads a segment. Each byte is read once, those of the options twice.
fn read(alloc: Global, bytes: &[u8]) -> Result<Segment, SegFault>
    ensures found { IfOk result (λ s. IsSegment bytes.now s) }
    ensures fault { IfErr result (λ e. IsFault bytes.now e) }
{
    if bytes.len() < HEADER_LEN {
        return Err(SegFault::Short);
    }
    let header_len = 4 * usize::from(bytes[12] / 16);
    if header_len < HEADER_LEN || bytes.len() < header_len {
        return Err(SegFault::Offset);
    }
    let (header, payload) = bytes.split_at(header_len);
    let (_fixed, options) = header.split_at(HEADER_LEN);
    let told = parse_options(options)?;
    if bytes.len() > MAX_LEN {
        return Err(SegFault::TooLong);
    }
    Ok(Segment {
        src: u16_at(bytes, 0),
        dst: u16_at(bytes, 2),
        seq: Word(u32_at(bytes, 4)),
        ack: Word(u32_at(bytes, 8)),
        flags: bytes[13],
        window: u16_at(bytes, 14),
        mss: told.mss,
        scale: told.scale,
        options: Bytes::from_slice(alloc, options)?,
        payload: Bytes::from_slice(alloc, payload)?,
    })
}

/// The segment that the bytes encode (RFC 9293, 3.1), or their first fault. Checksum and urgent pointer aren't checked.
pub fn decode(alloc: Global, bytes: &[u8]) -> Result<Segment, SegFault>
    ensures found { IfOk result (λ s. IsSegment bytes.now s) }
    ensures fault { IfErr result (λ e. IsFault bytes.now e) }

    // Bytes encode at most one segment. If they do, it is returned, unless memory runs out.
    ensures only { (s : Segment) → IsSegment bytes.now s
        → MatchResult result (λ t. t ≡ s) (λ e. e ≡ OutOfMemory) }

    // The same as a definition that computes the segment or the fault, for readers of texts that contain segments.
    ensures exact { Gives result (segment_of bytes.now) }
{
    read(alloc, bytes)
}

/// Whether the bytes encode a segment. Nothing is allocated.
pub fn is_segment(bytes: &[u8]) -> bool
    ensures found { result ≡ true → (s : Segment) × IsSegment bytes.now s }
    ensures fault { result ≡ false → (e : SegFault) × (e ≢ OutOfMemory) × IsFault bytes.now e }
{
    if bytes.len() < HEADER_LEN {
        return false;
    }
    let header_len = 4 * usize::from(bytes[12] / 16);
    if header_len < HEADER_LEN || header_len > bytes.len() {
        return false;
    }
    let (header, _payload) = bytes.split_at(header_len);
    let (_fixed, options) = header.split_at(HEADER_LEN);
    match parse_options(options) {
        Ok(_) => bytes.len() <= MAX_LEN,
        Err(_) => false,
    }
}

/// That definition gives the segment that the bytes encode, or their first fault if they encode none.
pub fn reading_law()
    ensures { ReadsByLayout }
{}
