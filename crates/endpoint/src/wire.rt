//! Segments as bytes on the wire (RFC 9293, 3.1; RFC 7323, 2.2).

ghost use Rattle.case_forms.specs.Versions.{is_half};
ghost use Rattle.spec_network.specs.HostRules.{just};
ghost use Rattle.spec_tcp.specs.Bounds.{IsSmallEmission};
ghost use Rattle.spec_tcp.specs.Heard.{heard, most_bytes, told_flags};
ghost use Rattle.spec_tcp.specs.Same.{same_bytes};
ghost use Rattle.spec_tcp.specs.Wire.{ack_matches, acknowledges, header_matches, in_rules, is_before_text};
ghost use Rattle.spec_tcp.specs.Wire.{matches_sent, may_acknowledge, same_flags, sent, sent_ack, shift_matches};
ghost use Rattle.std.specs.Prelude.{◌≡◌, ◌≤◌, IfOk, ◌+◌, ◌-◌, if◌then◌else◌, length, nat_lt, not, take};
ghost use Rattle.std.specs.Result.{result_err};
ghost use Rattle.verdict.specs.Rules.{first_broken};
ghost use Rattle.verdict.specs.declared.rule.Rule.TheVariants.{NoEmission};

use crate::same::{same_bool, same_word};
use case_forms::{Flags, Header, Host, Version, Wire};
use segment::{Bytes, Flag, OutOfMemory, Segment};
use seqno::{Word, number};
use spec_tcp::{Emission, EndpointId};
use std::alloc::Global;
use verdict::Rule;

/// Every segment from the host that is not recorded has this sender.
const FAR_ID: EndpointId = EndpointId {
    host: Host::One,
    number: 0,
};

/// No segment carries more bytes than this.
const MOST_BYTES: usize = 65_535;

// Whether the segment's fields are those of the built one: the window of all except a reset in answer to a segment.
fn header_matches(version: Version, segment: &Segment, m: &Emission) -> bool
    ensures { result ≡ header_matches version segment.now m.now }
{
    segment.src == m.lport
        && segment.dst == m.rport
        && same_word(segment.seq, m.seq)
        && ack_matches(version, segment, m)
        && same_flags(segment, m.flags)
        && (m.is_reset_reply || segment.window == m.window)
        && same_bytes(segment.payload.as_slice(), m.payload.as_slice())
}

/// Whether the acknowledgment number is that of the built segment, or from version 6 on that from before the text which
/// was taken at the moment of building (RFC 9293, 3.10.7.4).
pub fn acknowledges(version: Version, ack: Word, m: &Emission) -> bool
    ensures { result ≡ acknowledges version ack m.now }
{
    same_word(ack, m.ack_seq)
        || version.says_sender() && 0 < m.raised && same_word(number(ack, m.raised), m.ack_seq)
}

/// Whether the line of a built segment shows the acknowledgment number from before the text that was taken at the
/// moment of building.
pub fn is_before_text(wire: &Wire, m: &Emission) -> bool
    ensures { result ≡ is_before_text wire.now m.now }
{
    0 < m.raised && !same_word(wire.seg.ack, m.ack_seq)
}

#[tactic(auto, using(crate::proofs::Bytes::same_bytes_is))]
fn same_bytes(a: &[u8], b: &[u8]) -> bool
    ensures { result ≡ same_bytes a.now b.now }
{
    a == b
}

// Whether the segment may acknowledge: as it was built, or in version 6 any reset in answer to a segment.
fn may_acknowledge(version: Version, m: &Emission) -> bool
    ensures { result ≡ may_acknowledge version m.now }
{
    m.flags.ack || version.says_sender() && m.is_reset_reply
}

// Whether a segment with ACK may have it, and its number; one without must be built without.
fn ack_matches(version: Version, segment: &Segment, m: &Emission) -> bool
    ensures { result ≡ ack_matches version segment.now m.now }
{
    if segment.has(Flag::Ack) {
        may_acknowledge(version, m) && acknowledges(version, segment.ack, m)
    } else {
        !m.flags.ack
    }
}

// Only the flags RST, SYN and FIN.
fn same_flags(segment: &Segment, flags: Flags) -> bool
    ensures { result ≡ same_flags segment.now flags }
{
    same_bool(segment.has(Flag::Rst), flags.rst)
        && same_bool(segment.has(Flag::Syn), flags.syn)
        && same_bool(segment.has(Flag::Fin), flags.fin)
}

// A SYN carries the shift that its sender gave, or none. A byte above 14 is read as 14 (RFC 7323, 2.3).
fn shift_matches(segment: &Segment, m: &Emission) -> bool
    ensures { result ≡ shift_matches segment.now m.now }
{
    match (segment.scale, m.shift) {
        (None, _) => true,
        (Some(_), None) => false,
        (Some(told), Some(given)) => told.min(14) == given.min(14),
    }
}

/// Whether the segment on the wire is the built one. Shifts are compared if windows may be scaled.
pub fn matches_sent(header: &Header, wire: &Wire, m: &Emission) -> bool
    ensures { result ≡ matches_sent header.now wire.now m.now }
{
    header_matches(header.version, &wire.seg, m)
        && (!(header.version.scales() && m.flags.syn) || shift_matches(&wire.seg, m))
}

// Whether a segment acknowledges that was sent: a reset in answer to a segment as the wire shows it.
fn sent_ack(segment: &Segment, m: &Emission) -> bool
    ensures { result ≡ sent_ack segment.now m.now }
{
    if m.is_reset_reply {
        segment.has(Flag::Ack)
    } else {
        m.flags.ack
    }
}

// What a line shows of the acknowledgment: whether there is one, the position that it acknowledges, its number, and how
// far text of the moment raised it.
#[derive(Drop)]
struct Shown {
    ack: bool,
    position: u64,
    number: Word,
    raised: u64,
}

/// The built segment after it was sent, at a moment in microseconds: with its bytes, the acknowledgment that they show,
/// and the MSS and the shift in its options. The wire has the payload of the built segment: its parts are moved, and
/// nothing is copied.
pub fn sent(moment: u64, wire: Wire, m: &Emission) -> Emission
    requires { wire.seg.payload ≡ m.now.payload }
    ensures sent { result ≡ sent moment wire m.now }
    ensures small { IsSmallEmission m.now → IsSmallEmission result }
{
    let shown = shown_ack(&wire, m);
    let Wire { bytes, seg } = wire;
    with_bytes(m, shown, seg.payload, bytes, (seg.mss, seg.scale), moment)
}

// The acknowledgment that the line shows. No other number is possible then.
fn shown_ack(wire: &Wire, m: &Emission) -> Shown
    ensures { result ≡ record {
      ack = sent_ack wire.now.seg m.now;
      position = if is_before_text wire.now m.now then m.now.ack - m.now.raised else m.now.ack;
      number = if is_before_text wire.now m.now then wire.now.seg.ack else m.now.ack_seq;
      raised = 0;
    } }
{
    let ack = sent_ack(&wire.seg, m);
    if is_before_text(wire, m) {
        return Shown {
            ack,
            position: m.ack.saturating_sub(m.raised),
            number: wire.seg.ack,
            raised: 0,
        };
    }
    Shown {
        ack,
        position: m.ack,
        number: m.ack_seq,
        raised: 0,
    }
}

/// A copy of a segment, as it arrives on a wire that has its bytes: they are moved, and so is the payload if the
/// segment has the same. The error means that memory ran out.
pub fn copy(wire: Wire, m: &Emission) -> Result<Emission, OutOfMemory>
    requires { wire.bytes ≡ m.now.bytes }
    ensures { IfOk result (λ x. x ≡ m.now) }
{
    let Wire { bytes, seg } = wire;
    let payload = same_or_copy(seg.payload, &m.payload)?;
    let shown = Shown {
        ack: m.flags.ack,
        position: m.ack,
        number: m.ack_seq,
        raised: m.raised,
    };
    let told = (m.mss, m.scale);
    Ok(with_bytes(m, shown, payload, bytes, told, m.moment))
}

// These bytes if they are the required ones, else a copy of those.
fn same_or_copy(bytes: Bytes, wanted: &Bytes) -> Result<Bytes, OutOfMemory>
    ensures { IfOk result (λ kept. kept ≡ wanted.now) }
{
    if bytes == *wanted {
        Ok(bytes)
    } else {
        wanted.copy()
    }
}

// A segment with this payload, on the wire at a moment in microseconds: with the acknowledgment that the wire shows,
// its bytes, and the MSS and the shift in its options.
#[inline(always)]
fn with_bytes(
    m: &Emission,
    shown: Shown,
    payload: Bytes,
    bytes: Bytes,
    told: (Option<u16>, Option<u8>),
    moment: u64,
) -> Emission
    ensures { result ≡ record m.now {
      ack = shown.position;
      ack_seq = shown.number;
      raised = shown.raised;
      flags = record m.now.flags { ack = shown.ack };
      payload = payload;
      bytes = bytes;
      mss = told.0;
      scale = told.1;
      moment = moment;
    } }
{
    Emission {
        sender: m.sender,
        peer_at_send: m.peer_at_send,
        lport: m.lport,
        rport: m.rport,
        pos: m.pos,
        ack: shown.position,
        seq: m.seq,
        ack_seq: shown.number,
        raised: shown.raised,
        flags: Flags {
            ack: shown.ack,
            ..m.flags
        },
        window: m.window,
        payload,
        shift: m.shift,
        scaled: m.scaled,
        is_reset_reply: m.is_reset_reply,
        bytes,
        mss: told.0,
        scale: told.1,
        moment,
    }
}

/// Whether a segment may arrive that isn't a copy of a line of the other host: that host is not recorded. The error is
/// the broken rule.
pub fn admits_hearing(header: &Header) -> Result<(), Rule>
    ensures { result_err result ≡ first_broken (just NoEmission (not (is_half header.now.version))) }
{
    if header.version.is_half() {
        Ok(())
    } else {
        Err(Rule::NoEmission)
    }
}

/// A segment heard from a host that is not recorded, at a moment in microseconds: its fields are those of its bytes.
/// The error means that memory ran out.
pub fn heard(alloc: Global, moment: u64, wire: &Wire) -> Result<Emission, OutOfMemory>
    ensures heard { IfOk result (λ m. m ≡ heard moment wire.now) }
    ensures small { IfOk result IsSmallEmission }
{
    let payload = carried(wire.seg.payload.as_slice());
    Ok(Emission {
        sender: FAR_ID,
        peer_at_send: None,
        lport: wire.seg.src,
        rport: wire.seg.dst,
        pos: 0,
        ack: 0,
        seq: wire.seg.seq,
        ack_seq: wire.seg.ack,
        raised: 0,
        flags: told_flags(&wire.seg),
        window: wire.seg.window,
        payload: Bytes::from_slice(alloc, payload)?,
        shift: None,
        scaled: false,
        is_reset_reply: wire.seg.has(Flag::Rst),
        bytes: wire.bytes.copy()?,
        mss: wire.seg.mss,
        scale: wire.seg.scale,
        moment,
    })
}

// As many of these bytes as a segment can carry.
#[tactic(auto, using(std::proofs::lemmas::List::take_min))]
fn carried(payload: &[u8]) -> &[u8]
    ensures bytes { result.now ≡ take most_bytes payload.now }
    ensures few { length result.now ≤ most_bytes }
{
    &payload[..MOST_BYTES.min(payload.len())]
}

fn told_flags(segment: &Segment) -> Flags
    ensures { result ≡ told_flags segment.now }
{
    Flags {
        ack: segment.has(Flag::Ack),
        rst: segment.has(Flag::Rst),
        syn: segment.has(Flag::Syn),
        fin: segment.has(Flag::Fin),
    }
}

/// Whether what arrives at a moment, in microseconds, is a copy of a segment that was sent, at most the maximum segment
/// lifetime later (RFC 9293, 3.4.2). The error is the first rule that is broken.
pub fn admits_copy(header: &Header, moment: u64, wire: &Wire, m: &Emission) -> Result<(), Rule>
    ensures { result_err result ≡ first_broken (in_rules header.now moment wire.now m.now) }
{
    // Bytes decide first, at any age, as this rule has the lower number: the bytes of old segments can't be freed.
    if !same_bytes(wire.bytes.as_slice(), m.bytes.as_slice()) {
        return Err(Rule::CopyDiffers);
    }
    if is_past_lifetime(header, moment, m) {
        return Err(Rule::Lifetime);
    }
    Ok(())
}

/// Whether a moment, in microseconds, is more than the maximum segment lifetime after the segment was sent (RFC 9293,
/// 3.4.2).
pub fn is_past_lifetime(header: &Header, moment: u64, m: &Emission) -> bool
    ensures { result ≡ nat_lt (m.now.moment + header.now.msl) moment }
{
    m.moment as u128 + (header.msl as u128) < moment as u128
}
