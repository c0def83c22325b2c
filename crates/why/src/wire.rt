//! The rules of lines that show segments.

use crate::scene::{Scene, first_extra};
use case_forms::{Event, Host, Label, Version, Wire};
use endpoint::acknowledges;
use plain_words::{HostName, Sheet, word_if};
use segment::{Flag, Segment};
use spec_tcp::Emission;

/// How many numbers there are.
const TURN: u64 = 1 << 32;

/// Writes that the host of an O line built no segment of the number that the step names, if that is so.
pub(crate) fn describe_sent(out: &mut Sheet, scene: &Scene, host: Host) {
    let (world, number) = (scene.world, first_extra(scene.named().extras));
    if world.made(host, number).is_some() {
        return;
    }
    out.show(&HostName(host));
    out.say(
        " built no segment with the number {}; so far {} were built at both hosts\n",
        &[u64::from(number), u64::from(world.count())],
    );
}

/// Writes what is wrong with the line that a received segment should copy, if that is no sent segment.
pub(crate) fn describe_came(out: &mut Sheet, scene: &Scene, host: Host, wire: &Wire) {
    let (sender, copied) = (host.other(), u64::from(first_extra(scene.named().extras)));
    if scene.world.sent(sender, copied).is_some() {
        return;
    }
    let yet = word_if(sender_in(scene, copied) == Some(sender), " used yet; it is");
    out.say("line {} isn't", &[copied]);
    out.put(yet);
    out.put(" an O line of ");
    out.show(&HostName(sender));
    out.put("\n");
    match nearest(scene, sender, wire) {
        Some((line, sent)) => say_nearest(out, line, sent, wire),
        None => {}
    }
}

/// Whether the step's line shows a segment as received that differs in some bytes from a sent one.
pub(crate) fn has_other_bytes(scene: &Scene) -> bool {
    let Some(line) = scene.line(scene.named().number) else {
        return false;
    };
    match &line.event {
        Event::Came(host, wire) => differs_from_nearest(scene, host.other(), wire),
        _ => false,
    }
}

fn differs_from_nearest(scene: &Scene, sender: Host, shown: &Wire) -> bool {
    match nearest(scene, sender, shown) {
        Some((_, sent)) => differing(sent.bytes.as_slice(), shown.bytes.as_slice()) != 0,
        None => false,
    }
}

// The used O line of a host, and its segment, that differs in the fewest bytes from a segment that is like it. None: no
// segment is like it.
fn nearest<'c>(scene: &Scene<'c>, sender: Host, shown: &Wire) -> Option<(u64, &'c Wire)> {
    let (mut found, mut fewest) = (None, u64::MAX);
    for line in scene.lines() {
        if let Event::Sent(host, sent) = &line.event
            && *host == sender
            && is_like(&sent.seg, &shown.seg)
            && sent.bytes.len() == shown.bytes.len()
            && scene.used_by(line.number).is_some()
        {
            let count = differing(sent.bytes.as_slice(), shown.bytes.as_slice());
            if count <= fewest {
                found = Some((line.number, sent));
                fewest = count;
            }
        }
    }
    found
}

// Whether two segments have the same ports and the same sequence number.
fn is_like(one: &Segment, other: &Segment) -> bool {
    one.src == other.src && one.dst == other.dst && one.seq == other.seq
}

// In how many places two texts of the same length differ.
fn differing(one: &[u8], other: &[u8]) -> u64 {
    let mut count: u64 = 0;
    for (a, b) in one.iter().zip(other) {
        if a != b {
            count = count.saturating_add(1);
        }
    }
    count
}

// Writes the first byte in which the segment of an O line differs, if one does.
fn say_nearest(out: &mut Sheet, line: u64, sent: &Wire, shown: &Wire) {
    let (sent, shown) = (sent.bytes.as_slice(), shown.bytes.as_slice());
    let count = differing(sent, shown);
    if count == 0 {
        out.say("line {} has the same bytes\n", &[line]);
        return;
    }
    out.say(
        "line {} has the same ports, sequence number and length; bytes that differ: {}\n",
        &[line, count],
    );
    first_difference(out, "byte of the segment", "sent", sent, shown);
}

// The host whose sent segment a line shows. None: it shows none.
fn sender_in(scene: &Scene, line: u64) -> Option<Host> {
    match &scene.line(line)?.event {
        Event::Sent(host, _) => Some(*host),
        _ => None,
    }
}

/// Where the segment was sent before.
pub(crate) fn sent_before(out: &mut Sheet, scene: &Scene, number: u32) {
    let line = shown_before(scene, number);
    out.say(
        "segment {} was already sent in trace line {}\n",
        &[u64::from(number), line],
    );
}

// The O line that showed a built segment before the step; 0 if there is none.
fn shown_before(scene: &Scene, number: u32) -> u64 {
    for step in scene.before.iter().rev() {
        if let Label::L(named) = &step.label
            && first_extra(named.extras) == number
            && sender_in(scene, named.number).is_some()
        {
            return named.number;
        }
    }
    0
}

/// The bytes in which the received segment and the sent one differ.
pub(crate) fn copy_differs(out: &mut Sheet, version: Version, m: &Emission, wire: &Wire) {
    let (sent, shown) = (m.bytes.as_slice(), wire.bytes.as_slice());
    if sent.len() != shown.len() {
        let (sent, shown) = (sent.len(), shown.len());
        out.say(
            "  bytes of the segment: sent {}, the line shows {}\n",
            &[sent as u64, shown as u64],
        );
    }
    first_difference(out, "byte of the segment", "sent", sent, shown);
    differences(out, version, m, m.flags.ack, wire);
}

/// When the segment was sent and received.
pub(crate) fn lifetime(out: &mut Sheet, scene: &Scene, m: &Emission) {
    let (moment, sent, msl) = (scene.moment(), m.moment, scene.header().msl);
    out.say(
        "it arrives at {}, it was sent at {}, the maximum segment lifetime is {}\n",
        &[moment, sent, msl],
    );
}

/// The fields in which the built segment and the line differ, and which other acknowledgment number it may show. In
/// version 6, a reset in answer to a segment may show ACK.
pub(crate) fn differs(out: &mut Sheet, version: Version, m: &Emission, wire: &Wire) {
    let may = version.says_sender() && m.is_reset_reply && wire.seg.has(Flag::Ack);
    differences(out, version, m, m.flags.ack || may, wire);
    let is_right = !m.flags.ack || acknowledges(version, wire.seg.ack, m);
    if is_right || !version.says_sender() || m.raised == 0 {
        return;
    }
    let before = m.ack_seq.0.wrapping_sub((m.raised % TURN) as u32);
    out.say(
        "  also permitted: {}, the number from before the text that was processed at that moment\n",
        &[u64::from(before)],
    );
}

// The fields in which the segment and the line differ; `acks`: the segment acknowledges.
fn differences(out: &mut Sheet, version: Version, m: &Emission, acks: bool, wire: &Wire) {
    for (name, built, shown) in &fields(version, m, acks, &wire.seg) {
        if built != shown {
            out.put("  ");
            out.put(name);
            out.say(": built {}, the line shows {}\n", &[*built, *shown]);
        }
    }
    let (built, shown) = (m.payload.as_slice(), wire.seg.payload.as_slice());
    first_difference(out, "payload byte", "built", built, shown);
    match wire.seg.scale {
        Some(shown) => shift_difference(out, m.shift, shown),
        None => {}
    }
}

// The fields of the built segment and of the shown one. A number that nobody reads is that of the shown one.
fn fields(
    version: Version,
    m: &Emission,
    acks: bool,
    seg: &Segment,
) -> [(&'static str, u64, u64); 10] {
    let is_wrong = acks && !acknowledges(version, seg.ack, m);
    let ack = if is_wrong { m.ack_seq } else { seg.ack };
    let window = if m.is_reset_reply {
        seg.window
    } else {
        m.window
    };
    [
        ("source port", u64::from(m.lport), u64::from(seg.src)),
        ("destination port", u64::from(m.rport), u64::from(seg.dst)),
        ("sequence number", u64::from(m.seq.0), u64::from(seg.seq.0)),
        (
            "acknowledgment number",
            u64::from(ack.0),
            u64::from(seg.ack.0),
        ),
        ("ACK", u64::from(acks), u64::from(seg.has(Flag::Ack))),
        ("RST", u64::from(m.flags.rst), u64::from(seg.has(Flag::Rst))),
        ("SYN", u64::from(m.flags.syn), u64::from(seg.has(Flag::Syn))),
        ("FIN", u64::from(m.flags.fin), u64::from(seg.has(Flag::Fin))),
        ("window", u64::from(window), u64::from(seg.window)),
        ("bytes", m.payload.len() as u64, seg.payload.len() as u64),
    ]
}

fn shift_difference(out: &mut Sheet, built: Option<u8>, shown: u8) {
    match built {
        Some(built) if built == shown => {}
        Some(built) => out.say(
            "  window shift: built {}, the line shows {}\n",
            &[u64::from(built), u64::from(shown)],
        ),
        None => out.say(
            "  window shift: built with none, the line shows {}\n",
            &[u64::from(shown)],
        ),
    }
}

/// Writes the first byte that differs. `name` says what the bytes are, and `origin` where the first ones are from.
pub(crate) fn first_difference(
    out: &mut Sheet,
    name: &str,
    origin: &str,
    one: &[u8],
    shown: &[u8],
) {
    for (place, (a, b)) in one.iter().zip(shown).enumerate() {
        if a != b {
            out.put("  ");
            out.put(name);
            out.say(" {} (from 0): ", &[place as u64]);
            out.put(origin);
            out.say(" {}, ", &[u64::from(*a)]);
            out.say("the line shows {}\n", &[u64::from(*b)]);
            return;
        }
    }
}
