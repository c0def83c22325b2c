//! The bytes of a segment, and where they begin.

ghost use Rattle.spec_tcp.specs.Bounds.{greatest_position};
ghost use Rattle.spec_tcp.specs.Makes.Payload.{making_length, has_new_bytes, is_bad_payload, old_end};
ghost use Rattle.spec_tcp.specs.Makes.Payload.{is_bad_empty_place, is_bad_place};
ghost use Rattle.std.specs.Prelude.{◌≡◌, ◌≤◌};

use case_forms::{SegmentPlan, Version};
use spec_tcp::Endpoint;

/// How many positions a segment occupies: its bytes, its SYN and its FIN.
pub(crate) fn making_length(making: &SegmentPlan) -> u64
    ensures value { result ≡ making_length making.now }
    ensures small { result ≤ 65537 }
{
    making.len as u64 + making.flags.syn as u64 + making.flags.fin as u64
}

/// Whether bytes that were not sent before are among a segment's.
pub(crate) fn has_new_bytes(endpoint: &Endpoint, making: &SegmentPlan) -> bool
    requires { making.now.pos ≤ greatest_position }
    ensures { result ≡ has_new_bytes endpoint.now making.now }
{
    0 < making.len && endpoint.snd_max() < making.pos + making.len as u64
}

pub(crate) fn is_bad_payload(endpoint: &Endpoint, making: &SegmentPlan) -> bool
    requires { making.now.pos ≤ greatest_position }
    ensures { result ≡ is_bad_payload endpoint.now making.now }
{
    if making.flags.syn {
        return !(making.pos == 0 && making.len == 0);
    }
    if making.flags.rst {
        return making.len != 0;
    }
    let end = making.pos + making.len as u64;
    let accepted = endpoint.stream.accepted.end();
    (0 < making.len && (making.pos == 0 || accepted < end))
        || (making.flags.fin && !(endpoint.stream.ended && end == accepted))
}

fn old_end(endpoint: &Endpoint, making: &SegmentPlan) -> u64
    requires { making.now.pos ≤ greatest_position }
    ensures { result ≡ old_end endpoint.now making.now }
{
    (making.pos + making_length(making)).min(endpoint.snd_max())
}

fn is_bad_empty_place(endpoint: &Endpoint, making: &SegmentPlan) -> bool
    requires { making.now.pos ≤ greatest_position }
    ensures { result ≡ is_bad_empty_place endpoint.now making.now }
{
    making.pos + 1 < endpoint.stream.snd_una || endpoint.snd_max() < making.pos
}

pub(crate) fn is_bad_place(version: Version, endpoint: &Endpoint, making: &SegmentPlan) -> bool
    requires { making.now.pos ≤ greatest_position }
    ensures { result ≡ is_bad_place version endpoint.now making.now }
{
    let end = endpoint.snd_max();
    let is_outside = making.pos < endpoint.stream.snd_una || end < making.pos;
    if making.flags.rst {
        return is_outside;
    }
    if making.flags.syn && making.flags.ack && !version.says_sender() {
        return false;
    }
    if making_length(making) == 0 {
        return is_bad_empty_place(endpoint, making);
    }
    is_outside
        || making.pos < end
            && !version.says_sender()
            && endpoint.recover < old_end(endpoint, making)
}
