//! Whose a segment is, and what it carries.

ghost use Rattle.std.specs.Prelude.{◌≡◌, ◌↔◌, ◌≤◌, true, IsTrue, IfOk};
ghost use Rattle.std.specs.Option.{IfSome};
ghost use Rattle.case_forms.specs.Versions.{scales};

use case_forms::{Host, OutOfMemory, Version};
use segment::Bytes;
use spec_tcp::Emission;

/// The greatest shift of a window (RFC 7323, 2.3).
pub const GREATEST_SHIFT: u8 = 14;

/// Whether a segment that arrives at a host was sent by that host.
#[inline]
pub fn is_own(me: Host, sender: Host) -> bool
    ensures { IsTrue result ↔ (sender ≡ me) }
{
    sender == me
}

/// The shift that a SYN carries, of the configured one; None if it carries none.
#[inline]
pub fn told_shift(version: Version, tells: bool, shift: Option<u8>) -> Option<u8>
    ensures { IfSome result (λ n. (scales version ≡ true) × (n ≤ 14)) }
{
    match shift {
        Some(told) if tells && version.scales() => Some(told.min(GREATEST_SHIFT)),
        _ => None,
    }
}

/// The payload with which a made segment is sent. The error is that memory ran out.
#[inline]
pub fn payload_of(m: &Emission) -> Result<Bytes, OutOfMemory>
    ensures { IfOk result (λ payload. payload ≡ m.now.payload) }
{
    m.payload.copy()
}
