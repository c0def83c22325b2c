//! The profile of congestion control that a header names.

ghost use Rattle.case_forms.specs.declared.version.Judged.TheVariants.{Full};
ghost use Rattle.spec_tcp.specs.Signals.{profile_named, profile_of, slow_start_named};
ghost use Rattle.std.specs.Prelude.{◌≡◌};

use case_forms::{Header, Initial, Judged, Version};
use window_rules::{Profile, SlowStart};

/// The profile of congestion control that the header names: how much of it is judged, the RFC of the first window, and
/// how much slow start adds.
pub fn profile_of(header: &Header) -> Profile
    ensures { result ≡ profile_of header.now }
{
    match header.congestion {
        Judged::Full => full_profile(header.version, header.initial),
        Judged::Recovery => Profile::Unbounded,
        Judged::NoControl => Profile::NoControl,
    }
}

// The same if all of congestion control is judged.
fn full_profile(version: Version, initial: Initial) -> Profile
    ensures { result ≡ profile_named version initial Full }
{
    let slow = slow_start_named(version);
    match initial {
        Initial::Rfc5681 => Profile::Rfc5681 { slow },
        Initial::Rfc6928 => Profile::Rfc6928 { slow },
    }
}

// Version 5 permits all that RFC 5681, 3.1, permits.
fn slow_start_named(version: Version) -> SlowStart
    ensures { result ≡ slow_start_named version }
{
    if version.says_slack() {
        SlowStart::Permitted
    } else {
        SlowStart::Recommended
    }
}
