//! The hosts of a text: their numbers, and how many were recorded.

ghost use Rattle.std.specs.Prelude.{◌≡◌};
ghost use Rattle.line_fields.specs.Hosts.{half_of, host_number, hosted, whole_of};

use case_forms::{Host, Version};

/// The number of a host.
pub fn host_number(host: Host) -> u64
    ensures { result ≡ host_number host }
{
    match host {
        Host::Zero => 0,
        Host::One => 1,
    }
}

fn half_of(version: Version) -> Version
    ensures { result ≡ half_of version }
{
    if version.says_sender() {
        Version::SixHalf
    } else if version.says_slack() {
        Version::FiveHalf
    } else {
        Version::FourHalf
    }
}

fn whole_of(version: Version) -> Version
    ensures { result ≡ whole_of version }
{
    if version.says_sender() {
        Version::Six
    } else if version.says_slack() {
        Version::Five
    } else {
        Version::Four
    }
}

/// The version of a text of version 4, 5 or 6, given the count of recorded hosts.
pub fn hosted(version: Version, hosts: u64) -> Version
    ensures { result ≡ hosted version hosts }
{
    if hosts == 1 {
        half_of(version)
    } else {
        whole_of(version)
    }
}
