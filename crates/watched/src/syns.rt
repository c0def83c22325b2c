//! What a step does with a SYN.
//! `lib.rt` says why functions here are inlined.

ghost use Rattle.std.specs.Prelude.{◌≡◌};
ghost use Rattle.spec_duties.specs.Observations.{is_same_syn, syn_dropped, syn_sent, syn_taken, takes_syn};
ghost use Rattle.watched.specs.Targets.{taker_at};

use case_forms::Version;
use duties::Target;
use endpoint_state::HostTcp;
use segment::{Bytes, permits_sack};
use spec_duties::SynChange;
use spec_tcp::{Emission, Endpoint};

/// An endpoint's own SYN goes out with these bytes.
#[inline(always)]
pub(crate) fn syn_sent(version: Version, m: &Emission, bytes: &Bytes) -> SynChange
    ensures { result ≡ syn_sent version m.now bytes.now }
{
    if version.says_sender() && m.flags.syn && !m.is_reset_reply {
        SynChange::Sends {
            permits: permits_sack(bytes.as_slice()),
        }
    } else {
        SynChange::Nothing
    }
}

#[inline(always)]
fn takes_syn(version: Version, m: &Emission) -> bool
    ensures { result ≡ takes_syn version m.now }
{
    version.says_sender() && m.flags.syn && !m.flags.rst
}

/// The peer's SYN is processed.
#[inline(always)]
pub(crate) fn syn_taken(version: Version, b: &HostTcp, m: &Emission, target: Target) -> SynChange
    ensures { result ≡ syn_taken version m.now (taker_at b.now target) }
{
    if !takes_syn(version, m) {
        return SynChange::Nothing;
    }
    match target {
        Target::Nobody => SynChange::Nothing,
        Target::Listener(_) => SynChange::Takes {
            permits: permits_sack(m.bytes.as_slice()),
            alone: false,
        },
        Target::Endpoint(place) => match b.endpoint_at(place) {
            Some(endpoint) if endpoint.state.is_syn_sent() => SynChange::Takes {
                permits: permits_sack(m.bytes.as_slice()),
                alone: !m.flags.ack,
            },
            Some(_) | None => SynChange::Nothing,
        },
    }
}

#[inline(always)]
fn is_same_syn(endpoint: &Endpoint, m: &Emission) -> bool
    ensures { result ≡ is_same_syn endpoint.now m.now }
{
    endpoint.state.is_syn_received()
        && m.flags.syn
        && !m.flags.ack
        && !m.flags.rst
        && !m.flags.fin
        && match endpoint.irs {
            Some(irs) => m.seq == irs,
            None => false,
        }
}

/// A segment is dropped.
#[inline(always)]
pub(crate) fn syn_dropped(version: Version, b: &HostTcp, m: &Emission, target: Target) -> SynChange
    ensures { result ≡ syn_dropped version m.now (taker_at b.now target) }
{
    let Target::Endpoint(place) = target else {
        return SynChange::Nothing;
    };
    match b.endpoint_at(place) {
        Some(endpoint) if version.says_sender() && is_same_syn(endpoint, m) => {
            SynChange::ComesAgain
        }
        Some(_) | None => SynChange::Nothing,
    }
}
