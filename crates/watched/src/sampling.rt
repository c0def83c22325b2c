//! Whether a step measures a round trip, or could.
//! `lib.rt` says why functions here are inlined.

ghost use Rattle.std.specs.Prelude.{◌≡◌};
ghost use Rattle.endpoint_state.specs.Kept.{AreReadable};
ghost use Rattle.spec_duties.specs.Sampling.{may_measure, sampling_at, sampling_by};
ghost use Rattle.watched.specs.Targets.{taker_at};

use case_forms::{TakeChoice, Version};
use duties::Target;
use endpoint::may_sample;
use endpoint_state::HostTcp;
use spec_duties::Sampling;
use spec_tcp::{Arrived, Emission, Endpoint};

#[inline(always)]
fn may_measure(version: Version, e: &Endpoint, m: &Arrived<'_>) -> bool
    ensures { result ≡ may_measure version e.now m.now }
{
    if m.flags().rst {
        return false;
    }
    if e.state.is_syn_sent() {
        return m.flags().ack && !e.transmissions.is_retransmitted(e.stream.snd_una, 1);
    }
    may_sample(version, e, m)
}

// Whether an endpoint that processes a segment in this way measures a round trip, or could.
#[inline(always)]
fn sampling_by(version: Version, how: TakeChoice, e: &Endpoint, m: &Arrived<'_>) -> Sampling
    ensures { result ≡ sampling_by version how e.now m.now }
{
    if how.sample {
        Sampling::Measures
    } else if may_measure(version, e, m) {
        Sampling::Skips(m.ack().saturating_sub(1))
    } else {
        Sampling::Nothing
    }
}

/// Whether processing a segment measures a round trip, or could.
#[tactic(auto, using(endpoint_state::proofs::Readable::una_at))]
#[inline(always)]
pub(crate) fn sampling_at(
    version: Version,
    b: &HostTcp,
    how: TakeChoice,
    m: &Emission,
    target: Target,
) -> Sampling
    requires { AreReadable b.now.endpoints }
    ensures { result ≡ sampling_at version how m.now (taker_at b.now target) }
{
    let Target::Endpoint(place) = target else {
        return Sampling::Nothing;
    };
    if !version.says_sender() {
        return Sampling::Nothing;
    }
    match b.endpoint_at(place) {
        Some(e) => sampling_by(version, how, e, &Arrived::read(version, e, m)),
        None => Sampling::Nothing,
    }
}
