//! Whether a step earns its endpoint a credit.
//! `lib.rt` says why functions here are inlined.

ghost use Rattle.std.specs.Prelude.{◌≡◌};
ghost use Rattle.std.specs.Result.{result_err};
ghost use Rattle.endpoint_state.specs.Kept.{AreReadable};
ghost use Rattle.spec_duties.specs.Dropped.{earns_by_dropping, earns_by_taking};
ghost use Rattle.watched.specs.Targets.{taker_at};

use case_forms::Version;
use duties::{Target, acknowledges_less, asks, reads_old_numbers};
use endpoint_state::HostTcp;
use spec_tcp::{Arrived, Emission};
use verdict::Rule;

/// Whether processing a segment earns a credit.
#[tactic(auto, using(endpoint_state::proofs::Readable::una_at))]
#[inline(always)]
pub(crate) fn earns_by_taking(version: Version, b: &HostTcp, m: &Emission, target: Target) -> bool
    requires { AreReadable b.now.endpoints }
    ensures { result ≡ earns_by_taking version m.now (taker_at b.now target) }
{
    let Target::Endpoint(place) = target else {
        return false;
    };
    if !version.says_sender() {
        return false;
    }
    match b.endpoint_at(place) {
        Some(e) => {
            0 < m.length() || acknowledges_less(version, e, &Arrived::read(version, e, m))
        }
        None => false,
    }
}

/// Whether dropping it does. `processing`: whether the model permits processing it.
#[inline(always)]
pub(crate) fn earns_by_dropping(
    version: Version,
    b: &HostTcp,
    m: &Emission,
    processing: Result<(), Rule>,
    target: Target,
) -> bool
    ensures { result ≡ earns_by_dropping version m.now (result_err processing) (taker_at b.now target) }
{
    let Target::Endpoint(place) = target else {
        return false;
    };
    if !version.says_sender() {
        return false;
    }
    match b.endpoint_at(place) {
        Some(e) => 0 < m.length() || asks(reads_old_numbers(version), m, processing, e),
        None => false,
    }
}
