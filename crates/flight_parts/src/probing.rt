//! Probes for the loss of what was sent last (RFC 8985, 7).

ghost use Rattle.std.specs.Prelude.{◌≡◌, ◌<◌, ◌^◌};
ghost use Rattle.spec_flights.specs.Probing.{ends_quiet, is_due, is_early_probe, is_none, makes_positions, not_probing};
ghost use Rattle.spec_flights.specs.Probing.{probe_after, probe_before, probe_built, probe_moment, probe_timeout};
ghost use Rattle.spec_flights.specs.Probing.{probing_after};

use crate::marks::{is_fin_alone, making_length};
use case_forms::{RecoveryChange, SegmentPlan, Timer};
use spec_duties::{Event, View};
use spec_flights::{Probe, Probing};

/// Before any step.
pub fn not_probing() -> Probing
    ensures { result ≡ not_probing }
{
    Probing {
        probe: Probe::Nothing,
        quiet: None,
    }
}

/// Whether one is due.
pub fn is_due(probe: Probe) -> bool
    ensures { result ≡ is_due probe }
{
    match probe {
        Probe::Due => true,
        Probe::Nothing | Probe::Out(_) => false,
    }
}

/// Whether none is due or on its way.
pub fn is_none(probe: Probe) -> bool
    ensures { result ≡ is_none probe }
{
    match probe {
        Probe::Nothing => true,
        Probe::Due | Probe::Out(_) => false,
    }
}

/// How long nothing may come or go before a probe, in microseconds.
pub fn probe_timeout(v: &View) -> u128
    ensures exact { result ≡ probe_timeout v.now }
    ensures limit { result < 2 ^ 66 }
{
    match v.timers.srtt {
        Some(srtt) => 2 * u128::from(srtt),
        None => 1_000_000,
    }
}

/// When a probe is due, in microseconds, if nothing came or went since.
pub fn probe_moment(v: &View, quiet: u64) -> u128
    ensures { result ≡ probe_moment v.now quiet }
{
    let due = u128::from(quiet) + probe_timeout(v);
    match v.timers.rto_armed {
        Some(since) => due.min(u128::from(since) + u128::from(v.timers.rto)),
        None => due,
    }
}

/// Whether a probe comes too early. `clock`: the moment, and how far a clock may be wrong, in microseconds.
pub fn is_early_probe(clock: u128, v: &View, quiet: Option<u64>) -> bool
    ensures { result ≡ is_early_probe clock v.now quiet }
{
    match quiet {
        Some(quiet) => clock < probe_moment(v, quiet),
        None => false,
    }
}

fn makes_positions(v: &View, plan: &SegmentPlan) -> bool
    ensures { result ≡ makes_positions v.now plan.now }
{
    0 < making_length(plan) && !is_fin_alone(plan, v)
}

fn probe_before(after: &View, probe: Probe) -> Probe
    ensures { result ≡ probe_before after.now probe }
{
    match probe {
        Probe::Out(end) if end <= after.snd_una => Probe::Nothing,
        Probe::Nothing | Probe::Due | Probe::Out(_) => probe,
    }
}

fn probe_built(before: &View, after: &View, plan: &SegmentPlan, probe: Probe) -> Probe
    ensures { result ≡ probe_built before.now after.now plan.now probe }
{
    if is_due(probe) && makes_positions(before, plan) {
        Probe::Out(after.snd_max)
    } else {
        probe
    }
}

fn probe_after(event: &Event, before: &View, after: &View, probe: Probe) -> Probe
    ensures { result ≡ probe_after event.now before.now after.now probe }
{
    match event {
        Event::Expires(Timer::Pto) => Probe::Due,
        Event::Expires(Timer::Rto) | Event::Recovers(RecoveryChange::Begins) => Probe::Nothing,
        Event::Builds(plan) => probe_built(before, after, plan, probe),
        Event::Opens
        | Event::Calls { .. }
        | Event::Processes { .. }
        | Event::Drops { .. }
        | Event::Sends(_)
        | Event::Expires(Timer::Persist | Timer::Msl2 | Timer::Giveup)
        | Event::Recovers(RecoveryChange::IsUndone) => probe_before(after, probe),
    }
}

// Whether something new is acknowledged, or is sent, but for a probe.
fn ends_quiet(event: &Event, before: &View, after: &View, probe: Probe) -> bool
    ensures { result ≡ ends_quiet event.now before.now after.now probe }
{
    match event {
        Event::Processes { .. } => before.snd_una < after.snd_una,
        Event::Builds(_) => before.snd_max < after.snd_max && !is_due(probe),
        Event::Opens
        | Event::Calls { .. }
        | Event::Drops { .. }
        | Event::Sends(_)
        | Event::Expires(_)
        | Event::Recovers(_) => false,
    }
}

/// After a step at this moment, in microseconds.
pub fn probing_after(
    moment: u64,
    event: &Event,
    before: &View,
    after: &View,
    it: Probing,
) -> Probing
    ensures { result ≡ probing_after moment event.now before.now after.now it }
{
    Probing {
        probe: probe_after(event, before, after, it.probe),
        quiet: if ends_quiet(event, before, after, it.probe) {
            Some(moment)
        } else {
            it.quiet
        },
    }
}
