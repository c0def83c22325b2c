//! What is in flight of some positions, run by run. Each run that a loop here passes is then reported, acknowledged or
//! built again, or the endpoint begins a recovery that outlasts it.

ghost use Rattle.std.specs.Prelude.{◌≡◌, ◌<◌, nat_lt, OnOk};
ghost use Rattle.std.specs.FinSet as set;
ghost use Rattle.std.specs.List.{list_any};
ghost use Rattle.streams.specs.Flying.{flying_in};
ghost use Rattle.spec_flights.specs.Delivered.{ends_among, is_later, is_plausible, latest_after, latest_by};
ghost use Rattle.spec_flights.specs.Delivered.{least_after, least_by};

use case_forms::OutOfMemory;
use spec_flights::{Latest, Stretch};
use streams::{Flight as Known, Outstanding, Ranges, next_run};

/// Whether something in flight was built under a lower number.
pub(crate) fn is_any_below(known: &Known, told: &Ranges, number: u64, stretch: Stretch) -> bool
    ensures { result
        ≡ list_any (λ x. nat_lt x.1.number number) (flying_in known.now told.now stretch.from stretch.upto) }
{
    let mut at = stretch.from;
    while let Some(run) = next_run(known, told, at, stretch.upto) {
        if run.state.number < number {
            return true;
        }
        at = run.upto;
    }
    false
}

// The least round trip, by one segment more that is delivered.
fn least_by(moment: u64, x: &Outstanding, least: Option<u64>) -> Option<u64>
    ensures { result ≡ least_by moment x.now least }
{
    if x.again {
        return least;
    }
    let round_trip = moment.saturating_sub(x.moment);
    match least {
        Some(least) => Some(least.min(round_trip)),
        None => Some(round_trip),
    }
}

/// The least round trip, by what is in flight of these positions, if it is delivered now.
pub(crate) fn least_in(
    known: &Known,
    told: &Ranges,
    moment: u64,
    least: Option<u64>,
    stretch: Stretch,
) -> Option<u64>
    ensures { result ≡ least_after moment least (flying_in known.now told.now stretch.from stretch.upto) }
{
    let mut shortest = least;
    let mut at = stretch.from;
    while let Some(run) = next_run(known, told, at, stretch.upto) {
        shortest = least_by(moment, &run.state, shortest);
        at = run.upto;
    }
    shortest
}

fn is_plausible(moment: u64, least: Option<u64>, x: &Outstanding) -> bool
    ensures { result ≡ is_plausible moment least x.now }
{
    match least {
        Some(least) => least <= moment.saturating_sub(x.moment),
        None => true,
    }
}

fn is_later(x: &Outstanding, latest: Option<Latest>) -> bool
    ensures { result ≡ is_later x.now latest }
{
    match latest {
        Some(latest) => latest.number < x.number,
        None => true,
    }
}

// What was delivered and built last, by one segment more.
fn latest_by(
    moment: u64,
    least: Option<u64>,
    x: &Outstanding,
    latest: Option<Latest>,
) -> Option<Latest>
    ensures { result ≡ latest_by moment least x.now latest }
{
    if is_plausible(moment, least, x) && is_later(x, latest) {
        Some(Latest {
            number: x.number,
            round_trip: moment.saturating_sub(x.moment),
        })
    } else {
        latest
    }
}

/// What was delivered and built last, by what is in flight of these positions, if it is delivered now.
pub(crate) fn latest_in(
    known: &Known,
    told: &Ranges,
    moment: u64,
    least: Option<u64>,
    latest: Option<Latest>,
    stretch: Stretch,
) -> Option<Latest>
    ensures { result ≡ latest_after moment least latest (flying_in known.now told.now stretch.from stretch.upto) }
{
    let mut last = latest;
    let mut at = stretch.from;
    while let Some(run) = next_run(known, told, at, stretch.upto) {
        last = latest_by(moment, least, &run.state, last);
        at = run.upto;
    }
    last
}

/// Adds the positions with which segments end, of what is in flight of these positions.
pub(crate) fn add_ends(
    ends: &mut Ranges,
    known: &Known,
    told: &Ranges,
    stretch: Stretch,
) -> Result<(), OutOfMemory>
    ensures { OnOk result (ends.new ≡ set.union ends.old
        (set.from_list (ends_among (flying_in known.now told.now stretch.from stretch.upto)))) }
{
    let mut at = stretch.from;
    while let Some(run) = next_run(known, told, at, stretch.upto) {
        if run.state.last {
            ends.add(run.upto - 1, run.upto)?;
        }
        at = run.upto;
    }
    Ok(())
}
