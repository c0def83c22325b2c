//! What is kept of all endpoints, what it refuses, and what is kept after a step.

ghost use Rattle.std.specs.Prelude.{◌≡◌, ◌+◌, None, nat_eq, unwrap_or, OnOk, IfOk};
ghost use Rattle.std.specs.Map.{lookup};
ghost use Rattle.indexmap.specs.IndexMap.{insert_entry};
ghost use Rattle.spec_network.specs.Tables.{on, pick};
ghost use Rattle.spec_flights.specs.Clocks.{excused_at};
ghost use Rattle.spec_flights.specs.Echoes.{mistimed_by};
ghost use Rattle.spec_flights.specs.Flights as spec;
ghost use Rattle.spec_flights.specs.Flights.{broken_at, excused, flight_after, flight_at, flights_after};
ghost use Rattle.spec_flights.specs.Flights.{flights_touched, mistimed, refusal, sends_untrue, start, unflown};
ghost use Rattle.spec_flights.specs.Sides.{are_selective};
ghost use Rattle.spec_duties.specs.Resent.{judges_repeats};

use crate::flight::Flight;
use crate::probe_standing::ProbeStanding;
use crate::standing::Standing;
use case_forms::{Header, Host, Judged, OutOfMemory};
use flight_parts::{Untrue, are_selective, excused_at, mistimed_by, no_clocks, why_untrue};
use spec_duties::{Observation, TouchedEndpoint, Untruth, View};
use spec_flights::{Clocks, Echoable};
use spec_tcp::{Endpoint, EndpointId};
use std::alloc::Global;
use std::marker::Model;
use std::mem::replace;
use tables::Table;
use verdict::Rule;

// The table of each host.
#[derive(Drop)]
struct Tables {
    zero: Table<Flight>,
    one: Table<Flight>,
}

impl Model for Tables {
    ghost use Rattle.spec_flights.specs.Flights.{Flights};

    ghost Value = { Flights };

    ghost view = { λ a. record { zero = a.zero.entries; one = a.one.entries } };
}

impl Tables {
    fn new(alloc: Global) -> Tables
        ensures { result ≡ start }
    {
        Tables {
            zero: Table::new(alloc),
            one: Table::new(alloc),
        }
    }

    fn get(&self, host: Host) -> &Table<Flight>
        ensures { result.now.entries ≡ pick self.now host }
    {
        match host {
            Host::Zero => &self.zero,
            Host::One => &self.one,
        }
    }

    // Notes a step at an endpoint.
    fn note(
        &mut self,
        alloc: Global,
        now: Instant,
        seen: &Observation,
        touched: &TouchedEndpoint,
        after: &View,
    ) -> Result<(), OutOfMemory>
        ensures { OnOk result (self.new
            ≡ flights_touched now.moment now.clock seen.now after.now self.old touched.now) }
    {
        match touched.host {
            Host::Zero => note_in(&mut self.zero, alloc, now, seen, touched, after),
            Host::One => note_in(&mut self.one, alloc, now, seen, touched, after),
        }
    }
}

// Takes out what is kept of an endpoint, which is then to be put back.
fn take_from(table: &mut Table<Flight>, alloc: Global, place: u32) -> Flight
    ensures taken { result ≡ unwrap_or (lookup (nat_eq place) table.old.entries) unflown }
    ensures put_back { (f : spec.Flight) → insert_entry nat_eq table.new.entries place f
        ≡ insert_entry nat_eq table.old.entries place f }
{
    match table.replace(u64::from(place), Flight::new(alloc)) {
        Some(flight) => flight,
        None => Flight::new(alloc),
    }
}

// Notes a step at an endpoint of this table.
fn note_in(
    table: &mut Table<Flight>,
    alloc: Global,
    now: Instant,
    seen: &Observation,
    touched: &TouchedEndpoint,
    after: &View,
) -> Result<(), OutOfMemory>
    ensures { OnOk result (table.new.entries ≡ insert_entry nat_eq table.old.entries touched.now.place
        (flight_after now.moment now.clock seen.now touched.now after.now
        (unwrap_or (lookup (nat_eq touched.now.place) table.old.entries) unflown))) }
{
    let mut flight = take_from(table, alloc, touched.place);
    flight.note(now.moment, now.clock, seen, touched, after)?;
    table.insert(u64::from(touched.place), flight)
}

/// What is kept of data in flight, by endpoints. It takes no room before a step of version 6.
#[derive(Drop)]
pub struct Flights {
    alloc: Global,
    tables: Option<Box<Tables>>,
}

impl Model for Flights {
    ghost use Rattle.std.specs.Option.{option_map_or};
    ghost use Rattle.spec_flights.specs.Flights.{Flights, start};

    ghost Value = { Flights };

    ghost view = { λ a. option_map_or (λ tables. tables.value) a.tables start };
}

// A moment in microseconds, and the same with how far a clock may be wrong.
#[derive(Clone, Copy)]
struct Instant {
    moment: u64,
    clock: u128,
}

// A moment, and how far a clock may be wrong.
fn clock_at(header: &Header, moment: u64) -> u128
    ensures { result ≡ moment + header.now.grain }
{
    u128::from(moment) + u128::from(header.grain)
}

fn judges_repeats(level: Judged) -> bool
    ensures { result ≡ judges_repeats level }
{
    match level {
        Judged::Full | Judged::Recovery => true,
        Judged::NoControl => false,
    }
}

impl Flights {
    /// Before the first step.
    pub fn start(alloc: Global) -> Flights
        ensures { result ≡ start }
    {
        Flights {
            alloc,
            tables: None,
        }
    }

    // The rule that a step breaks at an endpoint.
    fn broken_by(&self, repeats: bool, clock: u128, touched: &TouchedEndpoint) -> Option<Rule>
        ensures { result ≡ broken_at repeats clock touched.now.event touched.now.before
            (flight_at self.now touched.now.host touched.now.place) }
    {
        if let Some(tables) = &self.tables {
            if let Some(flight) = tables.get(touched.host).get(u64::from(touched.place)) {
                return flight.broken_at(repeats, clock, &touched.event, &touched.before);
            }
        }
        Flight::new(self.alloc).broken_at(repeats, clock, &touched.event, &touched.before)
    }

    /// The rule that a step at this moment, in microseconds, breaks beside those of the model. None: it breaks none.
    #[inline(always)]
    pub fn refusal(&self, header: &Header, moment: u64, seen: &Observation) -> Option<Rule>
        ensures { result ≡ refusal header.now moment self.now seen.now }
    {
        if !header.version.says_sender() {
            return None;
        }
        match &seen.touched {
            Some(touched) => {
                let repeats = judges_repeats(header.congestion);
                self.broken_by(repeats, clock_at(header, moment), touched)
            }
            None => None,
        }
    }

    /// What the line of a segment shows of timestamps that may not be, if a step is one: it doesn't echo what it has
    /// to, or its own is older than one that was built before. In versions 1 to 5 all may be.
    #[inline(always)]
    pub fn mistimed(&self, header: &Header, seen: &Observation) -> Option<Untruth>
        ensures { result ≡ mistimed header.now self.now seen.now }
    {
        if !header.version.says_sender() {
            return None;
        }
        match &seen.touched {
            Some(touched) => self.mistimed_by(touched, seen),
            None => None,
        }
    }

    // The same of a step at an endpoint.
    fn mistimed_by(&self, touched: &TouchedEndpoint, seen: &Observation) -> Option<Untruth>
        ensures { result ≡ mistimed_by seen.now touched.now.event
            (flight_at self.now touched.now.host touched.now.place).clocks
            (flight_at self.now touched.now.host touched.now.place).echoes }
    {
        if let Some(tables) = &self.tables {
            if let Some(flight) = tables.get(touched.host).get(u64::from(touched.place)) {
                return mistimed_by(seen, &touched.event, flight.clocks, &flight.echoes);
            }
        }
        let flight = Flight::new(self.alloc);
        mistimed_by(seen, &touched.event, flight.clocks, &flight.echoes)
    }

    /// What is known of timestamps at the endpoint at this place.
    pub fn clocks_at(&self, host: Host, place: u32) -> Clocks
        ensures { result ≡ (flight_at self.now host place).clocks }
    {
        if let Some(tables) = &self.tables {
            if let Some(flight) = tables.get(host).get(u64::from(place)) {
                return flight.clocks;
            }
        }
        no_clocks()
    }

    // What duties see of a step at an endpoint. Most steps drop nothing.
    fn excused_by(&self, touched: &TouchedEndpoint, seen: &Observation) -> Observation
        ensures { result ≡ excused_at (flight_at self.now touched.now.host touched.now.place).clocks seen.now }
    {
        if seen.dropping.is_none() {
            return *seen;
        }
        excused_at(self.clocks_at(touched.host, touched.place), seen)
    }

    /// What duties see of a step: an endpoint may drop a segment that is too old by its timestamps, or lacks them. In
    /// versions 1 to 5 it may not.
    #[inline(always)]
    pub fn excused(&self, header: &Header, seen: &Observation) -> Observation
        ensures { result ≡ excused header.now self.now seen.now }
    {
        if !header.version.says_sender() {
            return *seen;
        }
        match &seen.touched {
            Some(touched) => self.excused_by(touched, seen),
            None => *seen,
        }
    }

    /// Whether both SYNs of the endpoint at this place permitted selective acknowledgments.
    pub fn is_selective(&self, host: Host, place: u32) -> bool
        ensures { result ≡ are_selective (flight_at self.now host place).sides }
    {
        if let Some(tables) = &self.tables {
            if let Some(flight) = tables.get(host).get(u64::from(place)) {
                return are_selective(flight.sides);
            }
        }
        false
    }

    /// Whether the last recovery of the endpoint at this place wasn't needed, so that it may be undone.
    pub fn is_spurious(&self, host: Host, place: u32) -> bool
        ensures { result ≡ (flight_at self.now host place).undoing.is_spurious }
    {
        if let Some(tables) = &self.tables {
            if let Some(flight) = tables.get(host).get(u64::from(place)) {
                return flight.undoing.is_spurious;
            }
        }
        false
    }

    /// Whether an endpoint may not send a segment with these bytes, because of its blocks: its peer's SYN didn't permit
    /// them, or one reports what it doesn't hold.
    pub fn sends_untrue(&self, id: EndpointId, endpoint: &Endpoint, bytes: &[u8]) -> bool
        ensures { result ≡ sends_untrue self.now id.host id.number endpoint.now bytes.now }
    {
        let (next, irs) = (endpoint.rcv_nxt(), endpoint.irs);
        if let Some(tables) = &self.tables {
            if let Some(flight) = tables.get(id.host).get(u64::from(id.number)) {
                return flight.is_untrue(next, irs, bytes);
            }
        }
        Flight::new(self.alloc).is_untrue(next, irs, bytes)
    }

    /// Why an endpoint may not send a segment with these bytes. None: it may.
    pub fn why_untrue(&self, id: EndpointId, endpoint: &Endpoint, bytes: &[u8]) -> Option<Untrue> {
        let (next, irs) = (endpoint.rcv_nxt(), endpoint.irs);
        if let Some(tables) = &self.tables {
            if let Some(flight) = tables.get(id.host).get(u64::from(id.number)) {
                return why_untrue(flight.sides.peers, &flight.held, next, irs, bytes);
            }
        }
        Some(Untrue::NotPermitted)
    }

    /// Which timestamps the segment of this number may echo, if an endpoint built it and it wasn't sent yet. None: that
    /// isn't known.
    pub fn echoable(&self, id: EndpointId, number: u32) -> Option<Echoable> {
        let Some(tables) = &self.tables else {
            return None;
        };
        let flight = tables.get(id.host).get(u64::from(id.number))?;
        *flight.echoes.get(u64::from(number))?
    }

    /// What an endpoint knows of losses at a step that is refused at this moment, in microseconds. None: the step isn't
    /// refused for them, or one of the two SYNs didn't permit selective acknowledgments.
    pub fn standing(
        &self,
        header: &Header,
        moment: u64,
        touched: &TouchedEndpoint,
    ) -> Option<Standing> {
        if !header.version.says_sender() {
            return None;
        }
        let Some(tables) = &self.tables else {
            return None;
        };
        let flight = tables.get(touched.host).get(u64::from(touched.place))?;
        flight.standing(clock_at(header, moment), &touched.event, &touched.before)
    }

    /// Whether an endpoint that is seen like this may probe for a loss, and if not, why. None: the version is 1 to 5.
    pub fn probe_standing(
        &self,
        header: &Header,
        host: Host,
        place: u32,
        v: &View,
    ) -> Option<ProbeStanding> {
        if !header.version.says_sender() {
            return None;
        }
        if let Some(tables) = &self.tables {
            if let Some(flight) = tables.get(host).get(u64::from(place)) {
                return Some(flight.probe_standing(v));
            }
        }
        Some(Flight::new(self.alloc).probe_standing(v))
    }

    // The tables, taken out, or new ones.
    fn take(&mut self) -> Result<Box<Tables>, OutOfMemory>
        ensures { IfOk result (λ tables. tables.value ≡ self.old) }
    {
        match replace(&mut self.tables, None) {
            Some(tables) => Ok(tables),
            None => Ok(Box::new(self.alloc, Tables::new(self.alloc))?),
        }
    }

    fn note_touched(
        &mut self,
        now: Instant,
        seen: &Observation,
        touched: &TouchedEndpoint,
        after: &View,
    ) -> Result<(), OutOfMemory>
        ensures { OnOk result (self.new
            ≡ flights_touched now.moment now.clock seen.now after.now self.old touched.now) }
    {
        let alloc = self.alloc;
        let mut tables = self.take()?;
        tables.note(alloc, now, seen, touched, after)?;
        self.tables = Some(tables);
        Ok(())
    }

    /// Notes a step at this moment, in microseconds, if the endpoint that it touches is then seen like this. In
    /// versions 1 to 5 nothing is noted. If memory runs out, nothing of it is of use any more.
    #[inline(always)]
    pub fn note(
        &mut self,
        header: &Header,
        moment: u64,
        seen: &Observation,
        after: &View,
    ) -> Result<(), OutOfMemory>
        ensures { OnOk result (self.new ≡ flights_after header.now moment after.now seen.now self.old) }
    {
        if !header.version.says_sender() {
            return Ok(());
        }
        match &seen.touched {
            Some(touched) => {
                let clock = clock_at(header, moment);
                self.note_touched(Instant { moment, clock }, seen, touched, after)
            }
            None => Ok(()),
        }
    }
}
