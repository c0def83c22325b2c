//! The endpoints of a host: found by their ports, and each changed in its place.

ghost use Rattle.std.specs.Prelude.{◌≡◌, ◌+◌, ◌<◌, ◌^◌, ℕ, true, [], ◌∷◌, ◌++◌, None, length, slice_get, OnOk, OnErr};
ghost use Rattle.std.specs.Prelude.{◌≤◌, false, Some, is_some, IfOk, map};
ghost use Rattle.std.specs.Option.{option_copied, option_map, IfSome, IsSomeAnd};
ghost use Rattle.spec_tcp.specs.HostTcp.{has_ports, last_from};
ghost use Rattle.endpoint_state.specs.Indexes.{is_child_in};
ghost use Rattle.std.specs.List.{All};
ghost use Rattle.spec_tcp.specs.Bounds.{greatest_position, HasRoom, IsSmallEmission};
ghost use Rattle.spec_tcp.specs.Calls.Send.{after_send};
ghost use Rattle.spec_tcp.specs.Calls.Receive.{after_recv};
ghost use Rattle.spec_tcp.specs.Calls.Close.{after_abort, after_close, after_shut, orphaned};
ghost use Rattle.spec_tcp.specs.Forgetting.{forget_endpoint};
ghost use Rattle.case_forms.specs.States.{is_closed};
ghost use Rattle.spec_tcp.specs.Makes.{after_making, emission_of};
ghost use Rattle.spec_tcp.specs.Arrives.{endpoint_taken};
ghost use Rattle.spec_tcp.specs.Timeouts.{after_expiry};
ghost use Rattle.spec_tcp.specs.Recovery.{after_recovery};
ghost use Rattle.streams.specs.Received.{waiting};
ghost use Rattle.endpoint_state.specs.Changes.{changed, orphan_each};
ghost use Rattle.streams.specs.Lists.{modify};

use case_forms::{Expired, Header, RecoveryChange, SegmentPlan, TakeChoice};
use endpoint::take_segment;
use segment::OutOfMemory;
use spec_tcp::{Arrived, Emission, Endpoint, EndpointId};
use std::alloc::Global;
use std::collections::BTreeMap;
use std::marker::Model;

/// The endpoints of a host, in the order of creation, which contracts see as a list.
#[derive(Drop)]
pub(crate) struct Endpoints {
    all: Vec<Endpoint>,
    /// For each pair of ports, the endpoint created last there.
    places: BTreeMap<(u16, u16), u32>,
    /// For each listener that has children, the endpoints it created. No entry is ever removed.
    children: BTreeMap<u32, Vec<u32>>,
}

impl Model for Endpoints {
    ghost use Rattle.std.specs.Prelude.{List};
    ghost use Rattle.spec_tcp.specs.declared.endpoint.Endpoint.{Endpoint};
    ghost use Rattle.endpoint_state.specs.Indexes.{IsIndexed, find_ports, is_child_in};

    ghost Value = { List Endpoint };

    ghost view = { λ a. a.all.items };

    ghost invariant = { λ a. IsIndexed (find_ports a.places.entries) (is_child_in a.children.entries) a.all.items };
}

impl Endpoints {
    pub(crate) fn new(alloc: Global) -> Endpoints
        ensures { result ≡ [] }
    {
        Endpoints {
            all: Vec::new(alloc),
            places: BTreeMap::new(alloc),
            children: BTreeMap::new(alloc),
        }
    }

    pub(crate) fn len(&self) -> usize
        ensures { result ≡ length self.now }
    {
        self.all.len()
    }

    /// The endpoint at a place.
    pub(crate) fn get(&self, place: u32) -> Option<&Endpoint>
        ensures { option_copied result ≡ slice_get self.now place }
    {
        self.all.get(place as usize)
    }

    /// The place of the endpoint created last with these ports.
    pub(crate) fn place_of(&self, lport: u16, rport: u16) -> Option<u32>
        ensures { result ≡ last_from (has_ports lport rport) 0 None self.now }
    {
        self.places.get(&(lport, rport)).copied()
    }

    /// Adds an endpoint at the end. If memory runs out, nothing is changed.
    pub(crate) fn add(&mut self, alloc: Global, endpoint: Endpoint) -> Result<(), OutOfMemory>
        requires { length self.old + 1 < 2 ^ 32 }
        ensures ok { OnOk result (self.new ≡ self.old ++ endpoint ∷ []) }
        ensures err { OnErr result (self.new ≡ self.old) }
    {
        let place = self.all.len() as u32;
        self.all.reserve(1)?;
        add_child(&mut self.children, alloc, endpoint.listener, place)?;
        self.places.insert(endpoint.ports(), place)?;
        self.all.push_reserved(endpoint);
        Ok(())
    }
}

// Adds the place to its listener's children, if it has a listener.
fn add_child(
    children: &mut BTreeMap<u32, Vec<u32>>,
    alloc: Global,
    listener: Option<u32>,
    place: u32,
) -> Result<(), OutOfMemory>
    ensures kept { (l i : ℕ) → is_child_in children.old.entries l i ≡ true
        → is_child_in children.new.entries l i ≡ true }
    ensures added { OnOk result ((l : ℕ) → listener ≡ Some l → is_child_in children.new.entries l place ≡ true) }
{
    let Some(listener) = listener else {
        return Ok(());
    };
    if let Some(places) = children.get_mut(&listener) {
        places.push(place)?;
        return Ok(());
    }
    let mut places = Vec::new(alloc);
    places.push(place)?;
    children.insert(listener, places)?;
    Ok(())
}

// The places given to these functions are those of endpoints: a socket, a queue or a search by ports gave them, and
// endpoints are never removed. `make` and `take` require it; the others change nothing where there is none. Each tests
// the place itself, since the prover refuses these functions with `get_mut` instead.
impl Endpoints {
    /// The endpoint with this identity makes a segment, at a moment in microseconds. Without memory, nothing changes.
    pub(crate) fn make(
        &mut self,
        alloc: Global,
        me: EndpointId,
        making: &SegmentPlan,
        moment: u64,
    ) -> Result<Emission, OutOfMemory>
        requires kept { All HasRoom self.old }
        requires small { making.now.pos ≤ greatest_position }
        requires there { is_some (slice_get self.old me.number) ≡ true }
        ensures made { IfOk result (λ m. option_map (λ e. emission_of me e making.now moment)
            (slice_get self.old me.number) ≡ Some m) }
        ensures small { IfOk result IsSmallEmission }
        ensures ok { OnOk result (self.new ≡ changed self.old me.number (λ e. after_making e making.now moment)) }
        ensures err { OnErr result (self.new ≡ self.old) }
    {
        let place = me.number as usize;
        if place < self.all.len() {
            let emission = make_one(alloc, &mut self.all[place], me, making, moment)?;
            return Ok(emission);
        }
        unreachable!()
    }

    /// A timer of the endpoint at a place expires, at a moment in microseconds.
    pub(crate) fn expire(&mut self, place: u32, expired: Expired, moment: u64)
        requires { All HasRoom self.old }
        ensures { self.new ≡ changed self.old place (λ e. after_expiry e expired moment) }
    {
        let place = place as usize;
        if place < self.all.len() {
            endpoint::expire(&mut self.all[place], expired, moment);
        }
    }

    /// Fast recovery begins at the endpoint at a place, or is undone, with this congestion window and slow start
    /// threshold (in bytes), at a moment in microseconds.
    pub(crate) fn recover(
        &mut self,
        place: u32,
        change: RecoveryChange,
        cwnd: u32,
        ssthresh: u32,
        moment: u64,
    )
        requires { All HasRoom self.old }
        ensures { self.new ≡ changed self.old place (λ e. after_recovery e change cwnd ssthresh moment) }
    {
        let place = place as usize;
        if place < self.all.len() {
            endpoint::recover(&mut self.all[place], change, cwnd, ssthresh, moment);
        }
    }

    /// The endpoint at a place ends sending (RFC 9293, 3.10.4).
    pub(crate) fn shut(&mut self, place: u32)
        requires { All HasRoom self.old }
        ensures { self.new ≡ changed self.old place after_shut }
    {
        let place = place as usize;
        if place < self.all.len() {
            endpoint::shut(&mut self.all[place]);
        }
    }

    /// The endpoint at a place is closed by its socket (RFC 9293, 3.10.4).
    pub(crate) fn close(&mut self, place: u32)
        requires { All HasRoom self.old }
        ensures { self.new ≡ changed self.old place after_close }
    {
        let place = place as usize;
        if place < self.all.len() {
            endpoint::close(&mut self.all[place]);
        }
    }

    /// The endpoint at a place is aborted (RFC 9293, 3.10.5). If there is none, which no socket names, nothing changes.
    pub(crate) fn abort(&mut self, place: u32)
        requires { All HasRoom self.old }
        ensures { self.new ≡ changed self.old place after_abort }
    {
        let place = place as usize;
        if place < self.all.len() {
            endpoint::abort(&mut self.all[place]);
        }
    }

    /// The endpoint at a place is accepted: it is no longer its listener's.
    pub(crate) fn accept(&mut self, place: u32)
        requires { All HasRoom self.old }
        ensures { self.new ≡ changed self.old place (λ e. record e { listener = None }) }
    {
        let place = place as usize;
        if place < self.all.len() {
            endpoint::accept(&mut self.all[place]);
        }
    }

    /// The endpoint at a place takes a segment that it may take, as it reads it, at a moment in microseconds. If memory
    /// runs out, nothing is changed.
    pub(crate) fn take(
        &mut self,
        header: &Header,
        place: u32,
        how: TakeChoice,
        m: &Arrived<'_>,
        moment: u64,
    ) -> Result<(), OutOfMemory>
        requires kept { All HasRoom self.old }
        requires small { IsSmallEmission m.now }
        requires open { IsSomeAnd (slice_get self.old place) (λ e. is_closed e.state ≡ false) }
        ensures ok { OnOk result (self.new ≡ changed self.old place
            (λ e. endpoint_taken header.now e how m.now moment)) }
        ensures err { OnErr result (self.new ≡ self.old) }
    {
        let place = place as usize;
        if place < self.all.len() {
            take_segment(header, &mut self.all[place], how, m, moment)?;
            return Ok(());
        }
        Ok(())
    }

    /// The endpoint at a place accepts the first `count` bytes of a `send`. If memory runs out, nothing is changed.
    pub(crate) fn send(&mut self, place: u32, bytes: &[u8], count: u32) -> Result<(), OutOfMemory>
        requires { All HasRoom self.old }
        ensures ok { OnOk result (self.new ≡ changed self.old place (after_send bytes.now count)) }
        ensures err { OnErr result (self.new ≡ self.old) }
    {
        let place = place as usize;
        if place < self.all.len() {
            endpoint::send(&mut self.all[place], bytes, count)?;
            return Ok(());
        }
        Ok(())
    }

    /// The endpoint at a place delivers the bytes of a `recv`, if at least as many wait.
    pub(crate) fn deliver(&mut self, place: u32, bytes: &[u8])
        requires kept { All HasRoom self.old }
        requires waiting { IfSome (slice_get self.old place)
            (λ e. length bytes.now ≤ length (waiting e.stream.receive)) }
        ensures { self.new ≡ changed self.old place (after_recv bytes.now) }
    {
        let place = place as usize;
        if place < self.all.len() {
            endpoint::deliver(&mut self.all[place], bytes);
        }
    }
}

fn make_one(
    alloc: Global,
    endpoint: &mut Endpoint,
    me: EndpointId,
    making: &SegmentPlan,
    moment: u64,
) -> Result<Emission, OutOfMemory>
    requires room { HasRoom endpoint.old }
    requires small { making.now.pos ≤ greatest_position }
    ensures made { IfOk result (λ m. m ≡ emission_of me endpoint.old making.now moment) }
    ensures small { IfOk result IsSmallEmission }
    ensures ok { OnOk result (endpoint.new ≡ forget_endpoint (after_making endpoint.old making.now moment)) }
    ensures err { OnErr result (endpoint.new ≡ endpoint.old) }
{
    let snd_una = endpoint.stream.snd_una;
    let emission = endpoint::make(alloc, endpoint, me, making, moment)?;
    endpoint.transmissions.forget_below(snd_una);
    Ok(emission)
}

impl Endpoints {
    /// The children of a listener that were not accepted are aborted (RFC 9293, 3.10.5). Other endpoints aren't
    /// visited.
    pub(crate) fn orphan(&mut self, listener: u32)
        requires { All HasRoom self.old }
        ensures { self.new ≡ map (orphaned listener) self.old }
    {
        if let Some(children) = self.children.get(&listener) {
            orphan_each(&mut self.all, children.as_slice(), listener);
        }
    }
}

fn orphan_each(endpoints: &mut Vec<Endpoint>, children: &[u32], listener: u32)
    requires { All HasRoom endpoints.old.items }
    ensures { endpoints.new.items ≡ orphan_each listener children.now endpoints.old.items }
{
    for child in children {
        orphan_at(endpoints, *child as usize, listener);
    }
}

fn orphan_at(endpoints: &mut Vec<Endpoint>, place: usize, listener: u32)
    requires { All HasRoom endpoints.old.items }
    ensures items { endpoints.new.items ≡ modify endpoints.old.items place (orphaned listener) }
    ensures kept { All HasRoom endpoints.new.items }
{
    if place < endpoints.len() {
        let endpoint = &mut endpoints[place];
        endpoint::orphan(listener, endpoint);
    }
}
