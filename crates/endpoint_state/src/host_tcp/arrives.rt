//! A segment arrives (RFC 9293, 3.10.7): which endpoint or listener it finds, what that may do, and what it does. A
//! segment that finds neither is answered by a reset (3.5.2).

ghost use Rattle.std.specs.Prelude.{◌≡◌, ◌<◌, ◌+◌, ◌^◌, Some, length, [], ◌∷◌, ◌++◌, IfOk, OnOk, OnErr};
ghost use Rattle.std.specs.List.{All};
ghost use Rattle.std.specs.Option.{IfSome};
ghost use Rattle.std.specs.Result.{result_err};
ghost use Rattle.verdict.specs.Rules.{first_broken};
ghost use Rattle.spec_tcp.specs.Arrives.Listen.{child};
ghost use Rattle.spec_tcp.specs.Arrives.OtherStates.{is_queue_full, joins_full_queue};
ghost use Rattle.spec_tcp.specs.Arrives.{after_taking, endpoint_taken, endpoint_taker, listener_taker, taker};
ghost use Rattle.spec_tcp.specs.Arrives.{taker_rules};
ghost use Rattle.spec_tcp.specs.Bounds.{HasRoom, IsSmallEmission};
ghost use Rattle.spec_tcp.specs.Forgetting.{forget_body};
ghost use Rattle.spec_tcp.specs.Reset.{finds_nothing, is_stray_ack, reset_rules};
ghost use Rattle.streams.specs.Lists.{modify};
ghost use Rattle.endpoint_state.specs.declared.host_tcp.arrives.Found.TheVariants as found;
ghost use Rattle.endpoint_state.specs.Changes.{changed};
ghost use Rattle.endpoint_state.specs.Faults.{fault_rule};
ghost use Rattle.endpoint_state.specs.Kept.{AreReadable};
ghost use Rattle.endpoint_state.specs.Takers.{IsOpen, joins_by, taker_found};

use crate::fault::StepFault;
use crate::host_tcp::HostTcp;
use case_forms::{Header, Host, TakeChoice};
use endpoint::completes_handshake;
use segment::OutOfMemory;
use seqno::number;
use spec_tcp::{Arrived, Emission, Endpoint, EndpointId, profile_of};
use std::alloc::Global;
use verdict::Rule;
use window_rules::Profile;

/// What a segment finds (RFC 9293, 3.10.7): the endpoint of its ports that is not CLOSED, or else the open listener on
/// its destination port.
#[derive(Clone, Copy)]
pub(crate) enum Found {
    /// The listener at this place.
    Listener(u32),
    /// The endpoint at this place.
    Endpoint(u32),
}

impl HostTcp {
    /// What an arriving segment finds. None: no such endpoint or listener.
    pub(crate) fn taker(&self, m: &Emission) -> Option<Found>
        ensures taker { taker_found self.now result ≡ taker self.now m.now }
        ensures open { IfSome result (IsOpen self.now) }
    {
        match self.place_of(m.rport, m.lport) {
            Some(place) => self.endpoint_taker(m, place),
            None => self.listener_taker(m),
        }
    }

    fn endpoint_taker(&self, m: &Emission, place: u32) -> Option<Found>
        ensures taker { taker_found self.now result ≡ endpoint_taker self.now m.now place }
        ensures open { IfSome result (IsOpen self.now) }
    {
        match self.endpoint_at(place) {
            Some(endpoint) => {
                if endpoint.state.is_closed() {
                    self.listener_taker(m)
                } else {
                    Some(Found::Endpoint(place))
                }
            }
            None => self.listener_taker(m),
        }
    }

    fn listener_taker(&self, m: &Emission) -> Option<Found>
        ensures taker { taker_found self.now result ≡ listener_taker self.now m.now }
        ensures open { IfSome result (IsOpen self.now) }
    {
        match self.listener_on(m.rport) {
            Some(place) => Some(Found::Listener(place)),
            None => None,
        }
    }

    /// Which endpoint or listener may take a segment that arrived (RFC 9293, 3.10.7). The error is the first broken
    /// rule.
    pub(crate) fn admitted_taking(
        &self,
        header: &Header,
        host: Host,
        how: TakeChoice,
        m: &Emission,
        moment: u64,
    ) -> Result<Found, Rule>
        requires { AreReadable self.now.endpoints }
        ensures rule { result_err result ≡ first_broken
            (taker_rules header.now host self.now how m.now moment (taker self.now m.now)) }
        ensures taker { IfOk result (λ found. taker_found self.now (Some found) ≡ taker self.now m.now) }
        ensures open { IfOk result (IsOpen self.now) }
    {
        let Some(found) = self.taker(m) else {
            return Err(Rule::NoEndpoint);
        };
        self.admits_taking_by(header, host, found, how, m, moment)?;
        Ok(found)
    }

    fn admits_taking_by(
        &self,
        header: &Header,
        host: Host,
        found: Found,
        how: TakeChoice,
        m: &Emission,
        moment: u64,
    ) -> Result<(), Rule>
        requires { AreReadable self.now.endpoints }
        ensures { result_err result ≡ first_broken
            (taker_rules header.now host self.now how m.now moment (taker_found self.now (Some found))) }
    {
        match found {
            Found::Listener(_) => endpoint::admits_listening(how, m),
            Found::Endpoint(place) => self.admits_taking_at(header, host, place, how, m, moment),
        }
    }

    // The endpoint at a place reads the segment, and may take it.
    #[tactic(auto, using(crate::proofs::Readable::una_at))]
    fn admits_taking_at(
        &self,
        header: &Header,
        host: Host,
        place: u32,
        how: TakeChoice,
        m: &Emission,
        moment: u64,
    ) -> Result<(), Rule>
        requires { AreReadable self.now.endpoints }
        ensures { result_err result ≡ first_broken
            (taker_rules header.now host self.now how m.now moment
            (taker_found self.now (Some (found.Endpoint place)))) }
    {
        let Some(endpoint) = self.endpoint_at(place) else {
            return Err(Rule::NoEndpoint);
        };
        let m = Arrived::read(header.version, endpoint, m);
        if endpoint.state.is_syn_sent() {
            return endpoint::admits_syn_sent(endpoint, how, &m, moment);
        }
        let full = self.joins_full_queue(header, endpoint, &m);
        let me = EndpointId {
            host,
            number: place,
        };
        endpoint::admits_connected(header, full, me, endpoint, how, &m, moment)
    }

    // The endpoint is a child that would join a full queue.
    fn joins_full_queue(&self, header: &Header, endpoint: &Endpoint, m: &Arrived<'_>) -> bool
        ensures { result ≡ joins_full_queue header.now self.now endpoint.now m.now }
    {
        if !endpoint.state.is_syn_received() || m.flags().rst {
            return false;
        }
        match endpoint.listener {
            Some(place) => self.is_queue_full(header, place),
            None => false,
        }
    }

    fn is_queue_full(&self, header: &Header, place: u32) -> bool
        ensures { result ≡ is_queue_full header.now self.now place }
    {
        match self.listener_at(place) {
            Some(listener) => listener.is_full(header.extra),
            None => false,
        }
    }

    /// This host takes a segment that arrived, at a moment in microseconds (RFC 9293, 3.10.7). The error is the first
    /// broken rule, or that memory ran out; nothing is changed then.
    #[tactic(auto, using(crate::proofs::BodyLemmas::body_same, crate::proofs::Readable::room_reads))]
    pub(crate) fn take(
        &mut self,
        alloc: Global,
        header: &Header,
        host: Host,
        how: TakeChoice,
        m: &Emission,
        moment: u64,
    ) -> Result<(), StepFault>
        requires kept { All HasRoom self.old.endpoints }
        requires small { IsSmallEmission m.now }
        requires endpoints { length self.old.endpoints + 1 < 2 ^ 32 }
        ensures fault { fault_rule result ≡ first_broken
            (taker_rules header.now host self.old how m.now moment (taker self.old m.now)) }
        ensures ok { OnOk result (self.new ≡ forget_body
            (after_taking header.now self.old how m.now moment (taker self.old m.now))) }
        ensures err { OnErr result (self.new ≡ self.old) }
    {
        match self.admitted_taking(header, host, how, m, moment)? {
            Found::Listener(place) => self.create_child(
                alloc,
                profile_of(header),
                place,
                how,
                m,
                moment,
            )?,
            Found::Endpoint(place) => self.take_at(header, place, how, m, moment)?,
        }
        Ok(())
    }

    // The listener at a place takes a SYN, and has one more child.
    fn create_child(
        &mut self,
        alloc: Global,
        profile: Profile,
        place: u32,
        how: TakeChoice,
        m: &Emission,
        moment: u64,
    ) -> Result<(), OutOfMemory>
        requires kept { All HasRoom self.old.endpoints }
        requires endpoints { length self.old.endpoints + 1 < 2 ^ 32 }
        ensures ok { OnOk result (self.new ≡ forget_body (record self.old {
          endpoints = self.old.endpoints
              ++ child profile place how m.now moment ∷ [];
        })) }
        ensures err { OnErr result (self.new ≡ self.old) }
    {
        let child = endpoint::child(alloc, profile, place, how, m, moment);
        self.endpoints.add(alloc, child)
    }

    // The endpoint at a place takes a segment, and joins its listener's queue if this acknowledges its SYN.
    fn take_at(
        &mut self,
        header: &Header,
        place: u32,
        how: TakeChoice,
        m: &Emission,
        moment: u64,
    ) -> Result<(), OutOfMemory>
        requires kept { All HasRoom self.old.endpoints }
        requires small { IsSmallEmission m.now }
        requires open { IsOpen self.old (found.Endpoint place) }
        ensures ok { OnOk result (self.new
            ≡ forget_body (after_taking header.now self.old how m.now moment
            (taker_found self.old (Some (found.Endpoint place))))) }
        ensures err { OnErr result (self.new ≡ self.old) }
    {
        let Some(endpoint) = self.endpoint_at(place) else {
            unreachable!()
        };
        let m = Arrived::read(header.version, endpoint, m);
        match joins_by(endpoint, &m) {
            Some(listener) => self.take_and_join(header, place, listener, how, &m, moment),
            None => self.endpoints.take(header, place, how, &m, moment),
        }
    }

    // The endpoint at a place takes a segment, and joins the queue of that listener.
    fn take_and_join(
        &mut self,
        header: &Header,
        place: u32,
        listener: u32,
        how: TakeChoice,
        m: &Arrived<'_>,
        moment: u64,
    ) -> Result<(), OutOfMemory>
        requires kept { All HasRoom self.old.endpoints }
        requires small { IsSmallEmission m.now }
        requires open { IsOpen self.old (found.Endpoint place) }
        ensures ok { OnOk result (self.new ≡ record self.old {
          endpoints = changed self.old.endpoints place (λ e. endpoint_taken header.now e how m.now moment);
          listeners = modify self.old.listeners listener (λ x. record x {
            queue = x.queue ++ place ∷ [];
          });
        }) }
        ensures err { OnErr result (self.new ≡ self.old) }
    {
        self.listeners.join(listener, place)?;
        match self.endpoints.take(header, place, how, m, moment) {
            Ok(()) => Ok(()),
            Err(error) => {
                self.listeners.leave_last(listener);
                Err(error)
            }
        }
    }

    /// Whether a reset may answer a segment that arrived (RFC 9293, 3.5.2). The error is the first broken rule.
    pub(crate) fn admits_reset(&self, m: &Emission) -> Result<(), Rule>
        ensures { result_err result ≡ first_broken (reset_rules self.now m.now) }
    {
        if m.flags.rst || !self.finds_nothing(m) {
            return Err(Rule::State);
        }
        Ok(())
    }

    fn finds_nothing(&self, m: &Emission) -> bool
        ensures { result ≡ finds_nothing m.now (taker self.now m.now) }
    {
        match self.taker(m) {
            None => true,
            Some(Found::Listener(_)) => m.flags.ack,
            Some(Found::Endpoint(place)) => self.is_stray_ack(m, place),
        }
    }

    fn is_stray_ack(&self, m: &Emission, place: u32) -> bool
        ensures { result ≡ finds_nothing m.now (taker_found self.now (Some (found.Endpoint place))) }
    {
        match self.endpoint_at(place) {
            Some(endpoint) => is_stray_ack(endpoint, m),
            None => true,
        }
    }
}

// The listener whose queue an endpoint joins by a segment.
fn joins_by(endpoint: &Endpoint, m: &Arrived<'_>) -> Option<u32>
    ensures { result ≡ joins_by endpoint.now m.now }
{
    if completes_handshake(endpoint, m) {
        endpoint.listener
    } else {
        None
    }
}

// Before the connection is established, an acknowledgment of a number other than that of its own SYN.
fn is_stray_ack(endpoint: &Endpoint, m: &Emission) -> bool
    ensures { result ≡ is_stray_ack endpoint.now m.now }
{
    if !(endpoint.state.is_syn_sent() || endpoint.state.is_syn_received()) || !m.flags.ack {
        return false;
    }
    match endpoint.iss {
        Some(iss) => m.ack_seq.0 != number(iss, 1).0,
        None => false,
    }
}
