//! The two hosts: either one for reading, and the acting one by mutable reference.

ghost use Rattle.std.specs.Prelude.{◌≡◌, true, OnOk, OnErr};
ghost use Rattle.std.specs.Borrow.{sem};
ghost use Rattle.case_forms.specs.declared.trace.Header.{Header};
ghost use Rattle.spec_network.specs.Tables.{Both, other, pick, with_host};
ghost use Rattle.spec_network.specs.HostSteps.{empty_host};
ghost use Rattle.spec_tcp.specs.Machine.{tcp};
ghost use Rattle.spec_tcp.specs.Calls.{after_call, call_allows};
ghost use Rattle.spec_tcp.specs.Signals.{profile_of};
ghost use Rattle.endpoint_state.specs.Sides.{AreReady, forget_hosts};
ghost use Rattle.endpoint_state.specs.Lending.{LendsSide};
ghost use Rattle.endpoint_state.specs.Worlds.{hosts_brought};

use crate::host::{self, HostState};
use case_forms::{Answer, Call, Header, Host};
use segment::OutOfMemory;
use spec_tcp::Emission;
use std::alloc::Global;
use std::marker::Model;

/// The two hosts.
#[derive(Drop)]
pub(crate) struct Hosts {
    zero: HostState,
    one: HostState,
}

impl Model for Hosts {
    ghost use Rattle.spec_network.specs.Tables.{Both};
    ghost use Rattle.spec_network.specs.Hosts.{HostState};
    ghost use Rattle.spec_tcp.specs.Machine.{tcp_shape};

    ghost Value = { Both (HostState tcp_shape) };

    ghost view = { λ a. record { zero = a.zero; one = a.one } };
}

impl Hosts {
    /// One of the hosts.
    pub(crate) fn near(&self, host: Host) -> &HostState
        ensures { result.now ≡ pick self.now host }
    {
        match host {
            Host::Zero => &self.zero,
            Host::One => &self.one,
        }
    }

    /// The other one.
    pub(crate) fn far(&self, host: Host) -> &HostState
        ensures { result.now ≡ pick self.now (other host) }
    {
        match host {
            Host::Zero => &self.one,
            Host::One => &self.zero,
        }
    }

    // The host that acts; what is written there is the only change.
    pub(crate) fn side(&mut self, host: Host) -> &mut HostState
        ensures* writes_back { sem 𝓛 (LendsSide self.entry host result) }
        ensures value { result.now ≡ pick self.old host }
    {
        match host {
            Host::Zero => &mut self.zero,
            Host::One => &mut self.one,
        }
    }

    /// Puts a segment on a host's wire under this line.
    pub(crate) fn bring(
        &mut self,
        host: Host,
        line: u64,
        emission: &Emission,
    ) -> Result<(), OutOfMemory>
        ensures ok { OnOk result (self.new ≡ hosts_brought self.old host line emission.now) }
        ensures err { OnErr result (self.new ≡ self.old) }
    {
        match host {
            Host::Zero => host::bring(&mut self.zero, line, emission),
            Host::One => host::bring(&mut self.one, line, emission),
        }
    }

    /// A call that may have this answer has its effect at a host.
    #[tactic(auto, using(crate::proofs::Still::still_host))]
    pub(crate) fn do_call(
        &mut self,
        alloc: Global,
        header: &Header,
        host: Host,
        call: &Call,
        answer: &Answer,
    ) -> Result<(), OutOfMemory>
        requires ready { AreReady self.old }
        requires allowed { call_allows header.now.version (pick self.old host).body call.now answer.now ≡ true }
        ensures ok { OnOk result (self.new
            ≡ forget_hosts (with_host self.old host (record (pick self.old host) {
              body = after_call (profile_of header.now) (pick self.old host).body call.now answer.now;
            }))) }
        ensures err { OnErr result (self.new ≡ self.old) }
    {
        host::do_call(alloc, header, self.side(host), call, answer)
    }

    /// Both hosts at the start.
    pub(crate) fn new(alloc: Global) -> Hosts
        ensures { (h : Header) → result ≡ record { zero = empty_host (tcp h); one = empty_host (tcp h) } }
    {
        Hosts {
            zero: HostState::new(alloc),
            one: HostState::new(alloc),
        }
    }
}
