//! One host's state, and each step on it. Moments are in microseconds, windows and thresholds in bytes. If memory runs
//! out, nothing is changed.

ghost use Rattle.std.specs.Prelude.{◌≡◌, ◌≤◌, true, Some, nat_eq, IfOk, OnOk, OnErr};
ghost use Rattle.std.specs.Map.{lookup};
ghost use Rattle.indexmap.specs.IndexMap.{insert_entry};
ghost use Rattle.std.specs.Option.{IfSome, option_copied};
ghost use Rattle.std.specs.Result.{result_err};
ghost use Rattle.case_forms.specs.declared.trace.Header.{Header};
ghost use Rattle.verdict.specs.Rules.{first_broken};
ghost use Rattle.spec_network.specs.HostSteps.{empty_host};
ghost use Rattle.spec_network.specs.Tables.{waiting};
ghost use Rattle.spec_network.specs.HostRules.{arrival_rules, sending_rules};
ghost use Rattle.spec_tcp.specs.Wire.{in_rules, out_rules};
ghost use Rattle.spec_tcp.specs.HostTcp.{given};
ghost use Rattle.spec_tcp.specs.Makes.{making_rules};
ghost use Rattle.spec_tcp.specs.Calls.{call_allows, after_call};
ghost use Rattle.spec_tcp.specs.Signals.{profile_of};
ghost use Rattle.spec_tcp.specs.Machine.{act_makes, rules_at, tcp};
ghost use Rattle.spec_tcp.specs.Machine as acts;
ghost use Rattle.spec_tcp.specs.Forgetting.{forget_host};
ghost use Rattle.spec_tcp.specs.Bounds.{greatest_position, IsSmallEmission};
ghost use Rattle.endpoint_state.specs.Kept.{AreReadable, IsReady};
ghost use Rattle.endpoint_state.specs.Faults.{fault_rule};
ghost use Rattle.endpoint_state.specs.Kinds.{answered_one, dropped_one, made_one, sent_one, taken_one, answering_rules};
ghost use Rattle.endpoint_state.specs.Kinds.{dropping_rules, expired_body, expiring_rules, recovered_body};
ghost use Rattle.endpoint_state.specs.Kinds.{recovering_rules, taking_rules};

use crate::arrivals::{Arrival, admitted_arrival, consume_arrival, waiting};
use crate::fault::StepFault;
use crate::host_tcp::HostTcp;
use crate::made::{Made, admitted_sending, mark};
use case_forms::{
    Answer, Call, Expired, Header, Host, Ports, Recovery, SegmentPlan, TakeChoice, Version, Wire,
};
use endpoint::{reset_of, sent};
use segment::OutOfMemory;
use spec_tcp::{Emission, EndpointId};
use std::alloc::Global;
use std::marker::Model;
use tables::Table;
use verdict::Rule;

/// One host's state: its endpoints, listeners and sockets, the segments it made by number, those it sent by line, and
/// its inbox by line of arrival, with None once a segment no longer waits.
#[derive(Drop)]
pub(crate) struct HostState {
    body: HostTcp,
    made: Table<Made>,
    wire: Table<Emission>,
    inbox: Table<Option<Arrival>>,
}

impl Model for HostState {
    ghost use Rattle.spec_network.specs.Hosts.{HostState};
    ghost use Rattle.spec_tcp.specs.Machine.{tcp_shape};

    ghost Value = { HostState tcp_shape };

    ghost view = { λ a. record {
      body = a.body;
      made = a.made.entries;
      wire = a.wire.entries;
      inbox = a.inbox.entries;
    } };
}

/// A segment is made under this number, in a text of this version, and waits to be sent. The error is the first broken
/// rule, or that memory ran out; nothing is changed then.
pub(crate) fn make(
    alloc: Global,
    version: Version,
    me: Host,
    host: &mut HostState,
    plan: &SegmentPlan,
    moment: u64,
    fresh: u32,
) -> Result<(), StepFault>
    requires ready { IsReady host.old }
    requires small { plan.now.pos ≤ greatest_position }
    ensures fault { fault_rule result ≡ first_broken
        (rules_at host.old.body plan.now.lport plan.now.rport (λ e. making_rules version e plan.now)) }
    ensures ok { OnOk result (host.new ≡ forget_host (made_one me moment fresh plan.now host.old)) }
    ensures small { OnOk result (IfSome (act_makes me moment host.old.body (acts.Makes plan.now)) IsSmallEmission) }
    ensures err { OnErr result (host.new ≡ host.old) }
{
    let number = host.body.admitted_making(version, plan)?;
    host.made.reserve(u64::from(fresh))?;
    let me = EndpointId { host: me, number };
    let emission = host.body.make_at(alloc, me, plan, moment)?;
    // There is room for it.
    host.made.insert(u64::from(fresh), Made::unsent(emission))?;
    Ok(())
}

/// The segment of this number is sent with this line, at a moment: it is marked, and put on the wire as it was seen
/// there. The error is the first broken rule, or that memory ran out; nothing is changed then.
pub(crate) fn send_made(
    header: &Header,
    host: &mut HostState,
    line: u64,
    number: u32,
    wire: Wire,
    moment: u64,
) -> Result<(), StepFault>
    ensures fault { fault_rule result ≡ first_broken
        (sending_rules (out_rules header.now) host.old.made number wire) }
    ensures ok { OnOk result (host.new ≡ sent_one moment line number wire host.old) }
    ensures err { OnErr result (host.new ≡ host.old) }
{
    let m = admitted_sending(header, &host.made, number, &wire)?;
    host.wire.insert(line, sent(moment, wire, m.emission()))?;
    mark(&mut host.made, number);
    Ok(())
}

/// A segment joins the inbox with this line. If memory runs out, nothing is changed.
pub(crate) fn arrive(
    alloc: Global,
    host: &mut HostState,
    line: u64,
    m: Emission,
) -> Result<(), OutOfMemory>
    ensures ok { OnOk result (host.new ≡ record host.old { inbox = insert_entry nat_eq host.old.inbox line (Some m) }) }
    ensures err { OnErr result (host.new ≡ host.old) }
{
    host.inbox.insert(line, Some(Arrival::new(alloc, m)?))?;
    Ok(())
}

/// Puts a segment of another recording on the host's wire under this line, replacing any that was there. If memory runs
/// out, nothing is changed.
pub(crate) fn bring(host: &mut HostState, line: u64, emission: &Emission) -> Result<(), OutOfMemory>
    ensures ok { OnOk result
        (host.new ≡ record host.old { wire = insert_entry nat_eq host.old.wire line emission.now }) }
    ensures err { OnErr result (host.new ≡ host.old) }
{
    host.wire.insert(line, emission.copy()?)?;
    Ok(())
}

/// The segment that waits under this line is taken. The error is the first broken rule, or that memory ran out; nothing
/// is changed then.
pub(crate) fn take(
    alloc: Global,
    header: &Header,
    me: Host,
    host: &mut HostState,
    line: u64,
    how: TakeChoice,
    moment: u64,
) -> Result<(), StepFault>
    requires ready { IsReady host.old }
    ensures fault { fault_rule result ≡ first_broken (taking_rules header.now me moment line how host.old) }
    ensures ok { OnOk result (host.new ≡ forget_host (taken_one header.now moment line how host.old)) }
    ensures err { OnErr result (host.new ≡ host.old) }
{
    let Some(m) = waiting(&host.inbox, line) else {
        return Err(StepFault::Broken(Rule::Inbox));
    };
    host.body.take(alloc, header, me, how, m, moment)?;
    consume_arrival(&mut host.inbox, line);
    Ok(())
}

/// The segment that waits under this line is dropped. The error is the rule `Inbox`, if nothing waits; nothing is
/// changed then.
pub(crate) fn drop_waiting(host: &mut HostState, line: u64) -> Result<(), Rule>
    ensures rule { result_err result ≡ first_broken (dropping_rules line host.old) }
    ensures ok { OnOk result (host.new ≡ dropped_one line host.old) }
    ensures err { OnErr result (host.new ≡ host.old) }
{
    host.admits_dropping(line)?;
    consume_arrival(&mut host.inbox, line);
    Ok(())
}

/// The segment that waits under this line is answered by a reset, which gets this number. The error is the first broken
/// rule, or that memory ran out; nothing is changed then.
pub(crate) fn reply_with_reset(
    alloc: Global,
    host: &mut HostState,
    line: u64,
    fresh: u32,
) -> Result<(), StepFault>
    ensures fault { fault_rule result ≡ first_broken (answering_rules line host.old) }
    ensures ok { OnOk result (host.new ≡ answered_one line fresh host.old) }
    ensures err { OnErr result (host.new ≡ host.old) }
{
    let Some(m) = waiting(&host.inbox, line) else {
        return Err(StepFault::Broken(Rule::Inbox));
    };
    host.body.admits_reset(m)?;
    let reset = reset_of(alloc, m);
    host.made.insert(u64::from(fresh), Made::unsent(reset))?;
    consume_arrival(&mut host.inbox, line);
    Ok(())
}

/// A timer expires. The error is the first broken rule; nothing is changed then.
pub(crate) fn expire(
    header: &Header,
    host: &mut HostState,
    ports: Ports,
    expired: Expired,
    moment: u64,
) -> Result<(), Rule>
    requires { IsReady host.old }
    ensures rule { result_err result ≡ first_broken (expiring_rules header.now moment ports expired host.old.body) }
    ensures ok { OnOk result (host.new ≡ forget_host
        (record host.old { body = expired_body moment ports expired host.old.body })) }
    ensures err { OnErr result (host.new ≡ host.old) }
{
    host.body.expire(header, ports, expired, moment)
}

/// Fast recovery begins, or is undone. The error is the first broken rule; nothing is changed then.
pub(crate) fn recover(
    header: &Header,
    host: &mut HostState,
    recovery: Recovery,
    moment: u64,
) -> Result<(), Rule>
    requires { IsReady host.old }
    ensures rule { result_err result ≡ first_broken
        (recovering_rules header.now.version moment recovery host.old.body) }
    ensures ok { OnOk result (host.new ≡ forget_host
        (record host.old { body = recovered_body moment recovery host.old.body })) }
    ensures err { OnErr result (host.new ≡ host.old) }
{
    host.body.recover(header.version, recovery, moment)
}

/// A call that may have this answer has its effect.
pub(crate) fn do_call(
    alloc: Global,
    header: &Header,
    host: &mut HostState,
    call: &Call,
    answer: &Answer,
) -> Result<(), OutOfMemory>
    requires ready { IsReady host.old }
    requires allowed { call_allows header.now.version host.old.body call.now answer.now ≡ true }
    ensures ok { OnOk result (host.new ≡ forget_host
        (record host.old { body = after_call (profile_of header.now) host.old.body call.now answer.now })) }
    ensures err { OnErr result (host.new ≡ host.old) }
{
    host.body.do_call(alloc, header, call, answer)
}

impl HostState {
    /// A host at the start.
    pub(crate) fn new(alloc: Global) -> HostState
        ensures { (h : Header) → result ≡ empty_host (tcp h) }
    {
        HostState {
            body: HostTcp::new(alloc),
            made: Table::new(alloc),
            wire: Table::new(alloc),
            inbox: Table::new(alloc),
        }
    }

    /// The segment on its wire under this line.
    pub(crate) fn sent(&self, line: u64) -> Option<&Emission>
        ensures { option_copied result ≡ lookup (nat_eq line) self.now.wire }
    {
        self.wire.get(line)
    }

    /// The segment that was made under this number.
    pub(crate) fn made(&self, number: u32) -> Option<&Made>
        ensures { option_copied result ≡ lookup (nat_eq number) self.now.made }
    {
        self.made.get(u64::from(number))
    }

    /// The segment that arrived with this line, and waits.
    pub(crate) fn waiting(&self, line: u64) -> Option<&Emission>
        ensures { option_copied result ≡ waiting line self.now.inbox }
    {
        waiting(&self.inbox, line)
    }

    /// Its endpoints, listeners and sockets.
    pub(crate) fn body(&self) -> &HostTcp
        ensures { result.now ≡ self.now.body }
    {
        &self.body
    }

    /// Whether the host gave a socket number.
    pub(crate) fn is_given(&self, number: u32) -> bool
        ensures { result ≡ given self.now.body number }
    {
        self.body.is_given(number)
    }

    /// Whether a call may have this answer in a text of this version.
    pub(crate) fn allows(&self, version: Version, call: &Call, answer: &Answer) -> bool
        ensures { result ≡ call_allows version self.now.body call.now answer.now }
    {
        self.body.allows(version, call, answer)
    }

    /// Whether the segment to be sent is the one that was made under this number. The error is the first broken rule.
    pub(crate) fn admits_sending(
        &self,
        header: &Header,
        number: u32,
        wire: &Wire,
    ) -> Result<(), Rule>
        ensures { result_err result ≡ first_broken
            (sending_rules (out_rules header.now) self.now.made number wire.now) }
    {
        admitted_sending(header, &self.made, number, wire)?;
        Ok(())
    }

    /// What this host sent with the line `copied`, if what arrives at the other host at a moment is a copy of it. The
    /// error is the first broken rule.
    pub(crate) fn admitted_arrival(
        &self,
        header: &Header,
        moment: u64,
        copied: u64,
        wire: &Wire,
    ) -> Result<&Emission, Rule>
        ensures rule { result_err result ≡ first_broken
            (arrival_rules (in_rules header.now moment) self.now.wire copied wire.now) }
        ensures found { IfOk result (λ m. lookup (nat_eq copied) self.now.wire ≡ Some m.now) }
        ensures bytes { IfOk result (λ m. wire.now.bytes ≡ m.now.bytes) }
    {
        admitted_arrival(header, moment, &self.wire, copied, wire)
    }

    /// Whether it may make a segment, in a text of this version. The error is the first broken rule.
    pub(crate) fn admits_making(&self, version: Version, plan: &SegmentPlan) -> Result<(), Rule>
        requires ready { IsReady self.now }
        requires small { plan.now.pos ≤ greatest_position }
        ensures { result_err result ≡ first_broken
            (rules_at self.now.body plan.now.lport plan.now.rport (λ e. making_rules version e plan.now)) }
    {
        self.body.admitted_making(version, plan)?;
        Ok(())
    }

    /// Whether it may take the segment that waits under this line. The error is the first broken rule.
    pub(crate) fn admits_taking(
        &self,
        header: &Header,
        me: Host,
        line: u64,
        how: TakeChoice,
        moment: u64,
    ) -> Result<(), Rule>
        requires { AreReadable self.now.body.endpoints }
        ensures { result_err result ≡ first_broken (taking_rules header.now me moment line how self.now) }
    {
        let Some(m) = waiting(&self.inbox, line) else {
            return Err(Rule::Inbox);
        };
        self.body.admitted_taking(header, me, how, m, moment)?;
        Ok(())
    }

    /// Whether it may drop what waits under this line. The error is the rule `Inbox`, if nothing waits.
    pub(crate) fn admits_dropping(&self, line: u64) -> Result<(), Rule>
        ensures { result_err result ≡ first_broken (dropping_rules line self.now) }
    {
        match waiting(&self.inbox, line) {
            Some(_) => Ok(()),
            None => Err(Rule::Inbox),
        }
    }

    /// Whether it may answer by a reset the segment that waits under this line. The error is the first broken rule.
    pub(crate) fn admits_reset(&self, line: u64) -> Result<(), Rule>
        ensures { result_err result ≡ first_broken (answering_rules line self.now) }
    {
        match waiting(&self.inbox, line) {
            Some(m) => self.body.admits_reset(m),
            None => Err(Rule::Inbox),
        }
    }

    /// Whether a timer may expire. The error is the first broken rule.
    pub(crate) fn admits_expiry(
        &self,
        header: &Header,
        ports: Ports,
        expired: Expired,
        moment: u64,
    ) -> Result<(), Rule>
        ensures { result_err result ≡ first_broken (expiring_rules header.now moment ports expired self.now.body) }
    {
        self.body.admitted_expiry(header, ports, expired, moment)?;
        Ok(())
    }

    /// Whether fast recovery may begin, or be undone. The error is the first broken rule.
    pub(crate) fn admits_recovery(
        &self,
        version: Version,
        recovery: Recovery,
        moment: u64,
    ) -> Result<(), Rule>
        ensures { result_err result ≡ first_broken (recovering_rules version moment recovery self.now.body) }
    {
        self.body.admitted_recovery(version, recovery, moment)?;
        Ok(())
    }
}
