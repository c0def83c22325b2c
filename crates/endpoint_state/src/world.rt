//! The state of a case: the two hosts, where threads are in their calls, and how many steps were done.

ghost use Rattle.std.specs.Prelude.{◌≡◌, ◌<◌, ◌≤◌, ◌+◌, nat_eq, OnOk, OnErr};
ghost use Rattle.std.specs.Map.{lookup};
ghost use Rattle.std.specs.Option.{option_copied};
ghost use Rattle.std.specs.Result.{result_err};
ghost use Rattle.verdict.specs.Rules.{first_broken};
ghost use Rattle.spec_network.specs.Tables.{pick};
ghost use Rattle.spec_network.specs.Hosts.{At, Begin, Finish, Answers, Does, Drops, Gets, Hears, Makes, Sends, Takes};
ghost use Rattle.spec_network.specs.Hosts.{turn_of};
ghost use Rattle.spec_network.specs.HostRules.{begin_rules, step_rules};
ghost use Rattle.spec_tcp.specs.Bounds.{greatest_position, most_steps, IsSmallEmission};
ghost use Rattle.spec_tcp.specs.Machine.{tcp};
ghost use Rattle.endpoint_state.specs.Faults.{fault_rule};
ghost use Rattle.endpoint_state.specs.Kept.{IsKeptWorld};
ghost use Rattle.endpoint_state.specs.Kinds.{expiry_of, hearing_rules};
ghost use Rattle.endpoint_state.specs.Turns.{pending_call};
ghost use Rattle.endpoint_state.specs.Worlds.{after, brought, start};

use crate::fault::StepFault;
use crate::host;
use crate::host_pair::Hosts;
use crate::host_tcp::HostTcp;
use crate::made::Made;
use crate::threads::{Turn, admits_begin, admits_end, begin, finish, pending_call};
use case_forms::{
    Answer, Call, Expired, Header, Host, Ports, Recovery, SegmentPlan, TakeChoice, Wire,
};
use endpoint::{admits_hearing, heard};
use segment::OutOfMemory;
use spec_tcp::Emission;
use std::alloc::Global;
use std::marker::Model;
use tables::Table;
use verdict::Rule;

/// The state of a case. Contracts see it as the record `Progress` of the definitions.
#[derive(Drop)]
pub struct World {
    pub(crate) alloc: Global,
    /// The header of the case.
    pub(crate) header: Header,
    /// Both hosts' state.
    pub(crate) hosts: Hosts,
    /// Where each thread that called is. No entry is ever removed.
    pub(crate) threads: Table<Turn>,
    /// How many segments were made; the next one's number is one more.
    count: u32,
    /// How many steps were done.
    pub(crate) steps: u64,
}

impl Model for World {
    ghost use Rattle.endpoint_state.specs.Worlds.{Progress};
    ghost use Rattle.endpoint_state.specs.Kept.{IsKeptWorld};

    ghost Value = { Progress };

    ghost view = { λ a. record {
      header = a.header;
      steps = a.steps;
      world = record { hosts = a.hosts; threads = a.threads.entries; count = a.count };
    } };

    ghost invariant = { λ a. IsKeptWorld a.steps
        (record { hosts = a.hosts; threads = a.threads.entries; count = a.count }) };
}

impl World {
    /// The world of a case with this header, before the first step.
    #[tactic(auto, using(crate::proofs::Keeping::kept_start))]
    pub fn start(alloc: Global, header: &Header) -> World
        ensures { result ≡ start header.now }
    {
        World {
            alloc,
            header: *header,
            hosts: Hosts::new(alloc),
            threads: Table::new(alloc),
            count: 0,
            steps: 0,
        }
    }

    /// The header of the case.
    pub fn header(&self) -> &Header
        ensures { result.now ≡ self.now.header }
    {
        &self.header
    }

    /// How many steps were done.
    pub fn steps(&self) -> u64
        ensures { result ≡ self.now.steps }
    {
        self.steps
    }

    /// The segment that a host sent with this line, or that `bring` put there. None: there is none.
    pub fn sent(&self, host: Host, line: u64) -> Option<&Emission>
        ensures { option_copied result ≡ lookup (nat_eq line) (pick self.now.world.hosts host).wire }
    {
        self.hosts.near(host).sent(line)
    }

    /// The segment that a host made under this number. None: it made none under it.
    pub fn made(&self, host: Host, number: u32) -> Option<&Made>
        ensures { option_copied result ≡ lookup (nat_eq number) (pick self.now.world.hosts host).made }
    {
        self.hosts.near(host).made(number)
    }

    /// How many segments both hosts made; the last has this number.
    pub fn count(&self) -> u32
        ensures { result ≡ self.now.world.count }
    {
        self.count
    }

    /// The endpoints, listeners and sockets of a host.
    pub fn body(&self, host: Host) -> &HostTcp
        ensures { result.now ≡ (pick self.now.world.hosts host).body }
    {
        self.hosts.near(host).body()
    }

    /// The call of a thread that is open and had no effect yet. None: there is none, or it had its effect.
    pub fn pending_call(&self, thread: u32) -> Option<&Call>
        ensures { option_copied result ≡ pending_call (turn_of thread self.now.world.threads) }
    {
        pending_call(&self.threads, thread)
    }

    /// Does nothing; its contract states the invariant of every world here.
    pub fn is_kept(&self)
        ensures { IsKeptWorld self.now.steps self.now.world }
    {
        let _ = &self.alloc;
    }

    /// Puts a segment of another recording on a host's wire under this line, replacing any that was there. It isn't a
    /// step and changes nothing else: a copy that already arrived stays as it was. The error is that memory ran out;
    /// nothing is changed then.
    pub fn bring(&mut self, host: Host, line: u64, emission: &Emission) -> Result<(), OutOfMemory>
        requires small { IsSmallEmission emission.now }
        ensures ok { OnOk result (self.new ≡ brought self.old host line emission.now) }
        ensures err { OnErr result (self.new ≡ self.old) }
    {
        self.hosts.bring(host, line, emission)?;
        Ok(())
    }

    /// Whether a thread may begin a call, whichever it is: the thread is in no other. The error is the broken rule.
    pub fn admits_begin(&self, thread: u32) -> Result<(), Rule>
        ensures { result_err result ≡ first_broken (begin_rules (turn_of thread self.now.world.threads)) }
    {
        admits_begin(&self.threads, thread)
    }

    /// Whether a thread's call may end with this answer: it had its effect with it. The error is the first broken rule.
    pub fn admits_finish(&self, thread: u32, answer: &Answer) -> Result<(), Rule>
        ensures { result_err result ≡ first_broken
            (step_rules (tcp self.now.header) 0 self.now.world (Finish 0 thread answer.now)) }
    {
        admits_end(&self.threads, thread, answer)
    }

    /// Whether the segment that a host made under this number may be sent like this: it looks so, and wasn't sent
    /// before. The error is the first broken rule.
    pub fn admits_sending(&self, host: Host, number: u32, wire: &Wire) -> Result<(), Rule>
        ensures { result_err result ≡ first_broken
            (step_rules (tcp self.now.header) 0 self.now.world (At host (Sends 0 number wire.now))) }
    {
        self.hosts
            .near(host)
            .admits_sending(&self.header, number, wire)
    }

    /// Whether this may arrive as a copy of the other host's line `copied`, at a moment in microseconds. The error is
    /// the first broken rule.
    pub fn admits_arrival(
        &self,
        host: Host,
        moment: u64,
        copied: u64,
        wire: &Wire,
    ) -> Result<(), Rule>
        ensures { result_err result ≡ first_broken
            (step_rules (tcp self.now.header) moment self.now.world (At host (Gets 0 copied wire.now))) }
    {
        self.hosts
            .far(host)
            .admitted_arrival(&self.header, moment, copied, wire)?;
        Ok(())
    }

    /// Whether a segment of the other host may arrive that isn't a copy of a line: that host isn't recorded. The error
    /// is the broken rule.
    pub fn admits_hearing(&self) -> Result<(), Rule>
        ensures { result_err result ≡ first_broken (hearing_rules self.now.header) }
    {
        admits_hearing(&self.header)
    }

    /// Whether a host may make a segment, at a position up to the greatest that a case may have. The error is the first
    /// broken rule.
    pub fn admits_making(&self, host: Host, plan: &SegmentPlan) -> Result<(), Rule>
        requires steps { self.now.steps < most_steps }
        requires small { plan.now.pos ≤ greatest_position }
        ensures { result_err result ≡ first_broken
            (step_rules (tcp self.now.header) 0 self.now.world (At host (Makes plan.now))) }
    {
        self.hosts
            .near(host)
            .admits_making(self.header.version, plan)
    }

    /// Whether a host may take the segment that arrived with this line, at a moment in microseconds. The error is the
    /// first broken rule: nothing waits under this line (`Inbox`), or a later one.
    pub fn admits_taking(
        &self,
        host: Host,
        moment: u64,
        line: u64,
        how: TakeChoice,
    ) -> Result<(), Rule>
        ensures { result_err result ≡ first_broken
            (step_rules (tcp self.now.header) moment self.now.world (At host (Takes line how))) }
    {
        self.hosts
            .near(host)
            .admits_taking(&self.header, host, line, how, moment)
    }

    /// Whether a host may drop what arrived with this line. The error is the rule `Inbox`: nothing waits.
    pub fn admits_dropping(&self, host: Host, line: u64) -> Result<(), Rule>
        ensures { result_err result ≡ first_broken
            (step_rules (tcp self.now.header) 0 self.now.world (At host (Drops line))) }
    {
        self.hosts.near(host).admits_dropping(line)
    }

    /// Whether a host may answer by a reset what arrived with this line. The error is the first broken rule.
    pub fn admits_reset(&self, host: Host, line: u64) -> Result<(), Rule>
        ensures { result_err result ≡ first_broken
            (step_rules (tcp self.now.header) 0 self.now.world (At host (Answers line))) }
    {
        self.hosts.near(host).admits_reset(line)
    }

    /// Whether a timer of the host's endpoint of these ports may expire at a moment in microseconds. The error is the
    /// first broken rule.
    pub fn admits_expiry(
        &self,
        host: Host,
        moment: u64,
        ports: Ports,
        expired: Expired,
    ) -> Result<(), Rule>
        ensures { result_err result ≡ first_broken
            (step_rules (tcp self.now.header) moment self.now.world (At host (expiry_of ports expired))) }
    {
        self.hosts
            .near(host)
            .admits_expiry(&self.header, ports, expired, moment)
    }

    /// Whether fast recovery may begin at a moment in microseconds (RFC 5681, 3.2), or be undone (RFC 4015, 3.2). The
    /// error is the first broken rule.
    pub fn admits_recovery(&self, host: Host, moment: u64, recovery: Recovery) -> Result<(), Rule>
        ensures { result_err result ≡ first_broken
            (step_rules (tcp self.now.header) moment self.now.world (At host (Does recovery))) }
    {
        self.hosts
            .near(host)
            .admits_recovery(self.header.version, recovery, moment)
    }

    /// A thread begins a call. The error is the broken rule, or that memory ran out; the world is then as it was.
    pub fn begin(&mut self, thread: u32, call: Call) -> Result<(), StepFault>
        requires { self.old.steps < most_steps }
        ensures fault { fault_rule result ≡ first_broken
            (step_rules (tcp self.old.header) 0 self.old.world (Begin 0 thread call)) }
        ensures ok { OnOk result (self.new ≡ after self.old 0 (Begin 0 thread call)) }
        ensures err { OnErr result (self.new ≡ self.old) }
    {
        begin(&mut self.threads, thread, call)?;
        self.steps += 1;
        Ok(())
    }

    /// A thread's call ends. The error is the first broken rule, or that memory ran out; the world is then as it was.
    pub fn finish(&mut self, thread: u32, answer: &Answer) -> Result<(), StepFault>
        requires { self.old.steps < most_steps }
        ensures fault { fault_rule result ≡ first_broken
            (step_rules (tcp self.old.header) 0 self.old.world (Finish 0 thread answer.now)) }
        ensures ok { OnOk result (self.new ≡ after self.old 0 (Finish 0 thread answer.now)) }
        ensures err { OnErr result (self.new ≡ self.old) }
    {
        finish(&mut self.threads, thread, answer)?;
        self.steps += 1;
        Ok(())
    }

    /// A host makes a segment, at a moment in microseconds; it gets the next number. The error is the first broken
    /// rule, or that memory ran out; the world is then as it was.
    pub fn make(&mut self, host: Host, plan: &SegmentPlan, moment: u64) -> Result<(), StepFault>
        requires steps { self.old.steps < most_steps }
        requires small { plan.now.pos ≤ greatest_position }
        ensures fault { fault_rule result ≡ first_broken
            (step_rules (tcp self.old.header) moment self.old.world (At host (Makes plan.now))) }
        ensures ok { OnOk result (self.new ≡ after self.old moment (At host (Makes plan.now))) }
        ensures err { OnErr result (self.new ≡ self.old) }
    {
        let fresh = self.count + 1;
        let version = self.header.version;
        host::make(
            self.alloc,
            version,
            host,
            self.hosts.side(host),
            plan,
            moment,
            fresh,
        )?;
        self.count = fresh;
        self.steps += 1;
        Ok(())
    }

    /// The segment that a host made under this number is sent with this line, at a moment in microseconds. The error is
    /// the first broken rule, or that memory ran out; the world is then as it was.
    pub fn send(
        &mut self,
        host: Host,
        line: u64,
        number: u32,
        wire: Wire,
        moment: u64,
    ) -> Result<(), StepFault>
        requires { self.old.steps < most_steps }
        ensures fault { fault_rule result ≡ first_broken
            (step_rules (tcp self.old.header) moment self.old.world (At host (Sends line number wire))) }
        ensures ok { OnOk result (self.new ≡ after self.old moment (At host (Sends line number wire))) }
        ensures err { OnErr result (self.new ≡ self.old) }
    {
        host::send_made(
            &self.header,
            self.hosts.side(host),
            line,
            number,
            wire,
            moment,
        )?;
        self.steps += 1;
        Ok(())
    }

    /// A copy of the other host's line `copied` arrives with this line, at a moment in microseconds, and waits in the
    /// inbox. The error is the first broken rule, or that memory ran out; the world is then as it was.
    pub fn arrive(
        &mut self,
        host: Host,
        line: u64,
        copied: u64,
        wire: Wire,
        moment: u64,
    ) -> Result<(), StepFault>
        requires { self.old.steps < most_steps }
        ensures fault { fault_rule result ≡ first_broken
            (step_rules (tcp self.old.header) moment self.old.world (At host (Gets line copied wire))) }
        ensures ok { OnOk result (self.new ≡ after self.old moment (At host (Gets line copied wire))) }
        ensures err { OnErr result (self.new ≡ self.old) }
    {
        let m = self
            .hosts
            .far(host)
            .admitted_arrival(&self.header, moment, copied, &wire)?;
        let copy = endpoint::copy(wire, m)?;
        host::arrive(self.alloc, self.hosts.side(host), line, copy)?;
        self.steps += 1;
        Ok(())
    }

    /// A segment of the host that is not recorded arrives with this line, at a moment in microseconds, and waits in the
    /// inbox. The error is the broken rule, or that memory ran out; the world is then as it was.
    pub fn hear(&mut self, host: Host, line: u64, wire: &Wire, moment: u64) -> Result<(), StepFault>
        requires { self.old.steps < most_steps }
        ensures fault { fault_rule result ≡ first_broken
            (step_rules (tcp self.old.header) moment self.old.world (At host (Hears line wire.now))) }
        ensures ok { OnOk result (self.new ≡ after self.old moment (At host (Hears line wire.now))) }
        ensures err { OnErr result (self.new ≡ self.old) }
    {
        self.admits_hearing()?;
        let heard = heard(self.alloc, moment, wire)?;
        host::arrive(self.alloc, self.hosts.side(host), line, heard)?;
        self.steps += 1;
        Ok(())
    }

    /// A host takes what arrived with this line, at a moment in microseconds. The error is the first broken rule, or
    /// that memory ran out; the world is then as it was.
    pub fn take(
        &mut self,
        host: Host,
        line: u64,
        how: TakeChoice,
        moment: u64,
    ) -> Result<(), StepFault>
        requires { self.old.steps < most_steps }
        ensures fault { fault_rule result ≡ first_broken
            (step_rules (tcp self.old.header) moment self.old.world (At host (Takes line how))) }
        ensures ok { OnOk result (self.new ≡ after self.old moment (At host (Takes line how))) }
        ensures err { OnErr result (self.new ≡ self.old) }
    {
        host::take(
            self.alloc,
            &self.header,
            host,
            self.hosts.side(host),
            line,
            how,
            moment,
        )?;
        self.steps += 1;
        Ok(())
    }

    /// A host drops what arrived with this line. The error is the first broken rule; the world is then as it was.
    pub fn drop_arrival(&mut self, host: Host, line: u64) -> Result<(), Rule>
        requires { self.old.steps < most_steps }
        ensures rule { result_err result ≡ first_broken
            (step_rules (tcp self.old.header) 0 self.old.world (At host (Drops line))) }
        ensures ok { OnOk result (self.new ≡ after self.old 0 (At host (Drops line))) }
        ensures err { OnErr result (self.new ≡ self.old) }
    {
        host::drop_waiting(self.hosts.side(host), line)?;
        self.steps += 1;
        Ok(())
    }

    /// A host answers by a reset what arrived with this line; the reset gets the next number, and is sent later. The
    /// error is the first broken rule, or that memory ran out; the world is then as it was.
    pub fn reply_with_reset(&mut self, host: Host, line: u64) -> Result<(), StepFault>
        requires { self.old.steps < most_steps }
        ensures fault { fault_rule result ≡ first_broken
            (step_rules (tcp self.old.header) 0 self.old.world (At host (Answers line))) }
        ensures ok { OnOk result (self.new ≡ after self.old 0 (At host (Answers line))) }
        ensures err { OnErr result (self.new ≡ self.old) }
    {
        let fresh = self.count + 1;
        host::reply_with_reset(self.alloc, self.hosts.side(host), line, fresh)?;
        self.count = fresh;
        self.steps += 1;
        Ok(())
    }

    /// A timer of the host's endpoint of these ports expires, at a moment in microseconds. The error is the first
    /// broken rule; the world is then as it was.
    pub fn expire(
        &mut self,
        host: Host,
        ports: Ports,
        expired: Expired,
        moment: u64,
    ) -> Result<(), Rule>
        requires { self.old.steps < most_steps }
        ensures rule { result_err result ≡ first_broken
            (step_rules (tcp self.old.header) moment self.old.world (At host (expiry_of ports expired))) }
        ensures ok { OnOk result (self.new ≡ after self.old moment (At host (expiry_of ports expired))) }
        ensures err { OnErr result (self.new ≡ self.old) }
    {
        host::expire(&self.header, self.hosts.side(host), ports, expired, moment)?;
        self.steps += 1;
        Ok(())
    }

    /// Fast recovery begins (RFC 5681, 3.2), or is undone (RFC 4015, 3.2), at a moment in microseconds. The error is
    /// the first broken rule; the world is then as it was.
    pub fn recover(&mut self, host: Host, recovery: Recovery, moment: u64) -> Result<(), Rule>
        requires { self.old.steps < most_steps }
        ensures rule { result_err result ≡ first_broken
            (step_rules (tcp self.old.header) moment self.old.world (At host (Does recovery))) }
        ensures ok { OnOk result (self.new ≡ after self.old moment (At host (Does recovery))) }
        ensures err { OnErr result (self.new ≡ self.old) }
    {
        host::recover(&self.header, self.hosts.side(host), recovery, moment)?;
        self.steps += 1;
        Ok(())
    }
}
