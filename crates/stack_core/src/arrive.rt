//! A segment arrives.

ghost use Rattle.std.specs.Prelude.{◌≡◌, ◌↔◌, ◌≤◌, ◌<◌, ◌+◌, ◌*◌, ◌⊎◌, suc, true, false, nat_lt};
ghost use Rattle.std.specs.Prelude.{IsTrue, IfOk, IfNone, OnOk, OnErr};
ghost use Rattle.std.specs.Option.{IfSome};
ghost use Rattle.case_forms.specs.Witnesses.{IsWithinLimits};
ghost use Rattle.case_forms.specs.declared.calls.Ports.{Ports};
ghost use Rattle.spec_network.specs.Hosts.{At, Takes};
ghost use Rattle.spec_tcp.specs.Bounds.{most_steps};
ghost use Rattle.spec_tcp.specs.Steps.{step_of};
ghost use Rattle.spec_merge.specs.Books.{Bring};
ghost use Rattle.stack_core.specs.ArrivalEvents.{IsArrival, IsArrivedShort, IsCameIn, IsChoice, IsHeld, IsRecovered};
ghost use Rattle.stack_core.specs.ArrivalEvents.{IsNotLetIn, IsRecoveryAt, IsRefusedRecovery, IsSettled};
ghost use Rattle.stack_core.specs.ArrivalEvents.{IsSettledShort, MayDrop, MayRecover, MayTake, ports_of};
ghost use Rattle.stack_core.specs.CoreWorlds.{Leaves};
ghost use Rattle.stack_core.specs.CoreWorlds.CoreCall.{Arrive};
ghost use Rattle.stack_core.specs.Cores.{IsAfter, IsRecorded, MayDo, line_to_come, with_item};
ghost use Rattle.stack_core.specs.Entries.{steps_in};

use crate::deadline_queue::Affected;
use crate::greatest::{at_recovery, cwnd_at_arrival};
use crate::host_core::HostCore;
use crate::send_states::{Before, Seen};
use crate::tick::Tick;
use crate::transit::Flying;
use case_forms::{OutOfMemory, Ports, Recovery, RecoveryChange, RtoChoice, TakeChoice, TakenLine};
use endpoint::is_past_lifetime;
use recording_parts::{choice_if, is_own, with_bytes};
use spec_step::Label;
use spec_tcp::Emission;

impl HostCore {
    /// A segment of the other host arrives: it is put on the other host's wire here, and its arrival is a line. It is
    /// taken with its bytes if it may be, and then fast recovery begins if it may; else it is answered by a reset if it
    /// may be; else it is dropped. The result is false, and nothing is changed, exactly if the segment is this host's
    /// own or older than the maximum segment lifetime. The error is that memory ran out; then the tick has passed, and
    /// the first of these entries may have been added.
    pub fn arrive(&mut self, flying: Flying, tick: Tick) -> Result<bool, OutOfMemory>
        requires tick { IsAfter self.old.last tick }
        requires events { self.old.events < 10000000 }
        ensures ok { IfOk result (λ let_in. IsArrival self.old tick flying let_in self.new) }
        ensures let_in { IfOk result (λ let_in. IsTrue let_in ↔ (IsNotLetIn self.old tick flying → ⊥)) }
        ensures err { OnErr result (IsArrivedShort self.old tick flying self.new) }
        ensures leaves { Leaves self.old tick (Arrive flying result) self.new }
        ensures kept { IsRecorded self.new }
    {
        let arrived = self.record_arrival(flying, tick);
        self.is_recording();
        arrived
    }

    // The same, without the fact that what is then recorded is a run.
    fn record_arrival(&mut self, flying: Flying, tick: Tick) -> Result<bool, OutOfMemory>
        requires tick { IsAfter self.old.last tick }
        requires events { self.old.events < 10000000 }
        ensures ok { IfOk result (λ let_in. IsArrival self.old tick flying let_in self.new) }
        ensures let_in { IfOk result (λ let_in. IsTrue let_in ↔ (IsNotLetIn self.old tick flying → ⊥)) }
        ensures err { OnErr result (IsArrivedShort self.old tick flying self.new) }
    {
        if self.is_own(&flying) || self.is_old(&flying, tick.moment) {
            return Ok(false);
        }
        self.bounds();
        self.begin_event_with_room(tick)?;
        let line = self.line();
        let ports = ports_of(flying.emission());
        let before = self.before(flying.emission(), ports);
        self.come_in(flying)?;
        self.resolve_arrival(line, ports, before.window)?;
        self.update_after_arrival(ports, before);
        Ok(true)
    }

    // What is remembered of an endpoint before a segment for its ports arrives.
    fn before(&self, m: &Emission, ports: Ports) -> Before {
        let asks = !m.flags.rst && 0 < m.length();
        let body = self.recording.body();
        let place = body.place_of(ports.lport, ports.rport);
        let endpoint = place.and_then(|place| body.endpoint_at(place));
        Before {
            place,
            window: match endpoint {
                Some(endpoint) => {
                    let moment = self.last_tick().moment;
                    cwnd_at_arrival(self.recording.header(), endpoint, m, moment)
                }
                None => 0,
            },
            seen: endpoint.map(Seen::new),
            asks,
            syn: m.flags.syn,
        }
    }

    // Remembers what an arrival requires of the endpoint of these ports.
    fn update_after_arrival(&mut self, ports: Ports, before: Before)
        ensures { self.new ≡ self.old }
    {
        let body = self.recording.body();
        let Some(place) = body.place_of(ports.lport, ports.rport) else {
            return;
        };
        if let Some(endpoint) = body.endpoint_at(place) {
            let send_state = self
                .send_states
                .at(place)
                .after_arrival(place, &before, endpoint);
            self.send_states.set(place, send_state);
        }
    }

    fn is_own(&self, flying: &Flying) -> bool
        ensures { IsTrue result ↔ (flying.now.key.host ≡ self.now.recorded.me) }
    {
        is_own(self.me(), flying.key().host)
    }

    fn is_old(&self, flying: &Flying, moment: u64) -> bool
        ensures { result ≡ nat_lt (flying.now.emission.moment + self.now.recorded.header.msl) moment }
    {
        is_past_lifetime(self.recording.header(), moment, flying.emission())
    }

    // It is brought, and arrives.
    fn come_in(&mut self, flying: Flying) -> Result<(), OutOfMemory>
        requires room { steps_in self.old.recorded.entries < 4 * self.old.events }
        requires events { self.old.events ≤ 10000000 }
        requires young { nat_lt (flying.emission.moment + self.old.recorded.header.msl) self.old.last.moment ≡ false }
        ensures ok { OnOk result (IsCameIn self.old flying self.new) }
        ensures count { OnOk result (steps_in self.new.recorded.entries ≡ suc (steps_in self.old.recorded.entries)) }
        ensures waits { OnOk result (MayDrop self.new (line_to_come self.old)) }
        ensures holds { OnOk result (IsHeld self.new (line_to_come self.old) (ports_of flying.emission)) }
        ensures err { OnErr result ((self.new ≡ self.old) ⊎ (self.new ≡ with_item self.old (Bring flying))) }
    {
        let wire = flying.wire().copy()?;
        let copied = flying.line();
        self.bring(flying)?;
        let line = TakenLine::Came {
            line: self.line(),
            host: self.me(),
            copied,
            wire,
        };
        self.add(Label::L(line), Affected::Nobody)?;
        Ok(())
    }

    // What waits under a line is taken, answered or dropped. The window is tried first.
    fn resolve_arrival(&mut self, line: u64, ports: Ports, window: u32) -> Result<(), OutOfMemory>
        requires room { steps_in self.old.recorded.entries + 2 ≤ 4 * self.old.events }
        requires events { self.old.events ≤ 10000000 }
        requires waits { MayDrop self.old line }
        requires holds { IsHeld self.old line ports }
        ensures ok { OnOk result (IsSettled self.old line ports self.new) }
        ensures err { OnErr result (IsSettledShort self.old line ports self.new) }
    {
        let Some(choice) = self.choice(line, window) else {
            return self.reject(line);
        };
        let host = self.me();
        let affected = self.affected_at(ports.lport, ports.rport);
        self.add(Label::T { host, line, choice }, affected)?;
        self.recover(ports)?;
        Ok(())
    }

    // What is not taken is answered by a reset if it may be, and else dropped.
    fn reject(&mut self, line: u64) -> Result<(), OutOfMemory>
        requires room { steps_in self.old.recorded.entries < 4 * self.old.events }
        requires events { self.old.events ≤ 10000000 }
        requires waits { MayDrop self.old line }
        requires not_taken { MayTake self.old line → ⊥ }
        ensures ok { (ports : Ports) → OnOk result (IsSettled self.old line ports self.new) }
        ensures err { OnErr result (self.new ≡ self.old) }
    {
        let host = self.me();
        let reset = Label::R { host, line };
        if self.admits(&reset) {
            self.add(reset, Affected::Nobody)?;
            return Ok(());
        }
        self.add(Label::K { host, line }, Affected::Nobody)?;
        Ok(())
    }

    // How it may be taken with its bytes: with this congestion window if it may, and a round trip sample. None: it may
    // not be taken.
    fn choice(&self, line: u64, window: u32) -> Option<TakeChoice>
        requires steps { steps_in self.now.recorded.entries < most_steps }
        ensures some { IfSome result (λ choice. IsChoice self.now line choice) }
        ensures none { IfNone result (MayTake self.now line → ⊥) }
    {
        let least = self.take_with(line, 0, false)?;
        if let Some(choice) = self.take_with(line, window, true) {
            return Some(choice);
        }
        match self.take_with(line, window, false) {
            Some(choice) => Some(choice),
            None => Some(least),
        }
    }

    // How it is taken so, if it may be.
    fn take_with(&self, line: u64, cwnd: u32, sample: bool) -> Option<TakeChoice>
        requires steps { steps_in self.now.recorded.entries < most_steps }
        ensures some { IfSome result (λ choice. (choice.keep ≡ true)
            × MayDo self.now (At self.now.recorded.me (Takes line choice))) }
        ensures same { IfSome result (λ choice. choice ≡ record { cwnd = cwnd; keep = true; sample = sample }) }
        ensures none { IfNone result (MayDo self.now
            (At self.now.recorded.me (Takes line (record { cwnd = cwnd; keep = true; sample = sample }))) → ⊥) }
    {
        let choice = with_bytes(cwnd, sample);
        let host = self.me();
        let may = self.admits(&Label::T { host, line, choice });
        choice_if(may, choice)
    }

    // Fast recovery begins at the endpoint of these ports, if it may.
    fn recover(&mut self, ports: Ports) -> Result<(), OutOfMemory>
        requires room { steps_in self.old.recorded.entries < 4 * self.old.events }
        requires events { self.old.events ≤ 10000000 }
        ensures ok { OnOk result (IsRecovered self.old ports self.new) }
        ensures err { OnErr result (self.new ≡ self.old) }
        ensures due { OnErr result (MayRecover self.old ports) }
    {
        let Some(recovery) = self.recovery(ports) else {
            return Ok(());
        };
        let host = self.me();
        let affected = self.affected_at(ports.lport, ports.rport);
        self.add(Label::F { host, recovery }, affected)?;
        Ok(())
    }

    // How it may begin: with the greatest values, or with none. None: it may not begin.
    fn recovery(&self, ports: Ports) -> Option<Recovery>
        requires steps { steps_in self.now.recorded.entries < most_steps }
        ensures some { IfSome result (λ x. IsRecoveryAt self.now ports x) }
        ensures none { IfNone result (MayRecover self.now ports → ⊥) }
    {
        let least = self.recover_with(ports, 0, 0)?;
        let greatest = self.greatest_recovery(ports);
        match self.recover_with(ports, greatest.cwnd, greatest.ssthresh) {
            Some(recovery) => Some(recovery),
            None => Some(least),
        }
    }

    fn recover_with(&self, ports: Ports, cwnd: u32, ssthresh: u32) -> Option<Recovery>
        requires steps { steps_in self.now.recorded.entries < most_steps }
        ensures some { IfSome result (λ x. IsRecoveryAt self.now ports x) }
        ensures none { IfNone result (IsRefusedRecovery self.now ports cwnd ssthresh) }
    {
        let recovery = Recovery {
            change: RecoveryChange::Begins,
            lport: ports.lport,
            rport: ports.rport,
            cwnd,
            ssthresh,
        };
        let host = self.me();
        if self.admits(&Label::F { host, recovery }) {
            Some(recovery)
        } else {
            None
        }
    }

    // Whether the model permits a step at the last tick.
    fn admits(&self, label: &Label) -> bool
        requires steps { steps_in self.now.recorded.entries < most_steps }
        requires limits { IsWithinLimits label.now }
        ensures yes { result ≡ true → MayDo self.now (step_of label.now) }
        ensures no { result ≡ false → MayDo self.now (step_of label.now) → ⊥ }
    {
        match self.recording.admits(self.last_tick().moment, label) {
            Ok(()) => true,
            Err(_) => false,
        }
    }

    // The greatest congestion window and slow start threshold of fast recovery.
    fn greatest_recovery(&self, ports: Ports) -> RtoChoice {
        match self.recording.body().endpoint_of(ports.lport, ports.rport) {
            Some(endpoint) => at_recovery(endpoint, self.last_tick().moment),
            None => RtoChoice {
                cwnd: 0,
                ssthresh: 0,
            },
        }
    }
}

// The ports of the endpoint that a segment is for.
fn ports_of(m: &Emission) -> Ports
    ensures { result ≡ ports_of m.now }
{
    Ports {
        lport: m.rport,
        rport: m.lport,
    }
}
