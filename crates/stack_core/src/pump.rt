//! A segment is made and sent.

ghost use Rattle.std.specs.Prelude.{◌≡◌, ◌<◌, ◌≤◌, ◌*◌, suc, IfNone, IfOk, OnOk, OnErr};
ghost use Rattle.std.specs.Option.{IfSome};
ghost use Rattle.spec_network.specs.Hosts.{At, Makes};
ghost use Rattle.spec_network.specs.HostRules.{Permitted};
ghost use Rattle.spec_tcp.specs.Bounds.{greatest_position, most_steps};
ghost use Rattle.spec_tcp.specs.Machine.{tcp};
ghost use Rattle.stack_core.specs.CoreWorlds.{Leaves};
ghost use Rattle.stack_core.specs.CoreWorlds.CoreCall.{Pump};
ghost use Rattle.stack_core.specs.Cores.{IsAfter, IsRecorded, with_step, world};
ghost use Rattle.stack_core.specs.Entries.{steps_in};
ghost use Rattle.stack_core.specs.Makings.{IsMakeable, NothingToMake};
ghost use Rattle.stack_core.specs.PumpEvents.{IsPumped, IsPumpedShort, NothingToPump};
ghost use Rattle.stack_core.specs.Resets.{IsResetToGo, NoResetWaits};
ghost use Rattle.stack_core.specs.Told.{TellsWell};
ghost use Rattle.stack_core.specs.Flown.{HasFlown};
ghost use Rattle.stack_core.specs.Outgoing.{GoesOut, MayGo, WaitsToGo, greatest_payload};

use crate::deadline_queue::Affected;
use crate::host_core::HostCore;
use crate::next_segment::find_plan;
use crate::outgoing::{Outgoing, wire_of};
use crate::plans::SynOptions;
use crate::resets::next_reset;
use crate::tick::Tick;
use crate::transit::Flying;
use case_forms::{OutOfMemory, SegmentPlan, TakenLine};
use endpoint::sent;
use seqno::Word;
use spec_step::Label;
use spec_tcp_laws::forgetting_is_free;

impl HostCore {
    /// Sends a segment, which is a line. A waiting reset that answers a segment goes first; else a segment is made: a
    /// reset that is due, what seems lost, new bytes, or an acknowledgment that is owed. None: nothing is changed,
    /// because no reset waits and no segment without RST that takes new positions may be made. The error is that memory
    /// ran out; then the tick has passed, and the segment may have been made and not sent.
    pub fn pump(&mut self, tick: Tick) -> Result<Option<Flying>, OutOfMemory>
        requires tick { IsAfter self.old.last tick }
        requires events { self.old.events < 10000000 }
        ensures some { IfOk result (λ o. IfSome o (λ f. IsPumped self.old tick f self.new)) }
        ensures none { IfOk result (λ o. IfNone o ((self.new ≡ self.old) × NothingToPump self.old)) }
        ensures err { OnErr result (IsPumpedShort self.old tick self.new) }
        ensures flown { IfOk result (λ o. IfSome o (λ f. HasFlown self.new.recorded f)) }
        ensures leaves { Leaves self.old tick (Pump result) self.new }
        ensures kept { IsRecorded self.new }
    {
        let pumped = self.record_pump(tick);
        self.is_recording();
        pumped
    }

    // The same, without the fact that what is then recorded is a run.
    fn record_pump(&mut self, tick: Tick) -> Result<Option<Flying>, OutOfMemory>
        requires tick { IsAfter self.old.last tick }
        requires events { self.old.events < 10000000 }
        ensures some { IfOk result (λ o. IfSome o (λ f. IsPumped self.old tick f self.new)) }
        ensures none { IfOk result (λ o. IfNone o ((self.new ≡ self.old) × NothingToPump self.old)) }
        ensures err { OnErr result (IsPumpedShort self.old tick self.new) }
    {
        self.bounds();
        if let Some(number) = self.reset_to_go() {
            self.begin_event(tick);
            let flying = self.send(number)?;
            return Ok(Some(flying));
        }
        let Some(plan) = self.plan() else {
            return Ok(None);
        };
        self.begin_event(tick);
        self.make(plan)?;
        self.spend_iss(plan);
        self.update_after_making(plan);
        let number = self.count();
        let flying = self.send(number)?;
        Ok(Some(flying))
    }

    // A reset that answers a segment and waits.
    fn reset_to_go(&mut self) -> Option<u32>
        ensures same { self.new ≡ self.old }
        ensures some { IfSome result (λ n. IsResetToGo self.old.recorded n) }
        ensures none { IfNone result (NoResetWaits self.old.recorded) }
    {
        next_reset(&mut self.resets, &self.recording)
    }

    // A segment that may be made.
    fn plan(&mut self) -> Option<SegmentPlan>
        requires steps { steps_in self.old.recorded.entries < most_steps }
        ensures same { self.new ≡ self.old }
        ensures some { IfSome result (λ m. IsMakeable self.old.recorded.header self.old.recorded.me
            (world self.old) m) }
        ensures none { IfNone result (NothingToMake self.old.recorded.header self.old.recorded.me (world self.old)) }
    {
        forgetting_is_free();
        let opening = self.opening();
        find_plan(
            self.recording.world(),
            self.recording.me(),
            &mut self.send_states,
            &mut self.ready,
            opening,
            self.config.ring,
        )
    }

    // What the next endpoint is given with its first SYN, if its version carries a shift.
    fn opening(&self) -> SynOptions {
        SynOptions {
            iss: Word(self.iss),
            shift: self.config.shift,
        }
    }

    // A segment is made, in an event that began.
    fn make(&mut self, plan: SegmentPlan) -> Result<(), OutOfMemory>
        requires room { steps_in self.old.recorded.entries < 4 * self.old.events }
        requires events { self.old.events ≤ 10000000 }
        requires limits { plan.pos ≤ greatest_position }
        requires short { plan.len ≤ greatest_payload }
        requires told { TellsWell self.old.recorded.header.version plan }
        requires permitted { Permitted (tcp self.old.recorded.header) 0 (world self.old)
            (At self.old.recorded.me (Makes plan)) }
        ensures ok { OnOk result (self.new ≡ with_step self.old (At self.old.recorded.me (Makes plan))) }
        ensures count { OnOk result (steps_in self.new.recorded.entries ≡ suc (steps_in self.old.recorded.entries)) }
        ensures waits { OnOk result (WaitsToGo self.new (world self.new).count) }
        ensures err { OnErr result (self.new ≡ self.old) }
    {
        let host = self.me();
        let affected = self.affected_at(plan.lport, plan.rport);
        self.add(Label::M { host, plan }, affected)?;
        Ok(())
    }

    // The initial send sequence number that a segment gave is used up: the next is 65,536 more.
    fn spend_iss(&mut self, plan: SegmentPlan)
        ensures { self.new ≡ self.old }
    {
        if plan.iss.is_some() {
            self.iss = self.iss.wrapping_add(65_536);
        }
    }

    // Remembers what was made.
    fn update_after_making(&mut self, plan: SegmentPlan)
        ensures { self.new ≡ self.old }
    {
        if let Some(place) = self.recording.body().place_of(plan.lport, plan.rport) {
            let send_state = self.send_states.at(place).after_making(&plan);
            self.send_states.set(place, send_state);
        }
    }

    // A segment that was made is sent, in an event that began.
    fn send(&mut self, number: u32) -> Result<Flying, OutOfMemory>
        requires room { steps_in self.old.recorded.entries < 4 * self.old.events }
        requires events { self.old.events ≤ 10000000 }
        requires waits { WaitsToGo self.old number }
        ensures ok { IfOk result (λ f. GoesOut self.old number f self.new) }
        ensures err { OnErr result (self.new ≡ self.old) }
    {
        let Outgoing { wire, flying } = self.outgoing(number)?;
        let line = TakenLine::Sent {
            line: self.line(),
            host: self.me(),
            made: number,
            wire,
        };
        self.add(Label::L(line), Affected::Nobody)?;
        Ok(flying)
    }

    // How it is sent, and the segment then in transit.
    fn outgoing(&self, number: u32) -> Result<Outgoing, OutOfMemory>
        requires waits { WaitsToGo self.now number }
        ensures { IfOk result (λ x. MayGo self.now number x.wire x.flying) }
    {
        let Some(made) = self.recording.made(number) else {
            unreachable!();
        };
        let m = made.emission();
        let mss = m.flags.syn.then_some(self.config.mss);
        let wire = wire_of(self.recording.allocator(), m, mss)?;
        let tick = self.last_tick();
        let flying = Flying {
            host: self.me(),
            tick,
            line: self.line(),
            emission: sent(tick.moment, wire.copy()?, m),
            wire: wire.copy()?,
        };
        Ok(Outgoing { wire, flying })
    }
}
