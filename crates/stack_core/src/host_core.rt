//! The core of one host: what it recorded, and what every event uses.

ghost use Rattle.std.specs.Prelude.{◌≡◌, ◌≤◌, ◌<◌, ◌+◌, ◌*◌, suc, OnOk, OnErr};
ghost use Rattle.case_forms.specs.Witnesses.{IsWithinLimits};
ghost use Rattle.spec_network.specs.HostSteps.{after};
ghost use Rattle.spec_tcp.specs.Machine.{tcp};
ghost use Rattle.spec_tcp.specs.Steps.{step_of};
ghost use Rattle.spec_merge.specs.Books.{Bring};
ghost use Rattle.spec_merge.specs.Keys.{EachEntry};
ghost use Rattle.stack_core.specs.Cores.{Fits, IsAfter, IsBelow, IsNextLine, IsOrderly, IsOwn, IsRecorded};
ghost use Rattle.stack_core.specs.Cores.{line_to_come, lines_taken, new_core, event_begun, with_item, with_step, world};
ghost use Rattle.stack_core.specs.Entries.{steps_in};
ghost use Rattle.stack_core.specs.Told.{AllTold, IsToldStep};
ghost use Rattle.stack_core.specs.Affected.{affected_by};

use crate::deadline_queue::{Affected, DeadlineQueue};
use crate::recording::Recording;
use crate::resets::await_reset;
use crate::send_states::SendStates;
use crate::tick::Tick;
use crate::transit::Flying;
use case_forms::{Header, Host, OutOfMemory};
use spec_step::Label;
use std::alloc::Global;
use std::collections::VecDeque;
use std::marker::Model;

/// How a core chooses.
#[derive(Clone, Copy)]
pub struct CoreConfig {
    /// The MSS that its SYNs carry, in bytes, 1 to 65495.
    pub mss: u16,
    /// How many bytes it keeps until the peer acknowledges them, and how many until its own threads read them, 1 to
    /// 65535.
    pub ring: u16,
    /// The initial send sequence number of its first endpoint. Each later one's is 65,536 more.
    pub first_iss: u32,
    /// By how many bits its endpoints shift the windows that they offer, if the header's version scales windows; more
    /// than 14 counts as 14 (RFC 7323, 2.3). None: their SYNs carry no shift.
    pub shift: Option<u8>,
}

/// The core of one host. Contracts see what it recorded, its ring, its last tick and the count of its events.
#[derive(Drop)]
pub struct HostCore {
    pub(crate) recording: Recording,
    pub(crate) config: CoreConfig,
    // The number of the next line.
    line: u64,
    last: Tick,
    events: u64,
    // The initial send sequence number of the next endpoint.
    pub(crate) iss: u32,
    // The resets that answer segments and wait to be sent, by their numbers; there may be others among them.
    pub(crate) resets: VecDeque<u32>,
    pub(crate) send_states: SendStates,
    // Endpoints at which something may be made that takes new positions.
    pub(crate) ready: DeadlineQueue,
    // Endpoints with timers, and when these may expire.
    pub(crate) wakes: DeadlineQueue,
}

impl Model for HostCore {
    ghost use Rattle.stack_core.specs.Cores.{Core, IsCore};
    ghost use Rattle.stack_core.specs.Resets.{AreAwaited, made_of};
    ghost use Rattle.stack_core.specs.Tended.{IsTended};

    ghost Value = { Core };

    ghost view = { λ a. record { recorded = a.recording; ring = a.config.ring; last = a.last; events = a.events } };

    ghost invariant = { λ a. IsCore a.recording a.line a.last a.events
        × AreAwaited (made_of a.recording) a.resets.items × IsTended a.recording a.ready a.wakes };
}

impl HostCore {
    /// The core of a host that recorded nothing yet.
    pub fn new(alloc: Global, host: Host, header: Header, config: CoreConfig) -> HostCore
        ensures { result ≡ new_core header host config.ring }
    {
        let ready = DeadlineQueue::new(alloc);
        let wakes = DeadlineQueue::new(alloc);
        HostCore {
            recording: Recording::start(alloc, host, &header),
            config,
            line: header.first_event_line(),
            last: Tick {
                moment: 0,
                counter: 0,
            },
            events: 0,
            iss: config.first_iss,
            resets: VecDeque::new(alloc),
            send_states: SendStates::new(alloc),
            ready,
            wakes,
        }
    }

    /// What it recorded.
    pub fn recording(&self) -> &Recording
        ensures { result.now ≡ self.now.recorded }
    {
        &self.recording
    }

    /// Does nothing; its contract says that what the core recorded is a run of its host.
    pub fn is_recording(&self)
        ensures { IsRecorded self.now }
    {
        self.recording.is_recording();
    }

    /// Does nothing; its contract says that a text can state what the core recorded. Each segment is made at a position
    /// that a text can name, with a payload that fits into one, and with a shift only beside an initial number and if
    /// the version scales windows. Nothing is later than the last tick.
    pub fn can_be_told(&self)
        ensures told { AllTold self.now.recorded.header.version self.now.recorded.entries }
        ensures below { EachEntry (tcp self.now.recorded.header)
            (λ x. IsBelow self.now.recorded.me self.now.last x.key) self.now.recorded.entries }
    {
        let _ = &self.line;
    }

    /// Does nothing; its contract says that each event has at most four steps.
    pub fn few_steps(&self)
        ensures { steps_in self.now.recorded.entries ≤ 4 * self.now.events }
    {
        let _ = &self.line;
    }

    /// The tick of the last event: moment and counter 0 before the first.
    pub fn last_tick(&self) -> Tick
        ensures { result ≡ self.now.last }
    {
        self.last
    }

    /// How many events there were.
    pub fn events(&self) -> u64
        ensures { result ≡ self.now.events }
    {
        self.events
    }

    /// The host.
    pub fn me(&self) -> Host
        ensures { result ≡ self.now.recorded.me }
    {
        self.recording.me()
    }

    // The number of the next line.
    pub(crate) fn line(&self) -> u64
        ensures { result ≡ line_to_come self.now }
    {
        self.line
    }

    // Does nothing; its contract states the invariant of every core.
    pub(crate) fn bounds(&self)
        ensures steps { steps_in self.now.recorded.entries ≤ 4 * self.now.events }
        ensures own { IsOwn self.now.recorded.me (world self.now) }
    {
        let _ = &self.line;
    }

    // An event begins, at this tick.
    pub(crate) fn begin_event(&mut self, tick: Tick)
        requires tick { IsAfter self.old.last tick }
        requires events { self.old.events < 10000000 }
        ensures begun { self.new ≡ event_begun self.old tick }
        ensures room { steps_in self.new.recorded.entries + 4 ≤ 4 * self.new.events }
        ensures events { self.new.events ≤ 10000000 }
    {
        self.last = tick;
        self.events += 1;
    }

    // The same for an event that may create an endpoint; there is then room to remember its duties. The error is that
    // memory ran out; the event began all the same.
    pub(crate) fn begin_event_with_room(&mut self, tick: Tick) -> Result<(), OutOfMemory>
        requires tick { IsAfter self.old.last tick }
        requires events { self.old.events < 10000000 }
        ensures begun { self.new ≡ event_begun self.old tick }
        ensures room { steps_in self.new.recorded.entries + 4 ≤ 4 * self.new.events }
        ensures events { self.new.events ≤ 10000000 }
    {
        self.begin_event(tick);
        self.send_states.make_room()?;
        Ok(())
    }

    // How many segments were made: the last one has this number.
    pub(crate) fn count(&self) -> u32
        ensures { result ≡ (world self.now).count }
    {
        self.recording.count()
    }

    // Adds a step at the moment of the last tick. It may change these endpoints, besides one that it creates. The error
    // is that memory ran out; nothing is changed then.
    pub(crate) fn add(&mut self, label: Label, affected: Affected) -> Result<(), OutOfMemory>
        requires room { steps_in self.old.recorded.entries < 4 * self.old.events }
        requires events { self.old.events ≤ 10000000 }
        requires limits { IsWithinLimits label }
        requires fits { Fits self.old (step_of label) }
        requires line { IsNextLine self.old (step_of label) }
        requires orderly { IsOrderly self.old.recorded.me (world self.old) (step_of label) }
        requires told { IsToldStep self.old.recorded.header.version (step_of label) }
        requires affected { affected ≡ affected_by self.old.recorded.me (world self.old) (step_of label) }
        ensures ok { OnOk result (self.new ≡ with_step self.old (step_of label)) }
        ensures count { OnOk result (steps_in self.new.recorded.entries ≡ suc (steps_in self.old.recorded.entries)) }
        ensures world { OnOk result (world self.new
            ≡ after (tcp self.old.recorded.header) self.old.last.moment (world self.old) (step_of label)) }
        ensures err { OnErr result (self.new ≡ self.old) }
    {
        let lines = lines_taken(&label);
        let tick = self.last;
        await_reset(&mut self.resets, &label, self.recording.count())?;
        self.ready.look_again(affected);
        self.wakes.look_again(affected);
        self.recording.step(tick, label)?;
        self.line += lines;
        Ok(())
    }

    // Brings a segment of the other host, at the last tick. The error is that memory ran out; nothing is changed then.
    pub(crate) fn bring(&mut self, flying: Flying) -> Result<(), OutOfMemory>
        ensures ok { OnOk result (self.new ≡ with_item self.old (Bring flying)) }
        ensures err { OnErr result (self.new ≡ self.old) }
    {
        let tick = self.last;
        self.recording.bring(tick, flying)?;
        Ok(())
    }
}

// How many lines a step takes.
fn lines_taken(label: &Label) -> u64
    ensures { result ≡ lines_taken (step_of label.now) }
{
    match label {
        Label::L(_) => 1,
        _ => 0,
    }
}
