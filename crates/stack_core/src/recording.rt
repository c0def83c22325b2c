//! What one host recorded, and the world to which it leads.

ghost use Rattle.std.specs.Prelude.{◌≡◌, ◌↔◌, IsTrue, ◌<◌, ◌≤◌, [], length, nat_eq, OnOk, OnErr};
ghost use Rattle.std.specs.Map.{lookup};
ghost use Rattle.std.specs.Option.{IfSome, option_copied};
ghost use Rattle.std.specs.Result.{result_err};
ghost use Rattle.case_forms.specs.Witnesses.{IsWithinLimits};
ghost use Rattle.case_forms.specs.Traces.{first_event_line};
ghost use Rattle.verdict.specs.Rules.{first_broken};
ghost use Rattle.spec_network.specs.Tables.{other, pick};
ghost use Rattle.spec_network.specs.Hosts.{Idle, turn_of};
ghost use Rattle.spec_network.specs.HostRules.{step_rules};
ghost use Rattle.spec_tcp.specs.Bounds.{IsSmallEmission, most_steps};
ghost use Rattle.spec_tcp.specs.Forgetting.{forget, forget_body};
ghost use Rattle.spec_tcp.specs.Machine.{tcp};
ghost use Rattle.spec_tcp.specs.Steps.{step_of};
ghost use Rattle.spec_merge.specs.Books.{Bring, Do};
ghost use Rattle.spec_merge.specs.Recordings.{IsKept};
ghost use Rattle.endpoint_state.specs.Turns.{pending_call};
ghost use Rattle.stack_core.specs.Entries.{entry_at, steps_in};
ghost use Rattle.stack_core.specs.Recordings.{Joins, with_entry, world_left};

use crate::entry::Entry;
use crate::item::Item;
use crate::tick::Tick;
use crate::transit::Flying;
use case_forms::{Call, Header, Host, OutOfMemory};
use endpoint_state::{HostTcp, Made, World};
use spec_merge::books_grow;
use spec_step::{Label, StepFault, admits, apply, bring};
use spec_tcp::Emission;
use spec_tcp_laws::{forgetting_is_free, runs_forget};
use std::alloc::{AllocError, Global};
use std::marker::Model;
use verdict::Rule;

/// What one host recorded. Contracts see its header, its host and its entries; its world is the one to which these
/// lead.
#[derive(Drop)]
pub struct Recording {
    pub(crate) me: Host,
    pub(crate) world: World,
    pub(crate) entries: Vec<Entry>,
}

impl Model for Recording {
    ghost use Rattle.stack_core.specs.Recordings.{Recorded, IsRecording};

    ghost Value = { Recorded };

    ghost view = { λ a. record { header = a.world.header; me = a.me; entries = a.entries.items } };

    ghost invariant = { λ a. IsRecording a.me a.world a.entries.items };
}

impl Recording {
    /// A host that recorded nothing yet.
    pub fn start(alloc: Global, me: Host, header: &Header) -> Recording
        ensures { result ≡ record { header = header.now; me = me; entries = [] } }
    {
        runs_forget();
        Recording {
            me,
            world: World::start(alloc, header),
            entries: Vec::new(alloc),
        }
    }

    /// Does nothing; its contract says that what is recorded is a run of the host.
    pub fn is_recording(&self)
        ensures { IsKept self.now.header self.now.me (first_event_line self.now.header) self.now.entries }
    {
        let _ = &self.me;
    }

    /// Its allocator.
    pub(crate) fn allocator(&self) -> Global {
        *self.entries.allocator()
    }

    /// The host.
    pub fn me(&self) -> Host
        ensures { result ≡ self.now.me }
    {
        self.me
    }

    /// The header.
    pub fn header(&self) -> &Header
        ensures { result.now ≡ self.now.header }
    {
        self.world.header()
    }

    /// The entries, in their order.
    pub fn entries(&self) -> &[Entry]
        ensures { result.now ≡ self.now.entries }
    {
        self.entries.as_slice()
    }

    /// The world, with whatever may be discarded discarded.
    pub(crate) fn world(&self) -> &World
        ensures header { result.now.header ≡ self.now.header }
        ensures world { result.now.world ≡ forget (world_left self.now) }
        ensures steps { result.now.steps ≡ steps_in self.now.entries }
    {
        &self.world
    }

    /// Whether the model permits a step at a moment in microseconds. The error is the least rule that the step breaks.
    pub fn admits(&self, moment: u64, label: &Label) -> Result<(), Rule>
        requires steps { steps_in self.now.entries < most_steps }
        requires label { IsWithinLimits label.now }
        ensures { result_err result ≡ first_broken
            (step_rules (tcp self.now.header) moment (world_left self.now) (step_of label.now)) }
    {
        forgetting_is_free();
        admits(&self.world, moment, label)
    }

    /// The call of a thread that is open and had no effect yet. None: there is none, or it had its effect.
    pub fn pending_call(&self, thread: u32) -> Option<&Call>
        ensures { option_copied result ≡ pending_call (turn_of thread (world_left self.now).threads) }
    {
        self.world.pending_call(thread)
    }

    /// Whether a thread is in no call, so that it may begin one.
    pub fn admits_begin(&self, thread: u32) -> bool
        ensures { IsTrue result ↔ (turn_of thread (world_left self.now).threads ≡ Idle) }
    {
        self.world.admits_begin(thread).is_ok()
    }

    /// How many segments were made: at most one by each step.
    pub fn count(&self) -> u32
        ensures count { result ≡ (world_left self.now).count }
        ensures few { result ≤ steps_in self.now.entries }
    {
        self.world.is_kept();
        self.world.count()
    }

    /// The segment that was made under this number.
    pub fn made(&self, number: u32) -> Option<&Made>
        ensures made { option_copied result ≡ lookup (nat_eq number)
            (pick (world_left self.now).hosts self.now.me).made }
        ensures small { IfSome (option_copied result) (λ m. IsSmallEmission m.emission) }
    {
        self.world.is_kept();
        self.world.made(self.me, number)
    }

    /// The host's state, as far as it is kept.
    pub fn body(&self) -> &HostTcp
        ensures { result.now ≡ forget_body (pick (world_left self.now).hosts self.now.me).body }
    {
        self.world.body(self.me)
    }

    /// The segment that the host sent with this line.
    pub fn sent(&self, line: u64) -> Option<&Emission>
        ensures { option_copied result ≡ lookup (nat_eq line) (pick (world_left self.now).hosts self.now.me).wire }
    {
        self.world.sent(self.me, line)
    }

    // Does nothing; its contract says that a host has at most as many endpoints as there were steps.
    pub(crate) fn few_endpoints(&self)
        ensures { length (forget_body (pick (world_left self.now).hosts self.now.me).body).endpoints
            ≤ steps_in self.now.entries }
    {
        self.world.is_kept();
    }

    /// Adds a step at a tick. The error is that memory ran out; nothing is changed then.
    pub fn step(&mut self, tick: Tick, label: Label) -> Result<(), OutOfMemory>
        requires steps { steps_in self.old.entries < most_steps }
        requires label { IsWithinLimits label }
        requires joins { Joins self.old (entry_at self.old.me tick (Do (step_of label))) }
        ensures ok { OnOk result (self.new ≡ with_entry self.old (entry_at self.old.me tick (Do (step_of label)))) }
        ensures err { OnErr result (self.new ≡ self.old) }
    {
        forgetting_is_free();
        books_grow();
        // Room comes first, so that entries and world agree even if memory runs out.
        self.entries.reserve(1)?;
        match apply(&mut self.world, tick.moment, &label) {
            Ok(()) => {}
            Err(StepFault::OutOfMemory) => return Err(AllocError),
            // Whatever may be added is permitted.
            Err(StepFault::Broken(_)) => unreachable!(),
        }
        self.entries.push_reserved(Entry {
            host: self.me,
            tick,
            item: Item::Does(label),
        });
        Ok(())
    }

    /// Brings a segment of the other host, at a tick. The error is that memory ran out; nothing is changed then.
    pub fn bring(&mut self, tick: Tick, flying: Flying) -> Result<(), OutOfMemory>
        requires joins { Joins self.old (entry_at self.old.me tick (Bring flying)) }
        ensures ok { OnOk result (self.new ≡ with_entry self.old (entry_at self.old.me tick (Bring flying))) }
        ensures err { OnErr result (self.new ≡ self.old) }
    {
        books_grow();
        self.entries.reserve(1)?;
        let from = self.me.other();
        bring(&mut self.world, from, flying.line, &flying.emission)?;
        self.entries.push_reserved(Entry {
            host: self.me,
            tick,
            item: Item::Brings(flying),
        });
        Ok(())
    }
}
