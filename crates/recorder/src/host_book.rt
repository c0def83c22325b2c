//! What one host recorded, with the count of its answers.

ghost use Rattle.std.specs.Prelude.{◌≡◌, ◌↔◌, ◌+◌, ◌<◌, ◌≤◌, true, IsTrue, IfNone, IfOk, OnErr};
ghost use Rattle.std.specs.Option.{IfSome};
ghost use Rattle.spec_network.specs.Hosts.{Idle, turn_of};
ghost use Rattle.spec_network.specs.Tables.{lane};
ghost use Rattle.spec_tcp.specs.Machine.{aim};
ghost use Rattle.spec_merge.specs.Books.{Aims};
ghost use Rattle.spec_merge.specs.Keys.{before};
ghost use Rattle.stack_core.specs.Cores.{IsAfter, IsCallWithin, IsRecorded, world};
ghost use Rattle.stack_core.specs.Entries.{steps_in};
ghost use Rattle.stack_core.specs.Keys.{key_of};
ghost use Rattle.stack_core.specs.Told.{AllTold};
ghost use Rattle.recorder.specs.Naming.{AllAbove};
ghost use Rattle.recorder.specs.Books.{IsSameSite, ends_in};

use case_forms::{Call, Header, Host, OutOfMemory};
use recording_parts::count_answer;
use stack_core::{Answered, CoreConfig, Flying, HostCore, Recording, Tick};
use std::alloc::Global;
use std::marker::Model;

/// What one host recorded. Contracts see its core, and how many of its lines end a call.
#[derive(Drop)]
pub struct HostBook {
    core: HostCore,
    total: u64,
}

impl Model for HostBook {
    ghost use Rattle.recorder.specs.Views.{BookView};
    ghost use Rattle.recorder.specs.Books.{IsBook};

    ghost Value = { BookView };

    ghost view = { λ b. record { core = b.core; total = b.total } };

    ghost invariant = { λ b. IsBook b.core b.total };
}

impl HostBook {
    // The book of a host that recorded nothing yet.
    pub(crate) fn new(alloc: Global, host: Host, header: Header, config: CoreConfig) -> HostBook
        ensures site { (result.core.recorded.me ≡ host) × (result.core.recorded.header ≡ header) }
        ensures total { result.total ≡ 0 }
    {
        HostBook {
            core: HostCore::new(alloc, host, header, config),
            total: 0,
        }
    }

    /// What it recorded.
    pub fn recording(&self) -> &Recording
        ensures { result.now ≡ self.now.core.recorded }
    {
        self.core.recording()
    }

    /// How many of its lines end a call.
    pub fn total(&self) -> u64
        ensures { result ≡ self.now.total }
    {
        self.total
    }

    /// The tick of its last event: moment, in microseconds, and counter 0 before the first.
    pub fn last_tick(&self) -> Tick
        ensures { result ≡ self.now.core.last }
    {
        self.core.last_tick()
    }

    /// How many events there were.
    pub fn events(&self) -> u64
        ensures { result ≡ self.now.core.events }
    {
        self.core.events()
    }

    /// Does nothing; its contract says that what the book recorded is a run of its host for its lines, and that its
    /// total is the number of lines that end a call.
    pub fn is_book(&self)
        ensures run { IsRecorded self.now.core }
        ensures total { self.now.total ≡ ends_in self.now.core.recorded.entries }
    {
        self.core.is_recording();
    }

    // Does nothing; its contract says that what was brought has keys below those of its entries, and that the steps are
    // few.
    pub(crate) fn few_steps(&self)
        ensures above { AllAbove self.now.core.recorded.entries }
        ensures steps { steps_in self.now.core.recorded.entries ≤ 40000000 }
    {
        self.core.few_steps();
    }

    /// Does nothing; its contract says that a text can state what the book recorded. Each segment is made at a position
    /// that a text can name, with a payload that fits into one, and with a shift only beside an initial number and if
    /// the version scales windows.
    pub fn can_be_told(&self)
        ensures { AllTold self.now.core.recorded.header.version self.now.core.recorded.entries }
    {
        self.core.can_be_told();
    }

    // Whether a thread is in no call.
    pub(crate) fn is_idle(&self, thread: u32) -> bool
        ensures { IsTrue result ↔ (turn_of thread (world self.now.core).threads ≡ Idle) }
    {
        self.core.recording().admits_begin(thread)
    }

    // A thread begins a call.
    #[tactic(auto, using(crate::proofs::BookLemmas::begun_book))]
    pub(crate) fn begin(&mut self, thread: u32, call: &Call, tick: Tick) -> Result<(), OutOfMemory>
        requires tick { IsAfter self.old.core.last tick }
        requires events { self.old.core.events < 10000000 }
        requires idle { turn_of thread (world self.old.core).threads ≡ Idle }
        requires lane { lane thread ≡ self.old.core.recorded.me }
        requires aims { Aims self.old.core.recorded.me (aim call.now) }
        requires within { IsCallWithin call.now }
        ensures site { IsSameSite self.old.core self.new.core }
        ensures total { self.new.total ≡ self.old.total }
    {
        self.core.begin(thread, call, tick)?;
        Ok(())
    }

    // The open call of a thread has its effect, and ends.
    #[tactic(auto, using(crate::proofs::BookLemmas::attempted_book, crate::proofs::BookLemmas::attempted_site, crate::proofs::BookLemmas::short_book, crate::proofs::BookLemmas::short_site))]
    pub(crate) fn attempt(
        &mut self,
        thread: u32,
        tick: Tick,
    ) -> Result<Option<Answered>, OutOfMemory>
        requires tick { IsAfter self.old.core.last tick }
        requires events { self.old.core.events < 10000000 }
        requires lane { lane thread ≡ self.old.core.recorded.me }
        ensures site { IsSameSite self.old.core self.new.core }
        ensures some { IfOk result (λ o. IfSome o (λ a. (a.thread ≡ thread) × (self.new.total ≡ self.old.total + 1)
            × (self.new.total ≤ 10000000))) }
        ensures none { IfOk result (λ o. IfNone o (self.new.total ≡ self.old.total)) }
        ensures err { OnErr result (self.new.total ≡ self.old.total) }
    {
        match self.core.attempt(thread, tick)? {
            Some(answered) => {
                count_answer(&mut self.total);
                Ok(Some(answered))
            }
            None => Ok(None),
        }
    }

    // A segment of the other host arrives.
    #[tactic(auto, using(crate::proofs::BookLemmas::arrival_book, crate::proofs::BookLemmas::arrival_site, crate::proofs::BookLemmas::arrived_short_book, crate::proofs::BookLemmas::arrived_short_site))]
    pub(crate) fn arrive(&mut self, flying: Flying, tick: Tick) -> Result<bool, OutOfMemory>
        requires tick { IsAfter self.old.core.last tick }
        requires events { self.old.core.events < 10000000 }
        requires above { before flying.key (key_of self.old.core.recorded.me tick) ≡ true }
        ensures site { IsSameSite self.old.core self.new.core }
        ensures total { self.new.total ≡ self.old.total }
    {
        let let_in = self.core.arrive(flying, tick)?;
        Ok(let_in)
    }

    // A segment is made and sent.
    #[tactic(auto, using(crate::proofs::BookLemmas::pumped_book, crate::proofs::BookLemmas::pumped_site, crate::proofs::BookLemmas::pumped_short_book, crate::proofs::BookLemmas::pumped_short_site))]
    pub(crate) fn pump(&mut self, tick: Tick) -> Result<Option<Flying>, OutOfMemory>
        requires tick { IsAfter self.old.core.last tick }
        requires events { self.old.core.events < 10000000 }
        ensures site { IsSameSite self.old.core self.new.core }
        ensures total { self.new.total ≡ self.old.total }
    {
        let flying = self.core.pump(tick)?;
        Ok(flying)
    }

    // A timer that is due expires.
    #[tactic(auto, using(crate::proofs::BookLemmas::timed_book, crate::proofs::BookLemmas::timed_site))]
    pub(crate) fn timers(&mut self, tick: Tick) -> Result<bool, OutOfMemory>
        requires tick { IsAfter self.old.core.last tick }
        requires events { self.old.core.events < 10000000 }
        ensures site { IsSameSite self.old.core self.new.core }
        ensures total { self.new.total ≡ self.old.total }
    {
        let found = self.core.timers(tick)?;
        Ok(found)
    }
}
