//! The state under a recorder's lock.

ghost use Rattle.std.specs.Prelude.{◌≡◌, ◌+◌, ◌≤◌, ◌<◌, ◌↔◌, true, false, IsTrue, IfNone, IfOk, IfErr, OnOk, OnErr};
ghost use Rattle.std.specs.Prelude.{sum_by, length};
ghost use Rattle.std.specs.BTreeSet.{contains};
ghost use Rattle.std.specs.Option.{IfSome};
ghost use Rattle.case_forms.specs.declared.calls.Host.{Host};
ghost use Rattle.spec_network.specs.Tables.{lane};
ghost use Rattle.spec_tcp.specs.Machine.{aim};
ghost use Rattle.spec_merge.specs.Books.{Aims};
ghost use Rattle.stack_core.specs.Cores.{IsAfter, IsCallWithin};
ghost use Rattle.recorder.specs.Seats.{IsReserved, WhyNoSeat};
ghost use Rattle.recorder.specs.Ticks.{IsOver, tick_after};

use crate::host_book::HostBook;
use crate::loops::LoopEnd;
use crate::receipt::Receipt;
use crate::recorder::RecFault;
use crate::seat::Seat;
use crate::site::{Held, Site};
use case_forms::{Call, GREATEST_COUNTER, GREATEST_MOMENT, Header, Host, MOST_EVENTS};
use recording_parts::are_all;
use stack_core::{CoreConfig, Flying, Key, Tick};
use std::alloc::Global;
use std::collections::BTreeSet;
use std::marker::PhantomData;
use std::sync::ledger::{Blank, Book, Share};

// By how much a turn of the timers advances the host's clock, in microseconds.
const CLOCK_STEP: u64 = 1_000;

// How many seats a recorder has.
const SEATS: u32 = 65_535;

/// A host's book and the ledger of its seats' counts.
#[derive(Drop)]
pub(crate) struct Desk<L: Site> {
    held: Held<L>,
    counts: Book<L>,
    // The shares of the ledger that no seat has.
    rest: Share<L>,
    // How many seats are left.
    left: u32,
    // The threads that have seats.
    threads: BTreeSet<u32, Global>,
    // The host's clock, in microseconds.
    clock: u64,
    stopped: bool,
    ghost counted: { held.book.total ≡ counts.total },
    ghost parts: { rest.parts ≡ left },
    ghost idle: { rest.amount ≡ 0 },
    ghost fits: { left ≤ 65535 },
}

// The next tick of a book, with at least this moment and counter. None: it would pass the limits, or there were too
// many events.
fn next_tick(book: &HostBook, moment: u64, counter: u64) -> Option<Tick>
    ensures tick { IfSome result (λ t. t ≡ tick_after book.now.core.last moment counter) }
    ensures after { IfSome result (IsAfter book.now.core.last) }
    ensures above { IfSome result (λ t. (moment ≤ t.moment) × (counter < t.counter)) }
    ensures events { IfSome result (λ t. book.now.core.events < 10000000) }
    ensures none { IfNone result (IsOver book.now.core moment counter) }
{
    if book.events() >= MOST_EVENTS {
        return None;
    }
    let last = book.last_tick();
    let moment = moment.max(last.moment);
    let counter = counter.max(last.counter);
    if moment > GREATEST_MOMENT || counter >= GREATEST_COUNTER {
        return None;
    }
    Some(Tick {
        moment,
        counter: counter + 1,
    })
}

impl<L: Site> Desk<L> {
    pub(crate) fn new(
        alloc: Global,
        host: Host,
        header: Header,
        config: CoreConfig,
        blank: Blank,
    ) -> Desk<L>
        requires name { blank.name ≡ L.name }
        requires parts { (blank.parts ≡ L.parts) × (L.parts ≡ 65535) }
        requires host { host ≡ L.host }
        requires header { header ≡ L.header }
    {
        let (counts, rest) = blank.open::<L>();
        Desk {
            held: Held {
                book: HostBook::new(alloc, host, header, config),
                of: PhantomData,
            },
            counts,
            rest,
            left: SEATS,
            threads: BTreeSet::new(alloc),
            clock: 0,
            stopped: false,
        }
    }

    /// The book.
    pub(crate) fn book(&self) -> &HostBook
        ensures host { result.now.core.recorded.me ≡ L.host }
        ensures header { result.now.core.recorded.header ≡ L.header }
    {
        &self.held.book
    }

    /// Whether these are all seats that were given out.
    pub(crate) fn are_all(&self, seats: &[Seat<L>]) -> bool
        ensures { IsTrue result ↔ (65535 ≤ length seats.now + self.now.left) }
    {
        are_all(seats.len(), self.left, SEATS)
    }

    /// Stops the recording: no event follows.
    pub(crate) fn stop(&mut self) {
        self.stopped = true;
    }

    /// A new seat.
    pub(crate) fn seat(&mut self, thread: u32) -> Result<Seat<L>, RecFault>
        ensures seat { IfOk result (λ s. (s.thread ≡ thread) × (s.count ≡ 0)) }
        ensures free { OnOk result ((IsReserved thread → ⊥)
            × (contains ⟦<u32 as Ord>⟧.cmp self.old.threads thread ≡ false)) }
        ensures kept { OnOk result (contains ⟦<u32 as Ord>⟧.cmp self.new.threads thread ≡ true) }
        ensures refused { IfErr result (WhyNoSeat self.old.stopped self.old.left
            (contains ⟦<u32 as Ord>⟧.cmp self.old.threads thread) thread) }
    {
        if self.stopped {
            return Err(RecFault::Stopped);
        }
        if self.left == 0 || is_reserved(thread) {
            return Err(RecFault::SeatTaken);
        }
        match self.threads.insert(thread) {
            Ok(true) => {}
            Ok(false) => return Err(RecFault::SeatTaken),
            Err(_) => return Err(RecFault::OutOfMemory),
        }
        let share = self.rest.split_off(1, 0);
        self.left -= 1;
        Ok(Seat::new(thread, share))
    }

    /// Adds the line that begins a call.
    pub(crate) fn begin(&mut self, thread: u32, call: &Call) -> Result<(), RecFault>
        requires lane { lane thread ≡ L.host }
        requires aims { Aims L.host (aim call.now) }
        requires within { IsCallWithin call.now }
    {
        if self.stopped {
            return Err(RecFault::Stopped);
        }
        let clock = self.clock;
        let Held { book, .. } = &mut self.held;
        let Some(tick) = next_tick(book, clock, 0) else {
            return Err(RecFault::Stopped);
        };
        if !book.is_idle(thread) {
            return Err(RecFault::Stopped);
        }
        book.begin(thread, call, tick)?;
        Ok(())
    }

    /// Ends the seat's open call if it may have its effect.
    pub(crate) fn attempt(&mut self, seat: &mut Seat<L>) -> Result<Option<Receipt>, RecFault>
        requires lane { lane seat.old.thread ≡ L.host }
        ensures some { IfOk result (λ o. IfSome o (λ r.
            (r.answered.thread ≡ seat.old.thread) × (r.index ≡ seat.old.count)
            × (seat.new.count ≡ seat.old.count + 1))) }
        ensures none { IfOk result (λ o. IfNone o (seat.new.count ≡ seat.old.count)) }
        ensures err { OnErr result (seat.new.count ≡ seat.old.count) }
        ensures thread { seat.new.thread ≡ seat.old.thread }
    {
        if self.stopped {
            return Err(RecFault::Stopped);
        }
        let clock = self.clock;
        let Desk { held, counts, .. } = self;
        let Held { book, .. } = held;
        let Some(tick) = next_tick(book, clock, 0) else {
            return Err(RecFault::Stopped);
        };
        let Ok(outcome) = book.attempt(seat.thread(), tick) else {
            return Err(RecFault::OutOfMemory);
        };
        match outcome {
            Some(answered) => {
                let index = seat.count_one(counts);
                Ok(Some(Receipt { answered, index }))
            }
            None => Ok(None),
        }
    }

    /// Sends the next segment of the host. None: there is none.
    pub(crate) fn pump(&mut self) -> Result<Option<Flying>, LoopEnd> {
        if self.stopped {
            return Err(LoopEnd::Stopped);
        }
        let clock = self.clock;
        let Held { book, .. } = &mut self.held;
        let Some(tick) = next_tick(book, clock, 0) else {
            return Err(LoopEnd::Stopped);
        };
        Ok(book.pump(tick)?)
    }

    /// A segment of the other host arrives. The result is whether it was accepted.
    pub(crate) fn arrive(&mut self, flying: Flying) -> Result<bool, LoopEnd> {
        if self.stopped {
            return Err(LoopEnd::Stopped);
        }
        let Key {
            moment,
            counter,
            ..
        } = flying.key();
        let moment = moment.max(self.clock);
        let Held { book, .. } = &mut self.held;
        let Some(tick) = next_tick(book, moment, counter) else {
            return Err(LoopEnd::Stopped);
        };
        Ok(book.arrive(flying, tick)?)
    }

    /// A turn of the timers: the clock advances, and a timer that is due expires. The result is whether there was one.
    pub(crate) fn timers(&mut self) -> Result<bool, LoopEnd> {
        if self.stopped {
            return Err(LoopEnd::Stopped);
        }
        let clock = self.clock.saturating_add(CLOCK_STEP);
        self.clock = clock;
        let Held { book, .. } = &mut self.held;
        let Some(tick) = next_tick(book, clock, 0) else {
            return Err(LoopEnd::Stopped);
        };
        Ok(book.timers(tick)?)
    }

    /// The book, if all seats are handed in.
    pub(crate) fn close(self, seats: Vec<Seat<L>>) -> HostBook
        requires parts { L.parts ≡ 65535 }
        requires all { 65535 ≤ length seats.items + self.left }
        ensures host { result.core.recorded.me ≡ L.host }
        ensures header { result.core.recorded.header ≡ L.header }
        ensures total { result.total ≡ sum_by (λ s. s.count) seats.items }
    {
        let Desk {
            held,
            mut counts,
            rest,
            ..
        } = self;
        let Held { book, .. } = held;
        let mut all = gather(rest, seats);
        counts.audit(&mut all);
        book
    }
}

// The threads of arriving segments, of timers and of sent segments, of both hosts: 4 to 9.
fn is_reserved(thread: u32) -> bool
    ensures { IsTrue result ↔ IsReserved thread }
{
    (4..=9).contains(&thread)
}

// All parts in one share.
fn gather<L: Site>(mut rest: Share<L>, seats: Vec<Seat<L>>) -> Share<L>
    requires idle { rest.amount ≡ 0 }
    requires fits { rest.parts ≤ L.parts }
    ensures parts { result.parts ≡ rest.parts + length seats.items }
    ensures amount { result.amount ≡ sum_by (λ s. s.count) seats.items }
    ensures fits { result.parts ≤ L.parts }
{
    for seat in seats {
        seat.give_up(&mut rest);
    }
    rest
}
