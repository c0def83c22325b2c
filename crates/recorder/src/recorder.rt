//! A recorder: a host's book under a lock, and the ledger of what its seats were answered.

ghost use Rattle.std.specs.Prelude.{◌≡◌, ◌+◌, ◌<◌, IfOk, IfErr, OnOk, OnErr, sum_by, length};
ghost use Rattle.std.specs.Fn.{FnOnceReturnsAt};
ghost use Rattle.spec_network.specs.Tables.{lane};
ghost use Rattle.spec_tcp.specs.Machine.{aim};
ghost use Rattle.spec_merge.specs.Books.{Aims};
ghost use Rattle.stack_core.specs.Cores.{IsCallWithin};
ghost use Rattle.recorder.specs.declared.recorder.Cause.TheVariants.{SeatMissing};
ghost use Rattle.recorder.specs.Seats.{IsReserved};
ghost use Rattle.recorder.specs.Views.{BookView};

use crate::desk::Desk;
use crate::host_book::HostBook;
use crate::receipt::Receipt;
use crate::seat::Seat;
use crate::seats::Seats;
use crate::site::Site;
use case_forms::{Call, Header, Host, OutOfMemory};
use stack_core::CoreConfig;
use std::alloc::Global;
use std::sync::ledger::Blank;
use std::sync::{Condvar, Mutex, Wait};
use thiserror::Error;

/// Why a seat or a call was refused.
#[derive(Clone, Copy, Debug, PartialEq, Eq, Error)]
pub enum RecFault {
    /// The recorder was stopped, its host had 10,000,000 events, its next tick would pass the limits, or the seat has a
    /// pending call. The seat is as it was.
    #[error("the recorder is stopped")]
    Stopped,
    /// Memory ran out. A call whose beginning was recorded stays pending.
    #[error("out of memory")]
    OutOfMemory,
    /// The thread has a seat, or is a thread of segments or timers; or there were 65,535 seats.
    #[error("the seat is taken")]
    SeatTaken,
}

impl From<OutOfMemory> for RecFault {
    fn from(_: OutOfMemory) -> RecFault {
        RecFault::OutOfMemory
    }
}

/// Why a recorder is not finished.
#[derive(Clone, Copy, Debug, PartialEq, Eq, Error)]
pub enum Cause {
    /// A seat is missing among those that were handed in.
    #[error("a seat is missing")]
    SeatMissing,
    /// Memory ran out.
    #[error("out of memory")]
    OutOfMemory,
}

/// A recorder that is not finished, with the seats that were handed in.
#[derive(Drop)]
pub struct Unfinished<L: Site> {
    pub recorder: Recorder<L>,
    pub seats: Seats<L>,
    pub cause: Cause,
}

/// The recorder of one host.
#[derive(Drop)]
pub struct Recorder<L: Site> {
    pub(crate) desk: Mutex<Desk<L>>,
    // Notified after each event: it may be what a call waits for.
    pub(crate) moved: Condvar,
    pub(crate) alloc: Global,
}

impl<L: Site> Recorder<L> {
    /// The recorder of a host that recorded nothing yet.
    pub fn new(
        alloc: Global,
        host: Host,
        header: Header,
        config: CoreConfig,
        blank: Blank,
    ) -> Recorder<L>
        requires name { blank.name ≡ L.name }
        requires parts { (blank.parts ≡ L.parts) × (L.parts ≡ 65535) }
        requires host { host ≡ L.host }
        requires header { header ≡ L.header }
    {
        Recorder {
            desk: Mutex::new(Desk::new(alloc, host, header, config, blank)),
            moved: Condvar::new(),
            alloc,
        }
    }

    /// A seat for a thread of this host. Host 0's threads have even numbers, host 1's odd ones.
    pub fn seat<R: Wait>(&self, rt: &R, thread: u32) -> Result<Seat<L>, RecFault>
        ensures seat { IfOk result (λ s. (s.thread ≡ thread) × (s.count ≡ 0)) }
        ensures reserved { OnOk result (IsReserved thread → ⊥) }
    {
        self.desk.lock(rt).seat(thread)
    }

    /// A call of the seat's thread, which means this host or a socket number of its own. It waits until the call has
    /// its effect. If it is refused, the seat's count stays as it was.
    pub fn call<R: Wait>(&self, rt: &R, seat: &mut Seat<L>, call: Call) -> Result<Receipt, RecFault>
        requires lane { lane seat.old.thread ≡ L.host }
        requires aims { Aims L.host (aim call) }
        requires within { IsCallWithin call }
        ensures receipt { IfOk result (λ r. (r.answered.thread ≡ seat.old.thread) × (r.index ≡ seat.old.count)) }
        ensures counted { OnOk result (seat.new.count ≡ seat.old.count + 1) }
        ensures err { OnErr result (seat.new.count ≡ seat.old.count) }
        ensures thread { seat.new.thread ≡ seat.old.thread }
    {
        self.desk.lock(rt).begin(seat.thread(), &call)?;
        let mut desk = self.desk.lock(rt);
        for _ in rt.forever() {
            if let Some(receipt) = desk.attempt(seat)? {
                self.moved.notify_all();
                return Ok(receipt);
            }
            desk = self.moved.wait(rt, desk);
        }
        unreachable!()
    }

    /// Calls a reader with the book, under the lock: a book of this recorder's host, under its header.
    pub fn look<R: Wait, T, F: FnOnce(&HostBook) -> T>(&self, rt: &R, f: F) -> T
        requires { F.IsAlwaysCallable f }
        ensures { (b : BookView) × ((b.core.recorded.me ≡ L.host) × (b.core.recorded.header ≡ L.header)
            × FnOnceReturnsAt F.FnOnce f b result) }
    {
        let desk = self.desk.lock(rt);
        f(desk.book())
    }

    /// Stops the recording: no event follows, calls that wait are refused, and the loops end.
    pub fn stop<R: Wait>(&self, rt: &R) {
        self.desk.lock(rt).stop();
        self.moved.notify_all();
    }

    /// Ends the recording, if all seats are handed in. The book's total is the sum of their counts. There are 65,535
    /// seats, so none is missing from a list of that many.
    pub fn finish<R: Wait>(self, rt: &R, seats: Vec<Seat<L>>) -> Result<HostBook, Unfinished<L>>
        requires { L.parts ≡ 65535 }
        ensures host { IfOk result (λ b. b.core.recorded.me ≡ L.host) }
        ensures header { IfOk result (λ b. b.core.recorded.header ≡ L.header) }
        ensures total { IfOk result (λ b. b.total ≡ sum_by (λ s. s.count) seats.items) }
        ensures back { IfErr result (λ u. u.seats ≡ seats.items) }
        ensures cause { IfErr result (λ u. u.cause ≡ SeatMissing) }
        ensures missing { OnErr result (length seats.items < 65535) }
    {
        let _ = rt;
        let Recorder { desk, moved, alloc } = self;
        let desk = desk.into_inner();
        if !desk.are_all(seats.as_slice()) {
            return Err(Unfinished {
                recorder: Recorder {
                    desk: Mutex::new(desk),
                    moved,
                    alloc,
                },
                seats: Seats::new(seats),
                cause: Cause::SeatMissing,
            });
        }
        Ok(desk.close(seats))
    }
}
