//! An application thread.

ghost use Rattle.std.specs.Prelude.{◌≡◌, IfOk};
ghost use Rattle.spec_network.specs.Tables.{lane};
ghost use Rattle.spec_tcp.specs.Machine.{aim};
ghost use Rattle.spec_merge.specs.Books.{Aims};
ghost use Rattle.stack_core.specs.Cores.{IsCallWithin};

use case_forms::{Answer, Call, OutOfMemory};
use recorder::{RecFault, Receipt, Recorder, Seat, Site};
use std::alloc::Global;
use std::sync::Wait;

/// Why an application ended early.
#[derive(Clone, Copy)]
pub(crate) enum Halt {
    /// A call was refused, or had an answer that the application can't continue with.
    Refused,
    /// Memory ran out.
    OutOfMemory,
}

impl From<OutOfMemory> for Halt {
    fn from(_: OutOfMemory) -> Halt {
        Halt::OutOfMemory
    }
}

impl From<RecFault> for Halt {
    fn from(fault: RecFault) -> Halt {
        match fault {
            RecFault::OutOfMemory => Halt::OutOfMemory,
            RecFault::Stopped | RecFault::SeatTaken => Halt::Refused,
        }
    }
}

// A socket number of the thread's own host.
#[tactic(auto, using(crate::proofs::Lanes::same_lane))]
fn own_socket(thread: u32, socket: u32) -> Result<u32, Halt>
    ensures { IfOk result (λ n. lane n ≡ lane thread) }
{
    if socket % 2 != thread % 2 {
        return Err(Halt::Refused);
    }
    Ok(socket)
}

/// One application thread, with the answers of its calls.
#[derive(Drop)]
pub(crate) struct Caller<L: Site> {
    seat: Seat<L>,
    receipts: Vec<Receipt>,
}

impl<L: Site> Caller<L> {
    /// A thread with that seat, before its first call.
    pub(crate) fn new(alloc: Global, seat: Seat<L>) -> Caller<L>
        ensures { result.seat.thread ≡ seat.thread }
    {
        Caller {
            seat,
            receipts: Vec::new(alloc),
        }
    }

    /// Its seat, and the answers of its calls.
    pub(crate) fn leave(self) -> (Seat<L>, Vec<Receipt>) {
        let Caller { seat, receipts } = self;
        (seat, receipts)
    }

    /// Makes a call.
    pub(crate) fn ask<R: Wait>(
        &mut self,
        rt: &R,
        recorder: &Recorder<L>,
        call: Call,
    ) -> Result<(), Halt>
        requires lane { lane self.old.seat.thread ≡ L.host }
        requires aims { Aims L.host (aim call) }
        requires within { IsCallWithin call }
        ensures thread { self.new.seat.thread ≡ self.old.seat.thread }
    {
        self.receipts.reserve(1)?;
        let receipt = recorder.call(rt, &mut self.seat, call)?;
        self.receipts.push_reserved(receipt);
        Ok(())
    }

    /// The answer of the last call. None: there was no call.
    pub(crate) fn answer(&self) -> Option<&Answer> {
        let last = self.receipts.last()?;
        Some(last.answered.answer())
    }

    /// Makes a call that is answered by a socket number of its own host.
    pub(crate) fn socket<R: Wait>(
        &mut self,
        rt: &R,
        recorder: &Recorder<L>,
        call: Call,
    ) -> Result<u32, Halt>
        requires lane { lane self.old.seat.thread ≡ L.host }
        requires aims { Aims L.host (aim call) }
        requires within { IsCallWithin call }
        ensures thread { self.new.seat.thread ≡ self.old.seat.thread }
        ensures own { IfOk result (λ socket. lane socket ≡ L.host) }
    {
        self.ask(rt, recorder, call)?;
        let socket = self.number()?;
        own_socket(self.seat.thread(), socket)
    }

    /// The number in the last call's answer.
    pub(crate) fn number(&self) -> Result<u32, Halt> {
        match self.answer() {
            Some(Answer::Given(number)) => Ok(*number),
            _ => Err(Halt::Refused),
        }
    }

    /// Makes a call that is answered `ok`.
    pub(crate) fn ask_ok<R: Wait>(
        &mut self,
        rt: &R,
        recorder: &Recorder<L>,
        call: Call,
    ) -> Result<(), Halt>
        requires lane { lane self.old.seat.thread ≡ L.host }
        requires aims { Aims L.host (aim call) }
        requires within { IsCallWithin call }
        ensures thread { self.new.seat.thread ≡ self.old.seat.thread }
    {
        self.ask(rt, recorder, call)?;
        match self.answer() {
            Some(Answer::Done) => Ok(()),
            _ => Err(Halt::Refused),
        }
    }
}
