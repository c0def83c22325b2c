//! The loops of a host: its segments are sent, those of the other host arrive, its timers expire.

use crate::fate::{Fate, LoseEach, WireFate};
use crate::held_back::HeldBack;
use crate::recorder::Recorder;
use crate::site::Site;
use case_forms::OutOfMemory;
use crossbeam_channel::{Receiver, SendError, Sender};
use stack_core::Flying;
use std::alloc::Global;
use std::sync::Wait;
use std::thread;

/// Why a loop ended.
#[derive(Clone, Copy)]
pub enum LoopEnd {
    /// The recorder was stopped, its host had 10,000,000 events, or its next tick would pass the limits.
    Stopped,
    /// It had all its turns.
    Turns,
    /// The other end of the channel is gone.
    Closed,
    /// Memory ran out.
    OutOfMemory,
}

impl From<OutOfMemory> for LoopEnd {
    fn from(_: OutOfMemory) -> LoopEnd {
        LoopEnd::OutOfMemory
    }
}

// Sends a segment.
fn send<R: Wait>(rt: &R, out: &Sender<Flying, Global>, flying: Flying) -> Result<(), LoopEnd> {
    match out.send(rt, flying) {
        Ok(()) => Ok(()),
        Err(error) => Err(why_unsent(error)),
    }
}

// Why a segment wasn't sent.
fn why_unsent(error: SendError<Flying>) -> LoopEnd {
    let end = match &error {
        SendError::Disconnected(_) => LoopEnd::Closed,
        SendError::OutOfMemory(_) => LoopEnd::OutOfMemory,
    };
    drop(error);
    end
}

// Sends a segment twice, but once if there is no memory for the copy.
fn send_twice<R: Wait>(
    rt: &R,
    out: &Sender<Flying, Global>,
    flying: Flying,
) -> Result<(), LoopEnd> {
    if let Ok(copy) = flying.copy() {
        if let Err(end) = send(rt, out, copy) {
            drop(flying);
            return Err(end);
        }
    }
    send(rt, out, flying)
}

// Applies a segment's fate to it.
fn apply_fate<R: Wait>(
    rt: &R,
    out: &Sender<Flying, Global>,
    held: &mut HeldBack<Flying>,
    flying: Flying,
    fate: Fate,
) -> Result<(), LoopEnd> {
    match fate {
        Fate::Pass => send(rt, out, flying),
        Fate::Lose => Ok(()),
        Fate::Twice => send_twice(rt, out, flying),
        Fate::Hold(further) => Ok(held.hold(further, flying)?),
    }
}

impl<L: Site> Recorder<L> {
    // One event under the lock, after which calls that wait look again.
    fn pump_once<R: Wait>(&self, rt: &R) -> Result<Option<Flying>, LoopEnd> {
        let outcome = self.desk.lock(rt).pump();
        if let Ok(Some(_)) = &outcome {
            self.moved.notify_all();
        }
        outcome
    }

    fn arrive_once<R: Wait>(&self, rt: &R, flying: Flying) -> Result<bool, LoopEnd> {
        let outcome = self.desk.lock(rt).arrive(flying);
        self.moved.notify_all();
        outcome
    }

    fn timers_once<R: Wait>(&self, rt: &R) -> Result<bool, LoopEnd> {
        let outcome = self.desk.lock(rt).timers();
        if let Ok(true) = &outcome {
            self.moved.notify_all();
        }
        outcome
    }

    // Pumps once, and applies its fate to the segment. The result is whether there was one.
    fn pump_turn<R: Wait, F: WireFate>(
        &self,
        rt: &R,
        out: &Sender<Flying, Global>,
        held: &mut HeldBack<Flying>,
        fate: &mut F,
    ) -> Result<bool, LoopEnd> {
        let Some(flying) = self.pump_once(rt)? else {
            return Ok(false);
        };
        held.count();
        apply_fate(rt, out, held, flying, fate.next())?;
        for _ in 0..held.len() {
            let Some(late) = held.take_due() else {
                break;
            };
            send(rt, out, late)?;
        }
        Ok(true)
    }

    /// Sends the host's segments, each according to its fate, in at most this many turns. A turn without a segment ends
    /// by yielding. The sender is dropped when the loop ends.
    pub fn pump_loop_by<R: Wait, F: WireFate + Drop>(
        &self,
        rt: &R,
        out: Sender<Flying, Global>,
        mut fate: F,
        turns: u64,
    ) -> LoopEnd {
        let mut held = HeldBack::new(self.alloc);
        for _ in 0..turns {
            match self.pump_turn(rt, &out, &mut held, &mut fate) {
                Ok(true) => {}
                Ok(false) => thread::yield_now(),
                Err(end) => return end,
            }
        }
        LoopEnd::Turns
    }

    /// The same, but each `lose`-th segment is lost, or none if `lose` is 0. A lost segment still has its line.
    pub fn pump_loop<R: Wait>(
        &self,
        rt: &R,
        out: Sender<Flying, Global>,
        lose: u32,
        turns: u64,
    ) -> LoopEnd {
        self.pump_loop_by(rt, out, LoseEach::new(lose), turns)
    }

    /// Receives the other host's segments, one each turn, waiting for each, until the sender is gone.
    pub fn receive_loop<R: Wait>(
        &self,
        rt: &R,
        from: Receiver<Flying, Global>,
        turns: u64,
    ) -> LoopEnd {
        for _ in 0..turns {
            let Ok(flying) = from.recv(rt) else {
                return LoopEnd::Closed;
            };
            if let Err(end) = self.arrive_once(rt, flying) {
                return end;
            }
        }
        LoopEnd::Turns
    }

    /// Advances the host's clock and lets its timers expire, one each turn. A turn ends by yielding.
    pub fn timer_loop<R: Wait>(&self, rt: &R, turns: u64) -> LoopEnd {
        for _ in 0..turns {
            if let Err(end) = self.timers_once(rt) {
                return end;
            }
            thread::yield_now();
        }
        LoopEnd::Turns
    }
}
