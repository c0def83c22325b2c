//! A call has its effect as soon as the model permits the answer that its end shows.

use super::Pass;
use crate::calls::{Meant, Pending, key_of_call, meant_by, supposed_answer};
use crate::findings::MeantCall;
use crate::key::EndpointKey;
use crate::progress::{Progress, Will};
use crate::stop::{Stop, permitted};
use case_forms::{Answer, Call, Event, State, Timer};

// How many calls on one endpoint or listener are tried again at once, so that the search stays linear.
const TRIES: usize = 16;

// The timer that expires if a call has this answer.
fn timer_for(answer: &Answer) -> Option<Timer> {
    match answer {
        Answer::Timeout => Some(Timer::Giveup),
        Answer::State(State::Closed) | Answer::Given(_) => Some(Timer::Msl2),
        Answer::Done
        | Answer::Bytes(_)
        | Answer::Again
        | Answer::Eof
        | Answer::Closed
        | Answer::NotConn
        | Answer::Refused
        | Answer::Reset
        | Answer::InUse
        | Answer::BadSocket
        | Answer::State(_) => None,
    }
}

impl Progress {
    // Writes down what the call of a thread means, which begins at a place.
    fn note_meant(&mut self, place: usize, thread: u32) -> Result<(), Stop> {
        if let Some(key) = key_of_call(self.world(), thread) {
            let meant = &mut self.log.findings.meant;
            meant.push(MeantCall { place, key })?;
        }
        Ok(())
    }
}

impl Pass<'_> {
    /// The current line begins a call; the call has its effect if that's permitted.
    pub(crate) fn begin(&mut self, thread: u32, call: &Call) -> Result<(), Stop> {
        let place = self.progress.log.place();
        self.progress.begin(thread, call)?;
        self.calls.open.insert(thread, place)?;
        self.progress.note_meant(place, thread)?;
        if self.choices.waits(place) {
            return Ok(());
        }
        self.try_first(place, thread, call)
    }

    /// A call has its effect if that's permitted; else it waits.
    pub(crate) fn try_first(&mut self, place: usize, thread: u32, call: &Call) -> Result<(), Stop> {
        let pending = Pending {
            thread,
            begin: place,
            end: self.sought.later.end_of(place),
        };
        let meant = meant_by(self.progress.world(), call);
        if self.has_effect(pending)? {
            return self.wake_after(call, meant);
        }
        self.wait(pending, call, meant)
    }

    // What ends or closes something lets calls go on that wait for it.
    fn wake_after(&mut self, call: &Call, meant: Option<Meant>) -> Result<(), Stop> {
        match call {
            Call::Shut(_) | Call::Close(_) | Call::Abort(_) => match meant {
                Some(meant) => self.wake(meant),
                None => Ok(()),
            },
            Call::Listen(..)
            | Call::Connect(..)
            | Call::Await(_)
            | Call::Accept(_)
            | Call::Send(..)
            | Call::Recv(..)
            | Call::Status(_) => Ok(()),
        }
    }

    // A call waits until it may have its effect.
    fn wait(&mut self, pending: Pending, call: &Call, meant: Option<Meant>) -> Result<(), Stop> {
        match call {
            Call::Connect(host, lport, rport) => {
                self.wait_for_ports(pending, EndpointKey::new(*host, *lport, *rport))
            }
            Call::Listen(..)
            | Call::Await(_)
            | Call::Accept(_)
            | Call::Send(..)
            | Call::Recv(..)
            | Call::Shut(_)
            | Call::Close(_)
            | Call::Abort(_)
            | Call::Status(_) => match meant {
                Some(meant) => Ok(self.calls.put(meant, pending)?),
                None => Ok(()),
            },
        }
    }

    // A call opens an endpoint whose ports are in use: the old one's TIME-WAIT is over, or the call waits.
    fn wait_for_ports(&mut self, pending: Pending, key: EndpointKey) -> Result<(), Stop> {
        self.calls.opens.insert(key, pending)?;
        if self.progress.add_expiry(key, Timer::Msl2)? {
            self.open_again(key)?;
        }
        Ok(())
    }

    /// A call that waits for the ports of an endpoint is tried. The result is whether it had its effect.
    pub(crate) fn open_again(&mut self, key: EndpointKey) -> Result<bool, Stop> {
        let Some(pending) = self.calls.opens.get(&key).copied() else {
            return Ok(false);
        };
        let is_opened = self.calls.is_open(pending.thread, pending.begin)
            && self.has_effect(pending)?;
        if is_opened {
            self.calls.opens.remove(&key);
        }
        Ok(is_opened)
    }

    /// The current line ends a call, which had its effect, or has it now.
    pub(crate) fn end(&mut self, thread: u32, answer: &Answer) -> Result<(), Stop> {
        if self.calls.open.contains_key(&thread) {
            self.effect_now(thread, answer)?;
            self.calls.open.remove(&thread);
        }
        self.progress.finish(thread, answer)?;
        Ok(())
    }

    // The effect of a call that ends here. If it isn't permitted, a timer may have to expire before it.
    fn effect_now(&mut self, thread: u32, answer: &Answer) -> Result<(), Stop> {
        if permitted(self.progress.effect(thread, answer, Will::Try))?.is_some() {
            return Ok(());
        }
        let key = key_of_call(self.progress.world(), thread);
        if let Some(key) = key {
            self.hurry_call(thread, key)?;
        }
        if let (Some(key), Some(timer)) = (key, timer_for(answer)) {
            self.try_expiry(key, timer)?;
        }
        if !self.calls.open.contains_key(&thread) {
            return Ok(());
        }
        self.progress.effect(thread, answer, Will::Insist)
    }

    // What is late at an endpoint is processed until the call of a thread has its effect.
    fn hurry_call(&mut self, thread: u32, key: EndpointKey) -> Result<(), Stop> {
        for _ in 0..self.late.count(key) {
            if !self.calls.open.contains_key(&thread) || !self.hurry(key)? {
                break;
            }
        }
        Ok(())
    }

    // Whether a call has its effect now, with the answer with which it ends.
    fn has_effect(&mut self, pending: Pending) -> Result<bool, Stop> {
        let lines = self.sought.lines;
        let end = pending.end.and_then(|end| lines.get(end));
        match end.map(|line| &line.event) {
            Some(Event::CallEnd(answer)) => self.try_effect(pending.thread, answer),
            _ => Ok(false),
        }
    }

    // Whether the call of a thread has its effect now, with this answer.
    fn try_effect(&mut self, thread: u32, answer: &Answer) -> Result<bool, Stop> {
        let is_done = permitted(self.progress.effect(thread, answer, Will::Try))?.is_some();
        if is_done {
            self.calls.open.remove(&thread);
        }
        Ok(is_done)
    }

    /// Something changed at a listener or an endpoint: the first calls on it are tried. Those that fail wait on.
    pub(crate) fn wake(&mut self, meant: Meant) -> Result<(), Stop> {
        let mut failed: usize = 0;
        for _ in 0..TRIES {
            let Some(pending) = self.calls.ended.get(meant, failed) else {
                break;
            };
            if self.calls.is_open(pending.thread, pending.begin) && !self.has_effect(pending)? {
                failed = failed.saturating_add(1);
            } else {
                self.calls.ended.remove(meant, failed);
            }
        }
        Ok(())
    }

    /// The first call on an endpoint that is open at the end of the trace has its effect. The result is whether it did.
    pub(crate) fn suppose(&mut self, meant: Meant) -> Result<bool, Stop> {
        let Some(pending) = self.calls.unended.remove(meant, 0) else {
            return Ok(false);
        };
        if !self.calls.is_open(pending.thread, pending.begin) {
            return Ok(false);
        }
        let call = self.progress.world().pending_call(pending.thread);
        match call.and_then(supposed_answer) {
            Some(answer) => self.try_effect(pending.thread, &answer),
            None => Ok(false),
        }
    }
}
