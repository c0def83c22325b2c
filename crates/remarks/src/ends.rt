//! What is left at the end of a case.

use crate::found::{AT_THE_END, Found, Stretch, Who};
use crate::notes::Note;
use crate::review::{Review, call_in};
use crate::waits::{Now, say_late, say_shut, say_stall};
use case_forms::{Host, OutOfMemory};
use endpoint_state::World;
use plain_words::CallWords;
use spec_tcp::{Endpoint, Fault};
use std::alloc::Global;
use verdict::Verdict;

impl Review<'_> {
    /// Adds what was counted up to here, and if the case is a yes, what is left at its end.
    pub(crate) fn finish(&mut self, alloc: Global, world: &World) -> Result<(), OutOfMemory> {
        for again in self.again.values() {
            again.say(&mut self.found)?;
        }
        for note in self.notes.values() {
            if let Some(chain) = note.chain {
                chain.say(&mut self.found)?;
            }
            if let Some(burst) = note.burst {
                burst.say(&mut self.found)?;
            }
            note.say_equal_acks(&mut self.found)?;
            note.say_blockless(&mut self.found)?;
        }
        if let Ok(Verdict::Yes { .. }) = self.case.verdict {
            self.say_left(alloc, world)?;
            self.say_calls()?;
        }
        Ok(())
    }

    // Remarks on what endpoints have left.
    fn say_left(&mut self, alloc: Global, world: &World) -> Result<(), OutOfMemory> {
        let (line, moment) = (AT_THE_END, self.moment);
        for ((host, number), note) in self.notes.iter() {
            let host = if *host == 0 { Host::Zero } else { Host::One };
            if let Some(endpoint) = world.body(host).endpoint_at(*number) {
                let who = Who::from_endpoint(host, endpoint);
                let now = Now { line, moment, who };
                note.say_left(alloc, &mut self.found, now, endpoint)?;
            }
        }
        Ok(())
    }

    // Remarks on the calls that didn't end.
    fn say_calls(&mut self) -> Result<(), OutOfMemory> {
        for (&thread, &line) in self.calls.iter() {
            if let Some(call) = call_in(self.case, line) {
                let who = Who::Call { thread, line };
                let call = &CallWords(call);
                self.found.add(AT_THE_END, who, "never returned:", call)?;
            }
        }
        Ok(())
    }
}

impl Note {
    // Remarks on what an endpoint has left.
    fn say_left(
        &self,
        alloc: Global,
        found: &mut Found,
        now: Now,
        endpoint: &Endpoint,
    ) -> Result<(), OutOfMemory> {
        let is_closed = endpoint.state.is_closed();
        let has_given_up = is_closed && matches!(endpoint.fault, Some(Fault::Timeout));
        if !is_closed {
            say_late(found, now, self)?;
            say_stall(found, now, self.stall)?;
            say_shut(found, now, self.shut)?;
        }
        if !is_closed || has_given_up {
            say_unacknowledged(found, now.who, endpoint, self.sent_end)?;
        }
        if !is_closed {
            say_unsent(found, now.who, endpoint, self.sent_end)?;
        }
        let is_acknowledged = endpoint.stream.ended
            && endpoint.stream.accepted.end() < endpoint.stream.snd_una;
        let has_failed = is_closed && (endpoint.fault.is_some() || !is_acknowledged);
        if self.aborted || has_failed {
            return Ok(());
        }
        say_undelivered(alloc, found, now.who, endpoint)
    }
}

// Remarks on what was sent, up to this position, and wasn't acknowledged.
fn say_unacknowledged(
    found: &mut Found,
    who: Who,
    endpoint: &Endpoint,
    sent_end: u64,
) -> Result<(), OutOfMemory> {
    let (end, una) = (endpoint.stream.accepted.end(), endpoint.stream.snd_una);
    let does = "received no acknowledgment of";
    if let Some(bytes) = Stretch::up_to(una.max(1), sent_end.min(end)) {
        found.add(AT_THE_END, who, does, &bytes)?;
    }
    if endpoint.stream.ended && una <= end && end < sent_end {
        let fin = &format_args!("its FIN (position {end})");
        found.add(AT_THE_END, who, does, fin)?;
    }
    Ok(())
}

// Remarks on what wasn't sent, which begins at this position.
fn say_unsent(
    found: &mut Found,
    who: Who,
    endpoint: &Endpoint,
    sent_end: u64,
) -> Result<(), OutOfMemory> {
    let end = endpoint.stream.accepted.end();
    if let Some(bytes) = Stretch::up_to(sent_end.max(1), end) {
        found.add(AT_THE_END, who, "accepted but never sent", &bytes)?;
    }
    if endpoint.stream.ended && sent_end <= end {
        let fin = &format_args!("its FIN (position {end})");
        found.add(AT_THE_END, who, "ended sending but never sent", fin)?;
    }
    Ok(())
}

// Remarks on the bytes that an endpoint received in order and its program wasn't given.
fn say_undelivered(
    alloc: Global,
    found: &mut Found,
    who: Who,
    endpoint: &Endpoint,
) -> Result<(), OutOfMemory> {
    let received = &endpoint.stream.receive;
    let waiting = received.read(alloc, usize::MAX)?.len() as u64;
    let fin = u64::from(received.is_ended());
    let end = received.next().saturating_sub(fin);
    match Stretch::up_to(end.saturating_sub(waiting), end) {
        Some(bytes) => found.add(AT_THE_END, who, "received but never delivered", &bytes),
        None => Ok(()),
    }
}
