//! An arrival is processed, answered by a reset if one follows, or dropped: at once, or late, after segments that were
//! built before.

use super::echoes::Built;
use super::sent_segments::position_of;
use super::{Pass, Sought};
use crate::calls::listener_at;
use crate::choices::Arrival;
use crate::key::EndpointKey;
use crate::late::Waiting;
use crate::later_lines::{Shown, sent_before};
use crate::progress::{Progress, Will, saturated};
use crate::stop::{Stop, permitted};
use case_forms::{Event, Host, TakeChoice, Timer, Wire};
use endpoint::{greatest_taking, matches_sent, reset_of};
use endpoint_state::Endpoint;
use segment::Flag;
use seqno::number;
use spec_tcp::{Arrived, Emission};
use verdict::Rule;

// For how many microseconds an arrival waits for segments that were built before. A capture shows a segment some
// microseconds before the stack processes it, and longer on a busy machine.
const LATE: u64 = 20_000;

// For how many microseconds an acknowledgment may be delayed (RFC 9293, 3.8.6.3).
const DELAY: u64 = 500_000;

// How many duties may change how an arrival is processed.
const DUE: usize = 2;

// Nothing is chosen: an arrival may be processed like this if it may be processed at all.
const BARE: TakeChoice = TakeChoice {
    cwnd: 0,
    keep: false,
    sample: false,
};

// When an arrival is processed.
#[derive(Clone, Copy)]
enum Turn {
    Now,
    /// After other arrivals of this endpoint, or after a segment that was built before and is sent soon.
    Late(EndpointKey),
    /// A segment was built before, but isn't sent soon; or the arrival may not be late.
    TooLate,
}

// How an arrival is processed.
#[derive(Clone, Copy)]
struct Processing {
    /// The endpoint for which it is meant.
    key: EndpointKey,
    choice: TakeChoice,
    /// The position below which it acknowledges everything.
    ack: u64,
}

// Whether a segment acknowledges exactly what its sender received, or nothing if that has met no peer.
fn acknowledges_next(endpoint: &Endpoint, wire: &Wire) -> bool {
    match endpoint.irs {
        Some(irs) => wire.seg.has(Flag::Ack) && wire.seg.ack == number(irs, endpoint.rcv_nxt()),
        None => !wire.seg.has(Flag::Ack) && !wire.seg.has(Flag::Rst),
    }
}

// Whether a segment was built before its sender processes an arrival: it acknowledges less, or contains what the
// arrival acknowledges. If so, the result is whether the arrival changes what is acknowledged. `is_open`: it may do so.
fn built_before(endpoint: &Endpoint, m: &Arrived<'_>, wire: &Wire, is_open: bool) -> Option<bool> {
    let seg = &wire.seg;
    let end = u128::from(m.pos()) + m.length();
    let next = is_open && m.pos() <= endpoint.rcv_nxt() && u128::from(endpoint.rcv_nxt()) < end;
    if next && acknowledges_next(endpoint, wire) {
        return Some(next);
    }
    let acknowledges = m.flags().ack && endpoint.stream.snd_una < m.ack();
    let has_length = !seg.payload.is_empty() || seg.has(Flag::Fin) || seg.has(Flag::Syn);
    let contains = acknowledges && has_length && position_of(endpoint, seg.seq)? < m.ack();
    contains.then_some(next)
}

// Whether a segment is the reset that answers an arrival.
fn is_answer(sought: Sought<'_>, m: &Emission, wire: &Wire) -> bool {
    let reset = reset_of(sought.alloc, m);
    matches_sent(sought.header, wire, &reset)
}

impl Progress {
    // Drops an arrival, unless a duty requires it to be processed.
    fn try_dropping(&mut self, host: Host, line: u64) -> Result<bool, Stop> {
        match self.drop_arrival(host, line, Will::Try) {
            Err(Stop::Broken(Rule::Dropped)) if !self.log.forgives => return Ok(false),
            Err(Stop::Broken(_)) => self.drop_arrival(host, line, Will::Insist)?,
            done => done?,
        }
        Ok(true)
    }

    // Processes an arrival. If a duty requires it to be kept, or its round trip to be measured, that is done; but what
    // isn't kept is dropped if that's permitted. The result is whether it was processed.
    fn take_as_due(&mut self, host: Host, line: u64, choice: TakeChoice) -> Result<bool, Stop> {
        let mut due = choice;
        for _ in 0..DUE {
            match self.take(host, line, due, Will::Try) {
                Err(Stop::Broken(Rule::Discarded)) if !self.log.forgives => {
                    if self.drops_instead(host, line)? {
                        return Ok(false);
                    }
                    due.keep = true;
                }
                Err(Stop::Broken(Rule::SampleDue)) => due.sample = true,
                Err(Stop::Broken(_)) => break,
                Ok(()) => return Ok(true),
                Err(stop) => return Err(stop),
            }
        }
        self.take(host, line, due, Will::Insist)?;
        Ok(true)
    }

    // Drops an arrival that may not be processed without being kept. From version 6 on, that's permitted if its
    // acknowledgment or its timestamp is too old (RFC 5961, 5.2; RFC 7323, 5.3). The result is whether it was dropped.
    fn drops_instead(&mut self, host: Host, line: u64) -> Result<bool, Stop> {
        if !self.world().header().version.says_sender() {
            return Ok(false);
        }
        Ok(permitted(self.drop_arrival(host, line, Will::Try))?.is_some())
    }

    // Processes an arrival of which nothing is kept, or drops it. The result is whether one of these is permitted.
    fn try_discarding(&mut self, host: Host, line: u64) -> Result<bool, Stop> {
        let how = Arrival {
            is_not_kept: true,
            ..Arrival::default()
        };
        let Some(Processing { key, choice, ack }) = self.processing(host, line, how) else {
            return Ok(false);
        };
        if self.try_taking(host, line, choice)? {
            self.acknowledge(key, ack);
            return Ok(true);
        }
        self.drops_instead(host, line)
    }

    // Processes an arrival, and measures its round trip if a duty requires that. The result is whether that's
    // permitted.
    fn try_taking(&mut self, host: Host, line: u64, choice: TakeChoice) -> Result<bool, Stop> {
        match self.take(host, line, choice, Will::Try) {
            Err(Stop::Broken(Rule::SampleDue)) => {
                let due = TakeChoice {
                    sample: true,
                    ..choice
                };
                Ok(permitted(self.take(host, line, due, Will::Try))?.is_some())
            }
            done => Ok(permitted(done)?.is_some()),
        }
    }

    // Whether an arrival may be processed now.
    fn may_process(&self, host: Host, line: u64) -> bool {
        let moment = self.moment();
        self.world().admits_taking(host, moment, line, BARE).is_ok()
    }

    // How an arrival is processed: with the greatest choice that is permitted in the ways of its host.
    fn processing(&self, host: Host, line: u64, how: Arrival) -> Option<Processing> {
        let world = self.world();
        let moment = self.moment();
        let (key, m) = self.waiting(host, line)?;
        let ack = self.acknowledged(key, m);
        let mut choice = TakeChoice {
            cwnd: self.greatest_window(key, m, how),
            keep: !how.is_not_kept,
            sample: !how.is_unmeasured && self.log.ways.measures(key, ack),
        };
        match world.admits_taking(host, moment, line, choice) {
            Ok(()) => {}
            Err(Rule::Sample) => {
                choice.sample = false;
                world.admits_taking(host, moment, line, choice).ok()?;
            }
            Err(_) => return None,
        }
        Some(Processing { key, choice, ack })
    }

    // The position below which a segment acknowledges everything; 0 if it acknowledges nothing.
    fn acknowledged(&self, key: EndpointKey, m: &Emission) -> u64 {
        match self.read(key, m) {
            Some((_, read)) if read.flags().ack => read.ack(),
            _ => 0,
        }
    }

    // The greatest congestion window with which a segment may be processed in the ways of its host, which may have to
    // stay as it is; 0 at a listener.
    fn greatest_window(&self, key: EndpointKey, m: &Emission, how: Arrival) -> u32 {
        let Some((endpoint, read)) = self.read(key, m) else {
            return 0;
        };
        let greatest = saturated(greatest_taking(endpoint, &read, self.moment()));
        let greatest = self.log.ways.window(key, endpoint, &read, greatest);
        if how.is_not_grown {
            greatest.min(endpoint.control.values.cwnd)
        } else {
            greatest
        }
    }

    // A SYN finds an endpoint whose TIME-WAIT is over.
    fn leaves_time_wait(&mut self, host: Host, line: u64) -> Result<bool, Stop> {
        let Some((key, m)) = self.waiting(host, line) else {
            return Ok(false);
        };
        let endpoint = self.endpoint(key);
        let is_over = m.flags.syn && endpoint.is_some_and(|endpoint| endpoint.state.is_time_wait());
        Ok(is_over && self.add_expiry(key, Timer::Msl2)?)
    }
}

impl<'t> Pass<'t> {
    /// The current line shows an arrival.
    pub(crate) fn receive(&mut self, host: Host, wire: &'t Wire) -> Result<(), Stop> {
        let place = self.progress.log.place();
        let how = self.choices.arrival(place);
        let line = self.bring_in(host, wire, how)?;
        if self.progress.widening(host, line).is_some() {
            self.progress.log.findings.beyond.push(place)?;
        }
        let moment = self.progress.moment();
        let waiting = Waiting {
            place,
            host,
            line,
            moment,
        };
        if self.choices.waits(place) {
            self.waiting.insert(place, waiting)?;
            return Ok(());
        }
        self.take_turn(waiting, how)
    }

    /// An arrival is processed, unless others are late at its endpoint, or it is late itself.
    pub(crate) fn take_turn(&mut self, waiting: Waiting, how: Arrival) -> Result<(), Stop> {
        let turn = if how.may_be_late() {
            self.turn_of(waiting)
        } else {
            Turn::TooLate
        };
        match turn {
            Turn::Now => self.process(waiting.host, waiting.line, how),
            Turn::Late(key) => {
                self.progress.log.findings.late.push(waiting.place)?;
                Ok(self.late.put(key, waiting)?)
            }
            Turn::TooLate => self.resolve_arrival(waiting.host, waiting.line, how),
        }
    }

    // When an arrival is processed that just came.
    fn turn_of(&self, waiting: Waiting) -> Turn {
        let Some((key, _)) = self.progress.waiting(waiting.host, waiting.line) else {
            return Turn::Now;
        };
        if self.late.first(key).is_some() {
            return Turn::Late(key);
        }
        match self.earlier(waiting.host, waiting.line) {
            None => Turn::Now,
            Some((shown, is_needed)) if self.is_soon(shown, waiting, is_needed) => Turn::Late(key),
            Some(_) => Turn::TooLate,
        }
    }

    // Whether a segment is sent soon after an arrival. `is_needed`: it shows that the arrival waited.
    fn is_soon(&self, shown: Shown<'_>, waiting: Waiting, is_needed: bool) -> bool {
        let longest = match self.progress.slack() {
            Some(slack) if is_needed => slack,
            Some(slack) => slack.min(LATE),
            None => LATE,
        };
        self.moment_of(shown).saturating_sub(waiting.moment) <= longest
    }

    // Whether the next segment of the receiver of an arrival was built before, and is sent soon after it.
    fn is_late(&self, waiting: Waiting) -> bool {
        match self.earlier(waiting.host, waiting.line) {
            Some((shown, is_needed)) => self.is_soon(shown, waiting, is_needed),
            None => false,
        }
    }

    // When a segment is sent.
    fn moment_of(&self, shown: Shown<'_>) -> u64 {
        self.sought
            .lines
            .get(shown.place)
            .map_or(0, |line| line.moment)
    }

    /// An endpoint sent a segment: it processes what is late there, up to the first that was built after the next
    /// segment.
    pub(crate) fn catch_up(&mut self, key: EndpointKey) -> Result<(), Stop> {
        for _ in 0..self.late.count(key) {
            let Some(waiting) = self.late.first(key) else {
                break;
            };
            if self.is_late(waiting) {
                break;
            }
            self.late.remove_first(key);
            let how = self.choices.arrival(waiting.place);
            self.resolve_arrival(waiting.host, waiting.line, how)?;
        }
        Ok(())
    }

    /// An endpoint processes the first arrival that is late there, and what was built before is built now. The result
    /// is whether there was one.
    pub(crate) fn hurry(&mut self, key: EndpointKey) -> Result<bool, Stop> {
        let Some(waiting) = self.late.first(key) else {
            return Ok(false);
        };
        self.late.remove_first(key);
        let mut how = self.choices.arrival(waiting.place);
        how.is_prompt = true;
        self.resolve_arrival(waiting.host, waiting.line, how)?;
        Ok(true)
    }

    /// A mere acknowledgment is built next. In version 6, it answers only what was processed before. So what is late at
    /// its endpoint is processed now, if nothing of it is kept, or dropped.
    pub(crate) fn discard_late(&mut self, key: EndpointKey) -> Result<(), Stop> {
        for _ in 0..self.late.count(key) {
            let Some(waiting) = self.late.first(key) else {
                break;
            };
            if self.is_kept_later(waiting) || !self.try_discarding(waiting)? {
                break;
            }
        }
        Ok(())
    }

    // Whether the segment after the one that is built next shows that an arrival was kept, or was built before it.
    fn is_kept_later(&self, waiting: Waiting) -> bool {
        match self.earlier(waiting.host, waiting.line) {
            Some((_, is_needed)) => !is_needed,
            None => match self.progress.waiting(waiting.host, waiting.line) {
                Some((key, _)) => self.outgoing.next(key).is_some(),
                None => true,
            },
        }
    }

    // Processes the first arrival that is late at its endpoint, of which nothing is kept. The result is whether that's
    // permitted.
    fn try_discarding(&mut self, waiting: Waiting) -> Result<bool, Stop> {
        let Some((key, _)) = self.progress.waiting(waiting.host, waiting.line) else {
            return Ok(false);
        };
        if !self.progress.try_discarding(waiting.host, waiting.line)? {
            return Ok(false);
        }
        self.late.remove_first(key);
        self.wake_receiver(key)?;
        Ok(true)
    }

    // The arrival of the current line waits at its host. The result is the line's number.
    fn bring_in(&mut self, host: Host, wire: &'t Wire, how: Arrival) -> Result<u64, Stop> {
        if self.sought.header.version.is_half() {
            return self.progress.hear(host, wire);
        }
        let sent = self.copies.sent_by(host.other());
        let Some(place) = sent.place(wire.bytes.as_slice()) else {
            return self.progress.arrive(host, 0, wire);
        };
        let copied = self.copied_line(host, wire, place, how);
        let line = self.progress.arrive(host, copied, wire)?;
        let sent = self.copies.sent_by(host.other());
        sent.arrive(place, copied, self.progress.moment());
        Ok(line)
    }

    // The line that an arrival copies: of those with its bytes, which are at this place, the first that has no copy
    // yet, unless others show that it is too old; else the last.
    fn copied_line(&mut self, host: Host, wire: &Wire, place: usize, how: Arrival) -> u64 {
        let moment = self.progress.moment();
        let world = self.progress.world();
        let sent = self.copies.sent_by(host.other());
        if how.is_of_last {
            return sent.last(place).unwrap_or(0);
        }
        for _ in 0..self.sought.lines.len() {
            let Some(line) = sent.first(place, moment) else {
                break;
            };
            match world.admits_arrival(host, moment, line, wire) {
                Err(Rule::Lifetime) => sent.pass(place),
                _ => return line,
            }
        }
        sent.last(place).unwrap_or(0)
    }

    // What was built before an arrival is built, and the arrival is processed, answered or dropped.
    fn resolve_arrival(&mut self, host: Host, line: u64, mut how: Arrival) -> Result<(), Stop> {
        if how.is_dropped && self.progress.try_dropping(host, line)? {
            return Ok(());
        }
        how.is_not_kept |= !self.make_earlier(host, line, how)?;
        self.process(host, line, how)
    }

    // An arrival is processed, or answered or dropped if that isn't permitted.
    fn process(&mut self, host: Host, line: u64, how: Arrival) -> Result<(), Stop> {
        if how.is_widened {
            self.progress.widen(host, line)?;
        }
        if self.is_unanswered(host, line) {
            let dropped = self.progress.drop_arrival(host, line, Will::Try);
            if permitted(dropped)?.is_some() {
                return Ok(());
            }
        }
        if self.try_processing(host, line, how)? {
            return Ok(());
        }
        if self.progress.leaves_time_wait(host, line)? && self.try_processing(host, line, how)? {
            return Ok(());
        }
        self.answer_or_drop(host, line)
    }

    // Whether a SYN that would create an endpoint isn't answered in time, if duties are judged.
    fn is_unanswered(&self, host: Host, line: u64) -> bool {
        let slack = self.progress.slack();
        let (Some(slack), Some((key, m))) = (slack, self.progress.waiting(host, line)) else {
            return false;
        };
        if !m.flags.syn || self.progress.read(key, m).is_some() {
            return false;
        }
        let latest = self
            .progress
            .moment()
            .saturating_add(slack)
            .saturating_add(DELAY);
        match self.outgoing.next(key) {
            Some(shown) => latest < self.moment_of(shown),
            None => true,
        }
    }

    // Answers an arrival by a reset, or drops it.
    fn answer_or_drop(&mut self, host: Host, line: u64) -> Result<(), Stop> {
        if self.try_answer(host, line)? {
            return Ok(());
        }
        match self.progress.drop_arrival(host, line, Will::Try) {
            Err(Stop::Broken(_)) => self.resolve_at_last(host, line),
            done => done,
        }
    }

    // An arrival may not be dropped: it is processed with nothing chosen, or answered by a reset that no line shows.
    fn resolve_at_last(&mut self, host: Host, line: u64) -> Result<(), Stop> {
        let key = self.progress.waiting(host, line).map(|(key, _)| key);
        if let Some(key) = key
            && self.progress.try_taking(host, line, BARE)?
        {
            return self.wake_receiver(key);
        }
        if self.may_stay_unsent()
            && permitted(self.progress.reply_with_reset(host, line))?.is_some()
        {
            return Ok(());
        }
        self.progress.drop_arrival(host, line, Will::Insist)
    }

    /// Whether no duty requires that a segment is sent that is built now.
    pub(crate) fn may_stay_unsent(&self) -> bool {
        sent_before(self.sought.header, self.sought.lines) <= self.progress.moment()
    }

    // Processes an arrival, if that's permitted.
    fn try_processing(&mut self, host: Host, line: u64, how: Arrival) -> Result<bool, Stop> {
        let Some(Processing { key, choice, ack }) = self.progress.processing(host, line, how) else {
            return Ok(false);
        };
        if self.progress.take_as_due(host, line, choice)? {
            self.progress.acknowledge(key, ack);
            self.make_between(key)?;
            self.wake_receiver(key)?;
        }
        Ok(true)
    }

    // Calls on the endpoint that processed a segment are tried, and those on its listener.
    fn wake_receiver(&mut self, key: EndpointKey) -> Result<(), Stop> {
        let endpoint = self.progress.endpoint(key);
        let listener = endpoint.and_then(|endpoint| endpoint.listener);
        self.wake_endpoint(key)?;
        match listener {
            Some(listener) => self.wake(listener_at(key.host(), listener)),
            None => Ok(()),
        }
    }

    // Answers an arrival by a reset, if its receiver sends that reset next.
    fn try_answer(&mut self, host: Host, line: u64) -> Result<bool, Stop> {
        let Some(shown) = self.answer_to(host, line) else {
            return Ok(false);
        };
        let Some(made) = permitted(self.progress.reply_with_reset(host, line))? else {
            return Ok(false);
        };
        self.outgoing.build_reset(shown, made)?;
        Ok(true)
    }

    // The line of the reset that answers an arrival.
    fn answer_to(&self, host: Host, line: u64) -> Option<Shown<'t>> {
        let (key, m) = self.progress.waiting(host, line)?;
        let shown = self.outgoing.next_reset(key)?;
        is_answer(self.sought, m, shown.wire).then_some(shown)
    }

    // Builds what is sent later and was built before this arrival was processed. The result is whether the arrival is
    // kept. It isn't if a segment that doesn't acknowledge it is sent too late to have been built before.
    fn make_earlier(&mut self, host: Host, line: u64, how: Arrival) -> Result<bool, Stop> {
        for _ in 0..self.sought.lines.len() {
            let Some((shown, is_needed)) = self.earlier(host, line) else {
                return Ok(true);
            };
            if (is_needed && !how.is_prompt) || !self.try_making(shown)? {
                return Ok(!is_needed);
            }
        }
        Ok(true)
    }

    // The next segment of the receiver of an arrival, if it was built before, and whether its acknowledgment number
    // shows that.
    fn earlier(&self, host: Host, line: u64) -> Option<(Shown<'t>, bool)> {
        let (key, m) = self.progress.waiting(host, line)?;
        let shown = self.outgoing.next(key)?;
        let (endpoint, read) = self.progress.read(key, m)?;
        // What meets a closed window is dropped and answered, if duties are judged.
        let is_open = self.progress.slack().is_none()
            || 0 < endpoint.receive_window()
            || endpoint.irs.is_none();
        let before = built_before(endpoint, &read, shown.wire, is_open);
        let is_next = acknowledges_next(endpoint, shown.wire);
        let echo = self.progress.echo_shows(key, m, read.pos(), shown.wire);
        match (before, echo) {
            // It was built while the arrival's bytes waited.
            (Some(true), Some(Built::After)) => None,
            // What is dropped need not be echoed.
            (None, Some(Built::Before)) if is_next && self.progress.may_process(host, line) => {
                Some((shown, false))
            }
            _ => Some((shown, before?)),
        }
    }

    // Whether a segment that is built now is sent in time.
    fn is_in_time(&self, shown: Shown<'_>) -> bool {
        let Some(slack) = self.progress.slack() else {
            return true;
        };
        let wait = self.moment_of(shown).saturating_sub(self.progress.moment());
        wait <= slack || self.sought.forgives
    }

    /// Builds a segment before its line. The result is whether that's permitted.
    pub(crate) fn try_making(&mut self, shown: Shown<'t>) -> Result<bool, Stop> {
        if !self.is_in_time(shown) {
            return Ok(false);
        }
        let plan = self.progress.plan_of(shown.key, shown.wire);
        let Some(made) = permitted(self.progress.make(shown.key.host(), plan, Will::Try))? else {
            return Ok(false);
        };
        self.outgoing.build(shown, made)?;
        Ok(true)
    }

    /// The segment of the line at a place is built now, if that's permitted and it wasn't before. The result is whether
    /// it is.
    pub(crate) fn make_early(&mut self, place: usize) -> Result<bool, Stop> {
        let lines = self.sought.lines;
        let event = lines.get(place).map(|line| &line.event);
        if let Some(Event::Sent(host, wire)) = event {
            if self.progress.log.is_ahead(place) && !self.outgoing.is_built(place) {
                let key = EndpointKey::sender(*host, wire);
                return self.try_making(Shown { key, place, wire });
            }
        }
        Ok(false)
    }
}
