//! What else could have been chosen before a line that no step explains.

use crate::attempt::{Attempt, Failure};
use crate::candidates::Candidates;
use crate::choices::{Change, Fate, Remedy, Unseen};
use crate::findings::Findings;
use crate::key::EndpointKey;
use crate::later_lines::sent_before;
use crate::together::Kind;
use case_forms::{Event, Header, Judged, Line, OutOfMemory, Timer};
use segment::Flag;
use verdict::Rule;

/// How many lines before the one that can't be explained are examined.
pub(crate) const REACH: usize = 1_000;

// How many times each of these lines is examined, at most.
const LOOKS: u64 = 8;

// How many candidates there are for one line, at most.
const MOST: usize = 500;

/// How many lines earlier a segment may have been built, and how many lines later an arrival processed, of which each
/// is tried.
pub(crate) const NEAR: usize = 12;

// For how many microseconds an arrival may wait. The model sets no limit, but a stack that waits longer doesn't work.
const LONGEST_WAIT: u64 = 1_000_000;

/// What is known of a failure.
#[derive(Clone, Copy)]
pub(crate) struct Known<'t> {
    pub lines: &'t [Line],
    pub findings: &'t Findings,
    pub failure: Failure,
    /// For how many microseconds an arrival may wait.
    pub longest_wait: u64,
    /// What is built before this moment has to be sent.
    sent_before: u64,
    /// Whether arrivals are copies of lines: both hosts are recorded.
    are_copies: bool,
    /// Whether the congestion window is judged.
    is_full: bool,
    /// Whether a probe for a loss may be sent: from version 6 on.
    has_probes: bool,
}

// Whether a line that breaks a rule shows that its segment was built before or after something else was processed.
fn shows_order(rule: Rule) -> bool {
    matches!(rule, Rule::BytesDiffer | Rule::Echo | Rule::ClockFalls)
}

// A line that is examined, the first time or the second.
#[derive(Clone, Copy)]
struct Spot {
    place: usize,
    is_far: bool,
}

/// Adds what could have been chosen before a failure, the most likely first, then the nearest lines first. The result
/// is how many times a line was examined, at most.
pub(crate) fn push_candidates(out: &mut Candidates, known: &Known<'_>) -> Result<u64, OutOfMemory> {
    known.together(out)?;
    let most = out.len().saturating_add(MOST);
    known.look_back(out, most, false)?;
    known.look_back(out, most, true)?;
    Ok(LOOKS.saturating_mul(known.failure.place.min(REACH) as u64))
}

impl<'t> Known<'t> {
    /// What is known of an attempt's failure. None: it didn't fail.
    pub(crate) fn from_attempt(
        attempt: &'t Attempt,
        lines: &'t [Line],
        header: &Header,
    ) -> Option<Known<'t>> {
        Some(Known {
            lines,
            findings: &attempt.findings,
            failure: attempt.failure()?,
            longest_wait: header.slack.unwrap_or(LONGEST_WAIT).min(LONGEST_WAIT),
            sent_before: sent_before(header, lines),
            are_copies: !header.version.is_half(),
            is_full: matches!(header.congestion, Judged::Full),
            has_probes: header.version.says_sender(),
        })
    }

    // Examines the lines before a failure, the nearest first, up to so many candidates.
    fn look_back(
        &self,
        out: &mut Candidates,
        most: usize,
        is_far: bool,
    ) -> Result<(), OutOfMemory> {
        for back in 0..=self.failure.place.min(REACH) {
            if out.len() >= most {
                break;
            }
            let place = self.failure.place.saturating_sub(back);
            self.look_at(out, Spot { place, is_far })?;
        }
        Ok(())
    }

    // The endpoint that the call means that begins at a place.
    fn meant_at(&self, place: usize) -> Option<EndpointKey> {
        let meant = self.findings.meant.as_slice();
        let index = meant.binary_search_by_key(&place, |call| call.place);
        Some(meant.get(index.ok()?)?.key)
    }

    // What may be chosen at one line, if it applies to the endpoint of the failure.
    fn look_at(&self, out: &mut Candidates, spot: Spot) -> Result<(), OutOfMemory> {
        let Some(line) = self.lines.get(spot.place) else {
            return Ok(());
        };
        let key = EndpointKey::of_line(line).or_else(|| self.meant_at(spot.place));
        let wanted = self.failure.key.or(key);
        if key.is_some() && key != wanted {
            return Ok(());
        }
        match &line.event {
            Event::Came(..) => self.at_arrival(out, spot)?,
            Event::Sent(host, wire) => {
                self.at_sending(out, spot, EndpointKey::sender(*host, wire))?
            }
            Event::CallBegin(_) => self.wait_until(out, spot)?,
            Event::CallEnd(_) | Event::Expired(..) => {}
        }
        match wanted {
            Some(key) => self.unseen_after(out, spot, key),
            None => Ok(()),
        }
    }

    /// Whether a segment has to be sent that is built after the line at a place.
    pub(crate) fn must_be_sent(&self, place: usize) -> bool {
        let line = self.lines.get(place);
        line.is_some_and(|line| line.moment < self.sent_before)
    }

    // An arrival waits, or is processed otherwise, or dropped.
    fn at_arrival(&self, out: &mut Candidates, spot: Spot) -> Result<(), OutOfMemory> {
        let Spot { place, is_far } = spot;
        if place == self.failure.place {
            return Ok(());
        }
        let fates = if is_far {
            self.far_fates()
        } else {
            self.near_fates(place)
        };
        for fate in fates.into_iter().flatten() {
            out.push(place, Change::Fate(fate))?;
        }
        if let Some(at) = self.probe_off_at() {
            out.push(place, Change::Before(at, Remedy::Recovery))?;
        }
        self.wait_until(out, spot)
    }

    // The endpoint whose probe the failing line makes due, though another one keeps it from being sent. Fast recovery
    // ends that one.
    fn probe_off_at(&self) -> Option<EndpointKey> {
        let line = self.lines.get(self.failure.place)?;
        match line.event {
            Event::Expired(_, _, _, Timer::Pto) if self.failure.rule == Rule::TimerOff => {
                EndpointKey::of_line(line)
            }
            _ => None,
        }
    }

    // What else may become of an arrival, less likely than what is near.
    fn far_fates(&self) -> [Option<Fate>; 3] {
        let of_last = self.are_copies.then_some(Fate::OfLast);
        let not_grown = self.is_full.then_some(Fate::NotGrown);
        [of_last, not_grown, None]
    }

    // What else may become of the arrival at a place.
    fn near_fates(&self, place: usize) -> [Option<Fate>; 3] {
        let unmeasured = self.is_timed().then_some(Fate::Unmeasured);
        [self.kept_otherwise(place), Some(Fate::Dropped), unmeasured]
    }

    // How the arrival at a place may be processed otherwise. If nothing of it can be kept, it may be processed at once.
    fn kept_otherwise(&self, place: usize) -> Option<Fate> {
        if self.is_arrival_of(place, Kind::Has(Flag::Rst)) {
            return Some(Fate::Usual);
        }
        if self.is_arrival_of(place, Kind::HasLength) {
            return Some(Fate::NotKept);
        }
        let is_late = self.findings.late.binary_search(&place).is_ok();
        is_late.then_some(Fate::Prompt)
    }

    // Whether a failure has to do with timers.
    fn is_timed(&self) -> bool {
        matches!(
            self.failure.rule,
            Rule::TimerOff
                | Rule::TimerEarly
                | Rule::Growth
                | Rule::OldData
                | Rule::ExpiryLate
                | Rule::Resent
        )
    }

    // An arrival or a call waits until after the failure, or one of the next lines before it.
    fn wait_until(&self, out: &mut Candidates, spot: Spot) -> Result<(), OutOfMemory> {
        let Spot { place, is_far } = spot;
        let last = self.failure.place;
        let lines = if is_far {
            place.saturating_add(1)..place.saturating_add(NEAR).min(last)
        } else {
            last..last.saturating_add(1)
        };
        for after in lines {
            if place < after && self.may_wait(place, after) {
                out.push(place, Change::WaitUntil(after))?;
            }
        }
        Ok(())
    }

    // Whether an arrival or a call may wait until after a line; an arrival not for too long.
    fn may_wait(&self, place: usize, after: usize) -> bool {
        let (Some(line), Some(later)) = (self.lines.get(place), self.lines.get(after)) else {
            return false;
        };
        !matches!(line.event, Event::Came(..))
            || later.moment.saturating_sub(line.moment) <= self.longest_wait
    }

    // The segment of a line was built after one of the lines before it, or something happened before the line.
    fn at_sending(
        &self,
        out: &mut Candidates,
        spot: Spot,
        at: EndpointKey,
    ) -> Result<(), OutOfMemory> {
        let Spot { place, is_far } = spot;
        if is_far == (place == self.failure.place) {
            return Ok(());
        }
        if !shows_order(self.failure.rule) {
            out.push(place, Change::Before(at, Remedy::Recovery))?;
            out.push(place, Change::Before(at, Remedy::Persist))?;
            if self.has_probes {
                out.push(place, Change::Before(at, Remedy::Pto))?;
            }
            out.push(place, Change::Before(at, Remedy::Rto))?;
            out.push(place, Change::Before(at, Remedy::TimeWaitOver))?;
        }
        for after in (place.saturating_sub(NEAR)..place).rev() {
            out.push(after, Change::Build(place))?;
        }
        Ok(())
    }

    // After a line, something was built that no line shows.
    fn unseen_after(
        &self,
        out: &mut Candidates,
        spot: Spot,
        key: EndpointKey,
    ) -> Result<(), OutOfMemory> {
        let after = spot.place;
        if after >= self.failure.place {
            return Ok(());
        }
        match (self.failure.rule, self.timer_at()) {
            (Rule::TimerOff | Rule::TimerEarly | Rule::Growth, Some(at))
                if !spot.is_far && !self.must_be_sent(after) => {
                push_unseen(out, after, at, &[Unseen::All, Unseen::One])
            }
            (Rule::CallAnswer | Rule::State | Rule::NoEndpoint | Rule::Iss, _) if spot.is_far => {
                let kinds = self.closing_after(after);
                push_unseen(out, after, key, kinds)?;
                push_unseen(out, after, key.peer(), kinds)
            }
            _ => Ok(()),
        }
    }

    // What may be built after a line and lets a connection go on or end. A reset need not be sent in TIME-WAIT.
    fn closing_after(&self, after: usize) -> &'static [Unseen] {
        if self.must_be_sent(after) {
            &[Unseen::Reset]
        } else {
            &[Unseen::Reset, Unseen::All]
        }
    }

    // The endpoint whose retransmission timer expires with the failing line.
    fn timer_at(&self) -> Option<EndpointKey> {
        let line = self.lines.get(self.failure.place)?;
        match line.event {
            Event::Expired(_, _, _, Timer::Rto | Timer::Giveup) => EndpointKey::of_line(line),
            _ => None,
        }
    }
}

// After a line, an endpoint built one of these.
fn push_unseen(
    out: &mut Candidates,
    after: usize,
    at: EndpointKey,
    kinds: &[Unseen],
) -> Result<(), OutOfMemory> {
    for unseen in kinds {
        out.push(after, Change::BuildUnseen(at, *unseen))?;
    }
    Ok(())
}
