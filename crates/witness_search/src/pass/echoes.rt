//! What the timestamp that a segment echoes shows of an arrival.
//!
//! An endpoint echoes the timestamp that it took last when it builds a segment (RFC 7323, 4.3). So the segment's line
//! shows whether an arrival with a newer timestamp was processed before.

use super::Pass;
use crate::key::EndpointKey;
use crate::later_lines::Shown;
use crate::progress::Progress;
use crate::stop::Stop;
use crate::together::HALF;
use case_forms::Wire;
use segment::{Flag, timestamps};
use seqno::{Word, number};
use spec_flights::Clocks;
use spec_tcp::Emission;

/// When a segment was built.
#[derive(Clone, Copy)]
pub(crate) enum Built {
    /// Before an arrival was processed.
    Before,
    /// After it was, or while it was.
    After,
}

// Whether the first of two values of a clock that goes round is older (RFC 7323, 5.2).
fn is_older(a: Word, b: Word) -> bool {
    HALF <= a.0.wrapping_sub(b.0)
}

// The timestamp that a segment echoes, if it has to echo one.
fn echo_of(wire: &Wire) -> Option<Word> {
    if !wire.seg.has(Flag::Ack) || wire.seg.has(Flag::Rst) {
        return None;
    }
    Some(timestamps(wire.bytes.as_slice())?.echo)
}

// The timestamp that an endpoint echoes, if both SYNs had one.
fn recent_of(clocks: Clocks) -> Option<Word> {
    if clocks.own && clocks.peers {
        clocks.recent
    } else {
        None
    }
}

// The timestamp that an endpoint echoes after it processed an arrival from this position on, if that's newer than the
// one before.
fn newer_from(clocks: Clocks, m: &Emission, pos: u64) -> Option<Word> {
    let recent = recent_of(clocks)?;
    let came = timestamps(m.bytes.as_slice())?.value;
    let is_taken = !m.flags.rst && pos <= clocks.told && is_older(recent, came);
    is_taken.then_some(came)
}

impl Progress {
    /// When a segment was built that the receiver of an arrival sends next. `pos`: where the arrival begins. None: its
    /// timestamp doesn't show it.
    pub(crate) fn echo_shows(
        &self,
        key: EndpointKey,
        m: &Emission,
        pos: u64,
        wire: &Wire,
    ) -> Option<Built> {
        let clocks = self.clocks(key)?;
        let (recent, echo) = (recent_of(clocks)?, echo_of(wire)?);
        let came = newer_from(clocks, m, pos)?;
        if is_older(echo, recent) {
            return None;
        }
        Some(if is_older(echo, came) {
            Built::Before
        } else {
            Built::After
        })
    }

    // Whether a segment acknowledges what came before the bytes that its endpoint processes now, and echoes the
    // timestamp that came with them.
    fn is_between(&self, key: EndpointKey, wire: &Wire) -> Option<bool> {
        let recent = recent_of(self.clocks(key)?)?;
        let echo = echo_of(wire)?;
        let endpoint = self.endpoint(key)?;
        let (text, irs) = (endpoint.text, endpoint.irs?);
        let is_now = text.moment == self.moment() && 0 < text.before;
        let is_less = text.before < endpoint.rcv_nxt() && wire.seg.ack == number(irs, text.before);
        Some(is_now && is_less && echo == recent)
    }

    // Whether a segment contains what was built before.
    fn goes_again(&self, shown: Shown<'_>) -> bool {
        let plan = self.plan_of(shown.key, shown.wire);
        let endpoint = self.endpoint(shown.key);
        plan.len > 0 && endpoint.is_some_and(|endpoint| plan.pos < endpoint.snd_max())
    }
}

impl<'t> Pass<'t> {
    /// An endpoint processed an arrival with bytes. What it sends later and built while these waited is built now: it
    /// acknowledges what came before them, but echoes the timestamp that came with them.
    pub(crate) fn make_between(&mut self, key: EndpointKey) -> Result<(), Stop> {
        for _ in 0..self.sought.lines.len() {
            let Some(shown) = self.outgoing.next(key) else {
                break;
            };
            let is_between = self.progress.is_between(key, shown.wire);
            if is_between != Some(true) || !self.try_making_between(shown)? {
                break;
            }
        }
        Ok(())
    }

    // Builds a segment now, if that's permitted. The acknowledgment that came with the bytes may let fast recovery
    // begin.
    fn try_making_between(&mut self, shown: Shown<'t>) -> Result<bool, Stop> {
        if self.try_making(shown)? {
            return Ok(true);
        }
        if !self.progress.goes_again(shown) || !self.progress.try_recovery(shown.key)? {
            return Ok(false);
        }
        self.try_making(shown)
    }
}
