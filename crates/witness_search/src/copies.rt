//! Sent segments that have no copy yet.

use case_forms::{Host, OutOfMemory};
use std::alloc::Global;
use std::collections::BTreeMap;

// Of equal segments one counts as lost if it would have been in transit for longer than this many times the fastest
// one, and this many microseconds.
const FEW: u64 = 2;

const SLACK: u64 = 200;

// By what a digest is multiplied with each word.
const MULTIPLIER: u64 = 0x517c_c1b7_2722_0a95;

// A digest of bytes, eight of them at a time: FxHash.
fn digest(bytes: &[u8]) -> u64 {
    let (words, rest) = bytes.as_chunks::<8>();
    let state = words.iter().fold(bytes.len() as u64, |state, word| {
        mix(state, u64::from_le_bytes(*word))
    });
    rest.iter()
        .fold(state, |state, byte| mix(state, u64::from(*byte)))
}

fn mix(state: u64, word: u64) -> u64 {
    (state.rotate_left(5) ^ word).wrapping_mul(MULTIPLIER)
}

// The bytes of a segment, ordered by their digest and then by themselves. Bytes with different digests are never
// compared. A peer can choose bytes that all have one digest. A search then compares the bytes of the segments that an
// ordered map looks at: at most a few times the logarithm of their number.
#[derive(Clone, Copy, PartialEq, Eq, PartialOrd, Ord)]
struct Key<'t> {
    digest: u64,
    bytes: &'t [u8],
}

impl<'t> Key<'t> {
    fn new(bytes: &'t [u8]) -> Key<'t> {
        Key {
            digest: digest(bytes),
            bytes,
        }
    }
}

/// A line that shows a segment sent, by its number in the trace with added lines.
#[derive(Clone, Copy)]
pub(crate) struct Sending {
    pub line: u64,
    /// When it was sent, in microseconds.
    pub moment: u64,
}

// The lines with the same bytes.
#[derive(Clone, Copy)]
struct Sendings {
    /// The first of those that have no copy yet and may get one.
    open: Option<Sending>,
    /// The last of all.
    last: Sending,
    /// Whether there is only one.
    is_only: bool,
}

/// What a host sent.
#[derive(Drop)]
pub(crate) struct Sent<'t> {
    all: Vec<Sendings>,
    /// For the bytes of a segment, their place among all.
    places: BTreeMap<Key<'t>, usize>,
    /// For a line, the next one with the same bytes.
    next: BTreeMap<u64, Sending>,
    /// How long the fastest segment was in transit that was sent once, in microseconds.
    fastest: u64,
}

impl<'t> Sent<'t> {
    fn new(alloc: Global) -> Sent<'t> {
        Sent {
            all: Vec::new(alloc),
            places: BTreeMap::new(alloc),
            next: BTreeMap::new(alloc),
            fastest: u64::MAX,
        }
    }

    /// These bytes were sent with a line.
    pub(crate) fn add(&mut self, bytes: &'t [u8], sending: Sending) -> Result<(), OutOfMemory> {
        let new = self.all.len();
        let place = *self.places.entry(Key::new(bytes))?.or_insert(new);
        if place == new {
            return self.add_first(sending);
        }
        self.add_again(place, sending)
    }

    // The first line with its bytes.
    fn add_first(&mut self, sending: Sending) -> Result<(), OutOfMemory> {
        self.all.push(Sendings {
            open: Some(sending),
            last: sending,
            is_only: true,
        })?;
        Ok(())
    }

    // A further line of this place.
    fn add_again(&mut self, place: usize, sending: Sending) -> Result<(), OutOfMemory> {
        let Some(known) = self.all.get_mut(place) else {
            return Ok(());
        };
        self.next.insert(known.last.line, sending)?;
        known.open = known.open.or(Some(sending));
        known.last = sending;
        known.is_only = false;
        Ok(())
    }

    /// The place of the lines with these bytes. None: no such line.
    pub(crate) fn place(&self, bytes: &'t [u8]) -> Option<usize> {
        self.places.get(&Key::new(bytes)).copied()
    }

    /// The last line of this place.
    pub(crate) fn last(&self, place: usize) -> Option<u64> {
        Some(self.all.get(place)?.last.line)
    }

    /// The first line of this place that has no copy will get none.
    pub(crate) fn pass(&mut self, place: usize) {
        if let Some(known) = self.all.get_mut(place) {
            known.open = known.open.and_then(|first| self.next.remove(&first.line));
        }
    }

    /// The first line of this place that has no copy yet. Of several, those are passed over that would have been in
    /// transit for much longer than the fastest segment.
    pub(crate) fn first(&mut self, place: usize, moment: u64) -> Option<u64> {
        let longest = self.fastest.saturating_mul(FEW).saturating_add(SLACK);
        for _ in 0..=self.next.len() {
            let known = self.all.get(place).copied()?;
            let open = known.open?;
            if known.is_only || moment.saturating_sub(open.moment) <= longest {
                return Some(open.line);
            }
            self.pass(place);
        }
        None
    }

    /// A copy of a line of this place arrived.
    pub(crate) fn arrive(&mut self, place: usize, line: u64, moment: u64) {
        let Some(known) = self.all.get(place).copied() else {
            return;
        };
        if known.is_only {
            let duration = moment.saturating_sub(known.last.moment);
            self.fastest = self.fastest.min(duration);
        }
        if known.open.is_some_and(|open| open.line == line) {
            self.pass(place);
        }
    }
}

/// Sent segments of both hosts.
#[derive(Drop)]
pub(crate) struct Copies<'t> {
    zero: Sent<'t>,
    one: Sent<'t>,
}

impl<'t> Copies<'t> {
    /// Nothing was sent.
    pub(crate) fn new(alloc: Global) -> Copies<'t> {
        Copies {
            zero: Sent::new(alloc),
            one: Sent::new(alloc),
        }
    }

    /// What a host sent.
    pub(crate) fn sent_by(&mut self, host: Host) -> &mut Sent<'t> {
        match host {
            Host::Zero => &mut self.zero,
            Host::One => &mut self.one,
        }
    }
}
