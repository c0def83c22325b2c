//! What is chosen at lines where more than one step is possible.
//!
//! Lines are named by their places among the event lines, from 0. If nothing is chosen for a line, the pass does what
//! is usual.

use crate::key::EndpointKey;
use case_forms::OutOfMemory;
use std::alloc::Global;
use std::collections::BTreeMap;

/// What becomes of an arrival.
#[derive(Clone, Copy, PartialEq, Eq)]
pub(crate) enum Fate {
    /// What is usual, whatever was chosen before.
    Usual,
    /// It is processed at once: what was built before and is sent later is built then.
    Prompt,
    /// It is processed, and its bytes and its FIN are not kept.
    NotKept,
    /// It is dropped.
    Dropped,
    /// It is processed, and no round trip is measured.
    Unmeasured,
    /// It is processed, and the congestion window doesn't grow.
    NotGrown,
    /// It copies the last of several equal segments.
    OfLast,
    /// It is processed after a segment that no line shows advertised a window that reaches to its end.
    Widened,
}

/// What happens at an endpoint before a line.
#[derive(Clone, Copy, PartialEq, Eq)]
pub(crate) enum Remedy {
    Rto,
    Persist,
    /// A probe for a loss is due (RFC 8985, 7.2).
    Pto,
    TimeWaitOver,
    Recovery,
}

/// A segment that no line shows.
#[derive(Clone, Copy, PartialEq, Eq)]
pub(crate) enum Unseen {
    /// All that can be built now.
    All,
    /// One segment.
    One,
    /// A reset.
    Reset,
}

/// What is done otherwise at a line.
#[derive(Clone, Copy, PartialEq, Eq)]
pub(crate) enum Change {
    /// This becomes of its arrival.
    Fate(Fate),
    /// Its arrival or its call waits until after this line.
    WaitUntil(usize),
    /// After it, the segment of this later line is built.
    Build(usize),
    /// After it, an endpoint builds what no line shows.
    BuildUnseen(EndpointKey, Unseen),
    /// Before it, this happens at an endpoint.
    Before(EndpointKey, Remedy),
}

/// One choice.
#[derive(Clone, Copy, PartialEq, Eq)]
pub(crate) struct Choice {
    /// The place of the line.
    pub place: usize,
    pub change: Change,
}

/// What was chosen for an arrival.
#[derive(Clone, Copy, Default)]
pub(crate) struct Arrival {
    pub is_dropped: bool,
    pub is_not_kept: bool,
    pub is_unmeasured: bool,
    pub is_not_grown: bool,
    pub is_of_last: bool,
    pub is_widened: bool,
    pub is_prompt: bool,
}

impl Arrival {
    // One choice more. Of keeping and dropping, the last choice counts.
    fn choose(&mut self, fate: Fate) {
        match fate {
            Fate::Usual => *self = Arrival::default(),
            Fate::NotKept => {
                self.is_not_kept = true;
                self.is_dropped = false;
            }
            Fate::Dropped => self.is_dropped = true,
            Fate::Unmeasured => self.is_unmeasured = true,
            Fate::NotGrown => self.is_not_grown = true,
            Fate::OfLast => self.is_of_last = true,
            Fate::Widened => self.is_widened = true,
            Fate::Prompt => self.is_prompt = true,
        }
    }

    /// Whether it may be processed after later lines.
    pub(crate) fn may_be_late(&self) -> bool {
        !(self.is_dropped || self.is_not_kept || self.is_prompt)
    }
}

// For the place of a line, the choices that change what happens there.
type ByPlace = BTreeMap<usize, Vec<Choice>>;

/// Choices, in the order in which they were chosen.
#[derive(Drop)]
pub(crate) struct Choices {
    all: Vec<Choice>,
    by_place: ByPlace,
}

// Puts a choice at its lines.
fn put(by_place: &mut ByPlace, choice: Choice) -> Result<(), OutOfMemory> {
    put_at(by_place, choice.place, choice)?;
    match choice.change {
        Change::WaitUntil(after) => put_at(by_place, after, choice),
        Change::Fate(_) | Change::Build(_) | Change::BuildUnseen(..) | Change::Before(..) => Ok(()),
    }
}

// Puts a choice at the line of a place.
fn put_at(by_place: &mut ByPlace, place: usize, choice: Choice) -> Result<(), OutOfMemory> {
    by_place.entry(place)?.or_default().push(choice)?;
    Ok(())
}

impl Choices {
    /// Nothing is chosen.
    pub(crate) fn new(alloc: Global) -> Choices {
        Choices {
            all: Vec::new(alloc),
            by_place: BTreeMap::new(alloc),
        }
    }

    /// Adds choices, without those that are the last of their lines already.
    pub(crate) fn push_all(&mut self, choices: &[Choice]) -> Result<(), OutOfMemory> {
        for choice in choices {
            if self.at(choice.place).last() != Some(choice) {
                self.all.push(*choice)?;
                put(&mut self.by_place, *choice)?;
            }
        }
        Ok(())
    }

    /// Replaces all by other choices.
    pub(crate) fn set(&mut self, other: &Choices) -> Result<(), OutOfMemory> {
        self.all.clear();
        self.all.extend_from_slice(other.all.as_slice())?;
        self.put_all()
    }

    /// Keeps only the first choices, so many of them.
    pub(crate) fn truncate(&mut self, count: usize) -> Result<(), OutOfMemory> {
        if count >= self.all.len() {
            return Ok(());
        }
        self.all.truncate(count);
        self.put_all()
    }

    // Puts all choices at their lines anew.
    fn put_all(&mut self) -> Result<(), OutOfMemory> {
        self.by_place.clear();
        for choice in &self.all {
            put(&mut self.by_place, *choice)?;
        }
        Ok(())
    }

    /// How many there are.
    pub(crate) fn len(&self) -> usize {
        self.all.len()
    }

    /// The choices at a line, in the order in which they were chosen.
    pub(crate) fn at(&self, place: usize) -> &[Choice] {
        match self.by_place.get(&place) {
            Some(choices) => choices.as_slice(),
            None => &[],
        }
    }

    /// What was chosen for the arrival of a line.
    pub(crate) fn arrival(&self, place: usize) -> Arrival {
        let mut arrival = Arrival::default();
        for choice in self.at(place) {
            if let Change::Fate(fate) = choice.change {
                arrival.choose(fate);
            }
        }
        arrival
    }

    /// Whether the arrival or the call of a line waits for a later one.
    pub(crate) fn waits(&self, place: usize) -> bool {
        let mut choices = self.at(place).iter();
        choices.any(|choice| choice.place == place && matches!(choice.change, Change::WaitUntil(_)))
    }
}
