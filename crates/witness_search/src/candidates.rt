//! Candidates for other choices.

use crate::choices::{Change, Choice};
use case_forms::OutOfMemory;
use std::alloc::Global;

/// Candidates, each of which is one choice or several.
#[derive(Drop)]
pub(crate) struct Candidates {
    choices: Vec<Choice>,
    /// For each candidate, the place after its last choice.
    stops: Vec<usize>,
}

impl Candidates {
    /// No candidates.
    pub(crate) fn new(alloc: Global) -> Candidates {
        Candidates {
            choices: Vec::new(alloc),
            stops: Vec::new(alloc),
        }
    }

    /// How many there are.
    pub(crate) fn len(&self) -> usize {
        self.stops.len()
    }

    // The place of the first choice of a candidate.
    fn start_of(&self, index: usize) -> usize {
        let before = index.checked_sub(1);
        let stop = before.and_then(|before| self.stops.get(before));
        stop.copied().unwrap_or(0)
    }

    /// The choices of a candidate, none if it doesn't exist.
    pub(crate) fn at(&self, index: usize) -> &[Choice] {
        let stop = self.stops.get(index).copied().unwrap_or(0);
        self.choices.get(self.start_of(index)..stop).unwrap_or(&[])
    }

    /// Keeps only the first candidates, so many of them.
    pub(crate) fn truncate(&mut self, count: usize) {
        if count < self.stops.len() {
            let start = self.start_of(count);
            self.choices.truncate(start);
            self.stops.truncate(count);
        }
    }

    /// Adds a candidate of one choice.
    pub(crate) fn push(&mut self, place: usize, change: Change) -> Result<(), OutOfMemory> {
        self.add(place, change)?;
        self.end()
    }

    /// Adds a choice to the candidate that ends next.
    pub(crate) fn add(&mut self, place: usize, change: Change) -> Result<(), OutOfMemory> {
        self.choices.push(Choice { place, change })?;
        Ok(())
    }

    /// The choices since the last candidate are one, if there are any.
    pub(crate) fn end(&mut self) -> Result<(), OutOfMemory> {
        let stop = self.choices.len();
        if self.start_of(self.stops.len()) < stop {
            self.stops.push(stop)?;
        }
        Ok(())
    }
}
