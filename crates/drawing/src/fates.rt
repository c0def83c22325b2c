//! What became of the lines of a case, by its witness.

use crate::picture::Look;
use case_forms::{Event, Extras, Label, Line, NamedLine, OutOfMemory, Step};
use replayed::Case;
use segment::Flag;
use std::alloc::Global;
use std::collections::BTreeMap;

/// What became of a segment.
#[derive(Clone, Copy, PartialEq, Eq)]
pub(crate) enum Fate {
    /// No step before the refused one sends or receives it.
    NotReached,
    /// It was sent to the other host, which wasn't recorded.
    Unrecorded,
    /// It was sent before the refused step, and not yet received.
    InFlight,
    /// It was lost in transit.
    Lost,
    /// It was received, and not yet processed.
    Waits,
    Processed,
    /// It was processed, and the step didn't keep its bytes and its FIN.
    NotKept,
    Dropped,
    /// It was answered with a reset.
    Reset,
}

impl Fate {
    /// The class of its arrow, and its look.
    pub(crate) fn look(self) -> Look {
        let &(class, color, dashes, meaning) = match self {
            Fate::NotReached => &("unreached", "#bbb", "", "not reached"),
            Fate::Unrecorded => &("unrecorded", "#446", "", "peer not recorded"),
            Fate::InFlight => &("flying", "#446", "", "in flight"),
            Fate::Lost => &("lost", "#a22", "", "lost"),
            Fate::Waits => &("waits", "#36c", "", "waits"),
            Fate::Processed => &("processed", "#186", "", "processed"),
            Fate::NotKept => &("unkept", "#186", "2 3", "not kept"),
            Fate::Dropped => &("dropped", "#888", "5 3", "dropped"),
            Fate::Reset => &("reset", "#c60", "", "answered with a reset"),
        };
        Look {
            class,
            color,
            dashes,
            meaning,
        }
    }
}

/// What became of the lines of a case. Lines are named by their numbers.
#[derive(Drop)]
pub(crate) struct Fates {
    /// For each line of a received segment, the line that it copies.
    pub copies: BTreeMap<u64, u64>,
    /// For each line that was copied, the first line that copies it.
    pub copied: BTreeMap<u64, u64>,
    /// For each line that a step uses: of a received segment, its fate; of a sent one, its fate unless it is copied.
    fates: BTreeMap<u64, Fate>,
    /// The fate of a segment that is sent and never copied.
    uncopied: Fate,
    /// For each line that begins a call, the line after which the call has its effect.
    pub effects: BTreeMap<u64, u64>,
    /// For each thread, the line that began its call.
    begun: BTreeMap<u32, u64>,
    /// The last line that a step uses, of the steps before the refused one; 0 if none does.
    pub last: u64,
}

impl Fates {
    /// What the witness of a case shows.
    pub(crate) fn new(alloc: Global, case: &Case) -> Result<Fates, OutOfMemory> {
        let mut fates = Fates {
            copies: BTreeMap::new(alloc),
            copied: BTreeMap::new(alloc),
            fates: BTreeMap::new(alloc),
            uncopied: uncopied_fate(case),
            effects: BTreeMap::new(alloc),
            begun: BTreeMap::new(alloc),
            last: 0,
        };
        fates.read_all(case)?;
        Ok(fates)
    }

    // Reads the steps before the refused one. If they receive all segments, any other segment is lost.
    fn read_all(&mut self, case: &Case) -> Result<(), OutOfMemory> {
        for step in case.steps_before_refusal() {
            self.read(case, step)?;
        }
        let received = count_received(case.trace.lines.as_slice());
        if self.uncopied == Fate::InFlight && received == self.copies.len() {
            self.uncopied = Fate::Lost;
        }
        Ok(())
    }

    /// What became of the segment that a line received.
    pub(crate) fn received(&self, line: u64) -> Fate {
        self.fates.get(&line).copied().unwrap_or(Fate::NotReached)
    }

    /// What became of the segment that a line sent, if no line copies it.
    pub(crate) fn sent(&self, line: u64) -> Fate {
        match self.fates.get(&line) {
            Some(_) => self.uncopied,
            None => Fate::NotReached,
        }
    }

    fn read(&mut self, case: &Case, step: &Step) -> Result<(), OutOfMemory> {
        match &step.label {
            Label::L(named) => {
                self.last = named.number;
                if let Some(line) = case.line(named.number) {
                    self.read_line(line, *named)?;
                }
            }
            Label::D { thread, .. } => {
                if let Some(begin) = self.begun.get(thread) {
                    self.effects.insert(*begin, self.last)?;
                }
            }
            Label::T { line, choice, .. } => {
                let is_kept = choice.keep || !carries_anything(case, *line);
                let fate = if is_kept {
                    Fate::Processed
                } else {
                    Fate::NotKept
                };
                self.put(*line, fate)?
            }
            Label::K { line, .. } => self.put(*line, Fate::Dropped)?,
            Label::R { line, .. } => self.put(*line, Fate::Reset)?,
            Label::M { .. } | Label::F { .. } => {}
        }
        Ok(())
    }

    fn read_line(&mut self, line: &Line, named: NamedLine) -> Result<(), OutOfMemory> {
        match &line.event {
            Event::Came(_, _) => {
                if let Extras::One(copied) = named.extras {
                    self.copy(named.number, u64::from(copied))?;
                }
                self.put(named.number, Fate::Waits)?;
            }
            Event::Sent(_, _) => self.put(named.number, self.uncopied)?,
            Event::CallBegin(_) => {
                self.begun.insert(line.thread, named.number)?;
            }
            Event::CallEnd(_) | Event::Expired(..) => {}
        }
        Ok(())
    }

    fn copy(&mut self, line: u64, copied: u64) -> Result<(), OutOfMemory> {
        self.copies.insert(line, copied)?;
        if !self.copied.contains_key(&copied) {
            self.copied.insert(copied, line)?;
        }
        Ok(())
    }

    fn put(&mut self, line: u64, fate: Fate) -> Result<(), OutOfMemory> {
        self.fates.insert(line, fate)?;
        Ok(())
    }
}

// What becomes of a segment that is sent, if no step before the refused one receives it.
fn uncopied_fate(case: &Case) -> Fate {
    if case.trace.header.version.is_half() {
        Fate::Unrecorded
    } else {
        Fate::InFlight
    }
}

// Whether the segment that a line received carries bytes or a FIN, and isn't a reset.
fn carries_anything(case: &Case, line: u64) -> bool {
    match case.line(line).map(|line| &line.event) {
        Some(Event::Came(_, wire)) => {
            let is_full = !wire.seg.payload.is_empty() || wire.seg.has(Flag::Fin);
            is_full && !wire.seg.has(Flag::Rst)
        }
        _ => false,
    }
}

// How many lines show a received segment.
fn count_received(lines: &[Line]) -> usize {
    lines
        .iter()
        .filter(|line| matches!(line.event, Event::Came(..)))
        .count()
}
