//! Cases that a worker takes at once, and the lines of their answers.

ghost use Rattle.std.specs.Prelude.{◌≡◌, ◌++◌, OnErr, OnOk, max};
ghost use Rattle.std.specs.Option.{ForSome};
ghost use Rattle.answers.specs.Output.{line_of, status_of};
ghost use Rattle.answer_stream.specs.Left.{IsHeldAt};
ghost use Rattle.answer_stream.specs.Told.{Continues, Gathers};

use crate::long::check_held;
use crate::source::Source;
use crate::stream::{NumberedAnswer, Stream};
use answers::{Gathered, MEMORY, append_line, status_of};
use parallel_check::CaseResult;
use std::alloc::{AllocError, Global};
use std::io::BufRead;
use std::marker::PhantomData;

// How many cases a worker takes at once, at most.
const MOST_CASES: usize = 32;
// After a case with which the texts of a batch have so many bytes, no further one is taken.
const MANY_BYTES: usize = 16 * 1024;
// The memory of a longer text is freed once the case is checked, except for the first case of a batch.
const SMALL_TEXT: usize = 4096;

/// A case that was taken, with its number, from 0. Its memory is used again for a later case.
#[derive(Drop)]
pub(crate) struct TakenCase<S: Stream> {
    number: Option<u64>,
    // All of it, or the lines before one that is too long.
    text: Vec<u8>,
    // The length of that line.
    long: Option<u64>,
    of: PhantomData<S>,
    ghost at: { ForSome number (λ n. ∥ IsHeldAt S.input n long text.items ∥₁) },
}

impl<S: Stream> TakenCase<S> {
    // No case yet.
    fn new(alloc: Global) -> TakenCase<S> {
        TakenCase {
            number: None,
            text: Vec::new(alloc),
            long: None,
            of: PhantomData,
        }
    }

    // Takes the next case. Returns whether there is one.
    fn take<B: BufRead>(&mut self, source: &mut Source<'_, B, S>) -> bool {
        self.number = None;
        let Some((number, long)) = source.take(&mut self.text) else {
            return false;
        };
        self.long = long;
        self.number = Some(number);
        true
    }

    // Takes the next case if it is at hand. Returns whether it was.
    fn take_at_hand<B: BufRead>(&mut self, source: &mut Source<'_, B, S>) -> bool {
        self.number = None;
        self.long = None;
        self.number = source.take_at_hand(&mut self.text);
        self.number.is_some()
    }

    // The answer to the case.
    fn check(&self, alloc: Global) -> Option<NumberedAnswer<S>> {
        let number = self.number?;
        Some(NumberedAnswer {
            number,
            answer: check_held(alloc, self.text.as_slice(), self.long),
            of: PhantomData,
        })
    }

    // Frees the memory of a long text.
    fn shrink(&mut self, alloc: Global) {
        if self.text.capacity() > SMALL_TEXT {
            self.number = None;
            self.text = Vec::new(alloc);
        }
    }
}

/// The cases that a worker takes at once.
#[derive(Drop)]
pub(crate) struct TakenCases<S: Stream> {
    cases: Vec<TakenCase<S>>,
    // How many of them were taken last.
    count: usize,
}

impl<S: Stream> TakenCases<S> {
    /// No cases yet.
    pub fn new(alloc: Global) -> TakenCases<S> {
        TakenCases {
            cases: Vec::new(alloc),
            count: 0,
        }
    }

    /// Takes the next case, and those after it that are at hand, up to a limit. Returns whether there is one.
    pub fn take<B: BufRead>(&mut self, alloc: Global, source: &mut Source<'_, B, S>) -> bool {
        self.count = 0;
        let mut bytes = 0;
        while self.count < MOST_CASES && bytes < MANY_BYTES {
            if self.count >= self.cases.len() && self.cases.push(TakenCase::new(alloc)).is_err() {
                break;
            }
            let Some(case) = self.cases.get_mut(self.count) else {
                break;
            };
            let is_taken = if self.count == 0 {
                case.take(source)
            } else {
                case.take_at_hand(source)
            };
            if !is_taken {
                break;
            }
            bytes = case.text.len().saturating_add(bytes);
            self.count += 1;
        }
        self.count > 0
    }

    /// Answers the cases that were taken last.
    pub fn answer(&mut self, alloc: Global) -> Batch<S> {
        let first = self.cases.first().and_then(|case| case.number);
        let mut batch = Batch::new(alloc, first.unwrap_or(0));
        for place in 0..self.count.min(self.cases.len()) {
            if !batch.add(self.cases[place].check(alloc)) {
                break;
            }
            if place > 0 {
                self.cases[place].shrink(alloc);
            }
        }
        batch
    }
}

/// The lines of the answers to cases that follow each other.
#[derive(Drop)]
pub(crate) struct Batch<S: Stream> {
    /// The number of the first case.
    pub first: u64,
    /// The number of the case after the last.
    pub next: u64,
    pub gathered: Gathered,
    // Memory for a line.
    line: Vec<u8>,
    /// An answer is missing, since there was no memory for its line.
    pub is_cut: bool,
    of: PhantomData<S>,
    pub ghost told: { ∥ Continues S.input first next gathered.greatest gathered.lines.items ∥₁ },
}

impl<S: Stream> Batch<S> {
    // No answers yet, before the one to the case with this number.
    fn new(alloc: Global, first: u64) -> Batch<S> {
        Batch {
            first,
            next: first,
            gathered: Gathered::new(alloc),
            line: Vec::new(alloc),
            is_cut: false,
            of: PhantomData,
        }
    }

    /// How many answers there are; one if the first is missing.
    pub fn count(&self) -> u64 {
        self.next.saturating_sub(self.first).max(1)
    }

    // Adds the next answer. Returns whether it could be added; if it could not, it is missing.
    fn add(&mut self, done: Option<NumberedAnswer<S>>) -> bool {
        self.is_cut = self.try_add(done).is_none();
        !self.is_cut
    }

    // Adds the next answer. `None`: it isn't the next, or there is no memory for it.
    fn try_add(&mut self, done: Option<NumberedAnswer<S>>) -> Option<()> {
        let done = done?;
        let next = self.next.checked_add(1)?;
        if done.number != self.next
            || gather(&mut self.line, &mut self.gathered, &done.answer).is_err()
        {
            return None;
        }
        self.next = next;
        Some(())
    }
}

// Appends the line of an answer. If there is no memory for the line, the answer is that memory ran out.
fn gather(
    line: &mut Vec<u8>,
    gathered: &mut Gathered,
    answer: &CaseResult,
) -> Result<(), AllocError>
    ensures told { OnOk result (Gathers answer.now gathered.old.lines.items gathered.old.greatest
        gathered.new.lines.items gathered.new.greatest) }
    ensures same_lines { OnErr result (gathered.new.lines.items ≡ gathered.old.lines.items) }
    ensures same_greatest { OnErr result (gathered.new.greatest ≡ gathered.old.greatest) }
{
    if gather_line(line, gathered, answer).is_ok() {
        return Ok(());
    }
    gathered.push(b"bad memory\n".as_slice(), MEMORY)?;
    Ok(())
}

// Appends the line of an answer, which is first put into `line`. If there is no memory for it, nothing changes.
fn gather_line(
    line: &mut Vec<u8>,
    gathered: &mut Gathered,
    answer: &CaseResult,
) -> Result<(), AllocError>
    ensures lines { OnOk result (gathered.new.lines.items ≡ gathered.old.lines.items ++ line_of answer.now) }
    ensures greatest { OnOk result (gathered.new.greatest ≡ max gathered.old.greatest (status_of answer.now)) }
    ensures same_lines { OnErr result (gathered.new.lines.items ≡ gathered.old.lines.items) }
    ensures same_greatest { OnErr result (gathered.new.greatest ≡ gathered.old.greatest) }
{
    line.clear();
    append_line(line, answer)?;
    gathered.push(line.as_slice(), status_of(answer))
}
