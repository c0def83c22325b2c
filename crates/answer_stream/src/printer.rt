//! The answers, which one worker at a time prints.

ghost use Rattle.std.specs.Prelude.{◌≡◌, ◌<◌, ◌^◌, true, false, IfNone, IfSome, vec_len};
ghost use Rattle.std.specs.Io.KnownBytes.{Appends};
ghost use Rattle.counted.specs.Counting.{left_of, failures_of};
ghost use Rattle.answer_stream.specs.Told.{TellsAnswer, TellsFirst};

use crate::batch::Batch;
use crate::stream::{Lent, Stream};
use counted::Counted;
use std::alloc::Global;
use std::io::Write;

// A worker whose answers aren't the next ones waits while this many answers wait.
const MOST_WAITING: u64 = 1024;

/// Writes lines at once, and returns this status. `None`: a write failed.
pub(crate) fn write_lines<W: Write>(w: &mut Counted<W>, lines: &[u8], status: u8) -> Option<u8>
    requires { failures_of w.old < 2 ^ 50 }
    ensures told { IfSome result (λ s. (s ≡ status)
        × Appends (left_of W.contents w.old) (left_of W.contents w.new) lines.now) }
    ensures quiet { IfSome result (λ _. failures_of w.new ≡ failures_of w.old) }
    ensures failed { IfNone result (failures_of w.old < failures_of w.new) }
{
    if w.write_all(lines).is_err() || w.flush().is_err() {
        return None;
    }
    Some(status)
}

/// The writer, and what was printed. Answers are printed in the order of their cases. After a failed write, or once an
/// answer is lost, no further one is.
#[derive(Drop)]
pub(crate) struct Printer<'a, W: Write, S: Stream> {
    pub at: &'a mut Counted<W>,
    /// The number of the case whose answer is printed next, so the count of those that were printed.
    pub next: u64,
    /// The greatest status of the printed answers, which is the program's status if all cases were answered; 0 if there
    /// are none.
    pub greatest: u8,
    // Answers that wait for an earlier one.
    waiting: Vec<Batch<S>>,
    // How many these are.
    count: u64,
    /// A write failed, so nobody knows how much of the last lines was written.
    pub failed: bool,
    // An answer was lost, since there was no memory for its line, or for it to wait. So none after it is in order, and
    // the run ends.
    lost: bool,
    pub ghost same: { at.ghost_name ≡ S.writer },
    pub ghost told: { failed ≡ false → ∥ TellsFirst S.input next greatest S.contents
        (left_of W.contents at.now) ∥₁ },
    pub ghost quiet: { failed ≡ false → failures_of at.now ≡ S.writes },
    pub ghost grew: { failed ≡ true → S.writes < failures_of at.now },
    pub ghost few: { S.writes < 2 ^ 50 },
}

impl<'a, W: Write, S: Stream> Printer<'a, W, S> {
    /// A writer to which nothing was written yet.
    pub fn new(alloc: Global, lent: Lent<'a, Counted<W>>) -> Printer<'a, W, S>
        requires same { lent.at.ghost_name ≡ S.writer }
        requires contents { S.contents ≡ left_of W.contents lent.at.now }
        requires writes { failures_of lent.at.now ≡ S.writes }
        requires few { S.writes < 2 ^ 50 }
    {
        let Lent { at } = lent;
        Printer {
            at,
            next: 0,
            greatest: 0,
            waiting: Vec::new(alloc),
            count: 0,
            failed: false,
            lost: false,
        }
    }

    /// Whether no further answer is printed.
    pub fn is_stopped(&self) -> bool {
        self.failed || self.lost
    }

    /// Whether answers from the one to the case with this number on have to wait outside.
    pub fn is_full(&self, number: u64) -> bool {
        !self.is_stopped() && number != self.next && self.count >= MOST_WAITING
    }

    /// Prints answers and those that waited for them; or keeps them, if an earlier one is missing.
    pub fn take(&mut self, batch: Batch<S>) {
        if self.is_stopped() {
            // The worker that gave them asks `is_stopped`, and ends.
            return;
        }
        if batch.first == self.next {
            self.print(&batch);
            self.print_due();
        } else {
            self.count = self.count.saturating_add(batch.count());
            self.lost = self.waiting.push(batch).is_err();
        }
    }

    // Prints the answers that waited for the last one.
    fn print_due(&mut self) {
        for _ in 0..self.waiting.len() {
            let Some(place) = self.find_next() else {
                // The next answers are still to come.
                return;
            };
            let batch = self.waiting.swap_remove(place);
            self.count = self.count.saturating_sub(batch.count());
            self.print(&batch);
        }
    }

    // Where the next answers wait.
    fn find_next(&self) -> Option<usize>
        ensures { IfSome result (λ place. place < vec_len self.now.waiting) }
    {
        for place in 0..self.waiting.len() {
            if self.waiting[place].first == self.next {
                return Some(place);
            }
        }
        None
    }

    // Prints the next answers. If a write fails, `failed` says so.
    fn print(&mut self, batch: &Batch<S>) {
        if self.failed || batch.first != self.next {
            // Nothing may follow a failed write, and both callers give the next answers.
            return;
        }
        match write_lines(
            self.at,
            batch.gathered.lines.as_slice(),
            batch.gathered.greatest,
        ) {
            Some(status) => {
                self.next = batch.next;
                self.greatest = self.greatest.max(status);
                // The first case without an answer comes after these.
                self.lost = batch.is_cut || self.lost;
            }
            None => self.failed = true,
        }
    }

    /// The writer again.
    pub fn into_lent(self) -> Lent<'a, Counted<W>>
        ensures { result.at ≡ self.entry.at }
    {
        let Printer {
            at,
            next: _,
            greatest: _,
            waiting: _,
            count: _,
            failed: _,
            lost: _,
        } = self;
        Lent { at }
    }
}
