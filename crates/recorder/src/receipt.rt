//! Receipts.

ghost use Rattle.std.specs.Prelude.{◌≡◌, ◌↔◌, IsTrue, Some};
ghost use Rattle.std.specs.Option.{option_map};
ghost use Rattle.recorder.specs.Receipts.{end_at, end_line};

use crate::merged_case::Recorded;
use case_forms::{Answer, Event, Line};
use stack_core::Answered;

/// The answer of a call, and which of its thread's answers it is, counted from 0.
#[derive(Drop)]
pub struct Receipt {
    pub answered: Answered,
    pub index: u64,
}

// Whether two answers are the same.
fn is_same(a: &Answer, b: &Answer) -> bool
    ensures { IsTrue result ↔ (a.now ≡ b.now) }
{
    match a {
        Answer::Done => matches!(b, Answer::Done),
        Answer::Given(m) => match b {
            Answer::Given(n) => m == n,
            _ => false,
        },
        Answer::Bytes(xs) => match b {
            Answer::Bytes(ys) => xs.as_slice() == ys.as_slice(),
            _ => false,
        },
        Answer::Again => matches!(b, Answer::Again),
        Answer::Eof => matches!(b, Answer::Eof),
        Answer::Closed => matches!(b, Answer::Closed),
        Answer::NotConn => matches!(b, Answer::NotConn),
        Answer::Refused => matches!(b, Answer::Refused),
        Answer::Reset => matches!(b, Answer::Reset),
        Answer::Timeout => matches!(b, Answer::Timeout),
        Answer::InUse => matches!(b, Answer::InUse),
        Answer::BadSocket => matches!(b, Answer::BadSocket),
        Answer::State(s) => match b {
            Answer::State(t) => s == t,
            _ => false,
        },
    }
}

// The answer of a line that ends a call of the thread.
fn end_of<'a>(line: &'a Line, thread: u32) -> Option<&'a Answer>
    ensures { end_line thread line.now ≡ option_map (λ a. a.now) result }
{
    if line.thread != thread {
        return None;
    }
    match &line.event {
        Event::CallEnd(answer) => Some(answer),
        _ => None,
    }
}

/// Whether the line that ends the call of the receipt's thread with the receipt's index, counted from 0, has its
/// answer.
pub fn receipt_stands(recorded: &Recorded, receipt: &Receipt) -> bool
    ensures { IsTrue result ↔ (end_at receipt.now.answered.thread receipt.now.index recorded.now.trace.lines
        ≡ Some receipt.now.answered.answer) }
{
    stands(
        recorded.trace.lines.as_slice(),
        receipt.answered.thread(),
        receipt.index,
        receipt.answered.answer(),
    )
}

// The same, for the lines and what the receipt says.
fn stands(lines: &[Line], thread: u32, index: u64, answer: &Answer) -> bool
    ensures { IsTrue result ↔ (end_at thread index lines.now ≡ Some answer.now) }
{
    let mut left = index;
    let mut rest = lines;
    while let [line, behind @ ..] = rest {
        if let Some(given) = end_of(line, thread) {
            if left == 0 {
                return is_same(given, answer);
            }
            left -= 1;
        }
        rest = behind;
    }
    false
}
