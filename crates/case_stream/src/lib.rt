//! Cases that follow each other in one input, read one at a time.
//!
//! ```text
//! let mut kept = Kept::new(alloc);
//! let mut text = Vec::new(alloc);
//! while next_case(&mut reader, &mut kept, &mut text)? != Next::Nothing {
//!     answer(text.as_slice());
//! }
//! ```
//!
//! A line `end` ends a case; what follows the last one is one more case, unless it is empty. `specs/Cases` defines the
//! cases of a text. Nothing after the line `end` is read before the case is returned, except what the reader buffers.
//! A line that is too long for any text isn't kept, nor what follows it in its case: `specs/Long` says what is.
//! `next_case_at_hand` takes a case only if the reader has all of it at hand, so it never waits for input; no clause
//! says so. Lines are taken from the reader by `counted::Counted::append_lines`, all that are at hand at once.
#![tactic(auto)]

mod laws;

ghost use Rattle.std.specs.Prelude.{◌≡◌, ◌^◌, ◌+◌, ◌<◌, ℕ, length, [], true, false, OnOk, Ok, Err};
ghost use Rattle.std.specs.Io.KnownBytes.{Consumes};
ghost use Rattle.counted.specs.Counting.{left_of, failures_of, one_more};
ghost use Rattle.bstr.specs.Text.{without_terminator};
ghost use Rattle.line_fields.specs.Lines.{is_ended};
ghost use Rattle.case_stream.specs.Cases.{ends_case};
ghost use Rattle.case_stream.specs.Left.{HasNoCase, TakesCase, TakesLast};
ghost use Rattle.case_stream.specs.Long.{SkipsCase, SkipsLast, TakesLong, TakesLongLast};
ghost use Rattle.case_stream.specs.declared.Next.{Next};
ghost use Rattle.counted.specs.declared.ends.ReadFault.{ReadFault};

use counted::{Counted, ReadFault, Taken, Wanted};
pub use laws::cases_are_cut_back;
use line_fields::without_line_end;
use std::alloc::Global;
use std::io::BufRead;

// A longer line isn't kept: with its end, it has more bytes than any line of a text may have.
const LONGEST_LINE: usize = 140_002;

// Whether a line, given with its end, ends a case.
fn ends_case(raw: &[u8]) -> bool
    ensures { result ≡ ends_case raw.now }
{
    let (text, ended) = without_line_end(raw);
    ended && text == "end".as_bytes()
}

// Whether a line is given with its end.
fn has_end(raw: &[u8]) -> bool
    ensures { result ≡ is_ended raw.now }
{
    let (_, ended) = without_line_end(raw);
    ended
}

/// What was read of the next case.
#[derive(Clone, Copy)]
pub enum Next {
    /// A case that its line `end` ends.
    Case,
    /// The last case, which the end of the input ends.
    Last,
    /// A case with a line that is too long for any text, with the length of that line without its end. Only the lines
    /// before it were kept.
    LongCase(u64),
    /// The same for the last case.
    LongLast(u64),
    /// The input has no further case.
    Nothing,
}

/// What is kept from one case of an input to the next.
#[derive(Drop)]
pub struct Kept {
    // Memory for a line.
    line: Vec<u8>,
    // Whether bytes are at hand behind the last case.
    is_more_at_hand: bool,
}

impl Kept {
    /// Before the first case.
    pub fn new(alloc: Global) -> Kept {
        Kept {
            line: Vec::new(alloc),
            is_more_at_hand: false,
        }
    }
}

// How many bytes a line has without its end, of which the last are given, and how many came before those.
fn line_length(before: u64, last: &[u8]) -> u64
    requires { before + length last.now < 2 ^ 64 }
    ensures { result ≡ before + length (without_terminator last.now) }
{
    let (text, _) = without_line_end(last);
    before + text.len() as u64
}

// Reads the rest of a case, and keeps nothing of it. Returns whether a line ended the case.
fn skip_case<B: BufRead>(r: &mut Counted<B>, line: &mut Vec<u8>) -> Result<bool, ReadFault>
    ensures case { result ≡ Ok true → SkipsCase (left_of B.remaining r.old) (left_of B.remaining r.new) }
    ensures last { result ≡ Ok false → SkipsLast (left_of B.remaining r.old) }
    ensures ok { OnOk result (failures_of r.new ≡ failures_of r.old) }
    ensures read { result ≡ Err ReadFault.Read → failures_of r.new ≡ one_more (failures_of r.old) }
    ensures memory { result ≡ Err ReadFault.OutOfMemory → failures_of r.new ≡ failures_of r.old }
{
    for _ in 0..u64::MAX {
        let Some(before) = r.read_line(LONGEST_LINE, line)? else {
            return Ok(false);
        };
        if before == 0 && ends_case(line.as_slice()) {
            return Ok(true);
        }
    }
    Err(ReadFault::OutOfMemory)
}

/// Reads the next case into `text`, without the line that ends it. If one of its lines is too long for any text, only
/// the lines before that one are kept.
pub fn next_case<B: BufRead>(
    r: &mut Counted<B>,
    kept: &mut Kept,
    text: &mut Vec<u8>,
) -> Result<Next, ReadFault>
    ensures case { result ≡ Ok Next.Case → TakesCase (left_of B.remaining r.old) (left_of B.remaining r.new)
        text.new.items }
    ensures last { result ≡ Ok Next.Last → TakesLast (left_of B.remaining r.old) text.new.items }
    ensures long { (size : ℕ) → result ≡ Ok (Next.LongCase size) → TakesLong (left_of B.remaining r.old)
        (left_of B.remaining r.new) size text.new.items }
    ensures long_last { (size : ℕ) → result ≡ Ok (Next.LongLast size) →
        TakesLongLast (left_of B.remaining r.old) size text.new.items }
    ensures nothing { result ≡ Ok Next.Nothing → HasNoCase (left_of B.remaining r.old) }
    ensures ok { OnOk result (failures_of r.new ≡ failures_of r.old) }
    ensures read { result ≡ Err ReadFault.Read → failures_of r.new ≡ one_more (failures_of r.old) }
    ensures memory { result ≡ Err ReadFault.OutOfMemory → failures_of r.new ≡ failures_of r.old }
{
    text.clear();
    kept.is_more_at_hand = false;
    for _ in 0..u64::MAX {
        match r.append_lines(b"end".as_slice(), LONGEST_LINE, Wanted::Any, text)? {
            Taken::ToWord(is_more_at_hand) => {
                kept.is_more_at_hand = is_more_at_hand;
                return Ok(Next::Case);
            }
            Taken::Lines => continue,
            Taken::Nothing => {}
            Taken::AtEnd if text.is_empty() => return Ok(Next::Nothing),
            Taken::AtEnd => return Ok(Next::Last),
        }
        // The next line is cut, or too long.
        match r.read_line(LONGEST_LINE, &mut kept.line)? {
            None if text.is_empty() => return Ok(Next::Nothing),
            None => return Ok(Next::Last),
            Some(0) => {}
            Some(before) => {
                let length = line_length(before, kept.line.as_slice());
                return match skip_case(r, &mut kept.line)? {
                    true => Ok(Next::LongCase(length)),
                    false => Ok(Next::LongLast(length)),
                };
            }
        }
        if ends_case(kept.line.as_slice()) {
            return Ok(Next::Case);
        }
        if text.extend_from_slice(kept.line.as_slice()).is_err() {
            return Err(ReadFault::OutOfMemory);
        }
        if !has_end(kept.line.as_slice()) {
            return Ok(Next::Last);
        }
    }
    Err(ReadFault::OutOfMemory)
}

/// Reads the next case into `text`, if all of it is at hand, with the line that ends it, and returns whether it was.
/// What isn't at hand is left as it is, so this call never waits for input.
pub fn next_case_at_hand<B: BufRead>(
    r: &mut Counted<B>,
    kept: &mut Kept,
    text: &mut Vec<u8>,
) -> Result<bool, ReadFault>
    ensures case { result ≡ Ok true → TakesCase (left_of B.remaining r.old) (left_of B.remaining r.new)
        text.new.items }
    ensures left { result ≡ Ok false → Consumes (left_of B.remaining r.old) (left_of B.remaining r.new) [] }
    ensures ok { OnOk result (failures_of r.new ≡ failures_of r.old) }
    ensures read { result ≡ Err ReadFault.Read → failures_of r.new ≡ one_more (failures_of r.old) }
    ensures memory { result ≡ Err ReadFault.OutOfMemory → failures_of r.new ≡ failures_of r.old }
{
    if !kept.is_more_at_hand {
        return Ok(false);
    }
    kept.is_more_at_hand = false;
    text.clear();
    match r.append_lines(b"end".as_slice(), LONGEST_LINE, Wanted::ToWord, text)? {
        Taken::ToWord(is_more_at_hand) => {
            kept.is_more_at_hand = is_more_at_hand;
            Ok(true)
        }
        Taken::Lines | Taken::Nothing | Taken::AtEnd => Ok(false),
    }
}
