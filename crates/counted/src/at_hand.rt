//! The lines that a reader has at hand, up to the line of a word.

ghost use Rattle.std.specs.Prelude.{◌≡◌, ◌≢◌, ◌↔◌, ◌+◌, ◌≤◌, ◌<◌, ◌^◌, OnOk, OnErr, IfOk, IsTrue, length};
ghost use Rattle.std.specs.Prelude.{slice_range, IfSome, MatchResult, take};
ghost use Rattle.std.specs.Io.{StartsWith, appended_bytes};
ghost use Rattle.counted.specs.Counting.{left_of, failures_of, calls_of, one_call_more, one_more, unread_of};
ghost use Rattle.counted.specs.AtHand.{AreOthers, IsWordLine, IsTaken, Takes};
ghost use Rattle.counted.specs.declared.at_hand.Wanted.{Wanted};
ghost use Rattle.counted.specs.declared.at_hand.Taken.{Taken};

use crate::ends::{Counted, ReadFault};
use memchr::memchr;
use std::io::BufRead;

/// Which lines at hand are taken.
#[derive(Clone, Copy, PartialEq, Eq)]
pub enum Wanted {
    /// Those before the word's line, or all, if that isn't at hand.
    Any,
    /// Those before the word's line, or none, if that isn't at hand.
    ToWord,
}

/// What was taken of the lines at hand.
#[derive(Clone, Copy)]
pub enum Taken {
    /// The lines before the word's line, which was read, too. After it, bytes are still at hand, or none are.
    ToWord(bool),
    /// Complete lines, none of which is the word.
    Lines,
    /// No line: what is wanted isn't at hand.
    Nothing,
    /// No line: the input is at its end.
    AtEnd,
}

// How far the complete lines of some bytes go.
#[derive(Clone, Copy)]
struct Cut {
    // Where the lines before the word's line end, or all lines, if that isn't among them.
    lines: usize,
    // Where the word's line ends.
    word: Option<usize>,
}

// Whether a line, given with its LF, is the word.
#[inline(always)]
fn is_word_line(raw: &[u8], word: &[u8]) -> bool
    ensures { IsTrue result ↔ IsWordLine word.now raw.now }
{
    if raw.len() <= word.len() {
        return false;
    }
    let (text, end) = raw.split_at(word.len());
    text == word && (end == b"\n".as_slice() || end == b"\r\n".as_slice())
}

// Where these bytes are to be cut.
#[inline(always)]
fn cut_at_word(bytes: &[u8], word: &[u8]) -> Cut
    ensures within { result.lines ≤ length bytes.now }
    ensures lines { AreOthers word.now (take result.lines bytes.now) }
    ensures word { IfSome result.word (λ end. (result.lines < end) × (end ≤ length bytes.now)
        × IsWordLine word.now (slice_range bytes.now result.lines end)) }
{
    let mut lines = 0;
    while let Some(feed) = memchr(b'\n', &bytes[lines..]) {
        let end = lines + feed + 1;
        if is_word_line(&bytes[lines..end], word) {
            return Cut {
                lines,
                word: Some(end),
            };
        }
        lines = end;
    }
    Cut { lines, word: None }
}

// Takes what is wanted of the lines that one read has at hand, as `append_lines`, and counts nothing.
#[inline(always)]
fn append_wanted<B: BufRead>(
    inner: &mut B,
    word: &[u8],
    most: usize,
    wanted: Wanted,
    buf: &mut Vec<u8>,
) -> Result<Taken, ReadFault>
    ensures { MatchResult result
        (λ taken. IsTaken wanted taken (B.remaining inner.old) (B.remaining inner.new)
        word.now buf.old.items buf.new.items)
        (λ _. buf.new.items ≡ buf.old.items) }
{
    let available = match inner.fill_buf() {
        Ok(available) => available,
        Err(_) => return Err(ReadFault::Read),
    };
    let count = available.len();
    if count == 0 {
        return Ok(Taken::AtEnd);
    }
    let cut = cut_at_word(&available[..count.min(most)], word);
    let (end, taken) = match cut.word {
        Some(end) => (end, Taken::ToWord(end < count)),
        None if cut.lines == 0 || wanted == Wanted::ToWord => return Ok(Taken::Nothing),
        None => (cut.lines, Taken::Lines),
    };
    if buf.extend_from_slice(&available[..cut.lines]).is_err() {
        return Err(ReadFault::OutOfMemory);
    }
    inner.consume(end);
    Ok(taken)
}

impl<X> Counted<X> {
    // Whether it has buffered bytes that weren't given yet.
    #[inline(always)]
    fn has_unread(&self) -> bool
        ensures { IsTrue result ↔ (0 < length (unread_of self.now)) }
    {
        match &self.buffer {
            Some(buffer) => buffer.has_unread(),
            None => false,
        }
    }
}

impl<B: BufRead> Counted<B> {
    /// Appends the lines that one read has at hand, up to the line that is this word, with LF or CR LF. That line is
    /// read, but not appended. `wanted` says what is taken if it isn't at hand. A line that is cut, or that has more
    /// than `most` bytes, is left. Nothing is taken while bytes that `next_line` buffered are unread. After an error,
    /// `buf` doesn't change.
    #[inline(always)]
    pub fn append_lines(
        &mut self,
        word: &[u8],
        most: usize,
        wanted: Wanted,
        buf: &mut Vec<u8>,
    ) -> Result<Taken, ReadFault>
        ensures appends { StartsWith buf.new.items buf.old.items }
        ensures taken { IfOk result (λ taken. Takes taken word.now (left_of B.remaining self.old)
            (left_of B.remaining self.new) (appended_bytes buf.old.items buf.new.items)) }
        ensures whole { wanted ≡ Wanted.ToWord → result ≢ Ok Taken.Lines }
        ensures err { OnErr result (buf.new.items ≡ buf.old.items) }
        ensures ok { OnOk result (failures_of self.new ≡ failures_of self.old) }
        ensures read { result ≡ Err ReadFault.Read → failures_of self.new ≡ one_more (failures_of self.old) }
        ensures memory { result ≡ Err ReadFault.OutOfMemory → failures_of self.new ≡ failures_of self.old }
        ensures spent { 2 ^ 50 ≤ calls_of self.old → result ≡ Err ReadFault.Read }
        ensures calls { calls_of self.new ≡ one_call_more (calls_of self.old) }
    {
        if !self.end.may_call() {
            self.end.count_failure();
            return Err(ReadFault::Read);
        }
        if self.has_unread() {
            return Ok(Taken::Nothing);
        }
        let taken = append_wanted(&mut self.end.inner, word, most, wanted, buf);
        if let Err(ReadFault::Read) = taken {
            self.end.count_failure();
        }
        taken
    }
}
