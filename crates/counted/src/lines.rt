//! One line of a reader, appended to a `Vec` a piece at a time.

ghost use Rattle.std.specs.Prelude.{◌≡◌, ◌≢◌, ◌+◌, ◌≤◌, ◌<◌, ◌^◌, OnOk, IfOk, IfSome, ◌++◌};
ghost use Rattle.std.specs.Prelude.{length, take};
ghost use Rattle.std.specs.Io.{StartsWith, appended_bytes};
ghost use Rattle.counted.specs.Counting.{left_of, failures_of, one_more};
ghost use Rattle.counted.specs.LineParts.{IsPart, IsPartRead, IsAppended, GivesLine};
ghost use Rattle.counted.specs.Buffered.{unread_in};

use crate::buffer::Buffer;
use crate::ends::{Counted, End, MOST_CALLS, ReadFault};
use memchr::memchr;
use std::io::BufRead;

// How many bytes of a line one read returns at most, so that 2^50 reads can be counted.
pub(crate) const MOST_AT_ONCE: usize = 8192;

// Discards all bytes but the last, and returns how many.
pub(crate) fn keep_last(line: &mut Vec<u8>) -> u64
    requires { 0 < length line.old.items }
    ensures count { result + 1 ≡ length line.old.items }
    ensures last { line.old.items ≡ take result line.old.items ++ line.new.items }
    ensures one { length line.new.items ≡ 1 }
{
    let last = line.len() - 1;
    line[0] = line[last];
    line.truncate(1);
    last as u64
}

// How many of these bytes belong to one line, up to a limit, and whether its LF is among them.
fn line_part(bytes: &[u8], most: usize) -> (usize, bool)
    ensures within { result.0 ≤ length bytes.now }
    ensures most { result.0 ≤ most }
    ensures some { 0 < length bytes.now → 0 < most → 0 < result.0 }
    ensures part { IsPart result.1 (take result.0 bytes.now) }
{
    let part = &bytes[..bytes.len().min(most)];
    match memchr(b'\n', part) {
        Some(at) => (at + 1, true),
        None => (part.len(), false),
    }
}

// Appends the bytes of one read of a line, as `append_line_piece`, and counts nothing.
#[inline(always)]
fn append_part<B: BufRead>(inner: &mut B, most: usize, buf: &mut Vec<u8>) -> Result<bool, ReadFault>
    requires { 0 < most }
    ensures { IfOk result (λ is_ended. IsAppended most
        (IsPartRead is_ended (B.remaining inner.old) (B.remaining inner.new))
        (B.remaining inner.old) (B.remaining inner.new) buf.old.items buf.new.items) }
{
    let available = match inner.fill_buf() {
        Ok(available) => available,
        Err(_) => return Err(ReadFault::Read),
    };
    let (count, is_ended) = line_part(available, most);
    if buf.extend_from_slice(&available[..count]).is_err() {
        return Err(ReadFault::OutOfMemory);
    }
    inner.consume(count);
    Ok(is_ended || count == 0)
}

impl<B: BufRead> End<B> {
    // Appends the bytes of one read of a line, as `append_part`; the call and its failure are counted.
    fn append_line_piece(&mut self, most: usize, buf: &mut Vec<u8>) -> Result<bool, ReadFault>
        requires { 0 < most }
        ensures piece { IfOk result (λ is_ended. IsAppended most
            (IsPartRead is_ended (B.remaining self.old.inner) (B.remaining self.new.inner))
            (B.remaining self.old.inner) (B.remaining self.new.inner) buf.old.items buf.new.items) }
        ensures ok { OnOk result (self.new.failures ≡ self.old.failures) }
        ensures read { result ≡ Err ReadFault.Read → self.new.failures ≡ one_more self.old.failures }
        ensures memory { result ≡ Err ReadFault.OutOfMemory → self.new.failures ≡ self.old.failures }
    {
        if !self.may_call() {
            self.count_failure();
            return Err(ReadFault::Read);
        }
        let piece = append_part(&mut self.inner, most, buf);
        if let Err(ReadFault::Read) = piece {
            self.count_failure();
        }
        piece
    }
}

impl Buffer {
    // Appends the unread bytes of a line, as `append_part`.
    fn append_to(&mut self, most: usize, buf: &mut Vec<u8>) -> Result<bool, ReadFault>
        requires { 0 < most }
        ensures appends { StartsWith buf.new.items buf.old.items }
        ensures most { length (appended_bytes buf.old.items buf.new.items) ≤ most }
        ensures bytes { unread_in self.old ≡ appended_bytes buf.old.items buf.new.items ++ unread_in self.new }
        ensures part { IfOk result (λ is_ended. IsPart is_ended (appended_bytes buf.old.items buf.new.items)) }
        ensures fault { result ≢ Err ReadFault.Read }
    {
        let (count, is_ended) = line_part(self.unread(), most);
        if buf.extend_from_slice(&self.unread()[..count]).is_err() {
            return Err(ReadFault::OutOfMemory);
        }
        self.give(count);
        Ok(is_ended)
    }
}

impl<B: BufRead> Counted<B> {
    // Appends the bytes of one read of a line, up to a limit, and returns whether the line is at its end: after its LF,
    // or at the end of the input, if there are no bytes.
    fn append_line_piece(&mut self, most: usize, buf: &mut Vec<u8>) -> Result<bool, ReadFault>
        requires { 0 < most }
        ensures piece { IfOk result (λ is_ended. IsAppended most
            (IsPartRead is_ended (left_of B.remaining self.old) (left_of B.remaining self.new))
            (left_of B.remaining self.old) (left_of B.remaining self.new) buf.old.items buf.new.items) }
        ensures ok { OnOk result (failures_of self.new ≡ failures_of self.old) }
        ensures read { result ≡ Err ReadFault.Read → failures_of self.new ≡ one_more (failures_of self.old) }
        ensures memory { result ≡ Err ReadFault.OutOfMemory → failures_of self.new ≡ failures_of self.old }
    {
        if let Some(buffer) = &mut self.buffer
            && buffer.has_unread()
        {
            return buffer.append_to(most, buf);
        }
        self.end.append_line_piece(most, buf)
    }

    /// Reads one line with its LF, or all that is left if no LF follows. Of a line of more than `most` bytes, only the
    /// last may be kept; the answer is how many bytes came before those. `None` means the end of the input.
    /// After an error, `line` has what was kept before it.
    #[inline(always)]
    pub fn read_line(&mut self, most: usize, line: &mut Vec<u8>) -> Result<Option<u64>, ReadFault>
        requires { most < 2 ^ 32 }
        ensures line { IfOk result (λ before. GivesLine most (left_of B.remaining self.old)
            (left_of B.remaining self.new) before line.new.items) }
        ensures fits { IfOk result (λ before. IfSome before (λ n. n + length line.new.items < 2 ^ 64)) }
        ensures ok { OnOk result (failures_of self.new ≡ failures_of self.old) }
        ensures read { result ≡ Err ReadFault.Read → failures_of self.new ≡ one_more (failures_of self.old) }
        ensures memory { result ≡ Err ReadFault.OutOfMemory → failures_of self.new ≡ failures_of self.old }
    {
        line.clear();
        let mut before = 0;
        for _ in 0..MOST_CALLS {
            if self.append_line_piece(MOST_AT_ONCE, line)? {
                if before == 0 && line.is_empty() {
                    return Ok(None);
                }
                return Ok(Some(before));
            }
            if line.len() > most {
                before += keep_last(line);
            }
        }
        self.end.count_failure();
        Err(ReadFault::Read)
    }
}
