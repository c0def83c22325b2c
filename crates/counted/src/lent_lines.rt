//! One line of a reader, which stays in the reader's buffer.

ghost use Rattle.std.specs.Prelude.{◌≡◌, ◌+◌, ◌≤◌, ◌<◌, ◌^◌, OnOk, IfOk, IfSome, MatchOption};
ghost use Rattle.std.specs.Prelude.{length, take, drop};
ghost use Rattle.std.specs.Io.KnownBytes.{prepend_known};
ghost use Rattle.counted.specs.Counting.{left_of, line_of, unread_of, failures_of, one_more};
ghost use Rattle.counted.specs.LineParts.{HasNoFeed, IsEnd, IsEndRead, IsAppended, GivesLine, discarded};
ghost use Rattle.counted.specs.Buffered.{line_in, unread_in};

use crate::buffer::Buffer;
use crate::ends::{Counted, End, MOST_CALLS, ReadFault};
use crate::lines::{MOST_AT_ONCE, keep_last};
use memchr::memchr;
use std::alloc::Global;
use std::io::BufRead;

// Where a line ends in its next bytes, if it does: after its LF, or at once if there are none.
fn line_end(bytes: &[u8]) -> Option<usize>
    ensures { MatchOption result (HasNoFeed bytes.now) (λ stop. IsEnd stop bytes.now) }
{
    if bytes.is_empty() {
        return Some(0);
    }
    match memchr(b'\n', bytes) {
        Some(at) => Some(at + 1),
        None => None,
    }
}

// Appends the bytes of one read, up to a limit, to a line that isn't at its end, and returns where it ends in these
// bytes, if it does; the end of the input is none. Nothing is counted.
fn append_bytes<B: BufRead>(inner: &mut B, line: &mut Vec<u8>) -> Result<Option<usize>, ReadFault>
    ensures { IfOk result (λ stop. IsAppended 8192 (IsEndRead stop (B.remaining inner.old) (B.remaining inner.new))
        (B.remaining inner.old) (B.remaining inner.new) line.old.items line.new.items) }
{
    let available = match inner.fill_buf() {
        Ok(available) => available,
        Err(_) => return Err(ReadFault::Read),
    };
    let part = &available[..available.len().min(MOST_AT_ONCE)];
    if line.extend_from_slice(part).is_err() {
        return Err(ReadFault::OutOfMemory);
    }
    let stop = line_end(part);
    let count = part.len();
    inner.consume(count);
    Ok(stop)
}

impl<B: BufRead> End<B> {
    // Appends the bytes of one read, as `append_bytes`; the call and its failure are counted.
    fn append_piece(&mut self, line: &mut Vec<u8>) -> Result<Option<usize>, ReadFault>
        ensures piece { IfOk result (λ stop. IsAppended 8192
            (IsEndRead stop (B.remaining self.old.inner) (B.remaining self.new.inner))
            (B.remaining self.old.inner) (B.remaining self.new.inner) line.old.items line.new.items) }
        ensures ok { OnOk result (self.new.failures ≡ self.old.failures) }
        ensures read { result ≡ Err ReadFault.Read → self.new.failures ≡ one_more self.old.failures }
        ensures memory { result ≡ Err ReadFault.OutOfMemory → self.new.failures ≡ self.old.failures }
    {
        if !self.may_call() {
            self.count_failure();
            return Err(ReadFault::Read);
        }
        let stop = append_bytes(&mut self.inner, line);
        if let Err(ReadFault::Read) = stop {
            self.count_failure();
        }
        stop
    }

    // Reads on to the end of a line, of which these bytes were read and have no LF; more bytes may be read than the
    // line has. The answer is how many bytes of the line were discarded, and where it ends.
    fn complete(&mut self, most: usize, line: &mut Vec<u8>) -> Result<(u64, usize), ReadFault>
        requires most { most < 2 ^ 32 }
        requires open { HasNoFeed line.old.items }
        ensures within { IfOk result (λ end. end.1 ≤ length line.new.items) }
        ensures line { IfOk result (λ end. GivesLine most
            (prepend_known line.old.items (B.remaining self.old.inner))
            (prepend_known (drop end.1 line.new.items) (B.remaining self.new.inner))
            (discarded end.0 end.1) (take end.1 line.new.items)) }
        ensures fits { IfOk result (λ end. end.0 + length line.new.items < 2 ^ 64) }
        ensures ok { OnOk result (self.new.failures ≡ self.old.failures) }
        ensures read { result ≡ Err ReadFault.Read → self.new.failures ≡ one_more self.old.failures }
        ensures memory { result ≡ Err ReadFault.OutOfMemory → self.new.failures ≡ self.old.failures }
    {
        let mut before = 0;
        for _ in 0..MOST_CALLS {
            let begin = line.len();
            if let Some(stop) = self.append_piece(line)? {
                return Ok((before, begin + stop));
            }
            if line.len() > most {
                before += keep_last(line);
            }
        }
        self.count_failure();
        Err(ReadFault::Read)
    }
}

impl Buffer {
    // Gives the next line, of which the unread bytes have no LF.
    fn give_completed<B: BufRead>(
        &mut self,
        end: &mut End<B>,
        most: usize,
    ) -> Result<Option<u64>, ReadFault>
        requires most { most < 2 ^ 32 }
        requires open { HasNoFeed (unread_in self.old) }
        ensures line { IfOk result (λ before. GivesLine most
            (prepend_known (unread_in self.old) (B.remaining end.old.inner))
            (prepend_known (unread_in self.new) (B.remaining end.new.inner)) before (line_in self.new)) }
        ensures fits { IfOk result (λ before. IfSome before (λ n. n + length (line_in self.new) < 2 ^ 64)) }
        ensures ok { OnOk result (end.new.failures ≡ end.old.failures) }
        ensures read { result ≡ Err ReadFault.Read → end.new.failures ≡ one_more end.old.failures }
        ensures memory { result ≡ Err ReadFault.OutOfMemory → end.new.failures ≡ end.old.failures }
    {
        self.drop_given();
        let (before, stop) = end.complete(most, &mut self.bytes)?;
        self.give(stop);
        if before == 0 && stop == 0 {
            return Ok(None);
        }
        Ok(Some(before))
    }
}

impl<B: BufRead> Counted<B> {
    /// Reads one line with its LF, or all that is left if no LF follows, and keeps it for `line`. Of a line of more
    /// than `most` bytes, only the last may be kept; the answer is how many bytes came before those. `None` means the
    /// end of the input. Bytes are read only if the line isn't buffered, and then at most 8 KiB a call.
    #[inline(always)]
    pub fn next_line(&mut self, alloc: Global, most: usize) -> Result<Option<u64>, ReadFault>
        requires { most < 2 ^ 32 }
        ensures line { IfOk result (λ before. GivesLine most (left_of B.remaining self.old)
            (left_of B.remaining self.new) before (line_of self.new)) }
        ensures fits { IfOk result (λ before. IfSome before (λ n. n + length (line_of self.new) < 2 ^ 64)) }
        ensures ok { OnOk result (failures_of self.new ≡ failures_of self.old) }
        ensures read { result ≡ Err ReadFault.Read → failures_of self.new ≡ one_more (failures_of self.old) }
        ensures memory { result ≡ Err ReadFault.OutOfMemory → failures_of self.new ≡ failures_of self.old }
    {
        if let Some(buffer) = &mut self.buffer
            && buffer.give_line()
        {
            return Ok(Some(0));
        }
        self.read_on(alloc, most)
    }

    // The same where the unread bytes have no LF.
    #[inline(never)]
    fn read_on(&mut self, alloc: Global, most: usize) -> Result<Option<u64>, ReadFault>
        requires most { most < 2 ^ 32 }
        requires open { HasNoFeed (unread_of self.old) }
        ensures line { IfOk result (λ before. GivesLine most (left_of B.remaining self.old)
            (left_of B.remaining self.new) before (line_of self.new)) }
        ensures fits { IfOk result (λ before. IfSome before (λ n. n + length (line_of self.new) < 2 ^ 64)) }
        ensures ok { OnOk result (failures_of self.new ≡ failures_of self.old) }
        ensures read { result ≡ Err ReadFault.Read → failures_of self.new ≡ one_more (failures_of self.old) }
        ensures memory { result ≡ Err ReadFault.OutOfMemory → failures_of self.new ≡ failures_of self.old }
    {
        let mut buffer = match self.buffer.take() {
            Some(buffer) => buffer,
            None => Buffer::new(alloc),
        };
        let answer = buffer.give_completed(&mut self.end, most);
        self.buffer = Some(buffer);
        answer
    }
}

impl<X> Counted<X> {
    /// What was kept of the line that `next_line` read last.
    #[inline(always)]
    pub fn line(&self) -> &[u8]
        ensures { result.now ≡ line_of self.now }
    {
        match &self.buffer {
            Some(buffer) => buffer.line(),
            None => b"",
        }
    }
}
