//! A reader or a writer with its count of failures.

ghost use Rattle.std.specs.Prelude.{◌≡◌, ◌≤◌, ◌^◌};

use crate::buffer::Buffer;
use std::io;
use std::io::{ErrorKind, Read, Write};

// After this many calls, every call fails.
pub(crate) const MOST_CALLS: u64 = 1 << 50;

// The count of failures stops here.
const MOST_FAILURES: u64 = 1 << 60;

/// A reader or a writer that counts its failed reads and writes. After 2^50 calls every call fails, and so does a write
/// that writes none of its bytes; these failures are counted, too. Nothing else is counted.
#[derive(Drop)]
pub struct Counted<X> {
    pub(crate) end: End<X>,
    // None before the first call of `next_line`.
    pub(crate) buffer: Option<Buffer>,
}

// A reader or a writer, and its counts.
#[derive(Drop)]
pub(crate) struct End<X> {
    pub(crate) inner: X,
    calls: u64,
    failures: u64,
    ghost callable: { calls ≤ 2 ^ 50 },
    ghost at_most: { failures ≤ 2 ^ 60 },
}

/// The counts of a reader or a writer.
#[derive(Clone, Copy)]
pub struct CallCounts {
    calls: u64,
    failures: u64,
    ghost callable: { calls ≤ 2 ^ 50 },
    ghost at_most: { failures ≤ 2 ^ 60 },
}

// The error of a call beyond the limit of calls.
fn spent() -> io::Error {
    io::Error::new(ErrorKind::Other, "too many calls")
}

// The error of a write that writes none of its bytes.
fn nothing_taken() -> io::Error {
    io::Error::new(ErrorKind::WriteZero, "nothing was taken")
}

impl<X> Counted<X> {
    ghost use Rattle.std.specs.Prelude.{List, Option, [], ℕ};
    ghost use Rattle.counted.specs.Counting.{failures_of, calls_of, inner_of, left_of, unread_of};

    /// A reader or a writer with no failures yet.
    pub fn new(inner: X) -> Counted<X>
        ensures inner { inner_of result ≡ inner }
        ensures unread { unread_of result ≡ [] }
        ensures none { failures_of result ≡ 0 }
        ensures uncalled { calls_of result ≡ 0 }
    {
        Counted {
            end: End {
                inner,
                calls: 0,
                failures: 0,
            },
            buffer: None,
        }
    }

    /// How many reads and writes failed; the count stops at 2^60.
    pub fn failures(&self) -> u64
        ensures { result ≡ failures_of self.now }
    {
        self.end.failures
    }

    /// The same reader or writer, lent with its counts and with the bytes that it has buffered. What it counts from
    /// then on has to be told: `count_on`. Bytes that it has buffered in the end are lost.
    pub fn lent(&mut self) -> Counted<&mut X>
        ensures inner { (inner_of result).now ≡ inner_of self.old }
        ensures unread { unread_of result ≡ unread_of self.old }
        ensures failures { failures_of result ≡ failures_of self.old }
        ensures calls { calls_of result ≡ calls_of self.old }
    {
        let buffer = self.buffer.take();
        Counted {
            end: self.end.lent(),
            buffer,
        }
    }

    /// Goes on from these counts, which are those of what was lent.
    pub fn count_on(&mut self, counts: CallCounts)
        ensures failures { failures_of self.new ≡ counts.failures }
        ensures calls { calls_of self.new ≡ counts.calls }
    {
        self.end.calls = counts.calls;
        self.end.failures = counts.failures;
    }

    /// What it has counted.
    pub fn counts(&self) -> CallCounts
        ensures failures { result.failures ≡ failures_of self.now }
        ensures calls { result.calls ≡ calls_of self.now }
    {
        CallCounts {
            calls: self.end.calls,
            failures: self.end.failures,
        }
    }
}

impl<X> End<X> {
    ghost use Rattle.std.specs.Prelude.{◌<◌, ◌↔◌, IsTrue};
    ghost use Rattle.counted.specs.Counting.{one_call_more, one_more, Counts};

    // The same reader or writer, lent with its counts.
    fn lent(&mut self) -> End<&mut X>
        ensures inner { result.inner.now ≡ self.old.inner }
        ensures failures { result.failures ≡ self.old.failures }
        ensures calls { result.calls ≡ self.old.calls }
    {
        let calls = self.calls;
        let failures = self.failures;
        End {
            inner: &mut self.inner,
            calls,
            failures,
        }
    }

    // The answer of a read or write; a failure is counted.
    fn tally<T>(&mut self, answer: io::Result<T>) -> io::Result<T>
        ensures answer { result ≡ answer }
        ensures inner { self.new.inner ≡ self.old.inner }
        ensures calls { self.new.calls ≡ self.old.calls }
        ensures counts { Counts result self.old.failures self.new.failures }
    {
        if answer.is_err() {
            self.count_failure();
        }
        answer
    }

    // Counts one failure.
    pub(crate) fn count_failure(&mut self)
        ensures inner { self.new.inner ≡ self.old.inner }
        ensures calls { self.new.calls ≡ self.old.calls }
        ensures one { self.new.failures ≡ one_more self.old.failures }
    {
        self.failures = (self.failures + 1).min(MOST_FAILURES);
    }

    // Whether one more call may be made; the call is counted.
    pub(crate) fn may_call(&mut self) -> bool
        ensures may { IsTrue result ↔ (self.old.calls < 2 ^ 50) }
        ensures calls { self.new.calls ≡ one_call_more self.old.calls }
        ensures inner { self.new.inner ≡ self.old.inner }
        ensures same { self.new.failures ≡ self.old.failures }
    {
        if self.calls >= MOST_CALLS {
            return false;
        }
        self.calls += 1;
        true
    }
}

impl<R: Read> Read for Counted<R> {
    ghost use Rattle.std.specs.Prelude.{◌≡◌, ◌≤◌, ◌^◌, IsErr};
    ghost use Rattle.std.specs.Io.{ReadsAtMost};
    ghost use Rattle.std.specs.Io.KnownBytes.{ReadConsumes};
    ghost use Rattle.counted.specs.Counting.{left_of, failures_of, calls_of, one_call_more, Counts};

    ghost remaining = { left_of R.remaining };

    fn read(&mut self, buf: &mut [u8]) -> io::Result<usize>
        ensures bound { ReadsAtMost result buf.new }
        ensures bytes { ReadConsumes (left_of R.remaining self.old) (left_of R.remaining self.new) result buf.new }
        ensures counts { Counts result (failures_of self.old) (failures_of self.new) }
        ensures spent { 2 ^ 50 ≤ calls_of self.old → IsErr result }
        ensures calls { calls_of self.new ≡ one_call_more (calls_of self.old) }
    {
        if !self.end.may_call() {
            return self.end.tally(Err(spent()));
        }
        if let Some(buffer) = &mut self.buffer
            && buffer.has_unread()
        {
            return Ok(buffer.give_to(buf));
        }
        let answer = self.end.inner.read(buf);
        self.end.tally(answer)
    }
}

impl<W: Write> Write for Counted<W> {
    ghost use Rattle.std.specs.Prelude.{◌≡◌, ◌≤◌, ◌^◌, IsErr, IfOk, OnOk, ◌<◌, length};
    ghost use Rattle.std.specs.Io.{WritesAtMost};
    ghost use Rattle.std.specs.Io.KnownBytes.{WriteAppends, Keeps, Appends};
    ghost use Rattle.counted.specs.Counting.{left_of, failures_of, calls_of, one_call_more, Counts};

    ghost contents = { left_of W.contents };

    fn write(&mut self, buf: &[u8]) -> io::Result<usize>
        ensures bound { WritesAtMost result buf.now }
        ensures bytes { WriteAppends (left_of W.contents self.old) (left_of W.contents self.new) result buf.now }
        ensures counts { Counts result (failures_of self.old) (failures_of self.new) }
        ensures takes { IfOk result (λ n. 0 < length buf.now → 0 < n) }
        ensures spent { 2 ^ 50 ≤ calls_of self.old → IsErr result }
        ensures calls { calls_of self.new ≡ one_call_more (calls_of self.old) }
    {
        if !self.end.may_call() {
            return self.end.tally(Err(spent()));
        }
        let answer = match self.end.inner.write(buf) {
            Ok(0) if !buf.is_empty() => Err(nothing_taken()),
            answer => answer,
        };
        self.end.tally(answer)
    }

    // It ends at the first call that fails, including an interrupted one.
    fn write_all(&mut self, buf: &[u8]) -> io::Result<()>
        ensures bytes { OnOk result (Appends (left_of W.contents self.old) (left_of W.contents self.new) buf.now) }
        ensures counts { Counts result (failures_of self.old) (failures_of self.new) }
    {
        let mut at = 0;
        while at < buf.len() {
            at += self.write(&buf[at..])?;
        }
        Ok(())
    }

    fn flush(&mut self) -> io::Result<()>
        ensures bytes { Keeps (left_of W.contents self.old) (left_of W.contents self.new) }
        ensures counts { Counts result (failures_of self.old) (failures_of self.new) }
        ensures spent { 2 ^ 50 ≤ calls_of self.old → IsErr result }
        ensures calls { calls_of self.new ≡ one_call_more (calls_of self.old) }
    {
        if !self.end.may_call() {
            return self.end.tally(Err(spent()));
        }
        let answer = self.end.inner.flush();
        self.end.tally(answer)
    }
}

/// Why a reader could not be read to its end.
#[derive(Clone, Copy)]
pub enum ReadFault {
    /// A read failed, and was counted.
    Read,
    /// There was no memory for the bytes that were read. Nothing was counted.
    OutOfMemory,
}
