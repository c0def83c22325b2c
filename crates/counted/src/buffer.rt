//! The buffer of a reader, which gives lines.

ghost use Rattle.std.specs.Prelude.{◌≡◌, ◌≤◌, ◌<◌, ◌+◌, ◌++◌, ◌↔◌, IsTrue, true, false, [], length, take, drop, min};
ghost use Rattle.counted.specs.LineParts.{HasNoFeed, EndsAtFeed};

use memchr::memchr;
use std::alloc::Global;

// Bytes of a reader: the line that was given last, and behind it those that weren't given yet, the unread ones.
#[derive(Drop)]
pub(crate) struct Buffer {
    pub(crate) bytes: Vec<u8>,
    // Where that line begins.
    line: usize,
    // Where it ends.
    next: usize,
    ghost ordered: { line ≤ next },
    ghost within: { next ≤ length bytes.items },
}

impl Buffer {
    ghost use Rattle.counted.specs.Buffered.{line_in, unread_in};

    // An empty buffer.
    pub(crate) fn new(alloc: Global) -> Buffer
        ensures { unread_in result ≡ [] }
    {
        Buffer {
            bytes: Vec::new(alloc),
            line: 0,
            next: 0,
        }
    }

    // The line that was given last.
    #[inline(always)]
    pub(crate) fn line(&self) -> &[u8]
        ensures { result.now ≡ line_in self.now }
    {
        &self.bytes.as_slice()[self.line..self.next]
    }

    // The bytes that weren't given yet.
    #[inline(always)]
    pub(crate) fn unread(&self) -> &[u8]
        ensures { result.now ≡ unread_in self.now }
    {
        &self.bytes.as_slice()[self.next..]
    }

    // Whether there are any.
    pub(crate) fn has_unread(&self) -> bool
        ensures { IsTrue result ↔ (0 < length (unread_in self.now)) }
    {
        self.next < self.bytes.len()
    }

    // Gives so many bytes as a line.
    #[inline(always)]
    pub(crate) fn give(&mut self, count: usize)
        requires { count ≤ length (unread_in self.old) }
        ensures line { line_in self.new ≡ take count (unread_in self.old) }
        ensures unread { unread_in self.new ≡ drop count (unread_in self.old) }
    {
        self.line = self.next;
        self.next += count;
    }

    // Gives the next line, if the buffer has all of it.
    #[inline(always)]
    pub(crate) fn give_line(&mut self) -> bool
        ensures line { result ≡ true → EndsAtFeed (line_in self.new)
            × (unread_in self.old ≡ line_in self.new ++ unread_in self.new) }
        ensures none { result ≡ false → HasNoFeed (unread_in self.old) × (unread_in self.new ≡ unread_in self.old) }
    {
        match memchr(b'\n', self.unread()) {
            Some(at) => {
                self.give(at + 1);
                true
            }
            None => false,
        }
    }

    // Gives bytes as far as there is room, and returns how many.
    pub(crate) fn give_to(&mut self, buf: &mut [u8]) -> usize
        ensures count { result ≡ min (length (unread_in self.old)) (length buf.old) }
        ensures bytes { take result buf.new ≡ take result (unread_in self.old) }
        ensures unread { unread_in self.new ≡ drop result (unread_in self.old) }
    {
        let unread = self.unread();
        let count = unread.len().min(buf.len());
        buf[..count].copy_from_slice(&unread[..count]);
        self.give(count);
        count
    }

    // Drops the bytes that were given.
    pub(crate) fn drop_given(&mut self)
        ensures bytes { self.new.bytes.items ≡ unread_in self.old }
        ensures front { self.new.next ≡ 0 }
    {
        let count = self.bytes.len() - self.next;
        self.bytes.copy_within(self.next.., 0);
        self.line = 0;
        self.next = 0;
        self.bytes.truncate(count);
    }
}
