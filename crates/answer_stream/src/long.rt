//! The answer to a case of which only the lines before one that is too long are held.

ghost use Rattle.std.specs.Prelude.{◌≡◌, ℕ, List, Some, min, replicate};
ghost use Rattle.checker.specs.Cases.{GivesCase, case_result};
ghost use Rattle.answer_stream.specs.Left.{IsHeld};

use checker::{CaseFault, check_case, check_reader};
use counted::Counted;
use parallel_check::CaseResult;
use std::alloc::Global;
use std::io;
use std::io::{BufRead, Read};

// What is given of a line at once.
const AT_ONCE: &[u8] = b"xxxxxxxxxxxxxxxxxxxxxxxxxxxxxxxxxxxxxxxxxxxxxxxxxxxxxxxxxxxxxxxx";

// As many bytes of a line as are left, at most 64.
fn next_bytes(left: u64) -> &'static [u8]
    ensures { result.now ≡ replicate (min left 64) 120 }
{
    if left < 64 {
        return &AT_ONCE[..left as usize];
    }
    AT_ONCE
}

// A line of so many bytes, which are all the same. It needs no memory.
#[derive(Drop)]
struct Filler {
    left: u64,
}

impl Read for Filler {
    ghost remaining = { λ f. Some (replicate f.left 120) };

    fn read(&mut self, buf: &mut [u8]) -> io::Result<usize> {
        let count = if self.left < buf.len() as u64 {
            self.left as usize
        } else {
            buf.len()
        };
        buf[..count].fill(b'x');
        self.left -= count as u64;
        Ok(count)
    }
}

impl BufRead for Filler {
    fn fill_buf(&mut self) -> io::Result<&[u8]> {
        Ok(next_bytes(self.left))
    }

    fn consume(&mut self, amount: usize) {
        self.left = self.left.saturating_sub(amount as u64);
    }
}

/// The answer to a case of which this text is held, with the length of a line that is too long. What else that line
/// has, and what comes after it, doesn't change the answer: another line of that length stands for it.
pub(crate) fn check_held(alloc: Global, held: &[u8], long: Option<u64>) -> CaseResult
    ensures { (text : List ℕ) → IsHeld long held.now text → GivesCase result (case_result text) }
{
    let Some(size) = long else {
        return check_case(alloc, held);
    };
    let source = held.chain(Filler { left: size });
    let (answer, _) = check_reader(alloc, Counted::new(source));
    match answer {
        Err(CaseFault::Read) => Err(CaseFault::OutOfMemory),
        answer => answer,
    }
}
