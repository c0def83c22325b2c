//! The words of the command line, as text.

ghost use Rattle.std.specs.Prelude.{◌≡◌, map};
ghost use Rattle.cli.specs.GivenWords.{plain};
ghost use Rattle.cli.specs.HexText.{segment_in};

use std::alloc::Global;
use std::env::{Args, Env, FillError};
use std::io;
use std::str::from_utf8;

/// The words of the command line, the program's name first. If a word isn't UTF-8, each of its bytes that isn't ASCII
/// becomes a NUL, which no word given to a process contains; so a word is always text. Nothing that the program knows
/// is spelled with a NUL, so the answer to the words stays the same: `segment` with such a word is `bad segment hex`,
/// and other words are `bad usage`, also for a file's name (`file_names`). The error is that memory ran out.
pub fn given_words<E: Env>(env: &E, alloc: Global) -> io::Result<Args> {
    std::env::args(&(TextWords { env }, alloc))
}

// Words that are text.
#[derive(Drop)]
struct TextWords<'a, E> {
    env: &'a E,
}

impl<E: Env> Env for TextWords<'_, E> {
    fn arg(&self, i: usize, buf: &mut [u8]) -> Result<usize, FillError> {
        let length = self.env.arg(i, buf)?;
        let word = &mut buf[..length];
        if from_utf8(word).is_err() {
            make_plain(word);
        }
        Ok(length)
    }

    fn var(&self, name: &str, buf: &mut [u8]) -> Result<usize, FillError> {
        self.env.var(name, buf)
    }

    fn var_at(&self, i: usize, buf: &mut [u8]) -> Result<usize, FillError> {
        self.env.var_at(i, buf)
    }
}

// Each byte of a word that is not ASCII becomes a NUL. The word encodes the same segment, or has the same fault.
fn make_plain(word: &mut [u8])
    ensures plain { word.new ≡ map plain word.old }
    ensures segment { segment_in word.new ≡ segment_in word.old }
{
    for byte in word.iter_mut() {
        *byte = plain(*byte);
    }
}

fn plain(byte: u8) -> u8
    ensures { result ≡ plain byte }
{
    if byte < 128 { byte } else { 0 }
}
