//! A text that is written in pieces.

use case_forms::OutOfMemory;
use std::alloc::{AllocError, Global};
use std::fmt;

/// What is written so far. A sheet notes if memory runs out, so that only its end has to ask. That is quicker to prove
/// than a question after each piece, and `say` than `write!`.
#[derive(Drop)]
pub struct Sheet {
    words: String,
    is_cut: bool,
}

impl Sheet {
    /// An empty sheet.
    pub fn new(alloc: Global) -> Sheet {
        Sheet {
            words: String::new(alloc),
            is_cut: false,
        }
    }

    /// Notes whether memory ran out.
    pub fn note(&mut self, done: Result<(), OutOfMemory>) {
        if done.is_err() {
            self.is_cut = true;
        }
    }

    /// Writes words.
    pub fn put(&mut self, words: &str) {
        let done = self.words.push_str(words);
        self.note(done);
    }

    /// Writes a number.
    pub fn number(&mut self, number: u64) {
        let done = self.words.write(number);
        self.note(done);
    }

    /// Writes a sentence with these numbers instead of its `{}`, one for each.
    pub fn say(&mut self, sentence: &str, numbers: &[u64]) {
        let mut left = numbers.iter();
        for words in sentence.split("{}") {
            self.put(words);
            if let Some(number) = left.next() {
                self.number(*number);
            }
        }
    }

    /// Writes a value.
    pub fn show(&mut self, value: &impl fmt::Display) {
        let done = self.words.write(value);
        self.note(done);
    }

    /// How many bytes are written.
    pub fn len(&self) -> usize {
        self.words.len()
    }

    /// What was written. An error says that memory ran out before the end.
    pub fn finish(self) -> Result<String, OutOfMemory> {
        let Sheet { words, is_cut } = self;
        if is_cut {
            return Err(AllocError);
        }
        Ok(words)
    }
}

/// What is written so far. It can't be shown if memory ran out.
impl fmt::Display for Sheet {
    fn fmt<W: fmt::Write>(&self, f: &mut fmt::Formatter<W>) -> fmt::Result {
        if self.is_cut {
            return Err(fmt::Error);
        }
        f.write_str(self.words.as_str())
    }
}
