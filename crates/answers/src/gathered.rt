//! Lines of answers that are written at once.

ghost use Rattle.std.specs.Prelude.{◌≡◌, ◌++◌, [], max, OnErr, OnOk};

use std::alloc::{AllocError, Global};

/// Lines of answers, one after the other, and the greatest of their statuses, or 0 if there are none.
#[derive(Drop)]
pub struct Gathered {
    pub lines: Vec<u8>,
    pub greatest: u8,
}

impl Gathered {
    /// No line.
    pub fn new(alloc: Global) -> Gathered
        ensures lines { result.lines.items ≡ [] }
        ensures greatest { result.greatest ≡ 0 }
    {
        Gathered {
            lines: Vec::new(alloc),
            greatest: 0,
        }
    }

    /// Appends the line of an answer with this status. If there is no memory for it, nothing changes.
    pub fn push(&mut self, line: &[u8], status: u8) -> Result<(), AllocError>
        ensures lines { OnOk result (self.new.lines.items ≡ self.old.lines.items ++ line.now) }
        ensures greatest { OnOk result (self.new.greatest ≡ max self.old.greatest status) }
        ensures same_lines { OnErr result (self.new.lines.items ≡ self.old.lines.items) }
        ensures same_greatest { OnErr result (self.new.greatest ≡ self.old.greatest) }
    {
        self.lines.extend_from_slice(line)?;
        self.greatest = self.greatest.max(status);
        Ok(())
    }
}
