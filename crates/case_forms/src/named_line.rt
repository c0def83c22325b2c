//! A line of the trace, as a step of a witness names it.

ghost use Rattle.std.specs.Prelude.{◌≡◌};
ghost use Rattle.case_forms.specs.Steps.{extras_count};

use crate::OutOfMemory;
use crate::steps::Takes;

/// The extra numbers of a step that uses a line.
#[derive(Clone, Copy)]
pub enum Extras {
    /// No extra number.
    Bare,
    /// One: for a segment sent, the number of the built segment; for a segment that arrives, the line that it copies.
    One(u32),
    /// Two: the congestion window and the slow start threshold, in bytes.
    Two(u32, u32),
}

impl Extras {
    /// How many extra numbers there are.
    pub fn count(self) -> u8
        ensures { result ≡ extras_count self }
    {
        match self {
            Extras::Bare => 0,
            Extras::One(_) => 1,
            Extras::Two(_, _) => 2,
        }
    }
}

/// `n [x [y]]`: the line that a step uses, by its number. Any line may have zero, one or two extra numbers here;
/// `TakenLine` says how many a line of its kind needs.
#[derive(Clone, Copy)]
pub struct NamedLine {
    /// Its number among all lines of the trace, including the header's.
    pub number: u64,
    pub extras: Extras,
}

impl Takes for NamedLine {
    fn copy(&self) -> Result<Self, OutOfMemory> {
        Ok(*self)
    }
}
