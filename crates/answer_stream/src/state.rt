//! Whether a further case can be read.

/// Whether a further case can be read.
#[derive(Clone, Copy, PartialEq, Eq)]
pub(crate) enum State {
    /// One can, if there is one.
    Open,
    /// All cases were read.
    Ended,
    /// A read failed.
    Failed,
    /// There was no memory for a case.
    OutOfMemory,
}
