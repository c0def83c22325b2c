//! Some positions, one after the other.

/// The positions from `from` to before `upto`; none if `upto` isn't above `from`.
#[derive(Clone, Copy)]
pub struct Stretch {
    pub from: u64,
    pub upto: u64,
}
